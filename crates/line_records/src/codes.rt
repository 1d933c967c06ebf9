// The words of a state. A word that is no code reads as the first case: an unknown state is no record.
ghost use Rattle.std.specs.Prelude.{◌≡◌};
ghost use Rattle.line_records.specs.Codes.{state_of, state_code};

use line_table::table::State;

#[tactic(auto, unfolding(crate::specs::Codes::state_of))]
pub fn state_of(code: u64) -> State
    ensures { result ≡ state_of code }
{
    match code {
        1 => State::Invoked,
        2 => State::Await,
        3 => State::Alert,
        _ => State::Free,
    }
}

pub fn state_code(state: State) -> u64
    ensures { result ≡ state_code state }
{
    match state {
        State::Free => 0,
        State::Invoked => 1,
        State::Await => 2,
        State::Alert => 3,
    }
}
