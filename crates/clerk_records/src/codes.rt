// State words and what they stand for. A word that is no code reads as the first case: an unknown state is no record.
ghost use Rattle.std.specs.Prelude.{◌≡◌};
ghost use Rattle.clerk_records.specs.Codes.{state_of};

use clerk_table::table::State;
pub use clerk_table::table::state_code;

#[tactic(auto, unfolding(crate::specs::Codes::state_of))]
pub fn state_of(code: u64) -> State
    ensures { result ≡ state_of code }
{
    match code {
        1 => State::WaitAck,
        2 => State::Invoked,
        3 => State::WaitAnswer,
        4 => State::Ringout,
        5 => State::Suspended,
        _ => State::Free,
    }
}
