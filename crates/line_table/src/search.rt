// Which records a search is for: those that block a line, those that fit a Look, and those that a request would duplicate.
ghost use Rattle.std.specs.Prelude.{◌≡◌};
ghost use Rattle.line_table.specs.Table.{in_use};
ghost use Rattle.line_table.specs.Search.{waits, invoked, fits_kind};

use crate::table::State;
use lists::words::Words;
use message::Kind;
use terms::request::Names;

// What is looked for: by a line's number, or by whom a request names.
#[derive(Clone, Copy)]
pub enum Sought {
    Blocking(Words),
    Fitting(Words),
    Duplicate(Names),
}

pub fn in_use(state: State) -> bool
    ensures { result ≡ in_use state }
{
    state != State::Free
}

pub fn is_invoked(state: State) -> bool
    ensures { result ≡ invoked state }
{
    state == State::Invoked
}

// In Alert, or in Await without suspended mark.
pub fn is_waiting(state: State, suspended: bool) -> bool
    ensures { result ≡ waits state suspended }
{
    match state {
        State::Free | State::Invoked => false,
        State::Await => !suspended,
        State::Alert => true,
    }
}

pub fn fits_kind(kind: Kind, active: bool) -> bool
    ensures { result ≡ fits_kind kind active }
{
    match kind {
        Kind::Ccbs => true,
        Kind::Ccnr => active,
    }
}
