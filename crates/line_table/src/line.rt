// A line in flight: its number, the kinds that it allows, and its status.
ghost use Rattle.std.specs.Prelude.{◌≡◌};
ghost use Rattle.line_table.specs.Line.{allows, can_take, with_status};

use lists::words::Words;
use message::Kind;

#[derive(Clone, Copy)]
pub struct Line {
    pub number: Words,
    pub ccbs: bool,
    pub ccnr: bool,
    pub busy: bool,
}

// Whether a line allows requests of a kind.
pub fn allows_kind(line: Line, kind: Kind) -> bool
    ensures { result ≡ allows line kind }
{
    match kind {
        Kind::Ccbs => line.ccbs,
        Kind::Ccnr => line.ccnr,
    }
}

// Whether a line can take a call: the one question that Look and ringout ask.
pub fn can_take(line: Line) -> bool
    ensures { result ≡ can_take line }
{
    !line.busy
}

// The line with a status.
pub fn with_status(line: Line, busy: bool) -> Line
    ensures { result ≡ with_status line busy }
{
    Line { busy, ..line }
}
