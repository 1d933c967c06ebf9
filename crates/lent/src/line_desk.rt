// A step of the line desk at a count of seconds, on a desk that is lent: its words are lent on and change where they stand.
ghost use Rattle.std.specs.Prelude.{◌≡◌};
ghost use Rattle.desk.specs.Steps.{answered, answered_bytes};
ghost use Rattle.line.specs.Steps.{entered, received_bytes};

use desk::outcome::{BytesOutcome, Outcome};
use desk::steps::{Steps, step_read};
use line::Desk;
use line::entry::{Entry, bytes_entry};

// What came in at the entry: a refusal there changes nothing; else the input's step.
pub fn step(d: &mut Desk, count: u32, entry: Entry) -> Outcome
    ensures { answered d.new result ≡ entered d.old count entry }
{
    d.step(count, entry)
}

// Raw bytes received, with the place that the host names for the message: the reader's 1 and 2, which change nothing, with the place of the fault; else the message's step, and the first unread place.
#[tactic(auto, unfolding(line::specs::Steps::received_bytes))]
pub fn step_bytes(d: &mut Desk, count: u32, s: &[u8], place: usize) -> BytesOutcome
    ensures { answered_bytes d.new result ≡ received_bytes d.old count s.now place }
{
    step_read(d, count, bytes_entry(s, place))
}
