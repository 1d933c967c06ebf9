// The operations of the clerk's desk, each total on every desk: the desk goes in by value and comes back with the outcome. What a step does is `desk::steps`, of the one
// step that is this desk's own; `entry` makes what is put in an entry.
ghost use Rattle.std.specs.Prelude.{◌≡◌};
ghost use Rattle.clerk.specs.Steps.{entered, received_bytes};

use crate::entry::{Entry, bytes_entry};
use crate::{Desk, on_words};
use desk::outcome::{Outcome, Stepped, SteppedBytes};
use desk::steps::{Steps, stepped, stepped_read};

// The words of the desk that is lent are lent on.
impl Steps for Desk {
    type Entry = Entry;

    ghost entered = { entered };

    fn step(&mut self, count: u32, entry: Entry) -> Outcome {
        on_words::step(&mut self.words, count, entry)
    }
}

// What came in at the entry: an ask, a message, User A's act, a timer's report, or a refusal of it.
pub fn step(d: Desk, count: u32, entry: Entry) -> Stepped<Desk>
    ensures { result ≡ entered d count entry }
{
    stepped(d, count, entry)
}

// Raw bytes received: the reader's 1 and 2, which change nothing, with the place of the fault; else the message's step, and the first unread place.
#[tactic(auto, unfolding(crate::specs::Steps::received_bytes))]
pub fn step_bytes(d: Desk, count: u32, s: &[u8], busy: bool, place: usize) -> SteppedBytes<Desk>
    ensures { result ≡ received_bytes d count s.now busy place }
{
    let read = bytes_entry(s, busy, place);
    stepped_read(d, count, read)
}
