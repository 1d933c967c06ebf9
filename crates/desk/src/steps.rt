// The step of a desk at a count of seconds, on a desk that is lent, by value and of bytes. A desk says what its own step is; the rest is the same for both.
ghost use Rattle.std.specs.Prelude.{◌≡◌, ℕ};
ghost use Rattle.desk.specs.Steps.{answered, answered_bytes, read_step};
ghost use Rattle.desk.specs.declared.outcome.Stepped.{Stepped};

use crate::entry::BytesEntry;
use crate::outcome::{BytesOutcome, Outcome, Stepped, SteppedBytes};

pub trait Steps: Copy {
    // What comes in at the desk's entry: an input, or its refusal.
    type Entry;

    // The desk afterwards and the outcome.
    ghost entered: { Self → ℕ → Self.Entry → Stepped Self };

    // On a desk that is lent: it changes where it stands.
    fn step(&mut self, count: u32, entry: Self::Entry) -> Outcome
        ensures { answered self.new result ≡ entered self.old count entry };
}

// What the desk makes of the entry of bytes, with the first unread place and the place of the fault.
pub fn step_read<D: Steps>(d: &mut D, count: u32, read: BytesEntry<D::Entry>) -> BytesOutcome
    ensures { answered_bytes d.new result ≡ read_step (D.entered d.old count) read }
{
    let next = read.next;
    let fault = read.fault;
    let outcome = d.step(count, read.entry);
    BytesOutcome {
        outcome,
        next,
        fault,
    }
}

// By value: the desk goes in and comes back with the outcome.
pub fn stepped<D: Steps>(d: D, count: u32, entry: D::Entry) -> Stepped<D>
    ensures { result ≡ D.entered d count entry }
{
    let mut desk = d;
    let outcome = desk.step(count, entry);
    Stepped { desk, outcome }
}

// The same of bytes.
pub fn stepped_read<D: Steps>(d: D, count: u32, read: BytesEntry<D::Entry>) -> SteppedBytes<D>
    ensures { result ≡ read_step (D.entered d count) read }
{
    let mut desk = d;
    let answer = step_read(&mut desk, count, read);
    let outcome = answer.outcome;
    let fault = answer.fault;
    SteppedBytes {
        desk,
        outcome,
        next: answer.next,
        fault,
    }
}
