// The outcome of a step: the refusal, if it is refused; the one message sent, or the reply that goes with a refusal; timers started
// and stopped; the notice; whether the host is told to clear the call; and the place of the record that the step was about.
ghost use Rattle.std.specs.Prelude.{◌≡◌};
ghost use Rattle.desk.specs.Outcome.{refused_with, done_with};

use crate::letter::Letter;
use message::refusal::Refusal;

#[derive(Clone, Copy)]
pub struct Timers {
    pub t1: bool,
    pub t2: bool,
    pub t3: bool,
    pub guard: bool,
}

#[derive(Clone, Copy)]
pub enum Notice {
    Silent,
    Accepted,
    DeniedShort,
    DeniedLong,
    Recall,
    Completed,
    Failed,
    BusyAgainKept,
    BusyAgainEnded,
    Cancelled,
    BusyAgainWaiting,
}

#[derive(Clone, Copy)]
pub struct Outcome {
    pub refusal: Option<Refusal>,
    pub sending: Option<Letter>,
    pub starts: Timers,
    pub stops: Timers,
    pub notice: Notice,
    pub clear: bool,
    // nowhere on a refusal, and where a step is about no record
    pub at: Option<usize>,
}

// The same for bytes, with the first unread place; where they cannot be read, 0 and the place of the fault.
#[derive(Clone, Copy)]
pub struct BytesOutcome {
    pub outcome: Outcome,
    pub next: usize,
    pub fault: Option<usize>,
}

// A step by value: the desk afterwards and the outcome.
#[derive(Clone, Copy)]
pub struct Stepped<D> {
    pub desk: D,
    pub outcome: Outcome,
}

// The same for bytes, with the first unread place; where they cannot be read, 0 and the place of the fault.
#[derive(Clone, Copy)]
pub struct SteppedBytes<D> {
    pub desk: D,
    pub outcome: Outcome,
    pub next: usize,
    pub fault: Option<usize>,
}

pub const NO_TIMERS: Timers = Timers {
    t1: false,
    t2: false,
    t3: false,
    guard: false,
};

// A step of which nothing is sent and nothing is told, about no record.
const SILENT: Outcome = Outcome {
    refusal: None,
    sending: None,
    starts: NO_TIMERS,
    stops: NO_TIMERS,
    notice: Notice::Silent,
    clear: false,
    at: None,
};

// A refusal, with its reply or none: nothing else happens.
pub fn refused(refusal: Refusal, reply: Option<Letter>) -> Outcome
    ensures { result ≡ refused_with refusal reply }
{
    Outcome {
        refusal: Some(refusal),
        sending: reply,
        ..SILENT
    }
}

// A step without a notice and without a word on the call, about the record at a place or about none.
pub fn done(sending: Option<Letter>, starts: Timers, stops: Timers, at: Option<usize>) -> Outcome
    ensures { result ≡ done_with sending starts stops at }
{
    Outcome {
        sending,
        starts,
        stops,
        at,
        ..SILENT
    }
}
