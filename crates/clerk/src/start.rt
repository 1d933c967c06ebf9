// The clerk's desk started with the lengths of its timers, in seconds.
ghost use Rattle.std.specs.Prelude.{◌≡◌};
ghost use Rattle.clerk.specs.Start.{from, good_lengths, started_desk, started};

use crate::Desk;
use clerk_records::{LENGTHS_AT, WORDS};
use desk::outcome::{NO_TIMERS, Stepped, done, refused};
use message::refusal::Refusal;

// T2's length goes by the kind.
#[derive(Clone, Copy)]
pub struct Lengths {
    pub t1: u32,
    pub t2Ccbs: u32,
    pub t2Ccnr: u32,
    pub t3: u32,
}

fn is_from(least: u32, most: u32, seconds: u32) -> bool
    ensures { result ≡ from least most seconds }
{
    if least <= seconds {
        seconds <= most
    } else {
        false
    }
}

// T1 1 to 3600, T2 of CCBS 60 to 3600, T2 of CCNR 60 to 86400, T3 10 to 30.
#[tactic(auto, unfolding(crate::specs::Start::good_lengths))]
fn are_good(l: Lengths) -> bool
    ensures { result ≡ good_lengths l }
{
    if is_from(1, 3600, l.t1) {
        if is_from(60, 3600, l.t2Ccbs) {
            if is_from(60, 86400, l.t2Ccnr) {
                return is_from(10, 30, l.t3);
            }
            return false;
        }
        return false;
    }
    false
}

// No record at all, and the lengths behind.
fn started_desk(l: Lengths) -> Desk
    ensures { result ≡ started_desk l }
{
    let mut words = [0u64; WORDS];
    words[LENGTHS_AT] = l.t1 as u64;
    words[LENGTHS_AT + 1] = l.t2Ccbs as u64;
    words[LENGTHS_AT + 2] = l.t2Ccnr as u64;
    words[LENGTHS_AT + 3] = l.t3 as u64;
    Desk { words }
}

// A desk with no record: 2 for a length out of range.
#[tactic(auto, unfolding(crate::specs::Start::started))]
pub fn start(l: Lengths) -> Stepped<Desk>
    ensures { result ≡ started l }
{
    if are_good(l) {
        let desk = started_desk(l);
        let outcome = done(None, NO_TIMERS, NO_TIMERS, None);
        return Stepped { desk, outcome };
    }
    let outcome = refused(Refusal::OutOfRange, None);
    Stepped {
        desk: Desk {
            words: [0u64; WORDS],
        },
        outcome,
    }
}
