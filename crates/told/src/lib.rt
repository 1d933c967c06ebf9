// An outcome told to a host: its message as bytes at the front of a lent buffer, and the rest as plain numbers. Eleven numbers: the refusal; the bytes of the
// message written, 0 for none; the first unread place; timers started; timers stopped; the notice; whether to clear the call; whether bytes could not be read, and then
// the place of the fault; whether the step was about a record, and then the record's place. An inner room of the library's face and of the programs: its functions are
// no public operations.
#![tactic(auto)]

pub mod ticking;

ghost use Rattle.std.specs.Prelude.{◌≡◌, ◌≤◌};
ghost use Rattle.lists.specs.Choice.{pick};
ghost use Rattle.message.specs.Refusals.{refusal_number};
ghost use Rattle.told.specs.Told.{timers_number, notice_number, is_place, place_number, refusal_told, sent_written, sent_buffer, told_of, told_refused};

use desk::letter::{Letter, message_of};
use desk::outcome::{Notice, Outcome, Timers};
use message::refusal::Refusal;
use terms::codes::flag_code;

// How many numbers a host is told of an outcome: by position, as they stand in C's struct tollherring_outcome.
pub const TOLD: usize = 11;

// Timers as a sum: T1 1, T2 2, T3 4, guard 8.
pub fn timers_number(timers: Timers) -> u64
    ensures { result ≡ timers_number timers }
{
    u64::from(timers.t1)
        + 2 * u64::from(timers.t2)
        + 4 * u64::from(timers.t3)
        + 8 * u64::from(timers.guard)
}

// A notice by its number, 0 for none. By a match and not by `as`: C has these numbers, whatever the order in which the desk's enum has its names.
pub fn notice_number(notice: Notice) -> u64
    ensures { result ≡ notice_number notice }
{
    match notice {
        Notice::Silent => 0,
        Notice::Accepted => 1,
        Notice::DeniedShort => 2,
        Notice::DeniedLong => 3,
        Notice::Recall => 4,
        Notice::Completed => 5,
        Notice::Failed => 6,
        Notice::BusyAgainKept => 7,
        Notice::BusyAgainEnded => 8,
        Notice::Cancelled => 9,
        Notice::BusyAgainWaiting => 10,
    }
}

// A place as two numbers: 1 and the place, or 0 and 0 where there is none.
pub fn is_place(found: Option<usize>) -> u64
    ensures { result ≡ is_place found }
{
    u64::from(found.is_some())
}

pub fn place_number(found: Option<usize>) -> u64
    ensures { result ≡ place_number found }
{
    found.unwrap_or(0) as u64
}

// A refusal by its number, 0 for none.
pub fn refusal_told(refusal: Option<Refusal>) -> u64
    ensures { result ≡ refusal_told refusal }
{
    match refusal {
        None => 0,
        Some(refusal) => u8::from(refusal) as u64,
    }
}

// What is sent, at a place of a buffer: how many bytes, 0 where nothing is sent; or the writer's refusal, and the buffer stays as it was.
#[tactic(auto, unfolding(crate::specs::Told::sent_written, crate::specs::Told::sent_buffer))]
pub fn send(out: &mut [u8], place: usize, sending: Option<Letter>) -> Result<usize, Refusal>
    ensures { (result ≡ sent_written out.old place sending) × (out.new ≡ sent_buffer out.old place sending) }
{
    match sending {
        None => Ok(0),
        Some(l) => {
            let m = message_of(l);
            writer::write(out, place, m)
        }
    }
}

// An outcome whose message was written.
pub fn tell(told: &mut [u64; TOLD], outcome: Outcome, length: usize, next: usize)
    ensures { told.new ≡ told_of outcome length next }
{
    let starts = outcome.starts;
    let stops = outcome.stops;
    let notice = outcome.notice;
    let started = timers_number(starts);
    let stopped = timers_number(stops);
    let numbered = notice_number(notice);
    let clear = flag_code(outcome.clear);
    let at = outcome.at;
    let about = is_place(at);
    let place = place_number(at);
    *told = [
        refusal_told(outcome.refusal),
        length as u64,
        next as u64,
        started,
        stopped,
        numbered,
        clear,
        0,
        0,
        about,
        place,
    ];
}

// A refusal that is the face's own: nothing was done, nothing is sent and nothing is read. Of bytes that cannot be read, the place of the fault is told.
pub fn refuse(told: &mut [u64; TOLD], refusal: Refusal, fault: Option<usize>) -> u64
    ensures { (result ≡ refusal_number refusal) × (told.new ≡ told_refused refusal fault) }
{
    let number = refusal_told(Some(refusal));
    let unread = is_place(fault);
    let place = place_number(fault);
    *told = [number, 0, 0, 0, 0, 0, 0, unread, place, 0, 0];
    number
}
