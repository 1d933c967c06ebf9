// The deadlines of the records, in words that the caller lends: a timer that is started has its deadline put behind its record's can-keep; and which timer of a record runs out
// in a tick. What a step starts is the table's word; how long it runs is the host's, in the lengths behind the records.
ghost use Rattle.std.specs.Prelude.{◌≡◌, get_or};
ghost use Rattle.clerk_records.specs.Records.{blank, records};
ghost use Rattle.clerk_records.specs.Deadlines.{deadline_at, deadlines, no_deadlines, length_at, length_of, started_at, started_if, timed, deadline_in, due_or, expiring_at};

use crate::codes::state_of;
use crate::places::load;
use crate::{DEADLINES_AT, LENGTHS_AT, PLACES, WIDTH, WORDS};
use clerk_table::table::{State, Timer};
use clock::{count_of, deadline_of, is_due};
use desk::outcome::Timers;
use message::Kind;

// When each timer of a record runs out, in counts of seconds; that of a timer that does not run is not looked at.
#[derive(Clone, Copy)]
pub struct Deadlines {
    pub t1: u32,
    pub t2: u32,
    pub t3: u32,
}

fn deadline_at(timer: Timer) -> usize
    ensures { result ≡ deadline_at timer }
{
    match timer {
        Timer::T1 => DEADLINES_AT,
        Timer::T2 => DEADLINES_AT,
        Timer::T3 => DEADLINES_AT + 1,
    }
}

// T2's length goes by the kind.
fn length_at(timer: Timer, kind: Kind) -> usize
    ensures { result ≡ length_at timer kind }
{
    match timer {
        Timer::T1 => LENGTHS_AT,
        Timer::T2 => match kind {
            Kind::Ccbs => LENGTHS_AT + 1,
            Kind::Ccnr => LENGTHS_AT + 2,
        },
        Timer::T3 => LENGTHS_AT + 3,
    }
}

fn length_of(words: &[u64; WORDS], timer: Timer, kind: Kind) -> u32
    ensures { result ≡ length_of words.now timer kind }
{
    count_of(words[length_at(timer, kind)])
}

// A timer of the record at a place is started; past the last place, nothing changes.
#[tactic(auto, unfolding(crate::specs::Deadlines::started_at))]
fn start(words: &mut [u64; WORDS], count: u32, i: usize, timer: Timer)
    ensures { words.new ≡ started_at count i timer words.old }
{
    if i < PLACES {
        let r = load(words, i);
        let terms = r.terms;
        let kind = terms.kind;
        let deadline = deadline_of(count, length_of(words, timer, kind));
        words[i * WIDTH + deadline_at(timer)] = deadline as u64;
    }
}

fn start_if(words: &mut [u64; WORDS], starts: bool, count: u32, i: usize, timer: Timer)
    ensures { words.new ≡ started_if starts count i timer words.old }
{
    if starts {
        start(words, count, i, timer);
    }
}

// Each timer that a step starts, at the place that its outcome tells.
#[tactic(auto, unfolding(crate::specs::Deadlines::timed))]
pub fn start_timers(words: &mut [u64; WORDS], count: u32, at: Option<usize>, starts: Timers)
    ensures { words.new ≡ timed count at starts words.old }
{
    match at {
        None => {}
        Some(i) => {
            start_if(words, starts.t1, count, i, Timer::T1);
            start_if(words, starts.t2, count, i, Timer::T2);
            start_if(words, starts.t3, count, i, Timer::T3);
        }
    }
}

// The deadline of a timer of the record at a place; past the last place 0.
fn deadline_in(words: &[u64; WORDS], i: usize, timer: Timer) -> u32
    ensures { result ≡ deadline_in (get_or (deadlines words.now) i no_deadlines) timer }
{
    if i < PLACES {
        return count_of(words[i * WIDTH + deadline_at(timer)]);
    }
    0
}

// The deadlines of the record at a place; past the last place all are 0.
pub fn deadlines_at(words: &[u64; WORDS], i: usize) -> Deadlines
    ensures { result ≡ get_or (deadlines words.now) i no_deadlines }
{
    let t1 = deadline_in(words, i, Timer::T1);
    let t2 = deadline_in(words, i, Timer::T2);
    let t3 = deadline_in(words, i, Timer::T3);
    Deadlines { t1, t2, t3 }
}

#[tactic(auto, unfolding(crate::specs::Records::record_of, crate::specs::Codes::state_of))]
fn state_at(words: &[u64; WORDS], i: usize) -> State
    ensures { result ≡ (get_or (records words.now) i blank).state }
{
    if i < PLACES {
        return state_of(words[i * WIDTH + terms::WIDTH]);
    }
    State::Free
}

// A timer of the record at a place if it is due, or else the other.
fn due_or(
    words: &[u64; WORDS],
    i: usize,
    count: u32,
    timer: Timer,
    other: Option<Timer>,
) -> Option<Timer>
    ensures { result ≡ due_or count (get_or (deadlines words.now) i no_deadlines) timer other }
{
    if is_due(count, deadline_in(words, i, timer)) {
        return Some(timer);
    }
    other
}

// The timer of the record at a place that runs out in a tick, by its state: T2 runs on in Ringout, and does not run out there. Of its words only the state's and the deadlines
// of the timers that run are read.
#[tactic(auto, unfolding(crate::specs::Deadlines::expiring))]
pub fn expiring_at(words: &[u64; WORDS], i: usize, count: u32) -> Option<Timer>
    ensures { result ≡ expiring_at count words.now i }
{
    let state = state_at(words, i);
    match state {
        State::Free => None,
        State::WaitAck => due_or(words, i, count, Timer::T1, None),
        State::Invoked => due_or(words, i, count, Timer::T2, None),
        State::WaitAnswer => {
            let t3 = due_or(words, i, count, Timer::T3, None);
            due_or(words, i, count, Timer::T2, t3)
        }
        State::Ringout => None,
        State::Suspended => due_or(words, i, count, Timer::T2, None),
    }
}
