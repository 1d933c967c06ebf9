// The deadlines of the records, in words that the caller lends: a guard that is started has its deadline put behind its record's marks; and whether the guard of a record runs
// out in a tick. What a step starts is the table's word; how long it runs stands here alone.
ghost use Rattle.std.specs.Prelude.{◌≡◌, get_or};
ghost use Rattle.line_records.specs.Deadlines.{guards, guard_length, started_at, timed, expiring_at};

use crate::places::load;
use crate::{GUARD_AT, LAST_STATE, PLACES, WIDTH, WORDS};
use clock::{count_of, deadline_of, is_due};
use desk::outcome::Timers;
use message::Kind;

// How many seconds a guard runs: document 01's, and no setting.
fn guard_length(kind: Kind) -> u32
    ensures { result ≡ guard_length kind }
{
    match kind {
        Kind::Ccbs => 3660,
        Kind::Ccnr => 86460,
    }
}

// The guard of the record at a place is started; past the last place, nothing changes.
#[tactic(auto, unfolding(crate::specs::Deadlines::started_at))]
fn start(words: &mut [u64; WORDS], count: u32, i: usize)
    ensures { words.new ≡ started_at count i words.old }
{
    if i < PLACES {
        let r = load(words, i);
        let terms = r.terms;
        let kind = terms.kind;
        let deadline = deadline_of(count, guard_length(kind));
        words[i * WIDTH + GUARD_AT] = deadline as u64;
    }
}

// The guard, if a step starts it, at the place that its outcome tells.
#[tactic(auto, unfolding(crate::specs::Deadlines::timed))]
pub fn start_timers(words: &mut [u64; WORDS], count: u32, at: Option<usize>, starts: Timers)
    ensures { words.new ≡ timed count at starts words.old }
{
    match at {
        None => {}
        Some(i) => {
            if starts.guard {
                start(words, count, i);
            }
        }
    }
}

// The guard's deadline of the record at a place; past the last place 0.
pub fn guard_of(words: &[u64; WORDS], i: usize) -> u32
    ensures { result ≡ get_or (guards words.now) i 0 }
{
    if i < PLACES {
        return count_of(words[i * WIDTH + GUARD_AT]);
    }
    0
}

// Whether the guard of the record at a place runs out in a tick. Of its words only the state's and the guard's are read.
pub fn is_expiring(words: &[u64; WORDS], i: usize, count: u32) -> bool
    ensures { result ≡ expiring_at count words.now i }
{
    store::is_live_at::<WIDTH, PLACES>(words, i, LAST_STATE) && is_due(count, guard_of(words, i))
}
