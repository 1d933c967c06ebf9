// A tick told to a host: 131 numbers, which are the refusal, the bytes written and how many records expired; then for each of these, from the oldest on, its place before the tick,
// its notice, whether to clear its call, and how many bytes its message has; and zeros.
ghost use Rattle.std.specs.Prelude.{◌≡◌, length};
ghost use Rattle.desk.specs.Ticked.{expired_at};
ghost use Rattle.told.specs.Ticking.{expiry_told};

use crate::notice_number;
use desk::outcome::Outcome;
use terms::codes::flag_code;

// No desk has more records.
const MOST: usize = 32;

// How many numbers a host is told of a tick: by position, as they stand in C's struct tollherring_ticked.
pub const TOLD: usize = 3 + 4 * MOST;

// How many numbers there are; of a lent array nothing but its slice says it.
fn length_of(told: &[u64]) -> usize
    ensures { result ≡ length told.now }
{
    told.len()
}

// The k-th record that expired, from 0 on. Four numbers each: there is room for as many as a desk has, and no more.
pub fn tell_expiry(told: &mut [u64; TOLD], k: usize, place: usize, outcome: Outcome, length: usize)
    ensures { told.new ≡ expiry_told told.old k (expired_at place outcome) length }
{
    if k < length_of(told) / 4 {
        let notice = outcome.notice;
        let numbered = notice_number(notice);
        let clear = flag_code(outcome.clear);
        told[3 + 4 * k] = place as u64;
        told[4 + 4 * k] = numbered;
        told[5 + 4 * k] = clear;
        told[6 + 4 * k] = length as u64;
    }
}
