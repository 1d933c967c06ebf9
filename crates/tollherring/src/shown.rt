// What a desk holds, for hosts that show it: the record of a place, with the deadlines of its timers, or the line, as bytes and plain numbers.
ghost use Rattle.std.specs.Prelude.{◌≡◌};
ghost use Rattle.tollherring.specs.Shown.{shown, clerk_shown, line_shown, line_at_shown, shown_line};

use clerk_records::codes::state_code as clerk_state_code;
use clerk_records::deadlines::deadlines_at;
use clerk_records::places::load as load_clerk;
use host_numbers::identifiers::BYTES;
use host_numbers::shown::{NUMBERS, clerk_numbers, kinds_number, line_numbers, show_names};
use line_records::codes::state_code as line_state_code;
use line_records::deadlines::guard_of;
use line_records::lines::load_line;
use line_records::places::load as load_record;
use lists::words::Words;
use terms::codes::flag_code;

// The record at a place of the clerk's desk: 6 if there is none.
#[tactic(auto, unfolding(crate::specs::Shown::clerk_shown))]
pub fn tollherring_clerk_record(
    words: &[u64; clerk_records::WORDS],
    place: u64,
    identifier: &mut [u8; BYTES],
    numberA: &mut [u8; 16],
    numberB: &mut [u8; 16],
    numbers: &mut [u64; NUMBERS],
) -> u64
    ensures { shown identifier.new numberA.new numberB.new numbers.new result ≡ clerk_shown words.now place identifier.old numberA.old numberB.old numbers.old }
{
    let i = place as usize;
    let r = load_clerk(words, i);
    let state = r.state;
    if clerk_state_code(state) == 0 {
        return 6;
    }
    let terms = r.terms;
    let deadlines = deadlines_at(words, i);
    show_names(identifier, numberA, numberB, terms);
    *numbers = clerk_numbers(r, deadlines);
    0
}

// The record at a place of the line desk: 6 if there is none.
#[tactic(auto, unfolding(crate::specs::Shown::line_shown))]
pub fn tollherring_line_record(
    words: &[u64; line_records::WORDS],
    place: u64,
    identifier: &mut [u8; BYTES],
    numberA: &mut [u8; 16],
    numberB: &mut [u8; 16],
    numbers: &mut [u64; NUMBERS],
) -> u64
    ensures { shown identifier.new numberA.new numberB.new numbers.new result ≡ line_shown words.now place identifier.old numberA.old numberB.old numbers.old }
{
    let i = place as usize;
    let r = load_record(words, i);
    let state = r.state;
    if line_state_code(state) == 0 {
        return 6;
    }
    let terms = r.terms;
    let guard = guard_of(words, i);
    show_names(identifier, numberA, numberB, terms);
    *numbers = line_numbers(r, guard);
    0
}

// The line at a place, its kinds and whether it is busy: 10 if there is none.
#[tactic(auto, unfolding(crate::specs::Shown::line_at_shown, lists::specs::Words::same_words))]
pub fn tollherring_line_at(
    words: &[u64; line_records::WORDS],
    place: u64,
    number: &mut [u8; 16],
    status: &mut [u64; 2],
) -> u64
    ensures { shown_line number.new status.new result ≡ line_at_shown words.now place number.old status.old }
{
    let line = load_line(words, place as usize);
    if line.number == (Words { low: 0, high: 0 }) {
        return 10;
    }
    *number = <[u8; 16]>::from(line.number);
    let kinds = kinds_number(line);
    let busy = flag_code(line.busy);
    *status = [kinds, busy];
    0
}
