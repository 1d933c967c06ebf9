// The line desk started from its lines and settings. A line is given as its number, length and digits in sixteen places, and behind it the kinds that it allows,
// 1 CCBS + 2 CCNR.
ghost use Rattle.std.specs.Prelude.{◌≡◌, ◌≤◌, ◌*◌, length, replicate};
ghost use Rattle.line_records.specs.Layout as Layout;
ghost use Rattle.line_records.specs.Lines.{lines, line_at, with_settings};
ghost use Rattle.line.specs.Start.{given_width, absent, line_given, good_line, line_taken, lines_told, take_lines, started_by, refused_start, started};

use crate::Desk;
use desk::letter::number_words;
use desk::outcome::{NO_TIMERS, Stepped, done, refused};
use line_records::lines::{find_line, put_line, put_settings};
use line_records::{LINES, WORDS};
use line_table::line::Line;
use lists::words::Words;
use message::copied::copy_between;
use message::digits::digits_in_range;
use message::refusal::Refusal;

// The bytes of a line that is given: its number's, then one of its kinds.
const KINDS_AT: usize = 16;

const GIVEN: usize = KINDS_AT + 1;

// Whether no line has that number.
fn is_new(words: &[u64; WORDS], number: Words) -> bool
    ensures { result ≡ absent (line_at number (lines words.now)) }
{
    match find_line(words, number) {
        Some(_) => false,
        None => true,
    }
}

// The line of a number and its kinds, free.
fn line_given(number: Words, kinds: u8) -> Line
    ensures { result ≡ line_given number kinds }
{
    Line {
        number,
        ccbs: kinds % 2 == 1,
        ccnr: 2 <= kinds,
        busy: false,
    }
}

// Whether a line is good: its digits and kinds are in range, and no earlier line has its number.
#[tactic(auto, unfolding(crate::specs::Start::good_line))]
fn is_good(words: &[u64; WORDS], digits: [u8; 16], kinds: u8) -> bool
    ensures { result ≡ good_line words.now digits kinds }
{
    if digits_in_range(digits, 1) {
        if kinds <= 3 {
            let number = number_words(digits);
            return is_new(words, number);
        }
        return false;
    }
    false
}

// A good line is put at its place.
#[tactic(auto, unfolding(crate::specs::Start::line_taken))]
fn take_line(words: &mut [u64; WORDS], k: usize, digits: [u8; 16], kinds: u8) -> bool
    ensures { (result ≡ good_line words.old digits kinds) × (words.new ≡ line_taken words.old k digits kinds) }
{
    if is_good(words, digits, kinds) {
        let number = number_words(digits);
        let line = line_given(number, kinds);
        put_line(words, k, line);
        return true;
    }
    false
}

// Each line in turn, up to one that is not good.
fn take_lines(words: &mut [u64; WORDS], given: &[u8], count: usize) -> bool
    requires { count * given_width ≤ length given.now }
    ensures { lines_told result words.new ≡ take_lines count 0 given.now words.old }
{
    let mut left = count;
    let mut k = 0;
    let mut at = 0;
    while 0 < left {
        let digits = copy_between(given, at, at + KINDS_AT);
        let kinds = given[at + KINDS_AT];
        if !take_line(words, k, digits, kinds) {
            return false;
        }
        left -= 1;
        k += 1;
        at += GIVEN;
    }
    true
}

// No desk is made: the answer has one without lines.
fn refused_start() -> Stepped<Desk>
    ensures { result ≡ refused_start }
{
    let outcome = refused(Refusal::OutOfRange, None);
    Stepped {
        desk: Desk {
            words: [0u64; WORDS],
        },
        outcome,
    }
}

fn start_counted(given: &[u8], count: usize, keep: bool, retain: bool) -> Stepped<Desk>
    requires { count * given_width ≤ length given.now }
    ensures { result ≡ started_by (take_lines count 0 given.now (with_settings (replicate Layout.words 0) keep retain)) }
{
    let mut words = [0u64; WORDS];
    put_settings(&mut words, keep, retain);
    if take_lines(&mut words, given, count) {
        let outcome = done(None, NO_TIMERS, NO_TIMERS, None);
        return Stepped {
            desk: Desk { words },
            outcome,
        };
    }
    refused_start()
}

// A desk with its lines, all free, and its settings: 2 for more than 16 lines, bad digits or kinds, one number twice, or bytes that end
// inside a line.
#[tactic(auto, unfolding(crate::specs::Start::started))]
pub fn start(given: &[u8], keep: bool, retain: bool) -> Stepped<Desk>
    ensures { result ≡ started given.now keep retain }
{
    let count = given.len() / GIVEN;
    if count <= LINES {
        if count * GIVEN == given.len() {
            return start_counted(given, count, keep, retain);
        }
        return refused_start();
    }
    refused_start()
}
