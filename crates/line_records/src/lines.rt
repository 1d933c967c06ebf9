// The lines and settings of a line desk, in words that the caller lends.
ghost use Rattle.std.specs.Prelude.{◌≡◌, ◌≤◌, ◌<◌, length, get_or};
ghost use Rattle.lists.specs.Parts.{over};
ghost use Rattle.line_records.specs.Layout.{line_width, line_places, keeps_at};
ghost use Rattle.line_records.specs.Lines.{line_of, line_words, no_line, lines, has_number, line_at, over_line, put_line, keeps, retains, with_settings};

use crate::{KEEPS_AT, LINE_WIDTH, LINES, LINES_AT, RETAINS_AT, WORDS};
use line_table::line::Line;
use lists::words::Words;
use terms::codes::flag_code;

// The line of a row.
#[tactic(auto, unfolding(crate::specs::Lines::line_of))]
fn line_of(row: &[u64]) -> Line
    requires { line_width ≤ length row.now }
    ensures { result ≡ line_of row.now }
{
    Line {
        number: Words {
            low: row[0],
            high: row[1],
        },
        ccbs: row[2] == 1,
        ccnr: row[3] == 1,
        busy: row[4] == 1,
    }
}

// A line over the front of some words.
fn put_line_words(row: &mut [u64], line: Line)
    requires { line_width ≤ length row.old }
    ensures { row.new ≡ over (line_words line) row.old }
{
    row[0] = line.number.low;
    row[1] = line.number.high;
    row[2] = flag_code(line.ccbs);
    row[3] = flag_code(line.ccnr);
    row[4] = flag_code(line.busy);
}

#[tactic(auto, using(lists::proofs::Parts::tail_of_lem, crate::proofs::LinesLaws::line_at))]
fn load_line_in(words: &[u64], k: usize) -> Line
    requires { (k < line_places) × (keeps_at ≤ length words.now) }
    ensures { result ≡ get_or (lines words.now) k no_line }
{
    let at = LINES_AT + k * LINE_WIDTH;
    line_of(&words[at..])
}

#[tactic(auto, unfolding(crate::specs::Lines::line_of))]
fn no_line() -> Line
    ensures { result ≡ no_line }
{
    line_of(&[0u64; LINE_WIDTH])
}

// The line of a place; past the last place, the blank one.
pub fn load_line(words: &[u64; WORDS], k: usize) -> Line
    ensures { result ≡ get_or (lines words.now) k no_line }
{
    if k < LINES {
        return load_line_in(words, k);
    }
    no_line()
}

#[tactic(auto, unfolding(lists::specs::Words::same_words))]
fn has_number(line: Line, number: Words) -> bool
    ensures { result ≡ has_number number line }
{
    line.number == number
}

// The place of the line with that number.
#[tactic(auto, unfolding(crate::specs::Lines::line_at))]
pub fn find_line(words: &[u64; WORDS], number: Words) -> Option<usize>
    ensures { result ≡ line_at number (lines words.now) }
{
    for i in 0..LINES {
        if has_number(load_line(words, i), number) {
            return Some(i);
        }
    }
    None
}

#[tactic(auto, using(lists::proofs::Parts::tail_of_lem, lists::proofs::Parts::mid_tail, crate::proofs::LinesLaws::over_line_parts))]
fn put_line_in(words: &mut [u64], k: usize, line: Line)
    requires { (k < line_places) × (keeps_at ≤ length words.old) }
    ensures { words.new ≡ over_line words.old k line }
{
    let at = LINES_AT + k * LINE_WIDTH;
    put_line_words(&mut words[at..], line);
}

// A line put at a place; a place that is not there changes nothing.
#[tactic(auto, unfolding(crate::specs::Lines::put_line))]
pub fn put_line(words: &mut [u64; WORDS], k: usize, line: Line)
    ensures { words.new ≡ put_line words.old k line }
{
    if k < LINES {
        put_line_in(words, k, line);
    }
}

// Whether the desk keeps requests.
#[tactic(auto, unfolding(crate::specs::Lines::keeps))]
pub fn desk_keeps(words: &[u64; WORDS]) -> bool
    ensures { result ≡ keeps words.now }
{
    words[KEEPS_AT] == 1
}

// Whether the desk retains connections by default.
#[tactic(auto, unfolding(crate::specs::Lines::retains))]
pub fn desk_retains(words: &[u64; WORDS]) -> bool
    ensures { result ≡ retains words.now }
{
    words[RETAINS_AT] == 1
}

// The two settings stored.
#[tactic(auto, unfolding(crate::specs::Lines::with_settings))]
pub fn put_settings(words: &mut [u64; WORDS], keep: bool, retain: bool)
    ensures { words.new ≡ with_settings words.old keep retain }
{
    words[KEEPS_AT] = flag_code(keep);
    words[RETAINS_AT] = flag_code(retain);
}
