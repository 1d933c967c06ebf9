// Searches over the records of a desk: the first that is sought, how many a line has, and whether a busy report marks the one of a place. They compare words: first
// those of the numbers and of the identifier, which tell most rows apart, and then what the words of state, marks and kind stand for. No record is loaded.
ghost use Rattle.std.specs.Prelude.{true, ◌≡◌, ◌*◌, ◌≤◌, ◌<◌, length, get_or, drop};
ghost use Rattle.lists.specs.Choice.{pick};
ghost use Rattle.lists.specs.Lists.{first, count};
ghost use Rattle.lists.specs.Words.{same_words};
ghost use Rattle.desk.specs.Letter.{same_identifier};
ghost use Rattle.line_table.specs.Search.{of_line, invoked_on, marks, blocks, fits, same_numbers, duplicates, passes};
ghost use Rattle.line_records.specs.Layout.{width, places, lines_at};
ghost use Rattle.line_records.specs.Records.{record_of, blank, records};

use crate::codes::state_of;
use crate::{ACTIVE_AT, PLACES, STATE_AT, SUSPENDED_AT, WIDTH, WORDS};
use desk::letter::same_identifier;
use line_table::search::{Sought, fits_kind, in_use, is_invoked, is_waiting};
use line_table::table::State;
use lists::words::Words;
use terms::means::is_given;
use terms::request::Names;
use terms::{identifier_at, kind_at, number_a_at, number_b_at};

// The row of a place, and what stands behind it.
#[tactic(auto, using(lists::proofs::Parts::tail_of_lem))]
fn row_of(words: &[u64], i: usize) -> &[u64]
    requires { (i < places) × (lines_at ≤ length words.now) }
    ensures { (result.now ≡ drop (i * width) words.now) × (width ≤ length result.now) }
{
    let at = i * WIDTH;
    &words[at..]
}

#[tactic(auto, unfolding(crate::specs::Records::record_of))]
fn state_at(row: &[u64]) -> State
    requires { width ≤ length row.now }
    ensures { result ≡ (record_of row.now).state }
{
    state_of(row[STATE_AT])
}

// Whether a row has the number of a line: its high word first, since lines of one house differ in their last digits.
fn names_line(row: &[u64], number: Words) -> bool
    requires { width ≤ length row.now }
    ensures { result ≡ same_words (record_of row.now).terms.numberB number }
{
    let own = number_b_at(row);
    own.high == number.high && own.low == number.low
}

// A record of a line.
#[tactic(auto, using(crate::proofs::SearchLaws::second_holds))]
fn is_of_line(row: &[u64], number: Words) -> bool
    requires { width ≤ length row.now }
    ensures { result ≡ of_line number (record_of row.now) }
{
    names_line(row, number) && in_use(state_at(row))
}

// An Invoked record of a line.
#[tactic(auto, using(crate::proofs::SearchLaws::second_holds))]
fn is_invoked_on(row: &[u64], number: Words) -> bool
    requires { width ≤ length row.now }
    ensures { result ≡ invoked_on number (record_of row.now) }
{
    names_line(row, number) && is_invoked(state_at(row))
}

// A record that keeps its line from being offered.
#[tactic(auto, using(crate::proofs::SearchLaws::second_holds), unfolding(crate::specs::Records::record_of))]
fn is_blocking(row: &[u64], number: Words) -> bool
    requires { width ≤ length row.now }
    ensures { result ≡ blocks number (record_of row.now) }
{
    names_line(row, number) && is_waiting(state_at(row), row[SUSPENDED_AT] == 1)
}

// A record that can be offered: Invoked and CCBS, or Invoked, CCNR and marked active.
fn is_fitting(row: &[u64], number: Words) -> bool
    requires { width ≤ length row.now }
    ensures { result ≡ fits number (record_of row.now) }
{
    is_invoked_on(row, number) && fits_kind(kind_at(row), row[ACTIVE_AT] == 1)
}

// Both numberA given and equal, and numberB equal. Whether they are given is asked of the record's, which is there whatever a search is for: of a value that is
// there in one case alone, the compiler may ask too early, and a memory checker then complains.
fn has_numbers(row: &[u64], numberA: Words, numberB: Words) -> bool
    requires { width ≤ length row.now }
    ensures { result ≡ same_numbers numberA numberB (record_of row.now) }
{
    if names_line(row, numberB) {
        let own = number_a_at(row);
        return is_given(own) && own == numberA;
    }
    false
}

// The identifier, where both have one, or the two numbers, of a request.
fn has_names(row: &[u64], names: Names) -> bool
    requires { width ≤ length row.now }
    ensures { result ≡ pick (same_identifier (record_of row.now).terms.identifier names.identifier) true (same_numbers names.numberA names.numberB (record_of row.now)) }
{
    same_identifier(identifier_at(row), names.identifier)
        || has_numbers(row, names.numberA, names.numberB)
}

// A live record with the identifier, or with the two numbers, of a request.
#[tactic(auto, using(crate::proofs::SearchLaws::second_holds))]
fn is_duplicate(row: &[u64], names: Names) -> bool
    requires { width ≤ length row.now }
    ensures { result ≡ duplicates names (record_of row.now) }
{
    has_names(row, names) && in_use(state_at(row))
}

// Whether a record is one that is looked for. A switch and no closure: what a search promises, and the theorems on what it finds, speak of `Sought` (`passes` in
// line_table/specs/Search.antt).
fn is_sought(row: &[u64], sought: Sought) -> bool
    requires { width ≤ length row.now }
    ensures { result ≡ passes sought (record_of row.now) }
{
    match sought {
        Sought::Blocking(number) => is_blocking(row, number),
        Sought::Fitting(number) => is_fitting(row, number),
        Sought::Duplicate(names) => is_duplicate(row, names),
    }
}

// The place of the oldest record that is sought.
pub fn find_record(words: &[u64; WORDS], sought: Sought) -> Option<usize>
    ensures { result ≡ first (passes sought) (records words.now) }
{
    for i in 0..PLACES {
        if is_sought(row_of(words, i), sought) {
            return Some(i);
        }
    }
    None
}

// How many records a line has.
pub fn count_line(words: &[u64; WORDS], number: Words) -> usize
    ensures { result ≡ count (of_line number) (records words.now) }
{
    let mut found = 0;
    for i in 0..PLACES {
        if is_of_line(row_of(words, i), number) {
            found += 1;
        }
    }
    found
}

// Whether a busy report of the line marks the record of a place.
pub fn is_marked(words: &[u64; WORDS], i: usize, number: Words) -> bool
    ensures { result ≡ marks number (get_or (records words.now) i blank) }
{
    i < PLACES && is_invoked_on(row_of(words, i), number)
}
