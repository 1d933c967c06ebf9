// Rows of words in a lent slice, at any width and count: what both desks keep their records in. A row begins with a record's terms, of which the identifier stands
// first, and its state stands behind them. An inner room of both desks: its functions are no public operations.
#![tactic(auto)]

ghost use Rattle.std.specs.Prelude.{true, false, IfSome, MatchOption, ◌≡◌, ◌*◌, ◌<◌, length, take};
ghost use Rattle.lists.specs.Lists.{first};
ghost use Rattle.terms.specs.Terms.{width as termsWidth};
ghost use Rattle.store.specs.Rows.{live, has_identifier, fits_row, is_for, rows, rows_fit, free, found, found_fitting, live_at, removed_row};

use lists::words::Words;
use terms::means::{Means, fits_at};
use terms::request::Names;

// No desk has more rows, or longer ones: up to here the count of their words is no overflow.
const MOST: usize = 65536;

// The states that a message is for, by the state's word. It is no Option, whose None would not read as every state.
#[derive(Clone, Copy)]
pub enum For {
    Every,
    State(u64),
}

// Whether so many rows stand at the front of so many words, each with terms and a state. At the desks' constants the compiler leaves the test out.
#[tactic(auto, unfolding(crate::specs::Rows::rows_fit))]
fn rows_fit<const WIDTH: usize, const PLACES: usize>(length: usize) -> bool
    ensures { result ≡ rows_fit WIDTH PLACES length }
{
    terms::WIDTH < WIDTH && WIDTH <= MOST && PLACES <= MOST && PLACES * WIDTH <= length
}

// The words of the rows at the front of some words, where they fit.
#[tactic(auto, using(crate::proofs::RowsLaws::fit_parts))]
fn rows_of<const WIDTH: usize, const PLACES: usize>(ws: &[u64]) -> Option<&[u64]>
    ensures there { MatchOption result (rows_fit WIDTH PLACES (length ws.now) ≡ false) (λ all. (rows_fit WIDTH PLACES (length ws.now) ≡ true) × (all.now ≡ take (PLACES * WIDTH) ws.now)) }
    ensures fits { IfSome result (λ all. (termsWidth < WIDTH) × (length all.now ≡ PLACES * WIDTH)) }
{
    if rows_fit::<WIDTH, PLACES>(ws.len()) {
        return Some(&ws[..PLACES * WIDTH]);
    }
    None
}

// Whether a row is live.
#[tactic(auto, unfolding(crate::specs::Rows::live))]
fn is_live(row: &[u64], top: u64) -> bool
    requires { termsWidth < length row.now }
    ensures { result ≡ live top row.now }
{
    let state = row[terms::WIDTH];
    0 < state && state <= top
}

// Whether a row is live and has this identifier: its low word first, which tells most rows apart.
#[tactic(auto, unfolding(crate::specs::Rows::has_identifier))]
fn has_identifier(row: &[u64], identifier: Words, top: u64) -> bool
    requires { termsWidth < length row.now }
    ensures { result ≡ has_identifier top identifier row.now }
{
    row[1] == identifier.low && row[2] == identifier.high && row[0] == 1 && is_live(row, top)
}

// Whether a row is live and fits whom a message names.
#[tactic(auto, unfolding(crate::specs::Rows::fits_row))]
fn fits_row(row: &[u64], names: Names, top: u64) -> bool
    requires { termsWidth < length row.now }
    ensures { result ≡ fits_row top names row.now }
{
    is_live(row, top) && fits_at(row, names)
}

// Whether a row is in a state that a message is for.
#[tactic(auto, unfolding(crate::specs::Rows::is_for))]
fn is_for(row: &[u64], states: For) -> bool
    requires { termsWidth < length row.now }
    ensures { result ≡ is_for states row.now }
{
    match states {
        For::Every => true,
        For::State(word) => row[terms::WIDTH] == word,
    }
}

// The place of the first live row with this identifier; where the rows don't fit, none.
#[tactic(auto, unfolding(crate::specs::Rows::found))]
pub fn find<const WIDTH: usize, const PLACES: usize>(
    ws: &[u64],
    identifier: Words,
    top: u64,
) -> Option<usize>
    ensures { result ≡ found (has_identifier top identifier) WIDTH PLACES ws.now }
{
    rows_of::<WIDTH, PLACES>(ws)?
        .chunks_exact(WIDTH)
        .position(|row| has_identifier(row, identifier, top))
}

// The row that a message means by its numbers and its service: the oldest that fits and is in a state that the message is for; or none now, where one fits; where
// the rows don't fit, none.
#[tactic(auto, unfolding(crate::specs::Rows::found_fitting))]
pub fn find_fitting<const WIDTH: usize, const PLACES: usize>(
    ws: &[u64],
    names: Names,
    top: u64,
    states: For,
) -> Means
    ensures { result ≡ found_fitting states top names WIDTH PLACES ws.now }
{
    let Some(all) = rows_of::<WIDTH, PLACES>(ws) else {
        return Means::Nothing;
    };
    let mut some = false;
    for (i, row) in all.chunks_exact(WIDTH).enumerate() {
        if fits_row(row, names, top) {
            if is_for(row, states) {
                return Means::At(i);
            }
            some = true;
        }
    }
    if some { Means::NotNow } else { Means::Nothing }
}

// Whether the row at a place is live; where the rows don't fit, or it is no place, not.
#[tactic(auto, unfolding(crate::specs::Rows::live_at))]
pub fn is_live_at<const WIDTH: usize, const PLACES: usize>(ws: &[u64], i: usize, top: u64) -> bool
    ensures { result ≡ live_at top WIDTH PLACES ws.now i }
{
    let Some(all) = rows_of::<WIDTH, PLACES>(ws) else {
        return false;
    };
    i < PLACES && is_live(&all[i * WIDTH..], top)
}

// The first free place; where the rows don't fit, none.
#[tactic(auto, unfolding(crate::specs::Rows::found))]
pub fn find_free<const WIDTH: usize, const PLACES: usize>(ws: &[u64], top: u64) -> Option<usize>
    ensures { result ≡ found (free top) WIDTH PLACES ws.now }
{
    rows_of::<WIDTH, PLACES>(ws)?
        .chunks_exact(WIDTH)
        .position(|row| !is_live(row, top))
}

// The row at place i taken out: the later rows move one place to the left, and the last place is left blank. Where the rows don't fit, or i is no place, nothing changes.
#[tactic(auto, using(crate::proofs::RowsLaws::fit_parts), unfolding(crate::specs::Rows::removed_row))]
pub fn remove<const WIDTH: usize, const PLACES: usize>(ws: &mut [u64], i: usize)
    ensures { ws.new ≡ removed_row WIDTH PLACES ws.old i }
{
    if rows_fit::<WIDTH, PLACES>(ws.len()) && i < PLACES {
        // A row at a time: of so many words, a constant, LLVM makes wide moves. One copy of all later rows took 887 instructions where this takes 639.
        for k in i..PLACES - 1 {
            ws.copy_within((k + 1) * WIDTH..(k + 2) * WIDTH, k * WIDTH);
        }
        ws[(PLACES - 1) * WIDTH..PLACES * WIDTH].fill(0);
    }
}
