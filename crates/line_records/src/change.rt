// A planned change of the desk, made in words that the caller lends.
ghost use Rattle.std.specs.Prelude.{◌≡◌};
ghost use Rattle.line_records.specs.Layout.{places};
ghost use Rattle.line_records.specs.Change.{mark_place, marked, status_stored, with_report, applied};

use crate::lines::{load_line, put_line};
use crate::places::{load, put_record, remove_record, turn_record};
use crate::search::is_marked;
use crate::{PLACES, WORDS};
use line_table::line::with_status;
use line_table::record::{Change, Turned};
use lists::words::Words;

// The record of a place marked active, if a busy report of the line marks it.
#[tactic(auto, unfolding(crate::specs::Change::mark_place))]
fn mark_place(words: &mut [u64; WORDS], i: usize, number: Words)
    ensures { words.new ≡ mark_place number i words.old }
{
    if is_marked(words, i, number) {
        let r = load(words, i);
        let terms = r.terms;
        let kind = terms.kind;
        let state = r.state;
        let activity = Turned {
            kind,
            state,
            active: true,
            suspended: r.suspended,
            down: r.down,
        };
        turn_record(words, i, activity);
    }
}

// Every record that a busy report of the line marks.
#[tactic(auto, unfolding(crate::specs::Change::marked))]
fn mark_line(words: &mut [u64; WORDS], number: Words)
    ensures { words.new ≡ marked number places words.old }
{
    for i in 0..PLACES {
        mark_place(words, i, number);
    }
}

#[tactic(auto, unfolding(crate::specs::Change::status_stored))]
fn store_status(words: &mut [u64; WORDS], k: usize, busy: bool)
    ensures { words.new ≡ status_stored words.old k busy }
{
    let before = load_line(words, k);
    let after = with_status(before, busy);
    put_line(words, k, after);
}

// A report of the line at a place, with its number: its status, and the marks that busy sets.
#[tactic(auto, unfolding(crate::specs::Change::with_report))]
pub fn report_line(words: &mut [u64; WORDS], k: usize, number: Words, busy: bool)
    ensures { words.new ≡ with_report words.old k number busy }
{
    store_status(words, k, busy);
    if busy {
        mark_line(words, number);
    }
}

// A planned change, made in place.
#[tactic(auto, unfolding(crate::specs::Change::applied))]
pub fn apply(words: &mut [u64; WORDS], change: Change)
    ensures { words.new ≡ applied words.old change }
{
    match change {
        Change::Stay => {}
        Change::Put(i, r) => put_record(words, i, r),
        Change::Turn(t, i) => turn_record(words, i, t),
        Change::Remove(i) => remove_record(words, i),
        Change::Report(k, number, busy) => report_line(words, k, number, busy),
    }
}
