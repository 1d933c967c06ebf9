// The places of a line desk: the first free one, and a record loaded, put, turned and removed, in words that the caller lends.
ghost use Rattle.std.specs.Prelude.{◌≡◌, ◌≤◌, ◌<◌, length, get_or};
ghost use Rattle.lists.specs.Parts.{over};
ghost use Rattle.store.specs.Rows.{put_row, turn_row};
ghost use Rattle.terms.specs.Terms.{kind_at};
ghost use Rattle.line_records.specs.Layout.{width, places, lines_at};
ghost use Rattle.line_records.specs.Records.{record_of, record_words, turned_words, blank, records, place, put_record, turn_record, removed};

use crate::codes::{state_code, state_of};
use crate::{ACTIVE_AT, DOWN_AT, LAST_STATE, PLACES, STATE_AT, SUSPENDED_AT, WIDTH, WORDS};
use line_table::record::{Record, Turned};
use terms::codes::{flag_code, kind_code};
use terms::{put_terms, terms_of};

// The record of a row.
fn record_of(row: &[u64]) -> Record
    requires { width ≤ length row.now }
    ensures { result ≡ record_of row.now }
{
    let agreed = terms_of(row);
    let state = state_of(row[STATE_AT]);
    Record {
        terms: agreed,
        state,
        active: row[ACTIVE_AT] == 1,
        suspended: row[SUSPENDED_AT] == 1,
        down: row[DOWN_AT] == 1,
    }
}

// What a turn gives, over the front of some words: in a row it stands one behind the other.
fn turn_words(words: &mut [u64], t: Turned)
    requires { length (turned_words t) ≤ length words.old }
    ensures { words.new ≡ over (turned_words t) words.old }
{
    let kind = t.kind;
    let state = t.state;
    words[0] = kind_code(kind);
    words[1] = state_code(state);
    words[2] = flag_code(t.active);
    words[3] = flag_code(t.suspended);
    words[4] = flag_code(t.down);
}

// A record over the front of some words: its terms, and from the kind on, which stands last in them, what a turn would give.
fn put_words(row: &mut [u64], r: Record)
    requires { width ≤ length row.old }
    ensures { row.new ≡ over (record_words r) row.old }
{
    let agreed = r.terms;
    let kind = agreed.kind;
    let state = r.state;
    put_terms(row, agreed);
    turn_words(
        &mut row[terms::KIND_AT..],
        Turned {
            kind,
            state,
            active: r.active,
            suspended: r.suspended,
            down: r.down,
        },
    );
}

// The first place that is not used.
pub fn find_place(words: &[u64; WORDS]) -> Option<usize>
    ensures { result ≡ place (records words.now) }
{
    store::find_free::<WIDTH, PLACES>(words, LAST_STATE)
}

fn load_in(words: &[u64], i: usize) -> Record
    requires { (i < places) × (lines_at ≤ length words.now) }
    ensures { result ≡ get_or (records words.now) i blank }
{
    let at = i * WIDTH;
    record_of(&words[at..])
}

#[tactic(auto, unfolding(crate::specs::Records::record_of, terms::specs::Terms::terms_of))]
fn blank_record() -> Record
    ensures { result ≡ blank }
{
    record_of(&[0u64; WIDTH])
}

// The record of a place; past the last place, the blank one.
pub fn load(words: &[u64; WORDS], i: usize) -> Record
    ensures { result ≡ get_or (records words.now) i blank }
{
    if i < PLACES {
        return load_in(words, i);
    }
    blank_record()
}

#[tactic(auto, using(lists::proofs::Parts::tail_of_lem, lists::proofs::Parts::mid_tail), unfolding(store::specs::Rows::put_row))]
fn put_in(words: &mut [u64], i: usize, r: Record)
    requires { (i < places) × (lines_at ≤ length words.old) }
    ensures { words.new ≡ put_row width words.old i (record_words r) }
{
    let at = i * WIDTH;
    put_words(&mut words[at..], r);
}

// A record put at a place; a place that is not there changes nothing.
#[tactic(auto, unfolding(crate::specs::Records::put_record))]
pub fn put_record(words: &mut [u64; WORDS], i: usize, r: Record)
    ensures { words.new ≡ put_record words.old i r }
{
    if i < PLACES {
        put_in(words, i, r);
    }
}

#[tactic(auto, using(lists::proofs::Parts::tail_of_lem, lists::proofs::Parts::mid_tail), unfolding(store::specs::Rows::turn_row))]
fn turn_in(words: &mut [u64], i: usize, t: Turned)
    requires { (i < places) × (lines_at ≤ length words.old) }
    ensures { words.new ≡ turn_row width words.old i kind_at (turned_words t) }
{
    let at = i * WIDTH + terms::KIND_AT;
    turn_words(&mut words[at..], t);
}

// The record of a place turned; a place that is not there changes nothing.
#[tactic(auto, unfolding(crate::specs::Records::turn_record))]
pub fn turn_record(words: &mut [u64; WORDS], i: usize, t: Turned)
    ensures { words.new ≡ turn_record words.old i t }
{
    if i < PLACES {
        turn_in(words, i, t);
    }
}

// The record of a place removed: the later ones move up.
pub fn remove_record(words: &mut [u64; WORDS], i: usize)
    ensures { words.new ≡ removed words.old i }
{
    store::remove::<WIDTH, PLACES>(words, i);
}
