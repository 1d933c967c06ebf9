// The places of a clerk's desk: the first free one, and a record loaded, put, turned and removed, in words that the caller lends.
ghost use Rattle.std.specs.Prelude.{◌≡◌, ◌≤◌, ◌<◌, length, get_or};
ghost use Rattle.lists.specs.Parts.{over};
ghost use Rattle.store.specs.Rows.{put_row, turn_row};
ghost use Rattle.terms.specs.Terms.{choices_at};
ghost use Rattle.clerk_table.specs.declared.record.Change.TheVariants.{Put, Remove};
ghost use Rattle.clerk_records.specs.Layout as Layout;
ghost use Rattle.clerk_records.specs.Records.{record_of, record_words, turned_words, blank, records, place, applied};

use crate::codes::{state_code, state_of};
use crate::{CAN_KEEP_AT, DOWN_AT, LAST_STATE, PLACES, WIDTH, WORDS};
use clerk_table::record::{Change, Record, Turned};
use clerk_table::table::State;
use terms::codes::{connection_code, flag_code, keep_code, kind_code};
use terms::{no_terms, put_terms, terms_of};

// The record of a row.
#[tactic(auto, unfolding(crate::specs::Records::record_of))]
fn record_of(row: &[u64]) -> Record
    requires { Layout.width ≤ length row.now }
    ensures { result ≡ record_of row.now }
{
    let terms = terms_of(row);
    let state = state_of(row[terms::WIDTH]);
    Record {
        terms,
        state,
        canKeep: row[CAN_KEEP_AT] == 1,
        down: row[DOWN_AT] == 1,
    }
}

// A record over the front of some words.
fn put_words(row: &mut [u64], r: Record)
    requires { Layout.width ≤ length row.old }
    ensures { row.new ≡ over (record_words r) row.old }
{
    let terms = r.terms;
    let state = r.state;
    put_terms(row, terms);
    row[terms::WIDTH] = state_code(state);
    row[DOWN_AT] = flag_code(r.down);
    row[CAN_KEEP_AT] = flag_code(r.canKeep);
}

// The first place that is not used.
#[tactic(auto, using(crate::proofs::RecordsLaws::place_found))]
pub fn find_place(words: &[u64; WORDS]) -> Option<usize>
    ensures { result ≡ place (records words.now) }
{
    store::find_free::<WIDTH, PLACES>(words, LAST_STATE)
}

#[tactic(auto, using(lists::proofs::Parts::tail_of_lem))]
fn load_in(words: &[u64], i: usize) -> Record
    requires { (i < Layout.places) × (Layout.words ≤ length words.now) }
    ensures { result ≡ get_or (records words.now) i blank }
{
    let at = i * WIDTH;
    record_of(&words[at..])
}

#[tactic(auto, unfolding(crate::specs::Records::record_of, crate::specs::Codes::state_of))]
fn blank_record() -> Record
    ensures { result ≡ blank }
{
    let terms = no_terms();
    Record {
        terms,
        state: State::Free,
        canKeep: false,
        down: false,
    }
}

// The record of a place; past the last place, the blank one.
pub fn load(words: &[u64; WORDS], i: usize) -> Record
    ensures { result ≡ get_or (records words.now) i blank }
{
    if i < PLACES {
        return load_in(words, i);
    }
    blank_record()
}

#[tactic(auto, using(lists::proofs::Parts::tail_of_lem, lists::proofs::Parts::mid_tail), unfolding(store::specs::Rows::put_row))]
fn put_in(words: &mut [u64], i: usize, r: Record)
    requires { (i < Layout.places) × (Layout.words ≤ length words.old) }
    ensures { words.new ≡ put_row Layout.width words.old i (record_words r) }
{
    let at = i * WIDTH;
    put_words(&mut words[at..], r);
}

// What a turn gives, over the front of some words: in a row it stands one behind the other.
fn turn_words(words: &mut [u64], t: Turned)
    requires { length (turned_words t) ≤ length words.old }
    ensures { words.new ≡ over (turned_words t) words.old }
{
    let keep = t.keep;
    let connection = t.connection;
    let kind = t.kind;
    let state = t.state;
    words[0] = keep_code(keep);
    words[1] = connection_code(connection);
    words[2] = kind_code(kind);
    words[3] = state_code(state);
    words[4] = flag_code(t.down);
}

#[tactic(auto, using(lists::proofs::Parts::tail_of_lem, lists::proofs::Parts::mid_tail), unfolding(store::specs::Rows::turn_row))]
fn turn_in(words: &mut [u64], i: usize, t: Turned)
    requires { (i < Layout.places) × (Layout.words ≤ length words.old) }
    ensures { words.new ≡ turn_row Layout.width words.old i choices_at (turned_words t) }
{
    let at = i * WIDTH + terms::CHOICES_AT;
    turn_words(&mut words[at..], t);
}

// A record put at a place; past the last place, nothing changes.
#[tactic(auto, unfolding(crate::specs::Records::applied))]
pub fn put(words: &mut [u64; WORDS], i: usize, r: Record)
    ensures { words.new ≡ applied words.old (Put i r) }
{
    if i < PLACES {
        put_in(words, i, r);
    }
}

// The record of a place removed: the later ones move up.
#[tactic(auto, unfolding(crate::specs::Records::applied))]
pub fn remove(words: &mut [u64; WORDS], i: usize)
    ensures { words.new ≡ applied words.old (Remove i) }
{
    store::remove::<WIDTH, PLACES>(words, i);
}

// A planned change, made in place.
#[tactic(auto, unfolding(crate::specs::Records::applied))]
pub fn apply(words: &mut [u64; WORDS], change: Change)
    ensures { words.new ≡ applied words.old change }
{
    match change {
        Change::Stay => {}
        Change::Put(i, r) => put(words, i, r),
        Change::Turn(i, t) => {
            if i < PLACES {
                turn_in(words, i, t);
            }
        }
        Change::Remove(i) => remove(words, i),
    }
}
