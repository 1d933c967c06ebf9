// The terms of a request: what both ends agree on about it, and its words at rest. A record of either desk is its terms, its state and its own marks. An
// inner room of both desks: its functions are no public operations.
#![tactic(auto)]

use codes::{connection_code, connection_of, flag_code, keep_code, keep_of, kind_code, kind_of};
use desk::carriers::sends_as;
use desk::letter::{Letter, identifier_words};
use desk::sends::{Elements, sent_for};
use desk::{Connection, Keep};
use lists::words::Words;
use message::{Body, Kind};

pub mod codes;
pub mod means;
pub mod request;

ghost use Rattle.std.specs.Prelude.{◌≡◌};
ghost use Rattle.desk.specs.Carriers.{sends_as};
ghost use Rattle.desk.specs.Sends.{sent};
ghost use Rattle.terms.specs.Terms.{no_terms, terms_at, terms_put, with_choices, kind_after, elements_of};

// How many words the terms take. They stand at the front of a record's words, and the state behind them.
pub const WIDTH: usize = 11;

// The first word of the two choices: no step changes what stands before it.
pub const CHOICES_AT: usize = 8;

// The word of the kind: at the line's end no step changes what stands before it.
pub const KIND_AT: usize = 10;

#[derive(Clone, Copy)]
pub struct Terms {
    pub identifier: Option<Words>,
    pub numberA: Words,
    pub numberB: Words,
    pub service: u64,
    pub kind: Kind,
    pub keep: Keep,
    pub connection: Connection,
}

// No terms: what a free place has.
#[tactic(auto, unfolding(crate::specs::Terms::terms_of, crate::specs::Codes::kind_of, crate::specs::Codes::keep_of, crate::specs::Codes::connection_of))]
pub fn no_terms() -> Terms
    ensures { result ≡ no_terms }
{
    let none = Words { low: 0, high: 0 };
    Terms {
        identifier: None,
        numberA: none,
        numberB: none,
        service: 0,
        kind: Kind::Ccbs,
        keep: Keep::Empty,
        connection: Connection::Empty,
    }
}

// What the terms at the front of some words say of one thing: its words alone are read. Of too few words, what no terms say.
#[tactic(auto, unfolding(crate::specs::Terms::terms_of, crate::specs::Terms::terms_at))]
pub fn identifier_at(row: &[u64]) -> Option<Words>
    ensures { result ≡ (terms_at row.now).identifier }
{
    if WIDTH <= row.len() {
        if row[0] == 1 {
            return Some(Words {
                low: row[1],
                high: row[2],
            });
        }
        return None;
    }
    None
}

#[tactic(auto, unfolding(crate::specs::Terms::terms_of, crate::specs::Terms::terms_at))]
pub fn number_a_at(row: &[u64]) -> Words
    ensures { result ≡ (terms_at row.now).numberA }
{
    if WIDTH <= row.len() {
        return Words {
            low: row[3],
            high: row[4],
        };
    }
    Words { low: 0, high: 0 }
}

#[tactic(auto, unfolding(crate::specs::Terms::terms_of, crate::specs::Terms::terms_at))]
pub fn number_b_at(row: &[u64]) -> Words
    ensures { result ≡ (terms_at row.now).numberB }
{
    if WIDTH <= row.len() {
        return Words {
            low: row[5],
            high: row[6],
        };
    }
    Words { low: 0, high: 0 }
}

#[tactic(auto, unfolding(crate::specs::Terms::terms_of, crate::specs::Terms::terms_at))]
pub fn service_at(row: &[u64]) -> u64
    ensures { result ≡ (terms_at row.now).service }
{
    if WIDTH <= row.len() {
        return row[7];
    }
    0
}

#[tactic(auto, unfolding(crate::specs::Terms::terms_of, crate::specs::Terms::terms_at, crate::specs::Codes::kind_of))]
pub fn kind_at(row: &[u64]) -> Kind
    ensures { result ≡ (terms_at row.now).kind }
{
    if WIDTH <= row.len() {
        return kind_of(row[KIND_AT]);
    }
    Kind::Ccbs
}

// The terms at the front of some words; of too few words, none.
#[tactic(auto, unfolding(crate::specs::Terms::terms_of, crate::specs::Terms::terms_at))]
pub fn terms_of(row: &[u64]) -> Terms
    ensures { result ≡ terms_at row.now }
{
    if WIDTH <= row.len() {
        return Terms {
            identifier: identifier_at(row),
            numberA: number_a_at(row),
            numberB: number_b_at(row),
            service: service_at(row),
            kind: kind_at(row),
            keep: keep_of(row[8]),
            connection: connection_of(row[9]),
        };
    }
    no_terms()
}

// Terms put over the front of some words; too few words stay as they are.
#[tactic(auto, unfolding(crate::specs::Terms::terms_put))]
pub fn put_terms(row: &mut [u64], terms: Terms)
    ensures { row.new ≡ terms_put terms row.old }
{
    if WIDTH <= row.len() {
        let words = identifier_words(terms.identifier);
        row[0] = flag_code(terms.identifier.is_some());
        row[1] = words.low;
        row[2] = words.high;
        row[3] = terms.numberA.low;
        row[4] = terms.numberA.high;
        row[5] = terms.numberB.low;
        row[6] = terms.numberB.high;
        row[7] = terms.service;
        row[8] = keep_code(terms.keep);
        row[9] = connection_code(terms.connection);
        row[10] = kind_code(terms.kind);
    }
}

// The terms with the two choices.
pub fn with_choices(terms: Terms, keep: Keep, connection: Connection) -> Terms
    ensures { result ≡ with_choices terms keep connection }
{
    Terms {
        keep,
        connection,
        ..terms
    }
}

// The kind as a row of a table leaves it.
pub fn kind_after(becomes: Option<Kind>, kind: Kind) -> Kind
    ensures { result ≡ kind_after becomes kind }
{
    becomes.unwrap_or(kind)
}

// What a record with these terms gives the messages that it sends.
pub fn elements_of(terms: Terms) -> Elements
    ensures { result ≡ elements_of terms }
{
    Elements {
        identifier: terms.identifier,
        numberA: terms.numberA,
        numberB: terms.numberB,
        service: terms.service,
    }
}

// What is sent on a record's terms, or nothing: by its connection choice, and once its retained connection fell, as for RLS.
pub fn sent_on(terms: Terms, down: bool, sends: Option<Body>) -> Option<Letter>
    ensures { result ≡ sent sends (elements_of terms) (sends_as terms.connection down) }
{
    let elements = elements_of(terms);
    let connection = terms.connection;
    sent_for(sends, elements, sends_as(connection, down))
}
