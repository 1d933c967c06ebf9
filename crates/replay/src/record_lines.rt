// What the printed desks have in common: how many places are used, and the fields that a record of either desk begins with.
use crate::output::Fields;
use desk::{Connection, Keep};
use terms::Terms;
use terms::codes::kind_code;

pub fn keep_number(keep: Keep) -> Option<u64> {
    match keep {
        Keep::Empty => None,
        Keep::Ends => Some(0),
        Keep::Keeps => Some(1),
    }
}

pub fn connection_number(connection: Connection) -> Option<u64> {
    match connection {
        Connection::Empty => None,
        Connection::Ret => Some(1),
        Connection::Rls => Some(2),
    }
}

// The request's terms, but for its two choices.
pub fn put_terms(fields: &mut Fields, terms: Terms) {
    match terms.identifier {
        None => fields.put_text(b" -"),
        Some(words) => fields.put_hex(&<[u8; 16]>::from(words)),
    }
    fields.put_number(kind_code(terms.kind));
    fields.put_digits(terms.numberA);
    fields.put_digits(terms.numberB);
    fields.put_number(terms.service);
}

// The deadline of a timer that runs.
pub fn put_deadline(fields: &mut Fields, runs: bool, deadline: u32) {
    fields.put_option(runs.then_some(u64::from(deadline)));
}
