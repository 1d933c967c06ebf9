// The clerk's desk, User A's endpoint: sixteen records, and every input's step. What comes in becomes an input or is refused at the entry; a step plans on words that
// are lent and then applies the plan to them; by value the desk goes in and comes back with the outcome.
#![tactic(auto)]

use clerk_records::WORDS;

pub mod entry;
pub mod on_words;
pub mod start;
pub mod steps;
pub mod tick;

// The records' words. Every value of it is a desk: a place whose state word is no state has no record.
#[derive(Clone, Copy)]
pub struct Desk {
    pub words: [u64; WORDS],
}
