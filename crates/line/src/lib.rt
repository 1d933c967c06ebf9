// The line desk, User B's endpoint: its lines, its records in the order of acceptance, and every input's step. What is put in is made an entry; a step plans on words
// that are lent and then applies the plan to them; by value the desk goes in and comes back with the outcome.
#![tactic(auto)]

use line_records::WORDS;

pub mod entry;
pub mod on_words;
pub mod start;
pub mod steps;
pub mod tick;

// Records, lines and settings, as `line_records` keeps them. Every value of it is a desk: a place whose state word is no state has no record.
#[derive(Clone, Copy)]
pub struct Desk {
    pub words: [u64; WORDS],
}
