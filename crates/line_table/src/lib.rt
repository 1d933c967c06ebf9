// The line's table, on one record and one line: which row an input means, what it makes of the record and of the outcome, and which records a
// search is for. An inner room of the line desk: its functions are no public operations.
#![tactic(auto)]

pub mod inputs;
pub mod line;
pub mod record;
pub mod search;
pub mod step;
pub mod table;
