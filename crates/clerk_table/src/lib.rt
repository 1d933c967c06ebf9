// The clerk's table, on one record: which row an input means, and what it makes of the record and of the outcome. An inner room of the
// clerk's desk: its functions are no public operations.
#![tactic(auto)]

pub mod inputs;
pub mod record;
pub mod step;
pub mod table;
