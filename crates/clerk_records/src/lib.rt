// The clerk's records at rest: sixteen places, each with a record's terms, its state, its mark, the can-keep that was sent and its deadlines; behind them the lengths of the
// timers. Only this crate touches words; what stands above it speaks of the list of records. An inner room of the clerk's desk: its functions are no public operations.
#![tactic(auto)]

pub mod codes;
pub mod deadlines;
pub mod meaning;
pub mod places;

// A record's words: its terms, the state and the mark "connection down" behind them, can-keep, and last two deadlines: that of T1 or, from the result on, of T2; and that of T3.
// Sixteen words move faster than seventeen.
pub const WIDTH: usize = terms::WIDTH + 5;

pub const DOWN_AT: usize = terms::WIDTH + 1;

pub const CAN_KEEP_AT: usize = terms::WIDTH + 2;

pub const DEADLINES_AT: usize = terms::WIDTH + 3;

pub const PLACES: usize = 16;

// The lengths of the timers: T1, T2 of CCBS, T2 of CCNR, T3.
pub const LENGTHS_AT: usize = PLACES * WIDTH;

pub const WORDS: usize = LENGTHS_AT + 4;
// A state's word is from 1 to this; any other is no record.
pub const LAST_STATE: u64 = 5;
