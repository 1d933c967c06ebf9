// The line desk at rest: words, by their places. Records stand first, behind them lines, behind them the two settings. Only this crate touches words; what stands
// above it speaks of the lists of records and lines. An inner room of the line desk: its functions are no public operations.
#![tactic(auto)]

pub mod change;
pub mod codes;
pub mod deadlines;
pub mod lines;
pub mod meaning;
pub mod places;
pub mod search;

// A record: its terms, its state, the activity mark, the suspended mark, the mark "connection down", and last the guard's deadline.
const STATE_AT: usize = terms::WIDTH;

const ACTIVE_AT: usize = terms::WIDTH + 1;

const SUSPENDED_AT: usize = terms::WIDTH + 2;

const DOWN_AT: usize = terms::WIDTH + 3;

const GUARD_AT: usize = terms::WIDTH + 4;

pub const WIDTH: usize = terms::WIDTH + 5;

pub const PLACES: usize = 32;

// The code of the last state.
pub const LAST_STATE: u64 = 3;

// A line: its number, two kinds, its status.
pub const LINE_WIDTH: usize = 5;

pub const LINES: usize = 16;

pub const LINES_AT: usize = PLACES * WIDTH;

// The two settings.
pub const KEEPS_AT: usize = LINES_AT + LINES * LINE_WIDTH;

pub const RETAINS_AT: usize = KEEPS_AT + 1;

// All words of a desk.
pub const WORDS: usize = RETAINS_AT + 1;
