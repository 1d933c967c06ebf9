// What both desks share: messages and choices in flight, the outcome of a step, what is sent, and which
// carrier goes with which type. An inner room: its functions serve the desks and are no public operations, but for
// `letter::message_of`, by which a host has what is sent as a message.
#![tactic(auto)]

pub mod carriers;
pub mod entry;
pub mod letter;
pub mod outcome;
pub mod plan;
pub mod sends;
pub mod steps;

// The connection choice: empty until the acknowledgment, then RET or RLS for life.
#[derive(Clone, Copy, PartialEq, Eq)]
pub enum Connection {
    Empty,
    Ret,
    Rls,
}

// The keep choice: empty until the acknowledgment.
#[derive(Clone, Copy, PartialEq, Eq)]
pub enum Keep {
    Empty,
    Ends,
    Keeps,
}
