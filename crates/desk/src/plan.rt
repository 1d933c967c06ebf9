// What a row of a desk's table makes of a record, and what a desk plans for an input. Each desk has its own states and its own changes.
use crate::outcome::Outcome;

// What becomes of the record: deleted, in the state that it is in, or on to a state.
#[derive(Clone, Copy)]
pub enum Next<S> {
    Gone,
    Same,
    To(S),
}

// What a desk plans: how it changes, and the outcome.
#[derive(Clone, Copy)]
pub struct Plan<C> {
    pub change: C,
    pub outcome: Outcome,
}
