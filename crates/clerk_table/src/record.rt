// A clerk's record in flight (document 01, "The two desks"); what a desk decides about an input, and what it plans: the change and the outcome.
ghost use Rattle.std.specs.Prelude.{◌≡◌};
ghost use Rattle.clerk_table.specs.Record.{with_terms, refused_plan};

use crate::table::{Row, State};
use desk::letter::Letter;
use desk::outcome::refused;
use desk::plan::Plan;
use desk::{Connection, Keep};
use message::refusal::Refusal;
use message::{Body, Kind};
use terms::Terms;
use terms::request::Request;

// The state, the can-keep that was sent, the mark "connection down", and the terms. Its bytes stand first, so that in a change they share their place with what a turn gives, and no word does.
#[derive(Clone, Copy)]
pub struct Record {
    pub state: State,
    pub canKeep: bool,
    pub down: bool,
    pub terms: Terms,
}

// What the desk decides about an input: a refusal and the body of the reply that goes with it; a row of the table for the record of a place; or
// a request stored at a place.
#[derive(Clone, Copy)]
pub enum Decision {
    Refuse(Refusal, Option<Body>),
    Take(usize, Row),
    Store(usize, Request),
}

// What a row changes in a record that it turns; all else of the record stays.
#[derive(Clone, Copy)]
pub struct Turned {
    pub keep: Keep,
    pub connection: Connection,
    pub kind: Kind,
    pub state: State,
    pub down: bool,
}

// What becomes of the desk: nothing; a new record put at a place; the record of a place turned; the record of a place removed.
#[derive(Clone, Copy)]
pub enum Change {
    Stay,
    Put(usize, Record),
    Turn(usize, Turned),
    Remove(usize),
}

// The record with other terms.
pub fn with_terms(r: Record, terms: Terms) -> Record
    ensures { result ≡ with_terms r terms }
{
    Record { terms, ..r }
}

// A refusal changes nothing.
pub fn refused_plan(refusal: Refusal, reply: Option<Letter>) -> Plan<Change>
    ensures { result ≡ refused_plan refusal reply }
{
    Plan {
        change: Change::Stay,
        outcome: refused(refusal, reply),
    }
}
