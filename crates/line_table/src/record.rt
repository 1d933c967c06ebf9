// A record of the line desk in flight (document 01, "The two desks" and "Steps at the line desk"): its terms, its state and its own marks; what a step decides, and
// what it plans.
ghost use Rattle.std.specs.Prelude.{◌≡◌};
ghost use Rattle.line_table.specs.Record.{refused_plan};

use crate::table::{Row, State};
use desk::letter::Letter;
use desk::outcome::refused;
use desk::plan::Plan;
use lists::words::Words;
use message::refusal::Refusal;
use message::{Body, Kind};
use terms::Terms;
use terms::request::Request;

#[derive(Clone, Copy)]
pub struct Record {
    pub terms: Terms,
    pub state: State,
    pub active: bool,
    pub suspended: bool,
    pub down: bool,
}

// What a step decides, of its input and the desk: a refusal, with its reply or none; a request denied by its error, 1 short or 2 long, which stores
// nothing; a row taken for the record of a place; a request stored at a place, its line busy or not; the line of a place reported busy or free.
#[derive(Clone, Copy)]
pub enum Decision {
    Refuse(Refusal, Option<Body>),
    Deny(u8),
    Take(usize, Row),
    Store(usize, Request, bool),
    Report(usize, bool),
}

// What a row changes in a record that it turns; all else of the record stays.
#[derive(Clone, Copy)]
pub struct Turned {
    pub kind: Kind,
    pub state: State,
    pub active: bool,
    pub suspended: bool,
    pub down: bool,
}

// What becomes of the desk: nothing; a new record put at a place; the record of a place turned; the record of a place removed; the status of the line at a place,
// with its number, stored. What a turn gives stands before its place, so that in memory no word of a new record lies across it.
#[derive(Clone, Copy)]
pub enum Change {
    Stay,
    Put(usize, Record),
    Turn(Turned, usize),
    Remove(usize),
    Report(usize, Words, bool),
}

// A refusal changes nothing.
pub fn refused_plan(refusal: Refusal, reply: Option<Letter>) -> Plan<Change>
    ensures { result ≡ refused_plan refusal reply }
{
    Plan {
        change: Change::Stay,
        outcome: refused(refusal, reply),
    }
}
