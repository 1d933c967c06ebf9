// What each input plans at the line desk, on words that are lent for reading: it is decided, and of the decision the change and the outcome are made, by a
// function for each kind of it. For the faces of this desk; no public operations.
#![tactic(auto)]

ghost use Rattle.std.specs.Prelude.{◌≡◌};
ghost use Rattle.line_plan.specs.Plan.{denied_plan, new_record, stored_plan, reported_plan, plan_of, plan_for};

use crate::decide::decide;
use desk::outcome::{NO_TIMERS, done};
use desk::plan::Plan;
use desk::sends::{answer_with, reply_with, sent_for};
use line_records::WORDS;
use line_records::lines::{desk_keeps, desk_retains};
use line_records::places::load;
use line_table::inputs::{Input, connection_chosen, keep_chosen, keep_sent, names_of};
use line_table::record::{Change, Decision, Record, refused_plan};
use line_table::step::{only_guard, take_row};
use line_table::table::State;
use lists::words::Words;
use message::Body;
use terms::elements_of;
use terms::request::{Names, Request, request_terms};

pub mod decide;

// A request that is not accepted: 1 short, 2 long. A completed step that stores nothing.
pub fn denied_plan(identifier: Option<Words>, error: u8) -> Plan<Change>
    ensures { result ≡ denied_plan identifier error }
{
    let sending = reply_with(identifier, Body::RequestError { error });
    Plan {
        change: Change::Stay,
        outcome: done(sending, NO_TIMERS, NO_TIMERS, None),
    }
}

// The record of an accepted request: Invoked, marked active if its line is busy.
pub fn new_record(words: &[u64; WORDS], names: Names, q: Request, busy: bool) -> Record
    ensures { result ≡ new_record words.now names q busy }
{
    let keep = keep_chosen(q.flags, desk_keeps(words));
    let connection = connection_chosen(q.flags, desk_retains(words));
    let agreed = request_terms(names, q, keep, connection);
    Record {
        terms: agreed,
        state: State::Invoked,
        active: busy,
        suspended: false,
        down: false,
    }
}

// A record stored: the result is sent, the guard starts.
pub fn stored_plan(place: usize, r: Record) -> Plan<Change>
    ensures { result ≡ stored_plan place r }
{
    let agreed = r.terms;
    let elements = elements_of(agreed);
    let connection = agreed.connection;
    let keep = agreed.keep;
    let body = Body::RequestResult {
        keep: keep_sent(keep),
    };
    let sending = sent_for(Some(body), elements, connection);
    let outcome = done(sending, only_guard(), NO_TIMERS, Some(place));
    Plan {
        change: Change::Put(place, r),
        outcome,
    }
}

// A line report stored, of the line at a place, with its number.
pub fn reported_plan(place: usize, number: Words, busy: bool) -> Plan<Change>
    ensures { result ≡ reported_plan place number busy }
{
    Plan {
        change: Change::Report(place, number, busy),
        outcome: done(None, NO_TIMERS, NO_TIMERS, None),
    }
}

// What a decision makes of the desk and of the outcome.
#[tactic(auto, unfolding(crate::specs::Plan::plan_of))]
fn plan_of(words: &[u64; WORDS], input: Input, decision: Decision) -> Plan<Change>
    ensures { result ≡ plan_of words.now input decision }
{
    let names = names_of(input);
    let identifier = names.identifier;
    let number = names.numberB;
    match decision {
        Decision::Refuse(refusal, reply) => {
            let sending = answer_with(identifier, reply);
            refused_plan(refusal, sending)
        }
        Decision::Deny(error) => denied_plan(identifier, error),
        Decision::Take(place, row) => {
            let r = load(words, place);
            take_row(place, r, row)
        }
        Decision::Store(place, q, busy) => {
            let r = new_record(words, names, q, busy);
            stored_plan(place, r)
        }
        Decision::Report(place, busy) => reported_plan(place, number, busy),
    }
}

// What an input plans.
#[tactic(auto, unfolding(crate::specs::Plan::plan_for))]
pub fn plan_for(words: &[u64; WORDS], input: Input) -> Plan<Change>
    ensures { result ≡ plan_for words.now input }
{
    let decision = decide(words, input);
    plan_of(words, input, decision)
}
