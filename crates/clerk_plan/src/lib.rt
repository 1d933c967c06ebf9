// What the clerk's desk decides about an input, on words that are lent for reading: the refusals in document 01's order, then the row of the table. The change and the
// outcome are made of the decision, by a function for each kind of it. An inner room of the clerk's desk: its functions are no public operations.
#![tactic(auto)]

ghost use Rattle.std.specs.Prelude.{◌≡◌};
ghost use Rattle.clerk_records.specs.Records.{records};
ghost use Rattle.clerk_table.specs.Inputs.{message_for, names_of};
ghost use Rattle.clerk_table.specs.Record.{refused_plan};
ghost use Rattle.desk.specs.Sends.{answered};
ghost use Rattle.clerk_plan.specs.Plan.{holds_for, ask_meant, row_decision, record_decision, message_meant, own_found, decided, new_record, stored_plan, taken_plan, plan_of, plan_for};

use clerk_records::WORDS;
use clerk_records::meaning::find_meant;
use clerk_records::places::{find_place, load};
use clerk_table::inputs::{
    Input, RecordMessage, message_for, names_of, reply_unfit, reply_unmatched, row_for, row_of_act,
    row_of_timer, settle_by,
};
use clerk_table::record::{Change, Decision, Record, refused_plan};
use clerk_table::step::take_row;
use clerk_table::table::{Row, State, holds_in, home_of};
use desk::carriers::carrier_fits;
use desk::letter::Letter;
use desk::outcome::{NO_TIMERS, Timers, done};
use desk::plan::Plan;
use desk::sends::answer_with;
use desk::{Connection, Keep};
use message::Body;
use message::refusal::Refusal;
use terms::means::Means;
use terms::request::{Names, Request, can_keep_sent, request_letter, request_terms};

// Whether a row is taken for a record.
fn holds_for(row: Row, r: Record) -> bool
    ensures { result ≡ holds_for row r }
{
    let state = r.state;
    let terms = r.terms;
    let connection = terms.connection;
    holds_in(home_of(row), state, connection)
}

// An ask, by the record that it means, which is one with its identifier: 4, 5.
fn decide_ask(words: &[u64; WORDS], q: Request, means: Means) -> Decision
    ensures { result ≡ ask_meant (records words.now) q means }
{
    match means {
        Means::At(_) => Decision::Refuse(Refusal::Live, None),
        Means::NotNow => Decision::Refuse(Refusal::Live, None),
        Means::Nothing => match find_place(words) {
            None => Decision::Refuse(Refusal::Full, None),
            Some(place) => Decision::Store(place, q),
        },
    }
}

// A message's row, for the record of a place: 7, then 8.
fn decide_row(place: usize, r: Record, l: Letter, message: RecordMessage, row: Row) -> Decision
    ensures { result ≡ row_decision place r l message row }
{
    let carrier = l.carrier;
    if holds_for(row, r) {
        let body = l.body;
        let terms = r.terms;
        let connection = terms.connection;
        if carrier_fits(body, connection, carrier) {
            return Decision::Take(place, row);
        }
        return Decision::Refuse(Refusal::NotInCarrier, reply_unfit(message, carrier));
    }
    Decision::Refuse(Refusal::NoRow, reply_unfit(message, carrier))
}

// A message about the record of a place.
fn decide_record(place: usize, r: Record, l: Letter, busy: bool, message: RecordMessage) -> Decision
    ensures { result ≡ record_decision place r l busy message }
{
    let terms = r.terms;
    let keep = terms.keep;
    let kind = terms.kind;
    decide_row(place, r, l, message, row_for(message, busy, keep, kind))
}

// A message, by the record that it means: 3, 6, 7, 8.
fn decide_message(words: &[u64; WORDS], l: Letter, busy: bool, means: Means) -> Decision
    ensures { result ≡ message_meant (records words.now) l busy means (message_for l.body) }
{
    let body = l.body;
    match message_for(body) {
        None => Decision::Refuse(Refusal::NotHere, None),
        Some(message) => match means {
            Means::Nothing => Decision::Refuse(Refusal::NoRecord, reply_unmatched(message)),
            Means::NotNow => {
                let carrier = l.carrier;
                Decision::Refuse(Refusal::NoRow, reply_unfit(message, carrier))
            }
            Means::At(place) => decide_record(place, load(words, place), l, busy, message),
        },
    }
}

// User A's own row, of an act or a timer, by the record that is named: 6, or the refusal given.
fn decide_own(words: &[u64; WORDS], row: Row, refusal: Refusal, means: Means) -> Decision
    ensures { result ≡ own_found (records words.now) row refusal means }
{
    match means {
        Means::Nothing => Decision::Refuse(Refusal::NoRecord, None),
        Means::NotNow => Decision::Refuse(refusal, None),
        Means::At(place) => {
            if holds_for(row, load(words, place)) {
                return Decision::Take(place, row);
            }
            Decision::Refuse(refusal, None)
        }
    }
}

// What the desk decides.
#[tactic(auto, unfolding(crate::specs::Plan::decided, clerk_records::specs::Meaning::meant_by, clerk_records::specs::Meaning::meaning, clerk_records::specs::Meaning::named))]
pub fn decide(words: &[u64; WORDS], input: Input) -> Decision
    ensures { result ≡ decided (records words.now) input }
{
    let means = find_meant(words, input);
    match input {
        Input::Ask(_, q) => decide_ask(words, q, means),
        Input::Message(l, busy, _) => decide_message(words, l, busy, means),
        Input::Act(_, act) => decide_own(words, row_of_act(act), Refusal::NoRow, means),
        Input::Timer(_, timer) => decide_own(
            words,
            row_of_timer(timer),
            Refusal::NotRunning,
            means,
        ),
    }
}

// A refusal with its reply: the identifier that the input names, or none.
pub fn plan_refused(input: Input, refusal: Refusal, reply: Option<Body>) -> Plan<Change>
    ensures { result ≡ refused_plan refusal (answered (names_of input).identifier reply) }
{
    let names = names_of(input);
    let identifier = names.identifier;
    refused_plan(refusal, answer_with(identifier, reply))
}

// A row taken for the record of a place.
pub fn plan_taken(words: &[u64; WORDS], input: Input, place: usize, row: Row) -> Plan<Change>
    ensures { result ≡ taken_plan (records words.now) input place row }
{
    take_row(place, settle_by(input, load(words, place)), row)
}

// In Wait-Ack, its choices empty, with the can-keep that is sent.
pub fn new_record(names: Names, q: Request) -> Record
    ensures { result ≡ new_record names q }
{
    let terms = request_terms(names, q, Keep::Empty, Connection::Empty);
    Record {
        terms,
        state: State::WaitAck,
        canKeep: can_keep_sent(q.flags),
        down: false,
    }
}

// The request is sent and T1 starts.
pub fn plan_stored(place: usize, names: Names, q: Request) -> Plan<Change>
    ensures { result ≡ stored_plan place names q }
{
    let record = new_record(names, q);
    let letter = request_letter(names, q);
    let started = Timers {
        t1: true,
        t2: false,
        t3: false,
        guard: false,
    };
    let outcome = done(Some(letter), started, NO_TIMERS, Some(place));
    Plan {
        change: Change::Put(place, record),
        outcome,
    }
}

// What a decision about an input means, whichever it is.
#[tactic(auto, unfolding(crate::specs::Plan::plan_of))]
fn plan_of(words: &[u64; WORDS], input: Input, decision: Decision) -> Plan<Change>
    ensures { result ≡ plan_of (records words.now) input decision }
{
    match decision {
        Decision::Refuse(refusal, reply) => plan_refused(input, refusal, reply),
        Decision::Take(place, row) => plan_taken(words, input, place, row),
        Decision::Store(place, q) => plan_stored(place, names_of(input), q),
    }
}

// What the desk plans for an input.
#[tactic(auto, unfolding(crate::specs::Plan::plan_for))]
pub fn plan_for(words: &[u64; WORDS], input: Input) -> Plan<Change>
    ensures { result ≡ plan_for (records words.now) input }
{
    let decision = decide(words, input);
    plan_of(words, input, decision)
}
