// What is decided of each input, on words that are lent for reading: the refusals in document 01's order, then the row of the table, or what becomes of the request or
// of the line. The line is looked for only where the answer hangs on it: for a request, a ccRingout, a report and a Look.
ghost use Rattle.std.specs.Prelude.{◌≡◌, get_or};
ghost use Rattle.line_table.specs.Inputs.{row_for};
ghost use Rattle.line_records.specs.Records.{blank, records};
ghost use Rattle.line_plan.specs.Decide.{holds_for, takes_call, row_decision, place_decision, record_decision, counted_decision, admitted_decision, request_decision, message_decision, held_decision, own_decision, report_decision, offer_at, look_decision, decided};

use desk::carriers::carrier_fits;
use desk::letter::Letter;
use desk::{Connection, Keep};
use line_records::WORDS;
use line_records::lines::{find_line, load_line};
use line_records::meaning::{find_meant, find_named};
use line_records::places::{find_place, load};
use line_records::search::{count_line, find_record};
use line_table::inputs::{
    Input, Meant, RecordMessage, message_for, reply_missed, row_for, row_of_act,
};
use line_table::line::{Line, allows_kind, can_take};
use line_table::record::{Decision, Record};
use line_table::search::Sought;
use line_table::table::{Row, holds_in, home_of};
use lists::words::Words;
use message::refusal::Refusal;
use terms::means::Means;
use terms::request::{Name, Names, Request, letter_names};

// At most so many records for one line.
const LINE_MOST: usize = 5;

// Whether a row is taken for a record.
fn holds_for(row: Row, r: Record) -> bool
    ensures { result ≡ holds_for row r }
{
    let home = home_of(row);
    let state = r.state;
    let agreed = r.terms;
    let connection = agreed.connection;
    holds_in(home, state, connection)
}

// Whether the line of a number can take a call.
#[tactic(auto, unfolding(crate::specs::Decide::takes_call))]
fn takes_call(words: &[u64; WORDS], number: Words) -> bool
    ensures { result ≡ takes_call words.now number }
{
    match find_line(words, number) {
        None => true,
        Some(k) => {
            let line = load_line(words, k);
            can_take(line)
        }
    }
}

// The row of a message about a record of the line with that number. The line is looked for only for a ccRingout: no other row hangs on it.
fn row_meant(words: &[u64; WORDS], message: RecordMessage, number: Words, keep: Keep) -> Row
    ensures { result ≡ row_for message (takes_call words.now number) keep }
{
    match message {
        RecordMessage::Suspend => row_for(RecordMessage::Suspend, true, keep),
        RecordMessage::Resume => row_for(RecordMessage::Resume, true, keep),
        RecordMessage::Ringout => {
            let takes = takes_call(words, number);
            row_for(RecordMessage::Ringout, takes, keep)
        }
        RecordMessage::Cancel => row_for(RecordMessage::Cancel, true, keep),
    }
}

// The row of a message about the record of a place: 7, then 8.
fn decide_row(place: usize, r: Record, l: Letter, message: RecordMessage, row: Row) -> Decision
    ensures { result ≡ row_decision place r l message row }
{
    if holds_for(row, r) {
        let body = l.body;
        let carrier = l.carrier;
        let agreed = r.terms;
        let connection = agreed.connection;
        if carrier_fits(body, connection, carrier) {
            return Decision::Take(place, row);
        }
        return Decision::Refuse(Refusal::NotInCarrier, None);
    }
    Decision::Refuse(Refusal::NoRow, reply_missed(message))
}

// A message about the record of a place: 7, 8.
fn decide_place(words: &[u64; WORDS], place: usize, l: Letter, message: RecordMessage) -> Decision
    ensures { result ≡ place_decision words.now place (get_or (records words.now) place blank) l message }
{
    let r = load(words, place);
    let agreed = r.terms;
    let number = agreed.numberB;
    let keep = agreed.keep;
    let row = row_meant(words, message, number, keep);
    decide_row(place, r, l, message, row)
}

// A message about a record, with the place that the host names for it: 6; 7 too where some fit and none is in a state that the message is for; then 7, 8.
#[tactic(auto, unfolding(crate::specs::Decide::record_decision))]
fn decide_record(words: &[u64; WORDS], l: Letter, at: usize, message: RecordMessage) -> Decision
    ensures { result ≡ record_decision words.now l at message }
{
    match find_meant(words, l, at) {
        Means::Nothing => Decision::Refuse(Refusal::NoRecord, reply_missed(message)),
        Means::NotNow => Decision::Refuse(Refusal::NoRow, reply_missed(message)),
        Means::At(place) => decide_place(words, place, l, message),
    }
}

// Short if the line has 5 or the desk has 32, else stored.
#[tactic(auto, unfolding(crate::specs::Decide::counted_decision))]
fn decide_counted(words: &[u64; WORDS], names: Names, q: Request, busy: bool) -> Decision
    ensures { result ≡ counted_decision words.now names q busy }
{
    let numberB = names.numberB;
    if count_line(words, numberB) < LINE_MOST {
        let Some(place) = find_place(words) else {
            return Decision::Deny(1);
        };
        return Decision::Store(place, q, busy);
    }
    Decision::Deny(1)
}

// Short if duplicate.
#[tactic(auto, unfolding(crate::specs::Decide::admitted_decision))]
fn decide_admitted(words: &[u64; WORDS], names: Names, q: Request, busy: bool) -> Decision
    ensures { result ≡ admitted_decision words.now names q busy }
{
    match find_record(words, Sought::Duplicate(names)) {
        Some(_) => Decision::Deny(1),
        None => decide_counted(words, names, q, busy),
    }
}

// A request: 8; then long if numberB is no line or the kind isn't allowed.
#[tactic(auto, unfolding(crate::specs::Decide::request_decision))]
fn decide_request(words: &[u64; WORDS], l: Letter, q: Request) -> Decision
    ensures { result ≡ request_decision words.now l q }
{
    let body = l.body;
    let carrier = l.carrier;
    if carrier_fits(body, Connection::Empty, carrier) {
        let numberB = l.numberB;
        let kind = q.kind;
        let Some(k) = find_line(words, numberB) else {
            return Decision::Deny(2);
        };
        let line = load_line(words, k);
        if allows_kind(line, kind) {
            let names = letter_names(l);
            return decide_admitted(words, names, q, line.busy);
        }
        return Decision::Deny(2);
    }
    Decision::Refuse(Refusal::NotInCarrier, None)
}

// A message: 3, then a request or a message about a record.
#[tactic(auto, unfolding(crate::specs::Decide::message_decision))]
fn decide_message(words: &[u64; WORDS], l: Letter, at: usize) -> Decision
    ensures { result ≡ message_decision words.now l at }
{
    let body = l.body;
    match message_for(body) {
        Meant::Request(q) => decide_request(words, l, q),
        Meant::Record(message) => decide_record(words, l, at, message),
        Meant::NotHere => Decision::Refuse(Refusal::NotHere, None),
    }
}

// The line's own row for the record of a place: 7.
fn decide_held(words: &[u64; WORDS], place: usize, row: Row) -> Decision
    ensures { result ≡ held_decision words.now place row }
{
    let r = load(words, place);
    if holds_for(row, r) {
        return Decision::Take(place, row);
    }
    Decision::Refuse(Refusal::NoRow, None)
}

// The line's own row, of an act or the guard: 6, 7.
#[tactic(auto, unfolding(crate::specs::Decide::own_decision))]
fn decide_own(words: &[u64; WORDS], name: Name, row: Row) -> Decision
    ensures { result ≡ own_decision words.now name row }
{
    match find_named(words, name) {
        Means::Nothing => Decision::Refuse(Refusal::NoRecord, None),
        Means::NotNow => Decision::Refuse(Refusal::NoRow, None),
        Means::At(place) => decide_held(words, place, row),
    }
}

// A line report: 10.
#[tactic(auto, unfolding(crate::specs::Decide::report_decision))]
fn decide_report(words: &[u64; WORDS], number: Words, busy: bool) -> Decision
    ensures { result ≡ report_decision words.now number busy }
{
    match find_line(words, number) {
        None => Decision::Refuse(Refusal::NoLine, None),
        Some(k) => Decision::Report(k, busy),
    }
}

// The place of the oldest fitting record of a line; none while the line is busy or blocked.
#[tactic(auto, unfolding(crate::specs::Decide::offer_at))]
fn find_offer(words: &[u64; WORDS], line: Line, number: Words) -> Option<usize>
    ensures { result ≡ offer_at words.now line number }
{
    if can_take(line) {
        return match find_record(words, Sought::Blocking(number)) {
            Some(_) => None,
            None => find_record(words, Sought::Fitting(number)),
        };
    }
    None
}

// A Look at a line: 10, 11; else the oldest fitting record is offered.
#[tactic(auto, unfolding(crate::specs::Decide::look_decision))]
fn decide_look(words: &[u64; WORDS], number: Words) -> Decision
    ensures { result ≡ look_decision words.now number }
{
    let Some(k) = find_line(words, number) else {
        return Decision::Refuse(Refusal::NoLine, None);
    };
    let line = load_line(words, k);
    let Some(place) = find_offer(words, line, number) else {
        return Decision::Refuse(Refusal::NothingToOffer, None);
    };
    Decision::Take(place, Row::Offers)
}

// What is decided of an input.
#[tactic(auto, unfolding(crate::specs::Decide::decided))]
pub fn decide(words: &[u64; WORDS], input: Input) -> Decision
    ensures { result ≡ decided words.now input }
{
    match input {
        Input::Message(l, at) => decide_message(words, l, at),
        Input::Act(name, act) => {
            let row = row_of_act(act);
            decide_own(words, name, row)
        }
        Input::Guard(name) => decide_own(words, name, Row::GuardRunsOut),
        Input::Report(number, busy) => decide_report(words, number, busy),
        Input::Look(number) => decide_look(words, number),
    }
}
