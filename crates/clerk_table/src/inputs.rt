// The inputs of the clerk's desk and what each means: whom it names, the row of each message, act and timer report, the replies that go with a refusal,
// and the choices that a result brings.
ghost use Rattle.std.specs.Prelude.{◌≡◌};
ghost use Rattle.clerk_table.specs.Inputs.{names_of, message_for, row_for, row_of_act, row_of_timer, error_row, possible_row, busy_again_row, ringout_error_row, reply_unmatched, reply_in_setup, reply_unfit, keep_chosen, connection_meant, acknowledged, settled, settled_by};

use crate::record::{Record, with_terms};
use crate::table::{Row, Timer};
use desk::letter::Letter;
use desk::{Connection, Keep};
use message::{Body, Carrier, Kind};
use terms::request::{Name, Names, Request, letter_names, only_identifier};
use terms::with_choices;

// User A's acts, and what the host tells of the connection. User A free is two of them, as the host chooses. Fell: the retained connection fell.
#[derive(Clone, Copy)]
pub enum Act {
    Accept,
    Resume,
    GoOn,
    Cancel,
    Fell,
}

// All that the desk takes in: an ask, whom it names and what it asks for; a message in range, with the host's word on User A and the place that the host names for it;
// User A's act, and a timer that ran out, each on the request of an identifier or, without one, of a place.
#[derive(Clone, Copy)]
pub enum Input {
    Ask(Names, Request),
    Message(Letter, bool, usize),
    Act(Name, Act),
    Timer(Name, Timer),
}

// A message about a record: a result with its keep, a request error or a ringout error with its number, ..
#[derive(Clone, Copy)]
pub enum RecordMessage {
    Result(u8),
    Error(u8),
    ExecPossible,
    RingoutError(u8),
    Cancel,
    Alerts,
    Failed,
}

// Whom an input names.
pub fn names_of(input: Input) -> Names
    ensures { result ≡ names_of input }
{
    match input {
        Input::Ask(names, _) => names,
        Input::Message(l, _, _) => letter_names(l),
        Input::Act(name, _) | Input::Timer(name, _) => only_identifier(name.identifier),
    }
}

// Types 1, 2, 6, 8 and 9 go to the line.
pub fn message_for(body: Body) -> Option<RecordMessage>
    ensures { result ≡ message_for body }
{
    match body {
        Body::CcbsRequest { .. } => None,
        Body::CcnrRequest { .. } => None,
        Body::RequestResult { keep } => Some(RecordMessage::Result(keep)),
        Body::RequestError { error } => Some(RecordMessage::Error(error)),
        Body::CcExecPossible => Some(RecordMessage::ExecPossible),
        Body::CcRingout => None,
        Body::RingoutError { error } => Some(RecordMessage::RingoutError(error)),
        Body::CcSuspend => None,
        Body::CcResume => None,
        Body::CcCancel => Some(RecordMessage::Cancel),
        Body::CallAlerts => Some(RecordMessage::Alerts),
        Body::CallFailed => Some(RecordMessage::Failed),
    }
}

fn error_row(error: u8) -> Row
    ensures { result ≡ error_row error }
{
    if error == 1 {
        Row::DeniedShort
    } else {
        Row::DeniedLong
    }
}

fn possible_row(busy: bool) -> Row
    ensures { result ≡ possible_row busy }
{
    if busy { Row::Suspends } else { Row::Recalls }
}

fn busy_again_row(keep: Keep, kind: Kind) -> Row
    ensures { result ≡ busy_again_row keep kind }
{
    match keep {
        Keep::Empty | Keep::Ends => Row::BusyAgainEnded,
        Keep::Keeps => match kind {
            Kind::Ccbs => Row::BusyAgainKept,
            Kind::Ccnr => Row::BusyAgainWaiting,
        },
    }
}

fn ringout_error_row(error: u8, keep: Keep, kind: Kind) -> Row
    ensures { result ≡ ringout_error_row error keep kind }
{
    if error == 1 {
        busy_again_row(keep, kind)
    } else {
        Row::NotMatched
    }
}

// The row of a message about a record, by the host's word on User A and by the record's keep choice and kind.
pub fn row_for(message: RecordMessage, busy: bool, keep: Keep, kind: Kind) -> Row
    ensures { result ≡ row_for message busy keep kind }
{
    match message {
        RecordMessage::Result(_) => Row::Accepted,
        RecordMessage::Error(error) => error_row(error),
        RecordMessage::ExecPossible => possible_row(busy),
        RecordMessage::RingoutError(error) => ringout_error_row(error, keep, kind),
        RecordMessage::Cancel => Row::LineCancels,
        RecordMessage::Alerts => Row::Completes,
        RecordMessage::Failed => Row::CallFails,
    }
}

// The row of an act.
pub fn row_of_act(act: Act) -> Row
    ensures { result ≡ row_of_act act }
{
    match act {
        Act::Accept => Row::RingsOut,
        Act::Resume => Row::Resumes,
        Act::GoOn => Row::GoesOn,
        Act::Cancel => Row::UserCancels,
        Act::Fell => Row::Falls,
    }
}

// The row of a timer that is reported.
pub fn row_of_timer(timer: Timer) -> Row
    ensures { result ≡ row_of_timer timer }
{
    match timer {
        Timer::T1 => Row::T1RunsOut,
        Timer::T2 => Row::T2RunsOut,
        Timer::T3 => Row::T3RunsOut,
    }
}

// The reply to a message that means no record: to a result and to a ccExecPossible.
pub fn reply_unmatched(message: RecordMessage) -> Option<Body>
    ensures { result ≡ reply_unmatched message }
{
    match message {
        RecordMessage::Result(_) => Some(Body::CcCancel),
        RecordMessage::ExecPossible => Some(Body::CcCancel),
        _ => None,
    }
}

fn reply_in_setup(carrier: Carrier) -> Option<Body>
    ensures { result ≡ reply_in_setup carrier }
{
    match carrier {
        Carrier::Setup => Some(Body::CcCancel),
        _ => None,
    }
}

// The reply to a message that its record has no row for, that fits no record in a state it is for, or that came in a carrier that isn't allowed: to a
// ccExecPossible in Setup (mend M3).
pub fn reply_unfit(message: RecordMessage, carrier: Carrier) -> Option<Body>
    ensures { result ≡ reply_unfit message carrier }
{
    match message {
        RecordMessage::ExecPossible => reply_in_setup(carrier),
        _ => None,
    }
}

// Keep only if can-keep was sent true and keep is 1.
fn keep_chosen(canKeep: bool, keep: u8) -> Keep
    ensures { result ≡ keep_chosen canKeep keep }
{
    if canKeep && keep == 1 {
        Keep::Keeps
    } else {
        Keep::Ends
    }
}

// Connect means RET, Release Complete means RLS.
fn connection_meant(carrier: Carrier) -> Connection
    ensures { result ≡ connection_meant carrier }
{
    match carrier {
        Carrier::Connect => Connection::Ret,
        _ => Connection::Rls,
    }
}

fn acknowledge(r: Record, keep: u8, carrier: Carrier) -> Record
    ensures { result ≡ acknowledged r keep carrier }
{
    let chosen = keep_chosen(r.canKeep, keep);
    let connection = connection_meant(carrier);
    with_terms(r, with_choices(r.terms, chosen, connection))
}

// The record with the choices that a result brings; any other message brings none.
fn settle(meant: Option<RecordMessage>, carrier: Carrier, r: Record) -> Record
    ensures { result ≡ settled meant carrier r }
{
    match meant {
        Some(RecordMessage::Result(keep)) => acknowledge(r, keep, carrier),
        _ => r,
    }
}

// The record as an input's row finds it: with the choices, where the input is a result.
pub fn settle_by(input: Input, r: Record) -> Record
    ensures { result ≡ settled_by input r }
{
    match input {
        Input::Message(l, _, _) => settle(message_for(l.body), l.carrier, r),
        _ => r,
    }
}
