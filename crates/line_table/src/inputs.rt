// The inputs of the line desk, and what each means: whom it names, the row of each message and act, the replies that go with a refusal, and the choices that a
// request brings.
ghost use Rattle.std.specs.Prelude.{◌≡◌};
ghost use Rattle.line_table.specs.Inputs.{names_of, message_for, ringout_row, row_for, row_of_act, reply_missed, keep_chosen, connection_chosen, keep_sent};

use crate::table::Row;
use desk::letter::Letter;
use desk::{Connection, Keep};
use lists::words::Words;
use message::{Body, Kind};
use terms::request::{
    Name, Names, Request, can_keep_sent, letter_names, only_identifier, only_line,
};

// The acts at the line's end. Fell: the retained connection fell.
#[derive(Clone, Copy)]
pub enum Act {
    Alerted,
    CallFailed,
    Cancel,
    Fell,
}

// An input in range: a message, with the place that the host names for it; an act, and the guard reported, by the request's identifier or its record's place; a line
// reported busy or free, and a Look at a line, by its number.
#[derive(Clone, Copy)]
pub enum Input {
    Message(Letter, usize),
    Act(Name, Act),
    Guard(Name),
    Report(Words, bool),
    Look(Words),
}

// A message about a record.
#[derive(Clone, Copy)]
pub enum RecordMessage {
    Suspend,
    Resume,
    Ringout,
    Cancel,
}

// What a message is: a request, a message about a record, or of a type that isn't for this end.
#[derive(Clone, Copy)]
pub enum Meant {
    Request(Request),
    Record(RecordMessage),
    NotHere,
}

// Whom an input names.
pub fn names_of(input: Input) -> Names
    ensures { result ≡ names_of input }
{
    match input {
        Input::Message(l, _) => letter_names(l),
        Input::Act(name, _) | Input::Guard(name) => only_identifier(name.identifier),
        Input::Report(number, _) | Input::Look(number) => only_line(number),
    }
}

// Types 3, 4, 5, 7, 11 and 12 go to the clerk.
pub fn message_for(body: Body) -> Meant
    ensures { result ≡ message_for body }
{
    match body {
        Body::CcbsRequest { service, flags } => Meant::Request(Request {
            kind: Kind::Ccbs,
            service,
            flags,
        }),
        Body::CcnrRequest { service, flags } => Meant::Request(Request {
            kind: Kind::Ccnr,
            service,
            flags,
        }),
        Body::RequestResult { .. } => Meant::NotHere,
        Body::RequestError { .. } => Meant::NotHere,
        Body::CcExecPossible => Meant::NotHere,
        Body::CcRingout => Meant::Record(RecordMessage::Ringout),
        Body::RingoutError { .. } => Meant::NotHere,
        Body::CcSuspend => Meant::Record(RecordMessage::Suspend),
        Body::CcResume => Meant::Record(RecordMessage::Resume),
        Body::CcCancel => Meant::Record(RecordMessage::Cancel),
        Body::CallAlerts => Meant::NotHere,
        Body::CallFailed => Meant::NotHere,
    }
}

fn ringout_row(takes: bool, keep: Keep) -> Row
    ensures { result ≡ ringout_row takes keep }
{
    if takes {
        Row::RingsOut
    } else if keep == Keep::Keeps {
        Row::BusyAgainKept
    } else {
        Row::BusyAgainEnded
    }
}

// The row of a message about a record, by whether its line can take a call and by its keep choice.
pub fn row_for(message: RecordMessage, takes: bool, keep: Keep) -> Row
    ensures { result ≡ row_for message takes keep }
{
    match message {
        RecordMessage::Suspend => Row::Suspends,
        RecordMessage::Resume => Row::Resumes,
        RecordMessage::Ringout => ringout_row(takes, keep),
        RecordMessage::Cancel => Row::ClerkCancels,
    }
}

// The row of an act.
pub fn row_of_act(act: Act) -> Row
    ensures { result ≡ row_of_act act }
{
    match act {
        Act::Alerted => Row::Alerts,
        Act::CallFailed => Row::CallFails,
        Act::Cancel => Row::LineCancels,
        Act::Fell => Row::Falls,
    }
}

// The reply to a message that has no record, or whose record has no row for it: to a ccRingout and to a ccResume.
pub fn reply_missed(message: RecordMessage) -> Option<Body>
    ensures { result ≡ reply_missed message }
{
    match message {
        RecordMessage::Suspend => None,
        RecordMessage::Resume => Some(Body::CcCancel),
        RecordMessage::Ringout => Some(Body::RingoutError { error: 2 }),
        RecordMessage::Cancel => None,
    }
}

// Keep exactly if can-keep was sent and the desk keeps.
pub fn keep_chosen(flags: u8, keeps: bool) -> Keep
    ensures { result ≡ keep_chosen flags keeps }
{
    if can_keep_sent(flags) && keeps {
        Keep::Keeps
    } else {
        Keep::Ends
    }
}

// By the preference, by the desk's default if none.
pub fn connection_chosen(flags: u8, retains: bool) -> Connection
    ensures { result ≡ connection_chosen flags retains }
{
    match flags / 2 {
        1 => Connection::Ret,
        2 => Connection::Rls,
        _ if retains => Connection::Ret,
        _ => Connection::Rls,
    }
}

// The keep that a result carries.
pub fn keep_sent(keep: Keep) -> u8
    ensures { result ≡ keep_sent keep }
{
    match keep {
        Keep::Empty | Keep::Ends => 0,
        Keep::Keeps => 1,
    }
}
