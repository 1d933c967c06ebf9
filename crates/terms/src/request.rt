// What a request asks for: whom it names, and what stands behind the numbers; the message that asks it, and the terms that it gives a record.
ghost use Rattle.std.specs.Prelude.{◌≡◌};
ghost use Rattle.terms.specs.Request.{letter_names, only_identifier, only_line, can_keep_sent, request_terms, request_letter};

use crate::Terms;
use desk::letter::Letter;
use desk::{Connection, Keep};
use lists::words::Words;
use message::{Carrier, Kind, request_body};

// Whom an input names: the request's identifier, User A's number, the line's and the service. What it does not name is absent: a number is then 0. A request
// has its service behind its numbers.
#[derive(Clone, Copy)]
pub struct Names {
    pub identifier: Option<Words>,
    pub numberA: Words,
    pub numberB: Words,
    pub service: Option<u64>,
}

const NOBODY: Names = Names {
    identifier: None,
    numberA: Words { low: 0, high: 0 },
    numberB: Words { low: 0, high: 0 },
    service: None,
};

// How a host names a request of its own desk: by the identifier, or where it has none by its record's place.
#[derive(Clone, Copy)]
pub struct Name {
    pub identifier: Option<Words>,
    pub place: usize,
}

// What a request asks for, behind its numbers.
#[derive(Clone, Copy)]
pub struct Request {
    pub kind: Kind,
    pub service: u16,
    pub flags: u8,
}

// Whom a message names.
pub fn letter_names(l: Letter) -> Names
    ensures { result ≡ letter_names l }
{
    Names {
        identifier: l.identifier,
        numberA: l.numberA,
        numberB: l.numberB,
        service: l.service,
    }
}

// An input that names a request by its identifier alone, or by none.
pub fn only_identifier(identifier: Option<Words>) -> Names
    ensures { result ≡ only_identifier identifier }
{
    Names {
        identifier,
        ..NOBODY
    }
}

// An input that names a line alone.
pub fn only_line(number: Words) -> Names
    ensures { result ≡ only_line number }
{
    Names {
        numberB: number,
        ..NOBODY
    }
}

// Whether a request's flags, can-keep plus 2 × preference, say that the clerk's end can keep.
pub fn can_keep_sent(flags: u8) -> bool
    ensures { result ≡ can_keep_sent flags }
{
    flags % 2 == 1
}

// The terms that a request gives a record, with the two choices.
pub fn request_terms(names: Names, q: Request, keep: Keep, connection: Connection) -> Terms
    ensures { result ≡ request_terms names q keep connection }
{
    Terms {
        identifier: names.identifier,
        numberA: names.numberA,
        numberB: names.numberB,
        service: u64::from(q.service),
        kind: q.kind,
        keep,
        connection,
    }
}

// The message that asks it: type 1 or 2 in Setup.
pub fn request_letter(names: Names, q: Request) -> Letter
    ensures { result ≡ request_letter names q }
{
    Letter {
        carrier: Carrier::Setup,
        identifier: names.identifier,
        numberA: names.numberA,
        numberB: names.numberB,
        service: None,
        body: request_body(q.kind, q.service, q.flags),
    }
}
