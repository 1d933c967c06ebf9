// The reader: one message from the front of some bytes, in one pass. It finds the places of the fields first and makes the
// message once, so that no array is handed from function to function.
#![tactic(auto)]

ghost use Rattle.std.specs.Prelude.{◌≡◌, ◌≤◌, ◌+◌, length};
ghost use Rattle.lists.specs.Choice.{pick};
ghost use Rattle.message.specs.Reading.{took, refused as refused_with};
ghost use Rattle.message.specs.Wire.{identified_at, request_tail, elements_tail, message_with, message_at};
ghost use Rattle.reader.specs.Parts.{carrier_at, tail_at, numbers_at, bare_body, has_numbers, tail_of, own_at, head_behind, head_at};
ghost use Rattle.reader.specs.Answers.{numbered_fields, bare_told, whole_read, identifier_copied, bare_message, read_answer};

use message::copied::copy_between;
use message::digits::read_digits;
use message::number::read_field;
use message::refusal::Refusal;
use message::{Body, Carrier, Fault, Kind, Message, has_elements, request_body};

// What every message begins with; its identifier, where it has one, stands at the place.
#[derive(Clone, Copy)]
struct Head {
    at: usize,
    typeNumber: u16,
    carrier: Carrier,
    identified: bool,
}

// The fields of a message with numbers of digits: the places behind numberA and numberB, the service and the body.
#[derive(Clone, Copy)]
struct Numbered {
    behindA: usize,
    behindB: usize,
    service: Option<u64>,
    body: Body,
}

// What follows the two numbers: service and flags of a request, or the service of a body with elements.
#[derive(Clone, Copy)]
enum Tail {
    Request(Kind),
    Elements(Body),
}

// What was read: a message and the place of the first unread byte; or what is wrong, beside a blank message.
#[derive(Clone, Copy)]
pub struct Answer {
    pub verdict: Result<usize, Fault>,
    pub message: Message,
}

// The carrier, and as in every answer of these functions the place of the first unread byte. At first its number is only held to one byte, 0 to 127: one test then both holds it to its range and tells the carrier.
fn carrier_at(s: &[u8], place: usize) -> Result<(Carrier, usize), Fault>
    ensures { result ≡ carrier_at s.now place }
{
    let (n, next) = read_field(s, place, 0, 127)?;
    match n {
        1 => Ok((Carrier::Setup, next)),
        2 => Ok((Carrier::Connect, next)),
        3 => Ok((Carrier::Facility, next)),
        4 => Ok((Carrier::ReleaseComplete, next)),
        5 => Ok((Carrier::Alerting, next)),
        _ => Err(Fault {
            refusal: Refusal::OutOfRange,
            place,
        }),
    }
}

// Service and flags, behind the two numbers.
#[tactic(auto, unfolding(message::specs::Wire::request_tail))]
fn request_tail(
    kind: Kind,
    s: &[u8],
    behindA: usize,
    behindB: usize,
) -> Result<(Numbered, usize), Fault>
    ensures { result ≡ whole_read (request_tail kind s.now behindA behindB) }
{
    let (service, after) = read_field(s, behindB, 0, 16383)?;
    let (v, next) = read_field(s, after, 0, 5)?;
    let flags = v as u8;
    let body = request_body(kind, service, flags);
    let read = Numbered {
        behindA,
        behindB,
        service: None,
        body,
    };
    Ok((read, next))
}

// The service, behind the two numbers.
#[tactic(auto, unfolding(message::specs::Wire::elements_tail))]
fn elements_tail(
    body: Body,
    s: &[u8],
    behindA: usize,
    behindB: usize,
) -> Result<(Numbered, usize), Fault>
    ensures { result ≡ whole_read (elements_tail body s.now behindA behindB) }
{
    let (v, next) = read_field(s, behindB, 0, 16383)?;
    let read = Numbered {
        behindA,
        behindB,
        service: Some(v as u64),
        body,
    };
    Ok((read, next))
}

fn behind_numbers(
    has: Tail,
    s: &[u8],
    behindA: usize,
    behindB: usize,
) -> Result<(Numbered, usize), Fault>
    ensures { result ≡ whole_read (tail_at has s.now behindA behindB) }
{
    match has {
        Tail::Request(kind) => request_tail(kind, s, behindA, behindB),
        Tail::Elements(body) => elements_tail(body, s, behindA, behindB),
    }
}

// numberA and numberB, and what follows them.
#[tactic(auto, unfolding(crate::specs::Parts::numbers_at))]
fn numbers(has: Tail, s: &[u8], at: usize) -> Result<(Numbered, usize), Fault>
    ensures { result ≡ whole_read (numbers_at has s.now at) }
{
    let behindA = read_digits(s, at, 0)?;
    let behindB = read_digits(s, behindA, 1)?;
    behind_numbers(has, s, behindA, behindB)
}

// The body of a type that has no field of its own.
#[tactic(auto, unfolding(crate::specs::Parts::bare_body))]
fn bare_body(typeNumber: u16) -> Body
    ensures { result ≡ bare_body typeNumber }
{
    match typeNumber {
        5 => Body::CcExecPossible,
        6 => Body::CcRingout,
        8 => Body::CcSuspend,
        9 => Body::CcResume,
        10 => Body::CcCancel,
        11 => Body::CallAlerts,
        _ => Body::CallFailed,
    }
}

// Whether two numbers of digits stand behind the identifier: in a request, and where there are elements.
#[tactic(auto, unfolding(crate::specs::Parts::has_numbers))]
fn has_numbers(typeNumber: u16, carrier: Carrier) -> bool
    ensures { result ≡ has_numbers typeNumber carrier }
{
    match typeNumber {
        1 => true,
        2 => true,
        _ => {
            let body = bare_body(typeNumber);
            has_elements(body, carrier)
        }
    }
}

// What follows the two numbers, in a type that has them.
#[tactic(auto, unfolding(crate::specs::Parts::tail_of))]
fn tail_of(typeNumber: u16) -> Tail
    ensures { result ≡ tail_of typeNumber }
{
    match typeNumber {
        1 => Tail::Request(Kind::Ccbs),
        2 => Tail::Request(Kind::Ccnr),
        _ => {
            let body = bare_body(typeNumber);
            Tail::Elements(body)
        }
    }
}

// The one field of a message without numbers, or nothing.
#[tactic(auto, unfolding(crate::specs::Parts::own_at))]
fn own_field(typeNumber: u16, s: &[u8], at: usize) -> Result<(Body, usize), Fault>
    ensures { bare_told at result ≡ own_at typeNumber s.now at }
{
    match typeNumber {
        3 => {
            let (v, next) = read_field(s, at, 0, 1)?;
            Ok((Body::RequestResult { keep: v as u8 }, next))
        }
        4 => {
            let (v, next) = read_field(s, at, 1, 2)?;
            Ok((Body::RequestError { error: v as u8 }, next))
        }
        7 => {
            let (v, next) = read_field(s, at, 1, 2)?;
            Ok((Body::RingoutError { error: v as u8 }, next))
        }
        _ => {
            let body = bare_body(typeNumber);
            Ok((body, at))
        }
    }
}

fn refused(fault: Fault) -> Answer
    ensures { result ≡ read_answer (refused_with fault) }
{
    let blank = [0u8; 16];
    let message = Message {
        carrier: Carrier::Setup,
        identified: false,
        identifier: blank,
        numberA: blank,
        numberB: blank,
        service: None,
        body: Body::CallFailed,
    };
    Answer {
        verdict: Err(fault),
        message,
    }
}

// The length of an identifier: 16, or 0 where there is none. At first it is only held to one byte, as a carrier.
fn identified_at(s: &[u8], place: usize) -> Result<(bool, usize), Fault>
    ensures { result ≡ identified_at s.now place }
{
    let (length, next) = read_field(s, place, 0, 127)?;
    match length {
        16 => Ok((true, next)),
        0 => Ok((false, next)),
        _ => Err(Fault {
            refusal: Refusal::OutOfRange,
            place,
        }),
    }
}

fn copy_identifier(s: &[u8], identified: bool, at: usize) -> [u8; 16]
    requires { at + pick identified 16 0 ≤ length s.now }
    ensures { result ≡ identifier_copied identified s.now at }
{
    if identified && 16 <= s.len() - at {
        return copy_between(s, at, at + 16);
    }
    [0u8; 16]
}

// A message with numbers: they are copied, each in sixteen places.
fn with_numbers(h: Head, s: &[u8], from: usize, read: Numbered, next: usize) -> Answer
    requires identified_in_bounds { h.at + pick h.identified 16 0 ≤ length s.now }
    requires behind_a_bound { (read.behindA ≤ from + 16) × (read.behindB ≤ read.behindA + 16) }
    ensures { result ≡ read_answer (took (message_with h.carrier h.identified (identifier_copied h.identified s.now h.at) s.now from (numbered_fields read)) next) }
{
    let identifier = copy_identifier(s, h.identified, h.at);
    let numberA = copy_between(s, from, read.behindA);
    let numberB = copy_between(s, read.behindA, read.behindB);
    let message = Message {
        carrier: h.carrier,
        identified: h.identified,
        identifier,
        numberA,
        numberB,
        service: read.service,
        body: read.body,
    };
    Answer {
        verdict: Ok(next),
        message,
    }
}

// The head of a message, from the identifier's length on.
#[tactic(auto, unfolding(crate::specs::Parts::head_behind))]
fn head_behind(
    typeNumber: u16,
    carrier: Carrier,
    s: &[u8],
    place: usize,
) -> Result<(Head, usize), Fault>
    ensures { result ≡ head_behind typeNumber carrier s.now place }
{
    let (identified, at) = identified_at(s, place)?;
    let read = Head {
        typeNumber,
        carrier,
        identified,
        at,
    };
    if identified {
        if s.len() - at < 16 {
            let end = s.len();
            return Err(Fault {
                refusal: Refusal::Faulty,
                place: end,
            });
        }
        return Ok((read, at + 16));
    }
    Ok((read, at))
}

// Type, carrier and identifier.
#[tactic(auto, unfolding(crate::specs::Parts::head_at))]
fn read_head(s: &[u8]) -> Result<(Head, usize), Fault>
    ensures { result ≡ head_at s.now }
{
    let (typeNumber, next) = read_field(s, 0, 1, 12)?;
    let (carrier, behind) = carrier_at(s, next)?;
    head_behind(typeNumber, carrier, s, behind)
}

// One message from the front: total on every slice. It is asked first whether there are numbers, so that they are read in one place. Each answer is made and returned here,
// in a place of its own: where two come together before they are returned, both are copied.
pub fn read(s: &[u8]) -> Answer
    ensures { result ≡ read_answer (message_at s.now) }
{
    match read_head(s) {
        Err(fault) => return refused(fault),
        Ok((h, from)) => {
            if has_numbers(h.typeNumber, h.carrier) {
                let has = tail_of(h.typeNumber);
                match numbers(has, s, from) {
                    Err(fault) => return refused(fault),
                    Ok((read, next)) => return with_numbers(h, s, from, read, next),
                }
            }
            match own_field(h.typeNumber, s, from) {
                Err(fault) => return refused(fault),
                Ok((body, next)) => {
                    let identifier = copy_identifier(s, h.identified, h.at);
                    let blank = [0u8; 16];
                    let message = Message {
                        carrier: h.carrier,
                        identified: h.identified,
                        identifier,
                        numberA: blank,
                        numberB: blank,
                        service: None,
                        body,
                    };
                    return Answer {
                        verdict: Ok(next),
                        message,
                    };
                }
            }
        }
    }
}
