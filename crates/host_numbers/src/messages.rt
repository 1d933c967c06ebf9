// A message as plain numbers: type, carrier, service, and the one other field of its type.
ghost use Rattle.std.specs.Prelude.{◌≡◌};
ghost use Rattle.host_numbers.specs.Messages.{service_told, service_of, field_of, message_numbers, least, body_given, carrier_given, write_face, message_face};

use message::{Body, Carrier, Message};
use told::refusal_told;
use writer::numbers::{carrier_number, type_number};

// The service that stands beside a body, 0 where it is absent.
fn service_told(service: Option<u64>) -> u64
    ensures { result ≡ service_told service }
{
    service.unwrap_or(0)
}

// The service of a request, and of other types the one beside them.
fn service_of(body: Body, beside: u64) -> u64
    ensures { result ≡ service_of body beside }
{
    match body {
        Body::CcbsRequest { service, .. } | Body::CcnrRequest { service, .. } => u64::from(service),
        _ => beside,
    }
}

// Flags, keep or error, 0 for types without one.
fn field_of(body: Body) -> u64
    ensures { result ≡ field_of body }
{
    match body {
        Body::CcbsRequest { flags, .. } | Body::CcnrRequest { flags, .. } => u64::from(flags),
        Body::RequestResult { keep } => u64::from(keep),
        Body::RequestError { error } | Body::RingoutError { error } => u64::from(error),
        _ => 0,
    }
}

// Type, carrier, service and field.
pub fn message_numbers(carrier: Carrier, service: Option<u64>, body: Body) -> [u64; 4]
    ensures { result ≡ message_numbers carrier service body }
{
    let typed = u64::from(type_number(body));
    let carried = u64::from(carrier_number(carrier));
    let own = service_of(body, service_told(service));
    let field = field_of(body);
    [typed, carried, own, field]
}

// A service; one out of range stays out of range.
#[tactic(auto, unfolding(crate::specs::Messages::least))]
pub fn service_given(number: u64) -> u16
    ensures { result ≡ least 16384 number }
{
    number.min(16384) as u16
}

// Flags, keep or error, none of which is over 5; one out of range stays out of range.
#[tactic(auto, unfolding(crate::specs::Messages::least))]
pub fn field_given(number: u64) -> u8
    ensures { result ≡ least 255 number }
{
    number.min(255) as u8
}

// The body of a type, by its number, where there is such a type.
#[tactic(auto, unfolding(crate::specs::Messages::body_given))]
pub fn body_given(typeNumber: u64, service: u16, field: u8) -> Option<Body>
    ensures { result ≡ body_given typeNumber service field }
{
    let body = match typeNumber {
        1 => Body::CcbsRequest {
            service,
            flags: field,
        },
        2 => Body::CcnrRequest {
            service,
            flags: field,
        },
        3 => Body::RequestResult { keep: field },
        4 => Body::RequestError { error: field },
        5 => Body::CcExecPossible,
        6 => Body::CcRingout,
        7 => Body::RingoutError { error: field },
        8 => Body::CcSuspend,
        9 => Body::CcResume,
        10 => Body::CcCancel,
        11 => Body::CallAlerts,
        12 => Body::CallFailed,
        _ => return None,
    };
    Some(body)
}

// The carrier of a number, where it is one.
#[tactic(auto, unfolding(crate::specs::Messages::carrier_given))]
pub fn carrier_given(number: u64) -> Option<Carrier>
    ensures { result ≡ carrier_given number }
{
    match number {
        1 => Some(Carrier::Setup),
        2 => Some(Carrier::Connect),
        3 => Some(Carrier::Facility),
        4 => Some(Carrier::ReleaseComplete),
        5 => Some(Carrier::Alerting),
        _ => None,
    }
}

// The message at the place, and its length.
#[tactic(auto, unfolding(crate::specs::Messages::message_face))]
pub fn write_message(out: &mut [u8], place: usize, m: Message, written: &mut u64) -> u64
    ensures { write_face out.new written.new result ≡ message_face out.old place m written.old }
{
    match writer::write(out, place, m) {
        Ok(length) => {
            *written = length as u64;
            0
        }
        Err(refusal) => refusal_told(Some(refusal)),
    }
}
