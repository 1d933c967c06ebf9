// Whether every field of a message is in range: refusal 2, the same for the writer and for both desks.
ghost use Rattle.std.specs.Prelude.{◌≡◌};
ghost use Rattle.message.specs.Format.{request_in_range, service_in_range, elements_in_range, fields_in_range, in_range};

use crate::digits::digits_in_range;
use crate::{Body, Message, has_elements};

// A request whose fields are all in range. Its numberA may be withheld.
pub fn request_in_range(numberA: [u8; 16], numberB: [u8; 16], service: u16, flags: u8) -> bool
    ensures { result ≡ request_in_range numberA numberB service flags }
{
    if digits_in_range(numberA, 0) {
        if digits_in_range(numberB, 1) {
            if service < 16384 {
                return flags < 6;
            }
            return false;
        }
        return false;
    }
    false
}

fn service_in_range(service: Option<u64>) -> bool
    ensures { result ≡ service_in_range service }
{
    match service {
        None => true,
        Some(n) => n < 16384,
    }
}

// Elements that are all in range. Each may be absent.
pub fn elements_in_range(numberA: [u8; 16], numberB: [u8; 16], service: Option<u64>) -> bool
    ensures { result ≡ elements_in_range numberA numberB service }
{
    if digits_in_range(numberA, 0) {
        if digits_in_range(numberB, 0) {
            return service_in_range(service);
        }
        return false;
    }
    false
}

fn fields_in_range(a: [u8; 16], b: [u8; 16], body: Body) -> bool
    ensures { result ≡ fields_in_range a b body }
{
    match body {
        Body::CcbsRequest { service, flags } => request_in_range(a, b, service, flags),
        Body::CcnrRequest { service, flags } => request_in_range(a, b, service, flags),
        Body::RequestResult { keep } => keep < 2,
        Body::RequestError { error } => if 0 < error { error < 3 } else { false },
        Body::CcExecPossible => true,
        Body::CcRingout => true,
        Body::RingoutError { error } => if 0 < error { error < 3 } else { false },
        Body::CcSuspend => true,
        Body::CcResume => true,
        Body::CcCancel => true,
        Body::CallAlerts => true,
        Body::CallFailed => true,
    }
}

// A message whose fields are all in range.
#[tactic(auto, unfolding(crate::specs::Format::in_range))]
pub fn in_range(m: Message) -> bool
    ensures { result ≡ in_range m }
{
    let carrier = m.carrier;
    let a = m.numberA;
    let b = m.numberB;
    let service = m.service;
    let body = m.body;
    if has_elements(body, carrier) {
        return elements_in_range(a, b, service);
    }
    fields_in_range(a, b, body)
}
