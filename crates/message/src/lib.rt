// The types of the wire, after document 01, "Messages and carriers", and request 1: a message is one of twelve types with its own
// fields, after type, carrier and, where it has one, the identifier.
#![tactic(auto)]

pub mod copied;
pub mod digits;
pub mod number;
pub mod range;
pub mod refusal;

ghost use Rattle.std.specs.Prelude.{◌≡◌};
ghost use Rattle.message.specs.Format.{request_body, in_setup, has_elements};

use crate::refusal::Refusal;

#[derive(Clone, Copy)]
pub enum Carrier {
    Setup,
    Connect,
    Facility,
    ReleaseComplete,
    Alerting,
}

// The kind of a request: CCBS for a busy line, CCNR for no reply.
#[derive(Clone, Copy)]
pub enum Kind {
    Ccbs,
    Ccnr,
}

// One case for each type, in the order of their numbers, with the type's own numbers as its data.
#[derive(Clone, Copy)]
pub enum Body {
    CcbsRequest { flags: u8, service: u16 },
    CcnrRequest { flags: u8, service: u16 },
    RequestResult { keep: u8 },
    RequestError { error: u8 },
    CcExecPossible,
    CcRingout,
    RingoutError { error: u8 },
    CcSuspend,
    CcResume,
    CcCancel,
    CallAlerts,
    CallFailed,
}

// An enum can't hold an array, so the identifier and the two numbers of digits stand beside the body. A number of digits is its length, then its digits; one of no
// digits is absent. What doesn't count is 0, or None, in what the reader makes: the identifier's bytes where the message has none, the places behind a
// number's last digit, the numbers and the service of a type that lacks them. Numbers stand in requests, and with the service in 5, 6, 9 and 10 in Setup.
#[derive(Clone, Copy)]
pub struct Message {
    pub carrier: Carrier,
    pub identified: bool,
    pub identifier: [u8; 16],
    pub numberA: [u8; 16],
    pub numberB: [u8; 16],
    pub service: Option<u64>,
    pub body: Body,
}

// What is wrong with some bytes: document 01's refusal, and the place in the slice that was given. The first byte of a number that is faulty or out of range;
// a digit that is over 9; the length of the slice where the bytes end too early. The place stands first: fields lie in the order of the source, and so no
// number that was read (`Ok`) shares its two bytes with the one of a refusal (`Err`), which would split it.
#[derive(Clone, Copy)]
pub struct Fault {
    pub place: usize,
    pub refusal: Refusal,
}

// The body of a request of a kind.
pub fn request_body(kind: Kind, service: u16, flags: u8) -> Body
    ensures { result ≡ request_body kind service flags }
{
    match kind {
        Kind::Ccbs => Body::CcbsRequest { service, flags },
        Kind::Ccnr => Body::CcnrRequest { service, flags },
    }
}

fn in_setup(carrier: Carrier) -> bool
    ensures { result ≡ in_setup carrier }
{
    match carrier {
        Carrier::Setup => true,
        Carrier::Connect => false,
        Carrier::Facility => false,
        Carrier::ReleaseComplete => false,
        Carrier::Alerting => false,
    }
}

// Whether a message has the elements numberA, numberB and service, by which a record can be found: types 5, 6, 9 and 10 in Setup.
pub fn has_elements(body: Body, carrier: Carrier) -> bool
    ensures { result ≡ has_elements body carrier }
{
    let setup = in_setup(carrier);
    match body {
        Body::CcbsRequest {
            service: _,
            flags: _,
        } => false,
        Body::CcnrRequest {
            service: _,
            flags: _,
        } => false,
        Body::RequestResult { keep: _ } => false,
        Body::RequestError { error: _ } => false,
        Body::CcExecPossible => setup,
        Body::CcRingout => setup,
        Body::RingoutError { error: _ } => false,
        Body::CcSuspend => false,
        Body::CcResume => setup,
        Body::CcCancel => setup,
        Body::CallAlerts => false,
        Body::CallFailed => false,
    }
}
