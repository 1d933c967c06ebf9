// The writer: a message as bytes at a place that the caller names. Range (2) and room (12) are tested once, on top; the part
// of the caller's buffer from that place is then lent on from field writer to field writer.
#![tactic(auto)]

pub mod numbers;

ghost use Rattle.std.specs.Prelude.{◌≡◌, true, ◌++◌, ◌+◌, ◌<◌, ◌≤◌, length, get_or, take, drop, ltb};
ghost use Rattle.lists.specs.Choice.{pick};
ghost use Rattle.lists.specs.Parts.{over};
ghost use Rattle.message.specs.Number.{number_bytes, digits_bytes};
ghost use Rattle.message.specs.Format.{request_in_range, error_in_range, fields_in_range, elements_in_range, elements_complete, writable, identifier_bytes, request_bytes, element_bytes, field_bytes, fields_of, message_bytes};
ghost use Rattle.writer.specs.Write.{bytes_sized, elements_writable, number_written, number_buffer, message_written, message_buffer};

use crate::numbers::{carrier_number, type_number};
use message::range::{elements_in_range, request_in_range};
use message::refusal::Refusal;
use message::{Body, Message, has_elements};

// The first bytes of a run, at the front of a buffer that has room for them.
fn put_bytes(d: &mut [u8], bytes: &[u8], count: usize)
    requires { (count ≤ length bytes.now) × (count ≤ length d.old) }
    ensures { d.new ≡ take count bytes.now ++ drop count d.old }
{
    let mut i = 0;
    while i < count {
        d[i] = bytes[i];
        i += 1;
    }
}

// A number at the front of a buffer that has room for it; its length.
fn put_number(d: &mut [u8], v: u16) -> usize
    requires { (v < 16384) × (length (number_bytes v) ≤ length d.old) }
    ensures { (result ≡ length (number_bytes v)) × (d.new ≡ over (number_bytes v) d.old) }
{
    if v < 128 {
        d[0] = (v % 128) as u8;
        return 1;
    }
    d[0] = (v % 128 + 128) as u8;
    d[1] = (v / 128 % 128) as u8;
    2
}

// How many bytes a number takes.
fn number_size(v: u16) -> usize
    ensures { result ≡ length (number_bytes v) }
{
    if v < 128 {
        return 1;
    }
    2
}

// A number in groups of seven bits, at the front of a buffer: how many bytes were written, or a refusal.
#[tactic(auto, unfolding(crate::specs::Write::number_written, crate::specs::Write::number_buffer))]
pub fn write_number(d: &mut [u8], v: u16) -> Result<usize, Refusal>
    ensures { (result ≡ number_written d.old v) × (d.new ≡ number_buffer d.old v) }
{
    if v < 16384 {
        if d.len() < number_size(v) {
            return Err(Refusal::NoRoom);
        }
        let size = put_number(d, v);
        return Ok(size);
    }
    Err(Refusal::OutOfRange)
}

// A number of digits at the front of a buffer that has room for it; its length.
fn put_digits(d: &mut [u8], number: [u8; 16]) -> usize
    requires { (get_or number 0 0 ≤ 15) × (get_or number 0 0 + 1 ≤ length d.old) }
    ensures { (result ≡ get_or number 0 0 + 1) × (d.new ≡ over (digits_bytes number) d.old) }
{
    let count = number[0] as usize + 1;
    put_bytes(d, &number, count);
    count
}

// Two numbers of digits and a service at the front of a buffer that has room for them; their length.
#[tactic(auto, using(lists::proofs::Parts::tail_of_lem))]
fn put_numbers(d: &mut [u8], a: [u8; 16], b: [u8; 16], service: u16) -> usize
    requires { ((get_or a 0 0 ≤ 15) × ((get_or b 0 0 ≤ 15) × (service < 16384))) × (length (element_bytes a b (Some service)) ≤ length d.old) }
    ensures { (result ≡ length (element_bytes a b (Some service))) × (d.new ≡ over (element_bytes a b (Some service)) d.old) }
{
    let behindA = put_digits(d, a);
    let behindB = behindA + put_digits(&mut d[behindA..], b);
    behindB + put_number(&mut d[behindB..], service)
}

// The fields of a request at the front of a buffer that has room for them.
fn put_request(d: &mut [u8], a: [u8; 16], b: [u8; 16], service: u16, flags: u8)
    requires { (request_in_range a b service flags ≡ true) × (length (request_bytes a b service flags) ≤ length d.old) }
    ensures { d.new ≡ over (request_bytes a b service flags) d.old }
{
    let behind = put_numbers(d, a, b, service);
    d[behind] = flags;
}

// Elements at the front of a buffer that has room for them.
fn put_elements(d: &mut [u8], a: [u8; 16], b: [u8; 16], service: Option<u64>)
    requires { ((elements_in_range a b service ≡ true) × (elements_complete b service ≡ true)) × (length (element_bytes a b service) ≤ length d.old) }
    ensures { d.new ≡ over (element_bytes a b service) d.old }
{
    match service {
        None => {}
        Some(n) => {
            put_numbers(d, a, b, n as u16);
        }
    }
}

// The fields of a body at the front of a buffer that has room for them.
#[tactic(auto, using(message::proofs::RangeLaws::small_bytes))]
fn put_fields(d: &mut [u8], a: [u8; 16], b: [u8; 16], body: Body)
    requires { (fields_in_range a b body ≡ true) × (length (field_bytes a b body) ≤ length d.old) }
    ensures { d.new ≡ over (field_bytes a b body) d.old }
{
    match body {
        Body::CcbsRequest { service, flags } => {
            put_request(d, a, b, service, flags);
        }
        Body::CcnrRequest { service, flags } => {
            put_request(d, a, b, service, flags);
        }
        Body::RequestResult { keep } => {
            d[0] = keep;
        }
        Body::RequestError { error } => {
            d[0] = error;
        }
        Body::CcExecPossible => {}
        Body::CcRingout => {}
        Body::RingoutError { error } => {
            d[0] = error;
        }
        Body::CcSuspend => {}
        Body::CcResume => {}
        Body::CcCancel => {}
        Body::CallAlerts => {}
        Body::CallFailed => {}
    }
}

// What stands behind the identifier: elements, or the fields of the body.
fn put_behind(d: &mut [u8], m: Message)
    requires { (writable m ≡ true) × (length (fields_of m) ≤ length d.old) }
    ensures { d.new ≡ over (fields_of m) d.old }
{
    let carrier = m.carrier;
    let a = m.numberA;
    let b = m.numberB;
    let service = m.service;
    let body = m.body;
    if has_elements(body, carrier) {
        put_elements(d, a, b, service);
    } else {
        put_fields(d, a, b, body);
    }
}

// The identifier behind its length, at the front of a buffer that has room for them; how many bytes they take.
#[tactic(auto, using(lists::proofs::Parts::tail_of_lem))]
fn put_identifier(d: &mut [u8], identified: bool, identifier: [u8; 16]) -> usize
    requires { length (identifier_bytes identified identifier) ≤ length d.old }
    ensures { (result ≡ pick identified 17 1) × (d.new ≡ over (identifier_bytes identified identifier) d.old) }
{
    if identified {
        d[0] = 16;
        put_bytes(&mut d[1..], &identifier, 16);
        return 17;
    }
    d[0] = 0;
    1
}

// A message that can be written, at the front of a buffer that has room for it.
#[tactic(auto, using(lists::proofs::Parts::tail_of_lem))]
fn put_message(d: &mut [u8], m: Message)
    requires { (writable m ≡ true) × (length (message_bytes m) ≤ length d.old) }
    ensures { d.new ≡ over (message_bytes m) d.old }
{
    let carrier = m.carrier;
    let identified = m.identified;
    let identifier = m.identifier;
    let body = m.body;
    d[0] = type_number(body);
    d[1] = carrier_number(carrier);
    let behind = 2 + put_identifier(&mut d[2..], identified, identifier);
    put_behind(&mut d[behind..], m);
}

// How many bytes two numbers of digits and a service take.
fn numbers_size(a: [u8; 16], b: [u8; 16], service: u16) -> usize
    requires { (get_or a 0 0 ≤ 15) × (get_or b 0 0 ≤ 15) }
    ensures { result ≡ length (element_bytes a b (Some service)) }
{
    let digits = a[0] as usize + b[0] as usize;
    digits + number_size(service) + 2
}

// How many bytes the fields of a request take; None where they can't be written. Range and size are found together, so that a message is taken apart once for both.
fn request_sized(a: [u8; 16], b: [u8; 16], service: u16, flags: u8) -> Option<usize>
    ensures { result ≡ bytes_sized (request_in_range a b service flags) (request_bytes a b service flags) }
{
    if request_in_range(a, b, service, flags) {
        let size = numbers_size(a, b, service) + 1;
        return Some(size);
    }
    None
}

// How many bytes elements take. The bytes can't say that numberB or the service is absent.
fn elements_sized(a: [u8; 16], b: [u8; 16], service: Option<u64>) -> Option<usize>
    ensures { result ≡ bytes_sized (elements_writable a b service) (element_bytes a b service) }
{
    if elements_in_range(a, b, service) && 0 < b[0] {
        let n = service?;
        return Some(numbers_size(a, b, n as u16));
    }
    None
}

// How many bytes a keep takes.
fn keep_sized(keep: u8) -> Option<usize>
    ensures { result ≡ bytes_sized (ltb keep 2) (number_bytes keep) }
{
    if keep < 2 {
        return Some(1);
    }
    None
}

// How many bytes an error takes.
fn error_sized(error: u8) -> Option<usize>
    ensures { result ≡ bytes_sized (error_in_range error) (number_bytes error) }
{
    if 0 < error && error < 3 {
        return Some(1);
    }
    None
}

// How many bytes the fields of a body take.
fn fields_sized(a: [u8; 16], b: [u8; 16], body: Body) -> Option<usize>
    ensures { result ≡ bytes_sized (fields_in_range a b body) (field_bytes a b body) }
{
    match body {
        Body::CcbsRequest { service, flags } => request_sized(a, b, service, flags),
        Body::CcnrRequest { service, flags } => request_sized(a, b, service, flags),
        Body::RequestResult { keep } => keep_sized(keep),
        Body::RequestError { error } => error_sized(error),
        Body::CcExecPossible => Some(0),
        Body::CcRingout => Some(0),
        Body::RingoutError { error } => error_sized(error),
        Body::CcSuspend => Some(0),
        Body::CcResume => Some(0),
        Body::CcCancel => Some(0),
        Body::CallAlerts => Some(0),
        Body::CallFailed => Some(0),
    }
}

// How many bytes stand behind the identifier.
#[tactic(auto, unfolding(message::specs::Format::writable, message::specs::Format::in_range, message::specs::Format::complete))]
fn behind_sized(m: Message) -> Option<usize>
    ensures { result ≡ bytes_sized (writable m) (fields_of m) }
{
    let carrier = m.carrier;
    let a = m.numberA;
    let b = m.numberB;
    let service = m.service;
    let body = m.body;
    if has_elements(body, carrier) {
        return elements_sized(a, b, service);
    }
    fields_sized(a, b, body)
}

// How many bytes type, carrier and identifier take.
fn head_size(identified: bool) -> usize
    ensures { result ≡ 2 + pick identified 17 1 }
{
    if identified {
        return 19;
    }
    3
}

// A message at a place of a longer buffer: its length, or refusal 2 or 12. Every other byte stays.
#[tactic(auto, using(lists::proofs::Parts::tail_of_lem, lists::proofs::Parts::mid_tail), unfolding(crate::specs::Write::message_written, crate::specs::Write::message_buffer))]
pub fn write(d: &mut [u8], place: usize, m: Message) -> Result<usize, Refusal>
    ensures { (result ≡ message_written d.old place m) × (d.new ≡ message_buffer d.old place m) }
{
    let behind = behind_sized(m).ok_or(Refusal::OutOfRange)?;
    if d.len() < place {
        return Err(Refusal::NoRoom);
    }
    let identified = m.identified;
    let size = head_size(identified) + behind;
    if d.len() - place < size {
        return Err(Refusal::NoRoom);
    }
    put_message(&mut d[place..], m);
    Ok(size)
}
