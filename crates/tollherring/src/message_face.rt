// Messages as such, for hosts that log or test them: read from bytes into plain numbers, and written from these at a place of a buffer. A message is its
// identifier, a length and sixteen bytes, two numbers of digits, sixteen bytes each, and four plain numbers: type, carrier, service, and the one other field of its type.
ghost use Rattle.std.specs.Prelude.{◌≡◌};
ghost use Rattle.host_numbers.specs.Messages.{write_face};
ghost use Rattle.tollherring.specs.Messages.{read_face, message_read, numbers_faced, message_faced};

use host_numbers::identifiers::{BYTES, bytes_given, identifier_told, is_given, is_identifier};
use host_numbers::messages::{
    body_given, carrier_given, field_given, message_numbers, service_given, write_message,
};
use message::Message;
use told::refusal_told;

// One message from the front of some bytes, and how many it takes: 1, 2, and then the place of the fault is written and nothing else.
#[tactic(auto, unfolding(crate::specs::Messages::message_read))]
pub fn tollherring_message_read(
    bytes: &[u8],
    identifier: &mut [u8; BYTES],
    numberA: &mut [u8; 16],
    numberB: &mut [u8; 16],
    numbers: &mut [u64; 4],
    taken: &mut u64,
    place: &mut u64,
) -> u64
    ensures { read_face identifier.new numberA.new numberB.new numbers.new taken.new place.new result ≡ message_read bytes.now (read_face identifier.old numberA.old numberB.old numbers.old taken.old) place.old }
{
    let answer = reader::read(bytes);
    let verdict = answer.verdict;
    match verdict {
        Err(fault) => {
            *place = fault.place as u64;
            refusal_told(Some(fault.refusal))
        }
        Ok(next) => {
            let m = answer.message;
            let i = m.identifier;
            let a = m.numberA;
            let b = m.numberB;
            let carrier = m.carrier;
            let service = m.service;
            let body = m.body;
            *identifier = identifier_told(m.identified, i);
            *numberA = a;
            *numberB = b;
            *numbers = message_numbers(carrier, service, body);
            *taken = next as u64;
            0
        }
    }
}

// A message whose identifier has a length that there is.
#[tactic(auto, unfolding(crate::specs::Messages::numbers_faced))]
fn write_numbers(
    identifier: [u8; BYTES],
    numberA: [u8; 16],
    numberB: [u8; 16],
    numbers: [u64; 4],
    out: &mut [u8],
    place: usize,
    written: &mut u64,
) -> u64
    ensures { write_face out.new written.new result ≡ numbers_faced identifier numberA numberB numbers out.old place written.old }
{
    let service = service_given(numbers[2]);
    let field = field_given(numbers[3]);
    let Some(body) = body_given(numbers[0], service, field) else {
        return 2;
    };
    let Some(carrier) = carrier_given(numbers[1]) else {
        return 2;
    };
    let m = Message {
        carrier,
        identified: is_given(identifier),
        identifier: bytes_given(identifier),
        numberA,
        numberB,
        service: Some(numbers[2]),
        body,
    };
    write_message(out, place, m, written)
}

// A message at a place of a buffer, and how many bytes it takes: 2, 12, and then nothing is written.
#[tactic(auto, unfolding(crate::specs::Messages::message_faced))]
pub fn tollherring_message_write(
    identifier: &[u8; BYTES],
    numberA: &[u8; 16],
    numberB: &[u8; 16],
    numbers: &[u64; 4],
    out: &mut [u8],
    place: usize,
    written: &mut u64,
) -> u64
    ensures { write_face out.new written.new result ≡ message_faced identifier.now numberA.now numberB.now numbers.now out.old place written.old }
{
    if is_identifier(*identifier) {
        return write_numbers(
            *identifier,
            *numberA,
            *numberB,
            *numbers,
            out,
            place,
            written,
        );
    }
    2
}
