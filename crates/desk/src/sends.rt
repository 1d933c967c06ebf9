// What a desk sends: a message of a row of its table, or the answer to a message that it refuses or denies.
ghost use Rattle.std.specs.Prelude.{◌≡◌};
ghost use Rattle.desk.specs.Sends.{plain_letter, full_letter, record_letter, sent, replied, answered};

use crate::Connection;
use crate::carriers::sent_in;
use crate::letter::Letter;
use lists::words::Words;
use message::{Body, Carrier, has_elements};

// What a record gives the messages that it sends: its identifier, and in Setup types 5, 6, 9 and 10 have its numbers and its service too.
#[derive(Clone, Copy)]
pub struct Elements {
    pub identifier: Option<Words>,
    pub numberA: Words,
    pub numberB: Words,
    pub service: u64,
}

// A message without numbers of digits and service.
pub fn plain_letter(identifier: Option<Words>, carrier: Carrier, body: Body) -> Letter
    ensures { result ≡ plain_letter identifier carrier body }
{
    let none = Words { low: 0, high: 0 };
    Letter {
        carrier,
        identifier,
        numberA: none,
        numberB: none,
        service: None,
        body,
    }
}

// A message with all that a record gives it.
fn full_letter(elements: Elements, carrier: Carrier, body: Body) -> Letter
    ensures { result ≡ full_letter elements carrier body }
{
    Letter {
        carrier,
        identifier: elements.identifier,
        numberA: elements.numberA,
        numberB: elements.numberB,
        service: Some(elements.service),
        body,
    }
}

// A message of a record, with what its type has in its carrier.
fn record_letter(elements: Elements, carrier: Carrier, body: Body) -> Letter
    ensures { result ≡ record_letter elements carrier body }
{
    if has_elements(body, carrier) {
        return full_letter(elements, carrier, body);
    }
    plain_letter(elements.identifier, carrier, body)
}

// What a row sends for the record that gives these elements and has that connection choice.
pub fn sent_for(sends: Option<Body>, elements: Elements, connection: Connection) -> Option<Letter>
    ensures { result ≡ sent sends elements connection }
{
    let body = sends?;
    let carrier = sent_in(body, connection);
    Some(record_letter(elements, carrier, body))
}

// An answer in Release Complete with the identifier of what it answers, or none: a reply, or the error of a request that is denied.
pub fn reply_with(identifier: Option<Words>, body: Body) -> Option<Letter>
    ensures { result ≡ replied identifier body }
{
    Some(plain_letter(identifier, Carrier::ReleaseComplete, body))
}

// The answer that goes with a refusal, or none.
pub fn answer_with(identifier: Option<Words>, answer: Option<Body>) -> Option<Letter>
    ensures { result ≡ answered identifier answer }
{
    reply_with(identifier, answer?)
}
