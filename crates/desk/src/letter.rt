// A message in flight: identifier and numbers of digits as pairs of words, so that an enum may hold it and one compare tells two apart.
ghost use Rattle.std.specs.Prelude.{◌≡◌};
ghost use Rattle.desk.specs.Letter.{identifier_of, identifier_words, same_identifier, number_words, letter_of, read_letter, message_of};

use lists::words::Words;
use message::digits::normal_number;
use message::{Body, Carrier, Message};

// The identifier stands first, as it does in every input that names one: so it is found at one place of an input, whichever it is.
#[derive(Clone, Copy)]
pub struct Letter {
    pub identifier: Option<Words>,
    pub numberA: Words,
    pub numberB: Words,
    pub service: Option<u64>,
    pub body: Body,
    pub carrier: Carrier,
}

// An identifier's bytes, where there is one.
#[tactic(auto, unfolding(crate::specs::Letter::identifier_of))]
pub fn identifier_of(identified: bool, bytes: [u8; 16]) -> Option<Words>
    ensures { result ≡ identifier_of identified bytes }
{
    if identified {
        Some(Words::from(bytes))
    } else {
        None
    }
}

// Its words, 0 where there is none.
pub fn identifier_words(identifier: Option<Words>) -> Words
    ensures { result ≡ identifier_words identifier }
{
    identifier.unwrap_or(Words { low: 0, high: 0 })
}

// Whether two are there and are the same.
#[tactic(auto, unfolding(lists::specs::Words::same_words))]
pub fn same_identifier(a: Option<Words>, b: Option<Words>) -> bool
    ensures { result ≡ same_identifier a b }
{
    match (a, b) {
        (Some(own), Some(other)) => own == other,
        _ => false,
    }
}

// A number of digits in its normal form, as words.
#[tactic(auto, unfolding(crate::specs::Letter::number_words))]
pub fn number_words(number: [u8; 16]) -> Words
    ensures { result ≡ number_words number }
{
    Words::from(normal_number(number))
}

// The letter of a message that was read: it is its own normal form, so its numbers are taken as they stand.
#[tactic(auto, unfolding(crate::specs::Letter::read_letter))]
pub fn read_letter(m: Message) -> Letter
    ensures { result ≡ read_letter m }
{
    Letter {
        carrier: m.carrier,
        identifier: identifier_of(m.identified, m.identifier),
        numberA: Words::from(m.numberA),
        numberB: Words::from(m.numberB),
        service: m.service,
        body: m.body,
    }
}

// The letter of a message: its numbers in their normal form.
#[tactic(auto, unfolding(crate::specs::Letter::letter_of, crate::specs::Letter::read_letter))]
pub fn letter_of(m: Message) -> Letter
    ensures { result ≡ letter_of m }
{
    Letter {
        numberA: number_words(m.numberA),
        numberB: number_words(m.numberB),
        ..read_letter(m)
    }
}

// The message of a letter.
#[tactic(auto, unfolding(crate::specs::Letter::message_of))]
pub fn message_of(l: Letter) -> Message
    ensures { result ≡ message_of l }
{
    Message {
        carrier: l.carrier,
        identified: l.identifier.is_some(),
        identifier: <[u8; 16]>::from(identifier_words(l.identifier)),
        numberA: <[u8; 16]>::from(l.numberA),
        numberB: <[u8; 16]>::from(l.numberB),
        service: l.service,
        body: l.body,
    }
}
