// What the clerk's desk is given of the other end.
use clerk::entry::{Entry, message_entry};
use desk::letter::{Letter, message_of};
use message::refusal::Refusal;

// What the line's end sent, as it is put in here. Nothing is no message.
pub fn entry_of(sending: Option<Letter>) -> Entry {
    match sending {
        None => Err(Refusal::Faulty),
        Some(letter) => message_entry(message_of(letter), false, 0),
    }
}
