// What the line desk is given of the other end.
use desk::letter::{Letter, message_of};
use line::entry::{Entry, message_entry};
use message::refusal::Refusal;

// What the clerk's end sent, as it is put in here. Nothing is no message.
pub fn entry_of(sending: Option<Letter>) -> Entry {
    match sending {
        None => Err(Refusal::Faulty),
        Some(letter) => message_entry(message_of(letter), 0),
    }
}
