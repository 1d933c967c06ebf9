// The entry of the line desk: a message, bytes and raw arrays become an input here and nowhere else, or are refused with 1, 2 or 10. An inner room of the line desk:
// its functions are no public operations.
ghost use Rattle.std.specs.Prelude.{◌≡◌};
ghost use Rattle.line.specs.Entry.{message_entry, act_entry, guard_entry, report_entry, look_entry, bytes_entry};

use desk::entry::BytesEntry;
use desk::letter::{letter_of, number_words, read_letter};
use line_table::inputs::{Act, Input};
use message::Message;
use message::digits::digits_in_range;
use message::range::in_range;
use message::refusal::Refusal;
use terms::request::Name;

// What came in: an input, or its refusal before the desk is asked.
pub type Entry = Result<Input, Refusal>;

// A message, with the place that the host names for it: 2.
#[tactic(auto, unfolding(crate::specs::Entry::message_entry))]
pub fn message_entry(m: Message, place: usize) -> Entry
    ensures { result ≡ message_entry m place }
{
    if in_range(m) {
        let l = letter_of(m);
        return Ok(Input::Message(l, place));
    }
    Err(Refusal::OutOfRange)
}

// An act at the line's end: alerted, call failed, cancel, the connection fell.
pub fn act_entry(name: Name, act: Act) -> Entry
    ensures { result ≡ act_entry name act }
{
    Ok(Input::Act(name, act))
}

// A guard that ran out at the host.
pub fn guard_entry(name: Name) -> Entry
    ensures { result ≡ guard_entry name }
{
    Ok(Input::Guard(name))
}

// A line report, busy or free, by the line's digits: 10.
#[tactic(auto, unfolding(crate::specs::Entry::report_entry))]
pub fn report_entry(digits: [u8; 16], busy: bool) -> Entry
    ensures { result ≡ report_entry digits busy }
{
    if digits_in_range(digits, 1) {
        let number = number_words(digits);
        return Ok(Input::Report(number, busy));
    }
    Err(Refusal::NoLine)
}

// A Look at a line, by its digits: 10.
#[tactic(auto, unfolding(crate::specs::Entry::look_entry))]
pub fn look_entry(digits: [u8; 16]) -> Entry
    ensures { result ≡ look_entry digits }
{
    if digits_in_range(digits, 1) {
        let number = number_words(digits);
        return Ok(Input::Look(number));
    }
    Err(Refusal::NoLine)
}

// Raw bytes, with the place that the host names for the message: the reader's 1 and 2. What was read is in range and its own normal form, so it is neither tested nor normalised again.
#[tactic(auto, unfolding(crate::specs::Entry::bytes_entry))]
pub fn bytes_entry(s: &[u8], place: usize) -> BytesEntry<Entry>
    ensures { result ≡ bytes_entry s.now place }
{
    let answer = reader::read(s);
    let verdict = answer.verdict;
    match verdict {
        Err(fault) => BytesEntry {
            entry: Err(fault.refusal),
            next: 0,
            fault: Some(fault.place),
        },
        Ok(next) => {
            let m = answer.message;
            let l = read_letter(m);
            BytesEntry {
                entry: Ok(Input::Message(l, place)),
                next,
                fault: None,
            }
        }
    }
}
