// The entry of the clerk's desk: an ask, a message, bytes and raw arrays become an input here and nowhere else, or are refused with 1 or 2. An inner room of the clerk's
// desk: its functions are no public operations.
ghost use Rattle.std.specs.Prelude.{◌≡◌, ◌<◌};
ghost use Rattle.clerk.specs.Entry.{ask_flags, ask_request, request_message, ask_entry, message_entry, act_entry, timer_entry, bytes_entry};

use clerk_table::inputs::{Act, Input};
use clerk_table::table::Timer;
use desk::entry::BytesEntry;
use desk::letter::{letter_of, read_letter};
use message::range::in_range;
use message::refusal::Refusal;
use message::{Carrier, Kind, Message, request_body};
use terms::request::{Name, Request, letter_names};

// What User A asks for: the data of the failed call, its identifier where there is one, whether it can keep, and its preference (0 none, 1 retain, 2 release).
#[derive(Clone, Copy)]
pub struct Asking {
    pub identified: bool,
    pub identifier: [u8; 16],
    pub kind: Kind,
    pub numberA: [u8; 16],
    pub numberB: [u8; 16],
    pub service: u16,
    pub canKeep: bool,
    pub preference: u8,
}

// What came in: an input, or its refusal before the desk is asked.
pub type Entry = Result<Input, Refusal>;

// can-keep plus 2 × preference.
fn ask_flags(canKeep: bool, preference: u8) -> u8
    requires { preference < 3 }
    ensures { result ≡ ask_flags canKeep preference }
{
    if canKeep {
        return 1 + 2 * preference;
    }
    2 * preference
}

fn ask_request(a: Asking) -> Request
    requires { a.preference < 3 }
    ensures { result ≡ ask_request a }
{
    let kind = a.kind;
    Request {
        kind,
        service: a.service,
        flags: ask_flags(a.canKeep, a.preference),
    }
}

// Type 1 or 2 in Setup.
fn request_message(a: Asking, q: Request) -> Message
    ensures { result ≡ request_message a q }
{
    let identifier = a.identifier;
    let numberA = a.numberA;
    let numberB = a.numberB;
    let kind = q.kind;
    let body = request_body(kind, q.service, q.flags);
    Message {
        carrier: Carrier::Setup,
        identified: a.identified,
        identifier,
        numberA,
        numberB,
        service: None,
        body,
    }
}

// An ask: 2 (digits, service, preference).
#[tactic(auto, unfolding(crate::specs::Entry::ask_entry))]
pub fn ask_entry(a: Asking) -> Entry
    ensures { result ≡ ask_entry a }
{
    if a.preference < 3 {
        let q = ask_request(a);
        let m = request_message(a, q);
        if in_range(m) {
            let l = letter_of(m);
            return Ok(Input::Ask(letter_names(l), q));
        }
        return Err(Refusal::OutOfRange);
    }
    Err(Refusal::OutOfRange)
}

// A message received, with the host's word on User A and the place that the host names for it: 2.
#[tactic(auto, unfolding(crate::specs::Entry::message_entry))]
pub fn message_entry(m: Message, busy: bool, place: usize) -> Entry
    ensures { result ≡ message_entry m busy place }
{
    if in_range(m) {
        return Ok(Input::Message(letter_of(m), busy, place));
    }
    Err(Refusal::OutOfRange)
}

// User A's act: accept, resume, go on to recall, cancel; or that the connection fell.
pub fn act_entry(name: Name, act: Act) -> Entry
    ensures { result ≡ act_entry name act }
{
    Ok(Input::Act(name, act))
}

// A timer that ran out at the host.
pub fn timer_entry(name: Name, timer: Timer) -> Entry
    ensures { result ≡ timer_entry name timer }
{
    Ok(Input::Timer(name, timer))
}

// Raw bytes received: the reader's 1 and 2. What was read is in range and its own normal form, so neither is tested or made again.
#[tactic(auto, using(message::proofs::RangeLaws::writable_parts), unfolding(crate::specs::Entry::bytes_entry, crate::specs::Entry::message_entry))]
pub fn bytes_entry(s: &[u8], busy: bool, place: usize) -> BytesEntry<Entry>
    ensures { result ≡ bytes_entry s.now busy place }
{
    let answer = reader::read(s);
    let verdict = answer.verdict;
    match verdict {
        Err(fault) => BytesEntry {
            entry: Err(fault.refusal),
            next: 0,
            fault: Some(fault.place),
        },
        Ok(next) => {
            let m = answer.message;
            let l = read_letter(m);
            BytesEntry {
                entry: Ok(Input::Message(l, busy, place)),
                next,
                fault: None,
            }
        }
    }
}
