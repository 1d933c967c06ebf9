// What a host gives as plain numbers, made an entry of the desk: a number that stands for nothing is refused with 2, before anything else is looked at. Acts and
// timers are numbers here, since C's interface and a script (docs/REPLAY.md) give them so: each is matched once, and is an enum of the desk's tables from there on.
ghost use Rattle.std.specs.Prelude.{◌≡◌};
ghost use Rattle.host_numbers.specs.Given.{clerk_act_named, clerk_act_given, timer_named, timer_given, line_act_named, line_act_given, guard_given, report_given, ask_words, asking_of, ask_given, clerk_bytes_given};

use crate::identifiers::{BYTES, bytes_given, is_given, is_identifier, name_given};
use crate::messages::{field_given, service_given};
use clerk::entry::{
    Asking, Entry as ClerkEntry, act_entry as clerk_act_entry, ask_entry,
    bytes_entry as clerk_bytes_entry, timer_entry,
};
use clerk_table::inputs::Act as ClerkAct;
use clerk_table::table::Timer;
use desk::entry::BytesEntry;
use line::entry::{Entry as LineEntry, act_entry as line_act_entry, guard_entry, report_entry};
use line_table::inputs::Act as LineAct;
use message::refusal::Refusal;
use terms::codes::kind_of;
use terms::request::Name;

// An act at the clerk's end, by its number.
#[tactic(auto, unfolding(crate::specs::Given::clerk_act_named))]
fn clerk_act_named(name: Name, number: u64) -> ClerkEntry
    ensures { result ≡ clerk_act_named name number }
{
    match number {
        1 => clerk_act_entry(name, ClerkAct::Accept),
        2 => clerk_act_entry(name, ClerkAct::Resume),
        3 => clerk_act_entry(name, ClerkAct::GoOn),
        4 => clerk_act_entry(name, ClerkAct::Cancel),
        5 => clerk_act_entry(name, ClerkAct::Fell),
        _ => Err(Refusal::OutOfRange),
    }
}

// This one and the three of a timer, of the line's acts and of the guard differ in their entry alone. One function would take the entry as a closure and say its promise by
// `F.post` and by cases: longer than the test that it would save.
#[tactic(auto, unfolding(crate::specs::Given::clerk_act_given))]
pub fn clerk_act_given(identifier: [u8; BYTES], place: u64, number: u64) -> ClerkEntry
    ensures { result ≡ clerk_act_given identifier place number }
{
    if is_identifier(identifier) {
        return clerk_act_named(name_given(identifier, place), number);
    }
    Err(Refusal::OutOfRange)
}

// A timer that ran out at the clerk's end, by its number.
#[tactic(auto, unfolding(crate::specs::Given::timer_named))]
fn timer_named(name: Name, number: u64) -> ClerkEntry
    ensures { result ≡ timer_named name number }
{
    match number {
        1 => timer_entry(name, Timer::T1),
        2 => timer_entry(name, Timer::T2),
        3 => timer_entry(name, Timer::T3),
        _ => Err(Refusal::OutOfRange),
    }
}

#[tactic(auto, unfolding(crate::specs::Given::timer_given))]
pub fn timer_given(identifier: [u8; BYTES], place: u64, number: u64) -> ClerkEntry
    ensures { result ≡ timer_given identifier place number }
{
    if is_identifier(identifier) {
        return timer_named(name_given(identifier, place), number);
    }
    Err(Refusal::OutOfRange)
}

// An act at the line's end, by its number.
#[tactic(auto, unfolding(crate::specs::Given::line_act_named))]
fn line_act_named(name: Name, number: u64) -> LineEntry
    ensures { result ≡ line_act_named name number }
{
    match number {
        1 => line_act_entry(name, LineAct::Alerted),
        2 => line_act_entry(name, LineAct::CallFailed),
        3 => line_act_entry(name, LineAct::Cancel),
        4 => line_act_entry(name, LineAct::Fell),
        _ => Err(Refusal::OutOfRange),
    }
}

#[tactic(auto, unfolding(crate::specs::Given::line_act_given))]
pub fn line_act_given(identifier: [u8; BYTES], place: u64, number: u64) -> LineEntry
    ensures { result ≡ line_act_given identifier place number }
{
    if is_identifier(identifier) {
        return line_act_named(name_given(identifier, place), number);
    }
    Err(Refusal::OutOfRange)
}

// A guard that ran out at the line's end.
#[tactic(auto, unfolding(crate::specs::Given::guard_given))]
pub fn guard_given(identifier: [u8; BYTES], place: u64) -> LineEntry
    ensures { result ≡ guard_given identifier place }
{
    if is_identifier(identifier) {
        return guard_entry(name_given(identifier, place));
    }
    Err(Refusal::OutOfRange)
}

// A line report: 0 free, 1 busy.
#[tactic(auto, unfolding(crate::specs::Given::report_given))]
pub fn report_given(digits: [u8; 16], busy: u64) -> LineEntry
    ensures { result ≡ report_given digits busy }
{
    if busy <= 1 {
        return report_entry(digits, busy == 1);
    }
    Err(Refusal::OutOfRange)
}

// Whether the identifier's length (16 or 0), kind (1 or 2) and can-keep (0 or 1) are words of an ask.
#[tactic(auto, unfolding(crate::specs::Given::ask_words))]
fn ask_words(identifier: [u8; BYTES], kind: u64, canKeep: u64) -> bool
    ensures { result ≡ ask_words identifier kind canKeep }
{
    (kind == 1 || kind == 2) && canKeep <= 1 && is_identifier(identifier)
}

// What is asked for; a service or a preference that is out of range stays out of range.
fn asking(
    identifier: [u8; BYTES],
    kind: u64,
    numberA: [u8; 16],
    numberB: [u8; 16],
    service: u64,
    canKeep: u64,
    preference: u64,
) -> Asking
    ensures { result ≡ asking_of identifier kind numberA numberB service canKeep preference }
{
    Asking {
        identified: is_given(identifier),
        identifier: bytes_given(identifier),
        kind: kind_of(kind),
        numberA,
        numberB,
        service: service_given(service),
        canKeep: canKeep == 1,
        preference: field_given(preference),
    }
}

// An ask.
#[tactic(auto, unfolding(crate::specs::Given::ask_given))]
pub fn ask_given(
    identifier: [u8; BYTES],
    kind: u64,
    numberA: [u8; 16],
    numberB: [u8; 16],
    service: u64,
    canKeep: u64,
    preference: u64,
) -> ClerkEntry
    ensures { result ≡ ask_given identifier kind numberA numberB service canKeep preference }
{
    if ask_words(identifier, kind, canKeep) {
        return ask_entry(asking(
            identifier, kind, numberA, numberB, service, canKeep, preference,
        ));
    }
    Err(Refusal::OutOfRange)
}

// Bytes at the clerk's end, with the host's word on User A, 0 not busy, 1 busy, and the place that it names.
#[tactic(auto, unfolding(crate::specs::Given::clerk_bytes_given))]
pub fn clerk_bytes_given(bytes: &[u8], busy: u64, place: u64) -> BytesEntry<ClerkEntry>
    ensures { result ≡ clerk_bytes_given bytes.now busy place }
{
    if busy <= 1 {
        return clerk_bytes_entry(bytes, busy == 1, place as usize);
    }
    BytesEntry {
        entry: Err(Refusal::OutOfRange),
        next: 0,
        fault: None,
    }
}
