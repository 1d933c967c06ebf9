// What both ends of the story have in common: an event is played on the end's desk and shown, and what the desk sends goes onto the wire to the other end.
use crate::requests::identifier_of;
use crate::wire::{Sent, Wire, promised, sent_of};
use desk::steps::Steps;
use ladder::events::{Event, EventKind, Naming, Tag};
use ladder::middle::tag_in;
use ladder::shown::{State, States, show};
use printing::part;
use std::io;
use std::io::Write;
use terms::request::Name;
use told::{TOLD, tell};

// An end's desk, as the ladder asks it.
pub trait Desk: Steps {
    // The state of a request at the desk.
    fn state_of(&self, name: Name) -> State;

    // The first place that is not used.
    fn find_place(&self) -> Option<usize>;
}

// What a host names where it names no place: no desk has so many. The desk takes a place as a number, as C gives it (`terms::request::Name`).
const NO_PLACE: usize = 255;

// The place that the host names with an event: behind all records where it names none.
pub fn place_named(event: Event) -> usize {
    match event.naming {
        Naming::Place(place) => place,
        Naming::NoPlace | Naming::Silent => NO_PLACE,
    }
}

// How the host names the request of an event.
pub fn name_of(event: Event) -> Name {
    Name {
        identifier: identifier_of(event.about),
        place: place_named(event),
    }
}

// The tag of the request that a step is about: the one that the event names; a Look's is the one that it offers, a message's the one that it carries.
fn about_of(event: Event, heard: &[u8], sent: &[u8]) -> Option<Tag> {
    if event.kind < EventKind::Busy {
        return Some(event.about);
    }
    tag_in(if event.kind == EventKind::Look {
        sent
    } else {
        heard
    })
}

// Whether a step ended a record, by the first free place before it and after it.
fn is_ended(before: Option<usize>, after: Option<usize>) -> bool {
    match (before, after) {
        (_, None) => false,
        (None, Some(_)) => true,
        (Some(j), Some(i)) => i < j,
    }
}

// The states of the request that a step is about, before and after it, if it is known which one that is. It is found by its identifier, or by the place that the outcome
// tells, or else by the one that the event names. Where the step ended it, another's record may stand at its place.
fn states_of<D: Desk>(
    before: &D,
    after: &D,
    about: Option<Tag>,
    event: Event,
    at: Option<usize>,
) -> Option<States> {
    let tag = about?;
    let name = Name {
        identifier: identifier_of(tag),
        place: at.unwrap_or(place_named(event)),
    };
    if tag.is_none() && name.place == NO_PLACE {
        return None;
    }
    Some(States {
        before: before.state_of(name),
        after: if is_ended(before.find_place(), after.find_place()) {
            State::NoRecord
        } else {
            after.state_of(name)
        },
        nameless: tag.is_none(),
    })
}

// What came of a step is shown, and what it sends goes onto the wire.
pub fn finish<W: Write>(
    out: &mut W,
    wire: &mut Wire,
    event: Event,
    told: &[u64; TOLD],
    states: Option<States>,
    heard: &[u8],
    sent: &[u8],
) -> io::Result<()> {
    show(out, event, told, states, heard, sent)?;
    wire.send(sent);
    Ok(())
}

// What comes of what the desk is given.
pub fn play_step<W: Write, D: Desk>(
    out: &mut W,
    desk: &mut D,
    wire: &mut Wire,
    event: Event,
    entry: D::Entry,
    heard: &[u8],
    wrong: bool,
) -> io::Result<()> {
    let before = *desk;
    let outcome = desk.step(event.clock, entry);
    let Sent { bytes, length } = promised(wrong, sent_of(outcome.sending));
    let sent = part(&bytes, 0, length);
    let about = about_of(event, heard, sent);
    let states = states_of(&before, desk, about, event, outcome.at);
    let mut told = [0; TOLD];
    tell(&mut told, outcome, length, 0);
    finish(out, wire, event, &told, states, heard, sent)
}
