// Events at the clerk's end: each is played on the clerk's desk and shown, and what it sends goes onto the wire to the line.
use crate::end;
use crate::end::{name_of, place_named, play_step};
use crate::records::tag_of;
use crate::requests::asking;
use crate::world::World;
use clerk::Desk;
use clerk::entry::{Entry, act_entry, ask_entry, bytes_entry};
use clerk_records::meaning::find_meant;
use clerk_records::places::{find_place, load};
use clerk_table::inputs::{Act, Input};
use clerk_table::table::State;
use ladder::events::{Event, EventKind};
use ladder::shown;
use ladder::shown::{show_silence, show_tick};
use printing::part;
use std::io;
use std::io::Write;
use terms::means::Means;
use terms::request::Name;
use ticks::clerk_tick::clerk_tick;
use told::ticking::TOLD;

// A state as the ladder shows it.
pub fn state_shown(state: State) -> shown::State {
    match state {
        State::Free => shown::State::NoRecord,
        State::WaitAck => shown::State::WaitAck,
        State::Invoked => shown::State::Invoked,
        State::WaitAnswer => shown::State::WaitAnswer,
        State::Ringout => shown::State::Ringout,
        State::Suspended => shown::State::Suspended,
    }
}

impl end::Desk for Desk {
    // That of the record which an act on the request is about.
    fn state_of(&self, name: Name) -> shown::State {
        match find_meant(&self.words, Input::Act(name, Act::Cancel)) {
            Means::At(i) => state_shown(load(&self.words, i).state),
            _ => shown::State::NoRecord,
        }
    }

    fn find_place(&self) -> Option<usize> {
        find_place(&self.words)
    }
}

// User A's ask or act, a connection that fell, or what is heard. User A is never busy in a scene.
fn entry_of(event: Event, preference: u8, heard: &[u8]) -> Entry {
    match event.kind {
        EventKind::Ask => ask_entry(asking(event.about, preference)),
        EventKind::Accept => act_entry(name_of(event), Act::Accept),
        EventKind::Cancel => act_entry(name_of(event), Act::Cancel),
        EventKind::ClerkFell => act_entry(name_of(event), Act::Fell),
        _ => bytes_entry(heard, false, place_named(event)).entry,
    }
}

// A tick. In no scene more than one record expires in it, so that its message is all that is written.
fn ticked<W: Write>(out: &mut W, w: &mut World, event: Event) -> io::Result<()> {
    let before = w.clerk;
    let mut buffer = [0; 64];
    let mut told = [0; TOLD];
    clerk_tick(&mut w.clerk.words, event.clock, &mut buffer, &mut told);
    let r = load(&before.words, told[3] as usize);
    let sent = part(&buffer, 0, told[1] as usize);
    show_tick(
        out,
        event,
        &told,
        tag_of(r.terms.identifier),
        state_shown(r.state),
        sent,
    )?;
    w.toLine.send(sent);
    Ok(())
}

pub fn clerk_event<W: Write>(out: &mut W, w: &mut World, event: Event) -> io::Result<()> {
    if event.kind == EventKind::Tick {
        return ticked(out, w, event);
    }
    let Some(heard) = w.toClerk.hear(event.kind == EventKind::ClerkHears) else {
        return show_silence(out, event);
    };
    let entry = entry_of(event, w.preference, heard);
    play_step(out, &mut w.clerk, &mut w.toLine, event, entry, heard, false)
}
