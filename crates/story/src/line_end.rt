// Events at the line's end: each is played on the line desk and shown, and what it sends goes onto the wire to the clerk.
use crate::end;
use crate::end::{finish, name_of, place_named, play_step};
use crate::requests::digits_of;
use crate::wire::Wire;
use crate::world::World;
use ladder::events::{Event, EventKind};
use ladder::shown;
use ladder::shown::show_silence;
use line::Desk;
use line::entry::{Entry, act_entry, bytes_entry, look_entry, report_entry};
use line_records::meaning::find_named;
use line_records::places::{find_place, load};
use line_table::inputs::Act;
use line_table::table::State;
use std::io;
use std::io::Write;
use terms::means::Means;
use terms::request::Name;
use told::TOLD;

// A state as the ladder shows it. Await has two, by the suspended mark.
pub fn state_shown(state: State, suspended: bool) -> shown::State {
    match state {
        State::Free => shown::State::NoRecord,
        State::Invoked => shown::State::Invoked,
        State::Await if suspended => shown::State::AwaitSuspended,
        State::Await => shown::State::Await,
        State::Alert => shown::State::Alert,
    }
}

impl end::Desk for Desk {
    fn state_of(&self, name: Name) -> shown::State {
        match find_named(&self.words, name) {
            Means::At(i) => {
                let r = load(&self.words, i);
                state_shown(r.state, r.suspended)
            }
            _ => shown::State::NoRecord,
        }
    }

    fn find_place(&self) -> Option<usize> {
        find_place(&self.words)
    }
}

// An act, a line report, a Look, or what is heard.
fn entry_of(event: Event, heard: &[u8]) -> Entry {
    match event.kind {
        EventKind::Alerted => act_entry(name_of(event), Act::Alerted),
        EventKind::Withdraw => act_entry(name_of(event), Act::Cancel),
        EventKind::LineFell => act_entry(name_of(event), Act::Fell),
        EventKind::Busy => report_entry(digits_of(event.about), true),
        EventKind::Free => report_entry(digits_of(event.about), false),
        EventKind::Look => look_entry(digits_of(event.about)),
        _ => bytes_entry(heard, place_named(event)).entry,
    }
}

pub fn line_event<W: Write>(out: &mut W, w: &mut World, event: Event) -> io::Result<()> {
    let Some(heard) = w.toLine.hear(event.kind == EventKind::LineHears) else {
        return show_silence(out, event);
    };
    let entry = entry_of(event, heard);
    play_step(
        out,
        &mut w.line,
        &mut w.toClerk,
        event,
        entry,
        heard,
        w.wrong,
    )
}

// A message that no desk sent goes onto the wire to the clerk: a result with keep 1 in Connect; without an identifier a ccCancel in Release Complete.
pub fn stray<W: Write>(out: &mut W, wire: &mut Wire, event: Event) -> io::Result<()> {
    let told = [0; TOLD];
    match event.about {
        None => finish(out, wire, event, &told, None, b"", &[10, 4, 0]),
        Some(number) => {
            let mut result = [number; 20];
            result[0] = 3;
            result[1] = 2;
            result[2] = 16;
            result[19] = 1;
            finish(out, wire, event, &told, None, b"", &result)
        }
    }
}
