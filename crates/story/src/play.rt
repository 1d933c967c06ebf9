// A scene: its script, played on a world of its own, event by event.
use crate::clerk_end::clerk_event;
use crate::line_end::{line_event, stray};
use crate::records::show_records;
use crate::script::event_at;
use crate::world::{SIX, World, start_world};
use ladder::events::{Event, EventKind};
use ladder::narration::{close_scene, open_scene, say};
use std::io;
use std::io::Write;

// What an end does or hears, or a message that no desk sent, a second after the event before.
fn play_later<W: Write>(out: &mut W, w: &mut World, event: Event) -> io::Result<()> {
    w.clock = w.clock % 86400 + 1;
    let timed = Event {
        clock: w.clock,
        ..event
    };
    if event.kind == EventKind::Stray {
        return stray(out, &mut w.toClerk, timed);
    }
    if event.atLine {
        return line_event(out, w, timed);
    }
    clerk_event(out, w, timed)
}

// One event.
fn play_event<W: Write>(out: &mut W, w: &mut World, event: Event) -> io::Result<()> {
    let number = event.about.unwrap_or(0);
    match event.kind {
        EventKind::Nothing => Ok(()),
        EventKind::Until => {
            w.clock = SIX + 60 * u32::from(number);
            Ok(())
        }
        EventKind::Records => show_records(out, w),
        EventKind::Say => say(out, usize::from(number)),
        _ => play_later(out, w, event),
    }
}

// Behind the script's last line nothing happens.
pub fn play_scene<W: Write>(out: &mut W, scene: u8) -> io::Result<()> {
    open_scene(out, scene)?;
    let mut w = start_world(scene);
    for step in 0..140 {
        play_event(out, &mut w, event_at(scene, step))?;
    }
    close_scene(out, scene)
}
