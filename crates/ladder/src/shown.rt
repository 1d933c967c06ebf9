// An event on the ladder: the words of its end from the top down, and beside them the message that arrived and the one that was sent.
use crate::events::{Event, EventKind, Tag};
use crate::middle::{End, put_message, put_name};
use crate::row::print_rows;
use crate::words::{put_tick, put_words};
use printing::{Page, blank_page};
use std::io;
use std::io::Write;
use told::TOLD;
use told::ticking::TOLD as TICK_TOLD;

// The state of a request at a desk, in the order of the ladder's table of states. Await has two, by the suspended mark.
#[derive(Clone, Copy, PartialEq, Eq)]
pub enum State {
    NoRecord,
    WaitAck,
    Invoked,
    WaitAnswer,
    Ringout,
    Suspended,
    Await,
    AwaitSuspended,
    Alert,
}

// The state of an event's request before and after, and whether the request has no identifier.
#[derive(Clone, Copy)]
pub struct States {
    pub before: State,
    pub after: State,
    pub nameless: bool,
}

// The words stand on the left at the clerk's end, on the right at the line's.
fn print_block<W: Write>(
    out: &mut W,
    clock: u32,
    atLine: bool,
    words: &Page,
    middle: &Page,
) -> io::Result<()> {
    if atLine {
        return print_rows(out, clock, b"", middle.text(), words.text());
    }
    print_rows(out, clock, words.text(), middle.text(), b"")
}

// The middle of an event: the message that arrived, then the one that was sent.
fn middle_of(atLine: bool, stray: bool, heard: &[u8], sent: &[u8]) -> Page {
    let mut middle = blank_page();
    put_message(
        &mut middle,
        atLine,
        if atLine { End::AtLine } else { End::AtClerk },
        heard,
    );
    put_message(
        &mut middle,
        atLine,
        if stray { End::Stray } else { End::Sent },
        sent,
    );
    middle
}

// An event, what its end's host is told, the state of its request where it is about one that is known, and the messages.
pub fn show<W: Write>(
    out: &mut W,
    event: Event,
    told: &[u64; TOLD],
    states: Option<States>,
    heard: &[u8],
    sent: &[u8],
) -> io::Result<()> {
    if event.seen {
        print_block(
            out,
            event.clock,
            event.atLine,
            &put_words(event, told, states),
            &middle_of(event.atLine, event.kind == EventKind::Stray, heard, sent),
        )?;
    }
    Ok(())
}

// A tick at the clerk's end: what its host is told, the tag and the state of the record that expired, and its message. In no scene more than one does.
pub fn show_tick<W: Write>(
    out: &mut W,
    event: Event,
    told: &[u64; TICK_TOLD],
    tag: Tag,
    state: State,
    sent: &[u8],
) -> io::Result<()> {
    if event.seen {
        print_block(
            out,
            event.clock,
            false,
            &put_tick(told, tag, state),
            &middle_of(false, false, b"", sent),
        )?;
    }
    Ok(())
}

// An end listens, and nothing comes.
pub fn show_silence<W: Write>(out: &mut W, event: Event) -> io::Result<()> {
    if event.seen {
        let mut middle = blank_page();
        put_name(&mut middle, event.atLine, b"nothing is under way");
        print_block(out, event.clock, event.atLine, &blank_page(), &middle)?;
    }
    Ok(())
}
