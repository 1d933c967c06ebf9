// The event `records`: what both desks hold at each place.
use crate::world::World;
use crate::{clerk_end, line_end};
use ladder::events::Tag;
use ladder::records::{Shown, show_place};
use ladder::shown::State;
use lists::words::Words;
use std::io;
use std::io::Write;
use terms::Terms;
use terms::codes::keep_code;

// The tag of an identifier.
pub fn tag_of(identifier: Option<Words>) -> Tag {
    identifier.map(|words| <[u8; 16]>::from(words)[0])
}

// A record by its terms, its state and its mark.
fn shown(agreed: Terms, state: State, down: bool) -> Shown {
    Shown {
        tag: tag_of(agreed.identifier),
        state,
        keep: keep_code(agreed.keep) as usize,
        down,
    }
}

fn at_clerk(d: &clerk::Desk, i: usize) -> Shown {
    let r = clerk_records::places::load(&d.words, i);
    shown(r.terms, clerk_end::state_shown(r.state), r.down)
}

fn at_line(d: &line::Desk, i: usize) -> Shown {
    let r = line_records::places::load(&d.words, i);
    shown(r.terms, line_end::state_shown(r.state, r.suspended), r.down)
}

pub fn show_records<W: Write>(out: &mut W, w: &World) -> io::Result<()> {
    for i in 0..32 {
        show_place(out, i, at_clerk(&w.clerk, i), at_line(&w.line, i))?;
    }
    Ok(())
}
