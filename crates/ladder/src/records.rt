// The event `records`: the records of both desks side by side, in the order of storing.
use crate::cause::{put_placed, put_tag};
use crate::events::Tag;
use crate::row::{print_row, to_left, to_middle, to_right};
use crate::shown::State;
use crate::words::put_state;
use printing::Page;
use std::io;
use std::io::Write;

// What is shown of a record: its tag, its state (`NoRecord` where the place is not used), its keep choice by its code, and whether its connection is down.
#[derive(Clone, Copy)]
pub struct Shown {
    pub tag: Tag,
    pub state: State,
    pub keep: usize,
    pub down: bool,
}

// Whose record a place has: a request without an identifier is told by the place.
fn put_whose(page: &mut Page, i: usize, tag: Tag) {
    if tag.is_none() {
        return put_placed(page, i);
    }
    put_tag(page, tag);
}

// The record of a desk's place. A desk without any says so in the first row.
fn put_record(page: &mut Page, i: usize, shown: Shown) {
    if shown.state == State::NoRecord {
        return page.put_entry(b"no record\n", i);
    }
    put_whose(page, i, shown.tag);
    put_state(page, b" ", shown.state);
    page.put_entry(
        b", keep -
, keep 0
, keep 1
",
        shown.keep,
    );
    if shown.down {
        page.put_text(b", down");
    }
}

// The row of one place of both desks: the first one, and behind it only those that a desk uses.
pub fn show_place<W: Write>(
    out: &mut W,
    i: usize,
    atClerk: Shown,
    atLine: Shown,
) -> io::Result<()> {
    let mut row = to_left(None);
    put_record(&mut row.page, i, atClerk);
    to_middle(&mut row);
    row.page.put_entry(b"              (records)\n", i);
    to_right(&mut row);
    put_record(&mut row.page, i, atLine);
    print_row(out, &row)
}
