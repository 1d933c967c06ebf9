// A row of the ladder: the clock, the left cell from column 9 on, the bars at 39 and 78, the middle cell between them, a blank and the right cell behind them.
use printing::{Page, blank_page, part};
use std::io;
use std::io::Write;

// A text, as a line.
pub fn print_line<W: Write>(out: &mut W, text: &[u8]) -> io::Result<()> {
    out.write_all(text)?;
    out.write_all(b"\n")
}

// Where the cells begin: the middle one behind its bar, the right one behind its bar and a blank.
const LEFT: usize = 9;

const MIDDLE: usize = 40;

const RIGHT: usize = 80;

// A number below a hundred, in two digits.
fn put_two(page: &mut Page, number: u32) {
    page.put_text(&[b'0' + (number / 10 % 10) as u8, b'0' + (number % 10) as u8]);
}

// A clock in seconds since midnight.
fn put_clock(page: &mut Page, clock: u32) {
    put_two(page, clock / 3600);
    page.put_text(b":");
    put_two(page, clock / 60 % 60);
    page.put_text(b":");
    put_two(page, clock % 60);
}

// A row that is filled from the left, and whether the cells that are behind its place are empty.
#[derive(Clone, Copy)]
pub struct Row {
    pub page: Page,
    empty: bool,
}

// A row at its left cell, with the clock in front of it, if it has one.
pub fn to_left(clock: Option<u32>) -> Row {
    let mut page = blank_page();
    if let Some(seconds) = clock {
        put_clock(&mut page, seconds);
    }
    page.go_to(LEFT);
    Row { page, empty: true }
}

// The row behind its left cell, at the middle one; and behind that, at the right one.
pub fn to_middle(row: &mut Row) {
    row.empty = row.page.at == LEFT;
    row.page.go_to(MIDDLE - 1);
    row.page.put_text(b"|");
}

pub fn to_right(row: &mut Row) {
    row.empty = row.empty && row.page.at == MIDDLE;
    row.page.go_to(RIGHT - 2);
    row.page.put_text(b"| ");
}

// A row at the end of its right cell, if there is something in one of its cells. With an empty right cell it ends with its bar.
pub fn print_row<W: Write>(out: &mut W, row: &Row) -> io::Result<()> {
    if row.page.at != RIGHT {
        return print_line(out, row.page.text());
    }
    if row.empty {
        return Ok(());
    }
    print_line(out, part(row.page.text(), 0, RIGHT - 1))
}

// All rows of three lists of lines, the clock in the first: an event has no more than ten.
pub fn print_rows<W: Write>(
    out: &mut W,
    clock: u32,
    left: &[u8],
    middle: &[u8],
    right: &[u8],
) -> io::Result<()> {
    for entry in 0..10 {
        let mut row = to_left(if entry == 0 { Some(clock) } else { None });
        row.page.put_entry(left, entry);
        to_middle(&mut row);
        row.page.put_entry(middle, entry);
        to_right(&mut row);
        row.page.put_entry(right, entry);
        print_row(out, &row)?;
    }
    Ok(())
}
