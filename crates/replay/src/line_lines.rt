// Code 65: the line desk, a line with the numbers of its lines and records, and then a line for each.
use crate::output::Fields;
use crate::record_lines::{connection_number, keep_number, put_deadline, put_terms};
use host_numbers::shown::kinds_number;
use line_records::codes::state_code;
use line_records::deadlines::guard_of;
use line_records::lines::{find_line, load_line};
use line_records::places::{find_place, load};
use line_records::{LINES, PLACES, WORDS};
use line_table::line::Line;
use line_table::record::Record;
use lists::words::Words;
use std::io;
use std::io::Write;
use terms::codes::flag_code;

// What steps change in a record, and the guard, which runs for every one.
fn print_record<W: Write>(out: &mut W, r: Record, guard: u32) -> io::Result<()> {
    let mut fields = Fields::new();
    fields.put_text(b" r");
    put_terms(&mut fields, r.terms);
    fields.put_option(keep_number(r.terms.keep));
    fields.put_option(connection_number(r.terms.connection));
    fields.put_number(state_code(r.state));
    fields.put_number(flag_code(r.active));
    fields.put_number(flag_code(r.suspended));
    fields.put_number(flag_code(r.down));
    put_deadline(&mut fields, true, guard);
    fields.print_line(out)
}

fn print_one_line<W: Write>(out: &mut W, l: Line) -> io::Result<()> {
    let mut fields = Fields::new();
    fields.put_text(b" l");
    fields.put_digits(l.number);
    fields.put_number(kinds_number(l));
    fields.put_number(flag_code(l.busy));
    fields.print_line(out)
}

// How many lines there are. No line has a number of zero, which is the first place's that is not used.
fn count_lines(words: &[u64; WORDS]) -> usize {
    find_line(words, Words { low: 0, high: 0 }).unwrap_or(LINES)
}

// Used places stand before the others.
pub fn print_line_desk<W: Write>(
    out: &mut W,
    number: usize,
    words: &[u64; WORDS],
) -> io::Result<()> {
    let lines = count_lines(words);
    let records = find_place(words).unwrap_or(PLACES);
    let mut fields = Fields::new();
    fields.put_number(number as u64);
    fields.put_text(b" l");
    fields.put_numbers(&[lines as u64, records as u64]);
    fields.print_line(out)?;
    for i in 0..lines {
        print_one_line(out, load_line(words, i))?;
    }
    for i in 0..records {
        print_record(out, load(words, i), guard_of(words, i))?;
    }
    Ok(())
}
