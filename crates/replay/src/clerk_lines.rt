// Code 64: the clerk's desk, a line with the number of its records, and then a line for each.
use crate::output::Fields;
use crate::record_lines::{connection_number, keep_number, put_deadline, put_terms};
use clerk_records::codes::state_code;
use clerk_records::deadlines::{Deadlines, deadlines_at};
use clerk_records::places::{find_place, load};
use clerk_records::{PLACES, WORDS};
use clerk_table::record::Record;
use clerk_table::step::timers_running;
use std::io;
use std::io::Write;
use terms::codes::flag_code;

// What steps change in a record, and the deadlines of the timers that run in its state.
fn print_record<W: Write>(out: &mut W, r: Record, deadlines: Deadlines) -> io::Result<()> {
    let running = timers_running(r.state);
    let mut fields = Fields::new();
    fields.put_text(b" c");
    put_terms(&mut fields, r.terms);
    fields.put_number(flag_code(r.canKeep));
    fields.put_option(keep_number(r.terms.keep));
    fields.put_option(connection_number(r.terms.connection));
    fields.put_number(state_code(r.state));
    fields.put_number(flag_code(r.down));
    put_deadline(&mut fields, running.t1, deadlines.t1);
    put_deadline(&mut fields, running.t2, deadlines.t2);
    put_deadline(&mut fields, running.t3, deadlines.t3);
    fields.print_line(out)
}

// Used places stand before the others.
pub fn print_clerk<W: Write>(out: &mut W, number: usize, words: &[u64; WORDS]) -> io::Result<()> {
    let count = find_place(words).unwrap_or(PLACES);
    let mut fields = Fields::new();
    fields.put_number(number as u64);
    fields.put_text(b" c");
    fields.put_number(count as u64);
    fields.print_line(out)?;
    for i in 0..count {
        print_record(out, load(words, i), deadlines_at(words, i))?;
    }
    Ok(())
}
