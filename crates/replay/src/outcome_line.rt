// The line of a step: `N refusal message starts stops notice clear left place at`.
use crate::output::Fields;
use desk::letter::Letter;
use desk::outcome::{NO_TIMERS, Outcome, done};
use printing::part;
use std::io;
use std::io::Write;
use terms::codes::flag_code;
use told::{notice_number, refusal_told, send, timers_number};

// What is sent, in the byte form, or `-`. No message is longer than 54 bytes. A desk sends nothing that the writer refuses: if it did, the line would say so.
fn put_sending(fields: &mut Fields, sending: Option<Letter>) {
    let mut bytes = [0u8; 64];
    match send(&mut bytes, 0, sending) {
        Err(_) => fields.put_text(b" unwritten"),
        Ok(length) => fields.put_hex(part(&bytes, 0, length)),
    }
}

// A place, or `-`.
pub fn put_place(fields: &mut Fields, found: Option<usize>) {
    fields.put_option(found.map(|place| place as u64));
}

// Behind the message: two sums of timers, the notice, the word to clear the call, how many bytes were left, the place of a fault, and the place of the record.
pub fn print_outcome<W: Write>(
    out: &mut W,
    number: usize,
    outcome: Outcome,
    left: usize,
    fault: Option<usize>,
) -> io::Result<()> {
    let mut fields = Fields::new();
    fields.put_numbers(&[number as u64, refusal_told(outcome.refusal)]);
    put_sending(&mut fields, outcome.sending);
    fields.put_numbers(&[
        timers_number(outcome.starts),
        timers_number(outcome.stops),
        notice_number(outcome.notice),
        flag_code(outcome.clear),
        left as u64,
    ]);
    put_place(&mut fields, fault);
    put_place(&mut fields, outcome.at);
    fields.print_line(out)
}

// The line of an entry that is no step of a desk: nothing in it.
pub fn print_nothing<W: Write>(out: &mut W, number: usize) -> io::Result<()> {
    print_outcome(out, number, done(None, NO_TIMERS, NO_TIMERS, None), 0, None)
}
