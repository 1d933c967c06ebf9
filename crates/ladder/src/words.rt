// The words of an event's end, each in a row of its own: a table for each list that docs/STORY.md has, by the number that a host is told. The ladder stands beside the desks
// and has no enum of theirs (docs/DECISIONS.md, "The story").
use crate::cause::{put_cause, put_placed, put_tag};
use crate::events::{Event, Naming, Tag};
use crate::shown::{State, States};
use printing::{Page, blank_page};
use told::TOLD;
use told::ticking::TOLD as TICK_TOLD;

// A row of an entry's words behind a lead; the first entry is none, and takes no row.
pub fn put_row(page: &mut Page, lead: &[u8], table: &[u8], entry: usize) {
    if 0 < entry {
        page.put_text(lead);
        page.put_entry(table, entry);
        page.put_text(b"\n");
    }
}

// What a refusal's number means.
fn put_refusal(page: &mut Page, refusal: usize) {
    put_row(
        page,
        b"  refused with ",
        b"\n1\n2\n3\n4\n5\n6\n7\n8\n9\n10\n11\n12\n",
        refusal,
    );
    put_row(
        page,
        b"  ",
        b"
bytes that are no message
a field is out of range
a type for the other end
this identifier is live
the clerk's desk is full
no record of this request
no row for it in this state
carrier not allowed
that timer isn't running
no such line
nothing to offer
no room in the buffer
",
        refusal,
    );
}

// Timers that are stopped, or started.
fn put_timers(page: &mut Page, what: &[u8], timers: usize) {
    put_row(
        page,
        what,
        b"
 T1
 T2
 T1 T2
 T3
 T1 T3
 T2 T3
 T1 T2 T3
 guard
 T1 guard
 T2 guard
 T1 T2 guard
 T3 guard
 T1 T3 guard
 T2 T3 guard
 T1 T2 T3 guard
",
        timers,
    );
}

fn put_notice(page: &mut Page, notice: usize) {
    put_row(
        page,
        b"  notice ",
        b"
\"accepted\"
\"denied short\"
\"denied long\"
\"recall\"
\"completed\"
\"failed\"
\"busy again, kept\"
\"busy again, ended\"
\"cancelled\"
\"busy again, now waiting for free\"
",
        notice,
    );
}

pub fn put_state(page: &mut Page, lead: &[u8], state: State) {
    page.put_text(lead);
    page.put_entry(
        b"no record
Wait-Ack
Invoked
Wait-Answer
Ringout
Suspended
Await
Await, suspended
Alert
",
        state as usize,
    );
}

// The state of the step's request, which stays or changes; an event about no request has none.
fn put_states(page: &mut Page, states: Option<States>) {
    if let Some(known) = states {
        if known.before == known.after {
            return put_state(page, b"  still ", known.after);
        }
        put_state(page, b"  ", known.before);
        put_state(page, b" -> ", known.after);
    }
}

// What an end's host is told of a step, without the message.
fn put_told(page: &mut Page, told: &[u64; TOLD]) {
    put_refusal(page, told[0] as usize);
    put_timers(page, b"  stops", told[4] as usize);
    put_timers(page, b"  starts", told[3] as usize);
    put_notice(page, told[5] as usize);
    put_row(page, b"  clear the call", b"", told[6] as usize);
}

// Which record the step was about, where neither an identifier nor the event says it.
fn put_about(page: &mut Page, untold: bool, told: &[u64; TOLD]) {
    if untold && told[9] == 1 {
        page.put_text(b"  about ");
        put_placed(page, told[10] as usize);
        page.put_text(b"\n");
    }
}

// All rows of a tick in which a record expired, or none.
pub fn put_tick(told: &[u64; TICK_TOLD], tag: Tag, state: State) -> Page {
    let expired = told[2] as usize;
    let mut page = blank_page();
    page.put_entry(b"tick: nothing is due\ntick: 1 expired\n", expired);
    page.put_text(b"\n");
    if 0 < expired {
        page.put_text(b"  ");
        put_tag(&mut page, tag);
        put_state(&mut page, b" ", state);
        put_state(&mut page, b" -> ", State::NoRecord);
        page.put_text(b"\n");
        put_notice(&mut page, told[4] as usize);
    }
    page
}

// All rows of an event's end.
pub fn put_words(event: Event, told: &[u64; TOLD], states: Option<States>) -> Page {
    let untold = matches!(event.naming, Naming::Silent)
        && states.is_some_and(|known| known.nameless);
    let mut page = blank_page();
    put_cause(&mut page, event);
    put_told(&mut page, told);
    put_about(&mut page, untold, told);
    put_states(&mut page, states);
    page
}
