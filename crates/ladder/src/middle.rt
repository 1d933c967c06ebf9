// The middle of the ladder: a message is its name, and below it its arrow, at the side of the end that hears or sends it.
use crate::cause::put_tag;
use crate::events::Tag;
use printing::{Page, blank_page};

// The ends of an arrow, in the order of the table below: where a message arrives at the clerk's or the line's end, where it is sent, where a stray one sets out; and the
// part of the way that is not seen, behind it and before it.
#[derive(Clone, Copy)]
pub enum End {
    AtClerk,
    AtLine,
    Sent,
    Stray,
    Behind,
    Before,
}

// Where a name of so many bytes begins in the row that begins at a place: behind a blank at the left, or before one at the right.
fn name_place(at: usize, atLine: bool, length: usize) -> usize {
    if 1000 < at {
        return at;
    }
    if atLine {
        return at + 37usize.saturating_sub(length);
    }
    at + 1
}

// A row with a name.
pub fn put_name(page: &mut Page, atLine: bool, name: &[u8]) {
    page.go_to(name_place(page.at, atLine, name.len()));
    page.put_text(name);
    page.put_text(b"\n");
}

// A type, and ten entries further on for each one that its field is more than 0.
fn put_type(page: &mut Page, entry: usize) {
    page.put_entry(
        b"
 ccbsRequest
 ccnrRequest
 result keep 0
 request error
 ccExecPossible
 ccRingout
 ringout error
 ccSuspend
 ccResume
 ccCancel
 call alerts
 call failed
 result keep 1
 request error short


 ringout error remoteUserBusyAgain






 request error long


 ringout error failureToMatch
",
        entry,
    );
}

fn put_end(page: &mut Page, end: End) {
    page.put_entry(b"<\n>\no\n?\n...\n          ...\n", end as usize);
}

// A row with an arrow. A carrier, by its number, stands between dashes: twenty-four bytes in all.
fn put_arrow(page: &mut Page, atLine: bool, end: End, carrier: u8) {
    put_end(page, if atLine { End::Before } else { end });
    page.put_entry(
        b"
--------[Setup]---------
-------[Connect]--------
-------[Facility]-------
---[Release Complete]---
-------[Alerting]-------
",
        carrier as usize,
    );
    put_end(page, if atLine { end } else { End::Behind });
    page.put_text(b"\n");
}

// The entry of a type and its field in the table of types.
fn type_entry(number: u8, field: u8) -> usize {
    number as usize + 10 * (field as usize)
}

// The field of a type that has one alone, which is the message's last byte: a result, a request error, a ringout error.
fn field_of(message: &[u8]) -> u8 {
    match message {
        [3 | 4 | 7, .., last] => *last,
        _ => 0,
    }
}

// The tag of a message by its bytes, if it is one: type, carrier, the identifier's length and the identifier stand first.
pub fn tag_in(message: &[u8]) -> Option<Tag> {
    match message {
        [_, _, 16, tag, ..] => Some(Some(*tag)),
        [_, _, _, ..] => Some(None),
        _ => None,
    }
}

// A message that is heard or sent, by its bytes, if there is one.
pub fn put_message(page: &mut Page, atLine: bool, end: End, message: &[u8]) {
    let (Some(tag), [number, carrier, ..]) = (tag_in(message), message) else {
        return;
    };
    let mut name = blank_page();
    put_tag(&mut name, tag);
    put_type(&mut name, type_entry(*number, field_of(message)));
    put_name(page, atLine, name.text());
    put_arrow(page, atLine, end, *carrier);
}
