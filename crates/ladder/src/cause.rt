// The words of an event's cause.
use crate::events::{Event, EventKind, Naming, Tag};
use crate::words::put_row;
use printing::Page;

// A tag: the request's number of two digits, or two dashes where it has no identifier.
pub fn put_tag(page: &mut Page, tag: Tag) {
    match tag {
        None => page.put_text(b"#--"),
        Some(number) => page.put_text(&[b'#', b'0' + number / 10 % 10, b'0' + number % 10]),
    }
}

// A place, a digit.
pub fn put_place(page: &mut Page, place: usize) {
    page.put_text(&[b'0' + (place % 10) as u8]);
}

// A request without an identifier by the place of its record.
pub fn put_placed(page: &mut Page, place: usize) {
    put_tag(page, None);
    page.put_text(b" at ");
    put_place(page, place);
}

// The tag, and the place that tells requests without an identifier apart, where the event is about a request of the desk's own.
fn put_subject(page: &mut Page, event: Event) {
    if event.kind < EventKind::Busy {
        match event.naming {
            Naming::Place(place) => put_placed(page, place),
            Naming::NoPlace | Naming::Silent => put_tag(page, event.about),
        }
    }
}

// The place that the host names with a message.
fn put_naming(page: &mut Page, naming: Naming) {
    match naming {
        Naming::Silent => {}
        Naming::NoPlace => page.put_text(b"the host names no place\n"),
        Naming::Place(place) => {
            page.put_text(b"the host names place ");
            put_place(page, place);
            page.put_text(b"\n");
        }
    }
}

// The words of a cause. What is about the second line stands ten entries further on.
fn put_cause_words(page: &mut Page, entry: usize) {
    put_row(
        page,
        b"",
        b"
 ask: CCBS, can-keep 1
 User A accepts
 User A cancels

 the connection fell
 the phone rings
 the house withdraws
 the connection fell
line 41180 is busy
line 41180 is free
Look at line 41180
(no desk sent this)






line 52290 is busy
line 52290 is free
Look at line 52290
",
        entry,
    );
}

// A row with the words of the cause, if there are any.
pub fn put_cause(page: &mut Page, event: Event) {
    if EventKind::ClerkHears <= event.kind {
        return put_naming(page, event.naming);
    }
    let entry = event.kind as usize;
    put_subject(page, event);
    put_cause_words(
        page,
        if event.about == Some(52) {
            entry + 10
        } else {
            entry
        },
    );
}
