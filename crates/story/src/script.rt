// The scenes as a script: what is done and heard, in order (docs/STORY.md, "The scenes"). What comes of it is the desks' word. An event is a line: the scenes that
// it is played in (the evening of the 34 in two), or a scene and a dot for an event of its prelude, which is not seen; two digits for what it is about,
// or dashes (of `until` the minutes past six); the place that the host names with it (a digit, or a dash for none), or a blank; and its name.
use ladder::events::{Event, EventKind, Naming};
use printing::entry_of;

// An event by the first two letters of its name. A capital: the connection fell, at that end.
fn kind_of(first: u8, second: u8) -> EventKind {
    match (first, second) {
        (b'a', b's') => EventKind::Ask,
        (b'a', b'c') => EventKind::Accept,
        (b'a', _) => EventKind::Alerted,
        (b'b', _) => EventKind::Busy,
        (b'c', b'a') => EventKind::Cancel,
        (b'c', _) => EventKind::ClerkHears,
        (b'f', _) => EventKind::Free,
        (b'l', b'i') => EventKind::LineHears,
        (b'l', _) => EventKind::Look,
        (b'r', _) => EventKind::Records,
        (b's', b'a') => EventKind::Say,
        (b's', _) => EventKind::Stray,
        (b'C', _) => EventKind::ClerkFell,
        (b'L', _) => EventKind::LineFell,
        (b't', _) => EventKind::Tick,
        (b'u', _) => EventKind::Until,
        (b'w', _) => EventKind::Withdraw,
        _ => EventKind::Nothing,
    }
}

// The number of two digits, or none. (The last four bits of a digit's byte are its value.)
fn number_of(tens: u8, ones: u8) -> Option<u8> {
    if tens == b'-' {
        return None;
    }
    Some(10 * (tens % 16) + ones % 16)
}

fn naming_of(place: u8) -> Naming {
    match place {
        b' ' => Naming::Silent,
        b'-' => Naming::NoPlace,
        _ => Naming::Place(usize::from(place % 16)),
    }
}

// Whether a line of the script, by its first two bytes, is of a scene.
fn is_of(first: u8, second: u8, scene: u8) -> bool {
    let digit = b'0' + scene % 10;
    first == digit || second == digit
}

// A step of the script; behind the last one the line is empty.
fn line_at(step: usize) -> &'static [u8] {
    entry_of(
        b"12 01 say\n12 41 busy\n12 34 ask\n12 -- line hears\n12 -- clerk hears\n\
          12 -- records\n\
          12 02 say\n12 41 free\n12 41 look\n12 -- clerk hears\n12 41 busy\n\
          12 34 accept\n12 -- line hears\n12 -- clerk hears\n12 03 say\n12 -- records\n\
          12 04 say\n12 41 free\n12 41 look\n12 -- clerk hears\n\
          1  05 say\n1  10 until\n1  -- tick\n1  20 until\n1  -- tick\n1  -- line hears\n1  -- records\n\
          2  06 say\n2  34 accept\n2  -- line hears\n2  34 alerted\n2  -- clerk hears\n\
          2  -- records\n\
          3. 41 busy\n3. 34 ask\n3. -- line hears\n3. -- clerk hears\n\
          3  -- records\n3  07 say\n3  41 free\n3  41 look\n\
          3  08 say\n3  34 cancel\n\
          3  09 say\n3  -- clerk hears\n3  -- line hears\n3  -- line hears\n3  -- records\n\
          4. 41 busy\n4. 52 busy\n4. 34 ask\n4. -- line hears\n4. -- clerk hears\n\
          4. 12 ask\n4. -- line hears\n4. -- clerk hears\n4. 41 free\n4. 41 look\n\
          4. -- clerk hears\n4. 52 free\n4. 52 look\n4. -- clerk hears\n\
          4  -- records\n\
          4  10 say\n4  34 accept\n4  -- line hears\n4  12 accept\n4  12 withdraw\n\
          4  -- line hears\n4  -- clerk hears\n4  -- records\n\
          4  11 say\n4  -- clerk hears\n4  -- records\n\
          4  12 say\n4  20 stray\n4  -- clerk hears\n4  -- line hears\n4  34 stray\n\
          4  -- clerk hears\n4  -- records\n\
          4  13 say\n4  34 alerted\n4  -- clerk hears\n4  -- records\n\
          5. 41 busy\n5. 34 ask\n5. -- line hears\n5. -- clerk hears\n\
          5  -- records\n5  14 say\n5  34 Line fell\n5  -- records\n\
          5  15 say\n5  41 free\n5  41 look\n5  -- clerk hears\n\
          5  16 say\n5  34 Clerk fell\n5  34 accept\n5  -- line hears\n5  -- records\n\
          5  34 alerted\n5  -- clerk hears\n5  -- records\n\
          6. 41 busy\n\
          6  17 say\n6  -- ask\n6  -- ask\n6  -- line hears\n6  -- line hears\n\
          6  --0clerk hears\n6  --1clerk hears\n6  -- records\n\
          6  18 say\n6  -- stray\n6  ---clerk hears\n6  -- records\n\
          6  19 say\n6  41 free\n6  41 look\n6  --0clerk hears\n\
          6  20 say\n6  -- stray\n6  --1clerk hears\n6  -- records\n\
          6  21 say\n6  --0accept\n6  -- line hears\n6  --0alerted\n6  41 look\n\
          6  --0clerk hears\n\
          6  22 say\n6  ---clerk hears\n6  --0line hears\n6  -- records\n",
        step,
    )
}

fn event_of(kind: EventKind, about: Option<u8>, naming: Naming, seen: bool) -> Event {
    Event {
        kind,
        about,
        naming,
        atLine: EventKind::Alerted <= kind && kind != EventKind::ClerkHears,
        seen,
        clock: 0,
    }
}

// The event at a step of a scene. A line of another scene, and an empty one, is an event that does nothing.
pub fn event_at(scene: u8, step: usize) -> Event {
    match line_at(step) {
        [first, second, _, tens, ones, place, letter, next, ..] if is_of(*first, *second, scene) =>
            {
                event_of(
                    kind_of(*letter, *next),
                    number_of(*tens, *ones),
                    naming_of(*place),
                    *second != b'.',
                )
            }
        _ => event_of(EventKind::Nothing, None, Naming::Silent, false),
    }
}
