// Who asks for what: the requests and the lines of all scenes (docs/STORY.md, "What the scenes share").
use clerk::entry::Asking;
use ladder::events::Tag;
use lists::words::Words;
use message::Kind;

// A request is known by its tag: each byte of its identifier, if it has one.
pub fn identifier_of(tag: Tag) -> Option<Words> {
    tag.map(|number| Words::from([number; 16]))
}

// A line's number, as its length and its digits. A line is named by the first two of them, or by the tag of the group that asks for it.
pub fn digits_of(about: Option<u8>) -> [u8; 16] {
    match about {
        Some(34 | 41) | None => [5, 4, 1, 1, 8, 0, 0, 0, 0, 0, 0, 0, 0, 0, 0, 0],
        Some(_) => [5, 5, 2, 2, 9, 0, 0, 0, 0, 0, 0, 0, 0, 0, 0, 0],
    }
}

// The group's number is in the last two digits of the number that asks, if that is not withheld.
fn number_of(tag: Tag) -> [u8; 16] {
    match tag {
        Some(34) => [7, 5, 5, 5, 0, 1, 3, 4, 0, 0, 0, 0, 0, 0, 0, 0],
        Some(_) => [7, 5, 5, 5, 0, 1, 1, 2, 0, 0, 0, 0, 0, 0, 0, 0],
        None => [0; 16],
    }
}

// A group is as large as its tag says, and both that have none are of 34.
pub fn asking(tag: Tag, preference: u8) -> Asking {
    Asking {
        identified: tag.is_some(),
        identifier: [tag.unwrap_or(0); 16],
        kind: Kind::Ccbs,
        numberA: number_of(tag),
        numberB: digits_of(tag),
        service: u16::from(tag.unwrap_or(34)),
        canKeep: true,
        preference,
    }
}
