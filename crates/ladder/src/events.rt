// What can happen in a scene (docs/STORY.md, "Events").

// A request by the number of its tag, or one without an identifier: the script's two dashes.
pub type Tag = Option<u8>;

// Those about a request stand first: at the clerk's end, and at the line's. Then those about a line.
#[derive(Clone, Copy, PartialEq, Eq, PartialOrd, Ord)]
pub enum EventKind {
    Nothing,
    Ask,
    Accept,
    Cancel,
    // about all of an end's records
    Tick,
    ClerkFell,
    Alerted,
    Withdraw,
    LineFell,
    Busy,
    Free,
    Look,
    // a message that no desk sent, by its tag: a result, and of a request without an identifier a ccCancel
    Stray,
    // a wire delivers its first message
    ClerkHears,
    LineHears,
    // both desks are printed
    Records,
    // a line of the narration, by its number
    Say,
    // the clock is set, to so many minutes past six in the evening
    Until,
}

// Whether an end's host names the place of a record with an event, and which.
#[derive(Clone, Copy)]
pub enum Naming {
    Silent,
    NoPlace,
    Place(usize),
}

// An event at an end, the clerk's or the line's, and what it is about: a request by its tag, a line by the first two digits of its number, or how many. One of a prelude is
// not seen. The clock is in seconds since midnight.
#[derive(Clone, Copy)]
pub struct Event {
    pub kind: EventKind,
    pub about: Option<u8>,
    pub naming: Naming,
    pub atLine: bool,
    pub seen: bool,
    pub clock: u32,
}
