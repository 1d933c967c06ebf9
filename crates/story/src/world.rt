// A scene's two desks and two wires, and what it sets: whether the line's end is the wrong one, and User A's preference.
use crate::wire::{Wire, quiet};
use clerk::start::Lengths;

#[derive(Clone, Copy)]
pub struct World {
    pub clerk: clerk::Desk,
    pub line: line::Desk,
    pub toClerk: Wire,
    pub toLine: Wire,
    pub wrong: bool,
    pub preference: u8,
    pub clock: u32,
}

// Every scene begins at six in the evening. The clock, in seconds since midnight, is the count that both desks are given.
pub const SIX: u32 = 64800;

// The lengths of the clerk's timers, in seconds, are those that a replay begins with (REPLAY-02.md, "Request 6").
fn clerk_desk() -> clerk::Desk {
    let started = clerk::start::start(Lengths {
        t1: 20,
        t2Ccbs: 900,
        t2Ccnr: 3600,
        t3: 20,
    });
    started.desk
}

// What User A prefers to become of the connection, in an ask: 1 retain, 2 release.
fn preference_of(scene: u8) -> u8 {
    if scene == 3 {
        return 2;
    }
    1
}

// The desks as they start. The line desk is given lines 41180 and 52290: length and digits in sixteen places, then both kinds. The wrong end, scene 1's, does
// not keep requests, whatever it tells.
pub fn start_world(scene: u8) -> World {
    let started = line::start::start(
        b"\x05\x04\x01\x01\x08\0\0\0\0\0\0\0\0\0\0\0\x03\
          \x05\x05\x02\x02\x09\0\0\0\0\0\0\0\0\0\0\0\x03",
        scene != 1,
        false,
    );
    World {
        clerk: clerk_desk(),
        line: started.desk,
        toClerk: quiet(),
        toLine: quiet(),
        wrong: scene == 1,
        preference: preference_of(scene),
        clock: SIX,
    }
}
