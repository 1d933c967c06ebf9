// A small host in Rattle: it keeps both desks in locals and lends them to each step of crate `lent`. A request is asked for, reaches the line desk, and its result reaches the clerk's
// desk; of each step it prints whether it was taken.
#![tactic(auto)]

mod clerk_end;
mod line_end;

use clerk::entry::{Asking, ask_entry};
use clerk::start::Lengths;
use desk::outcome::Outcome;
use lent::{clerk_desk, line_desk};
use message::Kind;
use std::io;

fn tell(rt: &impl Print, outcome: Outcome) -> io::Result<()> {
    match outcome.refusal {
        None => println!(rt; "taken"),
        Some(_) => println!(rt; "refused"),
    }
}

// Of number 1 for number 2, which is the line desk's one line.
fn asking() -> Asking {
    Asking {
        identified: true,
        identifier: [34; 16],
        kind: Kind::Ccbs,
        numberA: [1; 16],
        numberB: [1, 2, 0, 0, 0, 0, 0, 0, 0, 0, 0, 0, 0, 0, 0, 0],
        service: 34,
        canKeep: true,
        preference: 1,
    }
}

// No time passes here: every step is at this count of seconds.
const COUNT: u32 = 0;

fn main(rt: HostRuntime) -> io::Result<()> {
    let mut clerkDesk = clerk::start::start(Lengths {
        t1: 20,
        t2Ccbs: 900,
        t2Ccnr: 3600,
        t3: 20,
    })
    .desk;
    let request = clerk_desk::step(&mut clerkDesk, COUNT, ask_entry(asking()));
    tell(&rt, request)?;
    let mut lineDesk = line::start::start(
        b"\x01\x02\0\0\0\0\0\0\0\0\0\0\0\0\0\0\x03",
        true,
        false,
    ).desk;
    let result = line_desk::step(&mut lineDesk, COUNT, line_end::entry_of(request.sending));
    tell(&rt, result)?;
    let last = clerk_desk::step(&mut clerkDesk, COUNT, clerk_end::entry_of(result.sending));
    tell(&rt, last)
}
