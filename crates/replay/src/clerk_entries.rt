// The clerk's codes: an entry of the script is read as what the desk's door takes, and that is played on the desk and printed.
ghost use Rattle.std.specs.Prelude.{◌≡◌};
ghost use Rattle.replay.specs.Named.{clerk_named};

use crate::clerk_lines::print_clerk;
use crate::desk_entries::{listed, play_bytes, play_start, play_step};
use crate::script::{Named, Script};
use crate::stop::{Stop, Unplayable};
use crate::tick_line::{MOST_ROOM, UNTOUCHED, print_tick};
use clerk::Desk;
use clerk::entry::{Asking, Entry, ask_entry, bytes_entry};
use clerk::start::start;
use host_numbers::given::{clerk_act_given, timer_given};
use host_numbers::identifiers::{bytes_given, is_given};
use message::Kind;
use message::refusal::Refusal;
use std::io::Write;
use ticks::clerk_tick::clerk_tick;
use told::ticking::TOLD;

// Code 16: its kind is 1 or 2.
fn asking(script: &mut Script) -> Result<Asking, Unplayable> {
    let identifier = script.identifier()?;
    Ok(Asking {
        identified: is_given(identifier),
        identifier: bytes_given(identifier),
        kind: match script.byte()? {
            1 => Kind::Ccbs,
            2 => Kind::Ccnr,
            _ => return Err(Unplayable),
        },
        numberA: script.digits()?,
        numberB: script.digits()?,
        service: script.two()?,
        canKeep: script.flag()?,
        preference: script.byte()?,
    })
}

// Codes 18 to 22: an act at this end, or a timer that ran out, on the request that is named, by the numbers that hosts have for them. User A free is two acts, by the entry's choice.
#[tactic(auto, unfolding(crate::specs::Named::clerk_named))]
fn named_entry(code: u8, named: Named) -> Entry
    ensures { result ≡ clerk_named code named.choice named.identifier named.place }
{
    let identifier = named.identifier;
    let place = named.place;
    match code {
        18 => clerk_act_given(identifier, place, 1),
        19 => match named.choice {
            0 => clerk_act_given(identifier, place, 2),
            1 => clerk_act_given(identifier, place, 3),
            _ => Err(Refusal::OutOfRange),
        },
        20 => clerk_act_given(identifier, place, 4),
        21 => timer_given(identifier, place, named.choice as u64),
        _ => clerk_act_given(identifier, place, 5),
    }
}

// The entry behind its code.
pub fn play_clerk<W: Write>(
    out: &mut W,
    number: usize,
    code: u8,
    script: &mut Script,
    count: u32,
    desk: &mut Desk,
) -> Result<(), Stop> {
    match code {
        2 => {
            let lengths = script.lengths()?;
            play_start(out, number, desk, start(lengths))
        }
        16 => play_step(out, number, desk, count, ask_entry(asking(script)?)),
        17 => {
            let busy = script.flag()?;
            let place = script.place()?;
            let bytes = script.run()?;
            let read = bytes_entry(bytes, busy, place);
            play_bytes(out, number, desk, count, read, bytes.len())
        }
        18..=22 => {
            let named = script.named(code == 19 || code == 21)?;
            play_step(out, number, desk, count, listed(named_entry(code, named))?)
        }
        23 => {
            let mut buffer = [UNTOUCHED; MOST_ROOM];
            let lent = script.room(&mut buffer)?;
            let mut told = [0; TOLD];
            clerk_tick(&mut desk.words, count, lent, &mut told);
            Ok(print_tick(out, number, &told, lent)?)
        }
        64 => Ok(print_clerk(out, number, &desk.words)?),
        _ => Err(Stop::Unplayable),
    }
}
