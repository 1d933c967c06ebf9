// The line desk's codes: an entry of the script is read as what the desk's door takes, and that is played on the desk and printed.
ghost use Rattle.std.specs.Prelude.{◌≡◌};
ghost use Rattle.replay.specs.Named.{line_named};

use crate::desk_entries::{listed, play_bytes, play_start, play_step};
use crate::line_lines::print_line_desk;
use crate::script::{Named, Script};
use crate::stop::{Stop, Unplayable};
use crate::tick_line::{MOST_ROOM, UNTOUCHED, print_tick};
use desk::outcome::Stepped;
use host_numbers::given::{guard_given, line_act_given};
use line::Desk;
use line::entry::{Entry, bytes_entry, look_entry, report_entry};
use line::start::start;
use message::refusal::Refusal;
use printing::{Page, blank_page};
use std::io::Write;
use ticks::line_tick::line_tick;
use told::ticking::TOLD;

// The lines of a start behind their count, as the line desk takes them: seventeen bytes a line, its number of digits in sixteen places and its kinds. A page has room for
// more lines than a desk may have: of those that have none a desk is told by a line that is not whole.
fn lines(script: &mut Script) -> Result<Page, Unplayable> {
    let mut given = blank_page();
    for _ in 0..script.byte()? {
        given.put_text(&script.digits()?);
        given.put_text(&[script.choice(3)?]);
    }
    Ok(given)
}

// Code 1: the lines, and the settings, 1 keeps and 2 retains by default.
fn started(script: &mut Script) -> Result<Stepped<Desk>, Unplayable> {
    let given = lines(script)?;
    let settings = script.choice(3)?;
    Ok(start(given.text(), settings % 2 == 1, 2 <= settings))
}

// Codes 35 to 37: an act at this end, or the guard that ran out, on the request that is named, by the numbers that hosts have for them.
#[tactic(auto, unfolding(crate::specs::Named::line_named))]
fn named_entry(code: u8, named: Named) -> Entry
    ensures { result ≡ line_named code named.choice named.identifier named.place }
{
    let identifier = named.identifier;
    let place = named.place;
    match code {
        35 => match named.choice {
            1 => line_act_given(identifier, place, 1),
            2 => line_act_given(identifier, place, 2),
            3 => line_act_given(identifier, place, 3),
            _ => Err(Refusal::OutOfRange),
        },
        36 => guard_given(identifier, place),
        _ => line_act_given(identifier, place, 4),
    }
}

// The entry behind its code.
pub fn play_line<W: Write>(
    out: &mut W,
    number: usize,
    code: u8,
    script: &mut Script,
    count: u32,
    desk: &mut Desk,
) -> Result<(), Stop> {
    match code {
        1 => play_start(out, number, desk, started(script)?),
        32 => {
            let place = script.place()?;
            let bytes = script.run()?;
            let read = bytes_entry(bytes, place);
            play_bytes(out, number, desk, count, read, bytes.len())
        }
        33 => {
            let digits = script.digits()?;
            let entry = report_entry(digits, script.flag()?);
            play_step(out, number, desk, count, entry)
        }
        34 => play_step(out, number, desk, count, look_entry(script.digits()?)),
        35..=37 => {
            let named = script.named(code == 35)?;
            play_step(out, number, desk, count, listed(named_entry(code, named))?)
        }
        38 => {
            let mut buffer = [UNTOUCHED; MOST_ROOM];
            let lent = script.room(&mut buffer)?;
            let mut told = [0; TOLD];
            line_tick(&mut desk.words, count, lent, &mut told);
            Ok(print_tick(out, number, &told, lent)?)
        }
        65 => Ok(print_line_desk(out, number, &desk.words)?),
        _ => Err(Stop::Unplayable),
    }
}
