// The replay program: plays a script of entries from standard input in order, and prints a line for each. The first entry that can't be played ends it, with a
// line that says so. Both desks' words are lent to each entry.
#![tactic(auto)]

mod clerk_entries;
mod clerk_lines;
mod codec;
mod defaults;
mod desk_entries;
mod line_entries;
mod line_lines;
mod outcome_line;
mod output;
mod record_lines;
mod script;
mod stop;
mod tick_line;

ghost use Rattle.std.specs.Prelude.{◌≤◌, IfOk, length};

use crate::clerk_entries::play_clerk;
use crate::codec::play_write;
use crate::defaults::{COUNT, default_lengths};
use crate::line_entries::play_line;
use crate::outcome_line::print_nothing;
use crate::output::Fields;
use crate::script::Script;
use crate::stop::Stop;
use printing::part;
use std::io;
use std::io::{Read, Write};

// What goes on from entry to entry: both desks, and the count of every step and tick.
#[derive(Drop)]
struct Playing {
    clerk: clerk::Desk,
    line: line::Desk,
    count: u32,
}

// The default lengths are in range, so that the clerk's desk is never refused. The line desk has no lines, does not keep and does not retain.
fn start() -> Playing {
    Playing {
        clerk: clerk::start::start(default_lengths()).desk,
        line: line::start::start(b"", false, false).desk,
        count: COUNT,
    }
}

// An entry, on the desk that its code names.
fn play_entry<W: Write>(
    out: &mut W,
    number: usize,
    script: &mut Script,
    now: &mut Playing,
) -> Result<(), Stop> {
    let code = script.byte()?;
    match code {
        1 | 32..=38 | 65 => play_line(out, number, code, script, now.count, &mut now.line),
        3 => {
            now.count = script.four()?;
            Ok(print_nothing(out, number)?)
        }
        48 => play_write(out, number, script),
        _ => play_clerk(out, number, code, script, now.count, &mut now.clerk),
    }
}

fn print_stop<W: Write>(out: &mut W, number: usize) -> io::Result<()> {
    let mut fields = Fields::new();
    fields.put_text(b" stop");
    fields.put_number(number as u64);
    fields.print_line(out)
}

// Every entry from the script's first byte on. An entry takes a byte or more, so that a script never has more entries than bytes.
fn play<W: Write>(out: &mut W, bytes: &[u8]) -> io::Result<()> {
    let mut script = Script { rest: bytes };
    let mut now = start();
    for number in 0..bytes.len() {
        if script.rest.is_empty() {
            break;
        }
        match play_entry(out, number, &mut script, &mut now) {
            Ok(()) => {}
            Err(Stop::Unplayable) => return print_stop(out, number),
            Err(Stop::Failed(error)) => return Err(error),
        }
    }
    Ok(())
}

// Reads until the room is full or the input ends: how many bytes stand at its front. It counts by what each read brings: `read_exact` refuses an input that ends before, and
// `read_to_end` needs a heap, which no program of ours does (docs/DECISIONS.md, "The ladder promises nothing").
fn read_full<R: Read>(input: &mut R, room: &mut [u8]) -> io::Result<usize>
    ensures { IfOk result (λ n. n ≤ length room.new) }
{
    let mut done = 0;
    while done < room.len() {
        let count = input.read(&mut room[done..])?;
        if count == 0 {
            break;
        }
        done += count;
    }
    Ok(done)
}

fn play_input(rt: &(impl Input + Print), room: &mut [u8]) -> io::Result<()> {
    let length = read_full(&mut rt.reader(), room)?;
    play(&mut io::writer(rt), part(room, 0, length))
}

// A script has at most 262,144 bytes: what stands behind them is not read.
fn main(rt: HostRuntime) -> io::Result<()> {
    let mut room = [0u8; 262144];
    play_input(&rt, &mut room)
}
