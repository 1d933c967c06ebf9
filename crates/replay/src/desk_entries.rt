// What the entries of both desks have in common: a start, and a step.
use crate::outcome_line::print_outcome;
use crate::stop::{Stop, Unplayable};
use desk::entry::BytesEntry;
use desk::outcome::Stepped;
use desk::steps::{Steps, step_read};
use message::refusal::Refusal;
use std::io::Write;

// A refused start leaves the desk as it was.
pub fn play_start<W: Write, D: Copy>(
    out: &mut W,
    number: usize,
    desk: &mut D,
    started: Stepped<D>,
) -> Result<(), Stop> {
    print_outcome(out, number, started.outcome, 0, None)?;
    if started.outcome.refusal.is_none() {
        *desk = started.desk;
    }
    Ok(())
}

// An entry of numbers that stand for something; others aren't listed.
pub fn listed<I: Copy>(entry: Result<I, Refusal>) -> Result<Result<I, Refusal>, Unplayable> {
    if entry.is_err() {
        return Err(Unplayable);
    }
    Ok(entry)
}

// What the desk is given.
pub fn play_step<W: Write, D: Steps>(
    out: &mut W,
    number: usize,
    desk: &mut D,
    count: u32,
    entry: D::Entry,
) -> Result<(), Stop> {
    let outcome = desk.step(count, entry);
    Ok(print_outcome(out, number, outcome, 0, None)?)
}

// What it is given of so many bytes.
pub fn play_bytes<W: Write, D: Steps>(
    out: &mut W,
    number: usize,
    desk: &mut D,
    count: u32,
    read: BytesEntry<D::Entry>,
    length: usize,
) -> Result<(), Stop> {
    let answer = step_read(desk, count, read);
    let left = length.saturating_sub(answer.next);
    Ok(print_outcome(out, number, answer.outcome, left, answer.fault)?)
}
