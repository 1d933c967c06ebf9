// The line desk for hosts: each call lends the desk's words, gives an input and is answered with the refusal's number or 0.
ghost use Rattle.std.specs.Prelude.{◌≡◌};
ghost use Rattle.line.specs.Start.{started};
ghost use Rattle.told.specs.Face.{face};
ghost use Rattle.told.specs.Told.{refusal_told};
ghost use Rattle.ticks.specs.Line.{line_ticked};
ghost use Rattle.tollherring.specs.Line.{line_start_words, line_started_words, line_started_answer, line_entered, line_received, line_status_reported, line_looked, line_acted, line_guarded};

use crate::line_step::step_in;
use host_numbers::given::{guard_given, line_act_given, report_given};
use host_numbers::identifiers::BYTES;
use line::entry::{bytes_entry, look_entry};
use line::start::start;
use line_records::WORDS;
use message::refusal::Refusal;
use ticks::line_tick::line_tick;
use told::{TOLD, refusal_told, refuse, ticking};

fn start_in(words: &mut [u64; WORDS], given: &[u8], keep: bool, retain: bool) -> u64
    ensures { (result ≡ refusal_told (started given.now keep retain).outcome.refusal) × (words.new ≡ line_start_words words.old given.now keep retain) }
{
    let step = start(given, keep, retain);
    let outcome = step.outcome;
    match outcome.refusal {
        None => {
            let d = step.desk;
            let made = d.words;
            *words = made;
            0
        }
        Some(_) => refusal_told(outcome.refusal),
    }
}

// A desk with its lines, all free, and its settings: 2, and then the words stay as they were.
#[tactic(auto, unfolding(crate::specs::Line::line_started_words, crate::specs::Line::line_started_answer))]
pub fn tollherring_line_start(words: &mut [u64; WORDS], given: &[u8], keep: u64, retain: u64) -> u64
    ensures { (result ≡ line_started_answer given.now keep retain) × (words.new ≡ line_started_words words.old given.now keep retain) }
{
    if keep <= 1 {
        if retain <= 1 {
            return start_in(words, given, keep == 1, retain == 1);
        }
        return refusal_told(Some(Refusal::OutOfRange));
    }
    refusal_told(Some(Refusal::OutOfRange))
}

// Bytes reach the line's end: 1, 2, 3, 6, 7, 8, 12. Bytes that cannot be read have the place of the fault.
#[tactic(auto, unfolding(crate::specs::Line::line_received, crate::specs::Line::line_entered))]
pub fn tollherring_line_receive(
    words: &mut [u64; WORDS],
    count: u32,
    place: u64,
    bytes: &[u8],
    out: &mut [u8],
    told: &mut [u64; TOLD],
) -> u64
    ensures { face words.new out.new told.new result ≡ line_received words.old count out.old place bytes.now }
{
    let read = bytes_entry(bytes, place as usize);
    let entry = read.entry;
    let fault = read.fault;
    match entry {
        Err(refusal) => refuse(told, refusal, fault),
        Ok(input) => step_in(words, count, input, read.next, out, told),
    }
}

// A line is busy or free: 2, 10.
#[tactic(auto, unfolding(crate::specs::Line::line_status_reported, crate::specs::Line::line_entered))]
pub fn tollherring_line_report(
    words: &mut [u64; WORDS],
    count: u32,
    digits: &[u8; 16],
    busy: u64,
    out: &mut [u8],
    told: &mut [u64; TOLD],
) -> u64
    ensures { face words.new out.new told.new result ≡ line_status_reported words.old count out.old digits.now busy }
{
    let entry = report_given(*digits, busy);
    match entry {
        Err(refusal) => refuse(told, refusal, None),
        Ok(input) => step_in(words, count, input, 0, out, told),
    }
}

// A Look at a line: 10, 11, 12.
#[tactic(auto, unfolding(crate::specs::Line::line_looked, crate::specs::Line::line_entered))]
pub fn tollherring_line_look(
    words: &mut [u64; WORDS],
    count: u32,
    digits: &[u8; 16],
    out: &mut [u8],
    told: &mut [u64; TOLD],
) -> u64
    ensures { face words.new out.new told.new result ≡ line_looked words.old count out.old digits.now }
{
    let entry = look_entry(*digits);
    match entry {
        Err(refusal) => refuse(told, refusal, None),
        Ok(input) => step_in(words, count, input, 0, out, told),
    }
}

// An act at the line's end: 2, 6, 7, 12.
#[tactic(auto, unfolding(crate::specs::Line::line_acted, crate::specs::Line::line_entered))]
pub fn tollherring_line_act(
    words: &mut [u64; WORDS],
    count: u32,
    place: u64,
    identifier: &[u8; BYTES],
    act: u64,
    out: &mut [u8],
    told: &mut [u64; TOLD],
) -> u64
    ensures { face words.new out.new told.new result ≡ line_acted words.old count out.old place identifier.now act }
{
    let entry = line_act_given(*identifier, place, act);
    match entry {
        Err(refusal) => refuse(told, refusal, None),
        Ok(input) => step_in(words, count, input, 0, out, told),
    }
}

// The guard of a record ran out: 2, 6, 12.
#[tactic(auto, unfolding(crate::specs::Line::line_guarded, crate::specs::Line::line_entered))]
pub fn tollherring_line_guard(
    words: &mut [u64; WORDS],
    count: u32,
    place: u64,
    identifier: &[u8; BYTES],
    out: &mut [u8],
    told: &mut [u64; TOLD],
) -> u64
    ensures { face words.new out.new told.new result ≡ line_guarded words.old count out.old place identifier.now }
{
    let entry = guard_given(*identifier, place);
    match entry {
        Err(refusal) => refuse(told, refusal, None),
        Ok(input) => step_in(words, count, input, 0, out, told),
    }
}

// Every record whose guard is due expires: 12, and then nothing changes.
pub fn tollherring_line_tick(
    words: &mut [u64; WORDS],
    count: u32,
    out: &mut [u8],
    told: &mut [u64; ticking::TOLD],
) -> u64
    ensures { face words.new out.new told.new result ≡ line_ticked words.old count out.old }
{
    line_tick(words, count, out, told)
}
