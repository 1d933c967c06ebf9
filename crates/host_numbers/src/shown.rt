// What a host is shown of a record or a line, as bytes and plain numbers.
ghost use Rattle.std.specs.Prelude.{◌≡◌};
ghost use Rattle.lists.specs.Words.{bytes_of};
ghost use Rattle.host_numbers.specs.Identifiers.{identifier_shown};
ghost use Rattle.host_numbers.specs.Shown.{if_runs, clerk_running, line_running, record_numbers, clerk_numbers, line_numbers, kinds_number};

use crate::identifiers::{BYTES, identifier_shown};
use clerk_records::codes::state_code as clerk_state_code;
use clerk_records::deadlines::Deadlines;
use clerk_table::record::Record as ClerkRecord;
use clerk_table::step::timers_running;
use clerk_table::table::State as ClerkState;
use line_records::codes::state_code as line_state_code;
use line_table::line::Line;
use line_table::record::Record as LineRecord;
use line_table::step::only_guard;
use terms::Terms;
use terms::codes::{connection_code, flag_code, keep_code, kind_code};
use told::timers_number;

// How many numbers a host is shown of a record.
pub const NUMBERS: usize = 14;

// The timers of a record that run, as a sum, and the count at which each of them runs out; 0 of one that does not run.
#[derive(Clone, Copy)]
pub struct Running {
    pub timers: u64,
    pub t1: u64,
    pub t2: u64,
    pub t3: u64,
    pub guard: u64,
}

// The identifier and the two numbers of digits.
pub fn show_names(
    identifier: &mut [u8; BYTES],
    numberA: &mut [u8; 16],
    numberB: &mut [u8; 16],
    terms: Terms,
)
    ensures { (identifier.new ≡ identifier_shown terms.identifier) × (numberA.new ≡ bytes_of terms.numberA) × (numberB.new ≡ bytes_of terms.numberB) }
{
    *identifier = identifier_shown(terms.identifier);
    *numberA = <[u8; 16]>::from(terms.numberA);
    *numberB = <[u8; 16]>::from(terms.numberB);
}

// A deadline that is put while its timer runs stays in the desk's words when it is stopped, and is not shown then.
fn if_runs(runs: bool, deadline: u32) -> u64
    ensures { result ≡ if_runs runs deadline }
{
    if runs { u64::from(deadline) } else { 0 }
}

// By the record's state.
fn clerk_running(state: ClerkState, deadlines: Deadlines) -> Running
    ensures { result ≡ clerk_running state deadlines }
{
    let running = timers_running(state);
    Running {
        timers: timers_number(running),
        t1: if_runs(running.t1, deadlines.t1),
        t2: if_runs(running.t2, deadlines.t2),
        t3: if_runs(running.t3, deadlines.t3),
        guard: 0,
    }
}

// The guard runs in every state, and nothing else does.
fn line_running(guard: u32) -> Running
    ensures { result ≡ line_running guard }
{
    Running {
        timers: timers_number(only_guard()),
        t1: 0,
        t2: 0,
        t3: 0,
        guard: u64::from(guard),
    }
}

// Kind, service, can-keep, keep, connection, state, the three marks of a record, active, suspended, connection down, and its timers.
fn record_numbers(
    terms: Terms,
    canKeep: bool,
    state: u64,
    active: bool,
    suspended: bool,
    down: bool,
    running: Running,
) -> [u64; NUMBERS]
    ensures { result ≡ record_numbers terms canKeep state active suspended down running }
{
    [
        kind_code(terms.kind),
        terms.service,
        flag_code(canKeep),
        keep_code(terms.keep),
        connection_code(terms.connection),
        state,
        flag_code(active),
        flag_code(suspended),
        flag_code(down),
        running.timers,
        running.t1,
        running.t2,
        running.t3,
        running.guard,
    ]
}

// A clerk's record has the last mark alone.
pub fn clerk_numbers(r: ClerkRecord, deadlines: Deadlines) -> [u64; NUMBERS]
    ensures { result ≡ clerk_numbers r deadlines }
{
    let code = clerk_state_code(r.state);
    let running = clerk_running(r.state, deadlines);
    record_numbers(r.terms, r.canKeep, code, false, false, r.down, running)
}

// A line's record has no can-keep.
pub fn line_numbers(r: LineRecord, guard: u32) -> [u64; NUMBERS]
    ensures { result ≡ line_numbers r guard }
{
    let code = line_state_code(r.state);
    let running = line_running(guard);
    record_numbers(r.terms, false, code, r.active, r.suspended, r.down, running)
}

// 1 CCBS + 2 CCNR.
pub fn kinds_number(line: Line) -> u64
    ensures { result ≡ kinds_number line }
{
    match (line.ccbs, line.ccnr) {
        (true, true) => 3,
        (true, false) => 1,
        (false, true) => 2,
        (false, false) => 0,
    }
}
