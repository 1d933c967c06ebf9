// A row taken for a record: what the table's effect makes of the place, the message, the timers, the notice and the call; the outcome tells the record's place.
ghost use Rattle.std.specs.Prelude.{◌≡◌};
ghost use Rattle.clerk_table.specs.Step.{down_after, turned_to, changed, only, started, running, stopped, cleared, row_taken};

use crate::record::{Change, Record, Turned};
use crate::table::{Row, State, Stops, Timer, effect_of};
use desk::outcome::{NO_TIMERS, Outcome, Timers};
use desk::plan::{Next, Plan};
use message::Kind;
use terms::{kind_after, sent_on};

// The mark is set, and never cleared.
fn down_after(falls: bool, down: bool) -> bool
    ensures { result ≡ down_after falls down }
{
    falls || down
}

// What a row turns in a record that goes on in a state.
fn turned_to(state: State, becomes: Option<Kind>, falls: bool, r: Record) -> Turned
    ensures { result ≡ turned_to state becomes falls r }
{
    Turned {
        keep: r.terms.keep,
        connection: r.terms.connection,
        kind: kind_after(becomes, r.terms.kind),
        state,
        down: down_after(falls, r.down),
    }
}

fn changed_to(
    next: Next<State>,
    becomes: Option<Kind>,
    falls: bool,
    place: usize,
    r: Record,
) -> Change
    ensures { result ≡ changed next becomes falls place r }
{
    match next {
        Next::Gone => Change::Remove(place),
        Next::Same => Change::Turn(place, turned_to(r.state, becomes, falls, r)),
        Next::To(state) => Change::Turn(place, turned_to(state, becomes, falls, r)),
    }
}

fn only_timer(timer: Timer) -> Timers
    ensures { result ≡ only timer }
{
    match timer {
        Timer::T1 => Timers {
            t1: true,
            ..NO_TIMERS
        },
        Timer::T2 => Timers {
            t2: true,
            ..NO_TIMERS
        },
        Timer::T3 => Timers {
            t3: true,
            ..NO_TIMERS
        },
    }
}

fn timers_started(starts: Option<Timer>) -> Timers
    ensures { result ≡ started starts }
{
    starts.map_or(NO_TIMERS, only_timer)
}

// T1 runs in Wait-Ack, T3 in Wait-Answer, T2 in the last four.
pub fn timers_running(state: State) -> Timers
    ensures { result ≡ running state }
{
    match state {
        State::Free => NO_TIMERS,
        State::WaitAck => only_timer(Timer::T1),
        State::Invoked => only_timer(Timer::T2),
        State::WaitAnswer => Timers {
            t2: true,
            t3: true,
            ..NO_TIMERS
        },
        State::Ringout => only_timer(Timer::T2),
        State::Suspended => only_timer(Timer::T2),
    }
}

fn timers_stopped(stops: Stops, state: State) -> Timers
    ensures { result ≡ stopped stops state }
{
    match stops {
        Stops::Nothing => NO_TIMERS,
        Stops::One(timer) => only_timer(timer),
        Stops::Running => timers_running(state),
    }
}

fn call_cleared(clears: bool, state: State) -> bool
    ensures { result ≡ cleared clears state }
{
    clears && state == State::Ringout
}

// A row that is taken for the record of a place.
#[tactic(auto, unfolding(crate::specs::Step::row_taken))]
pub fn take_row(place: usize, r: Record, row: Row) -> Plan<Change>
    ensures { result ≡ row_taken place r row }
{
    let effect = effect_of(row);
    let change = changed_to(effect.next, effect.kind, effect.falls, place, r);
    let outcome = Outcome {
        refusal: None,
        sending: sent_on(r.terms, r.down, effect.sends),
        starts: timers_started(effect.starts),
        stops: timers_stopped(effect.stops, r.state),
        notice: effect.notice,
        clear: call_cleared(effect.clears, r.state),
        at: Some(place),
    };
    Plan { change, outcome }
}
