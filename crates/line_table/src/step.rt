// A row taken for a record: what the table's effect makes of the place, the marks, the message and the guard.
ghost use Rattle.std.specs.Prelude.{◌≡◌};
ghost use Rattle.line_table.specs.Step.{guard, marked_by, turned_to, changed, stopped, row_taken};

use crate::record::{Change, Record, Turned};
use crate::table::{Effect, Mark, Row, State, effect_of};
use desk::outcome::{NO_TIMERS, Timers, done};
use desk::plan::{Next, Plan};
use terms::{kind_after, sent_on};

// The guard alone.
pub fn only_guard() -> Timers
    ensures { result ≡ guard }
{
    Timers {
        guard: true,
        ..NO_TIMERS
    }
}

fn marked_by(mark: Mark, before: bool) -> bool
    ensures { result ≡ marked_by mark before }
{
    match mark {
        Mark::Nothing => before,
        Mark::Sets => true,
        Mark::Clears => false,
    }
}

// What a row turns in a record that goes on in a state.
fn turned_to(state: State, effect: Effect, r: Record) -> Turned
    ensures { result ≡ turned_to state effect r }
{
    Turned {
        kind: kind_after(effect.kind, r.terms.kind),
        state,
        active: marked_by(effect.active, r.active),
        suspended: marked_by(effect.suspended, r.suspended),
        down: marked_by(effect.down, r.down),
    }
}

fn changed_to(next: Next<State>, effect: Effect, place: usize, r: Record) -> Change
    ensures { result ≡ changed next effect place r }
{
    match next {
        Next::Gone => Change::Remove(place),
        Next::Same => Change::Turn(turned_to(r.state, effect, r), place),
        Next::To(state) => Change::Turn(turned_to(state, effect, r), place),
    }
}

// A delete stops the guard.
fn timers_stopped(next: Next<State>) -> Timers
    ensures { result ≡ stopped next }
{
    match next {
        Next::Gone => only_guard(),
        Next::Same | Next::To(_) => NO_TIMERS,
    }
}

// A row that is taken for the record of a place.
#[tactic(auto, unfolding(crate::specs::Step::row_taken))]
pub fn take_row(place: usize, r: Record, row: Row) -> Plan<Change>
    ensures { result ≡ row_taken place r row }
{
    let effect = effect_of(row);
    let change = changed_to(effect.next, effect, place, r);
    let sending = sent_on(r.terms, r.down, effect.sends);
    let stops = timers_stopped(effect.next);
    let outcome = done(sending, NO_TIMERS, stops, Some(place));
    Plan { change, outcome }
}
