// The line's table: document 01, "Steps at the line desk", as mended (M5), one row for each of its steps with a record, with the clause of H.450.9 beside it.
// A row says in which states it is taken and what it does; everything else about the line desk reads it here.
ghost use Rattle.std.specs.Prelude.{◌≡◌};
ghost use Rattle.desk.specs.declared.plan.Next.TheVariants.{Gone};
ghost use Rattle.line_table.specs.declared.table.Home.TheVariants.{WhereRetained};
ghost use Rattle.line_table.specs.declared.table.Mark.TheVariants as Mark;
ghost use Rattle.line_table.specs.Table.{rule, rule_of, home_of, effect_of, holds_in};

use desk::Connection;
use desk::plan::Next;
use message::{Body, Kind};

// Free is a place with no record, CC-Idle; then CC-Invoked-User-B, CC-Await-Call-Completion and CC-Wait-User-B-Alert.
#[derive(Clone, Copy, PartialEq, Eq)]
pub enum State {
    Free,
    Invoked,
    Await,
    Alert,
}

#[derive(Clone, Copy)]
pub enum Row {
    // Look: the record is offered (8.2.1.4): ccExecPossible, Await
    Offers,
    // ccSuspend in Await (8.2.1.6, first paragraph): the suspended mark is set
    Suspends,
    // ccResume in Await (8.2.1.6, second and third paragraphs: mend M5): the suspended mark is cleared, Invoked
    Resumes,
    // ccRingout in Await, line free (8.2.1.5): the suspended mark is cleared, Alert
    RingsOut,
    // ccRingout in Await, line busy, keep chosen (8.2.2.3): busy again; Invoked, marked active, and CCBS from now on (6.2.1.3: document 02, Ask 5)
    BusyAgainKept,
    // ccRingout in Await, line busy, keep not chosen (8.2.2.3): busy again; deleted
    BusyAgainEnded,
    // act alerted in Alert (8.2.1.5, last paragraph): type 11, call alerts; deleted
    Alerts,
    // act call failed in Alert (8.2.2.4): type 12, call failed, which is document 01's; deleted
    CallFails,
    // ccCancel received (8.2.1.7 a): deleted
    ClerkCancels,
    // act cancel (8.2.1.7 b): ccCancel; deleted
    LineCancels,
    // the connection fell (8.2.2.5: document 02, Ask 11): the mark "connection down" is set
    Falls,
    // guard reported (8.2.1.4, note; 8.2.1.7 b; ours, as 11.4.2 names no timer): ccCancel; deleted
    GuardRunsOut,
}

// The states in which a row is taken; where a connection is retained: the choice is RET.
#[derive(Clone, Copy)]
pub enum Home {
    InInvoked,
    InAwait,
    InAlert,
    WhereRetained,
    Always,
}

// What becomes of a mark: nothing, or it is set, or cleared.
#[derive(Clone, Copy)]
pub enum Mark {
    Nothing,
    Sets,
    Clears,
}

// What becomes of the record and of its kind, what is sent, and what becomes of its three marks.
#[derive(Clone, Copy)]
pub struct Effect {
    pub next: Next<State>,
    pub kind: Option<Kind>,
    pub sends: Option<Body>,
    pub active: Mark,
    pub suspended: Mark,
    pub down: Mark,
}

// A row of the table: where it is taken, and what it does.
#[derive(Clone, Copy)]
pub struct Rule {
    pub home: Home,
    pub effect: Effect,
}

// A row that changes nothing and sends nothing: each row below names what it does beside that.
const QUIET: Effect = Effect {
    next: Next::Same,
    kind: None,
    sends: None,
    active: Mark::Nothing,
    suspended: Mark::Nothing,
    down: Mark::Nothing,
};

// A row that deletes the record.
fn ends(home: Home, sends: Option<Body>) -> Rule
    ensures { result ≡ rule home Gone None sends Mark.Nothing Mark.Nothing Mark.Nothing }
{
    Rule {
        home,
        effect: Effect {
            next: Next::Gone,
            sends,
            ..QUIET
        },
    }
}

// The table: where a row is taken, and what it does.
pub fn rule_of(row: Row) -> Rule
    ensures { result ≡ rule_of row }
{
    match row {
        Row::Offers => Rule {
            home: Home::InInvoked,
            effect: Effect {
                next: Next::To(State::Await),
                sends: Some(Body::CcExecPossible),
                ..QUIET
            },
        },
        Row::Suspends => Rule {
            home: Home::InAwait,
            effect: Effect {
                next: Next::To(State::Await),
                suspended: Mark::Sets,
                ..QUIET
            },
        },
        Row::Resumes => Rule {
            home: Home::InAwait,
            effect: Effect {
                next: Next::To(State::Invoked),
                suspended: Mark::Clears,
                ..QUIET
            },
        },
        Row::RingsOut => Rule {
            home: Home::InAwait,
            effect: Effect {
                next: Next::To(State::Alert),
                suspended: Mark::Clears,
                ..QUIET
            },
        },
        Row::BusyAgainKept => Rule {
            home: Home::InAwait,
            effect: Effect {
                next: Next::To(State::Invoked),
                kind: Some(Kind::Ccbs),
                sends: Some(Body::RingoutError { error: 1 }),
                active: Mark::Sets,
                suspended: Mark::Clears,
                ..QUIET
            },
        },
        Row::BusyAgainEnded => ends(Home::InAwait, Some(Body::RingoutError { error: 1 })),
        Row::Alerts => ends(Home::InAlert, Some(Body::CallAlerts)),
        Row::CallFails => ends(Home::InAlert, Some(Body::CallFailed)),
        Row::ClerkCancels => ends(Home::Always, None),
        Row::LineCancels => ends(Home::Always, Some(Body::CcCancel)),
        Row::Falls => Rule {
            home: Home::WhereRetained,
            effect: Effect {
                down: Mark::Sets,
                ..QUIET
            },
        },
        Row::GuardRunsOut => ends(Home::Always, Some(Body::CcCancel)),
    }
}

// Where a row is taken.
pub fn home_of(row: Row) -> Home
    ensures { result ≡ home_of row }
{
    rule_of(row).home
}

// What a row does.
pub fn effect_of(row: Row) -> Effect
    ensures { result ≡ effect_of row }
{
    rule_of(row).effect
}

// Whether a state is one of a row's, and the connection choice; a free place has no row.
pub fn holds_in(home: Home, state: State, connection: Connection) -> bool
    ensures { result ≡ holds_in home state connection }
{
    match home {
        Home::InInvoked => state == State::Invoked,
        Home::InAwait => state == State::Await,
        Home::InAlert => state == State::Alert,
        Home::WhereRetained => connection == Connection::Ret && state != State::Free,
        Home::Always => state != State::Free,
    }
}
