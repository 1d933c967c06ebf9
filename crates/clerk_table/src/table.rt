// The clerk's table: document 01, "Steps at the clerk's desk", one row for each of its steps, with the clause of H.450.9 beside it.
// A row says in which states it is taken and what it does; everything else about the clerk's desk reads it here.
ghost use Rattle.std.specs.Prelude.{◌≡◌, false};
ghost use Rattle.message.specs.declared.Body.TheVariants.{CcCancel};
ghost use Rattle.desk.specs.declared.plan.Next.TheVariants.{Gone};
ghost use Rattle.clerk_table.specs.declared.table.Stops.TheVariants as Stops;
ghost use Rattle.clerk_table.specs.Table.{rule, rule_of, home_of, effect_of, state_code, t2_counts, behind, in_use, holds_in};

use desk::Connection;
use desk::outcome::Notice;
use desk::plan::Next;
use message::{Body, Kind};

// Free is a place with no record, CC-Idle. Invoked stands for CC-Invoked-User-A-RET or -RLS, by the connection choice.
#[derive(Clone, Copy, PartialEq, Eq)]
pub enum State {
    Free,
    WaitAck,
    Invoked,
    WaitAnswer,
    Ringout,
    Suspended,
}

#[derive(Clone, Copy)]
pub enum Row {
    // type 3, result, in Wait-Ack (8.1.1.3; T2 by 8.1.1.1 and 8.1.1.2)
    Accepted,
    // type 4, request error 1 (short), in Wait-Ack (8.1.2.1)
    DeniedShort,
    // type 4, request error 2 (long), in Wait-Ack (8.1.2.1)
    DeniedLong,
    // type 5, ccExecPossible, in Invoked, User A not busy (8.1.1.4)
    Recalls,
    // type 5, ccExecPossible, in Invoked, User A busy (8.1.1.5)
    Suspends,
    // accept in Wait-Answer (8.1.1.4)
    RingsOut,
    // User A free in Suspended: resume (8.1.1.5, of RLS too: the connection choice is for life)
    Resumes,
    // User A free in Suspended: go on to recall (8.1.1.5, last paragraph)
    GoesOn,
    // type 11, call alerts, in Ringout (8.1.1.4)
    Completes,
    // type 12, call failed, in Ringout (8.1.2.4, last paragraph, and 8.1.1.6 a: mend M2)
    CallFails,
    // type 7, ringout error 1 (busy again), in Ringout, keep chosen, CCBS (8.1.2.4)
    BusyAgainKept,
    // type 7, ringout error 1 (busy again), in Ringout, keep chosen, CCNR, which goes on as CCBS (8.1.2.4; 6.2.1.3: document 02, Ask 5)
    BusyAgainWaiting,
    // type 7, ringout error 1 (busy again), in Ringout, keep not chosen (8.1.2.4)
    BusyAgainEnded,
    // type 7, ringout error 2 (failureToMatch), in Ringout (8.1.2.4)
    NotMatched,
    // type 10, ccCancel, received (8.1.1.6 b: mend M4)
    LineCancels,
    // user's cancel (8.1.1.6 a)
    UserCancels,
    // the connection fell (8.1.2.5 and 8.2.2.5: document 02, Ask 11); it stays in its state
    Falls,
    // T1 reported (8.1.2.1; the ccCancel is document 01's)
    T1RunsOut,
    // T2 reported (8.1.2.2; not in Ringout: mend M1)
    T2RunsOut,
    // T3 reported (8.1.2.3)
    T3RunsOut,
}

// The states in which a row is taken: one alone, or several. Where a connection is retained: behind the acknowledgment, and the choice is RET.
#[derive(Clone, Copy)]
pub enum Home {
    In(State),
    WhereT2Counts,
    WhereRetained,
    Always,
}

#[derive(Clone, Copy)]
pub enum Timer {
    T1,
    T2,
    T3,
}

// Running: all that run in the record's state, as a delete does.
#[derive(Clone, Copy)]
pub enum Stops {
    Nothing,
    One(Timer),
    Running,
}

// What becomes of the record and of its kind, what is sent, started and stopped, and what the host is told.
#[derive(Clone, Copy)]
pub struct Effect {
    pub next: Next<State>,
    pub kind: Option<Kind>,
    // the mark "connection down" is set
    pub falls: bool,
    pub sends: Option<Body>,
    pub starts: Option<Timer>,
    pub stops: Stops,
    pub notice: Notice,
    // the host is told to clear the call, where the record was in Ringout
    pub clears: bool,
}

// A row of the table: where it is taken, and what it does.
#[derive(Clone, Copy)]
pub struct Rule {
    pub home: Home,
    pub effect: Effect,
}

// A row that changes nothing and says nothing: each row below names what it does beside that.
const QUIET: Effect = Effect {
    next: Next::Same,
    kind: None,
    falls: false,
    sends: None,
    starts: None,
    stops: Stops::Nothing,
    notice: Notice::Silent,
    clears: false,
};

// The record is deleted.
const ENDS: Effect = Effect {
    next: Next::Gone,
    stops: Stops::Running,
    ..QUIET
};

// The record is deleted, and a ccCancel is sent.
const CANCELS: Effect = Effect {
    sends: Some(Body::CcCancel),
    ..ENDS
};

// A row that deletes the record, with a notice.
fn ends(home: Home, notice: Notice) -> Rule
    ensures { result ≡ rule home Gone None false None None Stops.Running notice false }
{
    let effect = Effect { notice, ..ENDS };
    Rule { home, effect }
}

// A row that sends a ccCancel besides.
fn cancels(home: Home, notice: Notice) -> Rule
    ensures { result ≡ rule home Gone None false (Some CcCancel) None Stops.Running notice false }
{
    let effect = Effect { notice, ..CANCELS };
    Rule { home, effect }
}

// The table: where a row is taken, and what it does.
pub fn rule_of(row: Row) -> Rule
    ensures { result ≡ rule_of row }
{
    match row {
        Row::Accepted => Rule {
            home: Home::In(State::WaitAck),
            effect: Effect {
                next: Next::To(State::Invoked),
                starts: Some(Timer::T2),
                stops: Stops::One(Timer::T1),
                notice: Notice::Accepted,
                ..QUIET
            },
        },
        Row::DeniedShort => ends(Home::In(State::WaitAck), Notice::DeniedShort),
        Row::DeniedLong => ends(Home::In(State::WaitAck), Notice::DeniedLong),
        Row::Recalls => Rule {
            home: Home::In(State::Invoked),
            effect: Effect {
                next: Next::To(State::WaitAnswer),
                starts: Some(Timer::T3),
                notice: Notice::Recall,
                ..QUIET
            },
        },
        Row::Suspends => Rule {
            home: Home::In(State::Invoked),
            effect: Effect {
                next: Next::To(State::Suspended),
                sends: Some(Body::CcSuspend),
                ..QUIET
            },
        },
        Row::RingsOut => Rule {
            home: Home::In(State::WaitAnswer),
            effect: Effect {
                next: Next::To(State::Ringout),
                sends: Some(Body::CcRingout),
                stops: Stops::One(Timer::T3),
                ..QUIET
            },
        },
        Row::Resumes => Rule {
            home: Home::In(State::Suspended),
            effect: Effect {
                next: Next::To(State::Invoked),
                sends: Some(Body::CcResume),
                ..QUIET
            },
        },
        Row::GoesOn => Rule {
            home: Home::In(State::Suspended),
            effect: Effect {
                next: Next::To(State::WaitAnswer),
                starts: Some(Timer::T3),
                notice: Notice::Recall,
                ..QUIET
            },
        },
        Row::Completes => ends(Home::In(State::Ringout), Notice::Completed),
        Row::CallFails => cancels(Home::In(State::Ringout), Notice::Failed),
        Row::BusyAgainKept => Rule {
            home: Home::In(State::Ringout),
            effect: Effect {
                next: Next::To(State::Invoked),
                notice: Notice::BusyAgainKept,
                ..QUIET
            },
        },
        Row::BusyAgainWaiting => Rule {
            home: Home::In(State::Ringout),
            effect: Effect {
                next: Next::To(State::Invoked),
                kind: Some(Kind::Ccbs),
                notice: Notice::BusyAgainWaiting,
                ..QUIET
            },
        },
        Row::BusyAgainEnded => ends(Home::In(State::Ringout), Notice::BusyAgainEnded),
        Row::NotMatched => ends(Home::In(State::Ringout), Notice::Failed),
        Row::LineCancels => Rule {
            home: Home::Always,
            effect: Effect {
                notice: Notice::Failed,
                clears: true,
                ..ENDS
            },
        },
        Row::UserCancels => Rule {
            home: Home::Always,
            effect: Effect {
                notice: Notice::Cancelled,
                clears: true,
                ..CANCELS
            },
        },
        Row::Falls => Rule {
            home: Home::WhereRetained,
            effect: Effect {
                falls: true,
                ..QUIET
            },
        },
        Row::T1RunsOut => cancels(Home::In(State::WaitAck), Notice::Failed),
        Row::T2RunsOut => cancels(Home::WhereT2Counts, Notice::Failed),
        Row::T3RunsOut => cancels(Home::In(State::WaitAnswer), Notice::Failed),
    }
}

// Where a row is taken.
pub fn home_of(row: Row) -> Home
    ensures { result ≡ home_of row }
{
    rule_of(row).home
}

// What a row does.
pub fn effect_of(row: Row) -> Effect
    ensures { result ≡ effect_of row }
{
    rule_of(row).effect
}

// A state's number: its word at rest, and what tells two states apart.
pub fn state_code(state: State) -> u64
    ensures { result ≡ state_code state }
{
    match state {
        State::Free => 0,
        State::WaitAck => 1,
        State::Invoked => 2,
        State::WaitAnswer => 3,
        State::Ringout => 4,
        State::Suspended => 5,
    }
}

// T2 runs in the last four states, and in Ringout it doesn't count (mend M1).
fn t2_counts(state: State) -> bool
    ensures { result ≡ t2_counts state }
{
    matches!(state, State::Invoked | State::WaitAnswer | State::Suspended)
}

// Whether a state is behind the acknowledgment.
fn is_behind(state: State) -> bool
    ensures { result ≡ behind state }
{
    !matches!(state, State::Free | State::WaitAck)
}

// Whether a place is used: its record has a state.
fn in_use(state: State) -> bool
    ensures { result ≡ in_use state }
{
    state != State::Free
}

// Whether a row is taken in a state, and for a connection choice.
pub fn holds_in(home: Home, state: State, connection: Connection) -> bool
    ensures { result ≡ holds_in home state connection }
{
    match home {
        Home::In(only) => only == state,
        Home::WhereT2Counts => t2_counts(state),
        Home::WhereRetained => connection == Connection::Ret && is_behind(state),
        Home::Always => in_use(state),
    }
}
