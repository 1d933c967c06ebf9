// Which carrier goes with which type, and record (document 01, "Messages and carriers", last column): one table for what is
// received and one for what is sent.
ghost use Rattle.std.specs.Prelude.{◌≡◌};
ghost use Rattle.desk.specs.Carriers.{allowed_for, by_connection, takes, carrier_fits, sends_as, cancel_in, sent_in};

use crate::Connection;
use message::{Body, Carrier};

// The carriers that a type may be received in.
#[derive(Clone, Copy)]
struct Allowed {
    setup: bool,
    connect: bool,
    facility: bool,
    releaseComplete: bool,
    alerting: bool,
}

const NONE: Allowed = Allowed {
    setup: false,
    connect: false,
    facility: false,
    releaseComplete: false,
    alerting: false,
};

const ONLY_SETUP: Allowed = Allowed {
    setup: true,
    ..NONE
};

const ONLY_RELEASE_COMPLETE: Allowed = Allowed {
    releaseComplete: true,
    ..NONE
};

// Facility, or one that RLS is received in, Release Complete or Connect.
const FACILITY_OR_RELEASED: Allowed = Allowed {
    facility: true,
    connect: true,
    releaseComplete: true,
    ..NONE
};

const CONNECT_OR_RELEASE_COMPLETE: Allowed = Allowed {
    connect: true,
    releaseComplete: true,
    ..NONE
};

const SETUP_OR_RELEASE_COMPLETE: Allowed = Allowed {
    setup: true,
    releaseComplete: true,
    ..NONE
};

const FACILITY_OR_SETUP: Allowed = Allowed {
    facility: true,
    setup: true,
    ..NONE
};

const ALERTING_OR_CONNECT: Allowed = Allowed {
    alerting: true,
    connect: true,
    ..NONE
};

// By the connection choice; an empty one, of a request or before the acknowledgment, reads as RLS.
fn by_connection<T: Drop>(connection: Connection, retained: T, released: T) -> T
    ensures { result ≡ by_connection connection retained released }
{
    match connection {
        Connection::Ret => retained,
        Connection::Empty | Connection::Rls => released,
    }
}

fn allowed_for(body: Body, connection: Connection) -> Allowed
    ensures { result ≡ allowed_for body connection }
{
    match body {
        Body::CcbsRequest { .. } => ONLY_SETUP,
        Body::CcnrRequest { .. } => ONLY_SETUP,
        Body::RequestResult { .. } => CONNECT_OR_RELEASE_COMPLETE,
        Body::RequestError { .. } => ONLY_RELEASE_COMPLETE,
        Body::CcExecPossible => by_connection(connection, FACILITY_OR_SETUP, ONLY_SETUP),
        Body::CcRingout => ONLY_SETUP,
        Body::RingoutError { .. } => ONLY_RELEASE_COMPLETE,
        Body::CcSuspend => by_connection(
            connection,
            FACILITY_OR_RELEASED,
            CONNECT_OR_RELEASE_COMPLETE,
        ),
        Body::CcResume => by_connection(connection, FACILITY_OR_SETUP, ONLY_SETUP),
        Body::CcCancel => SETUP_OR_RELEASE_COMPLETE,
        Body::CallAlerts => ALERTING_OR_CONNECT,
        Body::CallFailed => ONLY_RELEASE_COMPLETE,
    }
}

fn takes_carrier(allowed: Allowed, carrier: Carrier) -> bool
    ensures { result ≡ takes allowed carrier }
{
    match carrier {
        Carrier::Setup => allowed.setup,
        Carrier::Connect => allowed.connect,
        Carrier::Facility => allowed.facility,
        Carrier::ReleaseComplete => allowed.releaseComplete,
        Carrier::Alerting => allowed.alerting,
    }
}

// Whether a type may be received in a carrier, for a record with a connection choice.
#[tactic(auto, unfolding(crate::specs::Carriers::carrier_fits))]
pub fn carrier_fits(body: Body, connection: Connection, carrier: Carrier) -> bool
    ensures { result ≡ carrier_fits body connection carrier }
{
    takes_carrier(allowed_for(body, connection), carrier)
}

fn cancel_in(connection: Connection) -> Carrier
    ensures { result ≡ cancel_in connection }
{
    match connection {
        Connection::Rls => Carrier::Setup,
        Connection::Empty | Connection::Ret => Carrier::ReleaseComplete,
    }
}

// The connection choice by whose carriers a record sends: once its retained connection fell, by those of RLS.
pub fn sends_as(connection: Connection, down: bool) -> Connection
    ensures { result ≡ sends_as connection down }
{
    match connection {
        Connection::Ret if down => Connection::Rls,
        _ => connection,
    }
}

// The carrier that a type is sent in, for a record with a connection choice.
pub fn sent_in(body: Body, connection: Connection) -> Carrier
    ensures { result ≡ sent_in body connection }
{
    match body {
        Body::CcbsRequest { .. } => Carrier::Setup,
        Body::CcnrRequest { .. } => Carrier::Setup,
        Body::RequestResult { .. } => by_connection(
            connection,
            Carrier::Connect,
            Carrier::ReleaseComplete,
        ),
        Body::RequestError { .. } => Carrier::ReleaseComplete,
        Body::CcExecPossible => by_connection(connection, Carrier::Facility, Carrier::Setup),
        Body::CcRingout => Carrier::Setup,
        Body::RingoutError { .. } => Carrier::ReleaseComplete,
        Body::CcSuspend => by_connection(connection, Carrier::Facility, Carrier::ReleaseComplete),
        Body::CcResume => by_connection(connection, Carrier::Facility, Carrier::Setup),
        Body::CcCancel => cancel_in(connection),
        Body::CallAlerts => Carrier::Alerting,
        Body::CallFailed => Carrier::ReleaseComplete,
    }
}
