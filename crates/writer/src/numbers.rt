// Types and carriers by document 01's numbers. An inner room of the writer and of the library's face: its functions are no public operations.
ghost use Rattle.std.specs.Prelude.{◌≡◌};
ghost use Rattle.message.specs.Format.{typeNumber, carrier_number};

use message::{Body, Carrier};

// A type by its number in document 01.
pub fn type_number(body: Body) -> u8
    ensures { result ≡ typeNumber body }
{
    match body {
        Body::CcbsRequest {
            service: _,
            flags: _,
        } => 1,
        Body::CcnrRequest {
            service: _,
            flags: _,
        } => 2,
        Body::RequestResult { keep: _ } => 3,
        Body::RequestError { error: _ } => 4,
        Body::CcExecPossible => 5,
        Body::CcRingout => 6,
        Body::RingoutError { error: _ } => 7,
        Body::CcSuspend => 8,
        Body::CcResume => 9,
        Body::CcCancel => 10,
        Body::CallAlerts => 11,
        Body::CallFailed => 12,
    }
}

// A carrier by its number.
pub fn carrier_number(carrier: Carrier) -> u8
    ensures { result ≡ carrier_number carrier }
{
    match carrier {
        Carrier::Setup => 1,
        Carrier::Connect => 2,
        Carrier::Facility => 3,
        Carrier::ReleaseComplete => 4,
        Carrier::Alerting => 5,
    }
}
