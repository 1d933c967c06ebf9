// Words and what they stand for, in the records of both desks. A word that is no code reads as the first case.
ghost use Rattle.std.specs.Prelude.{◌≡◌};
ghost use Rattle.terms.specs.Codes.{kind_of, kind_code, keep_of, keep_code, connection_of, connection_code, flag_code};

use desk::{Connection, Keep};
use message::Kind;

#[tactic(auto, unfolding(crate::specs::Codes::kind_of))]
pub fn kind_of(code: u64) -> Kind
    ensures { result ≡ kind_of code }
{
    match code {
        2 => Kind::Ccnr,
        _ => Kind::Ccbs,
    }
}

pub fn kind_code(kind: Kind) -> u64
    ensures { result ≡ kind_code kind }
{
    match kind {
        Kind::Ccbs => 1,
        Kind::Ccnr => 2,
    }
}

#[tactic(auto, unfolding(crate::specs::Codes::keep_of))]
pub fn keep_of(code: u64) -> Keep
    ensures { result ≡ keep_of code }
{
    match code {
        1 => Keep::Ends,
        2 => Keep::Keeps,
        _ => Keep::Empty,
    }
}

pub fn keep_code(keep: Keep) -> u64
    ensures { result ≡ keep_code keep }
{
    match keep {
        Keep::Empty => 0,
        Keep::Ends => 1,
        Keep::Keeps => 2,
    }
}

#[tactic(auto, unfolding(crate::specs::Codes::connection_of))]
pub fn connection_of(code: u64) -> Connection
    ensures { result ≡ connection_of code }
{
    match code {
        1 => Connection::Ret,
        2 => Connection::Rls,
        _ => Connection::Empty,
    }
}

pub fn connection_code(connection: Connection) -> u64
    ensures { result ≡ connection_code connection }
{
    match connection {
        Connection::Empty => 0,
        Connection::Ret => 1,
        Connection::Rls => 2,
    }
}

pub fn flag_code(flag: bool) -> u64
    ensures { result ≡ flag_code flag }
{
    if flag {
        return 1;
    }
    0
}
