// An identifier as a host gives it and is shown it, seventeen bytes: how long it is, 16 or 0, and sixteen bytes, which don't count where it is 0.
ghost use Rattle.std.specs.Prelude.{◌≡◌};
ghost use Rattle.host_numbers.specs.Identifiers.{is_identifier, is_given, bytes_given, name_given, identifier_told, identifier_shown};

use desk::letter::{identifier_of, identifier_words};
use lists::words::Words;
use terms::request::Name;

// How many bytes: a length and sixteen.
pub const BYTES: usize = 17;

// Whether the length is one that an identifier can have.
#[tactic(auto, unfolding(crate::specs::Identifiers::is_identifier))]
pub fn is_identifier(given: [u8; BYTES]) -> bool
    ensures { result ≡ is_identifier given }
{
    given[0] == 16 || given[0] == 0
}

// Whether there is one.
pub fn is_given(given: [u8; BYTES]) -> bool
    ensures { result ≡ is_given given }
{
    given[0] == 16
}

// What stands behind the length.
pub fn bytes_given(given: [u8; BYTES]) -> [u8; 16]
    ensures { result ≡ bytes_given given }
{
    let mut bytes = [0; 16];
    bytes.copy_from_slice(&given[1..]);
    bytes
}

// A request as a host names it: by its identifier, or where it has none by its record's place.
pub fn name_given(given: [u8; BYTES], place: u64) -> Name
    ensures { result ≡ name_given given place }
{
    Name {
        identifier: identifier_of(is_given(given), bytes_given(given)),
        place: place as usize,
    }
}

// The length and the bytes of an identifier; zeros where there is none.
#[tactic(auto, unfolding(crate::specs::Identifiers::identifier_told))]
pub fn identifier_told(identified: bool, bytes: [u8; 16]) -> [u8; BYTES]
    ensures { result ≡ identifier_told identified bytes }
{
    if identified {
        let mut told = [16; BYTES];
        told[1..].copy_from_slice(&bytes);
        return told;
    }
    [0; BYTES]
}

// The same of a record's.
#[tactic(auto, unfolding(crate::specs::Identifiers::identifier_shown))]
pub fn identifier_shown(identifier: Option<Words>) -> [u8; BYTES]
    ensures { result ≡ identifier_shown identifier }
{
    let bytes = <[u8; 16]>::from(identifier_words(identifier));
    identifier_told(identifier.is_some(), bytes)
}
