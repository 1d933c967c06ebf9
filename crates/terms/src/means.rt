// Which record a message means, where it is found by its numbers and its service: the test of one record, read from its words.
ghost use Rattle.std.specs.Prelude.{◌≡◌};
ghost use Rattle.terms.specs.Terms.{terms_at};
ghost use Rattle.terms.specs.Means.{given, agree, service_agrees, not_both, fits, found_means};

use crate::request::Names;
use crate::{identifier_at, number_a_at, number_b_at, service_at};
use lists::words::Words;

// Which record is meant: none; the one at a place; or none now: some fit, and none is in a state that the message is for.
#[derive(Clone, Copy)]
pub enum Means {
    Nothing,
    NotNow,
    At(usize),
}

// A number that is not withheld.
#[tactic(auto, unfolding(lists::specs::Words::same_words))]
pub fn is_given(number: Words) -> bool
    ensures { result ≡ given number }
{
    number != Words { low: 0, high: 0 }
}

// Whether two numbers are equal where both are given.
#[tactic(auto, unfolding(lists::specs::Words::same_words))]
fn numbers_agree(a: Words, b: Words) -> bool
    ensures { result ≡ agree a b }
{
    if is_given(a) && is_given(b) {
        a == b
    } else {
        true
    }
}

// Whether a service, where it is there, is the record's.
fn service_agrees(service: Option<u64>, own: u64) -> bool
    ensures { result ≡ service_agrees service own }
{
    service.is_none_or(|value| value == own)
}

// Whether not both have an identifier.
fn not_both(a: Option<Words>, b: Option<Words>) -> bool
    ensures { result ≡ not_both a b }
{
    a.is_none() || b.is_none()
}

// Whether the terms at the front of some words fit whom a message names. No more words are read than it takes to tell.
#[tactic(auto, unfolding(crate::specs::Means::fits))]
pub fn fits_at(row: &[u64], names: Names) -> bool
    ensures { result ≡ fits names (terms_at row.now) }
{
    not_both(names.identifier, identifier_at(row))
        && numbers_agree(names.numberB, number_b_at(row))
        && service_agrees(names.service, service_at(row))
        && numbers_agree(names.numberA, number_a_at(row))
}

// What was found is meant.
pub fn found_means(found: Option<usize>) -> Means
    ensures { result ≡ found_means found }
{
    match found {
        Some(i) => Means::At(i),
        None => Means::Nothing,
    }
}
