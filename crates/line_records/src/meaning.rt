// Which record is meant, in words that the caller lends: by the identifier, by the elements of a message in Setup, or by the place that the host names. The identifier is
// looked for first; no other search is made where it is found.
ghost use Rattle.std.specs.Prelude.{◌≡◌};
ghost use Rattle.lists.specs.Choice.{pick};
ghost use Rattle.message.specs.Format.{has_elements};
ghost use Rattle.line_records.specs.Records.{records};
ghost use Rattle.line_records.specs.Meaning.{identifier_means, is_for_await, states_for, elements_mean, place_means, meaning, named};

use crate::codes::state_code;
use crate::{LAST_STATE, PLACES, WIDTH, WORDS};
use desk::letter::Letter;
use line_table::table::State;
use lists::words::Words;
use message::{Body, has_elements};
use store::For;
use terms::means::Means;
use terms::request::{Name, letter_names};

// Types 6 and 9 are for Await.
fn is_for_await(body: Body) -> bool
    ensures { result ≡ is_for_await body }
{
    match body {
        Body::CcbsRequest {
            service: _,
            flags: _,
        } => false,
        Body::CcnrRequest {
            service: _,
            flags: _,
        } => false,
        Body::RequestResult { keep: _ } => false,
        Body::RequestError { error: _ } => false,
        Body::CcExecPossible => false,
        Body::CcRingout => true,
        Body::RingoutError { error: _ } => false,
        Body::CcSuspend => false,
        Body::CcResume => true,
        Body::CcCancel => false,
        Body::CallAlerts => false,
        Body::CallFailed => false,
    }
}

// The states that a message is for: type 10 is for every state.
fn states_for(body: Body) -> For
    ensures { result ≡ states_for body }
{
    if is_for_await(body) {
        return For::State(state_code(State::Await));
    }
    For::Every
}

// (a) The record in use with that identifier.
fn find_identified(words: &[u64; WORDS], identifier: Option<Words>) -> Option<usize>
    ensures { result ≡ identifier_means identifier (records words.now) }
{
    match identifier {
        None => None,
        Some(id) => store::find::<WIDTH, PLACES>(words, id, LAST_STATE),
    }
}

// (b) The oldest record that fits the message's elements, in a state that it is for.
fn find_fitting(words: &[u64; WORDS], l: Letter) -> Means
    ensures { result ≡ elements_mean l (records words.now) }
{
    let body = l.body;
    let names = letter_names(l);
    let states = states_for(body);
    store::find_fitting::<WIDTH, PLACES>(words, names, LAST_STATE, states)
}

// (c) Without an identifier, the record at the named place.
fn find_placed(words: &[u64; WORDS], identifier: Option<Words>, place: usize) -> Means
    ensures { result ≡ place_means identifier place (records words.now) }
{
    match identifier {
        None => {
            if store::is_live_at::<WIDTH, PLACES>(words, place, LAST_STATE) {
                return Means::At(place);
            }
            Means::Nothing
        }
        Some(_) => Means::Nothing,
    }
}

// Where no record has the message's identifier.
fn find_otherwise(words: &[u64; WORDS], l: Letter, place: usize) -> Means
    ensures { result ≡ pick (has_elements l.body l.carrier) (elements_mean l (records words.now)) (place_means l.identifier place (records words.now)) }
{
    let body = l.body;
    let carrier = l.carrier;
    if has_elements(body, carrier) {
        return find_fitting(words, l);
    }
    let identifier = l.identifier;
    find_placed(words, identifier, place)
}

// The record that a message is about, with the place that the host names for it.
#[tactic(auto, unfolding(crate::specs::Meaning::meaning))]
pub fn find_meant(words: &[u64; WORDS], l: Letter, place: usize) -> Means
    ensures { result ≡ meaning l place (records words.now) }
{
    let identifier = l.identifier;
    match find_identified(words, identifier) {
        None => find_otherwise(words, l, place),
        Some(i) => Means::At(i),
    }
}

// The record that an act or the guard is about.
#[tactic(auto, unfolding(crate::specs::Meaning::named))]
pub fn find_named(words: &[u64; WORDS], name: Name) -> Means
    ensures { result ≡ named name (records words.now) }
{
    let identifier = name.identifier;
    match find_identified(words, identifier) {
        None => find_placed(words, identifier, name.place),
        Some(i) => Means::At(i),
    }
}
