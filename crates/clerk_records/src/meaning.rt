// Which record is meant, in words that the caller lends: by the identifier, by the elements of a message in Setup, or by the place that the host names. The identifier is
// looked for first; no other search is made where it is found.
ghost use Rattle.std.specs.Prelude.{◌≡◌};
ghost use Rattle.lists.specs.Choice.{pick};
ghost use Rattle.message.specs.Format.{has_elements};
ghost use Rattle.clerk_records.specs.Records.{records};
ghost use Rattle.clerk_records.specs.Meaning.{identifier_means, states_for, elements_mean, place_means, otherwise, meant_by};

use crate::{LAST_STATE, PLACES, WIDTH, WORDS};
use clerk_table::inputs::{Input, names_of};
use clerk_table::table::{State, state_code};
use desk::letter::Letter;
use lists::words::Words;
use message::{Body, has_elements};
use store::For;
use terms::means::Means;
use terms::request::letter_names;

// The state that a message is for: type 5 Invoked, 10 every state. Types 6 and 9 are for the line's end.
fn states_for(body: Body) -> For
    ensures { result ≡ states_for body }
{
    match body {
        Body::CcbsRequest {
            service: _,
            flags: _,
        } => For::Every,
        Body::CcnrRequest {
            service: _,
            flags: _,
        } => For::Every,
        Body::RequestResult { keep: _ } => For::Every,
        Body::RequestError { error: _ } => For::Every,
        Body::CcExecPossible => For::State(state_code(State::Invoked)),
        Body::CcRingout => For::Every,
        Body::RingoutError { error: _ } => For::Every,
        Body::CcSuspend => For::Every,
        Body::CcResume => For::Every,
        Body::CcCancel => For::Every,
        Body::CallAlerts => For::Every,
        Body::CallFailed => For::Every,
    }
}

// (a) The record in use with that identifier.
fn find_identified(words: &[u64; WORDS], identifier: Option<Words>) -> Option<usize>
    ensures { result ≡ identifier_means identifier (records words.now) }
{
    match identifier {
        None => None,
        Some(id) => store::find::<WIDTH, PLACES>(words, id, LAST_STATE),
    }
}

// (b) The oldest record that fits the message's elements, in a state that it is for.
fn find_fitting(words: &[u64; WORDS], l: Letter) -> Means
    ensures { result ≡ elements_mean l (records words.now) }
{
    let body = l.body;
    let names = letter_names(l);
    let states = states_for(body);
    store::find_fitting::<WIDTH, PLACES>(words, names, LAST_STATE, states)
}

// (c) Without an identifier, the record at the named place.
fn find_placed(words: &[u64; WORDS], identifier: Option<Words>, place: usize) -> Means
    ensures { result ≡ place_means identifier place (records words.now) }
{
    match identifier {
        None => {
            if store::is_live_at::<WIDTH, PLACES>(words, place, LAST_STATE) {
                return Means::At(place);
            }
            Means::Nothing
        }
        Some(_) => Means::Nothing,
    }
}

// Where no record has the message's identifier.
fn find_heard(words: &[u64; WORDS], l: Letter, place: usize) -> Means
    ensures { result ≡ pick (has_elements l.body l.carrier) (elements_mean l (records words.now)) (place_means l.identifier place (records words.now)) }
{
    let body = l.body;
    let carrier = l.carrier;
    if has_elements(body, carrier) {
        return find_fitting(words, l);
    }
    let identifier = l.identifier;
    find_placed(words, identifier, place)
}

// Where no record has the identifier that an input names, or it names none.
fn find_otherwise(words: &[u64; WORDS], input: Input) -> Means
    ensures { result ≡ otherwise input (records words.now) }
{
    match input {
        Input::Ask(_, _) => Means::Nothing,
        Input::Message(l, _, place) => find_heard(words, l, place),
        Input::Act(name, _) => {
            let identifier = name.identifier;
            find_placed(words, identifier, name.place)
        }
        Input::Timer(name, _) => {
            let identifier = name.identifier;
            find_placed(words, identifier, name.place)
        }
    }
}

// The record that an input is about. There is one search by the identifier, whatever the input, so that it stands in the one step of the desk.
#[tactic(auto, unfolding(crate::specs::Meaning::meant_by))]
pub fn find_meant(words: &[u64; WORDS], input: Input) -> Means
    ensures { result ≡ meant_by input (records words.now) }
{
    let names = names_of(input);
    let identifier = names.identifier;
    match find_identified(words, identifier) {
        None => find_otherwise(words, input),
        Some(i) => Means::At(i),
    }
}
