// The one step that every call of a host comes to at the clerk's desk: it is decided, its message is written, and only then is the change made; with no room for the message, nothing
// is done. Each decision goes its own way to the end, so that what only another has is not carried along with it. An inner room of the library's
// face: its functions are no public operations.
ghost use Rattle.std.specs.Prelude.{◌≡◌};
ghost use Rattle.desk.specs.Sends.{answered};
ghost use Rattle.clerk_table.specs.Record.{refused_plan};
ghost use Rattle.clerk_table.specs.Inputs.{names_of};
ghost use Rattle.clerk_records.specs.Records.{records};
ghost use Rattle.clerk_plan.specs.Plan.{taken_plan, stored_plan};
ghost use Rattle.clerk.specs.Steps.{desk_of, made, step};
ghost use Rattle.told.specs.Face.{face};
ghost use Rattle.tollherring.specs.Face.{faced, WordsStay};

use clerk_plan::{decide, new_record, plan_refused, plan_stored, plan_taken};
use clerk_records::WORDS;
use clerk_records::deadlines::start_timers;
use clerk_records::places::{apply, put};
use clerk_table::inputs::{Input, names_of};
use clerk_table::record::Decision;
use clerk_table::table::Row;
use message::Body;
use message::refusal::Refusal;
use terms::request::Request;
use told::{TOLD, refusal_told, refuse, send, tell};

// A refusal, with its reply: whatever the desk's words are, they stay.
#[tactic(auto, unfolding(crate::specs::Face::faced))]
fn refuse_in(
    input: Input,
    refusal: Refusal,
    reply: Option<Body>,
    next: usize,
    out: &mut [u8],
    told: &mut [u64; TOLD],
) -> u64
    ensures { WordsStay out.new told.new result out.old (refused_plan refusal (answered (names_of input).identifier reply)).outcome next }
{
    let plan = plan_refused(input, refusal, reply);
    let outcome = plan.outcome;
    let sending = outcome.sending;
    match send(out, 0, sending) {
        Ok(length) => {
            tell(told, outcome, length, next);
            refusal_told(outcome.refusal)
        }
        Err(refusal) => refuse(told, refusal, None),
    }
}

// A row taken for the record of a place.
#[tactic(auto, unfolding(crate::specs::Face::faced))]
fn take_in(
    words: &mut [u64; WORDS],
    count: u32,
    input: Input,
    place: usize,
    row: Row,
    next: usize,
    out: &mut [u8],
    told: &mut [u64; TOLD],
) -> u64
    ensures { face words.new out.new told.new result ≡ faced words.old (made (desk_of words.old) count (taken_plan (records words.old) input place row)).desk.words out.old (taken_plan (records words.old) input place row).outcome next }
{
    let plan = plan_taken(words, input, place, row);
    let outcome = plan.outcome;
    let sending = outcome.sending;
    match send(out, 0, sending) {
        Ok(length) => {
            let change = plan.change;
            let at = outcome.at;
            let starts = outcome.starts;
            apply(words, change);
            start_timers(words, count, at, starts);
            tell(told, outcome, length, next);
            refusal_told(outcome.refusal)
        }
        Err(refusal) => refuse(told, refusal, None),
    }
}

// A request stored at a place.
#[tactic(auto, unfolding(crate::specs::Face::faced))]
fn store_in(
    words: &mut [u64; WORDS],
    count: u32,
    input: Input,
    place: usize,
    q: Request,
    next: usize,
    out: &mut [u8],
    told: &mut [u64; TOLD],
) -> u64
    ensures { face words.new out.new told.new result ≡ faced words.old (made (desk_of words.old) count (stored_plan place (names_of input) q)).desk.words out.old (stored_plan place (names_of input) q).outcome next }
{
    let names = names_of(input);
    let plan = plan_stored(place, names, q);
    let outcome = plan.outcome;
    let sending = outcome.sending;
    match send(out, 0, sending) {
        Ok(length) => {
            let at = outcome.at;
            let starts = outcome.starts;
            put(words, place, new_record(names, q));
            start_timers(words, count, at, starts);
            tell(told, outcome, length, next);
            refusal_told(outcome.refusal)
        }
        Err(refusal) => refuse(told, refusal, None),
    }
}

// The step of an input; what was refused at the entry is told at once, without it.
#[tactic(auto, unfolding(clerk::specs::Steps::step, clerk_plan::specs::Plan::plan_for, clerk_plan::specs::Plan::plan_of, clerk_records::specs::Records::applied, clerk_records::specs::Deadlines::timed))]
pub fn step_in(
    words: &mut [u64; WORDS],
    count: u32,
    input: Input,
    next: usize,
    out: &mut [u8],
    told: &mut [u64; TOLD],
) -> u64
    ensures { face words.new out.new told.new result ≡ faced words.old (step (desk_of words.old) count input).desk.words out.old (step (desk_of words.old) count input).outcome next }
{
    match decide(words, input) {
        Decision::Refuse(refusal, reply) => refuse_in(input, refusal, reply, next, out, told),
        Decision::Take(place, row) => take_in(words, count, input, place, row, next, out, told),
        Decision::Store(place, q) => store_in(words, count, input, place, q, next, out, told),
    }
}
