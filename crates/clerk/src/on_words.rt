// A step on the desk's words, lent: what stands there afterwards and the outcome are those of the step. No word is copied but those that change. An inner room of the
// clerk's desk: its functions are no public operations.
ghost use Rattle.std.specs.Prelude.{◌≡◌};
ghost use Rattle.desk.specs.Steps.{answered};
ghost use Rattle.clerk.specs.Steps.{desk_of, step, entered};

use crate::entry::Entry;
use clerk_plan::plan_for;
use clerk_records::WORDS;
use clerk_records::deadlines::start_timers;
use clerk_records::places::apply;
use clerk_table::inputs::Input;
use desk::outcome::{Outcome, refused};

// An input: what the desk plans for it, made on the words, with the deadlines of the timers that it starts.
#[tactic(auto, unfolding(crate::specs::Steps::step))]
fn step_input(words: &mut [u64; WORDS], count: u32, input: Input) -> Outcome
    ensures { answered (desk_of words.new) result ≡ step (desk_of words.old) count input }
{
    let plan = plan_for(words, input);
    let change = plan.change;
    let outcome = plan.outcome;
    let at = outcome.at;
    let starts = outcome.starts;
    apply(words, change);
    start_timers(words, count, at, starts);
    outcome
}

// What came in: a refusal at the entry changes nothing.
#[tactic(auto, unfolding(crate::specs::Steps::entered))]
pub fn step(words: &mut [u64; WORDS], count: u32, entry: Entry) -> Outcome
    ensures { answered (desk_of words.new) result ≡ entered (desk_of words.old) count entry }
{
    match entry {
        Err(refusal) => refused(refusal, None),
        Ok(input) => step_input(words, count, input),
    }
}
