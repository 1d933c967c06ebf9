// A step on the desk's words, lent: what stands there afterwards and the outcome are those of the step. No word is copied but those that change. An inner room of the
// line desk: its functions are no public operations.
ghost use Rattle.std.specs.Prelude.{◌≡◌};
ghost use Rattle.line.specs.Steps as Steps;
ghost use Rattle.desk.specs.Steps.{answered};
ghost use Rattle.line.specs.Steps.{desk_of, entered};

use crate::entry::Entry;
use desk::outcome::{Outcome, refused};
use line_plan::plan_for;
use line_records::WORDS;
use line_records::change::apply;
use line_records::deadlines::start_timers;
use line_table::inputs::Input;

// An input's plan, made on the lent words, with the deadline of the guard that it starts.
#[tactic(auto, unfolding(crate::specs::Steps::step))]
fn step_in(words: &mut [u64; WORDS], count: u32, input: Input) -> Outcome
    ensures { answered (desk_of words.new) result ≡ Steps.step (desk_of words.old) count input }
{
    let plan = plan_for(words, input);
    let change = plan.change;
    let outcome = plan.outcome;
    let at = outcome.at;
    let starts = outcome.starts;
    apply(words, change);
    start_timers(words, count, at, starts);
    outcome
}

// A step: what the entry refused is told, and changes nothing.
#[tactic(auto, unfolding(crate::specs::Steps::entered))]
pub fn step(words: &mut [u64; WORDS], count: u32, entry: Entry) -> Outcome
    ensures { answered (desk_of words.new) result ≡ entered (desk_of words.old) count entry }
{
    match entry {
        Err(refusal) => refused(refusal, None),
        Ok(input) => step_in(words, count, input),
    }
}
