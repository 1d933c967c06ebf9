// One turn of a tick on the desk's words, lent: what it sends, and what it does. A guard that is due is known to have its row in the record's state: so a turn does not decide, plan and
// apply as a step does. A second caller of the plan would keep it from being compiled into the one step, which every message goes through. An inner room of the line desk: its functions
// are no public operations.
ghost use Rattle.std.specs.Prelude.{◌≡◌, ℕ, get_or};
ghost use Rattle.line_table.specs.Step.{row_taken};
ghost use Rattle.line_table.specs.declared.table.Row.TheVariants.{GuardRunsOut};
ghost use Rattle.line_records.specs.Records.{blank, records};
ghost use Rattle.desk.specs.Steps.{answered};
ghost use Rattle.line.specs.Steps.{desk_of, made};

use desk::letter::Letter;
use desk::outcome::{NO_TIMERS, Outcome, done};
use line_records::WORDS;
use line_records::places::{load, remove_record};
use line_table::record::Record;
use line_table::step::only_guard;
use message::Body;
use terms::sent_on;

// What the guard's row sends for the record at a place.
#[tactic(auto, unfolding(line_table::specs::Step::row_taken))]
pub fn sending_of(words: &[u64; WORDS], at: usize) -> Option<Letter>
    ensures { result ≡ (row_taken at (get_or (records words.now) at blank) GuardRunsOut).outcome.sending }
{
    let r = load(words, at);
    let terms = r.terms;
    sent_on(terms, r.down, Some(Body::CcCancel))
}

// The guard's row taken for the record at a place: it goes, and no deadline is put, whatever the count.
pub fn expire(words: &mut [u64; WORDS], at: usize) -> Outcome
    ensures { (count : ℕ) → answered (desk_of words.new) result ≡ made (desk_of words.old) count (row_taken at (get_or (records words.old) at blank) GuardRunsOut) }
{
    let sending = sending_of(words, at);
    let stops = only_guard();
    remove_record(words, at);
    done(sending, NO_TIMERS, stops, Some(at))
}
