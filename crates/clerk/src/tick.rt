// One turn of a tick on the desk's words, lent: what it sends, and what it does. A timer that runs out in a tick is known to have its row in the record's state, and the three rows do
// the same: so a turn does not decide, plan and apply as a step does. A second caller of the plan would keep it from being compiled into the one step, which every message goes
// through. An inner room of the clerk's desk: its functions are no public operations.
ghost use Rattle.std.specs.Prelude.{◌≡◌, ℕ, get_or, Some};
ghost use Rattle.message.specs.declared.Body.TheVariants.{CcCancel};
ghost use Rattle.desk.specs.Carriers.{sends_as};
ghost use Rattle.desk.specs.Sends.{sent};
ghost use Rattle.terms.specs.Terms.{elements_of};
ghost use Rattle.clerk_table.specs.Inputs.{row_of_timer};
ghost use Rattle.clerk_table.specs.Step.{row_taken};
ghost use Rattle.clerk_table.specs.declared.table.Timer.{Timer};
ghost use Rattle.clerk_records.specs.Records.{blank, records};
ghost use Rattle.desk.specs.Steps.{answered};
ghost use Rattle.clerk.specs.Steps.{desk_of, made};

use clerk_records::WORDS;
use clerk_records::places::{load, remove};
use clerk_table::record::Record;
use clerk_table::step::timers_running;
use desk::letter::Letter;
use desk::outcome::{NO_TIMERS, Notice, Outcome};
use message::Body;
use terms::sent_on;

// A record's ccCancel: for the room that a tick wants, and for what it sends.
fn cancel_of(r: Record) -> Option<Letter>
    ensures { result ≡ sent (Some CcCancel) (elements_of r.terms) (sends_as r.terms.connection r.down) }
{
    let terms = r.terms;
    sent_on(terms, r.down, Some(Body::CcCancel))
}

// What the row of each timer sends for the record at a place.
pub fn sending_of(words: &[u64; WORDS], at: usize) -> Option<Letter>
    ensures { (timer : Timer) → result ≡ (row_taken at (get_or (records words.now) at blank) (row_of_timer timer)).outcome.sending }
{
    cancel_of(load(words, at))
}

// The row of each timer taken for the record at a place: it goes, and no deadline is put, whatever the count.
pub fn expire(words: &mut [u64; WORDS], at: usize) -> Outcome
    ensures { (count : ℕ) (timer : Timer) → answered (desk_of words.new) result ≡ made (desk_of words.old) count (row_taken at (get_or (records words.old) at blank) (row_of_timer timer)) }
{
    let r = load(words, at);
    let state = r.state;
    let sending = cancel_of(r);
    let stops = timers_running(state);
    remove(words, at);
    Outcome {
        refusal: None,
        sending,
        starts: NO_TIMERS,
        stops,
        notice: Notice::Failed,
        clear: false,
        at: Some(at),
    }
}
