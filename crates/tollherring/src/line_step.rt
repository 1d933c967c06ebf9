// The one step that every call of a host comes to at the line desk: it is decided, its message is written, and only then is the change made; with no room for the message, nothing
// is done. Each decision goes its own way to the end, so that what only another has is not carried along with it. An inner room of the library's
// face: its functions are no public operations.
ghost use Rattle.std.specs.Prelude.{◌≡◌, get_or};
ghost use Rattle.desk.specs.Sends.{answered};
ghost use Rattle.line_table.specs.Record.{refused_plan};
ghost use Rattle.line_table.specs.Inputs.{names_of};
ghost use Rattle.line_table.specs.Step.{row_taken};
ghost use Rattle.line_records.specs.Records.{blank, records};
ghost use Rattle.line_records.specs.Change.{applied};
ghost use Rattle.line_plan.specs.Plan.{denied_plan, new_record, stored_plan, reported_plan};
ghost use Rattle.line.specs.Steps.{desk_of, made, step};
ghost use Rattle.told.specs.Face.{face};
ghost use Rattle.tollherring.specs.Face.{faced, WordsStay, OutStays};

use desk::sends::answer_with;
use line_plan::decide::decide;
use line_plan::{denied_plan, new_record, reported_plan, stored_plan};
use line_records::WORDS;
use line_records::change::{apply, report_line};
use line_records::deadlines::start_timers;
use line_records::places::{load, put_record};
use line_table::inputs::{Input, names_of};
use line_table::record::{Decision, refused_plan};
use line_table::step::take_row;
use line_table::table::Row;
use message::Body;
use message::refusal::Refusal;
use terms::request::Request;
use told::{TOLD, refusal_told, refuse, send, tell};

// A refusal, with its reply: whatever the desk's words are, they stay.
#[tactic(auto, unfolding(crate::specs::Face::faced))]
fn refuse_in(
    input: Input,
    refusal: Refusal,
    reply: Option<Body>,
    next: usize,
    out: &mut [u8],
    told: &mut [u64; TOLD],
) -> u64
    ensures { WordsStay out.new told.new result out.old (refused_plan refusal (answered (names_of input).identifier reply)).outcome next }
{
    let names = names_of(input);
    let identifier = names.identifier;
    let plan = refused_plan(refusal, answer_with(identifier, reply));
    let outcome = plan.outcome;
    let sending = outcome.sending;
    match send(out, 0, sending) {
        Ok(length) => {
            tell(told, outcome, length, next);
            refusal_told(outcome.refusal)
        }
        Err(refusal) => refuse(told, refusal, None),
    }
}

// A request that is not accepted: nothing is stored.
#[tactic(auto, unfolding(crate::specs::Face::faced))]
fn deny_in(input: Input, error: u8, next: usize, out: &mut [u8], told: &mut [u64; TOLD]) -> u64
    ensures { WordsStay out.new told.new result out.old (denied_plan (names_of input).identifier error).outcome next }
{
    let names = names_of(input);
    let identifier = names.identifier;
    let plan = denied_plan(identifier, error);
    let outcome = plan.outcome;
    let sending = outcome.sending;
    match send(out, 0, sending) {
        Ok(length) => {
            tell(told, outcome, length, next);
            refusal_told(outcome.refusal)
        }
        Err(refusal) => refuse(told, refusal, None),
    }
}

// A row taken for the record of a place. No row of this desk starts a timer.
#[tactic(auto, unfolding(crate::specs::Face::faced))]
fn take_in(
    words: &mut [u64; WORDS],
    place: usize,
    row: Row,
    next: usize,
    out: &mut [u8],
    told: &mut [u64; TOLD],
) -> u64
    ensures { face words.new out.new told.new result ≡ faced words.old (applied words.old (row_taken place (get_or (records words.old) place blank) row).change) out.old (row_taken place (get_or (records words.old) place blank) row).outcome next }
{
    let plan = take_row(place, load(words, place), row);
    let outcome = plan.outcome;
    let sending = outcome.sending;
    match send(out, 0, sending) {
        Ok(length) => {
            let change = plan.change;
            apply(words, change);
            tell(told, outcome, length, next);
            refusal_told(outcome.refusal)
        }
        Err(refusal) => refuse(told, refusal, None),
    }
}

// A request stored at a place, its line busy or not.
#[tactic(auto, unfolding(crate::specs::Face::faced, line_records::specs::Change::applied))]
fn store_in(
    words: &mut [u64; WORDS],
    count: u32,
    input: Input,
    place: usize,
    q: Request,
    busy: bool,
    next: usize,
    out: &mut [u8],
    told: &mut [u64; TOLD],
) -> u64
    ensures { face words.new out.new told.new result ≡ faced words.old (made (desk_of words.old) count (stored_plan place (new_record words.old (names_of input) q busy))).desk.words out.old (stored_plan place (new_record words.old (names_of input) q busy)).outcome next }
{
    let record = new_record(words, names_of(input), q, busy);
    let plan = stored_plan(place, record);
    let outcome = plan.outcome;
    let sending = outcome.sending;
    match send(out, 0, sending) {
        Ok(length) => {
            let at = outcome.at;
            let starts = outcome.starts;
            put_record(words, place, record);
            start_timers(words, count, at, starts);
            tell(told, outcome, length, next);
            refusal_told(outcome.refusal)
        }
        Err(refusal) => refuse(told, refusal, None),
    }
}

// A line reported busy or free: nothing is sent, so the buffer stays, whatever is in it.
#[tactic(auto, unfolding(crate::specs::Face::faced, line_records::specs::Change::applied, told::specs::Told::sent_written, told::specs::Told::sent_buffer))]
fn report_in(
    words: &mut [u64; WORDS],
    input: Input,
    place: usize,
    busy: bool,
    next: usize,
    told: &mut [u64; TOLD],
) -> u64
    ensures { OutStays words.new told.new result words.old (applied words.old (reported_plan place (names_of input).numberB busy).change) (reported_plan place (names_of input).numberB busy).outcome next }
{
    let names = names_of(input);
    let number = names.numberB;
    let plan = reported_plan(place, number, busy);
    let outcome = plan.outcome;
    report_line(words, place, number, busy);
    tell(told, outcome, 0, next);
    refusal_told(outcome.refusal)
}

// The step of an input; what was refused at the entry is told at once, without it.
#[tactic(auto, unfolding(line::specs::Steps::step, line_plan::specs::Plan::plan_for, line_plan::specs::Plan::plan_of, line_records::specs::Change::applied, line_records::specs::Deadlines::timed, line_table::specs::Step::row_taken))]
pub fn step_in(
    words: &mut [u64; WORDS],
    count: u32,
    input: Input,
    next: usize,
    out: &mut [u8],
    told: &mut [u64; TOLD],
) -> u64
    ensures { face words.new out.new told.new result ≡ faced words.old (step (desk_of words.old) count input).desk.words out.old (step (desk_of words.old) count input).outcome next }
{
    match decide(words, input) {
        Decision::Refuse(refusal, reply) => refuse_in(input, refusal, reply, next, out, told),
        Decision::Deny(error) => deny_in(input, error, next, out, told),
        Decision::Take(place, row) => take_in(words, place, row, next, out, told),
        Decision::Store(place, q, busy) => {
            store_in(words, count, input, place, q, busy, next, out, told)
        }
        Decision::Report(place, busy) => report_in(words, input, place, busy, next, told),
    }
}
