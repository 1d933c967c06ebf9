// A tick of a desk, from the oldest record on: written once, over what the words of the two desks differ in.
ghost use Rattle.std.specs.Prelude.{◌≡◌, None, ℕ, suc, ◌-◌, ◌≤◌, ◌<◌, List, Option, Some, is_some};
ghost use Rattle.desk.specs.declared.outcome.Stepped.{Stepped};
ghost use Rattle.told.specs.Face.{face};
ghost use Rattle.told.specs.Ticking.{end_of};
ghost use Rattle.ticks.specs.Turn.{lent_of};
ghost use Rattle.ticks.specs.Tick.{sendings_from, tick_of, tick_onwards};

use crate::{Counted, end_behind, tell_next};
use desk::letter::Letter;
use desk::outcome::Outcome;
use message::refusal::Refusal;
use told::refusal_told;
use told::ticking::TOLD;

// The words of a desk, as a tick goes over them.
pub trait Ticking {
    const PLACES: usize;

    ghost PLACES: { ℕ };

    // The words as they stand in the host's memory.
    ghost words: { Self → List ℕ };

    // What the report of the record at a place does at a count, if something is due there.
    ghost reported: { ℕ → Self → ℕ → Option (Stepped Self) };

    fn is_expiring(&self, i: usize, count: u32) -> bool
        ensures { result ≡ is_some (reported count self.now i) };

    // What the report sends.
    fn sending(&self, i: usize) -> Option<Letter>
        ensures { (count : ℕ) (r : Stepped Self) → reported count self.now i ≡ Some r → result ≡ r.outcome.sending };

    // The report done.
    fn expire(&mut self, i: usize) -> Outcome
        ensures { (count : ℕ) (r : Stepped Self) → reported count self.old i ≡ Some r → r ≡ record { desk = self.new; outcome = result } };

    // No desk has more.
    ghost few: { PLACES ≤ 32 };
}

// The first place at which something is due, or as many as there are: a tick begins there, so that one with nothing due goes through the desk once.
fn first_due<D: Ticking>(desk: &D, count: u32) -> usize
    ensures { (result ≤ D.PLACES) × ((j : ℕ) → j < result → D.reported count desk.now j ≡ None) }
{
    for i in 0..D::PLACES {
        if desk.is_expiring(i, count) {
            return i;
        }
    }
    D::PLACES
}

// Where what the record at a place sends would end, behind what ends at `end`; nothing is sent where nothing is due.
#[tactic(auto, unfolding(told::specs::Ticking::end_of, crate::specs::Tick::sendings_from))]
fn end_at<D: Ticking>(
    desk: &D,
    i: usize,
    count: u32,
    out: &[u8],
    end: usize,
) -> Result<usize, Refusal>
    ensures { result ≡ end_of out.now end (sendings_from D.reported 1 i count desk.now) }
{
    if desk.is_expiring(i, count) {
        let sending = desk.sending(i);
        return end_behind(out, end, sending);
    }
    Ok(end)
}

// Where all that a tick sends from a place on would end, or the writer's first refusal.
#[tactic(auto, unfolding(told::specs::Ticking::end_of, crate::specs::Tick::sendings_from))]
fn room<D: Ticking>(desk: &D, first: usize, count: u32, out: &[u8]) -> Result<usize, Refusal>
    ensures { result ≡ end_of out.now 0 (sendings_from D.reported (D.PLACES - first) first count desk.now) }
{
    let mut end = 0;
    for i in first..D::PLACES {
        end = end_at(desk, i, count, out, end)?;
    }
    Ok(end)
}

// The record that stood at place i before the tick, and has moved up by those that expired. What is left of the tick is the same before and after.
fn turn<D: Ticking>(
    desk: &mut D,
    i: usize,
    count: u32,
    out: &mut [u8],
    told: &mut [u64; TOLD],
    counted: Counted,
) -> Counted
    requires { (counted.expired ≤ i) × (i < D.PLACES) }
    ensures { (result.expired ≤ suc i) × ((n : ℕ) → tick_onwards D.words D.reported n (suc i) count desk.new (lent_of out.new told.new result) ≡ tick_onwards D.words D.reported (suc n) i count desk.old (lent_of out.old told.old counted)) }
{
    let at = i - counted.expired;
    if desk.is_expiring(at, count) {
        let outcome = desk.expire(at);
        let n = tell_next(out, told, counted, i, outcome);
        return Counted {
            length: counted.length + n,
            expired: counted.expired + 1,
        };
    }
    counted
}

// Every place from the first on; then how many bytes are written, and how many records expired.
fn run<D: Ticking>(desk: &mut D, first: usize, count: u32, out: &mut [u8], told: &mut [u64; TOLD])
    ensures { face (D.words desk.new) out.exit.now told.new 0 ≡ tick_onwards D.words D.reported (D.PLACES - first) first count desk.old (record { out = out.entry.now; length = 0; told = told.old; expired = 0 }) }
{
    let mut counted = Counted {
        length: 0,
        expired: 0,
    };
    for i in first..D::PLACES {
        counted = turn(desk, i, count, out, told, counted);
    }
    told[1] = counted.length as u64;
    told[2] = counted.expired as u64;
}

// A tick: the refusal's number, and then nothing changes, or 0.
#[tactic(auto, unfolding(crate::specs::Tick::tick_of, crate::specs::Tick::tick_onwards))]
pub fn tick<D: Ticking>(desk: &mut D, count: u32, out: &mut [u8], told: &mut [u64; TOLD]) -> u64
    ensures { face (D.words desk.new) out.new told.new result ≡ tick_of D.words D.reported D.PLACES count desk.old out.old }
{
    *told = [0; TOLD];
    let first = first_due(desk, count);
    match room(desk, first, count, out) {
        Err(refusal) => {
            let number = refusal_told(Some(refusal));
            told[0] = number;
            number
        }
        Ok(_) => {
            run(desk, first, count, out, told);
            0
        }
    }
}
