// A tick of either desk with a lent buffer (document 02, Ask 6). The room of all its messages is known before the first record goes: without it nothing changes. An inner room of
// the library's face and of the programs: its functions are no public operations.
#![tactic(auto)]

pub mod clerk_tick;
pub mod line_tick;
pub mod ticking;

ghost use Rattle.std.specs.Prelude.{◌≡◌, [], ◌∷◌, ◌+◌, length, leb, Ok, Err};
ghost use Rattle.lists.specs.Choice.{pick};
ghost use Rattle.message.specs.declared.refusal.Refusal.TheVariants.{NoRoom};
ghost use Rattle.desk.specs.Ticked.{expired_at};
ghost use Rattle.told.specs.Ticking.{end_of, wrote, lent_after};
ghost use Rattle.ticks.specs.Turn.{lent_of};

use desk::letter::Letter;
use desk::outcome::Outcome;
use message::refusal::Refusal;
use told::send;
use told::ticking::{TOLD, tell_expiry};

// How far a tick has come: how many bytes are written, and how many records expired.
#[derive(Clone, Copy)]
pub struct Counted {
    pub length: usize,
    pub expired: usize,
}

// No message has more bytes: type, carrier, an identifier of 17 bytes and fields of 35.
const LONGEST: usize = 54;

// Where so many bytes behind a place of the buffer end; 12 where there is no room for them.
fn end_within(out: &[u8], end: usize, n: usize) -> Result<usize, Refusal>
    ensures { result ≡ pick (leb (end + n) (length out.now)) (Ok (end + n)) (Err NoRoom) }
{
    if out.len() < end {
        return Err(Refusal::NoRoom);
    }
    if out.len() - end < n {
        return Err(Refusal::NoRoom);
    }
    Ok(end + n)
}

// Where something that is sent would end, behind what ends at a place of the buffer; or the writer's refusal. It is written aside to learn its size: were the writer's test of
// room a function that is called here too, LLVM would inline it into neither caller, and every message written would cost 30 instructions more.
#[tactic(auto, unfolding(told::specs::Ticking::end_of, told::specs::Told::sent_written))]
pub fn end_behind(out: &[u8], end: usize, sending: Option<Letter>) -> Result<usize, Refusal>
    ensures { result ≡ end_of out.now end (sending ∷ []) }
{
    match sending {
        None => Ok(end),
        Some(_) => {
            let mut aside = [0u8; LONGEST];
            let n = send(&mut aside, 0, sending)?;
            end_within(out, end, n)
        }
    }
}

fn bytes_of(written: Result<usize, Refusal>) -> usize
    ensures { result ≡ wrote written }
{
    written.unwrap_or(0)
}

// The next record that expired: its message behind those that are written, and its numbers; how many bytes its message has.
pub fn tell_next(
    out: &mut [u8],
    told: &mut [u64; TOLD],
    counted: Counted,
    place: usize,
    outcome: Outcome,
) -> usize
    ensures { record { out = out.exit.now; length = counted.length + result; told = told.new; expired = counted.expired + 1 } ≡ lent_after (lent_of out.entry.now told.old counted) (expired_at place outcome) }
{
    let sending = outcome.sending;
    let n = bytes_of(send(out, counted.length, sending));
    tell_expiry(told, counted.expired, place, outcome, n);
    n
}
