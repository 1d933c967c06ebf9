// A tick of the clerk's desk: the reports of the timers that are due, from the oldest record on.
ghost use Rattle.std.specs.Prelude.{◌≡◌};
ghost use Rattle.std.proofs.Common.{rules};
ghost use Rattle.told.specs.Face.{face};
ghost use Rattle.clerk_records.specs.Layout.{places};
ghost use Rattle.ticks.specs.Clerk.{clerk_ticked, clerk_reported};

use crate::ticking::{Ticking, tick};
use clerk::tick::{expire, sending_of};
use clerk_records::deadlines::expiring_at;
use clerk_records::{PLACES, WORDS};
use desk::letter::Letter;
use desk::outcome::Outcome;
use told::ticking::TOLD;

impl Ticking for [u64; WORDS] {
    const PLACES: usize = PLACES;

    ghost PLACES = { places };

    ghost words = { λ words. words };

    ghost reported = { clerk_reported };

    ghost few = { Prim.search rules };

    fn is_expiring(&self, i: usize, count: u32) -> bool {
        expiring_at(self, i, count).is_some()
    }

    fn sending(&self, i: usize) -> Option<Letter> {
        sending_of(self, i)
    }

    fn expire(&mut self, i: usize) -> Outcome {
        expire(self, i)
    }
}

// A tick: the refusal's number, and then nothing changes, or 0.
pub fn clerk_tick(
    words: &mut [u64; WORDS],
    count: u32,
    out: &mut [u8],
    told: &mut [u64; TOLD],
) -> u64
    ensures { face words.new out.new told.new result ≡ clerk_ticked words.old count out.old }
{
    tick(words, count, out, told)
}
