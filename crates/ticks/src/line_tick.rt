// A tick of the line desk: the reports of the guards that are due, from the oldest record on.
ghost use Rattle.std.specs.Prelude.{◌≡◌};
ghost use Rattle.std.proofs.Common.{rules};
ghost use Rattle.told.specs.Face.{face};
ghost use Rattle.line_records.specs.Layout.{places};
ghost use Rattle.ticks.specs.Line.{line_ticked, line_reported};

use crate::ticking::{Ticking, tick};
use desk::letter::Letter;
use desk::outcome::Outcome;
use line::tick::{expire, sending_of};
use line_records::deadlines::is_expiring;
use line_records::{PLACES, WORDS};
use told::ticking::TOLD;

impl Ticking for [u64; WORDS] {
    const PLACES: usize = PLACES;

    ghost PLACES = { places };

    ghost words = { λ words. words };

    ghost reported = { line_reported };

    ghost few = { Prim.search rules };

    fn is_expiring(&self, i: usize, count: u32) -> bool {
        is_expiring(self, i, count)
    }

    fn sending(&self, i: usize) -> Option<Letter> {
        sending_of(self, i)
    }

    fn expire(&mut self, i: usize) -> Outcome {
        expire(self, i)
    }
}

// A tick: the refusal's number, and then nothing changes, or 0.
pub fn line_tick(
    words: &mut [u64; WORDS],
    count: u32,
    out: &mut [u8],
    told: &mut [u64; TOLD],
) -> u64
    ensures { face words.new out.new told.new result ≡ line_ticked words.old count out.old }
{
    tick(words, count, out, told)
}
