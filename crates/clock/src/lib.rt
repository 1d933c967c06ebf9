// A count of seconds that runs freely and wraps to zero at 2^32: when a timer runs out, and whether it has. An inner room of both desks: its functions are no public operations.
#![tactic(auto)]

ghost use Rattle.std.specs.Prelude.{◌≡◌, ◌%◌};
ghost use Rattle.clock.specs.Clock.{turn, deadline_of, due};

// When a timer of so many seconds that is started at a count runs out.
#[tactic(auto, unfolding(crate::specs::Clock::deadline_of))]
pub fn deadline_of(count: u32, seconds: u32) -> u32
    ensures { result ≡ deadline_of count seconds }
{
    std::num::wrapping_add_u32(count, seconds)
}

// Whether a deadline has passed: the count less the deadline, modulo 2^32, is under 2^31.
#[tactic(auto, using(crate::proofs::ClockLaws::back), unfolding(crate::specs::Clock::due))]
pub fn is_due(count: u32, deadline: u32) -> bool
    ensures { result ≡ due count deadline }
{
    std::num::wrapping_sub_u32(count, deadline) < 2147483648
}

// A word as a count: its lowest 32 bits.
pub fn count_of(word: u64) -> u32
    ensures { result ≡ word % turn }
{
    (word & 0xffffffff) as u32
}
