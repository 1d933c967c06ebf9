// What a desk holds, for C: each export is the operation of `tollherring` that has its name, and promises what that promises.
ghost use Rattle.std.specs.Prelude.{◌≡◌};
ghost use Rattle.tollherring.specs.Shown.{shown, clerk_shown, line_shown, line_at_shown, shown_line};

use host_numbers::identifiers::BYTES;
use host_numbers::shown::NUMBERS;

// The record at a place of the clerk's desk: 6 if there is none.
#[unsafe(no_mangle)]
pub extern "C" fn tollherring_clerk_record(
    words: &[u64; clerk_records::WORDS],
    place: u64,
    identifier: &mut [u8; BYTES],
    numberA: &mut [u8; 16],
    numberB: &mut [u8; 16],
    numbers: &mut [u64; NUMBERS],
) -> u64
    ensures { shown identifier.new numberA.new numberB.new numbers.new result ≡ clerk_shown words.now place identifier.old numberA.old numberB.old numbers.old }
{
    tollherring::shown::tollherring_clerk_record(
        words, place, identifier, numberA, numberB, numbers,
    )
}

// The record at a place of the line desk: 6 if there is none.
#[unsafe(no_mangle)]
pub extern "C" fn tollherring_line_record(
    words: &[u64; line_records::WORDS],
    place: u64,
    identifier: &mut [u8; BYTES],
    numberA: &mut [u8; 16],
    numberB: &mut [u8; 16],
    numbers: &mut [u64; NUMBERS],
) -> u64
    ensures { shown identifier.new numberA.new numberB.new numbers.new result ≡ line_shown words.now place identifier.old numberA.old numberB.old numbers.old }
{
    tollherring::shown::tollherring_line_record(words, place, identifier, numberA, numberB, numbers)
}

// The line at a place, its kinds and whether it is busy: 10 if there is none.
#[unsafe(no_mangle)]
pub extern "C" fn tollherring_line_at(
    words: &[u64; line_records::WORDS],
    place: u64,
    number: &mut [u8; 16],
    status: &mut [u64; 2],
) -> u64
    ensures { shown_line number.new status.new result ≡ line_at_shown words.now place number.old status.old }
{
    tollherring::shown::tollherring_line_at(words, place, number, status)
}
