// The line desk, for C: each export is the operation of `tollherring` that has its name, and promises what that promises.
ghost use Rattle.std.specs.Prelude.{◌≡◌};
ghost use Rattle.told.specs.Face.{face};
ghost use Rattle.ticks.specs.Line.{line_ticked};
ghost use Rattle.tollherring.specs.Line.{line_started_words, line_started_answer, line_received, line_status_reported, line_looked, line_acted, line_guarded};

use host_numbers::identifiers::BYTES;
use line_records::WORDS;
use told::{TOLD, ticking};

// A desk with its lines, all free, and its settings: 2, and then the words stay as they were.
#[unsafe(no_mangle)]
pub extern "C" fn tollherring_line_start(
    words: &mut [u64; WORDS],
    given: &[u8],
    keep: u64,
    retain: u64,
) -> u64
    ensures { (result ≡ line_started_answer given.now keep retain) × (words.new ≡ line_started_words words.old given.now keep retain) }
{
    tollherring::line_face::tollherring_line_start(words, given, keep, retain)
}

// Bytes reach the line's end: 1, 2, 3, 6, 7, 8, 12. Bytes that cannot be read have the place of the fault.
#[unsafe(no_mangle)]
pub extern "C" fn tollherring_line_receive(
    words: &mut [u64; WORDS],
    count: u32,
    place: u64,
    bytes: &[u8],
    out: &mut [u8],
    told: &mut [u64; TOLD],
) -> u64
    ensures { face words.new out.new told.new result ≡ line_received words.old count out.old place bytes.now }
{
    tollherring::line_face::tollherring_line_receive(words, count, place, bytes, out, told)
}

// A line is busy or free: 2, 10.
#[unsafe(no_mangle)]
pub extern "C" fn tollherring_line_report(
    words: &mut [u64; WORDS],
    count: u32,
    digits: &[u8; 16],
    busy: u64,
    out: &mut [u8],
    told: &mut [u64; TOLD],
) -> u64
    ensures { face words.new out.new told.new result ≡ line_status_reported words.old count out.old digits.now busy }
{
    tollherring::line_face::tollherring_line_report(words, count, digits, busy, out, told)
}

// A Look at a line: 10, 11, 12.
#[unsafe(no_mangle)]
pub extern "C" fn tollherring_line_look(
    words: &mut [u64; WORDS],
    count: u32,
    digits: &[u8; 16],
    out: &mut [u8],
    told: &mut [u64; TOLD],
) -> u64
    ensures { face words.new out.new told.new result ≡ line_looked words.old count out.old digits.now }
{
    tollherring::line_face::tollherring_line_look(words, count, digits, out, told)
}

// An act at the line's end: 2, 6, 7, 12.
#[unsafe(no_mangle)]
pub extern "C" fn tollherring_line_act(
    words: &mut [u64; WORDS],
    count: u32,
    place: u64,
    identifier: &[u8; BYTES],
    act: u64,
    out: &mut [u8],
    told: &mut [u64; TOLD],
) -> u64
    ensures { face words.new out.new told.new result ≡ line_acted words.old count out.old place identifier.now act }
{
    tollherring::line_face::tollherring_line_act(words, count, place, identifier, act, out, told)
}

// The guard of a record ran out: 2, 6, 12.
#[unsafe(no_mangle)]
pub extern "C" fn tollherring_line_guard(
    words: &mut [u64; WORDS],
    count: u32,
    place: u64,
    identifier: &[u8; BYTES],
    out: &mut [u8],
    told: &mut [u64; TOLD],
) -> u64
    ensures { face words.new out.new told.new result ≡ line_guarded words.old count out.old place identifier.now }
{
    tollherring::line_face::tollherring_line_guard(words, count, place, identifier, out, told)
}

// Every record whose guard is due expires: 12, and then nothing changes.
#[unsafe(no_mangle)]
pub extern "C" fn tollherring_line_tick(
    words: &mut [u64; WORDS],
    count: u32,
    out: &mut [u8],
    told: &mut [u64; ticking::TOLD],
) -> u64
    ensures { face words.new out.new told.new result ≡ line_ticked words.old count out.old }
{
    tollherring::line_face::tollherring_line_tick(words, count, out, told)
}
