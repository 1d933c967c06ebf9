// The clerk's desk, for C: each export is the operation of `tollherring` that has its name, and promises what that promises.
ghost use Rattle.std.specs.Prelude.{◌≡◌};
ghost use Rattle.told.specs.Face.{face};
ghost use Rattle.ticks.specs.Clerk.{clerk_ticked};
ghost use Rattle.tollherring.specs.Clerk.{clerk_started_words, clerk_started_answer, clerk_asked, clerk_received, clerk_acted, clerk_reported};

use clerk_records::WORDS;
use host_numbers::identifiers::BYTES;
use told::{TOLD, ticking};

// An empty desk, with the lengths of its timers in seconds: 2, and then the words stay as they were.
#[unsafe(no_mangle)]
pub extern "C" fn tollherring_clerk_start(
    words: &mut [u64; WORDS],
    t1: u32,
    t2Ccbs: u32,
    t2Ccnr: u32,
    t3: u32,
) -> u64
    ensures { (result ≡ clerk_started_answer t1 t2Ccbs t2Ccnr t3) × (words.new ≡ clerk_started_words words.old t1 t2Ccbs t2Ccnr t3) }
{
    tollherring::clerk_face::tollherring_clerk_start(words, t1, t2Ccbs, t2Ccnr, t3)
}

// User A asks to be rung back: 2, 4, 5, 12.
#[unsafe(no_mangle)]
pub extern "C" fn tollherring_clerk_ask(
    words: &mut [u64; WORDS],
    count: u32,
    identifier: &[u8; BYTES],
    kind: u64,
    numberA: &[u8; 16],
    numberB: &[u8; 16],
    service: u64,
    canKeep: u64,
    preference: u64,
    out: &mut [u8],
    told: &mut [u64; TOLD],
) -> u64
    ensures { face words.new out.new told.new result ≡ clerk_asked words.old count out.old identifier.now kind numberA.now numberB.now service canKeep preference }
{
    tollherring::clerk_face::tollherring_clerk_ask(
        words, count, identifier, kind, numberA, numberB, service, canKeep, preference, out, told,
    )
}

// Bytes reach the clerk's end: 1, 2, 3, 6, 7, 8, 12. Bytes that cannot be read have the place of the fault.
#[unsafe(no_mangle)]
pub extern "C" fn tollherring_clerk_receive(
    words: &mut [u64; WORDS],
    count: u32,
    place: u64,
    bytes: &[u8],
    busy: u64,
    out: &mut [u8],
    told: &mut [u64; TOLD],
) -> u64
    ensures { face words.new out.new told.new result ≡ clerk_received words.old count out.old place bytes.now busy }
{
    tollherring::clerk_face::tollherring_clerk_receive(words, count, place, bytes, busy, out, told)
}

// User A's act: 2, 6, 7, 12.
#[unsafe(no_mangle)]
pub extern "C" fn tollherring_clerk_act(
    words: &mut [u64; WORDS],
    count: u32,
    place: u64,
    identifier: &[u8; BYTES],
    act: u64,
    out: &mut [u8],
    told: &mut [u64; TOLD],
) -> u64
    ensures { face words.new out.new told.new result ≡ clerk_acted words.old count out.old place identifier.now act }
{
    tollherring::clerk_face::tollherring_clerk_act(words, count, place, identifier, act, out, told)
}

// A timer ran out at the clerk's end: 2, 6, 9, 12.
#[unsafe(no_mangle)]
pub extern "C" fn tollherring_clerk_report(
    words: &mut [u64; WORDS],
    count: u32,
    place: u64,
    identifier: &[u8; BYTES],
    timer: u64,
    out: &mut [u8],
    told: &mut [u64; TOLD],
) -> u64
    ensures { face words.new out.new told.new result ≡ clerk_reported words.old count out.old place identifier.now timer }
{
    tollherring::clerk_face::tollherring_clerk_report(
        words, count, place, identifier, timer, out, told,
    )
}

// Every record with a timer that is due expires: 12, and then nothing changes.
#[unsafe(no_mangle)]
pub extern "C" fn tollherring_clerk_tick(
    words: &mut [u64; WORDS],
    count: u32,
    out: &mut [u8],
    told: &mut [u64; ticking::TOLD],
) -> u64
    ensures { face words.new out.new told.new result ≡ clerk_ticked words.old count out.old }
{
    tollherring::clerk_face::tollherring_clerk_tick(words, count, out, told)
}
