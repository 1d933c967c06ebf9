// The clerk's desk for hosts: each call lends the desk's words, gives an input and is answered with the refusal's number or 0.
ghost use Rattle.std.specs.Prelude.{◌≡◌};
ghost use Rattle.told.specs.Face.{face};
ghost use Rattle.ticks.specs.Clerk.{clerk_ticked};
ghost use Rattle.tollherring.specs.Clerk.{clerk_started_words, clerk_started_answer, clerk_entered, clerk_asked, clerk_received, clerk_acted, clerk_reported};

use crate::clerk_step::step_in;
use clerk::start::{Lengths, start};
use clerk_records::WORDS;
use host_numbers::given::{ask_given, clerk_act_given, clerk_bytes_given, timer_given};
use host_numbers::identifiers::BYTES;
use ticks::clerk_tick::clerk_tick;
use told::{TOLD, refusal_told, refuse, ticking};

// An empty desk, with the lengths of its timers in seconds: 2, and then the words stay as they were.
#[tactic(auto, unfolding(crate::specs::Clerk::clerk_started_words, crate::specs::Clerk::clerk_started_answer))]
pub fn tollherring_clerk_start(
    words: &mut [u64; WORDS],
    t1: u32,
    t2Ccbs: u32,
    t2Ccnr: u32,
    t3: u32,
) -> u64
    ensures { (result ≡ clerk_started_answer t1 t2Ccbs t2Ccnr t3) × (words.new ≡ clerk_started_words words.old t1 t2Ccbs t2Ccnr t3) }
{
    let step = start(Lengths {
        t1,
        t2Ccbs,
        t2Ccnr,
        t3,
    });
    let outcome = step.outcome;
    match outcome.refusal {
        None => {
            let d = step.desk;
            let made = d.words;
            *words = made;
            0
        }
        Some(_) => refusal_told(outcome.refusal),
    }
}

// User A asks to be rung back: 2, 4, 5, 12.
#[tactic(auto, unfolding(crate::specs::Clerk::clerk_asked, crate::specs::Clerk::clerk_entered))]
pub fn tollherring_clerk_ask(
    words: &mut [u64; WORDS],
    count: u32,
    identifier: &[u8; BYTES],
    kind: u64,
    numberA: &[u8; 16],
    numberB: &[u8; 16],
    service: u64,
    canKeep: u64,
    preference: u64,
    out: &mut [u8],
    told: &mut [u64; TOLD],
) -> u64
    ensures { face words.new out.new told.new result ≡ clerk_asked words.old count out.old identifier.now kind numberA.now numberB.now service canKeep preference }
{
    let entry = ask_given(
        *identifier,
        kind,
        *numberA,
        *numberB,
        service,
        canKeep,
        preference,
    );
    match entry {
        Err(refusal) => refuse(told, refusal, None),
        Ok(input) => step_in(words, count, input, 0, out, told),
    }
}

// Bytes reach the clerk's end: 1, 2, 3, 6, 7, 8, 12. Bytes that cannot be read have the place of the fault.
#[tactic(auto, unfolding(crate::specs::Clerk::clerk_received, crate::specs::Clerk::clerk_entered))]
pub fn tollherring_clerk_receive(
    words: &mut [u64; WORDS],
    count: u32,
    place: u64,
    bytes: &[u8],
    busy: u64,
    out: &mut [u8],
    told: &mut [u64; TOLD],
) -> u64
    ensures { face words.new out.new told.new result ≡ clerk_received words.old count out.old place bytes.now busy }
{
    let read = clerk_bytes_given(bytes, busy, place);
    let entry = read.entry;
    let fault = read.fault;
    match entry {
        Err(refusal) => refuse(told, refusal, fault),
        Ok(input) => step_in(words, count, input, read.next, out, told),
    }
}

// User A's act: 2, 6, 7, 12.
#[tactic(auto, unfolding(crate::specs::Clerk::clerk_acted, crate::specs::Clerk::clerk_entered))]
pub fn tollherring_clerk_act(
    words: &mut [u64; WORDS],
    count: u32,
    place: u64,
    identifier: &[u8; BYTES],
    act: u64,
    out: &mut [u8],
    told: &mut [u64; TOLD],
) -> u64
    ensures { face words.new out.new told.new result ≡ clerk_acted words.old count out.old place identifier.now act }
{
    let entry = clerk_act_given(*identifier, place, act);
    match entry {
        Err(refusal) => refuse(told, refusal, None),
        Ok(input) => step_in(words, count, input, 0, out, told),
    }
}

// A timer ran out at the clerk's end: 2, 6, 9, 12.
#[tactic(auto, unfolding(crate::specs::Clerk::clerk_reported, crate::specs::Clerk::clerk_entered))]
pub fn tollherring_clerk_report(
    words: &mut [u64; WORDS],
    count: u32,
    place: u64,
    identifier: &[u8; BYTES],
    timer: u64,
    out: &mut [u8],
    told: &mut [u64; TOLD],
) -> u64
    ensures { face words.new out.new told.new result ≡ clerk_reported words.old count out.old place identifier.now timer }
{
    let entry = timer_given(*identifier, place, timer);
    match entry {
        Err(refusal) => refuse(told, refusal, None),
        Ok(input) => step_in(words, count, input, 0, out, told),
    }
}

// Every record with a timer that is due expires: 12, and then nothing changes.
pub fn tollherring_clerk_tick(
    words: &mut [u64; WORDS],
    count: u32,
    out: &mut [u8],
    told: &mut [u64; ticking::TOLD],
) -> u64
    ensures { face words.new out.new told.new result ≡ clerk_ticked words.old count out.old }
{
    clerk_tick(words, count, out, told)
}
