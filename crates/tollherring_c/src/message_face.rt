// Messages as such, for C: each export is the operation of `tollherring` that has its name, and promises what that promises.
ghost use Rattle.std.specs.Prelude.{◌≡◌};
ghost use Rattle.host_numbers.specs.Messages.{write_face};
ghost use Rattle.tollherring.specs.Messages.{read_face, message_read, message_faced};

use host_numbers::identifiers::BYTES;

// One message from the front of some bytes, and how many it takes: 1, 2, and then the place of the fault is written and nothing else.
#[unsafe(no_mangle)]
pub extern "C" fn tollherring_message_read(
    bytes: &[u8],
    identifier: &mut [u8; BYTES],
    numberA: &mut [u8; 16],
    numberB: &mut [u8; 16],
    numbers: &mut [u64; 4],
    taken: &mut u64,
    place: &mut u64,
) -> u64
    ensures { read_face identifier.new numberA.new numberB.new numbers.new taken.new place.new result ≡ message_read bytes.now (read_face identifier.old numberA.old numberB.old numbers.old taken.old) place.old }
{
    tollherring::message_face::tollherring_message_read(
        bytes, identifier, numberA, numberB, numbers, taken, place,
    )
}

// A message at a place of a buffer, and how many bytes it takes: 2, 12, and then nothing is written.
#[unsafe(no_mangle)]
pub extern "C" fn tollherring_message_write(
    identifier: &[u8; BYTES],
    numberA: &[u8; 16],
    numberB: &[u8; 16],
    numbers: &[u64; 4],
    out: &mut [u8],
    place: usize,
    written: &mut u64,
) -> u64
    ensures { write_face out.new written.new result ≡ message_faced identifier.now numberA.now numberB.now numbers.now out.old place written.old }
{
    tollherring::message_face::tollherring_message_write(
        identifier, numberA, numberB, numbers, out, place, written,
    )
}
