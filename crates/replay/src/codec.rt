// Code 48: a run of bytes is read, and the message that it holds is written at a place of a buffer.
use crate::outcome_line::put_place;
use crate::output::Fields;
use crate::script::Script;
use crate::stop::Stop;
use message::refusal::Refusal;
use std::io;
use std::io::Write;
use told::refusal_told;

// A refusal, if there is one; how many bytes were written, 0 on a refusal; and the place of a fault, where the bytes cannot be read.
#[derive(Clone, Copy)]
struct Rewritten {
    refusal: Option<Refusal>,
    length: usize,
    fault: Option<usize>,
}

// The reader's refusal comes first: a run that holds no message leaves nothing to write.
fn rewrite(bytes: &[u8], buffer: &mut [u8], place: usize) -> Rewritten {
    let answer = reader::read(bytes);
    if let Err(fault) = answer.verdict {
        return Rewritten {
            refusal: Some(fault.refusal),
            length: 0,
            fault: Some(fault.place),
        };
    }
    match writer::write(buffer, place, answer.message) {
        Err(refusal) => Rewritten {
            refusal: Some(refusal),
            length: 0,
            fault: None,
        },
        Ok(length) => Rewritten {
            refusal: None,
            length,
            fault: None,
        },
    }
}

// The whole buffer is printed, so that a byte that was to stay is seen too.
fn print_rewritten<W: Write>(
    out: &mut W,
    number: usize,
    rewritten: Rewritten,
    buffer: &[u8],
) -> io::Result<()> {
    let mut fields = Fields::new();
    fields.put_numbers(&[
        number as u64,
        refusal_told(rewritten.refusal),
        rewritten.length as u64,
    ]);
    fields.put_hex(buffer);
    put_place(&mut fields, rewritten.fault);
    fields.print_line(out)
}

// The entry behind its code: a run, a place and a size, which is one byte of the script, so that 255 bytes are enough for every buffer.
pub fn play_write<W: Write>(out: &mut W, number: usize, script: &mut Script) -> Result<(), Stop> {
    let bytes = script.run()?;
    let place = script.place()?;
    let size = script.byte()?;
    let mut room = [0xEEu8; 255];
    let buffer = &mut room[..usize::from(size)];
    let rewritten = rewrite(bytes, buffer, place);
    Ok(print_rewritten(out, number, rewritten, buffer)?)
}
