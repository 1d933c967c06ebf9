// The line of a tick: `N refusal expired places length buffer`. The buffer may be longer than a page, so it goes out in parts.
use crate::output::Fields;
use std::io;
use std::io::Write;
use told::ticking::TOLD;

// So many bytes of the buffer go out at once, and the most that a script may lend.
const PART: usize = 128;

pub const MOST_ROOM: usize = 16 * PART;

// What the bytes are that it lends.
pub const UNTOUCHED: u8 = 238;

// The places with a comma between two, `-` for none. No desk has more than 32 records.
fn put_places(fields: &mut Fields, told: &[u64; TOLD]) {
    let expired = told[2].min(32) as usize;
    if expired == 0 {
        return fields.put_text(b" -");
    }
    for k in 0..expired {
        fields.put_text(if k == 0 { b" " } else { b"," });
        fields.put_decimal(told[3 + 4 * k]);
    }
}

// A buffer in hexadecimal, part by part; `-` for none.
fn print_buffer<W: Write>(out: &mut W, bytes: &[u8]) -> io::Result<()> {
    if bytes.is_empty() {
        return out.write_all(b"-");
    }
    for part in bytes.chunks(PART) {
        let mut fields = Fields::new();
        fields.put_hex(part);
        fields.print(out)?;
    }
    Ok(())
}

pub fn print_tick<W: Write>(
    out: &mut W,
    number: usize,
    told: &[u64; TOLD],
    buffer: &[u8],
) -> io::Result<()> {
    let mut fields = Fields::new();
    fields.put_numbers(&[number as u64, told[0], told[2]]);
    put_places(&mut fields, told);
    fields.put_number(told[1]);
    fields.print(out)?;
    out.write_all(b" ")?;
    print_buffer(out, buffer)?;
    out.write_all(b"\n")
}
