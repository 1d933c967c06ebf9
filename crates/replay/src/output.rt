// Lines: each field is put on a page behind a space, and the line goes out, without the first of these spaces, when it ends. No line but a tick's, which goes out in parts
// (`tick_line`), is longer than 524 bytes, those of a write into 255, so that a page has room for all of it.
use itoa::Buffer;
use lists::words::Words;
use printing::{Page, blank_page, part};
use std::io;
use std::io::Write;

// The last digit of a number, in hexadecimal.
fn hex_digit(number: u8) -> u8 {
    match number % 16 {
        low @ 0..=9 => b'0' + low,
        low => b'a' - 10 + low,
    }
}

// A line that is being made, or a part of it.
#[derive(Drop)]
pub struct Fields {
    page: Page,
}

impl Fields {
    pub fn new() -> Fields {
        Fields { page: blank_page() }
    }

    // Text as it is: its space is the first byte of it.
    pub fn put_text(&mut self, text: &[u8]) {
        self.page.put_text(text);
    }

    // A number in decimal, without a space.
    pub fn put_decimal(&mut self, number: u64) {
        let mut digits = Buffer::new();
        self.page.put_text(digits.format(number).as_bytes());
    }

    pub fn put_number(&mut self, number: u64) {
        self.put_text(b" ");
        self.put_decimal(number);
    }

    pub fn put_numbers(&mut self, numbers: &[u64]) {
        for number in numbers {
            self.put_number(*number);
        }
    }

    // A number that may be absent: `-` for nothing.
    pub fn put_option(&mut self, number: Option<u64>) {
        match number {
            None => self.put_text(b" -"),
            Some(number) => self.put_number(number),
        }
    }

    // Bytes in hexadecimal, `-` for none. A field has at most 255 bytes, those of a write's buffer; they are put at once, since a page looks for room each time.
    pub fn put_hex(&mut self, bytes: &[u8]) {
        if bytes.is_empty() {
            return self.put_text(b" -");
        }
        let mut text = [b' '; 511];
        let (pairs, _) = text[1..].as_chunks_mut::<2>();
        for (pair, byte) in pairs.iter_mut().zip(bytes) {
            *pair = [hex_digit(*byte / 16), hex_digit(*byte)];
        }
        self.put_text(part(&text, 0, 1 + 2 * bytes.len().min(255)));
    }

    // A number of digits, its length in front: the digits as themselves, `-` for none.
    pub fn put_digits(&mut self, number: Words) {
        let bytes = <[u8; 16]>::from(number);
        let digits = part(&bytes, 1, 1 + usize::from(bytes[0].min(15)));
        if digits.is_empty() {
            return self.put_text(b" -");
        }
        self.put_text(b" ");
        for digit in digits {
            self.put_text(&[hex_digit(*digit)]);
        }
    }

    // What was put goes out, without its first space.
    pub fn print<W: Write>(&self, out: &mut W) -> io::Result<()> {
        let text = self.page.text();
        out.write_all(part(text, 1, text.len()))
    }

    // The line's end, and the line goes out.
    pub fn print_line<W: Write>(mut self, out: &mut W) -> io::Result<()> {
        self.put_text(b"\n");
        self.print(out)
    }
}
