// Numbers of digits: a length, then one byte 0 to 9 for each digit.
ghost use Rattle.std.specs.Prelude.{◌-◌, ◌≤◌, ◌≡◌, length};
ghost use Rattle.message.specs.Number.{scan_at, digits_at, digits_in_range, digits_bytes, sixteen};
ghost use Rattle.message.specs.Ends.{bytes_end, digits_end};
ghost use Rattle.message.specs.Answers.{place_told};

use crate::Fault;
use crate::number::read_field;
use crate::refusal::Refusal;

// The place behind so many bytes from a place on; where there are fewer, the place behind the last one.
#[tactic(auto, unfolding(crate::specs::Ends::bytes_end))]
fn bytes_end(s: &[u8], at: usize, count: usize) -> usize
    requires { at ≤ length s.now }
    ensures { result ≡ bytes_end count s.now at }
{
    if s.len() - at < count {
        s.len()
    } else {
        at + count
    }
}

// The first place from a place on that holds no digit; where there is none before the end, the end.
#[tactic(auto, using(crate::proofs::NumberLaws::digits_step), unfolding(crate::specs::Ends::digits_end))]
fn digits_end(s: &[u8], at: usize, end: usize) -> usize
    requires { end ≤ length s.now }
    ensures { result ≡ digits_end (end - at) s.now at }
{
    let mut next = at;
    while next < end {
        if 9 < s[next] {
            return next;
        }
        next += 1;
    }
    next
}

// So many bytes from a place on, each of them a digit: the place of the first unread byte, or what is wrong.
fn scan(s: &[u8], at: usize, count: usize) -> Result<usize, Fault>
    requires { at ≤ length s.now }
    ensures { place_told result ≡ scan_at count s.now at }
{
    let end = bytes_end(s, at, count);
    let next = digits_end(s, at, end);
    if next < end {
        return Err(Fault {
            refusal: Refusal::OutOfRange,
            place: next,
        });
    }
    if s.len() - at < count {
        return Err(Fault {
            refusal: Refusal::Faulty,
            place: s.len(),
        });
    }
    Ok(end)
}

// A length from low to 15 and as many digits. The bytes passed are the number's own: they are copied where they are wanted.
#[tactic(auto, unfolding(crate::specs::Number::digits_at))]
pub fn read_digits(s: &[u8], at: usize, low: u16) -> Result<usize, Fault>
    ensures { place_told result ≡ digits_at s.now at low }
{
    let (v, next) = read_field(s, at, low, 15)?;
    scan(s, next, v as usize)
}

// Whether sixteen bytes hold a number of at least low digits: exactly if they read as one.
#[tactic(auto, unfolding(crate::specs::Number::digits_in_range, crate::specs::Number::digits_at))]
pub fn digits_in_range(number: [u8; 16], low: u16) -> bool
    ensures { result ≡ digits_in_range low number }
{
    match read_field(&number, 0, low, 15) {
        Err(_) => false,
        Ok((v, next)) => {
            let end = next + v as usize;
            end <= digits_end(&number, next, end)
        }
    }
}

// The number with 0 in every place behind its last digit.
pub fn normal_number(number: [u8; 16]) -> [u8; 16]
    ensures { result ≡ sixteen (digits_bytes number) }
{
    let last = number[0] as usize;
    let mut normal = number;
    if last < 15 {
        let mut i = last + 1;
        while i < 16 {
            normal[i] = 0;
            i += 1;
        }
    }
    normal
}
