// Numbers in groups of seven bits, lowest group first, the top bit set on all but the last byte, shortest form, one or two bytes.
ghost use Rattle.std.specs.Prelude.{◌≡◌};
ghost use Rattle.message.specs.Number.{number_at, field_at};

use crate::Fault;
use crate::refusal::Refusal;

// The number at a place and the place of the first unread byte, or what is wrong.
#[tactic(auto, unfolding(crate::specs::Number::number_at))]
pub fn read_number(s: &[u8], at: usize) -> Result<(u16, usize), Fault>
    ensures { result ≡ number_at s.now at }
{
    if s.len() <= at {
        let place = s.len();
        return Err(Fault {
            refusal: Refusal::Faulty,
            place,
        });
    }
    let first = s[at] as u16;
    if first < 128 {
        return Ok((first, at + 1));
    }
    let next = at + 1;
    if s.len() <= next {
        let end = s.len();
        return Err(Fault {
            refusal: Refusal::Faulty,
            place: end,
        });
    }
    let wrong = Fault {
        refusal: Refusal::Faulty,
        place: at,
    };
    let second = s[next] as u16;
    if second == 0 {
        return Err(wrong);
    }
    if second < 128 {
        Ok(((first - 128) + 128 * second, next + 1))
    } else {
        Err(wrong)
    }
}

// The number at a place, held to its field's range.
#[tactic(auto, unfolding(crate::specs::Number::field_at))]
pub fn read_field(s: &[u8], place: usize, low: u16, high: u16) -> Result<(u16, usize), Fault>
    ensures { result ≡ field_at s.now place low high }
{
    let (v, next) = read_number(s, place)?;
    let wrong = Fault {
        refusal: Refusal::OutOfRange,
        place,
    };
    if v < low {
        return Err(wrong);
    }
    if high < v {
        return Err(wrong);
    }
    Ok((v, next))
}
