// Bytes of a slice kept in sixteen places, for those who read a number of digits or an identifier out of longer bytes. An inner room: its functions are no public
// operations.
ghost use Rattle.std.specs.Prelude.{◌≡◌, ◌≤◌, ◌+◌, ◌-◌, min, length, take, drop};
ghost use Rattle.message.specs.Number.{sixteen};
ghost use Rattle.message.specs.Copied.{copied};

// How far two places are apart, sixteen at most.
fn apart(from: usize, to: usize) -> usize
    ensures { result ≡ min 16 (to - from) }
{
    if from <= to {
        if to - from <= 16 {
            return to - from;
        }
        return 16;
    }
    0
}

// How many bytes are copied, out of so many.
fn count_copied(length: usize, from: usize, to: usize) -> usize
    ensures { result ≡ min 16 (min to length - from) }
{
    if to <= length {
        return apart(from, to);
    }
    apart(from, length)
}

fn copy_in(s: &[u8], from: usize, count: usize) -> [u8; 16]
    requires { (count ≤ 16) × (count ≤ length s.now - from) }
    ensures { result ≡ sixteen (take count (drop from s.now)) }
{
    let mut copy = [0u8; 16];
    let mut i = 0;
    while i < count {
        copy[i] = s[from + i];
        i += 1;
    }
    copy
}

// What stands between two places, as far as the slice goes and no more than sixteen of it, 0 behind it.
pub fn copy_between(s: &[u8], from: usize, to: usize) -> [u8; 16]
    ensures { result ≡ copied s.now from to }
{
    let count = count_copied(s.len(), from, to);
    copy_in(s, from, count)
}
