// What a script begins with: these lengths of the clerk's timers and this count of seconds.
use clerk::start::Lengths;

pub const COUNT: u32 = 0;

// In seconds.
pub fn default_lengths() -> Lengths {
    Lengths {
        t1: 20,
        t2Ccbs: 900,
        t2Ccnr: 3600,
        t3: 20,
    }
}
