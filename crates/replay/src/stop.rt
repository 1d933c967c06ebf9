// Why an entry isn't played to its end.
use std::io;

// The script ends inside the entry, or has something there that is not listed (docs/REPLAY.md).
#[derive(Clone, Copy)]
pub struct Unplayable;

// Either that, or the entry's line could not be printed.
#[derive(Drop)]
pub enum Stop {
    Unplayable,
    Failed(io::Error),
}

impl From<Unplayable> for Stop {
    fn from(_unplayable: Unplayable) -> Stop {
        Stop::Unplayable
    }
}

impl From<io::Error> for Stop {
    fn from(error: io::Error) -> Stop {
        Stop::Failed(error)
    }
}
