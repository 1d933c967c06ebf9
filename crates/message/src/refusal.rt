// Why something is refused: document 01, "Refusal numbers", one case for each row, in its order.
ghost use Rattle.std.specs.Prelude.{◌≡◌};
ghost use Rattle.message.specs.Refusals.{refusal_number};

#[derive(Clone, Copy, PartialEq, Eq)]
pub enum Refusal {
    // 1: bytes end inside a message, or a number is over two bytes or not shortest
    Faulty,
    // 2: a field is out of range
    OutOfRange,
    // 3: the message type isn't for this end
    NotHere,
    // 4: an ask at the clerk's desk uses an identifier live there
    Live,
    // 5: clerk's desk full
    Full,
    // 6: no record with that identifier
    NoRecord,
    // 7: the record's state has no row for this input
    NoRow,
    // 8: carrier not allowed for this type and record
    NotInCarrier,
    // 9: that timer isn't running
    NotRunning,
    // 10: no such line
    NoLine,
    // 11: a Look has nothing to offer
    NothingToOffer,
    // 12: no room in the output buffer
    NoRoom,
}

// The number that a host is told.
impl From<Refusal> for u8 {
    ghost from_gives = { λ refusal number. number ≡ refusal_number refusal };

    fn from(refusal: Refusal) -> u8 {
        match refusal {
            Refusal::Faulty => 1,
            Refusal::OutOfRange => 2,
            Refusal::NotHere => 3,
            Refusal::Live => 4,
            Refusal::Full => 5,
            Refusal::NoRecord => 6,
            Refusal::NoRow => 7,
            Refusal::NotInCarrier => 8,
            Refusal::NotRunning => 9,
            Refusal::NoLine => 10,
            Refusal::NothingToOffer => 11,
            Refusal::NoRoom => 12,
        }
    }
}
