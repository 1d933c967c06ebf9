// A script, from the byte on that is read next. Each method takes one field off its front (docs/REPLAY.md, "Fields"); where the script ends inside the field, or what
// stands there is not listed, the entry can't be played.
use crate::stop::Unplayable;
use clerk::start::Lengths;
use host_numbers::identifiers::BYTES;

// How an entry names a request, by its identifier and by a place, which is always there; and what is chosen for it.
#[derive(Clone, Copy)]
pub struct Named {
    pub identifier: [u8; BYTES],
    pub place: u64,
    pub choice: u8,
}

#[derive(Drop)]
pub struct Script<'a> {
    pub rest: &'a [u8],
}

impl<'a> Script<'a> {
    // So many bytes.
    fn bytes(&mut self, count: usize) -> Result<&'a [u8], Unplayable> {
        let (bytes, rest) = self.rest.split_at_checked(count).ok_or(Unplayable)?;
        self.rest = rest;
        Ok(bytes)
    }

    // As many bytes as an array has.
    fn array<const N: usize>(&mut self) -> Result<[u8; N], Unplayable> {
        let (array, rest) = self.rest.split_first_chunk::<N>().ok_or(Unplayable)?;
        self.rest = rest;
        Ok(*array)
    }

    // A raw byte.
    pub fn byte(&mut self) -> Result<u8, Unplayable> {
        let [byte] = self.array::<1>()?;
        Ok(byte)
    }

    // A byte that is no more than the last choice.
    pub fn choice(&mut self, last: u8) -> Result<u8, Unplayable> {
        let choice = self.byte()?;
        if last < choice {
            return Err(Unplayable);
        }
        Ok(choice)
    }

    // A choice of two: 0 no, 1 yes.
    pub fn flag(&mut self) -> Result<bool, Unplayable> {
        Ok(self.choice(1)? == 1)
    }

    // The place of a record.
    pub fn place(&mut self) -> Result<usize, Unplayable> {
        Ok(usize::from(self.byte()?))
    }

    // Numbers of two and of four bytes, the lowest first.
    pub fn two(&mut self) -> Result<u16, Unplayable> {
        Ok(u16::from_le_bytes(self.array()?))
    }

    pub fn four(&mut self) -> Result<u32, Unplayable> {
        Ok(u32::from_le_bytes(self.array()?))
    }

    // The lengths of T1, of T2 for CCBS and for CCNR, and of T3.
    pub fn lengths(&mut self) -> Result<Lengths, Unplayable> {
        Ok(Lengths {
            t1: self.four()?,
            t2Ccbs: self.four()?,
            t2Ccnr: self.four()?,
            t3: self.four()?,
        })
    }

    // A byte that says how many, and so many bytes.
    pub fn run(&mut self) -> Result<&'a [u8], Unplayable> {
        let count = self.byte()?;
        self.bytes(usize::from(count))
    }

    // A length, and as many of so many bytes as have places behind it; the others are 0.
    fn behind_length<const N: usize>(&mut self, length: u8) -> Result<[u8; N], Unplayable> {
        let given = self.bytes(usize::from(length))?;
        let mut filled = [0; N];
        for (place, byte) in filled.iter_mut().zip([length].iter().chain(given)) {
            *place = *byte;
        }
        Ok(filled)
    }

    // A number of digits: its length, in range or not, and the first fifteen of its digits.
    pub fn digits(&mut self) -> Result<[u8; 16], Unplayable> {
        let length = self.byte()?;
        self.behind_length(length)
    }

    // An identifier as hosts give it: a byte 0 or 16 and so many bytes.
    pub fn identifier(&mut self) -> Result<[u8; BYTES], Unplayable> {
        let length = self.byte()?;
        if length != 0 && length != 16 {
            return Err(Unplayable);
        }
        self.behind_length(length)
    }

    // A name, and behind it the choice of an entry that has one, 0 else.
    pub fn named(&mut self, isChosen: bool) -> Result<Named, Unplayable> {
        Ok(Named {
            identifier: self.identifier()?,
            place: u64::from(self.byte()?),
            choice: if isChosen { self.byte()? } else { 0 },
        })
    }

    // The last bytes of a buffer, as many as are said to be lent of it.
    pub fn room<'b>(&mut self, buffer: &'b mut [u8]) -> Result<&'b mut [u8], Unplayable> {
        let room = usize::from(self.two()?);
        let from = buffer.len().checked_sub(room).ok_or(Unplayable)?;
        Ok(&mut buffer[from..])
    }
}
