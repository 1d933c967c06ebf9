// Sixteen bytes as two words, lowest byte first, and back.
ghost use Rattle.std.specs.Prelude.{◌≡◌};
ghost use Rattle.lists.specs.Words.{words_of, bytes_of};

#[derive(Clone, Copy, PartialEq, Eq)]
pub struct Words {
    pub low: u64,
    pub high: u64,
}

// The words of sixteen bytes.
impl From<[u8; 16]> for Words {
    ghost from_gives = { λ bytes words. words ≡ words_of bytes };

    fn from(bytes: [u8; 16]) -> Words {
        let (halves, _) = bytes.as_chunks::<8>();
        Words {
            low: u64::from_le_bytes(halves[0]),
            high: u64::from_le_bytes(halves[1]),
        }
    }
}

// The sixteen bytes of two words.
impl From<Words> for [u8; 16] {
    ghost from_gives = { λ words bytes. bytes ≡ bytes_of words };

    fn from(words: Words) -> [u8; 16] {
        let mut bytes = [0; 16];
        bytes[..8].copy_from_slice(&words.low.to_le_bytes());
        bytes[8..].copy_from_slice(&words.high.to_le_bytes());
        bytes
    }
}
