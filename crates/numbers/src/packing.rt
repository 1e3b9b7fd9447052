// Words of 16 bits in a number, and bytes in a word.
ghost use Rattle.std.specs.Prelude.{◌≡◌, [], ◌∷◌};
ghost use Rattle.numbers.specs.Layout.{packed, word0, word1, word2, word3, low_byte};

// The worth of each word but the first.
const SECOND: u64 = 0x10000;

const THIRD: u64 = 0x100000000;

const FOURTH: u64 = 0x1000000000000;

// The number of four words, the lowest first.
pub fn pack_words(a: u16, b: u16, c: u16, d: u16) -> u64
    ensures { result ≡ packed a b c d }
{
    u64::from(a) + SECOND * u64::from(b) + THIRD * u64::from(c) + FOURTH * u64::from(d)
}

// The four words of a number, the lowest first.
pub fn words_of(n: u64) -> [u16; 4]
    ensures { result ≡ word0 n ∷ word1 n ∷ word2 n ∷ word3 n ∷ [] }
{
    let [a, b, c, d, e, f, g, h] = n.to_le_bytes();
    [
        u16::from_le_bytes([a, b]),
        u16::from_le_bytes([c, d]),
        u16::from_le_bytes([e, f]),
        u16::from_le_bytes([g, h]),
    ]
}

// The low byte of a word.
pub fn low_byte(w: u16) -> u8
    ensures { result ≡ low_byte w }
{
    w.to_le_bytes()[0]
}
