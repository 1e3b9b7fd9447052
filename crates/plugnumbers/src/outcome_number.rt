// An outcome as a number of 64 bits, as crates/numbers has the base's.
ghost use Rattle.std.specs.Prelude.{◌≡◌};
ghost use Rattle.plugnumbers.specs.Layout.{packed, pack_outcome};

use plug::Outcome;

// The worth of the second word.
const SECOND: u64 = 0x10000;

// Stays: crates/numbers has its like for four words, but stands on the base's rules, and the serial plug on none of them.
fn pack_words(a: u16, b: u16) -> u64
    ensures { result ≡ packed a b }
{
    u64::from(a) + SECOND * u64::from(b)
}

// The number of an outcome.
pub fn pack_outcome(outcome: Outcome) -> u64
    ensures { result ≡ pack_outcome outcome }
{
    match outcome {
        Outcome::Answered => pack_words(0, 0),
        Outcome::StartedReset => pack_words(2, 0),
        Outcome::StartedAt(address) => pack_words(3, address.0),
        Outcome::Refused(number) => pack_words(4, u16::from(number)),
    }
}
