// An outcome as a number.
ghost use Rattle.std.specs.Prelude.{◌≡◌};
ghost use Rattle.numbers.specs.Layout.{pack_outcome, number_after};

use memory::FlashAddress;
use numbers::pack_words;
use rules::{Outcome, StartKind};

fn pack_started(kind: StartKind, address: FlashAddress) -> u64
    ensures { result ≡ pack_outcome (Outcome.Started kind address) }
{
    match kind {
        StartKind::Reset => pack_words(2, address.0, 0, 0),
        StartKind::AtAddress => pack_words(3, address.0, 0, 0),
    }
}

// The number of an outcome.
pub fn pack_outcome(outcome: Outcome) -> u64
    ensures { result ≡ pack_outcome outcome }
{
    match outcome {
        Outcome::Done => pack_words(0, 0, 0, 0),
        Outcome::Stall => pack_words(1, 0, 0, 0),
        Outcome::Started(kind, address) => pack_started(kind, address),
        Outcome::Refused(number) => pack_words(4, u16::from(number), 0, 0),
    }
}

// The number that stands for a session or a configuration after a request: where it is refused, the one that was lent, bit for bit.
pub fn number_after(outcome: Outcome, lent: u64, new: u64) -> u64
    ensures { result ≡ number_after outcome lent new }
{
    match outcome {
        Outcome::Refused(_) => lent,
        _ => new,
    }
}
