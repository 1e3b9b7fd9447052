// The level of security.
ghost use Rattle.std.specs.Prelude.{◌≡◌};
ghost use Rattle.config.specs.Level.{ssb_level, level};

use crate::config::Config;

#[derive(Clone, Copy, Debug, PartialEq, Eq, PartialOrd, Ord)]
pub enum Level {
    L0,
    L1,
    L2,
}

// The level that an SSB byte sets. Every value has one, and a byte that nobody meant to store keeps the memories closed.
pub fn ssb_level(ssb: u8) -> Level
    ensures { result ≡ ssb_level ssb }
{
    match ssb {
        0xFF => Level::L0,
        0xFE => Level::L1,
        _ => Level::L2,
    }
}

// The level of a board: the one that its SSB sets.
pub fn level_of(config: Config) -> Level
    ensures { result ≡ level config }
{
    ssb_level(config.ssb)
}
