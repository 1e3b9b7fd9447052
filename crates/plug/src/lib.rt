// The rules of the serial plug, P2's board with an AT89C51SND1: its configuration, its commands and one record, as definitions, and
// what is proved over them. The records themselves are crates/record's, the step is crates/serial's.
#![tactic(auto)]

mod answer;
mod board;
mod command;

pub use answer::{Answer, Outcome};
pub use board::Config;
pub use command::{Bit, Block, Byte, Command, Setting};

// P2: "over 65,536 lent bytes of flash".
pub const FLASH_SIZE: usize = 65536;
