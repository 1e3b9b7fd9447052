// What DNLOAD data says: the commands of document 01, which addresses they may not have, and the layout of a transfer. The definitions of
// their form and of the loader's reader stand here too, with the types of what these answer; their code is crates/reader.
//
// No public function has a `requires`: each says what it answers for every input.
#![tactic(auto)]

mod check;
mod command;
mod reader;
mod transfer;

pub use check::{bad_address, bad_range, past_flash};
pub use command::Command;
pub use reader::{Fault, Parts};
pub use transfer::{Transfer, range_count, transfer_of};

// "32 bytes of command (26 not looked at)", "16 suffix bytes", and the most bytes to program or read.
pub const COMMAND_SIZE: usize = 32;

pub const FILLER_SIZE: usize = 26;

pub const SUFFIX_SIZE: usize = 16;

pub const MOST_BYTES: usize = 1024;

// The status of a stall, and of a command whose address is wrong.
pub const STALL_STATUS: u8 = 0x0F;

pub const BAD_ADDRESS_STATUS: u8 = 0x08;
