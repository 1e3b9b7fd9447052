// A command as a number of 64 bits, for a caller in another language. The layout stands in crates/numbers/specs/Layout.antt.
//
// No public function has a `requires`: each says what it answers for every input.
#![tactic(auto)]

mod command_number;

pub use command_number::{command_of, pack_command};
