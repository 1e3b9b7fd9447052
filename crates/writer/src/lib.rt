// The host's command writer: a command of document 01 as the bytes that the loader's reader reads.
//
// No public function has a `requires`: each says what it answers for every input.
#![tactic(auto)]

mod head;
mod write;

pub use write::{WriteError, write_command, written_count, written_number};
