// How a session, a configuration, a command and an outcome are numbers of 64 bits, for a caller in another language: the layout, in
// specs/Layout.antt, the words of a number, and the configuration. The others are packed by the crates above.
//
// No public function has a `requires`: each says what it answers for every input.
#![tactic(auto)]

mod config_number;
mod packing;

pub use config_number::{config_of, pack_config};
pub use packing::{low_byte, pack_words, words_of};
