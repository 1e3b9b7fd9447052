// The eight configuration bytes and the fixed bytes of document 01's board, and the level of security that one of them sets.
//
// No public function has a `requires`: each says what it answers for every input.
#![tactic(auto)]

mod config;
mod level;

pub use config::{
    Config, config_after_erase, delivered, is_readable, is_writable, read_byte, write_byte,
    write_hsb,
};
pub use level::{Level, level_of, ssb_level};
