// What a character of a record is worth: P2's table of 256 entries.
//
// No public function has a `requires`: each says what it answers for every input.
#![tactic(auto)]

mod table;

pub use table::{NO_DIGIT, digit_table};
