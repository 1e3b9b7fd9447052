// The host's record writer. The definitions are crates/record's.
//
// No public function has a `requires`: each says what it answers for every input.
#![tactic(auto)]

mod writer;

pub use writer::write_record;
