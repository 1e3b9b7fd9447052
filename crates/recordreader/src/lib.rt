// The loader's record reader. The definitions are crates/record's, the table of digits crates/digits'.
//
// No public function has a `requires`: each says what it answers for every input.
#![tactic(auto)]

mod pairs;
mod reader;

pub use reader::read_record;
