// The loader behind the serial plug: one record, taken by `step`. The rules are crates/plug's, the records crates/record's, the tables
// crates/plugtables', what a command does crates/plugcommands', and the characters of an answer crates/replies'.
//
// No public function has a `requires`: each says what it answers for every input.
#![tactic(auto)]

mod respond;

pub use respond::step;
