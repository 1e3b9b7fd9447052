// What each command of the serial plug does: its answer, the pages that it stores and the configuration after it. The rules are
// crates/plug's, the characters of an answer crates/replies'.
//
// No public function has a `requires`: each says what it answers for every input.
#![tactic(auto)]

mod commands;

pub use commands::perform;
