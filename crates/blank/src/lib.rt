// The blank search: the first byte of a range of flash that is not FFh.
//
// No public function has a `requires`: each says what it answers for every input.
#![tactic(auto)]

mod search;

pub use search::first_used;
