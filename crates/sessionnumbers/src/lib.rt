// A session and an outcome as numbers of 64 bits, for a caller in another language. The layout stands in crates/numbers/specs/Layout.antt.
//
// No public function has a `requires`: each says what it answers for every input.
#![tactic(auto)]

mod outcome_number;
mod session_number;

pub use outcome_number::{number_after, pack_outcome};
pub use session_number::{pack_session, session_of};
