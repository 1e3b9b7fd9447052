// The serial plug's configuration and outcome as numbers, for a caller in another language. The layout stands in specs/Layout.antt.
//
// No public function has a `requires`: each says what it answers for every input.
#![tactic(auto)]

mod config_number;
mod outcome_number;

pub use config_number::{config_of, pack_config};
pub use outcome_number::pack_outcome;
