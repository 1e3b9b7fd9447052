// The loader's command reader: the form of DNLOAD data, and the one judge of a payload, whom the reader and the loader ask.
//
// No public function has a `requires`: each says what it answers for every input.
#![tactic(auto)]

mod form;
mod payload;
mod reader;

pub use payload::{Misfit, fit_of, judge};
pub use reader::{read_command, reading_status};
