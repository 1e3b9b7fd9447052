// The lines that the bench programs print, written into a room that the caller lends. Their text is crates/lines'.
//
// No public function has a `requires`: each says what it answers for every input.
#![tactic(auto)]

mod head;
mod line;
mod text;

pub use head::{head_line, records_line};
pub use line::{job_line, refused_line, request_line};
