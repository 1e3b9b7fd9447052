// The run of a file of records on a board with the serial plug, and the text that answers it, a piece for each record. Knows nothing of
// standard input and output.
//
// No public function has a `requires`: each says what it answers for every input.
#![tactic(auto)]

mod first;
mod turn;

pub use first::{blank_flash, first_line, start};
pub use turn::{MOST_ANSWER, MOST_TEXT, Progress, Turn, take_turn};
