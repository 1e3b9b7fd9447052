// A file of records, one a line, with notes between them. Knows nothing of what a record says.
//
// No public function has a `requires`: each says what it answers for every input.
#![tactic(auto)]

mod count;
mod line;
mod walk;

pub use count::{MOST_FILE, count_records};
pub use line::starts_erased;
pub use walk::{Span, next_record};
