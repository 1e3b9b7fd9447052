// Job files: the verdict on a file, how many requests it holds, and the walk from one to the next. Knows nothing of the board.
//
// No public function has a `requires`: each says what it answers for every input.
#![tactic(auto)]

mod count;
mod field;
mod refusal;
mod verdict;
mod walk;

pub use count::count_requests;
pub use refusal::{Cause, Refusal};
pub use verdict::check_job;
pub use walk::{Span, next_request};
