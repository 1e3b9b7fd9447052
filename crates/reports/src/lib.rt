// What GETSTATUS tells, and the session after it. No memory is needed for that: the loader lays the bytes into the reply.
//
// No public function has a `requires`: each says what it answers for every input.
#![tactic(auto)]

mod report;

pub use report::{Report, status_report};
