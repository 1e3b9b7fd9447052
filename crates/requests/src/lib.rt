// What a request asks, and what it is answered where no memory is needed: power-up, the stall, CLRSTATUS and ABORT.
//
// No public function has a `requires`: each says what it answers for every input.
#![tactic(auto)]

mod request;
mod session;
mod status;

pub use request::request_of;
pub use session::power_up;
pub use status::{abort, clr_status, quiet, stall};
