// The handler that the USB interrupt calls, over the one session record that it is lent.
//
// No public function has a `requires`: each says what it answers for every input.
#![tactic(auto)]

mod handler;

pub use handler::handle;
