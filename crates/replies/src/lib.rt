// What the loader behind the serial plug answers: characters put into the reply room, or a number. The characters' definitions are
// crates/plug's.
//
// No public function has a `requires`: each says what it answers for every input.
#![tactic(auto)]

mod display;
mod reply;

pub use display::say_display;
pub use reply::{DONE_SIZE, done, no_room, quiet, say, say_address, say_value};
