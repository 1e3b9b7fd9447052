// 002's tables: which command a record is and whether its range is right, the levels that allow it, and the configuration bytes. The
// definitions are crates/plug's.
//
// No public function has a `requires`: each says what it answers for every input.
#![tactic(auto)]

mod allowed;
mod form;
mod setting;

pub use allowed::is_allowed;
pub use form::{bad_range, form_of};
pub use setting::{byte_value, config_after_erase, delivered, erased, with_setting};
