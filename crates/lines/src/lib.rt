// The lines that the bench programs print, as definitions; and what puts a text or bytes in hex into a room that the caller lends. The
// lines themselves are crates/printing's.
//
// No public function has a `requires`: each says what it answers for every input.
#![tactic(auto)]

mod line;
mod text;

pub use line::{TOO_SHORT, TooShort, Word, end_of, hex_text, plain_text};
pub use text::fits;
