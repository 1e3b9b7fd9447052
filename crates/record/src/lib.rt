// The records of the serial plug as definitions: what their characters are worth, the loader's reader and the host's writer, and what is
// proved over them. The code is crates/digits', crates/recordreader's and crates/recordwriter's.
//
// No public function has a `requires`: each says what it answers for every input.
#![tactic(auto)]

mod fields;
mod reader;
mod writer;

pub use fields::Fields;
pub use reader::ReadError;
pub use writer::WriteError;

// How many bytes stand before the data and after it, and the most that a record's data has.
pub const HEAD_SIZE: usize = 4;

pub const CHECKSUM_SIZE: usize = 1;

pub const MOST_DATA: usize = 255;

// The mark that a record begins with.
pub const MARK: u8 = b':';

// "a character that is no hex digit or a record of wrong length", and "room too short"
pub const BAD_RECORD: u8 = 17;

pub const TOO_SHORT: u8 = 9;
