// Why a record is not read.
ghost use Rattle.std.specs.Prelude.{◌≡◌};
ghost use Rattle.record.specs.Reader.{read_error_number};

use crate::{BAD_RECORD, TOO_SHORT};

// A wrong checksum has no number in 02: "then `X` for a wrong checksum".
#[derive(Clone, Copy, Debug, PartialEq, Eq)]
pub enum ReadError {
    WrongChecksum,
    BadRecord,
    TooShort,
}

impl ReadError {
    // The number of the refusal, and 1 for a wrong checksum: no record is refused with 1.
    pub fn number(self) -> u8
        ensures { result ≡ read_error_number self }
    {
        match self {
            ReadError::WrongChecksum => 1,
            ReadError::BadRecord => BAD_RECORD,
            ReadError::TooShort => TOO_SHORT,
        }
    }
}
