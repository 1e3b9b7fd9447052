// Why a record is not written.
ghost use Rattle.std.specs.Prelude.{◌≡◌};
ghost use Rattle.record.specs.Writer.{write_error_number};

use crate::{BAD_RECORD, TOO_SHORT};

#[derive(Clone, Copy, Debug, PartialEq, Eq)]
pub enum WriteError {
    BadRecord,
    TooShort,
}

impl WriteError {
    // The number of the refusal.
    pub fn number(self) -> u8
        ensures { result ≡ write_error_number self }
    {
        match self {
            WriteError::BadRecord => BAD_RECORD,
            WriteError::TooShort => TOO_SHORT,
        }
    }
}
