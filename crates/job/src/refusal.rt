// Why a job is refused, and where.
ghost use Rattle.std.specs.Prelude.{◌≡◌};
ghost use Rattle.job.specs.Field.{cause_number};

// In the order in which they are tried, but for a file that is too long: that one comes first of all.
#[derive(Clone, Copy, Debug, PartialEq, Eq)]
pub enum Cause {
    Beyond,
    Unlisted,
    TooDeep,
    ShortRequest,
    LongNote,
    TooLong,
}

impl Cause {
    // The paper's number.
    pub fn number(self) -> u8
        ensures { result ≡ cause_number self }
    {
        match self {
            Cause::Beyond => 11,
            Cause::Unlisted => 12,
            Cause::TooDeep => 13,
            Cause::ShortRequest => 14,
            Cause::LongNote => 15,
            Cause::TooLong => 16,
        }
    }

    // The refusal for this cause of the field whose tag stands at a place.
    pub(crate) fn at(self, at: usize) -> Refusal
        ensures { result ≡ record { cause = self; at = at } }
    {
        Refusal { cause: self, at }
    }
}

// The cause, and the offset of the bad field's tag.
#[derive(Clone, Copy, Debug, PartialEq, Eq)]
pub struct Refusal {
    pub cause: Cause,
    pub at: usize,
}
