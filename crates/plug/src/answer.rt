// What a record is answered with.
use crate::board::Config;
use memory::FlashAddress;

#[derive(Clone, Copy, Debug, PartialEq, Eq)]
pub enum Outcome {
    // The answer's characters stand in the room, `X` and `P` too.
    Answered,
    // "No answer is returned by the device."
    StartedReset,
    StartedAt(FlashAddress),
    // The paper's number. Stays: `pack_outcome` of crates/plugnumbers, and theorems, promise something of every number.
    Refused(u8),
}

// The outcome, the configuration after it, how many characters the answer has, and how many pages were stored.
#[derive(Clone, Copy, Debug, PartialEq, Eq)]
pub struct Answer {
    pub outcome: Outcome,
    pub config: Config,
    pub length: usize,
    pub pages: usize,
}
