// What a request answers.
use crate::session::{Session, StartKind};
use config::Config;
use memory::FlashAddress;

#[derive(Clone, Copy, Debug, PartialEq, Eq)]
pub enum Outcome {
    // Also where an error status is set.
    Done,
    Stall,
    Started(StartKind, FlashAddress),
    // The paper's number. Stays a number: what is told of an outcome, and its packing for C, is promised of every number.
    Refused(u8),
}

// The outcome, session and configuration after it, how many bytes of the reply are sent, and how many pages were stored.
#[derive(Clone, Copy, Debug, PartialEq, Eq)]
pub struct Answer {
    pub outcome: Outcome,
    pub session: Session,
    pub config: Config,
    pub length: usize,
    pub pages: usize,
}
