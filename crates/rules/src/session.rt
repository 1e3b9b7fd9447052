// The session record.
use memory::{FlashAddress, Range};

#[derive(Clone, Copy, Debug, PartialEq, Eq)]
pub enum StartKind {
    Reset,
    AtAddress,
}

// What is pending.
#[derive(Clone, Copy, Debug, PartialEq, Eq)]
pub enum Pending {
    Nothing,
    MemoryRead(Range),
    BlankReport(FlashAddress),
    OneByte(u8),
    // The address is 0000h for a reset.
    Start(StartKind, FlashAddress),
}

// P5 of 02: "The session record gets a busy page count."
// Stays: state and status are bytes, since a lent session may hold any byte, and refusal 6 is for those that are none.
#[derive(Clone, Copy, Debug, PartialEq, Eq)]
pub struct Session {
    pub state: u8,
    pub status: u8,
    pub pending: Pending,
    pub busy: u16,
}
