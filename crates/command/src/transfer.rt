// The layout of a program transfer: 32 bytes of command, X pad bytes, the n bytes, 16 suffix bytes.
ghost use Rattle.std.specs.Prelude.{◌≡◌, ◌≤◌};
ghost use Rattle.words.specs.Words.{count};
ghost use Rattle.memory.specs.Memory.{range_count};
ghost use Rattle.command.specs.Transfer.{padding, laid, transfer_of};

use crate::command::Command;
use memory::Range;

// A program transfer, to either memory: its X, and its n.
#[derive(Clone, Copy, Debug, PartialEq, Eq)]
pub struct Transfer {
    pub pad: u8,
    pub bytes: u32,
}

// How many bytes a range to read has, both ends in it; 0 for one that is backward.
pub fn range_count(range: Range) -> usize
    ensures value { result ≡ range_count range }
    ensures upper_bound { result ≤ 65536 }
{
    // Stays: two arms of one form, since 02's P4 wants each memory to have addresses of a type of its own.
    match range {
        Range::Flash(start, end) => bytes_between(start.0, end.0),
        Range::Eeprom(start, end) => bytes_between(start.0, end.0),
    }
}

// How many bytes stand from one address to another, both of them counted; 0 where the first is past the other.
fn bytes_between(start: u16, end: u16) -> usize
    ensures value { result ≡ count start end }
    ensures upper_bound { result ≤ 65536 }
{
    let past = usize::from(end) + 1;
    past.saturating_sub(usize::from(start))
}

// The transfer from one address to another, of either memory: X is start mod 32.
fn laid_out(start: u16, end: u16) -> Transfer
    ensures { result ≡ laid (padding start) (count start end) }
{
    Transfer {
        pad: (start % 32) as u8,
        bytes: bytes_between(start, end) as u32,
    }
}

// How a program transfer is laid out; no other command is one.
pub fn transfer_of(command: Command) -> Option<Transfer>
    ensures { result ≡ transfer_of command }
{
    // Stays: two arms of one form, since 02's P4 wants each memory to have addresses of a type of its own.
    match command {
        Command::ProgramFlash(start, end) => Some(laid_out(start.0, end.0)),
        Command::ProgramEeprom(start, end) => Some(laid_out(start.0, end.0)),
        _ => None,
    }
}
