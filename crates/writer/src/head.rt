// The bytes of a command before its filler: a row of the table.
ghost use Rattle.std.specs.Prelude.{◌≡◌};
ghost use Rattle.memory.specs.Memory.{range_start, range_end};
ghost use Rattle.command.specs.Form.{block_code};
ghost use Rattle.writer.specs.Writer.{head_of, headed, range_head, read_code};

use command::Command;
use memory::{Block, Range};

// The first so many of six bytes.
// Stays: there is no heap, so a head of 3 to 6 bytes is an array of six and a size.
#[derive(Clone, Copy, Debug, PartialEq, Eq)]
pub struct Head {
    pub bytes: [u8; 6],
    pub size: usize,
}

fn six(size: usize, a: u8, b: u8, c: u8, d: u8, e: u8, f: u8) -> Head
    ensures { result ≡ headed size a b c d e f }
{
    Head {
        bytes: [a, b, c, d, e, f],
        size,
    }
}

// Two codes, a start and an end.
fn range_head(group: u8, code: u8, start: u16, end: u16) -> Head
    ensures { result ≡ range_head group code start end }
{
    let [start_high, start_low] = start.to_be_bytes();
    let [end_high, end_low] = end.to_be_bytes();
    six(6, group, code, start_high, start_low, end_high, end_low)
}

fn read_head(range: Range) -> Head
    ensures { result ≡ range_head 0x03 (read_code range) (range_start range) (range_end range) }
{
    match range {
        Range::Flash(start, end) => range_head(0x03, 0x00, start.0, end.0),
        Range::Eeprom(start, end) => range_head(0x03, 0x02, start.0, end.0),
    }
}

fn block_code(block: Block) -> u8
    ensures { result ≡ block_code block }
{
    match block {
        Block::Low => 0x00,
        Block::Middle => 0x20,
        Block::High => 0x40,
    }
}

#[tactic(auto, unfolding(crate::specs::Writer::head_bytes))]
pub(crate) fn head_of(command: Command) -> Head
    ensures { result ≡ head_of command }
{
    match command {
        Command::ProgramFlash(start, end) => range_head(0x01, 0x00, start.0, end.0),
        Command::ProgramEeprom(start, end) => range_head(0x01, 0x01, start.0, end.0),
        Command::Read(range) => read_head(range),
        Command::BlankCheck(start, end) => range_head(0x03, 0x01, start.0, end.0),
        Command::EraseBlock(block) => six(3, 0x04, 0x00, block_code(block), 0, 0, 0),
        Command::EraseChip => six(3, 0x04, 0x00, 0xFF, 0, 0, 0),
        Command::WriteByte(index, value) => six(4, 0x04, 0x01, index, value, 0, 0),
        Command::WriteHsb(value) => six(4, 0x04, 0x02, 0x00, value, 0, 0),
        Command::StartReset => six(3, 0x04, 0x03, 0x00, 0, 0, 0),
        Command::StartAt(address) => {
            let [high, low] = address.0.to_be_bytes();
            six(5, 0x04, 0x03, 0x01, high, low, 0)
        }
        Command::ReadVersion => six(3, 0x05, 0x00, 0x00, 0, 0, 0),
        Command::ReadByte(index) => six(3, 0x05, 0x01, index, 0, 0, 0),
        Command::ReadHsb => six(3, 0x05, 0x02, 0x00, 0, 0, 0),
    }
}
