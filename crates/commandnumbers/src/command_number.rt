// A command as a number.
ghost use Rattle.std.specs.Prelude.{◌≡◌};
ghost use Rattle.numbers.specs.Layout.{pack_read_command, pack_block, pack_command, command_for, command_of};

use command::Command;
use memory::{Block, EepromAddress, FlashAddress, Range};
use numbers::{low_byte, pack_words, words_of};

fn pack_read_command(range: Range) -> u64
    ensures { result ≡ pack_read_command range }
{
    match range {
        Range::Flash(start, end) => pack_words(2, start.0, end.0, 0),
        Range::Eeprom(start, end) => pack_words(3, start.0, end.0, 0),
    }
}

fn pack_block(block: Block) -> u64
    ensures { result ≡ pack_block block }
{
    match block {
        Block::Low => pack_words(5, 0, 0, 0),
        Block::Middle => pack_words(6, 0, 0, 0),
        Block::High => pack_words(7, 0, 0, 0),
    }
}

// The number of a command.
pub fn pack_command(command: Command) -> u64
    ensures { result ≡ pack_command command }
{
    match command {
        Command::ProgramFlash(start, end) => pack_words(0, start.0, end.0, 0),
        Command::ProgramEeprom(start, end) => pack_words(1, start.0, end.0, 0),
        Command::Read(range) => pack_read_command(range),
        Command::BlankCheck(start, end) => pack_words(4, start.0, end.0, 0),
        Command::EraseBlock(block) => pack_block(block),
        Command::EraseChip => pack_words(8, 0, 0, 0),
        Command::WriteByte(index, value) => pack_words(9, u16::from(index), u16::from(value), 0),
        Command::WriteHsb(value) => pack_words(10, u16::from(value), 0, 0),
        Command::StartReset => pack_words(11, 0, 0, 0),
        Command::StartAt(address) => pack_words(12, address.0, 0, 0),
        Command::ReadVersion => pack_words(13, 0, 0, 0),
        Command::ReadByte(index) => pack_words(14, u16::from(index), 0, 0),
        Command::ReadHsb => pack_words(15, 0, 0, 0),
    }
}

#[tactic(auto, unfolding(numbers::specs::Layout::command_for))]
fn command_for(kind: u16, first: u16, last: u16) -> Command
    ensures { result ≡ command_for kind first last }
{
    match kind {
        0 => Command::ProgramFlash(FlashAddress(first), FlashAddress(last)),
        1 => Command::ProgramEeprom(EepromAddress(first), EepromAddress(last)),
        2 => Command::Read(Range::Flash(FlashAddress(first), FlashAddress(last))),
        3 => Command::Read(Range::Eeprom(EepromAddress(first), EepromAddress(last))),
        4 => Command::BlankCheck(FlashAddress(first), FlashAddress(last)),
        5 => Command::EraseBlock(Block::Low),
        6 => Command::EraseBlock(Block::Middle),
        7 => Command::EraseBlock(Block::High),
        8 => Command::EraseChip,
        9 => Command::WriteByte(low_byte(first), low_byte(last)),
        10 => Command::WriteHsb(low_byte(first)),
        11 => Command::StartReset,
        12 => Command::StartAt(FlashAddress(first)),
        13 => Command::ReadVersion,
        14 => Command::ReadByte(low_byte(first)),
        _ => Command::ReadHsb,
    }
}

// The command that a number stands for: any other kind counts as reading HSB, and unused bits are not looked at.
pub fn command_of(n: u64) -> Command
    ensures { result ≡ command_of n }
{
    let [kind, first, last, _] = words_of(n);
    command_for(kind, first, last)
}
