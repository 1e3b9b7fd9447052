// The form of DNLOAD data: which command it is, by its first bytes and its length.
ghost use Rattle.std.specs.Prelude.{◌≡◌};
ghost use Rattle.command.specs.Form.{form, exactly, six_or_more, zero_third, flash_at, eeprom_at, flash_range, eeprom_range};
ghost use Rattle.command.specs.Form.{program_flash_form, program_eeprom_form, blank_form, erase_form, write_form, start_form, index_form};

use command::Command;
use memory::{Block, EepromAddress, FlashAddress, Range};

// No row of the table is shorter.
const SHORTEST: usize = 3;

// The address of flash, and of EEPROM, that stands at a place.
// Stays: these, the ranges and the program commands come in pairs, since 02's P4 wants each memory to have addresses and a command of its own.
fn flash_at(sent: &[u8], at: u16) -> FlashAddress
    ensures { result ≡ flash_at sent.now at }
{
    FlashAddress(words::high_at(sent, at))
}

fn eeprom_at(sent: &[u8], at: u16) -> EepromAddress
    ensures { result ≡ eeprom_at sent.now at }
{
    EepromAddress(words::high_at(sent, at))
}

// The range of flash, and of EEPROM, after the first two bytes.
fn flash_range(sent: &[u8]) -> Range
    ensures { result ≡ flash_range sent.now }
{
    Range::Flash(flash_at(sent, 2), flash_at(sent, 4))
}

fn eeprom_range(sent: &[u8]) -> Range
    ensures { result ≡ eeprom_range sent.now }
{
    Range::Eeprom(eeprom_at(sent, 2), eeprom_at(sent, 4))
}

// A command whose data has to be n bytes.
fn exact(sent: &[u8], n: usize, command: Command) -> Option<Command>
    ensures { result ≡ exactly n sent.now command }
{
    (sent.len() == n).then_some(command)
}

// A command whose data has to be six bytes or more.
fn six_or_more(sent: &[u8], command: Command) -> Option<Command>
    ensures { result ≡ six_or_more sent.now command }
{
    (6 <= sent.len()).then_some(command)
}

// A command whose third byte has to be 00h.
fn zero_third(sent: &[u8], n: usize, command: Command) -> Option<Command>
    ensures { result ≡ zero_third n sent.now command }
{
    if words::byte_at(sent, 2) != 0x00 {
        return None;
    }
    exact(sent, n, command)
}

fn program_flash_form(sent: &[u8]) -> Option<Command>
    ensures { result ≡ program_flash_form sent.now }
{
    let start = flash_at(sent, 2);
    let end = flash_at(sent, 4);
    six_or_more(sent, Command::ProgramFlash(start, end))
}

fn program_eeprom_form(sent: &[u8]) -> Option<Command>
    ensures { result ≡ program_eeprom_form sent.now }
{
    let start = eeprom_at(sent, 2);
    let end = eeprom_at(sent, 4);
    six_or_more(sent, Command::ProgramEeprom(start, end))
}

fn blank_form(sent: &[u8]) -> Option<Command>
    ensures { result ≡ blank_form sent.now }
{
    let start = flash_at(sent, 2);
    let end = flash_at(sent, 4);
    exact(sent, 6, Command::BlankCheck(start, end))
}

fn erase_form(sent: &[u8]) -> Option<Command>
    ensures { result ≡ erase_form sent.now }
{
    let code = words::byte_at(sent, 2);
    match code {
        0x00 => exact(sent, 3, Command::EraseBlock(Block::Low)),
        0x20 => exact(sent, 3, Command::EraseBlock(Block::Middle)),
        0x40 => exact(sent, 3, Command::EraseBlock(Block::High)),
        0xFF => exact(sent, 3, Command::EraseChip),
        _ => None,
    }
}

fn write_form(sent: &[u8]) -> Option<Command>
    ensures { result ≡ write_form sent.now }
{
    let index = words::byte_at(sent, 2);
    let value = words::byte_at(sent, 3);
    if !config::is_writable(index) {
        return None;
    }
    exact(sent, 4, Command::WriteByte(index, value))
}

fn start_form(sent: &[u8]) -> Option<Command>
    ensures { result ≡ start_form sent.now }
{
    let code = words::byte_at(sent, 2);
    match code {
        0x00 => exact(sent, 3, Command::StartReset),
        0x01 => exact(sent, 5, Command::StartAt(flash_at(sent, 3))),
        _ => None,
    }
}

fn index_form(sent: &[u8]) -> Option<Command>
    ensures { result ≡ index_form sent.now }
{
    let index = words::byte_at(sent, 2);
    if !config::is_readable(index) {
        return None;
    }
    exact(sent, 3, Command::ReadByte(index))
}

// The command that the data is, by its form alone. Of all that the loader is sent, only this chooses the memory to program.
#[tactic(auto, using(command::proofs::FormLaws::form_short), unfolding(command::specs::Form::form))]
pub(crate) fn form_of(sent: &[u8]) -> Option<Command>
    ensures { result ≡ form sent.now }
{
    if sent.len() < SHORTEST {
        return None;
    }
    let code = words::high_at(sent, 0);
    match code {
        0x0100 => program_flash_form(sent),
        0x0101 => program_eeprom_form(sent),
        0x0300 => exact(sent, 6, Command::Read(flash_range(sent))),
        0x0302 => exact(sent, 6, Command::Read(eeprom_range(sent))),
        0x0301 => blank_form(sent),
        0x0400 => erase_form(sent),
        0x0401 => write_form(sent),
        0x0402 => zero_third(sent, 4, Command::WriteHsb(words::byte_at(sent, 3))),
        0x0403 => start_form(sent),
        0x0500 => zero_third(sent, 3, Command::ReadVersion),
        0x0501 => index_form(sent),
        0x0502 => zero_third(sent, 3, Command::ReadHsb),
        _ => None,
    }
}
