// Which command a record is, by its type, its length and its first data bytes, and whether its range is right.
ghost use Rattle.std.specs.Prelude.{◌≡◌};
ghost use Rattle.plug.specs.Commands.{form, read_row, short_row, plain_row, value_row, jump_row, change_row, range_form, read_form};
ghost use Rattle.plug.specs.Commands.{bad_range as is_bad_range};
ghost use Rattle.plugtables.specs.Form.{fuse_bit};

use memory::FlashAddress;
use plug::{Bit, Block, Byte, Command, FLASH_SIZE, Setting};

// "Manufacturer", "Family code", "Product Name", "Product Revision", and the version.
const MANUFACTURER: u8 = 0x58;

const FAMILY: u8 = 0xD7;

const PRODUCT: u8 = 0xEC;

const REVISION: u8 = 0xFF;

const VERSION: u8 = 0x11;

// "nb of Data", from Data[0] to Data[127].
const MOST_PROGRAM: usize = 128;

fn read_row(code: u16) -> Option<Command>
    ensures { result ≡ read_row code }
{
    let byte = match code {
        0x0000 => Byte::Fixed(MANUFACTURER),
        0x0001 => Byte::Fixed(FAMILY),
        0x0002 => Byte::Fixed(PRODUCT),
        0x0003 => Byte::Fixed(REVISION),
        0x0700 => Byte::Ssb,
        0x0701 => Byte::Bsb,
        0x0702 => Byte::Sbv,
        0x0B00 => Byte::Hsb,
        0x0E00 => Byte::Fixed(FAMILY),
        0x0E01 => Byte::Fixed(PRODUCT),
        0x0F00 => Byte::Fixed(VERSION),
        _ => return None,
    };
    Some(Command::Read(byte))
}

fn plain_row(code: u16) -> Option<Command>
    ensures { result ≡ plain_row code }
{
    match code {
        0x0100 => Some(Command::EraseBlock(Block::Block0)),
        0x0120 => Some(Command::EraseBlock(Block::Block1)),
        0x0140 => Some(Command::EraseBlock(Block::Block2)),
        0x0180 => Some(Command::EraseBlock(Block::Block3)),
        0x0300 => Some(Command::StartReset),
        0x0400 => Some(Command::Write(Setting::BootErased)),
        0x0500 => Some(Command::Write(Setting::SsbLevel1)),
        0x0501 => Some(Command::Write(Setting::SsbLevel2)),
        _ => None,
    }
}

// The bit of a fuse: "the "bit value" is 00h or 01h".
fn fuse_bit(value: u8) -> Option<Bit>
    ensures { result ≡ fuse_bit value }
{
    match value {
        0x00 => Some(Bit::Programmed),
        0x01 => Some(Bit::Unprogrammed),
        _ => None,
    }
}

fn value_row(code: u16, value: u8) -> Option<Command>
    ensures { result ≡ value_row code value }
{
    let setting = match code {
        0x0600 => Setting::Bsb(value),
        0x0601 => Setting::Sbv(value),
        0x0A04 => Setting::Bljb(fuse_bit(value)?),
        0x0A08 => Setting::X2(fuse_bit(value)?),
        _ => return None,
    };
    Some(Command::Write(setting))
}

fn short_row(code: u8) -> Option<Command>
    ensures { result ≡ short_row code }
{
    (code == 0x07).then_some(Command::EraseChip)
}

fn jump_row(code: u16, address: FlashAddress) -> Option<Command>
    ensures { result ≡ jump_row code address }
{
    (code == 0x0301).then_some(Command::StartAt(address))
}

// The rows of type 03h, by the record's length.
fn change_row(sent: &[u8]) -> Option<Command>
    ensures { result ≡ change_row sent.now }
{
    match sent.len() {
        1 => short_row(words::byte_at(sent, 0)),
        2 => plain_row(words::high_at(sent, 0)),
        3 => value_row(words::high_at(sent, 0), words::byte_at(sent, 2)),
        4 => jump_row(
            words::high_at(sent, 0),
            FlashAddress(words::high_at(sent, 2)),
        ),
        _ => None,
    }
}

// The rows of type 04h.
fn range_form(sent: &[u8]) -> Option<Command>
    ensures { result ≡ range_form sent.now }
{
    if sent.len() != 5 {
        return None;
    }
    let start = FlashAddress(words::high_at(sent, 0));
    let end = FlashAddress(words::high_at(sent, 2));
    match words::byte_at(sent, 4) {
        0x00 => Some(Command::Display(start, end)),
        0x01 => Some(Command::BlankCheck(start, end)),
        _ => None,
    }
}

// The rows of type 05h.
fn read_form(sent: &[u8]) -> Option<Command>
    ensures { result ≡ read_form sent.now }
{
    if sent.len() != 2 {
        return None;
    }
    read_row(words::high_at(sent, 0))
}

// The command of a record with this type, load offset and data.
#[tactic(auto, unfolding(plug::specs::Commands::form))]
pub fn form_of(kind: u8, offset: u16, sent: &[u8]) -> Option<Command>
    ensures { result ≡ form kind offset sent.now }
{
    match kind {
        0x00 => Some(Command::Program(FlashAddress(offset))),
        0x03 => change_row(sent),
        0x04 => range_form(sent),
        0x05 => read_form(sent),
        _ => None,
    }
}

fn bad_program(start: FlashAddress, n: usize) -> bool
    ensures { result ≡ is_bad_range (Command.Program start) n }
{
    n < 1 || MOST_PROGRAM < n || FLASH_SIZE < usize::from(start.0) + n
}

// Whether a range is backward or goes past FFFFh, of a record with n bytes of data.
pub fn bad_range(command: Command, n: usize) -> bool
    ensures { result ≡ is_bad_range command n }
{
    match command {
        Command::Program(start) => bad_program(start, n),
        Command::Display(start, end) => end.0 < start.0,
        Command::BlankCheck(start, end) => end.0 < start.0,
        Command::EraseBlock(_) => false,
        Command::EraseChip => false,
        Command::Write(_) => false,
        Command::Read(_) => false,
        Command::StartReset => false,
        Command::StartAt(_) => false,
    }
}
