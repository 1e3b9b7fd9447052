// The worked examples of document 01, and of P1 and P4 of 02, run through the public functions. Each check is proved before it is run.
#![tactic(auto)]

ghost use Rattle.std.specs.Prelude.{◌≡◌};
ghost use Rattle.memory.specs.Memory.{flash_address};
ghost use Rattle.reader.specs.Payload.{fit};
ghost use Rattle.worked.specs.Padding.{body_at};

mod apart;
mod odd_board;

use command::Command;
use memory::FlashAddress;

// The command that programs a range of flash.
fn to_flash(start: u16, end: u16) -> Command
    ensures { result ≡ Command.ProgramFlash (flash_address start) (flash_address end) }
{
    Command::ProgramFlash(FlashAddress(start), FlashAddress(end))
}

// Where the body of a command begins in data of n bytes; 0 for data that does not fit it.
fn body_at(command: Command, n: usize) -> usize
    ensures { result ≡ body_at (fit command n) }
{
    reader::fit_of(command, n).map_or(0, |parts| parts.body)
}

// X for 00AFh is 15; the transfer of one byte there is 64 bytes, and not 65.
fn padding() {
    check::expect(body_at(to_flash(0x00AF, 0x00AF), 64) == 32 + 15);
    check::expect(body_at(to_flash(0x00AF, 0x00AF), 65) == 0);
}

// 0000h-0400h is too long, 7FFFh-7FFFh is the last byte, and 8000h-8000h lies outside.
fn addresses() {
    check::expect(command::bad_address(to_flash(0x0000, 0x0400)));
    check::expect(!command::bad_address(to_flash(0x7FFF, 0x7FFF)));
    check::expect(command::bad_address(to_flash(0x8000, 0x8000)));
}

// HSB 4Fh over BBh is 4Bh.
fn security_bits() {
    let config = config::write_hsb(config::delivered(), 0x4F);
    check::expect(config.hsb == 0x4B);
}

fn main() {
    padding();
    addresses();
    security_bits();
    odd_board::odd_board();
    apart::apart();
}
