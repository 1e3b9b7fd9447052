// P4 of 02: each memory is programmed by an operation of its own, over its own addresses. Here with two bytes from 007Fh on, across the
// edge of a page of flash.
ghost use Rattle.std.specs.Prelude.{◌≡◌, length};
ghost use Rattle.memory.specs.Memory.{flash_address, eeprom_size};
ghost use Rattle.memory.specs.Program.{flash_stores, programmable};
ghost use Rattle.worked.specs.Apart.{heights};

use memory::{EEPROM_SIZE, EepromAddress, FLASH_SIZE, FlashAddress};

const HEIGHTS: [u8; 2] = [0x50, 0x52];

// How many pages the flash's operation stores in the memory that it is lent.
fn into_flash(lent: &mut [u8]) -> usize
    ensures { result ≡ length (flash_stores (flash_address 0x007F) (flash_address 0x0080) heights lent.old) }
{
    let bytes = HEIGHTS;
    memory::program_flash(FlashAddress(0x007F), FlashAddress(0x0080), &bytes, lent)
}

// Whether the EEPROM's operation programs the memory that it is lent.
fn into_eeprom(lent: &mut [u8]) -> bool
    ensures { result ≡ programmable eeprom_size 0x007F 0x0080 heights lent.old }
{
    let bytes = HEIGHTS;
    memory::program_eeprom(EepromAddress(0x007F), EepromAddress(0x0080), &bytes, lent)
}

// Each lent its own memory: two pages of flash are stored, and the EEPROM is programmed.
fn own_memory_lent() {
    let mut flash = [0xFF; FLASH_SIZE];
    let mut eeprom = [0xFF; EEPROM_SIZE];
    check::expect(into_flash(&mut flash) == 2);
    check::expect(into_eeprom(&mut eeprom));
}

// Each lent the other memory: each says that it programmed nothing.
fn other_memory_lent() {
    let mut flash = [0xFF; FLASH_SIZE];
    let mut eeprom = [0xFF; EEPROM_SIZE];
    check::expect(into_flash(&mut eeprom) == 0);
    check::expect(!into_eeprom(&mut flash));
}

pub(crate) fn apart() {
    own_memory_lent();
    other_memory_lent();
}
