// The two memories of document 01's board: reading and programming ranges of both, and the erases and the page store of flash.
// What stores bytes or erases pages from a place on takes the flash of any board.
// Stays: what stores or reads answers how many pages or bytes those are, 0 where it did nothing. That is their true number, and the busy count.
//
// No public function has a `requires`: each says what it answers for every input.
#![tactic(auto)]

mod address;
mod erase;
mod page;
mod programming;
mod reading;

pub use address::{Block, EepromAddress, FlashAddress, Page, Range};
pub use erase::{erase_block, erase_chip, erase_from};
pub use page::store_page;
pub use programming::{program_eeprom, program_flash, store_bytes};
pub use reading::{read_eeprom, read_flash};

// "Flash: 32,768 bytes, 0000h to 7FFFh, in 256 pages of 128. EEPROM: 1,024 bytes".
pub const FLASH_SIZE: usize = 32768;

pub const FLASH_PAGES: usize = 256;

pub const PAGE_SIZE: usize = 128;

pub const EEPROM_SIZE: usize = 1024;

// The most bytes of a flash, of any board.
const MOST_FLASH: usize = 65536;
