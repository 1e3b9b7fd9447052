// Erasing flash: the three blocks and the whole, and pages of the flash of any board.
ghost use Rattle.std.specs.Prelude.{◌≡◌, ◌+◌, ◌*◌, ◌≤◌, length, replicate};
ghost use Rattle.words.specs.Words.{overlay};
ghost use Rattle.memory.specs.Memory.{page_size, most_flash};
ghost use Rattle.memory.specs.Pages.{store_all};
ghost use Rattle.memory.specs.Erase.{block_erase, chip_erase, pages_erase};

use crate::address::{Block, Page};
use crate::page::{page_after, store_whole};
use crate::{FLASH_PAGES, FLASH_SIZE, MOST_FLASH, PAGE_SIZE};

// Stores pages of FFh, so many from a first one on. Stays apart from `store_pages`: there is one page of FFh, and no bytes of that length.
fn erase_pages(flash: &mut [u8], first: Page, count: usize)
    requires { (page_size * (first.0 + count) ≤ length flash.old) × (length flash.old ≤ most_flash) }
    ensures { flash.new ≡ overlay (page_size * first.0) (replicate (page_size * count) 0xFF) flash.old }
{
    let blank = [0xFFu8; PAGE_SIZE];
    for n in 0..count {
        store_whole(flash, page_after(first, n), &blank, 0);
    }
}

// Erases a block, and answers how many pages were stored: 64, 64 or 128, or 0, with nothing erased, where the flash has not its
// size.
pub fn erase_block(flash: &mut [u8], block: Block) -> usize
    ensures value { result ≡ length (block_erase block flash.old) }
    ensures flash_after { flash.new ≡ store_all (block_erase block flash.old) flash.old }
{
    if flash.len() != FLASH_SIZE {
        return 0;
    }
    match block {
        Block::Low => erase_from(flash, Page(0), 64),
        Block::Middle => erase_from(flash, Page(64), 64),
        Block::High => erase_from(flash, Page(128), 128),
    }
}

// Erases the whole flash, and answers how many pages were stored: 256, or 0, with nothing erased, where the flash has not its
// size.
pub fn erase_chip(flash: &mut [u8]) -> usize
    ensures value { result ≡ length (chip_erase flash.old) }
    ensures flash_after { flash.new ≡ store_all (chip_erase flash.old) flash.old }
{
    if flash.len() != FLASH_SIZE {
        return 0;
    }
    erase_from(flash, Page(0), FLASH_PAGES)
}

// Erases so many pages from a first one on, and answers how many were stored: 0, with nothing erased, where the flash has not so
// many or is over 65,536 bytes.
pub fn erase_from(flash: &mut [u8], first: Page, count: usize) -> usize
    ensures value { result ≡ length (pages_erase first count flash.old) }
    ensures flash_after { flash.new ≡ store_all (pages_erase first count flash.old) flash.old }
{
    let pages = flash.len() / PAGE_SIZE;
    let before = usize::from(first.0);
    if MOST_FLASH < flash.len() || pages < before || pages - before < count {
        return 0;
    }
    erase_pages(flash, first, count);
    count
}
