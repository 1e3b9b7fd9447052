// Programming a range of flash, and a range of EEPROM: two operations, each over its own addresses and lent its own memory alone; and
// storing bytes into the flash of any board.
ghost use Rattle.std.specs.Prelude.{◌≡◌, ◌+◌, ◌-◌, ◌*◌, ◌%◌, ◌≤◌, ◌<◌, min, length, take, drop};
ghost use Rattle.words.specs.Words.{overlay};
ghost use Rattle.memory.specs.Memory.{page_size, most_flash, eeprom_size};
ghost use Rattle.memory.specs.Pages.{store_all, pages_met};
ghost use Rattle.memory.specs.Program.{programmable, storable, flash_stores, eeprom_after, bytes_stores};

use crate::address::{EepromAddress, FlashAddress, Page};
use crate::page::{page_after, store_page, store_whole};
use crate::{EEPROM_SIZE, FLASH_SIZE, MOST_FLASH, PAGE_SIZE};

// Stores a part of a page, and answers how many pages were stored: 1, or 0 where there are no bytes.
fn store_part(flash: &mut [u8], page: Page, at: usize, bytes: &[u8]) -> usize
    requires bytes_bound { (at + length bytes.now ≤ page_size) × (page_size * page.0 + (at + length bytes.now) ≤ length flash.old) }
    requires page_size_len { length flash.old % page_size ≡ 0 }
    ensures value { result ≡ min 1 (length bytes.now) }
    ensures flash_after { flash.new ≡ overlay (page_size * page.0 + at) bytes.now flash.old }
{
    if bytes.is_empty() {
        return 0;
    }
    store_page(flash, page, at, bytes)
}

// Stores whole pages, so many from a first one on, with the bytes from an index of theirs on.
fn store_pages(flash: &mut [u8], first: Page, count: usize, bytes: &[u8], from: usize)
    requires { (page_size * (first.0 + count) ≤ length flash.old) × (length flash.old ≤ most_flash) × (from + page_size * count ≤ length bytes.now) }
    ensures { flash.new ≡ overlay (page_size * first.0) (take (page_size * count) (drop from bytes.now)) flash.old }
{
    for n in 0..count {
        store_whole(flash, page_after(first, n), bytes, from + PAGE_SIZE * n);
    }
}

// Stores each page that the bytes meet, from an address on, and answers how many those are: a part of the first page, whole pages
// and a part of the last. The whole pages have a loop of their own, so that the compiler knows how long each of their stores is.
fn program_pages(flash: &mut [u8], start: FlashAddress, bytes: &[u8]) -> usize
    requires bytes_nonzero { (0 < length bytes.now) × (start.0 + length bytes.now ≤ length flash.old) }
    requires page_size_len { (length flash.old % page_size ≡ 0) × (length flash.old ≤ most_flash) }
    ensures value { result ≡ pages_met start.0 (start.0 + length bytes.now - 1) }
    ensures flash_after { flash.new ≡ overlay start.0 bytes.now flash.old }
{
    let first = usize::from(start.0);
    let n = bytes.len();
    let place = first % PAGE_SIZE;
    let head = ((PAGE_SIZE - place) % PAGE_SIZE).min(n);
    let count = (n - head) / PAGE_SIZE;
    let tail = head + PAGE_SIZE * count;
    let next = Page(((first + head) / PAGE_SIZE) as u16);
    let front = store_part(
        flash,
        Page((first / PAGE_SIZE) as u16),
        place,
        &bytes[..head],
    );
    store_pages(flash, next, count, bytes, head);
    let back = store_part(flash, page_after(next, count), 0, &bytes[tail..]);
    front + count + back
}

// Whether a flash is whole pages of at most 65,536 bytes, and there are bytes that don't pass its end.
fn is_storable(start: FlashAddress, bytes: &[u8], flash: &[u8]) -> bool
    ensures { result ≡ storable start.0 bytes.now flash.now }
{
    let first = usize::from(start.0);
    !bytes.is_empty()
        && first <= flash.len()
        && bytes.len() <= flash.len() - first
        && flash.len() % PAGE_SIZE == 0
        && flash.len() <= MOST_FLASH
}

// Stores each page that the bytes meet, from an address on, and answers how many those are: 0, with nothing stored, where there are
// no bytes, they pass the flash's end, or the flash isn't whole pages of at most 65,536 bytes.
pub fn store_bytes(flash: &mut [u8], start: FlashAddress, bytes: &[u8]) -> usize
    ensures value { result ≡ length (bytes_stores start bytes.now flash.old) }
    ensures flash_after { flash.new ≡ store_all (bytes_stores start bytes.now flash.old) flash.old }
{
    if !is_storable(start, bytes, flash) {
        return 0;
    }
    program_pages(flash, start, bytes)
}

// Stays: programming flash and EEPROM are two operations, each with its own kind of address; what they share is this test.
//
// Whether a memory has the size that it should have, the range is forward and inside it, and the bytes are as many as the range
// has: the one test for both memories.
fn is_programmable(size: usize, first: u16, last: u16, bytes: &[u8], memory: &[u8]) -> bool
    ensures { result ≡ programmable size first last bytes.now memory.now }
{
    memory.len() == size
        && first <= last
        && usize::from(last) < size
        && bytes.len() == usize::from(last - first) + 1
}

// Programs a range of flash, and answers how many pages were stored. Where the flash has not its size, the range is backward or outside,
// or the bytes are not as many as the range has, nothing is programmed and the answer is 0.
pub fn program_flash(
    start: FlashAddress,
    end: FlashAddress,
    bytes: &[u8],
    flash: &mut [u8],
) -> usize
    ensures value { result ≡ length (flash_stores start end bytes.now flash.old) }
    ensures flash_after { flash.new ≡ store_all (flash_stores start end bytes.now flash.old) flash.old }
{
    if !is_programmable(FLASH_SIZE, start.0, end.0, bytes, flash) {
        return 0;
    }
    program_pages(flash, start, bytes)
}

// Programs a range of EEPROM, and answers whether it did. Where the EEPROM has not its size, the range is backward or outside, or the
// bytes are not as many as the range has, nothing is programmed and the answer is false.
pub fn program_eeprom(
    start: EepromAddress,
    end: EepromAddress,
    bytes: &[u8],
    eeprom: &mut [u8],
) -> bool
    ensures value { result ≡ programmable eeprom_size start.0 end.0 bytes.now eeprom.old }
    ensures eeprom_after { eeprom.new ≡ eeprom_after start end bytes.now eeprom.old }
{
    if !is_programmable(EEPROM_SIZE, start.0, end.0, bytes, eeprom) {
        return false;
    }
    words::lay(eeprom, usize::from(start.0), bytes)
}
