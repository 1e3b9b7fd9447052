// The blank search: over the pages that a range meets, and within one page.
ghost use Rattle.std.specs.Prelude.{◌≡◌, ◌+◌, ◌≤◌, ◌<◌, MatchOption, length};
ghost use Rattle.memory.specs.Memory.{page_size};
ghost use Rattle.blank.specs.Blank.{AllBlank, FoundAt, used_in, used_of};

use memory::{FlashAddress, PAGE_SIZE, Page};

// What an erased byte holds.
const BLANK: u8 = 0xFF;

// The place of a byte that is FFh: past all places of a page, which are 0 to 127.
const NO_PLACE: u8 = 255;

// Searches one page, or the part of it from `from` on before `to`: where the first byte stands that is not FFh, or None if all are FFh.
// A byte that is not FFh has a place, counted from `from`, and the lowest place is kept. The compiler can take many bytes at a time,
// because no byte ends the loop early and a place is a byte too, so that none is kept as an Option in the loop.
fn used_in_page(flash: &[u8], from: usize, to: usize) -> Option<usize>
    requires { (from ≤ to) × (to ≤ from + page_size) × (to ≤ length flash.now) }
    ensures { MatchOption result (AllBlank from to flash.now) (λ at. FoundAt from to at flash.now) }
{
    // Stays: `position`, and a lowest place that is an Option or is set only where a byte is used, take over four times the instructions.
    let mut lowest = NO_PLACE;
    for (i, &byte) in flash[from..to].iter().enumerate() {
        let place = if byte == BLANK { NO_PLACE } else { i as u8 };
        lowest = lowest.min(place);
    }
    if lowest == NO_PLACE {
        None
    } else {
        Some(from + usize::from(lowest))
    }
}

// Where the first byte stands that is not FFh, from a start to an end, both in the range, or None if all are FFh. What lies past the
// flash's own end is not looked at. Searches page after page: `from` is where the search stands, and `to` is where it leaves the page,
// or the range.
pub fn first_used(flash: &[u8], start: FlashAddress, end: FlashAddress) -> Option<FlashAddress>
    ensures { result ≡ used_of (used_in start.0 end.0 flash.now) }
{
    let stop = (usize::from(end.0) + 1).min(flash.len());
    let mut from = usize::from(start.0);
    // Stays: a `for` over pages would cut each at both ends of the range, and ask for a backward range apart.
    while from < stop {
        let page = Page((from / PAGE_SIZE) as u16);
        let to = stop.min(PAGE_SIZE * (usize::from(page.0) + 1));
        if let Some(found) = used_in_page(flash, from, to) {
            return Some(FlashAddress(found as u16));
        }
        from = to;
    }
    None
}
