// The display: lines of up to 16 bytes of flash, in capital hex.
ghost use Rattle.std.specs.Prelude.{◌+◌, ◌-◌, ◌*◌, ◌≤◌, ◌<◌, length};
ghost use Rattle.lines.specs.Room.{Stands};
ghost use Rattle.memory.specs.Memory.{most_flash};
ghost use Rattle.plug.specs.Answers.{display_line, display_text};
ghost use Rattle.plug.specs.Step.{in_room};
ghost use Rattle.plug.specs.Answered.{Replied};
ghost use Rattle.replies.specs.Replies.{displayed};

use crate::reply::{answered, no_room, quiet};
use lines::hex_text;
use memory::FlashAddress;
use plug::{Answer, Config, FLASH_SIZE, Outcome};

// "up to 16 data by line"
const LINE: usize = 16;

// How many characters of a line are no data: four digits, `=`, CR and LF.
const LINE_REST: usize = 7;

// "2 when the flash isn't 65,536 bytes", "17 for .. a backward range".
const WRONG_FLASH: u8 = 2;

const BAD_RANGE: u8 = 17;

// Puts the line of the bytes from one place of the flash up to before another, and answers the place after it.
fn put_line(room: &mut [u8], at: usize, flash: &[u8], from: usize, to: usize) -> usize
    requires from_lt_to { (from < to) × (to ≤ length flash.now) × (to ≤ most_flash) }
    requires from_in_bounds { at + 7 + 2 * (to - from) ≤ length room.old }
    ensures { Stands at (display_line from (to - 1) flash.now) room.old result room.new }
{
    let address = from as u16;
    let equals = hex_text(&address.to_be_bytes(), room, at).unwrap();
    words::lay(room, equals, b"=");
    let end = hex_text(&flash[from..to], room, equals + 1).unwrap();
    words::lay(room, end, b"\r\n");
    end + 2
}

// Puts the lines of the bytes from one place of the flash up to before another.
fn put_lines(room: &mut [u8], flash: &[u8], first: usize, past: usize) -> usize
    requires first_lt_past { (first < past) × (past ≤ length flash.now) × (past ≤ most_flash) }
    requires flash_in_bounds { length (display_text first (past - 1) flash.now) ≤ length room.old }
    ensures { Stands 0 (display_text first (past - 1) flash.now) room.old result room.new }
{
    let mut place = 0;
    // By pieces of the flash: an end that is the least of two numbers takes the step 96 bytes more of stack.
    for (n, line) in flash[first..past].chunks(LINE).enumerate() {
        let from = first + LINE * n;
        place = put_line(room, place, flash, from, from + line.len());
    }
    place
}

// Displays a range of flash, the whole answer or 9.
pub fn say_display(
    config: Config,
    start: FlashAddress,
    end: FlashAddress,
    flash: &[u8],
    room: &mut [u8],
) -> Answer
    ensures { let said = displayed config start.0 end.0 flash.now in
        Replied (in_room config (length room.old) said) result room.new room.old }
{
    let first = usize::from(start.0);
    let past = usize::from(end.0) + 1;
    if flash.len() != FLASH_SIZE {
        return quiet(config, Outcome::Refused(WRONG_FLASH));
    }
    if past <= first {
        return quiet(config, Outcome::Refused(BAD_RANGE));
    }
    let n = past - first;
    let size = LINE_REST * ((n + LINE - 1) / LINE) + 2 * n;
    if room.len() < size {
        return no_room(config);
    }
    let length = put_lines(room, flash, first, past);
    answered(config, length, 0)
}
