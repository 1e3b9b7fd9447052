// What comes before the first record: the board that a file is run on, and the line that its text begins with.
ghost use Rattle.std.specs.Prelude.{◌≡◌};
ghost use Rattle.words.specs.Words.{laid};
ghost use Rattle.lines.specs.Room.{put};
ghost use Rattle.plug.specs.Step.{blank_flash};
ghost use Rattle.plugrun.specs.Written.{start_config, first_text};
ghost use Rattle.plugrun.specs.Turn.{start_place, start_progress};

use crate::turn::Progress;
use lines::TooShort;
use listing::{MOST_FILE, count_records, starts_erased};
use plug::{Config, FLASH_SIZE};
use plugtables::{delivered, erased};
use printing::{records_line, refused_line};

// "file too long"
const TOO_LONG: u8 = 16;

// The flash that a run begins with: all FFh, as delivered and as after a full chip erase.
pub fn blank_flash() -> [u8; FLASH_SIZE]
    ensures { result ≡ blank_flash }
{
    [0xFF; FLASH_SIZE]
}

// The configuration of a board after a full chip erase, or of a delivered one.
#[tactic(auto, unfolding(crate::specs::Written::start_config))]
fn start_config(file: &[u8]) -> Config
    ensures { result ≡ start_config file.now }
{
    if starts_erased(file) {
        erased()
    } else {
        delivered()
    }
}

// Where the walk begins: past all records in a file that is too long.
fn start_place(file: &[u8]) -> usize
    ensures { result ≡ start_place file.now }
{
    if MOST_FILE < file.len() {
        file.len()
    } else {
        0
    }
}

// The configuration that a file of any bytes is run on, and where the walk to its first record begins.
pub fn start(file: &[u8]) -> Progress
    ensures { result ≡ start_progress file.now }
{
    let config = start_config(file);
    let at = start_place(file);
    Progress { config, at }
}

// Writes the line that a file's text begins with to the front of the room, and answers the place after it: how many records the file
// holds, or that it is too long. Refuses a room that is too short with 9; then the room stays as it was, and otherwise the room past
// the line does.
#[tactic(auto, unfolding(crate::specs::Written::first_text))]
pub fn first_line(file: &[u8], room: &mut [u8]) -> Result<usize, TooShort>
    ensures value { result ≡ put 0 (first_text file.now) room.old }
    ensures room_after { room.new ≡ laid 0 (first_text file.now) room.old }
{
    if MOST_FILE < file.len() {
        return refused_line(TOO_LONG, 0, room, 0);
    }
    records_line(count_records(file), room, 0)
}
