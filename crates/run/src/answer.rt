// What is written for a job.
ghost use Rattle.std.specs.Prelude.{◌≡◌, ◌≤◌, length, replicate};
ghost use Rattle.words.specs.Words.{overlay};
ghost use Rattle.memory.specs.Memory.{eeprom_size, blank_flash};
ghost use Rattle.job.specs.Verdict.{verdict, accepted};
ghost use Rattle.rules.specs.Refusals.{reply_size};
ghost use Rattle.lines.specs.Room.{Stands};
ghost use Rattle.run.specs.Bench.{written_for, bench};
ghost use Rattle.run.specs.Run.{most_output};

use crate::run::run_all;
use job::{check_job, count_requests};
use lines::end_of;
use memory::{EEPROM_SIZE, FLASH_SIZE};
use printing::{job_line, refused_line};

const REPLY_SIZE: usize = 1024;

// No answer is longer: the line that states the count, and 1,490 lines of requests.
pub const MOST_OUTPUT: usize = 25 + 2139 * 1490;

// "all memory FFh". Stays beside blank_eeprom: the flash is known by a shut name, and not byte by byte.
fn blank_flash() -> [u8; FLASH_SIZE]
    ensures { result ≡ blank_flash }
{
    [0xFF; FLASH_SIZE]
}

fn blank_eeprom() -> [u8; EEPROM_SIZE]
    ensures { result ≡ replicate eeprom_size 0xFF }
{
    [0xFF; EEPROM_SIZE]
}

fn reply_buffer() -> [u8; REPLY_SIZE]
    ensures { length result ≡ reply_size }
{
    [0; REPLY_SIZE]
}

// States the count, and runs the job on "a delivered board, all memory FFh".
fn run_accepted(file: &[u8], room: &mut [u8]) -> usize
    requires file_value { verdict file.now ≡ accepted }
    requires most_output_in_bounds { most_output ≤ length room.old }
    ensures { Stands 0 (written_for file.now accepted) room.old result room.new }
{
    let place = end_of(job_line(count_requests(file), room, 0));
    let mut flash = blank_flash();
    let mut eeprom = blank_eeprom();
    let mut reply = reply_buffer();
    run_all(file, &mut flash, &mut eeprom, &mut reply, room, place)
}

// Writes what answers a file of any bytes at the start of the room, and gives its length.
fn write_whole(file: &[u8], room: &mut [u8]) -> usize
    requires { most_output ≤ length room.old }
    ensures { Stands 0 (bench file.now) room.old result room.new }
{
    match check_job(file) {
        Ok(()) => run_accepted(file, room),
        Err(refusal) => end_of(refused_line(refusal.cause.number(), refusal.at, room, 0)),
    }
}

// Writes what answers a file of any bytes at the start of the room, and gives its length. Past the answer the room stays as it was. No
// room is too short: by its type it takes the longest answer.
pub fn write_answer(file: &[u8], room: &mut [u8; MOST_OUTPUT]) -> usize
    ensures value { result ≡ length (bench file.now) }
    ensures room_after { room.new ≡ overlay 0 (bench file.now) room.old }
    ensures upper_bound { result ≤ length room.new }
{
    write_whole(file, room)
}
