// One turn of the run: the next record of the file is taken, and its text is written.
ghost use Rattle.std.specs.Prelude.{◌≡◌, Some, ◌++◌, ◌+◌, ◌≤◌, length};
ghost use Rattle.lines.specs.Text.{ascii};
ghost use Rattle.lines.specs.Room.{Stands};
ghost use Rattle.plug.specs.Answers.{hex_address};
ghost use Rattle.plug.specs.Step.{board};
ghost use Rattle.plugrun.specs.Written.{word_of, answer_text};
ghost use Rattle.plugrun.specs.Turn.{most_answer, most_text, left, took, turned, answered_text};

use lines::{Word, hex_text, plain_text};
use listing::{Span, next_record};
use memory::FlashAddress;
use plug::{Answer, Config, Outcome};
use printing::head_line;
use serial::step;

// No answer is longer: a display of all flash, in 4,096 lines of 32 digits and 7 other characters.
pub const MOST_ANSWER: usize = 159744;

// Nor is a text, with what stands before the answer.
pub const MOST_TEXT: usize = 66 + MOST_ANSWER;

// The configuration, and the place in the file from which on the next record is looked for.
#[derive(Clone, Copy, Debug, PartialEq, Eq)]
pub struct Progress {
    pub config: Config,
    pub at: usize,
}

// A record was taken: what the next turn starts from, and how many bytes its text has.
#[derive(Clone, Copy, Debug, PartialEq, Eq)]
pub struct Turn {
    pub progress: Progress,
    pub size: usize,
}

fn word_of(outcome: Outcome) -> Word
    ensures { result ≡ word_of outcome }
{
    match outcome {
        Outcome::Answered => Word::Answered,
        Outcome::StartedReset => Word::Reset,
        Outcome::StartedAt(_) => Word::Start,
        Outcome::Refused(number) => Word::Refused(number),
    }
}

// Puts the four digits of an address and a line feed, and answers the place after them.
fn put_address(address: FlashAddress, room: &mut [u8], at: usize) -> usize
    requires { at + 5 ≤ length room.old }
    ensures { Stands at (hex_address address.0 ++ ascii "\n") room.old result room.new }
{
    let end = hex_text(&address.0.to_be_bytes(), room, at).unwrap();
    plain_text(b"\n", room, end).unwrap()
}

// Puts the answer's own characters, an address to start at, or that there is none.
fn put_answer(outcome: Outcome, characters: &[u8], room: &mut [u8], at: usize) -> usize
    requires { at + length (answer_text outcome characters.now) ≤ length room.old }
    ensures { Stands at (answer_text outcome characters.now) room.old result room.new }
{
    match outcome {
        Outcome::Answered => plain_text(characters, room, at).unwrap(),
        Outcome::StartedReset => plain_text(b"-\n", room, at).unwrap(),
        Outcome::StartedAt(address) => put_address(address, room, at),
        Outcome::Refused(_) => plain_text(b"-\n", room, at).unwrap(),
    }
}

// Writes the text of an answer to the front of the room, and gives its length.
fn write_text(number: usize, answer: Answer, reply: &[u8], room: &mut [u8]) -> usize
    requires length_in_bounds { (answer.length ≤ length reply.now) × (answer.length ≤ most_answer) }
    requires most_text_in_bounds { most_text ≤ length room.old }
    ensures { Stands 0 (answered_text number answer reply.now) room.old result room.new }
{
    let outcome = answer.outcome;
    let length = answer.length;
    let head = head_line(number, word_of(outcome), answer.pages, room, 0).unwrap();
    put_answer(outcome, &reply[..length], room, head)
}

// Takes the record whose characters lie there.
fn take_record(
    file: &[u8],
    span: Span,
    number: usize,
    config: Config,
    flash: &mut [u8],
    reply: &mut [u8],
    room: &mut [u8],
) -> Turn
    requires start_le_end { (span.start ≤ span.end) × (span.end ≤ length file.now) }
    requires most_answer_in_bounds { (most_answer ≤ length reply.old) × (most_text ≤ length room.old) }
    ensures { let b = board config flash.old in
        left (Some result) flash.new reply.new room.new
        ≡ took file.now number b reply.old room.old span }
{
    let answer = step(config, &file[span.start..span.end], flash, reply);
    let size = write_text(number, answer, reply, room);
    let progress = Progress {
        config: answer.config,
        at: span.end,
    };
    Turn { progress, size }
}

// Takes the next record of a file of any bytes on a board of any configuration and flash: its answer comes to the front of `reply`, its
// text, which has this number, to the front of `room`; both are as long as the longest. Where no record is left nothing changes.
pub fn take_turn(
    file: &[u8],
    number: usize,
    progress: Progress,
    flash: &mut [u8],
    reply: &mut [u8; MOST_ANSWER],
    room: &mut [u8; MOST_TEXT],
) -> Option<Turn>
    ensures { left result flash.new reply.new room.new
        ≡ turned file.now number progress flash.old reply.old room.old }
{
    let span = next_record(file, progress.at)?;
    let config = progress.config;
    Some(take_record(file, span, number, config, flash, reply, room))
}
