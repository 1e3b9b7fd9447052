// A job's requests, run one after another.
ghost use Rattle.std.specs.Prelude.{◌≡◌, ◌+◌, ◌≤◌, length};
ghost use Rattle.config.specs.Config.{delivered_config};
ghost use Rattle.job.specs.Verdict.{most_file};
ghost use Rattle.job.specs.Walk.{walk};
ghost use Rattle.lines.specs.Line.{most_line};
ghost use Rattle.lines.specs.Room.{Stands};
ghost use Rattle.rules.specs.Session.{idle};
ghost use Rattle.rules.specs.Refusals.{reply_size};
ghost use Rattle.rules.specs.Result.{board};
ghost use Rattle.rules.specs.Answered.{Stepped};
ghost use Rattle.run.specs.Bench.{word_of, asked, lines};
ghost use Rattle.run.specs.Run.{Placed, answer_line, board_at, Ran, Ready};

use config::{Config, delivered};
use job::{Span, next_request};
use lines::Word;
use loader::step;
use printing::request_line;
use requests::power_up;
use rules::{Answer, Outcome, Session};

const SETUP_SIZE: usize = 8;

// Session and configuration, the number of the next request, and the place in the room where its line begins.
#[derive(Clone, Copy, Debug, PartialEq, Eq)]
pub struct Progress {
    pub session: Session,
    pub config: Config,
    pub number: usize,
    pub place: usize,
}

// Stays: neither type is of this crate, so that a From would have to stand in lines, which knows no outcomes, or in rules, which prints
// nothing.
fn word_of(outcome: Outcome) -> Word
    ensures { result ≡ word_of outcome }
{
    match outcome {
        Outcome::Done => Word::Done,
        Outcome::Stall => Word::Stall,
        Outcome::Started(_, _) => Word::Start,
        Outcome::Refused(number) => Word::Refused(number),
    }
}

// Asks the board the request whose value lies there.
fn ask_board(
    file: &[u8],
    span: Span,
    progress: Progress,
    flash: &mut [u8],
    eeprom: &mut [u8],
    reply: &mut [u8],
) -> Answer
    requires placed { Placed file.now span }
    requires reply_len { length reply.old ≡ reply_size }
    ensures { let b = board_at progress flash.old eeprom.old in
        Stepped b (asked file.now span b) result
        flash.new eeprom.new reply.new reply.old }
{
    let value = &file[span.start..span.start + span.size];
    step(
        progress.session,
        progress.config,
        &value[..SETUP_SIZE],
        &value[SETUP_SIZE..],
        flash,
        eeprom,
        reply,
    )
}

// Writes the line of an answer, and gives the place after it.
fn write_line(number: usize, answer: Answer, reply: &[u8], room: &mut [u8], place: usize) -> usize
    requires length_in_bounds { (answer.length ≤ length reply.now) × (length reply.now ≡ reply_size) }
    requires most_line_in_bounds { place + most_line ≤ length room.old }
    ensures stands { Stands place (answer_line number answer reply.now) room.old result room.new }
    ensures upper_bound { result ≤ place + most_line }
{
    let session = answer.session;
    request_line(
        number,
        word_of(answer.outcome),
        session.state,
        session.status,
        answer.pages,
        &reply[..answer.length],
        room,
        place,
    )
    .unwrap()
}

// Runs one request, and writes its line.
fn run_one(
    file: &[u8],
    span: Span,
    progress: Progress,
    flash: &mut [u8],
    eeprom: &mut [u8],
    reply: &mut [u8],
    room: &mut [u8],
) -> Progress
    requires placed { Placed file.now span }
    requires reply_len { length reply.old ≡ reply_size }
    requires number_le_most_file { (progress.number ≤ most_file) × (progress.place + most_line ≤ length room.old) }
    ensures { let b = board_at progress flash.old eeprom.old in
        Ran progress b (asked file.now span b) result
        flash.new eeprom.new room.old room.new }
{
    let answer = ask_board(file, span, progress, flash, eeprom, reply);
    let place = write_line(progress.number, answer, reply, room, progress.place);
    Progress {
        session: answer.session,
        config: answer.config,
        number: progress.number + 1,
        place,
    }
}

// Runs the requests that the walk meets from the start on.
pub(crate) fn run_all(
    file: &[u8],
    flash: &mut [u8],
    eeprom: &mut [u8],
    reply: &mut [u8],
    room: &mut [u8],
    place: usize,
) -> usize
    requires { Ready file.now reply.old room.old place }
    ensures { let b = board idle delivered_config flash.old eeprom.old in
        Stands place (lines file.now b 1 (walk file.now 0)) room.old result room.new }
{
    let mut progress = Progress {
        session: power_up(),
        config: delivered(),
        number: 1,
        place,
    };
    let mut cursor: usize = 0;
    while let Some(span) = next_request(file, cursor) {
        progress = run_one(file, span, progress, flash, eeprom, reply, room);
        cursor = span.start + span.size;
    }
    progress.place
}
