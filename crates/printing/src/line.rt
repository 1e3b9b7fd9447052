// The lines that the bench program prints.
ghost use Rattle.std.specs.Prelude.{◌≡◌, ◌++◌, ◌+◌, ◌*◌, ◌≤◌, ◌<◌, length};
ghost use Rattle.words.specs.Words.{laid};
ghost use Rattle.lines.specs.Text.{most_digits, decimal, hex_byte};
ghost use Rattle.lines.specs.Line.{letters, word_text, reply_text, space, request_line, count_line, job_line, refused_line};
ghost use Rattle.lines.specs.Room.{put, request_size, refused_size, Stands};

use crate::text::{digits, put_byte, put_number, put_text};
use lines::{TooShort, Word, fits, hex_text};

// Stays: bytes are printed `as usize`; with a From, tried, the sizes and texts of three lines did not close.

// How many bytes of a line never vary in number: of a request's line five spaces, two hex digits and the line feed, and of the others
// their words, spaces and the line feed.
const REQUEST_REST: usize = 8;

const JOB_REST: usize = 5;

const REFUSED_REST: usize = 13;

// The letters of a word, before the number that a refusal has.
fn letters(word: Word) -> &'static [u8]
    ensures { result.now ≡ letters word }
{
    match word {
        Word::Done => b"done",
        Word::Stall => b"stall",
        Word::Start => b"start",
        Word::Answered => b"answered",
        Word::Reset => b"reset",
        Word::Refused(_) => b"ref",
    }
}

pub(crate) fn word_size(word: Word) -> usize
    ensures value { result ≡ length (word_text word) }
    ensures upper_bound { result ≤ 3 + most_digits }
{
    let size = letters(word).len();
    match word {
        Word::Refused(number) => size + digits(number as usize),
        _ => size,
    }
}

// Puts the word, and a space after it.
pub(crate) fn put_word(room: &mut [u8], at: usize, word: Word) -> usize
    requires { at + length (word_text word) < length room.old }
    ensures stands { Stands at (word_text word ++ space) room.old result room.new }
    ensures value { result ≡ at + length (word_text word) + 1 }
{
    let end = put_text(room, at, letters(word));
    match word {
        Word::Refused(number) => put_number(room, end, number as usize, b' '),
        _ => put_byte(room, end, b' '),
    }
}

// How many bytes a reply has in a line besides two for each of its own: the one that stands for none.
fn dash_size(reply: &[u8]) -> usize
    ensures reply_value { result + 2 * length reply.now ≡ length (reply_text reply.now) }
    ensures upper_bound { result ≤ 1 }
{
    usize::from(reply.is_empty())
}

fn put_reply(room: &mut [u8], at: usize, reply: &[u8]) -> usize
    requires { at + length (reply_text reply.now) ≤ length room.old }
    ensures { Stands at (reply_text reply.now) room.old result room.new }
{
    if reply.is_empty() {
        put_byte(room, at, b'-')
    } else {
        hex_text(reply, room, at).unwrap()
    }
}

// "status (two capital hex digits)"
fn put_status(room: &mut [u8], at: usize, status: u8) -> usize
    requires { at + 2 ≤ length room.old }
    ensures { Stands at (hex_byte status) room.old result room.new }
{
    hex_text(&[status], room, at).unwrap()
}

// Puts the line of a request.
fn put_request(
    room: &mut [u8],
    at: usize,
    number: usize,
    word: Word,
    state: u8,
    status: u8,
    pages: usize,
    reply: &[u8],
) -> usize
    requires { at + request_size number word state pages reply.now ≤ length room.old }
    ensures { Stands at (request_line number word state status pages reply.now) room.old result room.new }
{
    let mut end = put_number(room, at, number, b' ');
    end = put_word(room, end, word);
    end = put_number(room, end, state as usize, b' ');
    end = put_status(room, end, status);
    end = put_byte(room, end, b' ');
    end = put_number(room, end, pages, b' ');
    end = put_reply(room, end, reply);
    put_byte(room, end, b'\n')
}

// Puts the line of a count, behind a text.
pub(crate) fn put_count(room: &mut [u8], at: usize, text: &[u8], count: usize) -> usize
    requires { at + length text.now + length (decimal count) < length room.old }
    ensures { Stands at (count_line text.now count) room.old result room.new }
{
    let end = put_text(room, at, text);
    put_number(room, end, count, b'\n')
}

fn put_refused(room: &mut [u8], at: usize, number: u8, place: usize) -> usize
    requires { at + refused_size number place ≤ length room.old }
    ensures { Stands at (refused_line number place) room.old result room.new }
{
    let mut end = put_text(room, at, b"refused ");
    end = put_number(room, end, number as usize, b' ');
    end = put_text(room, end, b"at ");
    put_number(room, end, place, b'\n')
}

// Writes the line of a request into the room from a place on, and answers the place after it. Refuses a room that is too short
// with 9; then the room stays as it was, and otherwise the room before the line and past it does.
pub fn request_line(
    number: usize,
    word: Word,
    state: u8,
    status: u8,
    pages: usize,
    reply: &[u8],
    room: &mut [u8],
    at: usize,
) -> Result<usize, TooShort>
    ensures value { result ≡ put at (request_line number word state status pages reply.now) room.old }
    ensures room_after { room.new ≡ laid at (request_line number word state status pages reply.now) room.old }
{
    let numbers = digits(number) + digits(state as usize) + digits(pages);
    let size = REQUEST_REST + numbers + word_size(word) + dash_size(reply);
    fits(size, reply.len(), room.len(), at)?;
    Ok(put_request(room, at, number, word, state, status, pages, reply))
}

// The same of the line that says how many requests a job holds.
pub fn job_line(count: usize, room: &mut [u8], at: usize) -> Result<usize, TooShort>
    ensures value { result ≡ put at (job_line count) room.old }
    ensures room_after { room.new ≡ laid at (job_line count) room.old }
{
    fits(JOB_REST + digits(count), 0, room.len(), at)?;
    Ok(put_count(room, at, b"job ", count))
}

// The same of the line that says why a job is refused, and where.
pub fn refused_line(number: u8, place: usize, room: &mut [u8], at: usize) -> Result<usize, TooShort>
    ensures value { result ≡ put at (refused_line number place) room.old }
    ensures room_after { room.new ≡ laid at (refused_line number place) room.old }
{
    fits(
        REFUSED_REST + digits(number as usize) + digits(place),
        0,
        room.len(),
        at,
    )?;
    Ok(put_refused(room, at, number, place))
}
