// The lines of a file of records: how many there are, and what stands before each answer.
ghost use Rattle.std.specs.Prelude.{◌≡◌, ◌+◌, ◌≤◌, length};
ghost use Rattle.words.specs.Words.{laid};
ghost use Rattle.lines.specs.Line.{head_line, records_line};
ghost use Rattle.lines.specs.Room.{put, head_size, Stands};

use crate::line::{put_count, put_word, word_size};
use crate::text::{digits, put_number};
use lines::{TooShort, Word, fits};

// How many bytes never vary in number: of the count's line its word, a space and the line feed, of a head three spaces.
const RECORDS_REST: usize = 9;

const HEAD_REST: usize = 3;

fn put_head(room: &mut [u8], at: usize, number: usize, word: Word, pages: usize) -> usize
    requires { at + head_size number word pages ≤ length room.old }
    ensures { Stands at (head_line number word pages) room.old result room.new }
{
    let mut end = put_number(room, at, number, b' ');
    end = put_word(room, end, word);
    put_number(room, end, pages, b' ')
}

// Writes the line that says how many records a file holds into the room from a place on, and answers the place after it. Refuses a
// room that is too short with 9; then the room stays as it was, and otherwise the room before the line and past it does.
pub fn records_line(count: usize, room: &mut [u8], at: usize) -> Result<usize, TooShort>
    ensures value { result ≡ put at (records_line count) room.old }
    ensures room_after { room.new ≡ laid at (records_line count) room.old }
{
    fits(RECORDS_REST + digits(count), 0, room.len(), at)?;
    Ok(put_count(room, at, b"records ", count))
}

// The same of what stands before a record's answer: its number, the word for what came of it, and how many pages were stored.
pub fn head_line(
    number: usize,
    word: Word,
    pages: usize,
    room: &mut [u8],
    at: usize,
) -> Result<usize, TooShort>
    ensures value { result ≡ put at (head_line number word pages) room.old }
    ensures room_after { room.new ≡ laid at (head_line number word pages) room.old }
{
    let size = HEAD_REST + digits(number) + word_size(word) + digits(pages);
    fits(size, 0, room.len(), at)?;
    Ok(put_head(room, at, number, word, pages))
}
