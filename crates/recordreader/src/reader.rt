// The loader's record reader.
ghost use Rattle.std.specs.Prelude.{◌≡◌};
ghost use Rattle.record.specs.Reader.{data_count, read_record, room_read};

use crate::pairs::read_pairs;
use record::{CHECKSUM_SIZE, Fields, HEAD_SIZE, MARK, MOST_DATA, ReadError};

// How many bytes the longest record has, and how many characters one without data: the mark, and two for each byte.
const MOST_BYTES: usize = HEAD_SIZE + MOST_DATA + CHECKSUM_SIZE;

const FEWEST_CHARACTERS: usize = 1 + 2 * (HEAD_SIZE + CHECKSUM_SIZE);

// How many bytes of data a record of so many characters has, if it is one.
fn data_count(characters: usize) -> usize
    ensures { result ≡ data_count characters }
{
    (characters.saturating_sub(FEWEST_CHARACTERS) / 2).min(MOST_DATA)
}

// Reads the characters of a record, from its mark to its checksum: the fields, with the data at the front of the room; or why there are
// none. Then the room stays as it was.
pub fn read_record(characters: &[u8], room: &mut [u8]) -> Result<Fields, ReadError>
    ensures value { result ≡ read_record characters.now room.old }
    ensures room_after { room.new ≡ room_read characters.now room.old }
{
    let n = data_count(characters.len());
    if characters.len() != FEWEST_CHARACTERS + 2 * n || characters[0] != MARK {
        return Err(ReadError::BadRecord);
    }
    let mut held = [0u8; MOST_BYTES];
    let count = HEAD_SIZE + n + CHECKSUM_SIZE;
    let total = read_pairs(characters, count, &mut held).ok_or(ReadError::BadRecord)?;
    if usize::from(held[0]) != n {
        return Err(ReadError::BadRecord);
    }
    if total != 0 {
        return Err(ReadError::WrongChecksum);
    }
    if room.len() < n {
        return Err(ReadError::TooShort);
    }
    words::lay(room, 0, &held[HEAD_SIZE..HEAD_SIZE + n]);
    Ok(Fields {
        offset: words::high_first(held[1], held[2]),
        kind: held[3],
        length: n,
    })
}
