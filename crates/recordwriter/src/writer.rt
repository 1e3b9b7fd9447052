// The host's record writer.
ghost use Rattle.std.specs.Prelude.{◌≡◌, ◌+◌, ◌%◌, ◌≤◌, [], ◌∷◌, ◌++◌, length};
ghost use Rattle.lines.specs.Room.{Stands};
ghost use Rattle.record.specs.Record.{character_count, sum, record_over};
ghost use Rattle.record.specs.Writer.{write_record, room_written};

use lines::hex_text;
use record::{CHECKSUM_SIZE, HEAD_SIZE, MARK, WriteError};

// What the bytes come to, added to a number, modulo 256.
fn added(number: u8, bytes: &[u8]) -> u8
    ensures { result ≡ (number + sum bytes.now) % 256 }
{
    let mut total = number;
    for byte in bytes {
        total = total.wrapping_add(*byte);
    }
    total
}

// Puts the mark, and after it the digits of the head, the data and the checksum, and answers the place after them.
fn put_record(room: &mut [u8], head: [u8; HEAD_SIZE], bytes: &[u8], checksum: u8) -> usize
    requires { character_count (length bytes.now) ≤ length room.old }
    ensures { Stands 0 (record_over (head ++ bytes.now ++ checksum ∷ [])) room.old result room.new }
{
    words::lay(room, 0, &[MARK]);
    let body = hex_text(&head, room, 1).unwrap();
    let last = hex_text(bytes, room, body).unwrap();
    hex_text(&[checksum], room, last).unwrap()
}

// Writes a record in capitals at the front of the room. Refuses data that no record can carry with 17, and a room that is too short
// with 9; then the room stays as it was, and otherwise the room past the record does.
#[tactic(auto, using(record::proofs::RecordLaws::length_record_of), unfolding(record::specs::Writer::write_record, record::specs::Writer::room_written))]
pub fn write_record(
    offset: u16,
    kind: u8,
    bytes: &[u8],
    room: &mut [u8],
) -> Result<usize, WriteError>
    ensures value { result ≡ write_record offset kind bytes.now room.old }
    ensures room_after { room.new ≡ room_written offset kind bytes.now room.old }
{
    let Ok(length) = u8::try_from(bytes.len()) else {
        return Err(WriteError::BadRecord);
    };
    let size = 1 + 2 * (HEAD_SIZE + bytes.len() + CHECKSUM_SIZE);
    if room.len() < size {
        return Err(WriteError::TooShort);
    }
    let [high, low] = offset.to_be_bytes();
    let head = [length, high, low, kind];
    let total = added(added(0, &head), bytes);
    Ok(put_record(room, head, bytes, total.wrapping_neg()))
}
