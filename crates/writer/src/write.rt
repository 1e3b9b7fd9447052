// A command, its body and its suffix, written into a lent room.
ghost use Rattle.std.specs.Prelude.{◌≡◌};
ghost use Rattle.command.specs.Transfer.{transfer_of};
ghost use Rattle.writer.specs.Writer.{Put, tail_for, bad_parts, bad_write, put_bytes, put_answer, put_room, write_command, room_after};
ghost use Rattle.writer.specs.Writer.{write_error_number, written_number, written_count};

use crate::head::{Head, head_of};
use command::{Command, FILLER_SIZE, SUFFIX_SIZE};

// Why nothing is written: a command that the loader would not take, or a room that is too short.
#[derive(Clone, Copy, Debug, PartialEq, Eq)]
pub enum WriteError {
    WrongCommand,
    TooShort,
}

impl WriteError {
    // The number of the refusal.
    pub fn number(self) -> u8
        ensures { result ≡ write_error_number self }
    {
        match self {
            WriteError::WrongCommand => 8,
            WriteError::TooShort => 9,
        }
    }
}

// The number of the refusal, and 0 where there is none. Stays: C is given it as a byte.
pub fn written_number(written: Result<usize, WriteError>) -> u8
    ensures { result ≡ written_number written }
{
    match written {
        Ok(_) => 0,
        Err(error) => error.number(),
    }
}

// How many bytes were written, and 0 where it refused.
pub fn written_count(written: Result<usize, WriteError>) -> usize
    ensures { result ≡ written_count written }
{
    written.unwrap_or(0)
}

// How much follows a command's head: zeros of filler and pad, bytes of the body, bytes of the suffix.
// Stays: three sizes that `put` asks at once; an Option of them would be asked twice.
#[derive(Clone, Copy, Debug, PartialEq, Eq)]
pub struct Tail {
    pub zeros: usize,
    pub body: usize,
    pub suffix: usize,
}

fn tail_of(command: Command, body: usize, suffix: usize) -> Tail
    ensures { result ≡ tail_for command body suffix }
{
    match command::transfer_of(command) {
        Some(transfer) => Tail {
            zeros: FILLER_SIZE + usize::from(transfer.pad),
            body,
            suffix,
        },
        None => Tail {
            zeros: 0,
            body: 0,
            suffix: 0,
        },
    }
}

// Whether a program transfer's body is not as long as its range, or its suffix not 16 bytes.
fn bad_parts(command: Command, body: usize, suffix: usize) -> bool
    ensures { result ≡ bad_parts (transfer_of command) body suffix }
{
    match command::transfer_of(command) {
        Some(transfer) => body != (transfer.bytes as usize) || suffix != SUFFIX_SIZE,
        None => false,
    }
}

// Whether a command's body, suffix or index is wrong.
fn bad_write(command: Command, body: usize, suffix: usize) -> bool
    ensures { result ≡ bad_write command body suffix }
{
    match command {
        Command::WriteByte(index, _) => !config::is_writable(index),
        Command::ReadByte(index) => !config::is_readable(index),
        _ => bad_parts(command, body, suffix),
    }
}

// Puts head, zeros, body and suffix into the room, one after the other, if they fit.
fn put(
    head: Head,
    tail: Tail,
    body: &[u8],
    suffix: &[u8],
    room: &mut [u8],
) -> Result<usize, WriteError>
    requires { Put head tail body.now suffix.now }
    ensures value { result ≡ put_answer (put_bytes head tail body.now suffix.now) room.old }
    ensures room_after { room.new ≡ put_room (put_bytes head tail body.now suffix.now) room.old }
{
    let at_zeros = head.size;
    let fill = tail.zeros;
    let from_body = tail.body;
    let from_suffix = tail.suffix;
    let at_body = at_zeros + fill;
    let at_suffix = at_body + from_body;
    let end = at_suffix + from_suffix;
    if room.len() < end {
        return Err(WriteError::TooShort);
    }
    let bytes = head.bytes;
    let zeros = [0u8; 57];
    words::lay(room, 0, &bytes[..at_zeros]);
    words::lay(room, at_zeros, &zeros[..fill]);
    words::lay(room, at_body, &body[..from_body]);
    words::lay(room, at_suffix, &suffix[..from_suffix]);
    Ok(end)
}

// Writes a command into the room, and answers how many bytes that took; a program transfer with its body and its suffix, at which
// no other command looks. Refuses a command that the loader would not take with 8, and a room that is too short with 9; then the
// room stays as it was, and otherwise the room past the answer does.
#[tactic(auto, using(crate::proofs::WriterLaws::put_command), unfolding(crate::specs::Writer::write_command, crate::specs::Writer::room_after))]
pub fn write_command(
    command: Command,
    body: &[u8],
    suffix: &[u8],
    room: &mut [u8],
) -> Result<usize, WriteError>
    ensures value { result ≡ write_command command body.now suffix.now room.old }
    ensures room_after { room.new ≡ room_after command body.now suffix.now room.old }
{
    if command::bad_address(command) || bad_write(command, body.len(), suffix.len()) {
        return Err(WriteError::WrongCommand);
    }
    let head = head_of(command);
    let tail = tail_of(command, body.len(), suffix.len());
    put(head, tail, body, suffix, room)
}
