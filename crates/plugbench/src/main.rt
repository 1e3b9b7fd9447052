// The bench program of the serial plug: a file of records on standard input, and on standard output the text that answers it. What the
// text is stands in crates/plugrun; here its pieces are handed on one after another. No contract can say that standard input is read to
// its end, and that what is handed on reaches standard output.
#![tactic(auto)]

ghost use Rattle.std.specs.Prelude.{◌≡◌, ◌≤◌, ◌<◌, suc, length, take, IfOk, OnOk};
ghost use Rattle.std.specs.Io.KnownBytes.{Appends, Consumes, IsAtEnd};
ghost use Rattle.listing.specs.Records.{most_file};
ghost use Rattle.plugrun.specs.Written.{pieces, written};
ghost use Rattle.plugrun.specs.Turn.{most_text, IsPiece};

use lines::end_of;
use plugrun::{MOST_ANSWER, MOST_TEXT, blank_flash, first_line, start, take_turn};
use std::io;
use std::io::{Read, Write};

// One byte more than a file may have, so that a longer file is seen to be too long.
const FILE_ROOM: usize = 1048577;

fn file_room() -> [u8; FILE_ROOM]
    ensures { length result ≡ suc most_file }
{
    [0; FILE_ROOM]
}

// Room for the longest text of a record.
fn text_room() -> [u8; MOST_TEXT]
    ensures { length result ≡ most_text }
{
    [0; MOST_TEXT]
}

// Reads until the room is full or the input ends; answers how many bytes now stand at the front of the room.
// Stays, in both programs: a public function owes one permitted answer, which a read can't have (crates/input is the exception, for programs
// of others); and the library reads to the end into a heap, or fails where the input ends before the room does.
fn read_full<R: Read>(input: &mut R, room: &mut [u8]) -> io::Result<usize>
    ensures size { IfOk result (λ n. n ≤ length room.new) }
    ensures bytes { IfOk result (λ n. Consumes (R.remaining input.old) (R.remaining input.new) (take n room.new)) }
    ensures end { IfOk result (λ n. n < length room.new → IsAtEnd (R.remaining input.new)) }
{
    let mut size = 0;
    while size < room.len() {
        let read = input.read(&mut room[size..])?;
        if read == 0 {
            break;
        }
        size += read;
    }
    Ok(size)
}

// Hands the piece of this number on to the output; nothing else may be lent to it. Answers the number of the next piece.
fn write_piece<W: Write>(
    output: &mut W,
    file: &[u8],
    number: usize,
    piece: &[u8],
) -> io::Result<usize>
    requires { IsPiece file.now number piece.now }
    ensures next { IfOk result (λ next. next ≡ suc number) }
    ensures bytes { OnOk result (Appends (W.contents output.old) (W.contents output.new) piece.now) }
{
    output.write_all(piece)?;
    Ok(number + 1)
}

// Hands all pieces on, the first line and then the text of each record; answers how many they are.
fn write_pieces<W: Write>(output: &mut W, file: &[u8]) -> io::Result<usize>
    ensures count { IfOk result (λ n. n ≡ length (pieces file.now)) }
    ensures bytes { OnOk result (Appends (W.contents output.old) (W.contents output.new) (written file.now)) }
{
    let mut flash = blank_flash();
    let mut reply = [0; MOST_ANSWER];
    let mut room = text_room();
    let end = end_of(first_line(file, &mut room));
    let mut number = write_piece(output, file, 0, &room[..end])?;
    let mut progress = start(file);
    while let Some(turn) = take_turn(file, number, progress, &mut flash, &mut reply, &mut room) {
        number = write_piece(output, file, number, &room[..turn.size])?;
        progress = turn.progress;
    }
    Ok(number)
}

fn main(rt: HostRuntime) -> io::Result<()> {
    let mut file = file_room();
    let size = read_full(&mut rt.stdin(), &mut file)?;
    let written = write_pieces(&mut rt.stdout(), &file[..size]);
    if written.is_err() {
        rt.stderr()
            .write_all(b"plugbench: not all of the answers could be written\n")?;
    }
    written?;
    Ok(())
}
