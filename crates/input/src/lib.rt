// What a program reads from its input into a room that it lends: for a program of one's own. The two of this repository that read have each
// a function of their own with the same contract; docs/DECISIONS.md says why.
//
// No public function has a `requires`: it takes every reader and every room.
#![tactic(auto)]

ghost use Rattle.std.specs.Prelude.{◌≤◌, ◌<◌, length, take, IfOk};
ghost use Rattle.std.specs.Io.KnownBytes.{Consumes, IsAtEnd};

use std::io;
use std::io::Read;

#[cfg(test)]
mod tests;

// Reads until the room is full or the input ends; answers how many bytes now stand at the front of the room.
pub fn read_full<R: Read>(input: &mut R, room: &mut [u8]) -> io::Result<usize>
    ensures size { IfOk result (λ n. n ≤ length room.new) }
    ensures bytes { IfOk result (λ n. Consumes (R.remaining input.old) (R.remaining input.new) (take n room.new)) }
    ensures end { IfOk result (λ n. n < length room.new → IsAtEnd (R.remaining input.new)) }
{
    // Stays: the library reads to the end into a heap, or fails where the input ends before the room does.
    let mut size = 0;
    while size < room.len() {
        let read = input.read(&mut room[size..])?;
        if read == 0 {
            break;
        }
        size += read;
    }
    Ok(size)
}
