// The walk from one request of a job to the next.
ghost use Rattle.std.specs.Prelude.{◌≡◌};
ghost use Rattle.job.specs.Walk.{walk, first_met};

use crate::field::{GROUP, HEAD_SIZE, REQUEST, reach_of};

// Where a request's value begins, and its size.
#[derive(Clone, Copy, Debug, PartialEq, Eq)]
pub struct Span {
    pub start: usize,
    pub size: usize,
}

// The first request that the walk meets from a place on, or none where it meets no more. The next walk starts behind the value.
pub fn next_request(file: &[u8], from: usize) -> Option<Span>
    ensures { result ≡ first_met (walk file.now from) }
{
    let mut at = from;
    while at < file.len() {
        let size = reach_of(file, at, file.len())?;
        let tag = file[at];
        let start = at + HEAD_SIZE;
        if tag == REQUEST {
            return Some(Span { start, size });
        }
        at = if tag == GROUP { start } else { start + size };
    }
    None
}
