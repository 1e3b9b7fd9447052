// The walk from one record of a file to the next.
ghost use Rattle.std.specs.Prelude.{◌≡◌};
ghost use Rattle.listing.specs.Records.{records_from, first_met};

use crate::line::{is_record, line_end, without_return};

// Where the characters of a record begin, and the place after them. The next walk starts at that place.
#[derive(Clone, Copy, Debug, PartialEq, Eq)]
pub struct Span {
    pub start: usize,
    pub end: usize,
}

// The first line from a place on that is a record.
pub fn next_record(file: &[u8], from: usize) -> Option<Span>
    ensures { result ≡ first_met (records_from file.now from) }
{
    let mut at = from;
    while at < file.len() {
        let feed = line_end(file, at);
        let end = without_return(file, at, feed);
        if is_record(file, at, end) {
            return Some(Span { start: at, end });
        }
        at = feed + 1;
    }
    None
}
