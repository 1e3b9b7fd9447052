// How many records a file holds.
ghost use Rattle.std.specs.Prelude.{◌≡◌};
ghost use Rattle.listing.specs.Records.{record_count};

use crate::walk::next_record;

// A file that is longer is refused with 16.
pub const MOST_FILE: usize = 1048576;

// The records of a file of any bytes; a file that is too long holds none.
pub fn count_records(file: &[u8]) -> usize
    ensures { result ≡ record_count file.now }
{
    if file.len() > MOST_FILE {
        return 0;
    }
    let mut count = 0;
    let mut at = 0;
    while let Some(span) = next_record(file, at) {
        count += 1;
        at = span.end;
    }
    count
}
