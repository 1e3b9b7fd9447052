// "how many requests a job holds, through all its groups".
ghost use Rattle.std.specs.Prelude.{◌≡◌, ◌-◌, ◌≤◌, length};
ghost use Rattle.job.specs.Requests.{request_count};
ghost use Rattle.job.specs.Read.{Counts};

use crate::field::{GROUP, HEAD_SIZE, REQUEST, reach_of};
use crate::verdict::MOST_FILE;

// The requests of the fields from a place up to `end`: those of the first field, and those of the rest.
// Stays: 01 lists this form for this place, a count that calls itself on the value of a group and on the rest.
fn count_fields(file: &[u8], at: usize, end: usize) -> usize
    requires { (at ≤ end) × (end ≤ length file.now) }
    ensures counts { Counts result file.now at end }
    ensures upper_bound { result ≤ end - at }
{
    let Some(size) = reach_of(file, at, end) else {
        return 0;
    };
    let value = at + HEAD_SIZE;
    let next = value + size;
    let tag = file[at];
    let held = match tag {
        REQUEST => 1,
        GROUP => count_fields(file, value, next),
        _ => 0,
    };
    if next == end {
        return held;
    }
    held + count_fields(file, next, end)
}

// The requests of a file of any bytes; a field that goes beyond what encloses it ends them there. A file that is too long is refused
// first of all and holds none, so that the calls inside each other are no more than an accepted file can have.
pub fn count_requests(file: &[u8]) -> usize
    ensures { result ≡ request_count file.now }
{
    if file.len() > MOST_FILE {
        return 0;
    }
    count_fields(file, 0, file.len())
}
