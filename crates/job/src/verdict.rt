// The verdict on a job file.
ghost use Rattle.std.specs.Prelude.{◌≡◌, ◌≤◌, length, Ok};
ghost use Rattle.job.specs.Field.{most_depth};
ghost use Rattle.job.specs.Verdict.{accepted, or_held, verdict};
ghost use Rattle.job.specs.Read.{ReadsFields, ReadsField, read_of};

use crate::field::{GROUP, HEAD_SIZE, reach_of, tag_refusal};
use crate::refusal::{Cause, Refusal};

pub const MOST_FILE: usize = 16384;

// Reads the fields from a place up to `end`, which `depth` groups enclose. The place moves on to `end`, or to the tag of the bad field.
#[cycle(read_field_read_fields)]
fn read_fields(file: &[u8], at: &mut usize, end: usize, depth: u8) -> Result<(), Cause>
    requires { (at.old ≤ end) × (end ≤ length file.now) × (depth ≤ most_depth) }
    ensures reads { ReadsFields (or_held result at.new accepted) file.now at.old end depth }
    ensures ends { result ≡ Ok tt → at.new ≡ end }
{
    while *at < end {
        read_field(file, at, end, depth)?;
    }
    Ok(())
}

// Reads the field at a place and, if it is a group, the fields that it holds. The place moves on to where the next field begins, or to
// the tag of the bad field.
#[cycle(read_field_read_fields)]
fn read_field(file: &[u8], at: &mut usize, end: usize, depth: u8) -> Result<(), Cause>
    requires { (at.old ≤ end) × (end ≤ length file.now) × (depth ≤ most_depth) }
    ensures { ReadsField (read_of (or_held result at.new accepted) at.new) file.now at.old end depth }
{
    let Some(size) = reach_of(file, *at, end) else {
        return Err(Cause::Beyond);
    };
    let tag = file[*at];
    tag_refusal(tag, size, depth)?;
    *at += HEAD_SIZE;
    let next = *at + size;
    if tag == GROUP {
        return read_fields(file, at, next, depth + 1);
    }
    *at = next;
    Ok(())
}

// The verdict on a file of any bytes: accepted, or why not.
pub fn check_job(file: &[u8]) -> Result<(), Refusal>
    ensures { result ≡ verdict file.now }
{
    if file.len() > MOST_FILE {
        return Err(Cause::TooLong.at(0));
    }
    let mut at = 0;
    read_fields(file, &mut at, file.len(), 0).map_err(|cause| cause.at(at))
}
