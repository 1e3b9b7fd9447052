// One field: "one-byte tag, two-byte length (high first), value".
ghost use Rattle.std.specs.Prelude.{◌≡◌, ◌≤◌, length};
ghost use Rattle.job.specs.Field.{tag_refusal};
ghost use Rattle.job.specs.Read.{reach_of};

use crate::refusal::Cause;
use words::high_first;

pub const HEAD_SIZE: usize = 3;

const SETUP_SIZE: usize = 8;

const MOST_NOTE: usize = 64;

const MOST_DEPTH: u8 = 4;

pub const REQUEST: u8 = 0x01;

pub const GROUP: u8 = 0x02;

const NOTE: u8 = 0x03;

// The size of the value of the field at a place, or none where it goes beyond `end`.
pub(crate) fn reach_of(file: &[u8], at: usize, end: usize) -> Option<usize>
    requires { (at ≤ end) × (end ≤ length file.now) }
    ensures { result ≡ reach_of file.now at end }
{
    let left = (end - at).checked_sub(HEAD_SIZE)?;
    let size = usize::from(high_first(file[at + 1], file[at + 2]));
    (size <= left).then_some(size)
}

// What the tag of a field refuses; `depth` groups enclose the field.
#[tactic(auto, unfolding(crate::specs::Field::tag_refusal))]
pub(crate) fn tag_refusal(tag: u8, size: usize, depth: u8) -> Result<(), Cause>
    ensures { result ≡ tag_refusal tag size depth }
{
    match tag {
        REQUEST if size < SETUP_SIZE => Err(Cause::ShortRequest),
        GROUP if depth >= MOST_DEPTH => Err(Cause::TooDeep),
        NOTE if size > MOST_NOTE => Err(Cause::LongNote),
        REQUEST | GROUP | NOTE => Ok(()),
        _ => Err(Cause::Unlisted),
    }
}
