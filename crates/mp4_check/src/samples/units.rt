//! The NAL units of a sample.

ghost use Rattle.std.specs.Prelude.{◌≡◌, ◌≤◌, IfOk, IfSome};
ghost use Rattle.mp4_check.specs.Units.{past_unit};

use crate::samples::block::{no_block, number_at};
use mp4_io::Failure;
use mp4_walk::{BoxWalk, Source};
use std::alloc::Global;

/// Returns the position of the first NAL unit that ends after its sample, or `None` if the units fill the sample. The
/// sample is the bytes from `begin` to `end`, and each unit has a length of `width` bytes. It takes one step for each
/// unit.
pub fn past_unit<S: Source>(
    alloc: Global,
    walk: &mut BoxWalk<S>,
    width: u64,
    begin: u64,
    end: u64,
) -> Result<Option<u64>, Failure>
    requires low { 1 ≤ width }
    requires high { width ≤ 4 }
    ensures value { IfSome walk.old.bytes (λ file. IfOk result (λ r. r ≡ past_unit file width begin end)) }
    ensures kept { walk.new ≡ walk.old }
{
    let mut block = no_block(alloc);
    let mut at = begin;
    'units: while at < end {
        if end - at < width {
            return Ok(Some(at));
        }
        let size = u64::from(number_at(alloc, walk, &mut block, at, width, end)?);
        if end - at - width < size {
            return Ok(Some(at));
        }
        at = at + width + size;
    }
    Ok(None)
}
