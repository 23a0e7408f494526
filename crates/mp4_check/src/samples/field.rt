//! Fields in the contents of boxes.

ghost use Rattle.std.specs.Prelude.{◌≡◌, ◌≤◌, IfOk, IfSome};
ghost use Rattle.mp4_movie.specs.Levels.{found_of};
ghost use Rattle.mp4_check.specs.Fields.{field, field_in};

use crate::samples::block::{number_in, read_block};
use mp4_io::Failure;
use mp4_movie::BoxLocation;
use mp4_walk::{BoxWalk, Source, TreeBox};
use std::alloc::Global;

/// Returns the number of `width` bytes at `offset` in the content of `found`, or `None` if the box or the file ends
/// before it.
pub fn field<S: Source>(
    alloc: Global,
    walk: &mut BoxWalk<S>,
    found: &TreeBox,
    offset: u64,
    width: u64,
) -> Result<Option<u32>, Failure>
    requires low { 1 ≤ width }
    requires high { width ≤ 4 }
    ensures value { IfSome walk.old.bytes (λ file. IfOk result (λ r. r ≡ field file found.now offset width)) }
    ensures kept { walk.new ≡ walk.old }
{
    let front = u128::from(found.position) + u128::from(found.header_length);
    let at = front + u128::from(offset);
    let end = u128::from(found.position) + u128::from(found.length);
    let past = at + u128::from(width);
    if past > end || past > u128::from(walk.length()) {
        return Ok(None);
    }
    let block = read_block(alloc, walk, at as u64, width)?;
    match number_in(&block, at as u64, width) {
        Some(number) => Ok(Some(number)),
        None => Err(Failure::Read),
    }
}

/// Returns the number of `width` bytes at `offset` in the content of the box at `place`, or `None` if there is no box,
/// or it or the file ends before the number.
pub fn field_in<S: Source>(
    alloc: Global,
    walk: &mut BoxWalk<S>,
    place: Option<BoxLocation<'_>>,
    offset: u64,
    width: u64,
) -> Result<Option<u32>, Failure>
    requires low { 1 ≤ width }
    requires high { width ≤ 4 }
    ensures value { IfSome walk.old.bytes
        (λ file. IfOk result (λ r. r ≡ field_in file (found_of place.entry) offset width)) }
    ensures kept { walk.new ≡ walk.old }
{
    match place {
        Some(place) => field(alloc, walk, &place.found, offset, width),
        None => Ok(None),
    }
}
