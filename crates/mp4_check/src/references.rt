//! The tracks whose media data are in other files.

ghost use Rattle.std.specs.Prelude.{◌≡◌, ◌%◌, ◌==◌, ◌&&◌, IfOk, IfSome, nat_le, slice_index};
ghost use Rattle.mp4_check.specs.References.{is_away, is_elsewhere, is_reference, refers_away};

use mp4_frame::codes::DREF;
use mp4_io::{Failure, or_read};
use mp4_walk::{BoxWalk, Source, TreeBox};
use std::alloc::Global;

/// Returns whether `found` is a data reference that has version and flags.
fn is_reference(found: &TreeBox) -> bool
    ensures { result ≡ is_reference found.now }
{
    found.context.parent == DREF && found.is_whole() && found.content_length() >= 4
}

/// Returns whether a data reference with the content `bytes` says that the media data are in another file: the lowest
/// bit of its flags is 0.
fn is_elsewhere(bytes: &[u8]) -> bool
    ensures { result ≡ is_elsewhere bytes.now }
{
    match bytes.get(3) {
        Some(flags) => flags % 2 == 0,
        None => true,
    }
}

/// Returns whether `found` is a data reference to another file.
fn refers_away<S: Source>(
    alloc: Global,
    walk: &mut BoxWalk<S>,
    found: &TreeBox,
) -> Result<bool, Failure>
    ensures value { IfSome walk.old.bytes (λ file. IfOk result (λ r. r ≡ refers_away file found.now)) }
    ensures kept { walk.new ≡ walk.old }
{
    if !is_reference(found) {
        return Ok(false);
    }
    let bytes = or_read(walk.read_content(alloc, found))?;
    Ok(is_elsewhere(&bytes))
}

/// Returns whether media data of a track may be in another file: one of its data references is to another file. `trak`
/// begins with the boxes inside its `trak`.
pub fn is_away<S: Source>(
    alloc: Global,
    walk: &mut BoxWalk<S>,
    trak: &[TreeBox],
) -> Result<bool, Failure>
    ensures value { IfSome walk.old.bytes (λ file. IfOk result (λ r. r ≡ is_away file trak.now)) }
    ensures kept { walk.new ≡ walk.old }
{
    for found in trak {
        if found.depth < 2 {
            return Ok(false);
        }
        if refers_away(alloc, walk, found)? {
            return Ok(true);
        }
    }
    Ok(false)
}
