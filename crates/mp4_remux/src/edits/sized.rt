//! Boxes in memory that can be inserted: whole boxes, each with an explicit size.

ghost use Rattle.std.specs.Prelude.{◌≡◌, filter, length, IfOk};
ghost use Rattle.std.specs.List.{list_any};
ghost use Rattle.mp4_remux.specs.Sized.{has_size, is_on_top, is_unsized, sized_boxes};
ghost use Rattle.mp4_walk.specs.FileBoxes.{boxes_of};

use mp4_frame::u32_at;
use mp4_walk::{BoxWalk, TreeBox};
use std::alloc::Global;
use std::io;

/// Returns whether the box at position `at` of `bytes` has an explicit size (ISO/IEC 14496-12, 4.2).
fn has_size(bytes: &[u8], at: u64) -> bool
    ensures { result ≡ has_size bytes.now at }
{
    let length = bytes.len() as u64;
    at <= length && length - at >= 4 && u32_at(bytes, at as usize) != 0
}

/// Returns whether `found` is in the top level of `bytes`, and is cut or has no explicit size.
fn is_unsized(bytes: &[u8], found: &TreeBox) -> bool
    ensures { result ≡ is_unsized bytes.now found.now }
{
    found.depth == 0 && !(found.is_whole() && has_size(bytes, found.position))
}

/// Returns whether one of `boxes` is in the top level of `bytes`, and is cut or has no explicit size.
fn has_unsized(bytes: &[u8], boxes: &[TreeBox]) -> bool
    ensures { result ≡ list_any (is_unsized bytes.now) boxes.now }
{
    for found in boxes {
        if is_unsized(bytes, found) {
            return true;
        }
    }
    false
}

/// Returns the number of `boxes` in the top level.
fn count_tops(boxes: &[TreeBox]) -> u64
    ensures { result ≡ length (filter is_on_top boxes.now) }
{
    let mut count: usize = 0;
    for found in boxes {
        if found.depth == 0 {
            count += 1;
        }
    }
    count as u64
}

/// Returns the boxes of `bytes`.
fn boxes_in(alloc: Global, bytes: &[u8]) -> io::Result<Vec<TreeBox>>
    ensures { IfOk result (λ boxes. boxes.items ≡ boxes_of bytes.now) }
{
    let mut walk = BoxWalk::new(alloc, bytes)?;
    walk.rest(alloc)
}

/// Returns the number of boxes that `bytes` are, one after the other. Returns `None` if one of them is cut, or has no
/// explicit size and extends to the end.
pub fn count_sized(alloc: Global, bytes: &[u8]) -> io::Result<Option<u64>>
    ensures { IfOk result (λ count. count ≡ sized_boxes bytes.now) }
{
    let boxes = boxes_in(alloc, bytes)?;
    if has_unsized(bytes, &boxes) {
        return Ok(None);
    }
    Ok(Some(count_tops(&boxes)))
}
