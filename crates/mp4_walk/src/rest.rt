//! The remaining boxes of a walk.

ghost use Rattle.std.specs.Prelude.{◌≡◌, IfOk, IfSome};
ghost use Rattle.mp4_walk.specs.Walk.{left};

use crate::box_walk::BoxWalk;
use crate::source::Source;
use crate::tree_box::TreeBox;
use std::alloc::Global;
use std::io;

/// Returns the remaining boxes of `walk` in order.
pub fn rest_of<S: Source>(alloc: Global, walk: &mut BoxWalk<S>) -> io::Result<Vec<TreeBox>>
    ensures boxes { IfSome walk.old.bytes (λ file. IfOk result (λ boxes. boxes.items ≡ left file walk.old)) }
    ensures bytes { walk.new.bytes ≡ walk.old.bytes }
    ensures length { walk.new.length ≡ walk.old.length }
{
    let mut boxes = Vec::new(alloc);
    while let Some(found) = walk.next()? {
        boxes.push(found)?;
    }
    Ok(boxes)
}
