//! The boxes of an iterator, collected in a list.

ghost use Rattle.mp4_frame.specs.Reading.{AnswersAs};
ghost use Rattle.mp4_iterator.specs.Progress.{boxes_left};

use crate::boxes::Boxes;
use mp4_frame::{Result, StreamBox};
use std::alloc::Global;

/// Returns the boxes that are left in a list, or the first fault. The result is that of `read_boxes_as` starting at the
/// iterator's offset. After the iterator's end the list is empty.
pub fn collect_boxes<B: StreamBox>(alloc: Global, boxes: Boxes<B>) -> Result<Vec<B>>
    ensures { AnswersAs (λ v. v.items) result (boxes_left B.known B.named_reading boxes.entry) }
{
    let mut list = Vec::new(alloc);
    for item in boxes {
        list.push(item?)?;
    }
    Ok(list)
}
