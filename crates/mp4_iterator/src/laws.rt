//! The laws of an iterator over boxes. The bodies are empty, since the contracts mention only definitions.

ghost use Rattle.mp4_iterator.specs.Collected.{BoxesAreItems, CollectsToBoxes};

use crate::boxes::Boxes;
use mp4_frame::StreamBox;

/// Proves that the items of a buffer, read in order and kept, are the list of boxes that `read_boxes_as` reads.
pub fn items_are_boxes<B: StreamBox>()
    ensures { BoxesAreItems B.known B.named_reading }
{}

/// Proves that the results of `next` up to `None`, collected up to the first error, are a result that `read_boxes_as`
/// may return.
pub fn items_collect_to_boxes<B: StreamBox>(boxes: &Boxes<B>)
    ensures { CollectsToBoxes B.known B.named_reading boxes.now }
{}
