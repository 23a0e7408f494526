//! Reading boxes of any type, as a list or one at a time.

ghost use Rattle.std.specs.Prelude.{◌≡◌, OnOk, OnErr, length, max};
ghost use Rattle.mp4_frame.specs.Reading.{AnswersAs};
ghost use Rattle.mp4_frame.specs.Streams.{boxes};
ghost use Rattle.mp4_iterator.specs.Progress.{begins_at};
ghost use Rattle.mp4_stream.specs.AnyBox.{known_any, reading_any};

use crate::any_box::AnyBox;
use mp4_frame::{ByteCursor, Result, read_boxes_as};
use mp4_iterator::{Boxes, boxes_as};
use std::alloc::Global;

/// Reads the boxes from the cursor's position to the end of the buffer, or returns the first fault. Boxes with names
/// that the codec does not read are skipped by their size. A box of size 0 reaches to the end of the buffer. After an
/// `Ok` the cursor is at the end of the buffer, or where it was if that is past the end. After an `Err` it is where it
/// was.
pub fn read_boxes(alloc: Global, reader: &mut ByteCursor) -> Result<Vec<AnyBox>>
    ensures answer { AnswersAs (λ found. found.items) result
        (boxes known_any reading_any reader.old.bytes.now reader.old.position) }
    ensures moved { OnOk result (reader.new.position ≡ max reader.old.position (length reader.old.bytes.now)) }
    ensures kept { OnErr result (reader.new.position ≡ reader.old.position) }
    ensures bytes { reader.new.bytes ≡ reader.old.bytes }
{
    read_boxes_as(alloc, reader)
}

/// Returns an iterator over the boxes of a buffer, which makes no list. An item is a box, or the first fault, which is
/// the last item. Boxes with names that the codec does not read are skipped by their size, without reading their
/// content. `Boxes::next_into` reads into a variable that you can reuse.
pub fn boxes(alloc: Global, bytes: &[u8]) -> Boxes<'_, AnyBox>
    ensures { result ≡ begins_at bytes.now 0 }
{
    boxes_as(alloc, bytes)
}
