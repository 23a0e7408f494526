//! Lists of boxes, read up to the first fault.

ghost use Rattle.std.specs.Prelude.{◌≡◌, ◌+◌, max, length, OnOk, OnErr};
ghost use Rattle.mp4_frame.specs.Reading.{AnswersAs};
ghost use Rattle.mp4_frame.specs.Streams.{boxes};

use crate::byte_cursor::ByteCursor;
use crate::error::Result;
use crate::frame::frame_at;
use crate::traits::StreamBox;
use std::alloc::Global;

/// Reads the boxes from the cursor's position to the end of the buffer, or returns the first fault. Boxes with names
/// that `B` does not know are skipped. After an `Ok` the cursor is at the end of the buffer, or where it was if that is
/// past the end. After an `Err` the cursor is where it was.
pub fn read_boxes_as<B: StreamBox>(alloc: Global, reader: &mut ByteCursor) -> Result<Vec<B>>
    ensures answer { AnswersAs (λ v. v.items) result
        (boxes B.known B.named_reading reader.old.bytes.now reader.old.position) }
    ensures moved { OnOk result (reader.new.position ≡ max reader.old.position (length reader.old.bytes.now)) }
    ensures kept { OnErr result (reader.new.position ≡ reader.old.position) }
    ensures bytes { reader.new.bytes ≡ reader.old.bytes }
{
    let mut boxes = Vec::new(alloc);
    let bytes = reader.bytes();
    let mut at = reader.position();
    while at < bytes.len() as u64 {
        let frame = frame_at(bytes, at as usize)?;
        let name = frame.name();
        let end = frame.end();
        if B::knows(name) {
            B::push_named(alloc, name, bytes, frame.start, frame.size, &mut boxes)?;
        }
        at = end;
    }
    reader.set_position(at);
    Ok(boxes)
}
