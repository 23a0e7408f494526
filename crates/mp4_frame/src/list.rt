//! The places of boxes in a buffer, without their contents.

ghost use Rattle.std.specs.Prelude.{◌≡◌, max, length, OnOk, OnErr};
ghost use Rattle.mp4_frame.specs.Reading.{AnswersAs};
ghost use Rattle.mp4_frame.specs.Spans.{spans};

use crate::box_type::BoxType;
use crate::byte_cursor::ByteCursor;
use crate::error::Result;
use crate::frame::frame_at;
use std::alloc::Allocator;

/// The place of a box in a buffer, and its name. Positions and lengths are in bytes.
#[derive(Clone, Copy, Debug, PartialEq, Eq)]
pub struct BoxSpan {
    /// The offset of the first byte of the box, where its header begins.
    pub position: u64,
    /// The number of bytes from `position` to the end of the box.
    pub length: u64,
    /// The name of the box.
    pub name: BoxType,
}

/// Lists the boxes from the cursor's position to the end of the buffer, or returns the first fault. The fault is end of
/// input if a header or a box is cut. It is invalid data if a size is too small or a box ends past 2^64 - 1 (ISO/IEC
/// 14496-12, 4.2). A box of size 0 ends at the end of the buffer.
///
/// The function reads no contents, so `read_boxes_as` may find a fault in a box that is listed. It lists no children.
/// After an `Ok` the cursor is at the end of the buffer, or where it was if that is past the end. After an `Err` the
/// cursor is where it was.
pub fn list_boxes<A: Allocator>(alloc: A, reader: &mut ByteCursor) -> Result<Vec<BoxSpan, A>>
    ensures answer { AnswersAs (λ v. v.items) result (spans reader.old.bytes.now reader.old.position) }
    ensures moved { OnOk result (reader.new.position ≡ max reader.old.position (length reader.old.bytes.now)) }
    ensures kept { OnErr result (reader.new.position ≡ reader.old.position) }
    ensures bytes { reader.new.bytes ≡ reader.old.bytes }
{
    let mut spans = Vec::new(alloc);
    let bytes = reader.bytes();
    let mut at = reader.position();
    while at < bytes.len() as u64 {
        let frame = frame_at(bytes, at as usize)?;
        spans.push(frame.span())?;
        at = frame.end();
    }
    reader.set_position(at);
    Ok(spans)
}
