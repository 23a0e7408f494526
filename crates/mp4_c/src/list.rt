//! Lists the positions of boxes.

ghost use Rattle.std.specs.Prelude.{◌≡◌, length, map};
ghost use Rattle.mp4_frame.specs.Heads.{header_length};
ghost use Rattle.mp4_frame.specs.Spans.{spans};
ghost use Rattle.mp4_c_boxes.specs.Calls.{CopiesReading};
ghost use Rattle.mp4_c.specs.Spans.{span_in};

use mp4_c_boxes::status::status_of;
use mp4_c_boxes::to_rows::{ToRows, copy_rows};
use mp4_frame::{BoxSpan, ByteCursor, list_boxes, u32_at};
use std::alloc::Global;

/// The position of a box in a buffer, and its code.
#[repr(C)]
#[derive(Clone, Copy)]
pub struct Span {
    /// The offset of the first byte of the box, where its header begins.
    pub position: u64,
    /// The number of bytes of the box, including its header.
    pub length: u64,
    /// The number of bytes of the header: 8 or 16.
    pub header_length: u64,
    /// The four characters of the box's code, the first in the highest byte.
    pub code: u32,
}

/// The boxes of a buffer, and the buffer.
#[derive(Drop)]
struct Listed<'a> {
    bytes: &'a [u8],
    boxes: Vec<BoxSpan>,
}

/// Returns the number of bytes of the header at the offset `at` of `bytes`: 16 if its first four hold a 1, else 8.
fn header_length(bytes: &[u8], at: u64) -> u64
    ensures { result ≡ header_length bytes.now at }
{
    let at = at as usize;
    if bytes.len().saturating_sub(at) < 4 {
        return 8;
    }
    if u32_at(bytes, at) == 1 { 16 } else { 8 }
}

impl ToRows<Span, usize> for Listed<'_> {
    ghost rows = { λ v. map (span_in v.bytes.now) v.boxes.items };

    ghost summary = { λ v. length v.boxes.items };

    fn count(&self) -> usize {
        self.boxes.len()
    }

    fn row(&self, index: usize) -> Span {
        let found = self.boxes[index];
        Span {
            position: found.position,
            length: found.length,
            header_length: header_length(self.bytes, found.position),
            code: u32::from(found.name),
        }
    }

    fn summary(&self) -> usize {
        self.boxes.len()
    }
}

/// Copies the spans of all boxes at the top level of `bytes` to `rows`, and writes their number to `count`. It reads
/// only the headers of the boxes. Returns the status.
#[unsafe(no_mangle)]
pub extern "C" fn mp4_list(alloc: Global, bytes: &[u8], rows: &mut [Span], count: &mut usize) -> u32
    ensures { CopiesReading (spans bytes.now 0) (λ found. map (span_in bytes.now) found) (λ found. length found) result
        rows.old rows.new count.old count.new }
{
    let mut reader = ByteCursor::new(bytes);
    match list_boxes(alloc, &mut reader) {
        Ok(boxes) => copy_rows(Ok(Listed { bytes, boxes }), rows, count),
        Err(error) => status_of(&error),
    }
}
