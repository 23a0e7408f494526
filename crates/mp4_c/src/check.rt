//! Checks that bytes are boxes that the codec reads.

ghost use Rattle.mp4_stream.specs.AnyBox.{known_any, reading_any};
ghost use Rattle.mp4_stream.specs.Streams.{boxes};
ghost use Rattle.mp4_c_boxes.specs.Calls.{Checks};

use mp4_c_boxes::status::{OK, status_of};
use mp4_stream::{ByteCursor, read_boxes};
use std::alloc::Global;

/// Reads all boxes of `bytes`. Returns the status: that of the first fault, if there is one. It skips boxes of types
/// that the codec doesn't read.
#[unsafe(no_mangle)]
pub extern "C" fn mp4_check(alloc: Global, bytes: &[u8]) -> u32
    ensures { Checks (boxes known_any reading_any bytes.now 0) result }
{
    match read_boxes(alloc, &mut ByteCursor::new(bytes)) {
        Ok(_boxes) => OK,
        Err(error) => status_of(&error),
    }
}
