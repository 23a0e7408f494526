//! Reading the box at the front of a buffer, of whatever type it is.

ghost use Rattle.mp4_frame.specs.Reading.{Answers};
ghost use Rattle.mp4_c.specs.Front.{front_known};

use mp4_frame::{ByteCursor, Frame, Result, StreamBox};
use std::alloc::Global;

/// Reads the box at the front of a buffer, which has to be whole, if boxes of its name are read.
#[tactic(auto, unfolding(crate::specs::Front::front_known))]
pub fn front_known<B: StreamBox>(alloc: Global, bytes: &[u8]) -> Result<Option<B>>
    ensures { Answers result (front_known B.known B.named_reading bytes.now) }
{
    let found = Frame::at(bytes, 0)?;
    let name = found.name();
    if !B::knows(name) {
        return Ok(None);
    }
    let frame = found.within(bytes.len() as u64)?;
    let mut reader = ByteCursor::new(bytes);
    reader.set_position(frame.content());
    Ok(Some(B::read_named(alloc, name, &mut reader, frame.size)?))
}
