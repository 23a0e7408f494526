//! Reads the one box at the front of some bytes.

ghost use Rattle.mp4_frame.specs.Reading.{Answers};
ghost use Rattle.mp4_frame.specs.WholeBox.{front_box, whole_box};

use crate::error::Result;
use crate::frame::Frame;
use crate::reading::check;
use crate::traits::ReadBox;
use std::alloc::Global;

/// Reads a box that is all of `bytes`, with its header. A size of 0 means up to their end.
#[tactic(auto, unfolding(crate::specs::WholeBox::whole_box))]
pub fn whole_box<B: ReadBox>(alloc: Global, bytes: &[u8]) -> Result<B>
    ensures { Answers result (whole_box B.reads bytes.now) }
{
    let found = Frame::at(bytes, 0)?;
    let frame = found.within(bytes.len() as u64)?;
    let box_bytes = &bytes[frame.start as usize..];
    B::read_content(alloc, box_bytes, frame.start, frame.size)
}

/// Reads the box at the front of `bytes`, which has to be whole. Returns invalid data if its code is not `code`.
#[tactic(auto, unfolding(crate::specs::WholeBox::front_box))]
pub fn front_box<B: ReadBox>(alloc: Global, code: u32, bytes: &[u8]) -> Result<B>
    ensures { Answers result (front_box B.reads code bytes.now) }
{
    let found = Frame::at(bytes, 0)?;
    check(found.code == code, "box of another type")?;
    let frame = found.within(bytes.len() as u64)?;
    let box_bytes = &bytes[frame.start as usize..];
    B::read_content(alloc, box_bytes, frame.start, frame.size)
}
