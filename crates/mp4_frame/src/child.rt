//! Children of a box, read one after the other.

ghost use Rattle.std.specs.Prelude.{◌≡◌, ◌+◌, ◌<◌, ◌≤◌, ◌^◌, nat_lt, length, IfOk};
ghost use Rattle.mp4_frame.specs.Children.{child, children};
ghost use Rattle.mp4_frame.specs.Reading.{Answers, check};

use crate::error::Result;
use crate::frame::Frame;
use crate::reading::check;
use crate::traits::ReadBox;
use std::alloc::Global;

/// A box whose children are read.
#[derive(Clone, Copy, Debug)]
pub struct Parent<'a> {
    /// The bytes from the start of the box to the end of the buffer.
    pub bytes: &'a [u8],
    /// The offset of the box in the buffer, the `start` of `ReadBox::read_content`.
    pub start: u64,
    /// The number of bytes from `start` to the end of the box.
    pub size: u64,
    /// The text of the error for a child that is larger than the box.
    pub too_large: &'static str,
}

/// Checks that the child with the frame `child` ends at or before 2^64 - 1. The error is invalid data.
pub fn check_child_end(parent: &Parent, child: Frame) -> Result<()>
    ensures { Answers result (check (nat_lt (parent.now.start + child.start + child.size) (2 ^ 64))) }
{
    check(
        parent.start <= u64::MAX - child.size
            && child.start <= u64::MAX - child.size - parent.start,
        "box end past 64 bits",
    )
}

/// Reads the header of the child at offset `at` of its parent. The child is invalid data if it has fewer than 8 bytes,
/// is larger than its parent, or ends past 2^64 - 1.
#[tactic(auto, unfolding(crate::specs::Children::child))]
fn child_at(parent: &Parent, at: u64) -> Result<Frame>
    ensures value { Answers result (child parent.now.bytes.now parent.now.start parent.now.size at) }
    ensures room { IfOk result
        (λ c. (at ≤ c.start) × (c.start + 8 ≤ length parent.now.bytes.now) × (8 ≤ c.size)
        × (parent.now.start + c.start + c.size < 2 ^ 64)) }
{
    let child = Frame::at(parent.bytes, at)?;
    check(child.size >= 8, "child box too small")?;
    check(child.size <= parent.size, parent.too_large)?;
    check_child_end(parent, child)?;
    Ok(child)
}

/// Reads every child with the code `code` among at most `most` children, the first of them at offset `from` of the
/// parent. Returns the last one that has the code, or `None`. Children with other codes are skipped by their size.
pub fn last_child<T: ReadBox + Drop>(
    alloc: Global,
    parent: &Parent,
    code: u32,
    from: u64,
    most: u64,
) -> Result<Option<T>>
    ensures { Answers result (children T.reads code parent.now.bytes.now parent.now.start parent.now.size most from) }
{
    let mut found = None;
    let mut at = from;
    let mut left = most;
    while left > 0 && at < parent.size {
        let child = child_at(parent, at)?;
        if child.code == code {
            let rest = &parent.bytes[child.start as usize..];
            let start = parent.start + child.start;
            found = Some(T::read_content(alloc, rest, start, child.size)?);
        }
        at = child.start + child.size;
        left -= 1;
    }
    Ok(found)
}
