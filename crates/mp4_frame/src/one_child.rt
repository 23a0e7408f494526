//! One child at an offset of a box.

ghost use Rattle.std.specs.Prelude.{◌≡◌, ◌+◌, ◌≤◌, length, IfOk};
ghost use Rattle.mp4_frame.specs.OneChild.{child_head, child_content, any_child, named_child, optional_child};
ghost use Rattle.mp4_frame.specs.Reading.{Answers};

use crate::child::{Parent, check_child_end};
use crate::error::Result;
use crate::frame::Frame;
use crate::reading::check;
use crate::traits::ReadBox;
use std::alloc::Global;

/// Reads the header of the child at offset `at` of its parent. A child that is larger than its parent is invalid data.
/// The child may have fewer than 8 bytes.
#[tactic(auto, unfolding(crate::specs::OneChild::child_head))]
pub fn child_head(parent: &Parent, at: u64) -> Result<Frame>
    ensures value { Answers result (child_head parent.now.bytes.now parent.now.size at) }
    ensures room { IfOk result (λ c. c.start + 8 ≤ length parent.now.bytes.now) }
{
    let child = Frame::at(parent.bytes, at)?;
    check(child.size <= parent.size, parent.too_large)?;
    Ok(child)
}

/// Reads the content of the child with the frame `child`, even past the end of its parent. A child that ends past 2^64
/// - 1 is invalid data.
#[tactic(auto, unfolding(crate::specs::OneChild::child_content))]
pub fn child_content<T: ReadBox>(alloc: Global, parent: &Parent, child: Frame) -> Result<T>
    requires { child.start ≤ length parent.now.bytes.now }
    ensures { Answers result (child_content T.reads parent.now.bytes.now parent.now.start child) }
{
    check_child_end(parent, child)?;
    let rest = &parent.bytes[child.start as usize..];
    T::read_content(alloc, rest, parent.start + child.start, child.size)
}

/// Reads the child at offset `at` of its parent, whatever its code.
#[tactic(auto, unfolding(crate::specs::OneChild::any_child))]
pub fn any_child<T: ReadBox>(alloc: Global, parent: &Parent, at: u64) -> Result<T>
    ensures { Answers result (any_child T.reads parent.now.bytes.now parent.now.start parent.now.size at) }
{
    let child = child_head(parent, at)?;
    child_content(alloc, parent, child)
}

/// Reads the child at offset `at` of its parent. A child with another code than `code` is invalid data with the text
/// `not_found`.
#[tactic(auto, unfolding(crate::specs::OneChild::named_child))]
pub fn named_child<T: ReadBox>(
    alloc: Global,
    parent: &Parent,
    code: u32,
    at: u64,
    not_found: &'static str,
) -> Result<T>
    ensures { Answers result (named_child T.reads code parent.now.bytes.now parent.now.start parent.now.size at) }
{
    let child = child_head(parent, at)?;
    check(child.code == code, not_found)?;
    child_content(alloc, parent, child)
}

/// Reads the child at offset `at` of its parent. Returns `None`, and reads no content, if the parent ends there or the
/// child has another code than `code`.
#[tactic(auto, unfolding(crate::specs::OneChild::optional_child))]
pub fn optional_child<T: ReadBox>(
    alloc: Global,
    parent: &Parent,
    code: u32,
    at: u64,
) -> Result<Option<T>>
    ensures { Answers result (optional_child T.reads code parent.now.bytes.now parent.now.start parent.now.size at) }
{
    if parent.size <= at {
        return Ok(None);
    }
    let child = child_head(parent, at)?;
    if child.code != code {
        return Ok(None);
    }
    Ok(Some(child_content(alloc, parent, child)?))
}
