//! Reads a shape after another part of a box.

ghost use Rattle.std.specs.Prelude.{◌≡◌, ◌+◌, ◌<◌, ◌≤◌, true, IfOk, length};
ghost use Rattle.mp4_frame.specs.Reading.{AnswersAs};

use crate::context::Context;
use crate::shape::Shape;
use mp4_frame::{Error, Result};
use std::alloc::Global;

/// Reads a value at offset `at`, after checking that its front is present.
#[inline]
pub fn read_after<S: Shape>(
    alloc: Global,
    bytes: &[u8],
    at: usize,
    end: u64,
    context: Context,
) -> Result<(S::Value, usize)>
    requires valid { S.shape.valid ≡ true }
    requires inside { 0 < at }
    requires reached { at ≤ length bytes.now }
    ensures value { AnswersAs (λ r. r.0) result (S.shape.reads context bytes.now at end) }
    ensures next { IfOk result (λ r. r.1 ≡ at + S.shape.size context r.0) }
    ensures within { IfOk result (λ r. r.1 ≤ length bytes.now) }
{
    if bytes.len() - at < S::front(context) {
        return Err(Error::IoError);
    }
    S::read(alloc, bytes, at, end, context)
}
