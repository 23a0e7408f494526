//! The normal form of a stream.

ghost use Rattle.std.specs.Prelude.{◌≡◌, MatchResult, OnErr};
ghost use Rattle.mp4_normal.specs.Normal.{Normalizes, NormalRefuses};

use crate::find::find_changes;
use crate::make::make;
use mp4_stream::Result;
use std::alloc::Global;

/// Turns the stream in `bytes` into its boxes in normal form. Boxes of types that the codec does not read are
/// unchanged. Fails with the first fault, with invalid data if a box that was read can't be written, and with out of
/// memory. After an `Err` the vector is as it was.
///
/// The bytes that change are made first, and then put into the vector. The vector grows only if the result of some
/// first boxes is longer than these boxes were.
pub fn normalize(alloc: Global, bytes: &mut Vec<u8>) -> Result<()>
    ensures answer { MatchResult result (λ _. Normalizes bytes.old.items bytes.new.items)
        (λ e. NormalRefuses bytes.old.items e) }
    ensures kept { OnErr result (bytes.new.items ≡ bytes.old.items) }
{
    let changes = find_changes(alloc, bytes)?;
    make(bytes, &changes)
}

/// Returns the normal form of the stream `bytes`, in a copy that is made once all boxes are read and can be written.
pub fn normal_form(alloc: Global, bytes: &[u8]) -> Result<Vec<u8>>
    ensures { MatchResult result (λ out. Normalizes bytes.now out.items) (λ e. NormalRefuses bytes.now e) }
{
    let changes = find_changes(alloc, bytes)?;
    let mut out = Vec::from_slice(alloc, bytes)?;
    make(&mut out, &changes)?;
    Ok(out)
}
