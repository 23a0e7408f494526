//! Lists of boxes, written as a whole or not at all.

ghost use Rattle.std.specs.Prelude.{◌≡◌, ◌-◌, ◌^◌, ◌++◌, min, None, length, All, replicate, IfSome, OnOk, OnErr, IfErr};
ghost use Rattle.mp4_frame.specs.Streams.{stream};
ghost use Rattle.mp4_frame.specs.Written.{Writes};
ghost use Rattle.mp4_frame.specs.Laws.{BeginsWithHeader};
ghost use Rattle.mp4_frame.specs.declared.error.Error.TheVariants.{OutOfMemory};

use crate::error::{Error, Result};
use crate::traits::{Mp4Box, StreamBox, WriteBox};
use std::alloc::Allocator;

/// Appends `n` zero bytes to `writer`, with one request for memory.
pub(crate) fn lengthen<A: Allocator>(writer: &mut Vec<u8, A>, n: usize) -> Result<()>
    ensures ok { OnOk result (writer.new.items ≡ writer.old.items ++ replicate n 0) }
    ensures err { OnErr result (writer.new.items ≡ writer.old.items) }
    ensures error { IfErr result (λ e. e ≡ OutOfMemory) }
{
    let Some(len) = writer.len().checked_add(n) else {
        return Err(Error::OutOfMemory);
    };
    writer.resize(len, 0)?;
    Ok(())
}

/// Appends `size` zero bytes to `writer`. After an `Err`, which is always out of memory, the vector is as it was.
pub fn write_zeros<A: Allocator>(writer: &mut Vec<u8, A>, size: u64) -> Result<()>
    ensures ok { OnOk result (writer.new.items ≡ writer.old.items ++ replicate size 0) }
    ensures err { OnErr result (writer.new.items ≡ writer.old.items) }
    ensures error { IfErr result (λ e. e ≡ OutOfMemory) }
{
    lengthen(writer, size as usize)
}

/// Returns the number of bytes of all boxes, at most 2^64 - 1, or `None` if one of the boxes can't be written.
fn writable_total<B: WriteBox>(boxes: &[B]) -> Option<u64>
    ensures all { IfSome result (λ n. All B.format.Writable boxes.now) }
    ensures size { IfSome result (λ n. n ≡ min (length (stream B.format.bytes boxes.now)) (2 ^ 64 - 1)) }
    ensures none { result ≡ None → ¬ All B.format.Writable boxes.now }
{
    let mut total: u64 = 0;
    for b in boxes {
        total = total.saturating_add(b.writable_size()?);
    }
    Some(total)
}

/// Fills `out` with the boxes' bytes, one box after the other. The length of `out` is the number of these bytes.
pub fn put_boxes<B: WriteBox>(boxes: &[B], out: &mut [u8])
    requires writable { All B.format.Writable boxes.now }
    requires room { length out.old ≡ length (stream B.format.bytes boxes.now) }
    ensures { out.new ≡ stream B.format.bytes boxes.now }
{
    let mut at: usize = 0;
    for b in boxes {
        at += b.put_at_front(&mut out[at..]);
    }
}

/// Appends the boxes' bytes to `writer`, and returns their number. After an `Err` the vector is as it was. The error is
/// invalid data if a box can't be written, else out of memory.
pub fn write_boxes<B: StreamBox, A: Allocator>(boxes: &[B], writer: &mut Vec<u8, A>) -> Result<u64>
    ensures { Writes (All B.format.Writable boxes.now) (stream B.format.bytes boxes.now) writer.old.items
        writer.new.items result }
{
    let Some(total) = writable_total(boxes) else {
        return Err(Error::InvalidData("value does not fit its field"));
    };
    if total == u64::MAX {
        return Err(Error::OutOfMemory);
    }
    let old = writer.len();
    lengthen(writer, total as usize)?;
    put_boxes(boxes, &mut writer[old..]);
    Ok(total)
}
