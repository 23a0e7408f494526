//! For `bench/`, which measures the speed of the codec: calls that read or write a stream a number of times.
#![tactic(auto)]

ghost use Rattle.std.specs.Prelude.{◌≡◌, ◌-◌, ◌^◌, ◌⊎◌, List, Ok, take, IfOk};
ghost use Rattle.mp4_frame.specs.Streams.{stream, boxes};
ghost use Rattle.mp4_stream.specs.AnyBox.{format_any, known_any, reading_any};
ghost use Rattle.mp4_stream.specs.KeptBox.{format_kept, known_kept, reading_kept};
ghost use Rattle.mp4_stream.specs.declared.any_box.AnyBox.{AnyBox};
ghost use Rattle.mp4_stream.specs.declared.kept_box.KeptBox.{KeptBox};

mod declared;
mod samples;

use mp4_stream::{
    AnyBox, ByteCursor, Error, FragmentBox, KeptBox, Mp4Box, Result, StreamBox, boxes_as,
    read_boxes_as, write_boxes,
};
use std::alloc::Global;
use std::mem::size_of;

/// Returns the sum of the codes and the sizes of `boxes`, modulo 2^64.
fn checksum<B: Mp4Box>(boxes: &[B]) -> u64 {
    let mut sum: u64 = 0;
    for b in boxes {
        let code = u32::from(b.box_type());
        sum = sum.wrapping_add(u64::from(code)).wrapping_add(b.box_size());
    }
    sum
}

/// Reads the boxes in `bytes` `times` times, each time into a new list. Returns the sum of their checksums.
fn read_times<B: StreamBox>(alloc: Global, bytes: &[u8], times: u64) -> Result<u64> {
    let mut sum: u64 = 0;
    for _ in 0..times {
        let boxes = read_boxes_as::<B>(alloc, &mut ByteCursor::new(bytes))?;
        sum = sum.wrapping_add(checksum(&boxes));
    }
    Ok(sum)
}

/// Reads the boxes in `bytes` `times` times, one box at a time into the same vector. Returns the sum of their
/// checksums.
fn read_each_times<B: StreamBox>(alloc: Global, bytes: &[u8], times: u64) -> Result<u64> {
    let mut place = Vec::new(alloc);
    let mut sum: u64 = 0;
    for _ in 0..times {
        let mut boxes = boxes_as::<B>(alloc, bytes);
        for _ in 0..bytes.len() {
            if !boxes.next_into(&mut place)? {
                break;
            }
            sum = sum.wrapping_add(checksum(&place));
        }
    }
    Ok(sum)
}

/// Reads the boxes in `bytes` once, and writes them `times` times. Returns the sum of the lengths and of the last
/// bytes.
fn write_times<B: StreamBox>(alloc: Global, bytes: &[u8], times: u64) -> Result<u64> {
    let boxes = read_boxes_as::<B>(alloc, &mut ByteCursor::new(bytes))?;
    let mut sum: u64 = 0;
    for _ in 0..times {
        let mut out = Vec::new(alloc);
        sum = sum.wrapping_add(write_boxes(&boxes, &mut out)?);
        if let Some(last) = out.last() {
            sum = sum.wrapping_add(u64::from(*last));
        }
    }
    Ok(sum)
}

/// Reads the stream `bytes`, and fills the front of `out` with the bytes to which its boxes are written. Returns their
/// number. The error is out of memory also if `out` is too short.
fn rewrite<B: StreamBox>(alloc: Global, bytes: &[u8], out: &mut [u8]) -> Result<u64>
    ensures { IfOk result
        (λ n. (vs : List B) × ((boxes B.known B.named_reading bytes.now 0).outcome ≡ Ok vs)
        × (take n out.new ≡ stream B.format.bytes vs)) }
{
    let boxes = read_boxes_as::<B>(alloc, &mut ByteCursor::new(bytes))?;
    let mut stream = Vec::new(alloc);
    let n = write_boxes(&boxes, &mut stream)?;
    if stream.len() > out.len() {
        return Err(Error::OutOfMemory);
    }
    out[..stream.len()].copy_from_slice(&stream);
    Ok(n)
}

/// Reads the stream `bytes` `times` times, each time into new boxes. Returns the sum of their checksums, or `u64::MAX`
/// after an error.
#[unsafe(no_mangle)]
pub extern "C" fn mp4_read(alloc: Global, bytes: &[u8], times: u64) -> u64 {
    read_times::<AnyBox>(alloc, bytes, times).unwrap_or(u64::MAX)
}

/// Reads as `mp4_read` does, and also keeps boxes of other types.
#[unsafe(no_mangle)]
pub extern "C" fn mp4_read_kept(alloc: Global, bytes: &[u8], times: u64) -> u64 {
    read_times::<KeptBox>(alloc, bytes, times).unwrap_or(u64::MAX)
}

/// Reads the stream `bytes` `times` times, one box at a time into the same vector. Returns the sum of the checksums of
/// the boxes, or `u64::MAX` after an error.
#[unsafe(no_mangle)]
pub extern "C" fn mp4_read_each(alloc: Global, bytes: &[u8], times: u64) -> u64 {
    read_each_times::<AnyBox>(alloc, bytes, times).unwrap_or(u64::MAX)
}

/// Reads as `mp4_read_each` does, and also keeps boxes of other types.
#[unsafe(no_mangle)]
pub extern "C" fn mp4_read_each_kept(alloc: Global, bytes: &[u8], times: u64) -> u64 {
    read_each_times::<KeptBox>(alloc, bytes, times).unwrap_or(u64::MAX)
}

/// Reads as `mp4_read` does, but keeps only boxes of fragments.
#[unsafe(no_mangle)]
pub extern "C" fn mp4_read_fragments(alloc: Global, bytes: &[u8], times: u64) -> u64 {
    read_times::<FragmentBox>(alloc, bytes, times).unwrap_or(u64::MAX)
}

/// Reads the stream `bytes` once, and writes its boxes `times` times, each time into a new vector. Returns the sum of
/// the lengths and of the last bytes, or `u64::MAX` after an error.
#[unsafe(no_mangle)]
pub extern "C" fn mp4_write(alloc: Global, bytes: &[u8], times: u64) -> u64 {
    write_times::<AnyBox>(alloc, bytes, times).unwrap_or(u64::MAX)
}

/// Writes as `mp4_write` does, and also keeps boxes of other types.
#[unsafe(no_mangle)]
pub extern "C" fn mp4_write_kept(alloc: Global, bytes: &[u8], times: u64) -> u64 {
    write_times::<KeptBox>(alloc, bytes, times).unwrap_or(u64::MAX)
}

/// Reads the stream `bytes`, and fills the front of `out` with the bytes to which its boxes are written. Returns their
/// number, which is 0 if all boxes were skipped. Returns `u64::MAX` after an error, or if `out` is too short.
#[unsafe(no_mangle)]
pub extern "C" fn mp4_rewrite(alloc: Global, bytes: &[u8], out: &mut [u8]) -> u64
    ensures { (result ≡ 2 ^ 64 - 1)
        ⊎ ((vs : List AnyBox) × ((boxes known_any reading_any bytes.now 0).outcome ≡ Ok vs)
        × (take result out.new ≡ stream format_any.bytes vs)) }
{
    rewrite::<AnyBox>(alloc, bytes, out).unwrap_or(u64::MAX)
}

/// Reads and writes as `mp4_rewrite` does, and also keeps boxes of other types.
#[unsafe(no_mangle)]
pub extern "C" fn mp4_rewrite_kept(alloc: Global, bytes: &[u8], out: &mut [u8]) -> u64
    ensures { (result ≡ 2 ^ 64 - 1)
        ⊎ ((vs : List KeptBox) × ((boxes known_kept reading_kept bytes.now 0).outcome ≡ Ok vs)
        × (take result out.new ≡ stream format_kept.bytes vs)) }
{
    rewrite::<KeptBox>(alloc, bytes, out).unwrap_or(u64::MAX)
}

/// Reads the tables of a track once. Then `times` times checks that the tables agree, and visits all samples in order.
/// Returns the sum of all fields of all samples, or `u64::MAX` after an error.
#[unsafe(no_mangle)]
pub extern "C" fn mp4_samples_in_order(alloc: Global, bytes: &[u8], times: u64) -> u64 {
    samples::samples_in_order(alloc, bytes, times).unwrap_or(u64::MAX)
}

/// Reads the tables of a track and makes an index of its samples, both once. Then looks up one of every ten samples,
/// `times` times. Returns the sum of all fields of these samples, or `u64::MAX` after an error.
#[unsafe(no_mangle)]
pub extern "C" fn mp4_samples_by_number(alloc: Global, bytes: &[u8], times: u64) -> u64 {
    samples::samples_by_number(alloc, bytes, times).unwrap_or(u64::MAX)
}

/// Returns the number of bytes that a member of a list of boxes takes in memory.
#[unsafe(no_mangle)]
pub extern "C" fn mp4_member_size() -> u64 {
    size_of::<AnyBox>() as u64
}

/// Returns the number of bytes that a member of a list takes in memory if the list keeps boxes of other types.
#[unsafe(no_mangle)]
pub extern "C" fn mp4_kept_member_size() -> u64 {
    size_of::<KeptBox>() as u64
}

/// Returns the number of bytes that a member of a list takes in memory if the list keeps only boxes of fragments.
#[unsafe(no_mangle)]
pub extern "C" fn mp4_fragment_member_size() -> u64 {
    size_of::<FragmentBox>() as u64
}
