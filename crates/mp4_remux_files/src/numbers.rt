//! Numbers in the content of a box.

ghost use Rattle.std.specs.Prelude.{◌≡◌, ◌+◌, ◌<◌, ◌≤◌, ◌^◌, IfSome};
ghost use Rattle.mp4_frame.specs.Bytes.{number};
ghost use Rattle.mp4_remux_files.specs.Fields.{is_flagged, wide_by};

use mp4_frame::{u8_at, u16_at, u32_at, u64_at};
use mp4_io::{Failure, read_failure};
use std::alloc::AllocError;
use std::io;

/// The reason why the fields of a box are not known.
#[derive(Clone, Copy, Debug, PartialEq, Eq)]
pub enum NoFields {
    /// The box is too short, or has a form whose fields can't be changed, or a number would not fit.
    Unknown,
    /// Reading failed, or memory was refused.
    Failed(Failure),
}

impl From<AllocError> for NoFields {
    fn from(_error: AllocError) -> NoFields {
        NoFields::Failed(Failure::Memory)
    }
}

impl From<io::Error> for NoFields {
    fn from(error: io::Error) -> NoFields {
        NoFields::Failed(read_failure(&error))
    }
}

/// Returns the number in no bytes at position `at` of `bytes`, which is 0.
#[tactic(auto, unfolding(mp4_frame::specs::Bytes::number))]
fn no_number(bytes: &[u8], at: u64) -> u64
    ensures { result ≡ number bytes.now at 0 }
{
    0
}

/// Returns the number in the `width` bytes of `bytes` at position `at`, or `None` if there are fewer, or if no number
/// has this width.
pub fn number_at(bytes: &[u8], at: u64, width: u64) -> Option<u64>
    ensures { IfSome result (λ n. n ≡ number bytes.now at width) }
{
    let length = bytes.len() as u64;
    if at > length || width > length - at {
        return None;
    }
    let begin = at as usize;
    if width == 4 {
        Some(u64::from(u32_at(bytes, begin)))
    } else if width == 8 {
        Some(u64_at(bytes, begin))
    } else if width == 2 {
        Some(u64::from(u16_at(bytes, begin)))
    } else if width == 1 {
        Some(u64::from(u8_at(bytes, begin)))
    } else if width == 0 {
        Some(no_number(bytes, at))
    } else {
        None
    }
}

/// Returns the number in the four bytes of `bytes` at position `at`, or `None` if there are fewer.
pub fn short_at(bytes: &[u8], at: u64) -> Option<u64>
    ensures number { IfSome result (λ n. n ≡ number bytes.now at 4) }
    ensures small { IfSome result (λ n. n < 2 ^ 32) }
{
    let length = bytes.len() as u64;
    if at > length || 4 > length - at {
        return None;
    }
    Some(u64::from(u32_at(bytes, at as usize)))
}

/// Returns the position `count` bytes after position `at`, or `None` if it is past 2^64 - 1.
pub fn position_after(at: u64, count: u64) -> Option<u64>
    ensures { IfSome result (λ n. n ≡ at + count) }
{
    at.checked_add(count)
}

/// Returns whether the lowest bit of the flags of a box with the content `bytes` is set.
pub fn is_flagged(bytes: &[u8]) -> Option<bool>
    ensures { IfSome result (λ is. is ≡ is_flagged bytes.now) }
{
    match number_at(bytes, 3, 1) {
        Some(flags) => Some(flags % 2 == 1),
        None => None,
    }
}

/// Returns the number of bytes of a time or an offset in this version.
pub fn wide_by(version: u64) -> u64
    ensures width { result ≡ wide_by version }
    ensures small { result ≤ 8 }
{
    if version == 0 { 4 } else { 8 }
}
