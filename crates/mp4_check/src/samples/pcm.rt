//! The frames of PCM, by their sample entries.

ghost use Rattle.std.specs.Prelude.{◌≡◌, ◌≤◌, ◌*◌, IfOk, IfSome};
ghost use Rattle.mp4_check.specs.Kinds.{channel_frame, is_pcm, is_quicktime, or_none, pcm_frame};
ghost use Rattle.mp4_check.specs.Kinds.{quicktime_frame, sample_bytes, whole_bytes};
ghost use Rattle.mp4_check.specs.Fields.{field};

use crate::samples::codes::{FL32, FL64, FPCM, IN24, IN32, IPCM, LPCM, PCMC, RAW, SOWT, TWOS};
use crate::samples::field::{field, field_in};
use crate::samples::kind::{INNER_DEPTH, or_none};
use mp4_io::Failure;
use mp4_movie::first_in;
use mp4_walk::{BoxWalk, Front, Source, TreeBox};
use std::alloc::Global;

/// Returns whether `code` is that of an entry of PCM in QuickTime.
pub fn is_quicktime(code: u32) -> bool
    ensures { result ≡ is_quicktime code }
{
    matches!(code, SOWT | TWOS | RAW | IN24 | IN32 | FL32 | FL64 | LPCM)
}

/// Returns whether `code` is that of an entry of PCM in ISO/IEC 23003-5.
pub fn is_pcm(code: u32) -> bool
    ensures { result ≡ is_pcm code }
{
    matches!(code, IPCM | FPCM)
}

/// Returns the bytes that `bits` bits are, or 0 if they are no whole bytes.
fn whole_bytes(bits: u32) -> u32
    ensures { result ≡ whole_bytes bits }
{
    if bits % 8 == 0 { bits / 8 } else { 0 }
}

/// Returns the bytes of each number of an entry of QuickTime that is not of version 2, or 0 if they are not known.
/// `bits` is the sample size in the entry.
fn sample_bytes(code: u32, bits: u32) -> u32
    ensures { result ≡ sample_bytes code bits }
{
    match code {
        IN24 => 3,
        IN32 | FL32 => 4,
        FL64 => 8,
        SOWT | TWOS | RAW => whole_bytes(bits),
        _ => 0,
    }
}

/// Returns the bytes of a frame with `bytes` bytes for each of `channels` channels.
fn frame_of(channels: u32, bytes: u32) -> u64
    ensures { result ≡ channels * bytes }
{
    u64::from(channels) * u64::from(bytes)
}

/// Returns the number in the field of `width` bytes at `offset` in the content of `found`, or 0 if there is none.
fn number<S: Source>(
    alloc: Global,
    walk: &mut BoxWalk<S>,
    found: &TreeBox,
    offset: u64,
    width: u64,
) -> Result<u32, Failure>
    requires low { 1 ≤ width }
    requires high { width ≤ 4 }
    ensures value { IfSome walk.old.bytes
        (λ file. IfOk result (λ r. r ≡ or_none (field file found.now offset width))) }
    ensures kept { walk.new ≡ walk.old }
{
    let number = field(alloc, walk, found, offset, width)?;
    Ok(or_none(number))
}

/// Returns the bytes of a frame of the entry `found` of version 0 or 1 in QuickTime: those of each channel.
fn channel_frame<S: Source>(
    alloc: Global,
    walk: &mut BoxWalk<S>,
    code: u32,
    found: &TreeBox,
) -> Result<u64, Failure>
    ensures value { IfSome walk.old.bytes
        (λ file. IfOk result (λ r. r ≡ channel_frame file code found.now)) }
    ensures kept { walk.new ≡ walk.old }
{
    let channels = number(alloc, walk, found, 16, 2)?;
    let bits = number(alloc, walk, found, 18, 2)?;
    Ok(frame_of(channels, sample_bytes(code, bits)))
}

/// Returns the bytes of a frame of the entry `found` of QuickTime, or 0 if they are not known.
pub fn quicktime_frame<S: Source>(
    alloc: Global,
    walk: &mut BoxWalk<S>,
    code: u32,
    found: &TreeBox,
) -> Result<u64, Failure>
    ensures value { IfSome walk.old.bytes
        (λ file. IfOk result (λ r. r ≡ quicktime_frame file code found.now found.now.front)) }
    ensures kept { walk.new ≡ walk.old }
{
    match found.front {
        Some(Front::QuickTimeSound2) => Ok(u64::from(number(alloc, walk, found, 56, 4)?)),
        Some(Front::QuickTimeSound1 | Front::SoundEntry) => {
            channel_frame(alloc, walk, code, found)
        }
        _ => Ok(0),
    }
}

/// Returns the bytes of a frame of the entry `found` of ISO/IEC 23003-5, or 0 if they are not known. `after` begins
/// with the boxes inside it.
pub fn pcm_frame<S: Source>(
    alloc: Global,
    walk: &mut BoxWalk<S>,
    found: &TreeBox,
    after: &[TreeBox],
) -> Result<u64, Failure>
    ensures value { IfSome walk.old.bytes (λ file. IfOk result (λ r. r ≡ pcm_frame file found.now after.now)) }
    ensures kept { walk.new ≡ walk.old }
{
    let channels = number(alloc, walk, found, 16, 2)?;
    let bits = field_in(alloc, walk, first_in(after, INNER_DEPTH, PCMC), 5, 1)?;
    Ok(frame_of(channels, whole_bytes(or_none(bits))))
}
