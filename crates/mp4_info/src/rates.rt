//! The frame rate and the bit rate of a track, by its tables.

ghost use Rattle.std.specs.Prelude.{◌≡◌, ◌<◌, ◌^◌};
ghost use Rattle.mp4_info.specs.Rates.{all_have, average_rate, bit_rate, constant_rate, first_entry, frame_rate};
ghost use Rattle.mp4_info.specs.Rates.{is_steady, rate};

use crate::rounding::{product, rounded};
use crate::totals::sample_count;
use mp4_tables::SttsEntry;

/// A number of frames in a number of seconds, as a fraction: `frames` / `units` frames in a second.
#[derive(Clone, Copy, Debug, PartialEq, Eq)]
pub struct FrameRate {
    /// The numerator: the timescale of the media, or that times the number of frames.
    pub frames: u128,
    /// The denominator: the distance between two frames, or the duration of all frames, in the timescale of the media.
    pub units: u64,
    /// True if all distances between frames are equal. Otherwise the rate is an average.
    pub is_constant: bool,
    /// The frames in 1000 seconds, rounded, and up from a half.
    pub thousandths: u128,
}

/// Returns whether the samples of all `entries` have the duration `delta`.
fn all_have(delta: u32, entries: &[SttsEntry]) -> bool
    ensures { result ≡ all_have delta entries.now }
{
    for index in 0..entries.len() {
        if entries[index].sample_delta != delta {
            return false;
        }
    }
    true
}

/// Returns whether the samples of `entries` have the duration `delta`, except that the last sample may have another.
fn is_steady(delta: u32, entries: &[SttsEntry]) -> bool
    ensures { result ≡ is_steady delta entries.now }
{
    let Some(last) = entries.len().checked_sub(1) else {
        return true;
    };
    all_have(delta, &entries[..last])
        && (entries[last].sample_count <= 1 || entries[last].sample_delta == delta)
}

/// Returns the delta of the first of `entries`, or 0 if there is none.
fn first_delta(entries: &[SttsEntry]) -> u32
    ensures { result ≡ (first_entry entries.now).sample_delta }
{
    if entries.is_empty() {
        0
    } else {
        entries[0].sample_delta
    }
}

/// Returns the rate of `frames` frames in `units` units of time, or `None` if one of them is 0.
fn rate(frames: u128, units: u64, is_constant: bool) -> Option<FrameRate>
    requires { frames < 2 ^ 96 }
    ensures { result ≡ rate frames units is_constant }
{
    if frames == 0 || units == 0 {
        return None;
    }
    Some(FrameRate {
        frames,
        units,
        is_constant,
        thousandths: rounded(1000 * frames, units),
    })
}

/// Returns the rate of frames that are `delta` apart, or `None` if all are at one time.
fn constant_rate(timescale: u32, delta: u32) -> Option<FrameRate>
    ensures { result ≡ constant_rate timescale delta }
{
    rate(u128::from(timescale), u64::from(delta), true)
}

/// Returns the average rate of `samples` samples that last for `time`, or `None` if they last for no time.
fn average_rate(timescale: u32, samples: u64, time: u64) -> Option<FrameRate>
    ensures { result ≡ average_rate timescale samples time }
{
    rate(product(samples, timescale), time, false)
}

/// Returns the frame rate of samples with the durations in `entries`, in the form of an `stts`, which last for `time`
/// together: a constant rate if all distances between frames are equal, and otherwise the average. Fewer than two
/// samples have none.
pub fn frame_rate(timescale: u32, entries: &[SttsEntry], time: u64) -> Option<FrameRate>
    ensures { result ≡ frame_rate timescale entries.now time }
{
    let samples = sample_count(entries);
    if samples < 2 {
        return None;
    }
    let delta = first_delta(entries);
    if is_steady(delta, entries) {
        constant_rate(timescale, delta)
    } else {
        average_rate(timescale, samples, time)
    }
}

/// Returns the number of bits of a second, on average, for `bytes` bytes of samples that last for `time`, in the
/// timescale of the media. The number is rounded, and up from a half. Returns `None` if they last for no time.
pub fn bit_rate(timescale: u32, bytes: u64, time: u64) -> Option<u128>
    ensures { result ≡ bit_rate timescale bytes time }
{
    if timescale == 0 || time == 0 {
        return None;
    }
    Some(rounded(8 * product(bytes, timescale), time))
}
