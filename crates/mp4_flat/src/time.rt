//! Times and durations, whose width depends on the version of the box.

ghost use Rattle.std.specs.Prelude.{◌≡◌, ◌↔◌, ◌≤◌, ◌<◌, ◌+◌, ◌^◌, ◌++◌, IsTrue, length, take};
ghost use Rattle.mp4_frame.specs.Bytes.{number, be_bytes};
ghost use Rattle.mp4_frame.specs.Reading.{Answers};
ghost use Rattle.mp4_flat.specs.Time.{time_width, version_of};

use mp4_frame::{Result, check, expect_bytes, put_u32, put_u64, u8_at, u32_at, u64_at};

/// Returns the number of bytes of a time: 8 in version 1, else 4.
pub fn width_of_time(version: u8) -> usize
    ensures { result ≡ time_width version }
{
    if version == 1 { 8 } else { 4 }
}

/// Returns whether `time` fits its field in a box of this `version`: 64 bits in version 1, else 32.
pub fn time_fits(version: u8, time: u64) -> bool
    ensures { IsTrue result ↔ (time < 256 ^ time_width version) }
{
    version == 1 || time < 1 << 32
}

/// Reads the version of a box with times, where `bytes` begins at the box's start. Fails with end of input unless
/// version and flags are present, and with invalid data unless the version is 0 or 1.
pub fn version_of_times(bytes: &[u8]) -> Result<u8>
    ensures { Answers result (version_of bytes.now) }
{
    expect_bytes(bytes, 8, 4)?;
    let version = u8_at(bytes, 8);
    check(version < 2, "version must be 0 or 1")?;
    Ok(version)
}

/// Returns the time at offset `at` of `bytes`, in the width of this `version`.
pub fn time_at(bytes: &[u8], at: usize, version: u8) -> u64
    requires { at + time_width version ≤ length bytes.now }
    ensures { result ≡ number bytes.now at (time_width version) }
{
    if version == 1 {
        u64_at(bytes, at)
    } else {
        u32_at(bytes, at) as u64
    }
}

/// Writes `time` to `out` at offset `at`, in the width of this `version`, and returns the offset after it.
pub fn put_time(out: &mut [u8], at: usize, version: u8, time: u64) -> usize
    requires room { at + time_width version ≤ length out.old }
    requires fits { time < 256 ^ time_width version }
    ensures next { result ≡ at + time_width version }
    ensures put { take result out.new ≡ take at out.old ++ be_bytes (time_width version) time }
{
    if version == 1 {
        put_u64(out, at, time)
    } else {
        put_u32(out, at, time as u32)
    }
}
