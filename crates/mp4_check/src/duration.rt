//! Durations that contradict other boxes.

ghost use Rattle.std.specs.Prelude.{◌≡◌, ◌*◌, ◌/◌, ◌-◌, ◌^◌, ◌<◌, min};
ghost use Rattle.mp4_check.specs.Durations.{converted, distance, duration_fault, longer, unknown};

/// A duration that a box declares, and the one that follows from other boxes, in ticks of `timescale` a second.
#[derive(Clone, Copy, Debug, PartialEq, Eq)]
pub struct Duration {
    /// The duration that the box declares.
    pub declared: u64,
    /// The duration that follows from other boxes.
    pub found: u64,
    /// The number of ticks a second.
    pub timescale: u32,
}

/// The timescale and the duration of a header.
#[derive(Clone, Copy, Debug, PartialEq, Eq)]
pub struct Times {
    /// The position of the box.
    pub position: u64,
    /// The version of the box.
    pub version: u8,
    /// The number of ticks a second.
    pub timescale: u32,
    /// The duration in ticks.
    pub duration: u64,
}

/// Returns the duration that stands for an unknown one in a header with this version: all bits are set.
pub fn unknown(version: u8) -> u64
    ensures { result ≡ unknown version }
{
    if version == 0 {
        u64::from(u32::MAX)
    } else {
        u64::MAX
    }
}

/// Returns the larger number without the smaller one.
fn distance(one: u64, other: u64) -> u64
    ensures { result ≡ distance one other }
{
    one.max(other) - one.min(other)
}

/// Returns the fault of the duration `declared` of a header, if `found` follows from other boxes: they differ by a
/// second or more.
pub fn duration_fault(version: u8, declared: u64, timescale: u32, found: u64) -> Option<Duration>
    ensures { result ≡ duration_fault version declared timescale found }
{
    if declared == unknown(version)
        || timescale == 0
        || distance(declared, found) < u64::from(timescale)
    {
        return None;
    }
    Some(Duration {
        declared,
        found,
        timescale,
    })
}

/// Returns `time` in ticks of the timescale `to` instead of `from`, without a fraction, and at most 2^64 - 1.
pub fn converted(time: u64, from: u32, to: u32) -> u64
    requires { 0 < from }
    ensures { result ≡ converted time from to }
{
    let ticks = u128::from(time) * u128::from(to) / u128::from(from);
    ticks.min(u128::from(u64::MAX)) as u64
}

/// Returns the longer of the longest duration so far and that of a header with this version. Skips an unknown one.
pub fn longer(longest: Option<u64>, version: u8, duration: u64) -> Option<u64>
    ensures { result ≡ longer longest version duration }
{
    if duration == unknown(version) {
        return longest;
    }
    match longest {
        Some(other) => Some(other.max(duration)),
        None => Some(duration),
    }
}
