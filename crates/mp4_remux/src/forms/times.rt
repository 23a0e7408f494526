//! Times in the timescales of tracks, which are compared as fractions, so that nothing is lost by rounding.

/// The number of nanoseconds in a second.
const SECOND: u32 = 1_000_000_000;

/// Returns the product of two numbers.
fn product(time: u64, factor: u32) -> u128 {
    u128::from(time) * u128::from(factor)
}

/// A time of a track.
#[derive(Clone, Copy, Debug, PartialEq, Eq)]
pub struct Time {
    /// The time, in ticks.
    pub ticks: u64,
    /// The number of ticks in a second.
    pub scale: u32,
}

impl Time {
    /// Returns whether this time is before `other`.
    pub(crate) fn is_before(self, other: Time) -> bool {
        product(self.ticks, other.scale) < product(other.ticks, self.scale)
    }

    /// Returns whether this time is a time of at least `nanoseconds`.
    pub(crate) fn is_at_least(self, nanoseconds: u64) -> bool {
        product(nanoseconds, self.scale) <= product(self.ticks, SECOND)
    }

    /// Returns whether this time is after a time of this many `nanoseconds`.
    pub(crate) fn is_after(self, nanoseconds: u64) -> bool {
        product(nanoseconds, self.scale) < product(self.ticks, SECOND)
    }

    /// Returns this time in ticks of another timescale, rounded, and up from a half, or the largest number of ticks.
    pub(crate) fn nearest(self, scale: u32) -> u64 {
        if self.scale == 0 {
            return 0;
        }
        let half = u128::from(self.scale / 2);
        let ticks = product(self.ticks, scale).saturating_add(half) / u128::from(self.scale);
        u64::try_from(ticks).unwrap_or(u64::MAX)
    }

    /// Returns this time in ticks of another timescale, rounded down, or the largest number of ticks.
    pub(crate) fn in_scale(self, scale: u32) -> u64 {
        if self.scale == 0 {
            return 0;
        }
        u64::try_from(product(self.ticks, scale) / u128::from(self.scale)).unwrap_or(u64::MAX)
    }
}
