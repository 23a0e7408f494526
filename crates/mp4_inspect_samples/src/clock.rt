//! The unit of the times of a track.

/// The unit of the times of a track.
#[derive(Clone, Copy, Debug, PartialEq, Eq)]
pub struct Clock {
    /// The number of ticks in a second, in the timescale of the media, if it can be read.
    pub timescale: Option<u32>,
    /// Asks for seconds instead of ticks.
    pub seconds: bool,
}
