//! The faults of an edit list.

use thiserror::Error;

/// A fault of an edit list or of its timescales. The checks run in the order of these kinds, and the first fault is
/// reported. Edits are counted from 0.
#[derive(Clone, Copy, Debug, PartialEq, Eq, Error)]
pub enum EditFault {
    /// The timescale of the movie is 0.
    #[error("the timescale of the movie is 0")]
    MovieTimescale,
    /// The timescale of the media is 0.
    #[error("the timescale of the media is 0")]
    MediaTimescale,
    /// The media time of an edit is below -1, or has more bits than the version of the box has.
    #[error("the media time of edit {index} is below -1: {media_time:#x}")]
    MediaTime {
        index: usize,
        media_time: u64,
    },
    /// The rate of an edit is neither 0 nor 1.
    #[error("the rate of edit {index} is neither 0 nor 1: {rate} and {fraction} / 65536")]
    Rate {
        index: usize,
        rate: u16,
        fraction: u16,
    },
    /// The edits up to this one last longer than 2^64 - 1 units of the timescale of the movie.
    #[error("the edits up to edit {index} last longer than 2^64 - 1")]
    Durations {
        index: usize,
    },
}
