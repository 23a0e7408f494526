//! The progress of the rows of a track.

use crate::limit::Unlisted;

/// The rows of a track that are written. The default is none.
#[derive(Clone, Copy, Debug, Default, PartialEq, Eq)]
pub struct Reached {
    /// The number of rows.
    pub count: u64,
    /// The time at which the next fragment begins if it states no time, in the timescale of the media.
    pub time: u64,
    /// The number of samples without bytes in a row up to the last row. It counts up to `MOST_EMPTY`.
    pub empty: u32,
    /// The first sample that isn't listed, if there is one.
    pub unlisted: Option<Unlisted>,
}
