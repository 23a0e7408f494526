//! The times of a part.

/// The part of a file that is presented between two times.
#[derive(Debug, Drop)]
pub struct Part {
    /// The time at which the part begins, in nanoseconds.
    pub from: u64,
    /// The time at which the part ends, in nanoseconds.
    pub to: u64,
    /// The time of the media of each track that is presented at 0, in the timescale of the media. It follows from the
    /// edit list of the track.
    pub origins: Vec<i64>,
}
