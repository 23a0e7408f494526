//! The presentation of a time of the media.

/// The edit that presents a time of the media, and when.
#[derive(Clone, Copy, Debug, PartialEq, Eq)]
pub struct Presentation {
    /// The edit, counted from 0.
    pub edit: usize,
    /// The time of the presentation in ticks. `Edits::ticks_per_second` returns the number of ticks in a second.
    pub ticks: u128,
}
