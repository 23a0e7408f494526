//! A fragment of the new file.

/// A fragment of the new file: its place, and the times of the track that leads.
#[derive(Clone, Copy, Debug, Default, PartialEq, Eq)]
pub struct FragmentPart {
    /// The number of bytes of the fragment: its `styp` if it has one, its `moof` and its `mdat`.
    pub length: u64,
    /// The sum of the durations of the samples.
    pub duration: u64,
    /// The time at which the first sample is presented.
    pub shown: u64,
    /// The earliest time at which a sample is presented.
    pub earliest: u64,
    /// True if the first sample is a sync sample.
    pub is_sync: bool,
    /// The number of the first `traf` of the track in the `moof`, counted from 1.
    pub traf: u32,
}
