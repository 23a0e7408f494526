//! The flags of a track header.

/// A flag of a track header (ISO/IEC 14496-12, 8.3.2.3).
#[derive(Drop)]
pub enum TrackFlag {
    /// The flag of an enabled track, which is played.
    TrackEnabled = 1,
}
