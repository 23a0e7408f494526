//! A chunk of the new file, and its place in the old one.

/// A chunk of the new file, and its place in the old one. Chunks are ordered by their places.
#[derive(Clone, Copy, Debug, PartialEq, Eq, PartialOrd, Ord)]
pub struct ChunkPlace {
    /// The position of its first byte in the old file.
    pub begin: u64,
    /// The number of its bytes.
    pub length: u64,
    /// The index of the track.
    pub track: usize,
    /// The number of chunks of the track before it.
    pub index: u32,
}
