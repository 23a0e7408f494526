//! Keys of metadata.

/// A key of a file's metadata.
#[derive(Clone, Debug, PartialEq, Eq, Hash, Drop)]
pub enum MetadataKey {
    /// The title.
    Title,
    /// The year of release.
    Year,
    /// The poster or cover.
    Poster,
    /// The summary.
    Summary,
}
