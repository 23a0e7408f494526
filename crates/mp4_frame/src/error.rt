//! The errors of reading and writing a box.

ghost use Rattle.std.specs.Prelude.{◌≡◌};
ghost use Rattle.mp4_frame.specs.declared.error.Error.TheVariants.{OutOfMemory};

use crate::box_type::BoxType;
use std::alloc::{AllocError, AllocFailed};

/// The reason why a box could not be read or written. The codec itself returns `IoError`, `InvalidData`, `BoxNotFound`
/// and `OutOfMemory`. The other variants are for the layers above it.
#[derive(Debug, Drop, thiserror::Error)]
pub enum Error {
    /// The input ends before the last byte that a box needs.
    #[error("unexpected end of input")]
    IoError,
    /// A check of the layout failed. The text identifies the check, for a person to read.
    #[error("{0}")]
    InvalidData(&'static str),
    /// A box lacks the child of this name.
    #[error("{0} not found")]
    BoxNotFound(BoxType),
    /// A file lacks both boxes.
    #[error("{0} and {1} not found")]
    Box2NotFound(BoxType, BoxType),
    /// No track has this number.
    #[error("trak[{0}] not found")]
    TrakNotFound(u32),
    /// The track of this number lacks the box.
    #[error("trak[{0}].{1} not found")]
    BoxInTrakNotFound(u32, BoxType),
    /// The fragment of the track of this number lacks the box.
    #[error("traf[{0}].{1} not found")]
    BoxInTrafNotFound(u32, BoxType),
    /// The sample table of the track of this number lacks the box.
    #[error("trak[{0}].stbl.{1} not found")]
    BoxInStblNotFound(u32, BoxType),
    /// A table in the sample table of the track of this number lacks the entry.
    #[error("trak[{0}].stbl.{1}.entry[{2}] not found")]
    EntryInStblNotFound(u32, BoxType, u32),
    /// A run of the fragment of the track of this number lacks the entry.
    #[error("traf[{0}].trun.{1}.entry[{2}] not found")]
    EntryInTrunNotFound(u32, BoxType, u32),
    /// The box has a version that the reader doesn't know.
    #[error("{0} version {1} is not supported")]
    UnsupportedBoxVersion(BoxType, u8),
    /// Memory was refused, or the requested length is more than a vector can hold.
    #[error("out of memory")]
    OutOfMemory,
}

/// The result of a call of this library.
pub type Result<T> = std::result::Result<T, Error>;

impl From<AllocError> for Error {
    ghost from_gives = { λ _ e. e ≡ OutOfMemory };

    fn from(_e: AllocError) -> Error {
        Error::OutOfMemory
    }
}

impl<T: Drop> From<AllocFailed<T>> for Error {
    ghost from_gives = { λ _ e. e ≡ OutOfMemory };

    fn from(_e: AllocFailed<T>) -> Error {
        Error::OutOfMemory
    }
}
