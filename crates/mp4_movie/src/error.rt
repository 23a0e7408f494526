//! Errors of a movie.

ghost use Rattle.std.specs.Prelude.{◌≡◌};
ghost use Rattle.mp4_movie.specs.declared.error.MovieError.TheVariants as errors;

use mp4_frame::{Error, FourCC};
use std::io;

/// The reason why a box of a movie has no value.
#[derive(Debug, Drop, thiserror::Error)]
pub enum BoxError {
    /// A mandatory box of this code is missing. If both `stco` and `co64` are missing, the code is `stco`.
    #[error("there is no {code}")]
    Missing {
        /// The code of the box.
        code: FourCC,
    },
    /// The box of this code at this position has a fault.
    #[error("{code} at {position}: {error}")]
    Fault {
        /// The code of the box.
        code: FourCC,
        /// The position of the box in the file, in bytes.
        position: u64,
        /// The first fault of the box.
        error: Error,
    },
    /// The track of a fragment has no `trex`, and so no defaults.
    #[error("there is no trex")]
    NoDefaults {
        /// The track_ID in the header of the fragment.
        track_id: u32,
    },
    /// Offsets in a fragment count from the end of the data before it, which is unknown.
    #[error("the data before a fragment in the moof at {position} have no known end")]
    NoBase {
        /// The position of the `moof` in the file, in bytes.
        position: u64,
        /// The track_ID in the header of the fragment.
        track_id: u32,
    },
}

/// The reason why a question about a movie has no answer.
#[derive(Debug, Drop, thiserror::Error)]
pub enum MovieError {
    /// A box is missing or has a fault.
    #[error("{0}")]
    Box(BoxError),
    /// Reading failed, or memory was refused.
    #[error("{0}")]
    Io(io::Error),
}

impl From<io::Error> for MovieError {
    ghost from_gives = { λ e m. m ≡ errors.Io e };

    fn from(error: io::Error) -> MovieError {
        MovieError::Io(error)
    }
}
