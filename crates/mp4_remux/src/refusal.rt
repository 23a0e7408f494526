//! The reasons why a file is not rewritten.

ghost use Rattle.std.specs.Prelude.{◌≡◌};
ghost use Rattle.mp4_io.specs.declared.failure.Failure.TheVariants.{Memory};
ghost use Rattle.mp4_remux.specs.declared.refusal.Refusal.TheVariants.{Edit};
ghost use Rattle.mp4_remux.specs.declared.refusal.Stop.TheVariants.{Failed, Refused};

use crate::edits::EditRefusal;
use crate::forms::FormRefusal;
use crate::parts::PartRefusal;
use mp4_io::{Failure, read_failure};
use mp4_movie::{BoxError, MovieError};
use mp4_samples::Disagreement;
use std::alloc::AllocError;
use std::io;

/// A track as refusals name it.
#[derive(Clone, Copy, Debug, PartialEq, Eq, thiserror::Error)]
#[error("trak {number} at {position}")]
pub struct TrackPlace {
    /// The number of the track in the first `moov`, counted from 1.
    pub number: usize,
    /// The position of its `trak` in the old file, in bytes.
    pub position: u64,
}

/// The reason why a plan of a new file is refused: the new file would not keep the media of the old file, or nobody can
/// tell.
#[derive(Debug, Drop, thiserror::Error)]
pub enum Refusal {
    /// A piece of the plan is not in the old file.
    #[error("a piece is not in the old file")]
    Pieces,
    /// The new file would have another number of tracks.
    #[error("the new file would have {after} tracks, and not {before}")]
    Tracks {
        /// The number of tracks of the old file.
        before: usize,
        /// The number of tracks of the new file.
        after: usize,
    },
    /// A `traf` can't be read.
    #[error("{0}")]
    Fragment(BoxError),
    /// The track_ID, the timescale or the handler type of a track can't be read, or would not be the same.
    #[error("{0}: its track_ID, timescale and handler can't be kept")]
    Headers(TrackPlace),
    /// The sample tables or the sample descriptions of a track can't be read.
    #[error("{track}: {error}")]
    Track {
        /// The track.
        track: TrackPlace,
        /// The box that is missing or has a fault.
        error: BoxError,
    },
    /// The sample descriptions of a track would not be the same.
    #[error("{0}: its stsd would not be the same")]
    Descriptions(TrackPlace),
    /// The sample tables of a track disagree.
    #[error("{track}: {disagreement}")]
    Tables {
        /// The track.
        track: TrackPlace,
        /// The difference between them.
        disagreement: Disagreement,
    },
    /// A sample would not be the same.
    #[error("{track}: sample {number} would not be the same")]
    Sample {
        /// The track.
        track: TrackPlace,
        /// The number of the sample, counted from 1.
        number: u64,
    },
    /// An edit can't be made.
    #[error("{0}")]
    Edit(EditRefusal),
    /// The other form of the file can't be made.
    #[error("{0}")]
    Form(FormRefusal),
    /// A part of the file can't be made.
    #[error("{0}")]
    Part(PartRefusal),
}

/// The reason why a new file is not planned.
#[derive(Debug, Drop, thiserror::Error)]
pub enum Stop {
    /// The plan is refused.
    #[error("{0}")]
    Refused(Refusal),
    /// Reading failed, or memory was refused.
    #[error("{0}")]
    Failed(Failure),
}

impl From<Failure> for Stop {
    ghost from_gives = { λ failure stop. stop ≡ Failed failure };

    fn from(failure: Failure) -> Stop {
        Stop::Failed(failure)
    }
}

impl From<AllocError> for Stop {
    ghost from_gives = { λ _ stop. stop ≡ Failed Memory };

    fn from(_error: AllocError) -> Stop {
        Stop::Failed(Failure::Memory)
    }
}

impl From<io::Error> for Stop {
    fn from(error: io::Error) -> Stop {
        Stop::Failed(read_failure(&error))
    }
}

/// Returns the refusal of an edit as a reason to write nothing.
pub(crate) fn refused(refusal: EditRefusal) -> Stop
    ensures { result ≡ Refused (Edit refusal) }
{
    Stop::Refused(Refusal::Edit(refusal))
}

/// Returns why the boxes of `track` can't be read.
pub(crate) fn in_track(error: MovieError, track: TrackPlace) -> Stop {
    match error {
        MovieError::Box(error) => Stop::Refused(Refusal::Track { track, error }),
        MovieError::Io(error) => Stop::from(error),
    }
}

/// Returns why the fragments of a file can't be read.
pub(crate) fn in_fragments(error: MovieError) -> Stop {
    match error {
        MovieError::Box(error) => Stop::Refused(Refusal::Fragment(error)),
        MovieError::Io(error) => Stop::from(error),
    }
}
