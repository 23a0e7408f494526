//! The reasons why a file is not written in its other form.

ghost use Rattle.std.specs.Prelude.{◌≡◌};
ghost use Rattle.mp4_io.specs.declared.failure.Failure.TheVariants.{Memory};
ghost use Rattle.mp4_remux.specs.declared.forms.refusal.FormStop.TheVariants as stops;
ghost use Rattle.mp4_remux.specs.declared.refusal.Refusal.TheVariants.{Form};
ghost use Rattle.mp4_remux.specs.declared.refusal.Stop.TheVariants.{Failed, Refused};

use crate::pieces::PlanError;
use crate::refusal::{Refusal, Stop, TrackPlace};
use mp4_frame::FourCC;
use mp4_io::Failure;
use std::alloc::{AllocError, AllocFailed};

/// The reason why a file is not written in its other form. Positions are in bytes from the front of the file, and
/// samples and fragments are counted from 1.
#[derive(Clone, Copy, Debug, PartialEq, Eq, thiserror::Error)]
pub enum FormRefusal {
    /// The file has no `moov`.
    #[error("there is no moov")]
    NoMovie,
    /// The file has more than one `moov`.
    #[error("there is another moov at {0}")]
    TwoMovies(u64),
    /// The file should be fragmented, and is.
    #[error("{code} at {position}: the file is fragmented already")]
    Fragmented {
        /// The code of the first box of fragments.
        code: FourCC,
        /// The position of the box.
        position: u64,
    },
    /// The fragments should be joined, and there are none.
    #[error("the file is not fragmented")]
    NotFragmented,
    /// No track has a sample.
    #[error("no track has samples")]
    NoSamples,
    /// A box is not whole.
    #[error("there is no whole box at {0}")]
    NotWhole(u64),
    /// A box has offsets that count from the front of the file, or a compressed movie.
    #[error("{code} at {position}: its offsets can't be shifted")]
    Offsets {
        /// The code of the box.
        code: FourCC,
        /// The position of the box.
        position: u64,
    },
    /// The media data of a track are in another file.
    #[error("{code} at {position}: the media data are in another file")]
    OtherFile {
        /// The code of the box.
        code: FourCC,
        /// The position of the box.
        position: u64,
    },
    /// The other form of the file has no place for what a box says of samples.
    #[error("{code} at {position}: what it says of samples can't be kept")]
    Unkept {
        /// The code of the box.
        code: FourCC,
        /// The position of the box.
        position: u64,
    },
    /// A box is the second of its kind, and a track can have one.
    #[error("{code} at {position}: a track can have only one")]
    Second {
        /// The code of the box.
        code: FourCC,
        /// The position of the box.
        position: u64,
    },
    /// A box of the top level that is kept has no size, and would not be the last one.
    #[error("{code} at {position}: it has no size, and the new file doesn't end with it")]
    Endless {
        /// The code of the box.
        code: FourCC,
        /// The position of the box.
        position: u64,
    },
    /// A duration is too large for the version of its box.
    #[error("{code} at {position}: a duration of {duration} doesn't fit in version 0")]
    Duration {
        /// The code of the box.
        code: FourCC,
        /// The position of the box.
        position: u64,
        /// The duration.
        duration: u64,
    },
    /// A track has no `stsd` after which its tables could be.
    #[error("{0}: there is no stsd")]
    NoDescriptions(TrackPlace),
    /// A box of the new file would be too large for its fields.
    #[error("{0}: the new box would be too large")]
    Size(FourCC),
    /// The new file would have 2^64 bytes or more.
    #[error("the new file would be too long")]
    Long,
    /// A track would have more samples or chunks than its tables can count.
    #[error("{0}: tables can't count its samples")]
    Count(TrackPlace),
    /// Two tracks have the same track_ID, so a fragment can't name one of them.
    #[error("{track}: another track has the track_ID {id}")]
    SameId {
        /// The second of the tracks.
        track: TrackPlace,
        /// The track_ID.
        id: u32,
    },
    /// A fragment names a track that the `moov` doesn't have.
    #[error("moof at {position}: the moov has no track with the track_ID {id}")]
    NoTrack {
        /// The position of the `moof`.
        position: u64,
        /// The track_ID.
        id: u32,
    },
    /// The bytes or the time of a sample end at 2^64 or later.
    #[error("{track}: sample {number} ends at 2^64 or later")]
    Untold {
        /// The track.
        track: TrackPlace,
        /// The number of the sample.
        number: u64,
    },
    /// A sample is not in the file.
    #[error("{track}: sample {number} at {offset}, of {size} bytes, is not in the file")]
    Outside {
        /// The track.
        track: TrackPlace,
        /// The number of the sample.
        number: u64,
        /// The position of its first byte.
        offset: u64,
        /// The number of its bytes.
        size: u32,
    },
    /// The tracks have more samples than the file has bytes.
    #[error("the file counts {samples} samples, and has only {bytes} bytes")]
    Samples {
        /// The number of samples.
        samples: u64,
        /// The length of the file.
        bytes: u64,
    },
    /// The samples have more bytes than the file, so some share bytes.
    #[error("{track}: up to sample {number} the samples have more bytes than the file, so some share bytes")]
    Shared {
        /// The track.
        track: TrackPlace,
        /// The number of the sample.
        number: u64,
    },
    /// The fragments, for each track and each of its groupings, would be too many.
    #[error("{fragments} fragments of {tracks} tracks and groupings are too many")]
    Fragments {
        /// The number of fragments.
        fragments: usize,
        /// The number of tracks and of their groupings.
        tracks: usize,
    },
    /// The data of a fragment are too long for an offset of 31 bits.
    #[error("fragment {0} would have 2^31 bytes or more before the data of its last track")]
    FarData(u32),
    /// A fragment does not fit into a `sidx`.
    #[error("fragment {0} is too long or too late for a sidx")]
    Index(u32),
    /// The first sample of a track is not decoded at 0, and tables can't say so.
    #[error("{track}: the first sample is decoded at {time}, and tables begin at 0")]
    Start {
        /// The track.
        track: TrackPlace,
        /// The decode time of the sample.
        time: u64,
    },
    /// A sample is not decoded when the one before it ends, and tables can't say so.
    #[error("{track}: sample {number} is decoded at {time}, and the one before it ends at {end}")]
    Gap {
        /// The track.
        track: TrackPlace,
        /// The number of the sample.
        number: u64,
        /// The decode time of the sample.
        time: u64,
        /// The time at which the sample before it ends.
        end: u64,
    },
    /// The rendering offset of a sample is too large for the new box.
    #[error("{track}: the rendering offset {offset} of sample {number} doesn't fit in 32 bits")]
    Rendering {
        /// The track.
        track: TrackPlace,
        /// The number of the sample.
        number: u64,
        /// The rendering offset.
        offset: i64,
    },
    /// The new file would list samples of a track in tables, which only a fault of this program could cause.
    #[error("{0}: samples would be left in tables")]
    Listed(TrackPlace),
    /// The new file would have fragments, which only a fault of this program could cause.
    #[error("fragments would be left")]
    Left,
}

/// The reason why a part of a plan is not made. It has no fault of a box, so that it is small.
#[derive(Clone, Copy, Debug, PartialEq, Eq)]
pub enum FormStop {
    /// The file is refused.
    Refused(FormRefusal),
    /// Memory was refused.
    Memory,
}

impl From<FormRefusal> for FormStop {
    ghost from_gives = { λ refusal stop. stop ≡ stops.Refused refusal };

    fn from(refusal: FormRefusal) -> FormStop {
        FormStop::Refused(refusal)
    }
}

impl From<AllocError> for FormStop {
    ghost from_gives = { λ _ stop. stop ≡ stops.Memory };

    fn from(_error: AllocError) -> FormStop {
        FormStop::Memory
    }
}

impl<T: Drop> From<AllocFailed<T>> for FormStop {
    ghost from_gives = { λ _ stop. stop ≡ stops.Memory };

    fn from(_error: AllocFailed<T>) -> FormStop {
        FormStop::Memory
    }
}

impl From<PlanError> for FormStop {
    fn from(error: PlanError) -> FormStop {
        match error {
            PlanError::TooLong => FormStop::Refused(FormRefusal::Long),
            PlanError::Memory => FormStop::Memory,
        }
    }
}

impl From<FormRefusal> for Stop {
    ghost from_gives = { λ refusal stop. stop ≡ Refused (Form refusal) };

    fn from(refusal: FormRefusal) -> Stop {
        Stop::Refused(Refusal::Form(refusal))
    }
}

impl From<FormStop> for Stop {
    fn from(stop: FormStop) -> Stop {
        match stop {
            FormStop::Refused(refusal) => Stop::Refused(Refusal::Form(refusal)),
            FormStop::Memory => Stop::Failed(Failure::Memory),
        }
    }
}

impl<T: Drop> From<AllocFailed<T>> for Stop {
    ghost from_gives = { λ _ stop. stop ≡ Failed Memory };

    fn from(_error: AllocFailed<T>) -> Stop {
        Stop::Failed(Failure::Memory)
    }
}

/// Returns why a new box with `code` is not written.
pub(crate) fn unwritten(error: &mp4_frame::Error, code: u32) -> FormStop {
    match error {
        mp4_frame::Error::OutOfMemory => FormStop::Memory,
        _ => FormStop::Refused(FormRefusal::Size(FourCC::from(code))),
    }
}
