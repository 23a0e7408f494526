//! The faults because of which samples are not listed.

ghost use Rattle.std.specs.Prelude.{◌≡◌};
ghost use Rattle.mp4_inspect_samples.specs.Tracks.{id_of};

use crate::limit::Unlisted;
use mp4_movie::BoxError;
use mp4_samples::{Disagreement, EditFault, FragmentFault};
use std::fmt;

/// A fault because of which samples of a file are not listed. Positions are in bytes.
#[derive(Debug, Drop, thiserror::Error)]
pub enum Fault {
    /// The file has no `moov` and no `moof`.
    #[error("there is no moov, and no moof")]
    NoMovie,
    /// A box is missing or has a fault.
    #[error("{0}")]
    Box(BoxError),
    /// The tables of a track disagree.
    #[error("{0}")]
    Tables(Disagreement),
    /// The header of a `traf` in the `moof` at this position is missing or has a fault, so its track is unknown.
    #[error("moof at {0}: {1}")]
    Header(u64, BoxError),
    /// A sample of a fragment in the `moof` at this position has a fault.
    #[error("moof at {0}: {1}")]
    Fragment(u64, FragmentFault),
    /// The edit list of a track can't be used.
    #[error("{0}")]
    Edits(EditFault),
    /// Not all samples of a track are listed.
    #[error("{0}")]
    Unlisted(Unlisted),
}

/// The name of a track in headings and messages.
#[derive(Clone, Copy, Debug, PartialEq, Eq)]
pub enum TrackName {
    /// The track_ID.
    Id(u32),
    /// The position of the `trak` in the file, in bytes, if the track_ID can't be read.
    At(u64),
}

impl TrackName {
    /// Returns the track_ID, if it can be read.
    pub fn id(self) -> Option<u32>
        ensures { result ≡ id_of self }
    {
        match self {
            TrackName::Id(id) => Some(id),
            TrackName::At(_) => None,
        }
    }
}

impl fmt::Display for TrackName {
    fn fmt<W: fmt::Write>(&self, f: &mut fmt::Formatter<W>) -> fmt::Result {
        match self {
            TrackName::Id(id) => write!(f, "track {id}"),
            TrackName::At(position) => write!(f, "trak at {position}"),
        }
    }
}

/// A fault, and the track that has it, if it is a fault of one track.
#[derive(Debug, Drop)]
pub struct TrackFault {
    /// The name of the track.
    pub track: Option<TrackName>,
    /// The fault.
    pub fault: Fault,
}

impl fmt::Display for TrackFault {
    fn fmt<W: fmt::Write>(&self, f: &mut fmt::Formatter<W>) -> fmt::Result {
        match self.track {
            Some(track) => write!(f, "{track}: {}", self.fault),
            None => write!(f, "{}", self.fault),
        }
    }
}
