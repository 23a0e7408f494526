//! The reasons why a part of a file is not written.

ghost use Rattle.std.specs.Prelude.{◌≡◌};
ghost use Rattle.mp4_remux.specs.declared.refusal.Refusal.TheVariants as refusals;
ghost use Rattle.mp4_remux.specs.declared.refusal.Stop.TheVariants.{Refused};

use crate::refusal::{Refusal, Stop, TrackPlace};

/// The reason why a part of a file is not written.
#[derive(Clone, Copy, Debug, PartialEq, Eq, thiserror::Error)]
pub enum PartRefusal {
    /// No track is a video.
    #[error("there is no video")]
    NoVideo,
    /// The part begins when the video has ended.
    #[error("{0}: it ends before the part begins")]
    Ended(TrackPlace),
    /// No sync sample of the video is presented when the part begins, or earlier.
    #[error("{0}: no sync sample is presented when the part begins, or earlier")]
    NoSync(TrackPlace),
    /// The part has no sample of a track.
    #[error("{0}: none of its samples is in the part")]
    Empty(TrackPlace),
    /// The edit list of a track presents more than one range of the media, or presents it at another rate.
    #[error("{0}: its edit list doesn't present one range of the media")]
    Edits(TrackPlace),
    /// A time doesn't fit in 64 bits, or it is not known which time of the media is presented at 0.
    #[error("{0}: its times can't be told")]
    Times(TrackPlace),
}

impl From<PartRefusal> for Stop {
    ghost from_gives = { λ refusal stop. stop ≡ Refused (refusals.Part refusal) };

    fn from(refusal: PartRefusal) -> Stop {
        Stop::Refused(Refusal::Part(refusal))
    }
}
