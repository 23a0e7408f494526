//! Track types: video, audio and subtitles.

ghost use Rattle.std.specs.Prelude.{◌≡◌, Some};

use mp4_frame::{Error, FourCC, Result};
use std::fmt;

/// The kind of a track's media. Each has its handler type (ISO/IEC 14496-12, 8.4.3; `sbtl` is QuickTime's).
#[derive(Clone, Copy, Debug, PartialEq, Eq)]
pub enum TrackType {
    /// Video: `vide`.
    Video,
    /// Audio: `soun`.
    Audio,
    /// Subtitles: `sbtl`.
    Subtitle,
}

/// Shows the name of the type: `Video`, `Audio` or `Subtitle`.
impl fmt::Display for TrackType {
    ghost use Rattle.mp4_media.specs.TrackType.{text_track_type};

    ghost output = { λ t. Some (text_track_type t) };

    fn fmt<W: fmt::Write>(&self, f: &mut fmt::Formatter<W>) -> fmt::Result {
        f.write_str(match self {
            TrackType::Video => "Video",
            TrackType::Audio => "Audio",
            TrackType::Subtitle => "Subtitle",
        })
    }
}

/// Converts a handler type to its track type. A string other than `vide`, `soun` and `sbtl` is invalid data.
impl TryFrom<&str> for TrackType {
    ghost use Rattle.mp4_media.specs.Conversion.{IsConversion};
    ghost use Rattle.mp4_media.specs.TrackType.{track_type_of};

    type Error = Error;

    ghost try_from_gives = { λ handler r. IsConversion (track_type_of handler.now) r };

    #[tactic(auto, unfolding(crate::specs::TrackType::track_type_of))]
    fn try_from(handler: &str) -> Result<TrackType> {
        match handler {
            "vide" => Ok(TrackType::Video),
            "soun" => Ok(TrackType::Audio),
            "sbtl" => Ok(TrackType::Subtitle),
            _ => Err(Error::InvalidData("unsupported handler type")),
        }
    }
}

/// Converts a handler type to its track type. A code other than `vide`, `soun` and `sbtl` is invalid data.
impl TryFrom<&FourCC> for TrackType {
    ghost use Rattle.mp4_media.specs.Conversion.{IsConversion};
    ghost use Rattle.mp4_media.specs.TrackType.{track_type_of};

    type Error = Error;

    ghost try_from_gives = { λ handler r. IsConversion (track_type_of handler.now.value) r };

    #[tactic(auto, unfolding(crate::specs::TrackType::track_type_of))]
    fn try_from(handler: &FourCC) -> Result<TrackType> {
        match &handler.value {
            b"vide" => Ok(TrackType::Video),
            b"soun" => Ok(TrackType::Audio),
            b"sbtl" => Ok(TrackType::Subtitle),
            _ => Err(Error::InvalidData("unsupported handler type")),
        }
    }
}

/// Converts a track type to its handler type.
impl From<TrackType> for FourCC {
    ghost use Rattle.mp4_media.specs.TrackType.{handler_track_type};

    ghost from_gives = { λ t handler. handler.value ≡ handler_track_type t };

    fn from(track: TrackType) -> FourCC {
        FourCC::from(match track {
            TrackType::Video => *b"vide",
            TrackType::Audio => *b"soun",
            TrackType::Subtitle => *b"sbtl",
        })
    }
}
