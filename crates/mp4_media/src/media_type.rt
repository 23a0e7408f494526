//! Media types: the codings of a track's samples.

ghost use Rattle.std.specs.Prelude.{◌≡◌, Some};

use mp4_frame::{Error, Result};
use std::fmt;

/// The coding of a track's samples. Each type has a string, which is given here.
#[derive(Clone, Copy, Debug, PartialEq, Eq)]
pub enum MediaType {
    /// Advanced video coding (ISO/IEC 14496-10): `h264`.
    H264,
    /// High efficiency video coding (ISO/IEC 23008-2): `h265`.
    H265,
    /// VP9 video: `vp9`.
    VP9,
    /// Advanced audio coding (ISO/IEC 14496-3): `aac`.
    AAC,
    /// Timed text (3GPP TS 26.245): `ttxt`.
    TTXT,
}

/// Shows the string of the media type.
impl fmt::Display for MediaType {
    ghost use Rattle.mp4_media.specs.MediaType.{text_media_type};

    ghost output = { λ m. Some (text_media_type m) };

    fn fmt<W: fmt::Write>(&self, f: &mut fmt::Formatter<W>) -> fmt::Result {
        f.write_str(<&str>::from(self))
    }
}

/// Converts a string to its media type. A string that no type has is invalid data.
impl TryFrom<&str> for MediaType {
    ghost use Rattle.mp4_media.specs.Conversion.{IsConversion};
    ghost use Rattle.mp4_media.specs.MediaType.{media_type_of};

    type Error = Error;

    ghost try_from_gives = { λ text r. IsConversion (media_type_of text.now) r };

    #[tactic(auto, unfolding(crate::specs::MediaType::media_type_of))]
    fn try_from(text: &str) -> Result<MediaType> {
        match text {
            "h264" => Ok(MediaType::H264),
            "h265" => Ok(MediaType::H265),
            "vp9" => Ok(MediaType::VP9),
            "aac" => Ok(MediaType::AAC),
            "ttxt" => Ok(MediaType::TTXT),
            _ => Err(Error::InvalidData("unsupported media type")),
        }
    }
}

/// Converts a media type to its string.
impl From<MediaType> for &'static str {
    ghost use Rattle.mp4_media.specs.MediaType.{text_media_type};

    ghost from_gives = { λ m text. text.now ≡ text_media_type m };

    fn from(media: MediaType) -> &'static str {
        match media {
            MediaType::H264 => "h264",
            MediaType::H265 => "h265",
            MediaType::VP9 => "vp9",
            MediaType::AAC => "aac",
            MediaType::TTXT => "ttxt",
        }
    }
}

/// Converts a media type to its string.
impl From<&MediaType> for &'static str {
    ghost use Rattle.mp4_media.specs.MediaType.{text_media_type};

    ghost from_gives = { λ m text. text.now ≡ text_media_type m.now };

    fn from(media: &MediaType) -> &'static str {
        <&str>::from(*media)
    }
}
