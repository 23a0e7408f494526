//! A sample of a track.

ghost use Rattle.std.specs.Prelude.{◌≡◌, Some};
ghost use Rattle.std.specs.Cmp.Rules.{comparing};
ghost use Rattle.std.proofs.Common.{rules};

use bytes::Bytes;
use std::fmt;

/// A sample of a track. Its times are in units of the track's time scale.
#[derive(Debug, Drop)]
pub struct Mp4Sample {
    /// The decoding time.
    pub start_time: u64,
    /// The duration.
    pub duration: u32,
    /// The composition time minus the decoding time.
    pub rendering_offset: i32,
    /// True if decoding can start at this sample.
    pub is_sync: bool,
    /// The sample's data.
    pub bytes: Bytes,
}

/// Compares all fields, but only the length of the data, not its bytes.
impl PartialEq for Mp4Sample {
    ghost use Rattle.mp4_media.specs.Mp4Sample.{eq_mp4_sample};

    ghost eq = { eq_mp4_sample };

    ghost laws = { Prim.search (comparing, rules) depth 9 };

    fn eq(&self, other: &Self) -> bool {
        self.start_time == other.start_time
            && self.duration == other.duration
            && self.rendering_offset == other.rendering_offset
            && self.is_sync == other.is_sync
            && self.bytes.len() == other.bytes.len()
    }
}

/// Shows the fields and, instead of the data, its length, such as
/// `start_time 1, duration 2, rendering_offset -3, is_sync true, length 4`.
impl fmt::Display for Mp4Sample {
    ghost use Rattle.mp4_media.specs.Mp4Sample.{text_mp4_sample};

    ghost output = { λ s. Some (text_mp4_sample s) };

    fn fmt<W: fmt::Write>(&self, f: &mut fmt::Formatter<W>) -> fmt::Result {
        write!(
            f,
            "start_time {}, duration {}, rendering_offset {}, is_sync {}, length {}",
            self.start_time,
            self.duration,
            self.rendering_offset,
            self.is_sync,
            self.bytes.len()
        )
    }
}
