//! Profiles of advanced video coding.

ghost use Rattle.std.specs.Prelude.{◌≡◌, Some};

use mp4_frame::{Error, Result};
use std::fmt;

/// The profile of an advanced video coding stream (ISO/IEC 14496-10, A.2).
#[derive(Clone, Copy, Debug, PartialEq, Eq)]
pub enum AvcProfile {
    /// Profile 66 with constraint set 1.
    AvcConstrainedBaseline,
    /// Profile 66 without constraint set 1.
    AvcBaseline,
    /// Profile 77.
    AvcMain,
    /// Profile 88.
    AvcExtended,
    /// Profile 100.
    AvcHigh,
}

/// Converts a pair to its profile: the profile number, and the byte of constraint flags that follows it in a file. Bit
/// 0x40 of the flags is constraint set 1. A number other than 66, 77, 88 and 100 is invalid data.
impl TryFrom<(u8, u8)> for AvcProfile {
    ghost use Rattle.mp4_media.specs.Conversion.{IsConversion};
    ghost use Rattle.mp4_media.specs.AvcProfile.{avc_profile_of};

    type Error = Error;

    ghost try_from_gives = { λ numbers r. IsConversion (avc_profile_of numbers) r };

    #[tactic(auto, using(mp4_lemmas::proofs::Numbers::masked), unfolding(crate::specs::AvcProfile::avc_profile_of))]
    fn try_from(numbers: (u8, u8)) -> Result<AvcProfile> {
        let (profile, constraints) = numbers;
        let is_constrained = constraints & 0x40 != 0;
        match (profile, is_constrained) {
            (66, true) => Ok(AvcProfile::AvcConstrainedBaseline),
            (66, false) => Ok(AvcProfile::AvcBaseline),
            (77, _) => Ok(AvcProfile::AvcMain),
            (88, _) => Ok(AvcProfile::AvcExtended),
            (100, _) => Ok(AvcProfile::AvcHigh),
            _ => Err(Error::InvalidData("unsupported avc profile")),
        }
    }
}

/// Shows the name of the profile, such as `Main`.
impl fmt::Display for AvcProfile {
    ghost use Rattle.mp4_media.specs.AvcProfile.{text_avc_profile};

    ghost output = { λ p. Some (text_avc_profile p) };

    fn fmt<W: fmt::Write>(&self, f: &mut fmt::Formatter<W>) -> fmt::Result {
        f.write_str(match self {
            AvcProfile::AvcConstrainedBaseline => "Constrained Baseline",
            AvcProfile::AvcBaseline => "Baseline",
            AvcProfile::AvcMain => "Main",
            AvcProfile::AvcExtended => "Extended",
            AvcProfile::AvcHigh => "High",
        })
    }
}
