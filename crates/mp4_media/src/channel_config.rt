//! Arrangements of audio channels.

ghost use Rattle.std.specs.Prelude.{Some};

use mp4_frame::{Error, Result};
use std::fmt;

/// The channel configuration of MPEG-4 audio (ISO/IEC 14496-3, 1.6.3.5). Its discriminant is its number.
#[derive(Clone, Copy, Debug, PartialEq, Eq)]
pub enum ChannelConfig {
    /// One channel: front centre.
    Mono = 1,
    /// Two channels: front left and right.
    Stereo = 2,
    /// Three channels: front centre, left and right.
    Three = 3,
    /// Four channels: three in front, one at the back.
    Four = 4,
    /// Five channels: three in front, two at the back.
    Five = 5,
    /// Five channels and one for low frequencies.
    FiveOne = 6,
    /// Seven channels and one for low frequencies.
    SevenOne = 7,
}

/// Converts a number to its channel configuration. A number other than 1 to 7 is invalid data.
impl TryFrom<u8> for ChannelConfig {
    ghost use Rattle.mp4_media.specs.Conversion.{IsConversion};
    ghost use Rattle.mp4_media.specs.ChannelConfig.{channel_config_of};

    type Error = Error;

    ghost try_from_gives = { λ n r. IsConversion (channel_config_of n) r };

    #[tactic(auto, unfolding(crate::specs::ChannelConfig::channel_config_of))]
    fn try_from(number: u8) -> Result<ChannelConfig> {
        match number {
            1 => Ok(ChannelConfig::Mono),
            2 => Ok(ChannelConfig::Stereo),
            3 => Ok(ChannelConfig::Three),
            4 => Ok(ChannelConfig::Four),
            5 => Ok(ChannelConfig::Five),
            6 => Ok(ChannelConfig::FiveOne),
            7 => Ok(ChannelConfig::SevenOne),
            _ => Err(Error::InvalidData("invalid channel configuration")),
        }
    }
}

/// Shows the name of the channel configuration, such as `stereo`.
impl fmt::Display for ChannelConfig {
    ghost use Rattle.mp4_media.specs.ChannelConfig.{text_channel_config};

    ghost output = { λ c. Some (text_channel_config c) };

    fn fmt<W: fmt::Write>(&self, f: &mut fmt::Formatter<W>) -> fmt::Result {
        f.write_str(match self {
            ChannelConfig::Mono => "mono",
            ChannelConfig::Stereo => "stereo",
            ChannelConfig::Three => "three",
            ChannelConfig::Four => "four",
            ChannelConfig::Five => "five",
            ChannelConfig::FiveOne => "five.one",
            ChannelConfig::SevenOne => "seven.one",
        })
    }
}
