//! The channels of sound.

ghost use Rattle.std.specs.Prelude.{◌≡◌, ◌++◌, OnOk, string_bytes};
ghost use Rattle.mp4_info.specs.Channels.{aac_channels, ac3_channels, ac3_full, channel_text};

use crate::digits::push_number;
use mp4_shown::Result;

/// The numbers of channels.
#[derive(Clone, Copy, Debug, PartialEq, Eq)]
pub struct Channels {
    /// The number of channels of the full range.
    pub full: u32,
    /// The number of channels of low frequencies.
    pub low: u16,
}

/// Returns the channels of a channel configuration of MPEG-4 audio, or `None` if it names none.
pub fn aac_channels(configuration: u8) -> Option<Channels>
    ensures { result ≡ aac_channels configuration }
{
    match configuration {
        1..=5 => Some(Channels {
            full: u32::from(configuration),
            low: 0,
        }),
        6 => Some(Channels { full: 5, low: 1 }),
        7 | 12 | 14 => Some(Channels { full: 7, low: 1 }),
        11 => Some(Channels { full: 6, low: 1 }),
        13 => Some(Channels { full: 22, low: 2 }),
        _ => None,
    }
}

/// Returns the number of full channels in the audio coding mode `acmod` of AC-3.
fn ac3_full(acmod: u8) -> u32
    ensures { result ≡ ac3_full acmod }
{
    match acmod {
        0 => 2,
        1 => 1,
        2 => 2,
        3 => 3,
        4 => 3,
        5 => 4,
        6 => 4,
        _ => 5,
    }
}

/// Returns the channels of AC-3 sound with the audio coding mode `acmod`. `lfeon` is true if there is a channel of low
/// frequencies.
pub fn ac3_channels(acmod: u8, lfeon: bool) -> Channels
    ensures { result ≡ ac3_channels acmod lfeon }
{
    Channels {
        full: ac3_full(acmod),
        low: if lfeon { 1 } else { 0 },
    }
}

/// Appends the name of `channels`, such as `stereo`, `5.1` or `3 channels`.
#[tactic(auto, unfolding(crate::specs::Channels::channel_text))]
pub fn push_channels(channels: Channels, out: &mut String) -> Result<()>
    ensures text { OnOk result (string_bytes out.new ≡ string_bytes out.old ++ channel_text channels) }
{
    if channels.low == 0 && channels.full == 1 {
        return out.push_str("mono");
    }
    if channels.low == 0 && channels.full == 2 {
        return out.push_str("stereo");
    }
    push_number(u64::from(channels.full), out)?;
    if channels.low == 0 {
        return out.push_str(" channels");
    }
    out.push_str(".")?;
    push_number(u64::from(channels.low), out)
}
