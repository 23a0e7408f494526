//! The configuration of a track of advanced audio coding.

ghost use Rattle.std.specs.Prelude.{◌≡◌};

use crate::audio_object_type::AudioObjectType;
use crate::channel_config::ChannelConfig;
use crate::sample_freq_index::SampleFreqIndex;

/// The configuration of a track of advanced audio coding, AAC (ISO/IEC 14496-3).
#[derive(Clone, Debug, PartialEq, Eq, Drop)]
pub struct AacConfig {
    /// The bit rate, in bits per second.
    pub bitrate: u32,
    /// The audio object type, which names the coding of the sound.
    pub profile: AudioObjectType,
    /// The index of the sampling frequency.
    pub freq_index: SampleFreqIndex,
    /// The channels and their arrangement.
    pub chan_conf: ChannelConfig,
}

/// The default configuration: low complexity, stereo, 48000 hertz and a bit rate of 0.
impl Default for AacConfig {
    ghost use Rattle.mp4_media.specs.declared.audio_object_type.AudioObjectType.TheVariants.{AacLowComplexity};
    ghost use Rattle.mp4_media.specs.declared.sample_freq_index.SampleFreqIndex.TheVariants.{Freq48000};
    ghost use Rattle.mp4_media.specs.declared.channel_config.ChannelConfig.TheVariants.{Stereo};

    ghost is_default = { λ c. c ≡ record {
      bitrate = 0;
      profile = AacLowComplexity;
      freq_index = Freq48000;
      chan_conf = Stereo;
    } };

    fn default() -> Self {
        AacConfig {
            bitrate: 0,
            profile: AudioObjectType::AacLowComplexity,
            freq_index: SampleFreqIndex::Freq48000,
            chan_conf: ChannelConfig::Stereo,
        }
    }
}
