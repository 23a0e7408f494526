//! A caller of `mp4_media`, which converts the numbers of an audio configuration.

ghost use Rattle.std.specs.Prelude.{◌≡◌, IfOk};
ghost use Rattle.mp4_media.specs.AudioObjectType.{number_audio_object_type};
ghost use Rattle.mp4_media.specs.SampleFreqIndex.{number_sample_freq_index};
ghost use Rattle.mp4_media.specs.ChannelConfig.{number_channel_config};

use mp4_frame::Error;
use mp4_media::{AacConfig, AudioObjectType, ChannelConfig, SampleFreqIndex, laws};

/// Returns the audio configuration of the numbers in a file, with a bit rate.
pub fn aac_config(
    bitrate: u32,
    profile: u8,
    freq_index: u8,
    chan_conf: u8,
) -> Result<AacConfig, Error>
    ensures profile { IfOk result (λ c. number_audio_object_type c.profile ≡ profile) }
    ensures freq_index { IfOk result (λ c. number_sample_freq_index c.freq_index ≡ freq_index) }
    ensures chan_conf { IfOk result (λ c. number_channel_config c.chan_conf ≡ chan_conf) }
{
    laws::audio_object_types_have_own_numbers();
    laws::sample_freq_indexes_have_own_numbers();
    laws::channel_configs_have_own_numbers();
    Ok(AacConfig {
        bitrate,
        profile: AudioObjectType::try_from(profile)?,
        freq_index: SampleFreqIndex::try_from(freq_index)?,
        chan_conf: ChannelConfig::try_from(chan_conf)?,
    })
}
