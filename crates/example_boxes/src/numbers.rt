//! A caller of the laws of `mp4_media`, which makes an audio configuration from its numbers.

ghost use Rattle.std.specs.Prelude.{◌≡◌, Ok};

use mp4_frame::Error;
use mp4_media::{AacConfig, AudioObjectType, ChannelConfig, SampleFreqIndex, laws};

/// Returns the audio configuration that is made from the numbers of `config`, which equals `config`.
pub fn aac_config_again(config: AacConfig) -> Result<AacConfig, Error>
    ensures { result ≡ Ok config }
{
    laws::conversions_return_what_they_find::<AudioObjectType>();
    laws::conversions_return_what_they_find::<SampleFreqIndex>();
    laws::conversions_return_what_they_find::<ChannelConfig>();
    laws::audio_object_types_have_own_numbers();
    laws::sample_freq_indexes_have_own_numbers();
    laws::channel_configs_have_own_numbers();
    Ok(AacConfig {
        bitrate: config.bitrate,
        profile: AudioObjectType::try_from(laws::discriminant_of_audio_object_type(
            config.profile,
        ))?,
        freq_index: SampleFreqIndex::try_from(laws::discriminant_of_sample_freq_index(
            config.freq_index,
        ))?,
        chan_conf: ChannelConfig::try_from(laws::discriminant_of_channel_config(config.chan_conf))?,
    })
}
