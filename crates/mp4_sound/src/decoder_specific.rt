//! The decoder specific descriptor of MPEG-4 audio.

ghost use Rattle.std.specs.Prelude.{◌≡◌, ◌+◌, ◌≤◌, ◌<◌, ◌^◌, ◌↔◌, IsTrue, length, IfOk};
ghost use Rattle.mp4_frame.specs.Reading.{Answers};
ghost use Rattle.mp4_media.specs.AudioObjectType.{number_audio_object_type};
ghost use Rattle.mp4_sound.specs.Counted.{uncounted};
ghost use Rattle.mp4_sound.specs.DecoderConfig.{in_decoder_config};
ghost use Rattle.mp4_sound.specs.DecoderSpecific.{decoder_specific_of, decoder_specific, field_decoder_specific};
ghost use Rattle.mp4_sound.specs.DecoderSpecific.{RateFits, WritableDecoderSpecific};

use crate::descriptor_header::DescriptorHeader;
use crate::uint::uint_at;
use crate::walk::WalkedFor;
use mp4_frame::{Result, expect_bytes, u16_at};
use mp4_media::{AacConfig, AudioObjectType};

/// The decoder specific descriptor of MPEG-4 audio (tag 5): the first fields of its configuration (ISO/IEC 14496-3,
/// 1.6.2.1). Any fields after these are not read.
#[derive(Clone, Debug, Default, Drop, PartialEq, Eq)]
pub struct DecoderSpecificDescriptor {
    /// The sampling frequency in hertz, below 2^24. It is present if and only if `freq_index` is 15.
    pub sample_rate: Option<u32>,
    /// The audio object type: 0 to 30, or 32 to 95. `AudioObjectType` names them.
    pub profile: u8,
    /// The index of the sampling frequency, at most 15. `SampleFreqIndex` names 0 to 12. With 15, the frequency is
    /// `sample_rate`.
    pub freq_index: u8,
    /// The channel configuration, at most 15. `ChannelConfig` names 1 to 7.
    pub chan_conf: u8,
}

/// Returns whether `sample_rate` fits: with index 15 it must be present and below 2^24, and with any other index
/// absent.
fn rate_fits(freq_index: u8, sample_rate: Option<u32>) -> bool
    ensures { IsTrue result ↔ RateFits freq_index sample_rate }
{
    match sample_rate {
        Some(rate) => freq_index == 15 && rate < 1 << 24,
        None => freq_index != 15,
    }
}

/// Returns the number of an audio object type.
fn number_audio_object_type(profile: AudioObjectType) -> u8
    ensures { result ≡ number_audio_object_type profile }
{
    profile as u8
}

impl DecoderSpecificDescriptor {
    /// Creates the descriptor with the parameters of `config`.
    pub fn new(config: &AacConfig) -> DecoderSpecificDescriptor
        ensures { result ≡ decoder_specific_of config.now }
    {
        DecoderSpecificDescriptor {
            profile: number_audio_object_type(config.profile),
            freq_index: config.freq_index as u8,
            sample_rate: None,
            chan_conf: config.chan_conf as u8,
        }
    }

    /// Returns whether the descriptor can be written.
    pub(crate) fn is_writable(&self) -> bool
        ensures { IsTrue result ↔ WritableDecoderSpecific self.now }
    {
        self.profile < 96
            && self.profile != 31
            && self.freq_index < 16
            && rate_fits(self.freq_index, self.sample_rate)
            && self.chan_conf < 16
    }

    /// Returns the number of bytes of the encoded content, and these bytes as a number.
    pub(crate) fn field(&self) -> (usize, u64)
        ensures { result ≡ field_decoder_specific self.now }
    {
        let profile = self.profile as u64;
        let index = self.freq_index as u64;
        let rate = self.sample_rate.unwrap_or(0) as u64;
        let chan_conf = self.chan_conf as u64;
        if self.profile > 31 {
            let profile = profile - 32;
            if self.freq_index == 15 {
                let first = 31 * (1 << 43) + profile * (1 << 37) + 15 * (1 << 33);
                return (6, first + rate * (1 << 9) + chan_conf * (1 << 5));
            }
            let first = 31 * (1 << 19) + profile * (1 << 13) + index * (1 << 9);
            return (3, first + chan_conf * (1 << 5));
        }
        if self.freq_index == 15 {
            let first = profile * (1 << 35) + 15 * (1 << 31);
            return (5, first + rate * (1 << 7) + chan_conf * (1 << 3));
        }
        let first = profile * (1 << 11) + index * (1 << 7);
        (2, first + chan_conf * (1 << 3))
    }

    /// Reads the content at offset `at`. Returns the descriptor, and the offset where its content ended.
    #[tactic(auto, unfolding(crate::specs::DecoderSpecific::decoder_specific))]
    fn at(bytes: &[u8], at: u64) -> Result<(Option<DecoderSpecificDescriptor>, u64)>
        requires { at ≤ length bytes.now }
        ensures value { Answers result (uncounted (decoder_specific bytes.now at)) }
        ensures room { IfOk result (λ r. (at ≤ r.1) × (r.1 ≤ length bytes.now)) }
    {
        let offset = at as usize;
        expect_bytes(bytes, offset, 2)?;
        let first = u16_at(bytes, offset);
        if first / (1 << 11) % 32 == 31 {
            if first / 2 % 16 == 15 {
                expect_bytes(bytes, offset, 6)?;
                let n = uint_at(bytes, offset, 6);
                let descriptor = DecoderSpecificDescriptor {
                    profile: 32 + (n / (1 << 37) % 64) as u8,
                    freq_index: 15,
                    sample_rate: Some((n / (1 << 9) % (1 << 24)) as u32),
                    chan_conf: (n / (1 << 5) % 16) as u8,
                };
                return Ok((Some(descriptor), at + 6));
            }
            expect_bytes(bytes, offset, 3)?;
            let n = uint_at(bytes, offset, 3);
            let descriptor = DecoderSpecificDescriptor {
                profile: 32 + (n / (1 << 13) % 64) as u8,
                freq_index: (n / (1 << 9) % 16) as u8,
                sample_rate: None,
                chan_conf: (n / (1 << 5) % 16) as u8,
            };
            return Ok((Some(descriptor), at + 3));
        }
        if first / (1 << 7) % 16 == 15 {
            expect_bytes(bytes, offset, 5)?;
            let n = uint_at(bytes, offset, 5);
            let descriptor = DecoderSpecificDescriptor {
                profile: (n / (1 << 35) % 32) as u8,
                freq_index: 15,
                sample_rate: Some((n / (1 << 7) % (1 << 24)) as u32),
                chan_conf: (n / (1 << 3) % 16) as u8,
            };
            return Ok((Some(descriptor), at + 5));
        }
        let descriptor = DecoderSpecificDescriptor {
            profile: (first / (1 << 11) % 32) as u8,
            freq_index: (first / (1 << 7) % 16) as u8,
            sample_rate: None,
            chan_conf: (first / (1 << 3) % 16) as u8,
        };
        Ok((Some(descriptor), at + 2))
    }
}

impl WalkedFor for DecoderSpecificDescriptor {
    ghost content = { λ bytes bound d. in_decoder_config bytes bound d };

    #[tactic(auto, unfolding(crate::specs::DecoderConfig::in_decoder_config, crate::specs::DecoderSpecific::decoder_specific))]
    fn read_content(
        bytes: &[u8],
        _bound: u64,
        header: DescriptorHeader,
        _headers: &mut u64,
    ) -> Result<(Option<DecoderSpecificDescriptor>, u64)> {
        if header.tag == 5 {
            return DecoderSpecificDescriptor::at(bytes, header.content);
        }
        Ok((None, header.content + header.length))
    }
}
