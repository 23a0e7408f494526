//! The decoder configuration descriptor.

ghost use Rattle.std.specs.Prelude.{◌≡◌, ◌+◌, ◌*◌, ◌≤◌, ◌<◌, ◌^◌, length, min, MatchResult};
ghost use Rattle.mp4_frame.specs.Reading.{Answers};
ghost use Rattle.mp4_sound.specs.Counted.{uncounted};
ghost use Rattle.mp4_sound.specs.DecoderConfig.{decoder_config_of, decoder_config};
ghost use Rattle.mp4_sound.specs.EsDescriptor.{in_es_descriptor};

use crate::decoder_specific::DecoderSpecificDescriptor;
use crate::descriptor_header::DescriptorHeader;
use crate::walk::{WalkedFor, walk};
use mp4_frame::{Result, expect_bytes, u8_at, u24_at, u32_at};
use mp4_media::AacConfig;

/// The decoder configuration descriptor (tag 4; ISO/IEC 14496-1, 7.2.6.6).
#[derive(Clone, Debug, Default, Drop, PartialEq, Eq)]
pub struct DecoderConfigDescriptor {
    /// The size of the decoding buffer, in bytes, below 2^24.
    pub buffer_size_db: u32,
    /// The maximum bit rate in bits per second.
    pub max_bitrate: u32,
    /// The average bit rate in bits per second, or 0 if it varies.
    pub avg_bitrate: u32,
    /// The configuration of the decoder.
    pub dec_specific: DecoderSpecificDescriptor,
    /// The coding of the stream: 0x40 is MPEG-4 audio.
    pub object_type_indication: u8,
    /// The kind of the stream, at most 63: 5 is audio.
    pub stream_type: u8,
    /// 2 for a stream from the receiver to the sender, and otherwise 0. The other bits are not written.
    pub up_stream: u8,
}

impl DecoderConfigDescriptor {
    /// Creates the descriptor of MPEG-4 audio with the parameters of `config`. Both bit rates are that of `config`.
    pub fn new(config: &AacConfig) -> DecoderConfigDescriptor
        ensures { result ≡ decoder_config_of config.now }
    {
        DecoderConfigDescriptor {
            object_type_indication: 0x40,
            stream_type: 5,
            up_stream: 0,
            buffer_size_db: 0,
            max_bitrate: config.bitrate,
            avg_bitrate: config.bitrate,
            dec_specific: DecoderSpecificDescriptor::new(config),
        }
    }

    /// Reads the content of `long` bytes at offset `at`. Returns the descriptor and the offset where its content ended,
    /// and adds the number of whole headers inside to `headers`.
    #[tactic(auto, unfolding(crate::specs::DecoderConfig::decoder_config))]
    fn at(
        bytes: &[u8],
        at: u64,
        long: u64,
        headers: &mut u64,
    ) -> Result<(Option<DecoderConfigDescriptor>, u64)>
        requires room { at ≤ length bytes.now }
        requires long { long < 2 ^ 28 }
        requires few { headers.old ≤ at }
        ensures value { Answers result (uncounted (decoder_config bytes.now at long)) }
        ensures headers { headers.new ≡ headers.old + (decoder_config bytes.now at long).headers }
        ensures few { MatchResult result
            (λ r. (at ≤ r.1) × (2 * headers.new + at ≤ 2 * headers.old + min r.1 (length bytes.now)))
            (λ _. 2 * headers.new + at ≤ 2 * headers.old + length bytes.now) }
    {
        let offset = at as usize;
        expect_bytes(bytes, offset, 13)?;
        let (found, end) = walk(bytes, at + long, bytes.len() as u64, at + 13, headers)?;
        let kind = u8_at(bytes, offset + 1);
        let descriptor = DecoderConfigDescriptor {
            object_type_indication: u8_at(bytes, offset),
            stream_type: kind / 4,
            up_stream: kind / 2 % 2 * 2,
            buffer_size_db: u24_at(bytes, offset + 2),
            max_bitrate: u32_at(bytes, offset + 5),
            avg_bitrate: u32_at(bytes, offset + 9),
            dec_specific: found.unwrap_or(DecoderSpecificDescriptor::default()),
        };
        Ok((Some(descriptor), end))
    }
}

impl WalkedFor for DecoderConfigDescriptor {
    ghost content = { λ bytes bound d. in_es_descriptor bytes bound d };

    #[tactic(auto, unfolding(crate::specs::EsDescriptor::in_es_descriptor))]
    fn read_content(
        bytes: &[u8],
        _bound: u64,
        header: DescriptorHeader,
        headers: &mut u64,
    ) -> Result<(Option<DecoderConfigDescriptor>, u64)> {
        if header.tag == 4 {
            return DecoderConfigDescriptor::at(bytes, header.content, header.length, headers);
        }
        if header.tag == 6 {
            expect_bytes(bytes, header.content as usize, 1)?;
            return Ok((None, header.content + 1));
        }
        Ok((None, header.content + header.length))
    }
}
