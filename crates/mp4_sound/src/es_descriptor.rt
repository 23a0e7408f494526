//! The elementary stream descriptor.

ghost use Rattle.std.specs.Prelude.{◌≡◌, ◌+◌, ◌*◌, ◌≤◌, ◌<◌, ◌^◌, length, min, MatchResult};
ghost use Rattle.mp4_frame.specs.Reading.{Answers};
ghost use Rattle.mp4_sound.specs.Counted.{uncounted};
ghost use Rattle.mp4_sound.specs.EsDescriptor.{es_descriptor_of, es_descriptor};
ghost use Rattle.mp4_sound.specs.Esds.{in_esds};

use crate::decoder_config::DecoderConfigDescriptor;
use crate::descriptor_header::DescriptorHeader;
use crate::sl_config::SLConfigDescriptor;
use crate::walk::{WalkedFor, walk};
use mp4_frame::{Result, expect_bytes, u16_at};
use mp4_media::AacConfig;

/// The elementary stream descriptor (tag 3; ISO/IEC 14496-1, 7.2.6.5).
#[derive(Clone, Debug, Default, Drop, PartialEq, Eq)]
pub struct ESDescriptor {
    /// The configuration of the stream's decoder.
    pub dec_config: DecoderConfigDescriptor,
    /// The number of the stream. The standard has 0, or the low bits of the track's number.
    pub es_id: u16,
    /// The configuration of the sync layer.
    pub sl_config: SLConfigDescriptor,
}

impl ESDescriptor {
    /// Creates the descriptor of stream 1 with the parameters of `config`.
    pub fn new(config: &AacConfig) -> ESDescriptor
        ensures { result ≡ es_descriptor_of config.now }
    {
        ESDescriptor {
            es_id: 1,
            dec_config: DecoderConfigDescriptor::new(config),
            sl_config: SLConfigDescriptor::new(),
        }
    }

    /// Reads the content of `long` bytes at offset `at`. Returns the descriptor and the offset where its content ended,
    /// and adds the number of whole headers inside to `headers`.
    #[tactic(auto, unfolding(crate::specs::EsDescriptor::es_descriptor))]
    fn at(
        bytes: &[u8],
        at: u64,
        long: u64,
        headers: &mut u64,
    ) -> Result<(Option<ESDescriptor>, u64)>
        requires room { at ≤ length bytes.now }
        requires long { long < 2 ^ 28 }
        requires few { headers.old ≤ at }
        ensures value { Answers result (uncounted (es_descriptor bytes.now at long)) }
        ensures headers { headers.new ≡ headers.old + (es_descriptor bytes.now at long).headers }
        ensures few { MatchResult result
            (λ r. (at ≤ r.1) × (2 * headers.new + at ≤ 2 * headers.old + min r.1 (length bytes.now)))
            (λ _. 2 * headers.new + at ≤ 2 * headers.old + length bytes.now) }
    {
        let offset = at as usize;
        expect_bytes(bytes, offset, 3)?;
        let (found, end) = walk(bytes, at + long, bytes.len() as u64, at + 3, headers)?;
        let descriptor = ESDescriptor {
            es_id: u16_at(bytes, offset),
            dec_config: found.unwrap_or(DecoderConfigDescriptor::default()),
            sl_config: SLConfigDescriptor {},
        };
        Ok((Some(descriptor), end))
    }
}

impl WalkedFor for ESDescriptor {
    ghost content = { λ bytes bound d. in_esds bytes bound d };

    #[tactic(auto, unfolding(crate::specs::Esds::in_esds))]
    fn read_content(
        bytes: &[u8],
        bound: u64,
        header: DescriptorHeader,
        headers: &mut u64,
    ) -> Result<(Option<ESDescriptor>, u64)> {
        if header.tag == 3 {
            return ESDescriptor::at(bytes, header.content, header.length, headers);
        }
        Ok((None, bound.max(header.content)))
    }
}
