//! The sample entry of MPEG-4 audio, `mp4a`.

ghost use Rattle.std.specs.Prelude.{◌≡◌};
ghost use Rattle.mp4_frame.specs.Format.{write_laws};
ghost use Rattle.mp4_frame.specs.declared.box_type.BoxType.TheVariants as names;
ghost use Rattle.mp4_sound.specs.Mp4a.{mp4a_of, default_mp4a, size_mp4a, reads_mp4a, format_mp4a};
ghost use Rattle.mp4_sound.specs.Mp4aLaws.{laws_mp4a, mp4a_takes_none};

use crate::esds::EsdsBox;
use mp4_frame::{
    BoxLaws, BoxType, Mp4Box, Parent, ReadBox, ReadsWithoutMemory, Result, TryClone, WriteBox,
    codes, expect_bytes, optional_child, put_child, put_u16, put_u32, put_zeros, u16_at, u32_at,
};
use mp4_media::{AacConfig, FixedPointU16};
use std::alloc::Global;

/// The sample entry of MPEG-4 audio (`mp4a`, ISO/IEC 14496-14, 5.6; ISO/IEC 14496-12, 12.2.3). Reading keeps the box
/// after its fields if it is an `esds`, and skips any other. The entry takes at least 36 bytes, whatever its size says.
#[derive(Clone, Debug, Drop, PartialEq, Eq)]
pub struct Mp4aBox {
    /// The number of the samples' data reference, starting at 1.
    pub data_reference_index: u16,
    /// The number of channels.
    pub channelcount: u16,
    /// The number of bits of a sample.
    pub samplesize: u16,
    /// The sampling rate in hertz.
    pub samplerate: FixedPointU16,
    /// The descriptors of the stream.
    pub esds: Option<EsdsBox>,
}

/// Two channels of 16 bits at 48000 hertz, with the default descriptors.
impl Default for Mp4aBox {
    ghost is_default = { λ v. v ≡ default_mp4a };

    fn default() -> Mp4aBox {
        Mp4aBox {
            data_reference_index: 0,
            channelcount: 2,
            samplesize: 16,
            samplerate: FixedPointU16::new(48000),
            esds: Some(EsdsBox::default()),
        }
    }
}

impl Mp4aBox {
    /// Creates the entry with 16 bits per sample and the parameters of `config`. Only the low 16 bits of the frequency
    /// are kept.
    pub fn new(config: &AacConfig) -> Mp4aBox
        ensures { result ≡ mp4a_of config.now }
    {
        let freq = config.freq_index.freq() % (1 << 16);
        Mp4aBox {
            data_reference_index: 1,
            channelcount: config.chan_conf as u16,
            samplesize: 16,
            samplerate: FixedPointU16::new(freq as u16),
            esds: Some(EsdsBox::new(config)),
        }
    }

    /// Returns the type of the box, like `box_type`.
    pub fn get_type(&self) -> BoxType
        ensures { result ≡ names.Mp4aBox }
    {
        self.box_type()
    }

    /// Returns the number of bytes of the box, like `box_size`.
    #[tactic(auto, using(crate::specs::DecoderSpecificLaws::is_form))]
    pub fn get_size(&self) -> u64
        ensures { result ≡ size_mp4a self.now }
    {
        self.box_size()
    }
}

impl TryClone for Mp4aBox {
    fn try_clone(&self) -> Result<Mp4aBox> {
        Ok(self.clone()?)
    }
}

impl Mp4Box for Mp4aBox {
    ghost format = { format_mp4a };

    fn box_type(&self) -> BoxType {
        BoxType::Mp4aBox
    }

    #[tactic(auto, using(crate::specs::DecoderSpecificLaws::is_form))]
    fn box_size(&self) -> u64 {
        match &self.esds {
            Some(esds) => 36 + esds.box_size(),
            None => 36,
        }
    }
}

impl ReadBox for Mp4aBox {
    ghost reads = { reads_mp4a };

    ghost LEAST = { 36 };

    const LEAST: u64 = 36;

    #[tactic(auto, unfolding(crate::specs::Mp4a::reads_mp4a))]
    fn read_content(alloc: Global, bytes: &[u8], start: u64, size: u64) -> Result<Mp4aBox> {
        expect_bytes(bytes, 8, 28)?;
        let parent = Parent {
            bytes,
            start,
            size,
            too_large: "mp4a box contains a box with a larger size than it",
        };
        let esds = optional_child(alloc, &parent, codes::ESDS, 36)?;
        Ok(Mp4aBox {
            data_reference_index: u16_at(bytes, 14),
            channelcount: u16_at(bytes, 24),
            samplesize: u16_at(bytes, 26),
            samplerate: FixedPointU16::new_raw(u32_at(bytes, 32)),
            esds,
        })
    }
}

impl ReadsWithoutMemory for Mp4aBox {
    ghost takes_none = { mp4a_takes_none };
}

impl WriteBox for Mp4aBox {
    #[tactic(auto, using(crate::specs::DecoderSpecificLaws::is_form))]
    fn is_writable(&self) -> bool {
        // For the prover: a value that was read has the range of its type.
        let (_index, _count) = (self.data_reference_index, self.channelcount);
        let (_size, _rate) = (self.samplesize, self.samplerate.raw_value());
        match &self.esds {
            Some(esds) => esds.is_writable(),
            None => true,
        }
    }

    #[tactic(auto, using(crate::specs::DecoderSpecificLaws::is_form), unfolding(crate::specs::Mp4a::bytes_mp4a, mp4_frame::specs::Bytes::bytes_of_fields, mp4_frame::specs::Bytes::bytes_of_fields_onto))]
    fn put_box(&self, out: &mut [u8]) {
        let at = put_u32(out, 0, self.box_size() as u32);
        let at = put_u32(out, at, codes::MP4A);
        let at = put_zeros(out, at, 6);
        let at = put_u16(out, at, self.data_reference_index);
        let at = put_zeros(out, at, 8);
        let at = put_u16(out, at, self.channelcount);
        let at = put_u16(out, at, self.samplesize);
        let at = put_zeros(out, at, 4);
        let at = put_u32(out, at, self.samplerate.raw_value());
        if let Some(esds) = &self.esds {
            put_child(out, at, esds);
        }
    }

    ghost write_laws = { write_laws laws_mp4a };
}

impl BoxLaws for Mp4aBox {
    ghost laws = { laws_mp4a };
}
