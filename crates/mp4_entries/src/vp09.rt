//! The sample entry of VP9 video, `vp09`.

ghost use Rattle.std.specs.Prelude.{◌≡◌, ◌<◌, ◌^◌};
ghost use Rattle.mp4_frame.specs.Bytes.{FieldsFit};
ghost use Rattle.mp4_frame.specs.Format.{write_laws};
ghost use Rattle.mp4_entries.specs.Vp09.{HasArrays, content_vp09, made_vp09, reads_vp09, format_vp09};
ghost use Rattle.mp4_entries.specs.Vp09Laws.{laws_vp09, vp09_takes_none};

use crate::arrays::{array_at, know_array, put_array};
use crate::vpcc::VpccBox;
use mp4_frame::{
    BoxLaws, BoxType, Mp4Box, Parent, ReadBox, ReadsWithoutMemory, Result, TryClone, WriteBox,
    any_child, codes, expect_bytes, put_child, put_full_box, put_u16, u8_at, u16_at, u24_at,
};
use mp4_media::Vp9Config;
use std::alloc::Global;

/// The sample entry of VP9 video (`vp09`, VP Codec ISO Media File Format Binding, "VP Codec Sample Entry Box"). The
/// first box inside it is read as a `vpcC`, whatever its code. Boxes after that are neither read nor written.
#[derive(Clone, Debug, Default, Drop, PartialEq, Eq)]
pub struct Vp09Box {
    /// The second to fourth of the six reserved bytes of a sample entry as a number below 2^24, usually 0.
    pub flags: u32,
    /// The configuration of the decoder.
    pub vpcc: VpccBox,
    /// The last two of the six reserved bytes of a sample entry, usually 0.
    pub start_code: u16,
    /// The number of the samples' data reference, starting at 1.
    pub data_reference_index: u16,
    /// The width, in pixels.
    pub width: u16,
    /// The height, in pixels.
    pub height: u16,
    /// The horizontal resolution in pixels per inch: the whole part, and the fraction in units of 1/65536.
    pub horizresolution: (u16, u16),
    /// The vertical resolution in pixels per inch: the whole part, and the fraction in units of 1/65536.
    pub vertresolution: (u16, u16),
    /// The number of frames in a sample, usually 1.
    pub frame_count: u16,
    /// The number of bits of a pixel, usually 24.
    pub depth: u16,
    /// Two bytes that are ones in the standard. Other values are kept.
    pub end_code: u16,
    /// The first of the six reserved bytes of a sample entry, usually 0. Other values are kept.
    pub version: u8,
    /// Reserved bytes, usually 0. Other values are kept.
    pub reserved0: [u8; 16],
    /// Reserved bytes, usually 0. Other values are kept.
    pub reserved1: [u8; 4],
    /// The name of the compressor: the number of its bytes, the name, and zeros.
    pub compressorname: [u8; 32],
}

impl Vp09Box {
    /// The start code of a new box.
    pub const DEFAULT_START_CODE: u16 = 0;

    /// The end code of a new box.
    pub const DEFAULT_END_CODE: u16 = 0xFFFF;

    /// The data reference index of a new box.
    pub const DEFAULT_DATA_REFERENCE_INDEX: u16 = 1;

    /// The horizontal resolution of a new box: 72 pixels per inch.
    pub const DEFAULT_HORIZRESOLUTION: (u16, u16) = (0x48, 0x00);

    /// The vertical resolution of a new box: 72 pixels per inch.
    pub const DEFAULT_VERTRESOLUTION: (u16, u16) = (0x48, 0x00);

    /// The frame count of a new box.
    pub const DEFAULT_FRAME_COUNT: u16 = 1;

    /// The compressor name of a new box, which is empty.
    pub const DEFAULT_COMPRESSORNAME: [u8; 32] = [0; 32];

    /// The depth of a new box.
    pub const DEFAULT_DEPTH: u16 = 24;

    /// Creates an entry with the width and height of `config`, and a `vpcC` with profile 0 and level 31. The other
    /// fields have the constants of this type and of `VpccBox`, or zeros.
    pub fn new(config: &Vp9Config) -> Vp09Box
        ensures { result ≡ made_vp09 config.now }
    {
        Vp09Box {
            version: 0,
            flags: 0,
            start_code: Vp09Box::DEFAULT_START_CODE,
            data_reference_index: Vp09Box::DEFAULT_DATA_REFERENCE_INDEX,
            reserved0: [0; 16],
            width: config.width,
            height: config.height,
            horizresolution: Vp09Box::DEFAULT_HORIZRESOLUTION,
            vertresolution: Vp09Box::DEFAULT_VERTRESOLUTION,
            reserved1: [0; 4],
            frame_count: Vp09Box::DEFAULT_FRAME_COUNT,
            compressorname: Vp09Box::DEFAULT_COMPRESSORNAME,
            depth: Vp09Box::DEFAULT_DEPTH,
            end_code: Vp09Box::DEFAULT_END_CODE,
            vpcc: VpccBox {
                version: VpccBox::DEFAULT_VERSION,
                flags: 0,
                profile: 0,
                level: 0x1F,
                bit_depth: VpccBox::DEFAULT_BIT_DEPTH,
                chroma_subsampling: 0,
                video_full_range_flag: false,
                color_primaries: 0,
                transfer_characteristics: 0,
                matrix_coefficients: 0,
                codec_initialization_data_size: 0,
            },
        }
    }
}

impl TryClone for Vp09Box {
    fn try_clone(&self) -> Result<Vp09Box> {
        Ok(self.clone()?)
    }
}

impl Mp4Box for Vp09Box {
    ghost format = { format_vp09 };

    fn box_type(&self) -> BoxType {
        BoxType::Vp09Box
    }

    fn box_size(&self) -> u64 {
        86 + self.vpcc.box_size()
    }
}

impl ReadBox for Vp09Box {
    ghost reads = { reads_vp09 };

    const LEAST: u64 = 0;

    #[tactic(auto, unfolding(crate::specs::Vp09::reads_vp09))]
    fn read_content(alloc: Global, bytes: &[u8], start: u64, size: u64) -> Result<Vp09Box> {
        expect_bytes(bytes, 8, 78)?;
        let parent = Parent {
            bytes,
            start,
            size,
            too_large: "vp09 box contains a box with a larger size than it",
        };
        let vpcc = any_child(alloc, &parent, 86)?;
        Ok(Vp09Box {
            version: u8_at(bytes, 8),
            flags: u24_at(bytes, 9),
            start_code: u16_at(bytes, 12),
            data_reference_index: u16_at(bytes, 14),
            reserved0: array_at(bytes, 16),
            width: u16_at(bytes, 32),
            height: u16_at(bytes, 34),
            horizresolution: (u16_at(bytes, 36), u16_at(bytes, 38)),
            vertresolution: (u16_at(bytes, 40), u16_at(bytes, 42)),
            reserved1: array_at(bytes, 44),
            frame_count: u16_at(bytes, 48),
            compressorname: array_at(bytes, 50),
            depth: u16_at(bytes, 82),
            end_code: u16_at(bytes, 84),
            vpcc,
        })
    }
}

/// Does nothing. For the prover: a value that was read has the range of its type.
fn know_last_numbers(entry: &Vp09Box)
    ensures frames { entry.now.frame_count < 2 ^ 16 }
    ensures depth { entry.now.depth < 2 ^ 16 }
    ensures end { entry.now.end_code < 2 ^ 16 }
{
    let (_frame_count, _depth, _end_code) = (entry.frame_count, entry.depth, entry.end_code);
}

/// Does nothing. For the prover: a value that was read has the range of its type.
fn know_content(entry: &Vp09Box)
    ensures fit { FieldsFit (content_vp09 entry.now) }
    ensures arrays { HasArrays entry.now }
{
    let (_start_code, _index) = (entry.start_code, entry.data_reference_index);
    let (_width, _height) = (entry.width, entry.height);
    let (_horizontal, _vertical) = (entry.horizresolution.0, entry.vertresolution.0);
    let (_fraction, _other_fraction) = (entry.horizresolution.1, entry.vertresolution.1);
    know_last_numbers(entry);
    know_array(&entry.reserved0);
    know_array(&entry.reserved1);
    know_array(&entry.compressorname);
}

impl ReadsWithoutMemory for Vp09Box {
    ghost takes_none = { vp09_takes_none };
}

impl WriteBox for Vp09Box {
    fn is_writable(&self) -> bool {
        // For the prover: a value that was read has the range of its type.
        let _version = self.version;
        know_content(self);
        self.flags < 1 << 24 && self.vpcc.is_writable()
    }

    #[tactic(auto, unfolding(crate::specs::Vp09::bytes_vp09, mp4_frame::specs::Bytes::bytes_of_fields, mp4_frame::specs::Bytes::bytes_of_fields_onto))]
    fn put_box(&self, out: &mut [u8]) {
        let size = self.box_size() as u32;
        let at = put_full_box(out, size, codes::VP09, self.version, self.flags);
        let at = put_u16(out, at, self.start_code);
        let at = put_u16(out, at, self.data_reference_index);
        let at = put_array(out, at, &self.reserved0);
        let at = put_u16(out, at, self.width);
        let at = put_u16(out, at, self.height);
        let at = put_u16(out, at, self.horizresolution.0);
        let at = put_u16(out, at, self.horizresolution.1);
        let at = put_u16(out, at, self.vertresolution.0);
        let at = put_u16(out, at, self.vertresolution.1);
        let at = put_array(out, at, &self.reserved1);
        let at = put_u16(out, at, self.frame_count);
        let at = put_array(out, at, &self.compressorname);
        let at = put_u16(out, at, self.depth);
        let at = put_u16(out, at, self.end_code);
        put_child(out, at, &self.vpcc);
    }

    ghost write_laws = { write_laws laws_vp09 };
}

impl BoxLaws for Vp09Box {
    ghost laws = { laws_vp09 };
}
