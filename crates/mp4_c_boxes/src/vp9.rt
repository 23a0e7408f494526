//! The structs for C of VP9 video: its configuration and its sample entry.

ghost use Rattle.std.specs.Prelude.{◌≡◌};
ghost use Rattle.mp4_c_boxes.specs.Vp9.{no_vpcc, fields_vpcc, vpcc_of, no_vp09, resolution_of, fields_vp09, vp09_of};

use crate::to_struct::ToStruct;
use mp4_entries::{Vp09Box, VpccBox};

/// The fields of a `vpcC` (VP Codec ISO Media File Format Binding, "VP Codec Configuration Box").
#[repr(C)]
#[derive(Clone, Copy, Default)]
pub struct Vpcc {
    /// The flags of the box: 24 bits.
    pub flags: u32,
    /// The number of bytes of data for initialization: 0 for VP9.
    pub codec_initialization_data_size: u16,
    /// The version of the box: 1 in the standard.
    pub version: u8,
    /// The profile of VP9.
    pub profile: u8,
    /// The level of VP9, times 10.
    pub level: u8,
    /// The number of bits of a sample of a colour plane: below 16.
    pub bit_depth: u8,
    /// The code of the chroma subsampling: below 8.
    pub chroma_subsampling: u8,
    /// 1 if the samples use the full range of their bits, else 0.
    pub video_full_range_flag: u8,
    /// The colour primaries.
    pub color_primaries: u8,
    /// The transfer characteristics.
    pub transfer_characteristics: u8,
    /// The matrix coefficients.
    pub matrix_coefficients: u8,
}

impl Vpcc {
    /// Returns zeros, for an `stsd` whose entry is of another type.
    pub(crate) fn none() -> Vpcc
        ensures { result ≡ no_vpcc }
    {
        Vpcc::default()
    }
}

impl ToStruct<Vpcc> for VpccBox {
    ghost to_struct = { fields_vpcc };

    fn to_struct(&self) -> Vpcc {
        Vpcc {
            flags: self.flags,
            codec_initialization_data_size: self.codec_initialization_data_size,
            version: self.version,
            profile: self.profile,
            level: self.level,
            bit_depth: self.bit_depth,
            chroma_subsampling: self.chroma_subsampling,
            video_full_range_flag: u8::from(self.video_full_range_flag),
            color_primaries: self.color_primaries,
            transfer_characteristics: self.transfer_characteristics,
            matrix_coefficients: self.matrix_coefficients,
        }
    }
}

/// Returns the box with `fields`.
pub(crate) fn vpcc_of(fields: &Vpcc) -> VpccBox
    ensures { result ≡ vpcc_of fields.now }
{
    VpccBox {
        version: fields.version,
        flags: fields.flags,
        profile: fields.profile,
        level: fields.level,
        bit_depth: fields.bit_depth,
        chroma_subsampling: fields.chroma_subsampling,
        video_full_range_flag: fields.video_full_range_flag > 0,
        color_primaries: fields.color_primaries,
        transfer_characteristics: fields.transfer_characteristics,
        matrix_coefficients: fields.matrix_coefficients,
        codec_initialization_data_size: fields.codec_initialization_data_size,
    }
}

/// The fields of a `vp09` (VP Codec ISO Media File Format Binding, "VP Codec Sample Entry Box").
#[repr(C)]
#[derive(Clone, Copy, Default)]
pub struct Vp09 {
    /// The configuration of the decoder.
    pub vpcc: Vpcc,
    /// Three of the six reserved bytes of a sample entry, as a number of 24 bits.
    pub flags: u32,
    /// The last two of the six reserved bytes.
    pub start_code: u16,
    /// The index of the data reference of the samples, counted from 1.
    pub data_reference_index: u16,
    /// The width, in pixels.
    pub width: u16,
    /// The height, in pixels.
    pub height: u16,
    /// The horizontal resolution, in pixels per inch: its whole part, and its fraction in units of 1/65536.
    pub horizresolution: [u16; 2],
    /// The vertical resolution, in pixels per inch: its whole part, and its fraction in units of 1/65536.
    pub vertresolution: [u16; 2],
    /// The number of frames in each sample.
    pub frame_count: u16,
    /// The number of bits of a pixel.
    pub depth: u16,
    /// Two bytes that are ones in the standard.
    pub end_code: u16,
    /// The first of the six reserved bytes.
    pub version: u8,
    /// Reserved bytes.
    pub reserved0: [u8; 16],
    /// Reserved bytes.
    pub reserved1: [u8; 4],
    /// The name of the compressor: the number of its bytes, the name, and zeros.
    pub compressorname: [u8; 32],
}

impl Vp09 {
    /// Returns zeros, for an `stsd` whose entry is of another type.
    pub(crate) fn none() -> Vp09
        ensures { result ≡ no_vp09 }
    {
        Vp09 {
            vpcc: Vpcc::none(),
            flags: 0,
            start_code: 0,
            data_reference_index: 0,
            width: 0,
            height: 0,
            horizresolution: [0, 0],
            vertresolution: [0, 0],
            frame_count: 0,
            depth: 0,
            end_code: 0,
            version: 0,
            reserved0: [0; 16],
            reserved1: [0; 4],
            compressorname: [0; 32],
        }
    }
}

impl ToStruct<Vp09> for Vp09Box {
    ghost to_struct = { fields_vp09 };

    fn to_struct(&self) -> Vp09 {
        Vp09 {
            vpcc: self.vpcc.to_struct(),
            flags: self.flags,
            start_code: self.start_code,
            data_reference_index: self.data_reference_index,
            width: self.width,
            height: self.height,
            horizresolution: [self.horizresolution.0, self.horizresolution.1],
            vertresolution: [self.vertresolution.0, self.vertresolution.1],
            frame_count: self.frame_count,
            depth: self.depth,
            end_code: self.end_code,
            version: self.version,
            reserved0: self.reserved0,
            reserved1: self.reserved1,
            compressorname: self.compressorname,
        }
    }
}

/// Returns `numbers`, the whole part and the fraction of a resolution, as a pair.
fn resolution_of(numbers: &[u16; 2]) -> (u16, u16)
    ensures { result ≡ resolution_of numbers.now }
{
    (numbers[0], numbers[1])
}

/// Returns the box with `fields`.
pub(crate) fn vp09_of(fields: &Vp09) -> Vp09Box
    ensures { result ≡ vp09_of fields.now }
{
    Vp09Box {
        version: fields.version,
        flags: fields.flags,
        start_code: fields.start_code,
        data_reference_index: fields.data_reference_index,
        reserved0: fields.reserved0,
        width: fields.width,
        height: fields.height,
        horizresolution: resolution_of(&fields.horizresolution),
        vertresolution: resolution_of(&fields.vertresolution),
        reserved1: fields.reserved1,
        frame_count: fields.frame_count,
        compressorname: fields.compressorname,
        depth: fields.depth,
        end_code: fields.end_code,
        vpcc: vpcc_of(&fields.vpcc),
    }
}
