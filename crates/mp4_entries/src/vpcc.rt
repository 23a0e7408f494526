//! The configuration of a VP9 decoder, `vpcC`.

ghost use Rattle.std.specs.Prelude.{◌≡◌, ◌+◌, ◌*◌, ◌<◌, ◌↔◌, IsTrue};
ghost use Rattle.mp4_frame.specs.Format.{write_laws};
ghost use Rattle.mp4_entries.specs.Vpcc.{three_fields, reads_vpcc, format_vpcc};
ghost use Rattle.mp4_entries.specs.VpccLaws.{laws_vpcc, vpcc_takes_none};

use mp4_frame::{
    BoxLaws, BoxType, Mp4Box, ReadBox, ReadsWithoutMemory, Result, TryClone, WriteBox, codes,
    expect_bytes, put_full_box, put_u8, put_u16, u8_at, u16_at, u24_at,
};
use std::alloc::Global;

/// The configuration of a VP9 decoder (`vpcC`, VP Codec ISO Media File Format Binding, "VP Codec Configuration Box").
#[derive(Clone, Debug, Default, Drop, PartialEq, Eq)]
pub struct VpccBox {
    /// The flags, below 2^24, 0 in the standard.
    pub flags: u32,
    /// The number of bytes of initialization data, 0 for VP9. These bytes are neither read nor written.
    pub codec_initialization_data_size: u16,
    /// The version, 1 in the standard. All versions are read and written in the same way.
    pub version: u8,
    /// The profile of VP9.
    pub profile: u8,
    /// The level of VP9, times 10.
    pub level: u8,
    /// The number of bits of a sample of a colour plane, below 16.
    pub bit_depth: u8,
    /// The subsampling of the colour planes, below 8: 0 and 1 for 4:2:0, 2 for 4:2:2, 3 for 4:4:4.
    pub chroma_subsampling: u8,
    /// True if the samples use the full range of their bits.
    pub video_full_range_flag: bool,
    /// The colour primaries, as in ISO/IEC 23091-2, 8.1.
    pub color_primaries: u8,
    /// The transfer characteristics, as in ISO/IEC 23091-2, 8.2.
    pub transfer_characteristics: u8,
    /// The matrix coefficients, as in ISO/IEC 23091-2, 8.3.
    pub matrix_coefficients: u8,
}

impl VpccBox {
    /// The version of a new box.
    pub const DEFAULT_VERSION: u8 = 1;

    /// The bit depth of a new box.
    pub const DEFAULT_BIT_DEPTH: u8 = 8;
}

impl TryClone for VpccBox {
    fn try_clone(&self) -> Result<VpccBox> {
        Ok(self.clone()?)
    }
}

impl Mp4Box for VpccBox {
    ghost format = { format_vpcc };

    fn box_type(&self) -> BoxType {
        BoxType::VpccBox
    }

    fn box_size(&self) -> u64 {
        20
    }
}

impl ReadBox for VpccBox {
    ghost reads = { reads_vpcc };

    const LEAST: u64 = 0;

    #[tactic(auto, unfolding(crate::specs::Vpcc::reads_vpcc))]
    fn read_content(_alloc: Global, bytes: &[u8], _start: u64, _size: u64) -> Result<VpccBox> {
        expect_bytes(bytes, 8, 12)?;
        let three = u8_at(bytes, 14);
        Ok(VpccBox {
            version: u8_at(bytes, 8),
            flags: u24_at(bytes, 9),
            profile: u8_at(bytes, 12),
            level: u8_at(bytes, 13),
            bit_depth: three / 16,
            chroma_subsampling: three / 2 % 8,
            video_full_range_flag: three % 2 == 1,
            color_primaries: u8_at(bytes, 15),
            transfer_characteristics: u8_at(bytes, 16),
            matrix_coefficients: u8_at(bytes, 17),
            codec_initialization_data_size: u16_at(bytes, 18),
        })
    }
}

/// Returns the byte with these three fields.
fn three_fields(bit_depth: u8, chroma_subsampling: u8, full_range: bool) -> u8
    requires depth { bit_depth < 16 }
    requires chroma { chroma_subsampling < 8 }
    ensures { result ≡ three_fields bit_depth chroma_subsampling full_range }
{
    let low = if full_range { 1 } else { 0 };
    bit_depth * 16 + chroma_subsampling * 2 + low
}

impl ReadsWithoutMemory for VpccBox {
    ghost takes_none = { vpcc_takes_none };
}

impl WriteBox for VpccBox {
    fn is_writable(&self) -> bool {
        // For the prover: a value that was read has the range of its type.
        let (_version, _profile, _level) = (self.version, self.profile, self.level);
        let (_primaries, _transfer) = (self.color_primaries, self.transfer_characteristics);
        let (_matrix, _size) = (
            self.matrix_coefficients,
            self.codec_initialization_data_size,
        );
        let _full_range = self.video_full_range_flag;
        self.flags < 1 << 24 && self.bit_depth < 16 && self.chroma_subsampling < 8
    }

    #[tactic(auto, unfolding(crate::specs::Vpcc::bytes_vpcc, mp4_frame::specs::Bytes::bytes_of_fields, mp4_frame::specs::Bytes::bytes_of_fields_onto))]
    fn put_box(&self, out: &mut [u8]) {
        let at = put_full_box(out, 20, codes::VPCC, self.version, self.flags);
        let at = put_u8(out, at, self.profile);
        let at = put_u8(out, at, self.level);
        let three = three_fields(
            self.bit_depth,
            self.chroma_subsampling,
            self.video_full_range_flag,
        );
        let at = put_u8(out, at, three);
        let at = put_u8(out, at, self.color_primaries);
        let at = put_u8(out, at, self.transfer_characteristics);
        let at = put_u8(out, at, self.matrix_coefficients);
        put_u16(out, at, self.codec_initialization_data_size);
    }

    ghost write_laws = { write_laws laws_vpcc };
}

impl BoxLaws for VpccBox {
    ghost laws = { laws_vpcc };
}
