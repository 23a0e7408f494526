//! The video media header box.

ghost use Rattle.std.specs.Prelude.{◌≡◌};
ghost use Rattle.mp4_frame.specs.declared.box_type.BoxType.TheVariants as names;
ghost use Rattle.mp4_frame.specs.Format.{write_laws};
ghost use Rattle.mp4_flat.specs.Vmhd.{size_vmhd, reads_vmhd, format_vmhd};
ghost use Rattle.mp4_flat.specs.VmhdLaws.{laws_vmhd, vmhd_takes_none};

use crate::rgb_color::RgbColor;
use mp4_frame::{
    BoxLaws, BoxType, Mp4Box, ReadBox, ReadsWithoutMemory, Result, TryClone, WriteBox, codes,
    expect_bytes, put_full_box, put_u16, u8_at, u16_at, u24_at,
};
use std::alloc::Global;

/// The video media header: the composition of the video with the existing image (`vmhd`, ISO/IEC 14496-12, 12.1.2).
#[derive(Clone, Debug, Default, Drop, PartialEq, Eq)]
pub struct VmhdBox {
    /// The version, 0 in the standard. Every version is read and written in the same way.
    pub version: u8,
    /// Flags of 24 bits, 1 in the standard.
    pub flags: u32,
    /// The composition mode: 0 copies the video over the existing image.
    pub graphics_mode: u16,
    /// A colour for the other modes.
    pub op_color: RgbColor,
}

impl VmhdBox {
    /// Returns the type of the box, like `box_type`.
    pub fn get_type(&self) -> BoxType
        ensures { result ≡ names.VmhdBox }
    {
        self.box_type()
    }

    /// Returns the size of the box in bytes, like `box_size`.
    pub fn get_size(&self) -> u64
        ensures { result ≡ size_vmhd self.now }
    {
        self.box_size()
    }
}

impl TryClone for VmhdBox {
    fn try_clone(&self) -> Result<VmhdBox> {
        Ok(self.clone()?)
    }
}

impl Mp4Box for VmhdBox {
    ghost format = { format_vmhd };

    fn box_type(&self) -> BoxType {
        BoxType::VmhdBox
    }

    fn box_size(&self) -> u64 {
        20
    }
}

impl ReadBox for VmhdBox {
    ghost reads = { reads_vmhd };

    const LEAST: u64 = 0;

    #[tactic(auto, unfolding(crate::specs::Vmhd::reads_vmhd))]
    fn read_content(_alloc: Global, bytes: &[u8], _start: u64, _size: u64) -> Result<VmhdBox> {
        expect_bytes(bytes, 8, 12)?;
        Ok(VmhdBox {
            version: u8_at(bytes, 8),
            flags: u24_at(bytes, 9),
            graphics_mode: u16_at(bytes, 12),
            op_color: RgbColor {
                red: u16_at(bytes, 14),
                green: u16_at(bytes, 16),
                blue: u16_at(bytes, 18),
            },
        })
    }
}

impl ReadsWithoutMemory for VmhdBox {
    ghost takes_none = { vmhd_takes_none };
}

impl WriteBox for VmhdBox {
    fn is_writable(&self) -> bool {
        // For the prover: a value that was read has the range of its type.
        let (_version, _graphics_mode) = (self.version, self.graphics_mode);
        let RgbColor { red, green, blue } = &self.op_color;
        let (_red, _green, _blue) = (*red, *green, *blue);
        self.flags < 1 << 24
    }

    #[tactic(auto, unfolding(crate::specs::Vmhd::bytes_vmhd, mp4_frame::specs::Bytes::bytes_of_fields, mp4_frame::specs::Bytes::bytes_of_fields_onto))]
    fn put_box(&self, out: &mut [u8]) {
        let at = put_full_box(out, 20, codes::VMHD, self.version, self.flags);
        let at = put_u16(out, at, self.graphics_mode);
        let at = put_u16(out, at, self.op_color.red);
        let at = put_u16(out, at, self.op_color.green);
        put_u16(out, at, self.op_color.blue);
    }

    ghost write_laws = { write_laws laws_vmhd };
}

impl BoxLaws for VmhdBox {
    ghost laws = { laws_vmhd };
}
