//! The sound media header box.

ghost use Rattle.std.specs.Prelude.{◌≡◌, pos};
ghost use Rattle.mp4_frame.specs.declared.box_type.BoxType.TheVariants as names;
ghost use Rattle.mp4_frame.specs.Format.{write_laws};
ghost use Rattle.mp4_flat.specs.Smhd.{size_smhd, reads_smhd, format_smhd};
ghost use Rattle.mp4_flat.specs.SmhdLaws.{laws_smhd, smhd_takes_none};

use mp4_frame::{
    BoxLaws, BoxType, Mp4Box, ReadBox, ReadsWithoutMemory, Result, TryClone, WriteBox, codes,
    expect_bytes, i16_at, put_full_box, put_i16, put_zeros, u8_at, u24_at,
};
use mp4_media::FixedPointI8;
use std::alloc::Global;

/// The sound media header: the balance between left and right (`smhd`, ISO/IEC 14496-12, 12.2.2).
#[derive(Clone, Debug, Drop, PartialEq, Eq)]
pub struct SmhdBox {
    /// The version, 0 in the standard. Every version is read and written in the same way.
    pub version: u8,
    /// Flags of 24 bits, 0 in the standard.
    pub flags: u32,
    /// The balance: 0 is the centre, -1 full left and 1 full right.
    pub balance: FixedPointI8,
}

impl Default for SmhdBox {
    ghost is_default = { λ v. v ≡ record { version = 0; flags = 0; balance = pos 0 } };

    fn default() -> SmhdBox {
        SmhdBox {
            version: 0,
            flags: 0,
            balance: FixedPointI8::new_raw(0),
        }
    }
}

impl SmhdBox {
    /// Returns the type of the box, like `box_type`.
    pub fn get_type(&self) -> BoxType
        ensures { result ≡ names.SmhdBox }
    {
        self.box_type()
    }

    /// Returns the size of the box in bytes, like `box_size`.
    pub fn get_size(&self) -> u64
        ensures { result ≡ size_smhd self.now }
    {
        self.box_size()
    }
}

impl TryClone for SmhdBox {
    fn try_clone(&self) -> Result<SmhdBox> {
        Ok(self.clone()?)
    }
}

impl Mp4Box for SmhdBox {
    ghost format = { format_smhd };

    fn box_type(&self) -> BoxType {
        BoxType::SmhdBox
    }

    fn box_size(&self) -> u64 {
        16
    }
}

impl ReadBox for SmhdBox {
    ghost reads = { reads_smhd };

    const LEAST: u64 = 0;

    #[tactic(auto, unfolding(crate::specs::Smhd::reads_smhd))]
    fn read_content(_alloc: Global, bytes: &[u8], _start: u64, _size: u64) -> Result<SmhdBox> {
        expect_bytes(bytes, 8, 6)?;
        Ok(SmhdBox {
            version: u8_at(bytes, 8),
            flags: u24_at(bytes, 9),
            balance: FixedPointI8::new_raw(i16_at(bytes, 12)),
        })
    }
}

impl ReadsWithoutMemory for SmhdBox {
    ghost takes_none = { smhd_takes_none };
}

impl WriteBox for SmhdBox {
    fn is_writable(&self) -> bool {
        // For the prover: a value that was read has the range of its type.
        let (_version, _balance) = (self.version, self.balance.raw_value());
        self.flags < 1 << 24
    }

    #[tactic(auto, unfolding(crate::specs::Smhd::bytes_smhd, mp4_frame::specs::Bytes::bytes_of_fields, mp4_frame::specs::Bytes::bytes_of_fields_onto))]
    fn put_box(&self, out: &mut [u8]) {
        let at = put_full_box(out, 16, codes::SMHD, self.version, self.flags);
        let at = put_i16(out, at, self.balance.raw_value());
        put_zeros(out, at, 2);
    }

    ghost write_laws = { write_laws laws_smhd };
}

impl BoxLaws for SmhdBox {
    ghost laws = { laws_smhd };
}
