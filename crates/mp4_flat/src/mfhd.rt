//! The movie fragment header box.

ghost use Rattle.std.specs.Prelude.{◌≡◌};
ghost use Rattle.mp4_frame.specs.declared.box_type.BoxType.TheVariants as names;
ghost use Rattle.mp4_frame.specs.Format.{write_laws};
ghost use Rattle.mp4_flat.specs.Mfhd.{size_mfhd, reads_mfhd, format_mfhd};
ghost use Rattle.mp4_flat.specs.MfhdLaws.{laws_mfhd, mfhd_takes_none};

use mp4_frame::{
    BoxLaws, BoxType, Mp4Box, ReadBox, ReadsWithoutMemory, Result, TryClone, WriteBox, codes,
    expect_bytes, put_full_box, put_u32, u8_at, u24_at, u32_at,
};
use std::alloc::Global;

/// The movie fragment header: the number of a fragment (`mfhd`, ISO/IEC 14496-12, 8.8.5).
#[derive(Clone, Debug, Drop, PartialEq, Eq)]
pub struct MfhdBox {
    /// The version, 0 in the standard. Every version is read and written in the same way.
    pub version: u8,
    /// Flags of 24 bits, 0 in the standard.
    pub flags: u32,
    /// The number of the fragment. It increases from fragment to fragment.
    pub sequence_number: u32,
}

impl Default for MfhdBox {
    ghost is_default = { λ v. v ≡ record { version = 0; flags = 0; sequence_number = 1 } };

    fn default() -> MfhdBox {
        MfhdBox {
            version: 0,
            flags: 0,
            sequence_number: 1,
        }
    }
}

impl MfhdBox {
    /// Returns the type of the box, like `box_type`.
    pub fn get_type(&self) -> BoxType
        ensures { result ≡ names.MfhdBox }
    {
        self.box_type()
    }

    /// Returns the size of the box in bytes, like `box_size`.
    pub fn get_size(&self) -> u64
        ensures { result ≡ size_mfhd self.now }
    {
        self.box_size()
    }
}

impl TryClone for MfhdBox {
    fn try_clone(&self) -> Result<MfhdBox> {
        Ok(self.clone()?)
    }
}

impl Mp4Box for MfhdBox {
    ghost format = { format_mfhd };

    fn box_type(&self) -> BoxType {
        BoxType::MfhdBox
    }

    fn box_size(&self) -> u64 {
        16
    }
}

impl ReadBox for MfhdBox {
    ghost reads = { reads_mfhd };

    const LEAST: u64 = 0;

    #[tactic(auto, unfolding(crate::specs::Mfhd::reads_mfhd))]
    fn read_content(_alloc: Global, bytes: &[u8], _start: u64, _size: u64) -> Result<MfhdBox> {
        expect_bytes(bytes, 8, 8)?;
        Ok(MfhdBox {
            version: u8_at(bytes, 8),
            flags: u24_at(bytes, 9),
            sequence_number: u32_at(bytes, 12),
        })
    }
}

impl ReadsWithoutMemory for MfhdBox {
    ghost takes_none = { mfhd_takes_none };
}

impl WriteBox for MfhdBox {
    fn is_writable(&self) -> bool {
        // For the prover: a value that was read has the range of its type.
        let (_version, _sequence_number) = (self.version, self.sequence_number);
        self.flags < 1 << 24
    }

    #[tactic(auto, unfolding(crate::specs::Mfhd::bytes_mfhd, mp4_frame::specs::Bytes::bytes_of_fields, mp4_frame::specs::Bytes::bytes_of_fields_onto))]
    fn put_box(&self, out: &mut [u8]) {
        let at = put_full_box(out, 16, codes::MFHD, self.version, self.flags);
        put_u32(out, at, self.sequence_number);
    }

    ghost write_laws = { write_laws laws_mfhd };
}

impl BoxLaws for MfhdBox {
    ghost laws = { laws_mfhd };
}
