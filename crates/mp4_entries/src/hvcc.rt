//! The configuration of an HEVC decoder, `hvcC`.

ghost use Rattle.std.specs.Prelude.{◌≡◌};
ghost use Rattle.mp4_frame.specs.Format.{write_laws};
ghost use Rattle.mp4_entries.specs.Hvcc.{reads_hvcc, format_hvcc};
ghost use Rattle.mp4_entries.specs.HvccLaws.{laws_hvcc, hvcc_takes_none};

use mp4_frame::{
    BoxLaws, BoxType, Mp4Box, ReadBox, ReadsWithoutMemory, Result, TryClone, WriteBox, codes,
    expect_bytes, put_u8, put_u32, u8_at,
};
use std::alloc::Global;

/// The configuration of an HEVC decoder (`hvcC`, ISO/IEC 14496-15, 8.3.3.1), of which only the version is kept. The
/// bytes after the version are neither read nor written.
#[derive(Clone, Debug, Default, Drop, PartialEq, Eq)]
pub struct HvcCBox {
    /// The version, 1 in the standard. All versions are read and written in the same way.
    pub configuration_version: u8,
}

impl HvcCBox {
    /// Creates a configuration of version 1.
    pub fn new() -> HvcCBox
        ensures { result ≡ record { configuration_version = 1 } }
    {
        HvcCBox {
            configuration_version: 1,
        }
    }
}

impl TryClone for HvcCBox {
    fn try_clone(&self) -> Result<HvcCBox> {
        Ok(self.clone()?)
    }
}

impl Mp4Box for HvcCBox {
    ghost format = { format_hvcc };

    fn box_type(&self) -> BoxType {
        BoxType::HvcCBox
    }

    fn box_size(&self) -> u64 {
        9
    }
}

impl ReadBox for HvcCBox {
    ghost reads = { reads_hvcc };

    const LEAST: u64 = 0;

    #[tactic(auto, unfolding(crate::specs::Hvcc::reads_hvcc))]
    fn read_content(_alloc: Global, bytes: &[u8], _start: u64, _size: u64) -> Result<HvcCBox> {
        expect_bytes(bytes, 8, 1)?;
        Ok(HvcCBox {
            configuration_version: u8_at(bytes, 8),
        })
    }
}

impl ReadsWithoutMemory for HvcCBox {
    ghost takes_none = { hvcc_takes_none };
}

impl WriteBox for HvcCBox {
    fn is_writable(&self) -> bool {
        // For the prover: a value that was read has the range of its type.
        let _version = self.configuration_version;
        true
    }

    #[tactic(auto, unfolding(crate::specs::Hvcc::bytes_hvcc, mp4_frame::specs::Bytes::bytes_of_fields, mp4_frame::specs::Bytes::bytes_of_fields_onto))]
    fn put_box(&self, out: &mut [u8]) {
        let at = put_u32(out, 0, 9);
        let at = put_u32(out, at, codes::HVCC);
        put_u8(out, at, self.configuration_version);
    }

    ghost write_laws = { write_laws laws_hvcc };
}

impl BoxLaws for HvcCBox {
    ghost laws = { laws_hvcc };
}
