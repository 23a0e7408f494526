//! The composition time to sample box.

ghost use Rattle.std.specs.Prelude.{◌≡◌, ◌-◌, ◌^◌, [], min};
ghost use Rattle.mp4_frame.specs.declared.box_type.BoxType.TheVariants as names;
ghost use Rattle.mp4_frame.specs.Format.{write_laws};
ghost use Rattle.mp4_tables.specs.Ctts.{size_ctts, reads_ctts, format_ctts};
ghost use Rattle.mp4_tables.specs.CttsLaws.{laws_ctts};

use crate::ctts_entry::CttsEntry;
use crate::rows::entries_of;
use mp4_frame::{
    BoxLaws, BoxType, Entries, Mp4Box, ReadBox, Result, TryClone, WriteBox, codes, is_whole_table,
    is_writable_table, put_table, read_table, table_size,
};
use std::alloc::Global;

/// The composition times of the samples of a track, as offsets from their decoding times (`ctts`, ISO/IEC 14496-12,
/// 8.6.1.3).
#[derive(Debug, Drop, PartialEq, Eq)]
pub struct CttsBox {
    /// The version, 0 in the standard. Every version is read and written in the same way.
    pub version: u8,
    /// Flags of 24 bits, 0 in the standard.
    pub flags: u32,
    /// Runs of samples with the same offset, in decoding order.
    pub entries: Entries<CttsEntry>,
}

impl CttsBox {
    /// Returns a box of version 0 and flags 0 without entries. It takes no memory from `alloc`.
    pub fn default_in(alloc: Global) -> CttsBox
        ensures { result ≡ record { version = 0; flags = 0; entries = [] } }
    {
        CttsBox {
            version: 0,
            flags: 0,
            entries: Entries::new(alloc),
        }
    }

    /// Returns the type of the box, like `box_type`.
    pub fn get_type(&self) -> BoxType
        ensures { result ≡ names.CttsBox }
    {
        self.box_type()
    }

    /// Returns the size of the box in bytes, like `box_size`.
    pub fn get_size(&self) -> u64
        ensures { result ≡ min (size_ctts self.now) (2 ^ 64 - 1) }
    {
        self.box_size()
    }
}

impl TryClone for CttsBox {
    fn try_clone(&self) -> Result<CttsBox> {
        Ok(CttsBox {
            version: self.version,
            flags: self.flags,
            entries: self.entries.try_clone()?,
        })
    }
}

impl Mp4Box for CttsBox {
    ghost format = { format_ctts };

    fn box_type(&self) -> BoxType {
        BoxType::CttsBox
    }

    fn box_size(&self) -> u64 {
        table_size(self.entries.as_slice())
    }
}

impl ReadBox for CttsBox {
    ghost reads = { reads_ctts };

    const LEAST: u64 = 0;

    #[tactic(auto, unfolding(crate::specs::Ctts::reads_ctts))]
    fn read_content(alloc: Global, bytes: &[u8], _start: u64, size: u64) -> Result<CttsBox> {
        let (version, flags, rows) = read_table::<8>(
            bytes,
            size,
            "ctts entry_count indicates more entries than could fit in the box",
        )?;
        Ok(CttsBox {
            version,
            flags,
            entries: entries_of(alloc, rows)?.into(),
        })
    }
}

impl WriteBox for CttsBox {
    fn is_writable(&self) -> bool {
        is_writable_table(
            codes::CTTS,
            self.version,
            self.flags,
            self.entries.as_slice(),
        )
    }

    #[tactic(auto, unfolding(crate::specs::Ctts::bytes_ctts))]
    fn put_box(&self, out: &mut [u8]) {
        put_table(
            out,
            codes::CTTS,
            self.version,
            self.flags,
            self.entries.as_slice(),
        );
    }

    #[tactic(auto, using(crate::specs::CttsLaws::normal_ctts))]
    fn is_normal_form(bytes: &[u8]) -> bool {
        is_whole_table::<8>(bytes, codes::CTTS)
    }

    ghost write_laws = { write_laws laws_ctts };
}

impl BoxLaws for CttsBox {
    ghost laws = { laws_ctts };
}
