//! The decoding time to sample box.

ghost use Rattle.std.specs.Prelude.{◌≡◌, ◌-◌, ◌^◌, [], min};
ghost use Rattle.mp4_frame.specs.declared.box_type.BoxType.TheVariants as names;
ghost use Rattle.mp4_frame.specs.Format.{write_laws};
ghost use Rattle.mp4_tables.specs.Stts.{size_stts, reads_stts, format_stts};
ghost use Rattle.mp4_tables.specs.SttsLaws.{laws_stts};

use crate::rows::entries_of;
use crate::stts_entry::SttsEntry;
use mp4_frame::{
    BoxLaws, BoxType, Entries, Mp4Box, ReadBox, Result, TryClone, WriteBox, codes, is_whole_table,
    is_writable_table, put_table, read_table, table_size,
};
use std::alloc::Global;

/// The durations of the samples of a track (`stts`, ISO/IEC 14496-12, 8.6.1.2).
#[derive(Debug, Drop, PartialEq, Eq)]
pub struct SttsBox {
    /// The version, 0 in the standard. Every version is read and written in the same way.
    pub version: u8,
    /// Flags of 24 bits, 0 in the standard.
    pub flags: u32,
    /// Runs of samples with the same duration, in decoding order.
    pub entries: Entries<SttsEntry>,
}

impl SttsBox {
    /// Returns a box of version 0 and flags 0 without entries. It takes no memory from `alloc`.
    pub fn default_in(alloc: Global) -> SttsBox
        ensures { result ≡ record { version = 0; flags = 0; entries = [] } }
    {
        SttsBox {
            version: 0,
            flags: 0,
            entries: Entries::new(alloc),
        }
    }

    /// Returns the type of the box, like `box_type`.
    pub fn get_type(&self) -> BoxType
        ensures { result ≡ names.SttsBox }
    {
        self.box_type()
    }

    /// Returns the size of the box in bytes, like `box_size`.
    pub fn get_size(&self) -> u64
        ensures { result ≡ min (size_stts self.now) (2 ^ 64 - 1) }
    {
        self.box_size()
    }
}

impl TryClone for SttsBox {
    fn try_clone(&self) -> Result<SttsBox> {
        Ok(SttsBox {
            version: self.version,
            flags: self.flags,
            entries: self.entries.try_clone()?,
        })
    }
}

impl Mp4Box for SttsBox {
    ghost format = { format_stts };

    fn box_type(&self) -> BoxType {
        BoxType::SttsBox
    }

    fn box_size(&self) -> u64 {
        table_size(self.entries.as_slice())
    }
}

impl ReadBox for SttsBox {
    ghost reads = { reads_stts };

    const LEAST: u64 = 0;

    #[tactic(auto, unfolding(crate::specs::Stts::reads_stts))]
    fn read_content(alloc: Global, bytes: &[u8], _start: u64, size: u64) -> Result<SttsBox> {
        let (version, flags, rows) = read_table::<8>(
            bytes,
            size,
            "stts entry_count indicates more entries than could fit in the box",
        )?;
        Ok(SttsBox {
            version,
            flags,
            entries: entries_of(alloc, rows)?.into(),
        })
    }
}

impl WriteBox for SttsBox {
    fn is_writable(&self) -> bool {
        is_writable_table(
            codes::STTS,
            self.version,
            self.flags,
            self.entries.as_slice(),
        )
    }

    #[tactic(auto, unfolding(crate::specs::Stts::bytes_stts))]
    fn put_box(&self, out: &mut [u8]) {
        put_table(
            out,
            codes::STTS,
            self.version,
            self.flags,
            self.entries.as_slice(),
        );
    }

    #[tactic(auto, using(crate::specs::SttsLaws::normal_stts))]
    fn is_normal_form(bytes: &[u8]) -> bool {
        is_whole_table::<8>(bytes, codes::STTS)
    }

    ghost write_laws = { write_laws laws_stts };
}

impl BoxLaws for SttsBox {
    ghost laws = { laws_stts };
}
