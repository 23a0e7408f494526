//! The large chunk offset box.

ghost use Rattle.std.specs.Prelude.{◌≡◌, ◌-◌, ◌^◌, [], min};
ghost use Rattle.mp4_frame.specs.declared.box_type.BoxType.TheVariants as names;
ghost use Rattle.mp4_frame.specs.Format.{write_laws};
ghost use Rattle.mp4_tables.specs.Co64.{size_co64, reads_co64, format_co64};
ghost use Rattle.mp4_tables.specs.Co64Laws.{laws_co64};

use crate::rows::entries_of;
use mp4_frame::{
    BoxLaws, BoxType, Entries, Mp4Box, ReadBox, Result, TryClone, WriteBox, codes, is_whole_table,
    is_writable_table, put_table, read_table, table_size,
};
use std::alloc::Global;

/// The offsets of the chunks of a track, in 64 bits each (`co64`, ISO/IEC 14496-12, 8.7.5).
#[derive(Debug, Drop, PartialEq, Eq)]
pub struct Co64Box {
    /// The version, 0 in the standard. Every version is read and written in the same way.
    pub version: u8,
    /// Flags of 24 bits, 0 in the standard.
    pub flags: u32,
    /// The offset of each chunk, in bytes from the start of the file.
    pub entries: Entries<u64>,
}

impl Co64Box {
    /// Returns a box of version 0 and flags 0 without chunks. It takes no memory from `alloc`.
    pub fn default_in(alloc: Global) -> Co64Box
        ensures { result ≡ record { version = 0; flags = 0; entries = [] } }
    {
        Co64Box {
            version: 0,
            flags: 0,
            entries: Entries::new(alloc),
        }
    }

    /// Returns the type of the box, like `box_type`.
    pub fn get_type(&self) -> BoxType
        ensures { result ≡ names.Co64Box }
    {
        self.box_type()
    }

    /// Returns the size of the box in bytes, like `box_size`.
    pub fn get_size(&self) -> u64
        ensures { result ≡ min (size_co64 self.now) (2 ^ 64 - 1) }
    {
        self.box_size()
    }
}

impl TryClone for Co64Box {
    fn try_clone(&self) -> Result<Co64Box> {
        Ok(Co64Box {
            version: self.version,
            flags: self.flags,
            entries: self.entries.try_clone()?,
        })
    }
}

impl Mp4Box for Co64Box {
    ghost format = { format_co64 };

    fn box_type(&self) -> BoxType {
        BoxType::Co64Box
    }

    fn box_size(&self) -> u64 {
        table_size(self.entries.as_slice())
    }
}

impl ReadBox for Co64Box {
    ghost reads = { reads_co64 };

    const LEAST: u64 = 0;

    #[tactic(auto, unfolding(crate::specs::Co64::reads_co64))]
    fn read_content(alloc: Global, bytes: &[u8], _start: u64, size: u64) -> Result<Co64Box> {
        let (version, flags, rows) = read_table::<8>(
            bytes,
            size,
            "co64 entry_count indicates more entries than could fit in the box",
        )?;
        Ok(Co64Box {
            version,
            flags,
            entries: entries_of(alloc, rows)?.into(),
        })
    }
}

impl WriteBox for Co64Box {
    fn is_writable(&self) -> bool {
        is_writable_table(
            codes::CO64,
            self.version,
            self.flags,
            self.entries.as_slice(),
        )
    }

    #[tactic(auto, unfolding(crate::specs::Co64::bytes_co64))]
    fn put_box(&self, out: &mut [u8]) {
        put_table(
            out,
            codes::CO64,
            self.version,
            self.flags,
            self.entries.as_slice(),
        );
    }

    #[tactic(auto, using(crate::specs::Co64Laws::normal_co64))]
    fn is_normal_form(bytes: &[u8]) -> bool {
        is_whole_table::<8>(bytes, codes::CO64)
    }

    ghost write_laws = { write_laws laws_co64 };
}

impl BoxLaws for Co64Box {
    ghost laws = { laws_co64 };
}
