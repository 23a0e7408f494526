//! The sync sample box.

ghost use Rattle.std.specs.Prelude.{◌≡◌, ◌-◌, ◌^◌, [], min};
ghost use Rattle.mp4_frame.specs.declared.box_type.BoxType.TheVariants as names;
ghost use Rattle.mp4_frame.specs.Format.{write_laws};
ghost use Rattle.mp4_tables.specs.Stss.{size_stss, reads_stss, format_stss};
ghost use Rattle.mp4_tables.specs.StssLaws.{laws_stss};

use crate::rows::entries_of;
use mp4_frame::{
    BoxLaws, BoxType, Entries, Mp4Box, ReadBox, Result, TryClone, WriteBox, codes, is_whole_table,
    is_writable_table, put_table, read_table, table_size,
};
use std::alloc::Global;

/// The sync samples of a track (`stss`, ISO/IEC 14496-12, 8.6.2).
#[derive(Debug, Drop, PartialEq, Eq)]
pub struct StssBox {
    /// The version, 0 in the standard. Every version is read and written in the same way.
    pub version: u8,
    /// Flags of 24 bits, 0 in the standard.
    pub flags: u32,
    /// The number of each sync sample, counted from 1. The standard has them in increasing order. Every order is read
    /// and written.
    pub entries: Entries<u32>,
}

impl StssBox {
    /// Returns a box of version 0 and flags 0 without samples. It takes no memory from `alloc`.
    pub fn default_in(alloc: Global) -> StssBox
        ensures { result ≡ record { version = 0; flags = 0; entries = [] } }
    {
        StssBox {
            version: 0,
            flags: 0,
            entries: Entries::new(alloc),
        }
    }

    /// Returns the type of the box, like `box_type`.
    pub fn get_type(&self) -> BoxType
        ensures { result ≡ names.StssBox }
    {
        self.box_type()
    }

    /// Returns the size of the box in bytes, like `box_size`.
    pub fn get_size(&self) -> u64
        ensures { result ≡ min (size_stss self.now) (2 ^ 64 - 1) }
    {
        self.box_size()
    }
}

impl TryClone for StssBox {
    fn try_clone(&self) -> Result<StssBox> {
        Ok(StssBox {
            version: self.version,
            flags: self.flags,
            entries: self.entries.try_clone()?,
        })
    }
}

impl Mp4Box for StssBox {
    ghost format = { format_stss };

    fn box_type(&self) -> BoxType {
        BoxType::StssBox
    }

    fn box_size(&self) -> u64 {
        table_size(self.entries.as_slice())
    }
}

impl ReadBox for StssBox {
    ghost reads = { reads_stss };

    const LEAST: u64 = 0;

    #[tactic(auto, unfolding(crate::specs::Stss::reads_stss))]
    fn read_content(alloc: Global, bytes: &[u8], _start: u64, size: u64) -> Result<StssBox> {
        let (version, flags, rows) = read_table::<4>(
            bytes,
            size,
            "stss entry_count indicates more entries than could fit in the box",
        )?;
        Ok(StssBox {
            version,
            flags,
            entries: entries_of(alloc, rows)?.into(),
        })
    }
}

impl WriteBox for StssBox {
    fn is_writable(&self) -> bool {
        is_writable_table(
            codes::STSS,
            self.version,
            self.flags,
            self.entries.as_slice(),
        )
    }

    #[tactic(auto, unfolding(crate::specs::Stss::bytes_stss))]
    fn put_box(&self, out: &mut [u8]) {
        put_table(
            out,
            codes::STSS,
            self.version,
            self.flags,
            self.entries.as_slice(),
        );
    }

    #[tactic(auto, using(crate::specs::StssLaws::normal_stss))]
    fn is_normal_form(bytes: &[u8]) -> bool {
        is_whole_table::<4>(bytes, codes::STSS)
    }

    ghost write_laws = { write_laws laws_stss };
}

impl BoxLaws for StssBox {
    ghost laws = { laws_stss };
}
