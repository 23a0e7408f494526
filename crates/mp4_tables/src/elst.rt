//! The edit list box.

ghost use Rattle.std.specs.Prelude.{◌≡◌, ◌-◌, ◌^◌, [], min, true, false};
ghost use Rattle.mp4_frame.specs.Bytes.{number};
ghost use Rattle.mp4_frame.specs.Reading.{Answers};
ghost use Rattle.mp4_frame.specs.declared.box_type.BoxType.TheVariants as names;
ghost use Rattle.mp4_frame.specs.Format.{write_laws};
ghost use Rattle.mp4_tables.specs.Elst.{reads_elst_rows, size_elst, reads_elst, format_elst};
ghost use Rattle.mp4_tables.specs.ElstEntry.{is_long};
ghost use Rattle.mp4_tables.specs.ElstLaws.{laws_elst};

use crate::elst_entry::ElstEntry;
use crate::rows::entries_of;
use mp4_frame::{
    BoxLaws, BoxType, Entries, Mp4Box, ReadBox, Result, TryClone, WriteBox, codes,
    is_writable_table, put_table, read_table, table_size,
};
use std::alloc::Global;

/// The text of the error for a count of entries for which the box has no room.
const TOO_MANY: &str = "elst entry_count indicates more entries than could fit in the box";

/// The edit list: the parts of its media that a track presents, in the order of presentation (`elst`,
/// ISO/IEC 14496-12, 8.6.6).
#[derive(Debug, Drop, PartialEq, Eq)]
pub struct ElstBox {
    /// The version, 0 or 1 in the standard. Version 1 has times of 64 bits, and every other version times of 32 bits.
    pub version: u8,
    /// Flags of 24 bits, 0 in the standard.
    pub flags: u32,
    /// The parts of the media, in the order of presentation.
    pub entries: Entries<ElstEntry>,
}

impl ElstBox {
    /// Returns a box of version 0 and flags 0 without entries. It takes no memory from `alloc`.
    pub fn default_in(alloc: Global) -> ElstBox
        ensures { result ≡ record { version = 0; flags = 0; entries = [] } }
    {
        ElstBox {
            version: 0,
            flags: 0,
            entries: Entries::new(alloc),
        }
    }

    /// Returns the type of the box, like `box_type`.
    pub fn get_type(&self) -> BoxType
        ensures { result ≡ names.ElstBox }
    {
        self.box_type()
    }

    /// Returns the size of the box in bytes, like `box_size`.
    pub fn get_size(&self) -> u64
        ensures { result ≡ min (size_elst self.now) (2 ^ 64 - 1) }
    {
        self.box_size()
    }
}

impl TryClone for ElstBox {
    fn try_clone(&self) -> Result<ElstBox> {
        Ok(ElstBox {
            version: self.version,
            flags: self.flags,
            entries: self.entries.try_clone()?,
        })
    }
}

impl Mp4Box for ElstBox {
    ghost format = { format_elst };

    fn box_type(&self) -> BoxType {
        BoxType::ElstBox
    }

    fn box_size(&self) -> u64 {
        if self.version == 1 {
            table_size::<ElstEntry, 20>(self.entries.as_slice())
        } else {
            table_size::<ElstEntry, 12>(self.entries.as_slice())
        }
    }
}

/// Returns whether the version in `bytes` is 1, which has long rows. A missing version counts as 0.
#[tactic(auto, unfolding(mp4_frame::specs::Bytes::number))]
fn has_long_rows(bytes: &[u8]) -> bool
    ensures { result ≡ is_long (number bytes.now 8 1) }
{
    bytes.len() > 8 && bytes[8] == 1
}

/// Reads a box with rows of 20 bytes.
#[tactic(auto, unfolding(crate::specs::Elst::reads_elst_rows))]
fn read_long(alloc: Global, bytes: &[u8], size: u64) -> Result<ElstBox>
    ensures { Answers result (reads_elst_rows true bytes.now size) }
{
    let (version, flags, rows) = read_table::<20>(bytes, size, TOO_MANY)?;
    Ok(ElstBox {
        version,
        flags,
        entries: entries_of::<ElstEntry, 20>(alloc, rows)?.into(),
    })
}

/// Reads a box with rows of 12 bytes.
#[tactic(auto, unfolding(crate::specs::Elst::reads_elst_rows))]
fn read_short(alloc: Global, bytes: &[u8], size: u64) -> Result<ElstBox>
    ensures { Answers result (reads_elst_rows false bytes.now size) }
{
    let (version, flags, rows) = read_table::<12>(bytes, size, TOO_MANY)?;
    Ok(ElstBox {
        version,
        flags,
        entries: entries_of::<ElstEntry, 12>(alloc, rows)?.into(),
    })
}

impl ReadBox for ElstBox {
    ghost reads = { reads_elst };

    const LEAST: u64 = 0;

    #[tactic(auto, unfolding(crate::specs::Elst::reads_elst))]
    fn read_content(alloc: Global, bytes: &[u8], _start: u64, size: u64) -> Result<ElstBox> {
        if has_long_rows(bytes) {
            read_long(alloc, bytes, size)
        } else {
            read_short(alloc, bytes, size)
        }
    }
}

impl WriteBox for ElstBox {
    fn is_writable(&self) -> bool {
        if self.version == 1 {
            is_writable_table::<ElstEntry, 20>(
                codes::ELST,
                self.version,
                self.flags,
                self.entries.as_slice(),
            )
        } else {
            is_writable_table::<ElstEntry, 12>(
                codes::ELST,
                self.version,
                self.flags,
                self.entries.as_slice(),
            )
        }
    }

    #[tactic(auto, unfolding(crate::specs::Elst::bytes_elst, crate::specs::Elst::bytes_elst_rows))]
    fn put_box(&self, out: &mut [u8]) {
        if self.version == 1 {
            put_table::<ElstEntry, 20>(
                out,
                codes::ELST,
                self.version,
                self.flags,
                self.entries.as_slice(),
            );
        } else {
            put_table::<ElstEntry, 12>(
                out,
                codes::ELST,
                self.version,
                self.flags,
                self.entries.as_slice(),
            );
        }
    }

    ghost write_laws = { write_laws laws_elst };
}

impl BoxLaws for ElstBox {
    ghost laws = { laws_elst };
}
