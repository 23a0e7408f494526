//! The structs and rows for C of tables of samples.

ghost use Rattle.std.specs.Prelude.{◌≡◌, IfOk, IfErr, map};
ghost use Rattle.mp4_frame.specs.declared.error.Error.TheVariants.{OutOfMemory};
ghost use Rattle.mp4_c_boxes.specs.Tables.{table_stco, table_co64, table_stss, table_stsz, row_stts, table_stts};
ghost use Rattle.mp4_c_boxes.specs.Tables.{row_ctts, table_ctts, row_stsc, table_stsc, row_elst, table_elst, stco_of};
ghost use Rattle.mp4_c_boxes.specs.Tables.{co64_of, stss_of, stsz_of, entry_stts, stts_of, entry_ctts, ctts_of};
ghost use Rattle.mp4_c_boxes.specs.Tables.{entry_stsc, stsc_of, entry_elst, elst_of};

use crate::to_rows::ToRows;
use crate::written::FromStruct;
use mp4_frame::{Entries, Result};
use mp4_tables::{
    Co64Box, CttsBox, CttsEntry, ElstBox, ElstEntry, StcoBox, StscBox, StscEntry, StssBox, StszBox,
    SttsBox, SttsEntry,
};
use std::alloc::Global;

/// A table's version, flags and number of rows.
#[repr(C)]
#[derive(Clone, Copy)]
pub struct Table {
    /// The number of rows.
    pub count: usize,
    /// The flags of the box: 24 bits.
    pub flags: u32,
    /// The version of the box.
    pub version: u8,
}

impl Table {
    /// Returns the header of a table with `version`, `flags` and `count` rows.
    pub fn of(version: u8, flags: u32, count: usize) -> Table
        ensures { result ≡ record { count = count; flags = flags; version = version } }
    {
        Table {
            count,
            flags,
            version,
        }
    }
}

/// An entry of a table that C has as a row of the type `R`.
pub(crate) trait FromRow<R>: Drop {
    /// The entry of a row.
    ghost entry_of: { R → Self };

    /// Returns the entry of `row`.
    fn from_row(row: &R) -> Self
        ensures { result ≡ entry_of row.now };
}

/// Returns the entries of `rows`. It asks for the memory of all of them first. The only error is out of memory.
pub(crate) fn entries_of<T: FromRow<R>, R>(alloc: Global, rows: &[R]) -> Result<Entries<T>>
    ensures value { IfOk result (λ entries. entries ≡ map T.entry_of rows.now) }
    ensures memory { IfErr result (λ e. e ≡ OutOfMemory) }
{
    let mut entries = Vec::with_capacity(alloc, rows.len())?;
    for row in rows {
        entries.push_reserved(T::from_row(row));
    }
    Ok(Entries::from_vec(entries))
}

/// Returns a copy of `numbers` as entries. The only error is out of memory.
pub(crate) fn copy_of<T: Copy>(alloc: Global, numbers: &[T]) -> Result<Entries<T>>
    ensures value { IfOk result (λ entries. entries ≡ numbers.now) }
    ensures memory { IfErr result (λ e. e ≡ OutOfMemory) }
{
    Ok(Entries::from_vec(Vec::from_slice(alloc, numbers)?))
}

impl ToRows<u32, Table> for StcoBox {
    ghost rows = { λ v. v.entries };

    ghost summary = { table_stco };

    fn count(&self) -> usize {
        self.entries.len()
    }

    fn row(&self, index: usize) -> u32 {
        self.entries.as_slice()[index]
    }

    fn summary(&self) -> Table {
        Table::of(self.version, self.flags, self.entries.len())
    }
}

impl FromStruct<Table, u32> for StcoBox {
    ghost from_struct = { stco_of };

    fn from_struct(alloc: Global, table: &Table, rows: &[u32]) -> Result<StcoBox> {
        Ok(StcoBox {
            version: table.version,
            flags: table.flags,
            entries: copy_of(alloc, rows)?,
        })
    }
}

impl ToRows<u64, Table> for Co64Box {
    ghost rows = { λ v. v.entries };

    ghost summary = { table_co64 };

    fn count(&self) -> usize {
        self.entries.len()
    }

    fn row(&self, index: usize) -> u64 {
        self.entries.as_slice()[index]
    }

    fn summary(&self) -> Table {
        Table::of(self.version, self.flags, self.entries.len())
    }
}

impl FromStruct<Table, u64> for Co64Box {
    ghost from_struct = { co64_of };

    fn from_struct(alloc: Global, table: &Table, rows: &[u64]) -> Result<Co64Box> {
        Ok(Co64Box {
            version: table.version,
            flags: table.flags,
            entries: copy_of(alloc, rows)?,
        })
    }
}

impl ToRows<u32, Table> for StssBox {
    ghost rows = { λ v. v.entries };

    ghost summary = { table_stss };

    fn count(&self) -> usize {
        self.entries.len()
    }

    fn row(&self, index: usize) -> u32 {
        self.entries.as_slice()[index]
    }

    fn summary(&self) -> Table {
        Table::of(self.version, self.flags, self.entries.len())
    }
}

impl FromStruct<Table, u32> for StssBox {
    ghost from_struct = { stss_of };

    fn from_struct(alloc: Global, table: &Table, rows: &[u32]) -> Result<StssBox> {
        Ok(StssBox {
            version: table.version,
            flags: table.flags,
            entries: copy_of(alloc, rows)?,
        })
    }
}

/// The fields of an `stsz` (ISO/IEC 14496-12, 8.7.3.2), without the sizes.
#[repr(C)]
#[derive(Clone, Copy)]
pub struct StszTable {
    /// The number of rows: `sample_count` if `sample_size` is 0, else 0.
    pub count: usize,
    /// The flags of the box: 24 bits, 0 in the standard.
    pub flags: u32,
    /// The size of every sample, in bytes; 0 if the rows have the sizes.
    pub sample_size: u32,
    /// The number of samples of the track.
    pub sample_count: u32,
    /// The version of the box.
    pub version: u8,
}

impl ToRows<u32, StszTable> for StszBox {
    ghost rows = { λ v. v.sample_sizes };

    ghost summary = { table_stsz };

    fn count(&self) -> usize {
        self.sample_sizes.len()
    }

    fn row(&self, index: usize) -> u32 {
        self.sample_sizes.as_slice()[index]
    }

    fn summary(&self) -> StszTable {
        StszTable {
            count: self.sample_sizes.len(),
            flags: self.flags,
            sample_size: self.sample_size,
            sample_count: self.sample_count,
            version: self.version,
        }
    }
}

impl FromStruct<StszTable, u32> for StszBox {
    ghost from_struct = { stsz_of };

    fn from_struct(alloc: Global, table: &StszTable, rows: &[u32]) -> Result<StszBox> {
        Ok(StszBox {
            version: table.version,
            flags: table.flags,
            sample_size: table.sample_size,
            sample_count: table.sample_count,
            sample_sizes: copy_of(alloc, rows)?,
        })
    }
}

/// A run of consecutive samples with the same duration (ISO/IEC 14496-12, 8.6.1.2).
#[repr(C)]
#[derive(Clone, Copy)]
pub struct SttsRow {
    /// The number of samples in the run.
    pub sample_count: u32,
    /// The duration of each sample, in the timescale of the media.
    pub sample_delta: u32,
}

impl ToRows<SttsRow, Table> for SttsBox {
    ghost rows = { λ v. map row_stts v.entries };

    ghost summary = { table_stts };

    fn count(&self) -> usize {
        self.entries.len()
    }

    fn row(&self, index: usize) -> SttsRow {
        let entry = self.entries.as_slice()[index];
        SttsRow {
            sample_count: entry.sample_count,
            sample_delta: entry.sample_delta,
        }
    }

    fn summary(&self) -> Table {
        Table::of(self.version, self.flags, self.entries.len())
    }
}

impl FromRow<SttsRow> for SttsEntry {
    ghost entry_of = { entry_stts };

    fn from_row(row: &SttsRow) -> SttsEntry {
        SttsEntry {
            sample_count: row.sample_count,
            sample_delta: row.sample_delta,
        }
    }
}

impl FromStruct<Table, SttsRow> for SttsBox {
    ghost from_struct = { stts_of };

    fn from_struct(alloc: Global, table: &Table, rows: &[SttsRow]) -> Result<SttsBox> {
        Ok(SttsBox {
            version: table.version,
            flags: table.flags,
            entries: entries_of(alloc, rows)?,
        })
    }
}

/// A run of consecutive samples with the same composition offset (ISO/IEC 14496-12, 8.6.1.3).
#[repr(C)]
#[derive(Clone, Copy)]
pub struct CttsRow {
    /// The number of samples in the run.
    pub sample_count: u32,
    /// The composition time of each sample minus its decoding time, in the timescale of the media. It is signed in
    /// every version.
    pub sample_offset: i32,
}

impl ToRows<CttsRow, Table> for CttsBox {
    ghost rows = { λ v. map row_ctts v.entries };

    ghost summary = { table_ctts };

    fn count(&self) -> usize {
        self.entries.len()
    }

    fn row(&self, index: usize) -> CttsRow {
        let entry = self.entries.as_slice()[index];
        CttsRow {
            sample_count: entry.sample_count,
            sample_offset: entry.sample_offset,
        }
    }

    fn summary(&self) -> Table {
        Table::of(self.version, self.flags, self.entries.len())
    }
}

impl FromRow<CttsRow> for CttsEntry {
    ghost entry_of = { entry_ctts };

    fn from_row(row: &CttsRow) -> CttsEntry {
        CttsEntry {
            sample_count: row.sample_count,
            sample_offset: row.sample_offset,
        }
    }
}

impl FromStruct<Table, CttsRow> for CttsBox {
    ghost from_struct = { ctts_of };

    fn from_struct(alloc: Global, table: &Table, rows: &[CttsRow]) -> Result<CttsBox> {
        Ok(CttsBox {
            version: table.version,
            flags: table.flags,
            entries: entries_of(alloc, rows)?,
        })
    }
}

/// A run of consecutive chunks that have the same number of samples each (ISO/IEC 14496-12, 8.7.4).
#[repr(C)]
#[derive(Clone, Copy)]
pub struct StscRow {
    /// The number of the first chunk of the run, counted from 1 in the standard.
    pub first_chunk: u32,
    /// The number of samples in each chunk of the run.
    pub samples_per_chunk: u32,
    /// The index of the sample entry that the samples use, counted from 1.
    pub sample_description_index: u32,
    /// The number of the first sample of the run, counted from 1. It is computed; the bytes don't have it.
    pub first_sample: u32,
}

impl ToRows<StscRow, Table> for StscBox {
    ghost rows = { λ v. map row_stsc v.entries };

    ghost summary = { table_stsc };

    fn count(&self) -> usize {
        self.entries.len()
    }

    fn row(&self, index: usize) -> StscRow {
        let entry = self.entries.as_slice()[index];
        StscRow {
            first_chunk: entry.first_chunk,
            samples_per_chunk: entry.samples_per_chunk,
            sample_description_index: entry.sample_description_index,
            first_sample: entry.first_sample,
        }
    }

    fn summary(&self) -> Table {
        Table::of(self.version, self.flags, self.entries.len())
    }
}

impl FromRow<StscRow> for StscEntry {
    ghost entry_of = { entry_stsc };

    fn from_row(row: &StscRow) -> StscEntry {
        StscEntry {
            first_chunk: row.first_chunk,
            samples_per_chunk: row.samples_per_chunk,
            sample_description_index: row.sample_description_index,
            first_sample: row.first_sample,
        }
    }
}

impl FromStruct<Table, StscRow> for StscBox {
    ghost from_struct = { stsc_of };

    fn from_struct(alloc: Global, table: &Table, rows: &[StscRow]) -> Result<StscBox> {
        Ok(StscBox {
            version: table.version,
            flags: table.flags,
            entries: entries_of(alloc, rows)?,
        })
    }
}

/// An edit: a part of the media of a track and its presentation (ISO/IEC 14496-12, 8.6.6).
#[repr(C)]
#[derive(Clone, Copy)]
pub struct ElstRow {
    /// The duration of the part, in the timescale of the movie header.
    pub segment_duration: u64,
    /// The time in the media at which the part begins, in the timescale of the media. An empty part (-1 in the
    /// standard) has 2^64 - 1 if the box has version 1, else 2^32 - 1.
    pub media_time: u64,
    /// The whole part of the playback rate.
    pub media_rate: u16,
    /// The fraction of the playback rate, 0 in the standard.
    pub media_rate_fraction: u16,
}

impl ToRows<ElstRow, Table> for ElstBox {
    ghost rows = { λ v. map row_elst v.entries };

    ghost summary = { table_elst };

    fn count(&self) -> usize {
        self.entries.len()
    }

    fn row(&self, index: usize) -> ElstRow {
        let entry = self.entries.as_slice()[index];
        ElstRow {
            segment_duration: entry.segment_duration,
            media_time: entry.media_time,
            media_rate: entry.media_rate,
            media_rate_fraction: entry.media_rate_fraction,
        }
    }

    fn summary(&self) -> Table {
        Table::of(self.version, self.flags, self.entries.len())
    }
}

impl FromRow<ElstRow> for ElstEntry {
    ghost entry_of = { entry_elst };

    fn from_row(row: &ElstRow) -> ElstEntry {
        ElstEntry {
            segment_duration: row.segment_duration,
            media_time: row.media_time,
            media_rate: row.media_rate,
            media_rate_fraction: row.media_rate_fraction,
        }
    }
}

impl FromStruct<Table, ElstRow> for ElstBox {
    ghost from_struct = { elst_of };

    fn from_struct(alloc: Global, table: &Table, rows: &[ElstRow]) -> Result<ElstBox> {
        Ok(ElstBox {
            version: table.version,
            flags: table.flags,
            entries: entries_of(alloc, rows)?,
        })
    }
}
