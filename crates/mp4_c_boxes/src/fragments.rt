//! The structs and rows for C of track fragments. A field whose flag isn't set is 0 in C.

ghost use Rattle.std.specs.Prelude.{◌≡◌, pos, unwrap_or, IfOk, IfErr, slice_index};
ghost use Rattle.mp4_tables.specs.Flagged.{is_set};
ghost use Rattle.mp4_c_boxes.specs.Fragments.{if_set, tfhd_of, fields_tfhd, count_trun, row_trun, rows_trun};
ghost use Rattle.mp4_c_boxes.specs.Fragments.{table_trun, column_in, column_if, trun_of};
ghost use Rattle.mp4_frame.specs.declared.error.Error.TheVariants.{OutOfMemory};

use crate::to_rows::ToRows;
use crate::to_struct::ToStruct;
use crate::written::FromStruct;
use mp4_frame::{Entries, Result};
use mp4_tables::{TfhdBox, TrunBox};
use std::alloc::Global;

/// Returns whether `flag` is set in `flags`.
#[tactic(auto, unfolding(mp4_tables::specs::Flagged::is_set))]
pub(crate) fn is_set(flags: u32, flag: u32) -> bool
    ensures { result ≡ is_set flags flag }
{
    flags & flag > 0
}

/// Returns `n` if its flag is set, which `is_flagged` says.
pub(crate) fn if_set<T: Copy>(is_flagged: bool, n: T) -> Option<T>
    ensures { result ≡ if_set is_flagged n }
{
    if is_flagged { Some(n) } else { None }
}

/// Returns `offset`, or 0 if there is none.
pub(crate) fn offset_or_zero(offset: Option<i32>) -> i32
    ensures { result ≡ unwrap_or offset (pos 0) }
{
    match offset {
        Some(n) => n,
        None => 0,
    }
}

/// The header of a track fragment (ISO/IEC 14496-12, 8.8.7). Its flags say which optional fields it has; the others are
/// 0.
#[repr(C)]
#[derive(Clone, Copy)]
pub struct Tfhd {
    /// The position in the file, in bytes, from which data offsets are counted; 0 without the flag 0x1.
    pub base_data_offset: u64,
    /// The flags of the box, 24 bits: 0x1 if it has a base data offset, 0x2 an index of a sample entry, 0x8 a duration,
    /// 0x10 a size, 0x20 flags of samples.
    pub flags: u32,
    /// The number of the track. It is not 0 in the standard.
    pub track_id: u32,
    /// The index of the sample entry that the samples use, counted from 1; 0 without the flag 0x2.
    pub sample_description_index: u32,
    /// The duration of a sample, in the timescale of the media; 0 without the flag 0x8.
    pub default_sample_duration: u32,
    /// The size of a sample, in bytes; 0 without the flag 0x10.
    pub default_sample_size: u32,
    /// The flags of a sample; 0 without the flag 0x20.
    pub default_sample_flags: u32,
    /// The version of the box: 0 in the standard.
    pub version: u8,
}

impl ToStruct<Tfhd> for TfhdBox {
    ghost to_struct = { fields_tfhd };

    fn to_struct(&self) -> Tfhd {
        Tfhd {
            base_data_offset: self.base_data_offset.unwrap_or(0),
            flags: self.flags,
            track_id: self.track_id,
            sample_description_index: self.sample_description_index.unwrap_or(0),
            default_sample_duration: self.default_sample_duration.unwrap_or(0),
            default_sample_size: self.default_sample_size.unwrap_or(0),
            default_sample_flags: self.default_sample_flags.unwrap_or(0),
            version: self.version,
        }
    }
}

/// Returns the box with `fields`. It has the optional fields whose flags are set.
pub fn tfhd_of(fields: &Tfhd) -> TfhdBox
    ensures { result ≡ tfhd_of fields.now }
{
    let flags = fields.flags;
    TfhdBox {
        version: fields.version,
        flags,
        track_id: fields.track_id,
        base_data_offset: if_set(
            is_set(flags, TfhdBox::FLAG_BASE_DATA_OFFSET),
            fields.base_data_offset,
        ),
        sample_description_index: if_set(
            is_set(flags, TfhdBox::FLAG_SAMPLE_DESCRIPTION_INDEX),
            fields.sample_description_index,
        ),
        default_sample_duration: if_set(
            is_set(flags, TfhdBox::FLAG_DEFAULT_SAMPLE_DURATION),
            fields.default_sample_duration,
        ),
        default_sample_size: if_set(
            is_set(flags, TfhdBox::FLAG_DEFAULT_SAMPLE_SIZE),
            fields.default_sample_size,
        ),
        default_sample_flags: if_set(
            is_set(flags, TfhdBox::FLAG_DEFAULT_SAMPLE_FLAGS),
            fields.default_sample_flags,
        ),
    }
}

/// The numbers that a run has for one sample; those that it doesn't have are 0.
#[repr(C)]
#[derive(Clone, Copy)]
pub struct TrunRow {
    /// The duration, in the timescale of the media.
    pub duration: u32,
    /// The size, in bytes.
    pub size: u32,
    /// The flags, which say what the sample depends on, and whether it is a sync sample (8.8.3).
    pub flags: u32,
    /// The composition time minus the decoding time, in the timescale of the media. In version 1 it is signed: two's
    /// complement.
    pub composition_offset: u32,
}

/// The fields of a `trun` (ISO/IEC 14496-12, 8.8.8), without its rows. Its flags say which optional fields it has.
#[repr(C)]
#[derive(Clone, Copy)]
pub struct TrunTable {
    /// The number of rows: `sample_count` if the run has numbers for each sample, else 0.
    pub count: usize,
    /// The flags of the box, 24 bits: 0x1 if it has a data offset, 0x4 if it has flags of the first sample. Each row
    /// has a duration with 0x100, a size with 0x200, flags with 0x400, and a composition offset with 0x800.
    pub flags: u32,
    /// The number of samples in the run.
    pub sample_count: u32,
    /// The offset of the data of the run, in bytes from the base data offset of the fragment; 0 if it isn't present.
    pub data_offset: i32,
    /// The flags of the first sample, instead of the default flags; 0 if they aren't present.
    pub first_sample_flags: u32,
    /// The version of the box. In version 1 composition offsets are signed.
    pub version: u8,
}

/// Returns the number at `index`, or 0 if `index` is past the end.
fn number_at(numbers: &[u32], index: usize) -> u32
    ensures { result ≡ slice_index numbers.now index }
{
    if index < numbers.len() {
        numbers[index]
    } else {
        0
    }
}

impl ToRows<TrunRow, TrunTable> for TrunBox {
    ghost rows = { rows_trun };

    ghost summary = { table_trun };

    #[tactic(auto, using(crate::proofs::Runs::length_of_rows))]
    fn count(&self) -> usize {
        let first = self.sample_durations.len().max(self.sample_sizes.len());
        first.max(self.sample_flags.len().max(self.sample_cts.len()))
    }

    #[tactic(auto, using(crate::proofs::Runs::row_of_rows))]
    fn row(&self, index: usize) -> TrunRow {
        TrunRow {
            duration: number_at(self.sample_durations.as_slice(), index),
            size: number_at(self.sample_sizes.as_slice(), index),
            flags: number_at(self.sample_flags.as_slice(), index),
            composition_offset: number_at(self.sample_cts.as_slice(), index),
        }
    }

    #[tactic(auto, using(crate::proofs::Runs::length_of_rows))]
    fn summary(&self) -> TrunTable {
        TrunTable {
            count: self.count(),
            flags: self.flags,
            sample_count: self.sample_count,
            data_offset: offset_or_zero(self.data_offset),
            first_sample_flags: self.first_sample_flags.unwrap_or(0),
            version: self.version,
        }
    }
}

/// A number that a run can have for each sample.
#[derive(Clone, Copy)]
enum Column {
    Duration,
    Size,
    Flags,
    CompositionOffset,
}

/// Returns the number of `row` in `column`.
fn column_in(column: Column, row: &TrunRow) -> u32
    ensures { result ≡ column_in column row.now }
{
    match column {
        Column::Duration => row.duration,
        Column::Size => row.size,
        Column::Flags => row.flags,
        Column::CompositionOffset => row.composition_offset,
    }
}

/// Returns the numbers of `rows` in `column` if its flag is set, which `is_flagged` says; else no numbers. The only
/// error is out of memory.
fn column_if(
    alloc: Global,
    is_flagged: bool,
    column: Column,
    rows: &[TrunRow],
) -> Result<Entries<u32>>
    ensures value { IfOk result (λ numbers. numbers ≡ column_if is_flagged column rows.now) }
    ensures memory { IfErr result (λ e. e ≡ OutOfMemory) }
{
    if !is_flagged {
        return Ok(Entries::new(alloc));
    }
    let mut numbers = Vec::with_capacity(alloc, rows.len())?;
    for row in rows {
        numbers.push_reserved(column_in(column, row));
    }
    Ok(Entries::from_vec(numbers))
}

impl FromStruct<TrunTable, TrunRow> for TrunBox {
    ghost from_struct = { trun_of };

    fn from_struct(alloc: Global, table: &TrunTable, rows: &[TrunRow]) -> Result<TrunBox> {
        let flags = table.flags;
        Ok(TrunBox {
            version: table.version,
            flags,
            sample_count: table.sample_count,
            data_offset: if_set(is_set(flags, TrunBox::FLAG_DATA_OFFSET), table.data_offset),
            first_sample_flags: if_set(
                is_set(flags, TrunBox::FLAG_FIRST_SAMPLE_FLAGS),
                table.first_sample_flags,
            ),
            sample_durations: column_if(
                alloc,
                is_set(flags, TrunBox::FLAG_SAMPLE_DURATION),
                Column::Duration,
                rows,
            )?,
            sample_sizes: column_if(
                alloc,
                is_set(flags, TrunBox::FLAG_SAMPLE_SIZE),
                Column::Size,
                rows,
            )?,
            sample_flags: column_if(
                alloc,
                is_set(flags, TrunBox::FLAG_SAMPLE_FLAGS),
                Column::Flags,
                rows,
            )?,
            sample_cts: column_if(
                alloc,
                is_set(flags, TrunBox::FLAG_SAMPLE_CTS),
                Column::CompositionOffset,
                rows,
            )?,
        })
    }
}
