//! Reads and writes the boxes of `mp4_tables`: tables of samples, and runs of fragments.

ghost use Rattle.mp4_frame.specs.declared.codes.TheConstants as codes;
ghost use Rattle.std.specs.Prelude.{map};
ghost use Rattle.mp4_c_boxes.specs.Calls.{CopiesReading, FillsStruct, PutsBox, PutsOrRefuses};
ghost use Rattle.mp4_c_boxes.specs.Fragments.{rows_trun, table_trun, trun_of, fields_tfhd, tfhd_of};
ghost use Rattle.mp4_c_boxes.specs.Tables.{row_ctts, row_elst, row_stsc, row_stts, table_co64, table_ctts, table_elst};
ghost use Rattle.mp4_c_boxes.specs.Tables.{table_stco, table_stsc, table_stss, table_stsz, table_stts, co64_of};
ghost use Rattle.mp4_c_boxes.specs.Tables.{ctts_of, elst_of, stco_of, stsc_of, stss_of, stsz_of, stts_of};
ghost use Rattle.mp4_frame.specs.WholeBox.{front_box};
ghost use Rattle.mp4_stream.specs.Boxes.{format_co64, format_ctts, format_elst, format_stco, format_stsc, format_stss};
ghost use Rattle.mp4_stream.specs.Boxes.{format_stsz, format_stts, format_tfhd, format_trun, reads_co64, reads_ctts};
ghost use Rattle.mp4_stream.specs.Boxes.{reads_elst, reads_stco, reads_stsc, reads_stss, reads_stsz, reads_stts};
ghost use Rattle.mp4_stream.specs.Boxes.{reads_tfhd, reads_trun};

use mp4_c_boxes::fragments::{Tfhd, TrunRow, TrunTable, tfhd_of};
use mp4_c_boxes::tables::{CttsRow, ElstRow, StscRow, StszTable, SttsRow, Table};
use mp4_c_boxes::to_rows::copy_box_rows;
use mp4_c_boxes::to_struct::fill_struct;
use mp4_c_boxes::written::{put_box, write_from};
use mp4_frame::codes;
use mp4_stream::{
    Co64Box, CttsBox, ElstBox, StcoBox, StscBox, StssBox, StszBox, SttsBox, TfhdBox, TrunBox,
};
use std::alloc::Global;

/// Copies the offsets of the chunks in the `stco` at the front of `bytes` (ISO/IEC 14496-12, 8.7.5) to `offsets`, in
/// bytes from the front of the file. Fills `table` with the other fields. Returns the status.
#[unsafe(no_mangle)]
pub extern "C" fn mp4_stco(
    alloc: Global,
    bytes: &[u8],
    offsets: &mut [u32],
    table: &mut Table,
) -> u32
    ensures { CopiesReading (front_box reads_stco codes.STCO bytes.now) (λ v. v.entries) table_stco result offsets.old
        offsets.new table.old table.new }
{
    copy_box_rows::<StcoBox, u32, Table>(alloc, codes::STCO, bytes, offsets, table)
}

/// Writes the `stco` with `table` and `offsets` to the front of `bytes`, and its length to `length` (ISO/IEC 14496-12,
/// 8.7.5). Returns the status.
#[unsafe(no_mangle)]
pub extern "C" fn mp4_write_stco(
    alloc: Global,
    table: &Table,
    offsets: &[u32],
    bytes: &mut [u8],
    length: &mut usize,
) -> u32
    ensures { PutsOrRefuses format_stco (stco_of table.now offsets.now) result bytes.old bytes.new length.old
        length.new }
{
    write_from::<StcoBox, Table, u32>(alloc, table, offsets, bytes, length)
}

/// Copies the offsets of the chunks in the `co64` at the front of `bytes` (ISO/IEC 14496-12, 8.7.5) to `offsets`, in
/// bytes from the front of the file. Fills `table` with the other fields. Returns the status.
#[unsafe(no_mangle)]
pub extern "C" fn mp4_co64(
    alloc: Global,
    bytes: &[u8],
    offsets: &mut [u64],
    table: &mut Table,
) -> u32
    ensures { CopiesReading (front_box reads_co64 codes.CO64 bytes.now) (λ v. v.entries) table_co64 result offsets.old
        offsets.new table.old table.new }
{
    copy_box_rows::<Co64Box, u64, Table>(alloc, codes::CO64, bytes, offsets, table)
}

/// Writes the `co64` with `table` and `offsets` to the front of `bytes`, and its length to `length` (ISO/IEC 14496-12,
/// 8.7.5). Returns the status.
#[unsafe(no_mangle)]
pub extern "C" fn mp4_write_co64(
    alloc: Global,
    table: &Table,
    offsets: &[u64],
    bytes: &mut [u8],
    length: &mut usize,
) -> u32
    ensures { PutsOrRefuses format_co64 (co64_of table.now offsets.now) result bytes.old bytes.new length.old
        length.new }
{
    write_from::<Co64Box, Table, u64>(alloc, table, offsets, bytes, length)
}

/// Copies the runs of samples with the same duration in the `stts` at the front of `bytes` (ISO/IEC 14496-12, 8.6.1.2)
/// to `rows`, in decoding order. Fills `table` with the other fields. Returns the status.
#[unsafe(no_mangle)]
pub extern "C" fn mp4_stts(
    alloc: Global,
    bytes: &[u8],
    rows: &mut [SttsRow],
    table: &mut Table,
) -> u32
    ensures { CopiesReading (front_box reads_stts codes.STTS bytes.now) (λ v. map row_stts v.entries) table_stts result
        rows.old rows.new table.old table.new }
{
    copy_box_rows::<SttsBox, SttsRow, Table>(alloc, codes::STTS, bytes, rows, table)
}

/// Writes the `stts` with `table` and `rows` to the front of `bytes`, and its length to `length` (ISO/IEC 14496-12,
/// 8.6.1.2). Returns the status.
#[unsafe(no_mangle)]
pub extern "C" fn mp4_write_stts(
    alloc: Global,
    table: &Table,
    rows: &[SttsRow],
    bytes: &mut [u8],
    length: &mut usize,
) -> u32
    ensures { PutsOrRefuses format_stts (stts_of table.now rows.now) result bytes.old bytes.new length.old
        length.new }
{
    write_from::<SttsBox, Table, SttsRow>(alloc, table, rows, bytes, length)
}

/// Copies the runs of samples with the same composition offset in the `ctts` at the front of `bytes` (ISO/IEC 14496-12,
/// 8.6.1.3) to `rows`, in decoding order. Fills `table` with the other fields. Returns the status.
#[unsafe(no_mangle)]
pub extern "C" fn mp4_ctts(
    alloc: Global,
    bytes: &[u8],
    rows: &mut [CttsRow],
    table: &mut Table,
) -> u32
    ensures { CopiesReading (front_box reads_ctts codes.CTTS bytes.now) (λ v. map row_ctts v.entries) table_ctts result
        rows.old rows.new table.old table.new }
{
    copy_box_rows::<CttsBox, CttsRow, Table>(alloc, codes::CTTS, bytes, rows, table)
}

/// Writes the `ctts` with `table` and `rows` to the front of `bytes`, and its length to `length` (ISO/IEC 14496-12,
/// 8.6.1.3). Returns the status.
#[unsafe(no_mangle)]
pub extern "C" fn mp4_write_ctts(
    alloc: Global,
    table: &Table,
    rows: &[CttsRow],
    bytes: &mut [u8],
    length: &mut usize,
) -> u32
    ensures { PutsOrRefuses format_ctts (ctts_of table.now rows.now) result bytes.old bytes.new length.old
        length.new }
{
    write_from::<CttsBox, Table, CttsRow>(alloc, table, rows, bytes, length)
}

/// Copies the numbers of the sync samples in the `stss` at the front of `bytes` (ISO/IEC 14496-12, 8.6.2) to `samples`,
/// counted from 1. Fills `table` with the other fields. Returns the status.
#[unsafe(no_mangle)]
pub extern "C" fn mp4_stss(
    alloc: Global,
    bytes: &[u8],
    samples: &mut [u32],
    table: &mut Table,
) -> u32
    ensures { CopiesReading (front_box reads_stss codes.STSS bytes.now) (λ v. v.entries) table_stss result samples.old
        samples.new table.old table.new }
{
    copy_box_rows::<StssBox, u32, Table>(alloc, codes::STSS, bytes, samples, table)
}

/// Writes the `stss` with `table` and `samples` to the front of `bytes`, and its length to `length` (ISO/IEC 14496-12,
/// 8.6.2). Returns the status.
#[unsafe(no_mangle)]
pub extern "C" fn mp4_write_stss(
    alloc: Global,
    table: &Table,
    samples: &[u32],
    bytes: &mut [u8],
    length: &mut usize,
) -> u32
    ensures { PutsOrRefuses format_stss (stss_of table.now samples.now) result bytes.old bytes.new length.old
        length.new }
{
    write_from::<StssBox, Table, u32>(alloc, table, samples, bytes, length)
}

/// Copies the sizes of the samples in the `stsz` at the front of `bytes` (ISO/IEC 14496-12, 8.7.3.2) to `sizes`, in
/// bytes. Fills `table` with the other fields. If all samples have the same size, `table` has it, and there are no
/// rows. Returns the status.
#[unsafe(no_mangle)]
pub extern "C" fn mp4_stsz(
    alloc: Global,
    bytes: &[u8],
    sizes: &mut [u32],
    table: &mut StszTable,
) -> u32
    ensures { CopiesReading (front_box reads_stsz codes.STSZ bytes.now) (λ v. v.sample_sizes) table_stsz result
        sizes.old sizes.new table.old table.new }
{
    copy_box_rows::<StszBox, u32, StszTable>(alloc, codes::STSZ, bytes, sizes, table)
}

/// Writes the `stsz` with `table` and `sizes` to the front of `bytes`, and its length to `length` (ISO/IEC 14496-12,
/// 8.7.3.2). Returns the status.
#[unsafe(no_mangle)]
pub extern "C" fn mp4_write_stsz(
    alloc: Global,
    table: &StszTable,
    sizes: &[u32],
    bytes: &mut [u8],
    length: &mut usize,
) -> u32
    ensures { PutsOrRefuses format_stsz (stsz_of table.now sizes.now) result bytes.old bytes.new length.old
        length.new }
{
    write_from::<StszBox, StszTable, u32>(alloc, table, sizes, bytes, length)
}

/// Copies the runs of chunks that have the same number of samples in the `stsc` at the front of `bytes` (ISO/IEC
/// 14496-12, 8.7.4) to `rows`. Fills `table` with the other fields. Returns the status.
#[unsafe(no_mangle)]
pub extern "C" fn mp4_stsc(
    alloc: Global,
    bytes: &[u8],
    rows: &mut [StscRow],
    table: &mut Table,
) -> u32
    ensures { CopiesReading (front_box reads_stsc codes.STSC bytes.now) (λ v. map row_stsc v.entries) table_stsc result
        rows.old rows.new table.old table.new }
{
    copy_box_rows::<StscBox, StscRow, Table>(alloc, codes::STSC, bytes, rows, table)
}

/// Writes the `stsc` with `table` and `rows` to the front of `bytes`, and its length to `length` (ISO/IEC 14496-12,
/// 8.7.4). Returns the status.
#[unsafe(no_mangle)]
pub extern "C" fn mp4_write_stsc(
    alloc: Global,
    table: &Table,
    rows: &[StscRow],
    bytes: &mut [u8],
    length: &mut usize,
) -> u32
    ensures { PutsOrRefuses format_stsc (stsc_of table.now rows.now) result bytes.old bytes.new length.old
        length.new }
{
    write_from::<StscBox, Table, StscRow>(alloc, table, rows, bytes, length)
}

/// Copies the edits in the `elst` at the front of `bytes` (ISO/IEC 14496-12, 8.6.6) to `rows`, in the order of their
/// presentation. Fills `table` with the other fields. Returns the status.
#[unsafe(no_mangle)]
pub extern "C" fn mp4_elst(
    alloc: Global,
    bytes: &[u8],
    rows: &mut [ElstRow],
    table: &mut Table,
) -> u32
    ensures { CopiesReading (front_box reads_elst codes.ELST bytes.now) (λ v. map row_elst v.entries) table_elst result
        rows.old rows.new table.old table.new }
{
    copy_box_rows::<ElstBox, ElstRow, Table>(alloc, codes::ELST, bytes, rows, table)
}

/// Writes the `elst` with `table` and `rows` to the front of `bytes`, and its length to `length` (ISO/IEC 14496-12,
/// 8.6.6). Returns the status.
#[unsafe(no_mangle)]
pub extern "C" fn mp4_write_elst(
    alloc: Global,
    table: &Table,
    rows: &[ElstRow],
    bytes: &mut [u8],
    length: &mut usize,
) -> u32
    ensures { PutsOrRefuses format_elst (elst_of table.now rows.now) result bytes.old bytes.new length.old
        length.new }
{
    write_from::<ElstBox, Table, ElstRow>(alloc, table, rows, bytes, length)
}

/// Fills `fields` with those of the `tfhd` at the front of `bytes`, the track fragment header (ISO/IEC 14496-12,
/// 8.8.7). Returns the status.
#[unsafe(no_mangle)]
pub extern "C" fn mp4_tfhd(alloc: Global, bytes: &[u8], fields: &mut Tfhd) -> u32
    ensures { FillsStruct (front_box reads_tfhd codes.TFHD bytes.now) fields_tfhd result fields.old fields.new }
{
    fill_struct::<TfhdBox, Tfhd>(alloc, codes::TFHD, bytes, fields)
}

/// Writes the `tfhd` with `fields` to the front of `bytes`, and its length to `length` (ISO/IEC 14496-12, 8.8.7). Its
/// optional fields are those whose flags are set. Returns the status.
#[unsafe(no_mangle)]
pub extern "C" fn mp4_write_tfhd(fields: &Tfhd, bytes: &mut [u8], length: &mut usize) -> u32
    ensures { PutsBox format_tfhd (tfhd_of fields.now) result bytes.old bytes.new length.old length.new }
{
    put_box(&tfhd_of(fields), bytes, length)
}

/// Copies the samples of the run in the `trun` at the front of `bytes` (ISO/IEC 14496-12, 8.8.8) to `rows`. Fills
/// `table` with the other fields. Returns the status.
#[unsafe(no_mangle)]
pub extern "C" fn mp4_trun(
    alloc: Global,
    bytes: &[u8],
    rows: &mut [TrunRow],
    table: &mut TrunTable,
) -> u32
    ensures { CopiesReading (front_box reads_trun codes.TRUN bytes.now) rows_trun table_trun result rows.old rows.new
        table.old table.new }
{
    copy_box_rows::<TrunBox, TrunRow, TrunTable>(alloc, codes::TRUN, bytes, rows, table)
}

/// Writes the `trun` with `table` and `rows` to the front of `bytes`, and its length to `length` (ISO/IEC 14496-12,
/// 8.8.8). Returns the status.
#[unsafe(no_mangle)]
pub extern "C" fn mp4_write_trun(
    alloc: Global,
    table: &TrunTable,
    rows: &[TrunRow],
    bytes: &mut [u8],
    length: &mut usize,
) -> u32
    ensures { PutsOrRefuses format_trun (trun_of table.now rows.now) result bytes.old bytes.new length.old
        length.new }
{
    write_from::<TrunBox, TrunTable, TrunRow>(alloc, table, rows, bytes, length)
}
