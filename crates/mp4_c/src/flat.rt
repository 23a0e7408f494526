//! Reads and writes the boxes of `mp4_flat`: boxes of fixed fields.

ghost use Rattle.mp4_frame.specs.declared.codes.TheConstants as codes;
ghost use Rattle.mp4_c_boxes.specs.Calls.{FillsStruct, PutsBox, PutsOrRefuses};
ghost use Rattle.mp4_c_boxes.specs.FixedFields.{fields_mdhd, fields_mehd, fields_mfhd, fields_mvhd, fields_smhd};
ghost use Rattle.mp4_c_boxes.specs.FixedFields.{fields_tfdt, fields_tkhd, fields_trex, fields_vmhd, mdhd_of, mehd_of};
ghost use Rattle.mp4_c_boxes.specs.FixedFields.{mfhd_of, mvhd_of, smhd_of, tfdt_of, tkhd_of, trex_of, vmhd_of};
ghost use Rattle.mp4_frame.specs.WholeBox.{front_box};
ghost use Rattle.mp4_stream.specs.Boxes.{format_mdhd, format_mehd, format_mfhd, format_mvhd, format_smhd, format_tfdt};
ghost use Rattle.mp4_stream.specs.Boxes.{format_tkhd, format_trex, format_vmhd, reads_mdhd, reads_mehd, reads_mfhd};
ghost use Rattle.mp4_stream.specs.Boxes.{reads_mvhd, reads_smhd, reads_tfdt, reads_tkhd, reads_trex, reads_vmhd};

use mp4_c_boxes::flat::{
    Mdhd, Mehd, Mfhd, Mvhd, Smhd, Tfdt, Tkhd, Trex, Vmhd, mdhd_of, mehd_of, mfhd_of, mvhd_of,
    smhd_of, tfdt_of, tkhd_of, trex_of, vmhd_of,
};
use mp4_c_boxes::status::status_of;
use mp4_c_boxes::to_struct::fill_struct;
use mp4_c_boxes::written::put_box;
use mp4_frame::codes;
use mp4_stream::{MdhdBox, MehdBox, MfhdBox, MvhdBox, SmhdBox, TfdtBox, TkhdBox, TrexBox, VmhdBox};
use std::alloc::Global;

/// Fills `fields` with those of the `mvhd` at the front of `bytes`, the movie header (ISO/IEC 14496-12, 8.2.2). Returns
/// the status.
#[unsafe(no_mangle)]
pub extern "C" fn mp4_mvhd(alloc: Global, bytes: &[u8], fields: &mut Mvhd) -> u32
    ensures { FillsStruct (front_box reads_mvhd codes.MVHD bytes.now) fields_mvhd result fields.old fields.new }
{
    fill_struct::<MvhdBox, Mvhd>(alloc, codes::MVHD, bytes, fields)
}

/// Writes the `mvhd` with `fields` to the front of `bytes`, and its length to `length` (ISO/IEC 14496-12, 8.2.2).
/// Returns the status.
#[unsafe(no_mangle)]
pub extern "C" fn mp4_write_mvhd(fields: &Mvhd, bytes: &mut [u8], length: &mut usize) -> u32
    ensures { PutsBox format_mvhd (mvhd_of fields.now) result bytes.old bytes.new length.old length.new }
{
    put_box(&mvhd_of(fields), bytes, length)
}

/// Fills `fields` with those of the `tkhd` at the front of `bytes`, the track header (ISO/IEC 14496-12, 8.3.2). Returns
/// the status.
#[unsafe(no_mangle)]
pub extern "C" fn mp4_tkhd(alloc: Global, bytes: &[u8], fields: &mut Tkhd) -> u32
    ensures { FillsStruct (front_box reads_tkhd codes.TKHD bytes.now) fields_tkhd result fields.old fields.new }
{
    fill_struct::<TkhdBox, Tkhd>(alloc, codes::TKHD, bytes, fields)
}

/// Writes the `tkhd` with `fields` to the front of `bytes`, and its length to `length` (ISO/IEC 14496-12, 8.3.2).
/// Returns the status.
#[unsafe(no_mangle)]
pub extern "C" fn mp4_write_tkhd(fields: &Tkhd, bytes: &mut [u8], length: &mut usize) -> u32
    ensures { PutsBox format_tkhd (tkhd_of fields.now) result bytes.old bytes.new length.old length.new }
{
    put_box(&tkhd_of(fields), bytes, length)
}

/// Fills `fields` with those of the `mdhd` at the front of `bytes`, the media header (ISO/IEC 14496-12, 8.4.2). Returns
/// the status.
#[unsafe(no_mangle)]
pub extern "C" fn mp4_mdhd(alloc: Global, bytes: &[u8], fields: &mut Mdhd) -> u32
    ensures { FillsStruct (front_box reads_mdhd codes.MDHD bytes.now) fields_mdhd result fields.old fields.new }
{
    fill_struct::<MdhdBox, Mdhd>(alloc, codes::MDHD, bytes, fields)
}

/// Writes the `mdhd` with `fields` to the front of `bytes`, and its length to `length` (ISO/IEC 14496-12, 8.4.2).
/// Returns the status.
#[unsafe(no_mangle)]
pub extern "C" fn mp4_write_mdhd(
    alloc: Global,
    fields: &Mdhd,
    bytes: &mut [u8],
    length: &mut usize,
) -> u32
    ensures { PutsOrRefuses format_mdhd (mdhd_of fields.now) result bytes.old bytes.new length.old length.new }
{
    match mdhd_of(alloc, fields) {
        Ok(value) => put_box(&value, bytes, length),
        Err(error) => status_of(&error),
    }
}

/// Fills `fields` with those of the `mehd` at the front of `bytes`, the movie extends header (ISO/IEC 14496-12, 8.8.2).
/// Returns the status.
#[unsafe(no_mangle)]
pub extern "C" fn mp4_mehd(alloc: Global, bytes: &[u8], fields: &mut Mehd) -> u32
    ensures { FillsStruct (front_box reads_mehd codes.MEHD bytes.now) fields_mehd result fields.old fields.new }
{
    fill_struct::<MehdBox, Mehd>(alloc, codes::MEHD, bytes, fields)
}

/// Writes the `mehd` with `fields` to the front of `bytes`, and its length to `length` (ISO/IEC 14496-12, 8.8.2).
/// Returns the status.
#[unsafe(no_mangle)]
pub extern "C" fn mp4_write_mehd(fields: &Mehd, bytes: &mut [u8], length: &mut usize) -> u32
    ensures { PutsBox format_mehd (mehd_of fields.now) result bytes.old bytes.new length.old length.new }
{
    put_box(&mehd_of(fields), bytes, length)
}

/// Fills `fields` with those of the `mfhd` at the front of `bytes`, the movie fragment header (ISO/IEC 14496-12,
/// 8.8.5). Returns the status.
#[unsafe(no_mangle)]
pub extern "C" fn mp4_mfhd(alloc: Global, bytes: &[u8], fields: &mut Mfhd) -> u32
    ensures { FillsStruct (front_box reads_mfhd codes.MFHD bytes.now) fields_mfhd result fields.old fields.new }
{
    fill_struct::<MfhdBox, Mfhd>(alloc, codes::MFHD, bytes, fields)
}

/// Writes the `mfhd` with `fields` to the front of `bytes`, and its length to `length` (ISO/IEC 14496-12, 8.8.5).
/// Returns the status.
#[unsafe(no_mangle)]
pub extern "C" fn mp4_write_mfhd(fields: &Mfhd, bytes: &mut [u8], length: &mut usize) -> u32
    ensures { PutsBox format_mfhd (mfhd_of fields.now) result bytes.old bytes.new length.old length.new }
{
    put_box(&mfhd_of(fields), bytes, length)
}

/// Fills `fields` with those of the `smhd` at the front of `bytes`, the sound media header (ISO/IEC 14496-12, 12.2.2).
/// Returns the status.
#[unsafe(no_mangle)]
pub extern "C" fn mp4_smhd(alloc: Global, bytes: &[u8], fields: &mut Smhd) -> u32
    ensures { FillsStruct (front_box reads_smhd codes.SMHD bytes.now) fields_smhd result fields.old fields.new }
{
    fill_struct::<SmhdBox, Smhd>(alloc, codes::SMHD, bytes, fields)
}

/// Writes the `smhd` with `fields` to the front of `bytes`, and its length to `length` (ISO/IEC 14496-12, 12.2.2).
/// Returns the status.
#[unsafe(no_mangle)]
pub extern "C" fn mp4_write_smhd(fields: &Smhd, bytes: &mut [u8], length: &mut usize) -> u32
    ensures { PutsBox format_smhd (smhd_of fields.now) result bytes.old bytes.new length.old length.new }
{
    put_box(&smhd_of(fields), bytes, length)
}

/// Fills `fields` with those of the `vmhd` at the front of `bytes`, the video media header (ISO/IEC 14496-12, 12.1.2).
/// Returns the status.
#[unsafe(no_mangle)]
pub extern "C" fn mp4_vmhd(alloc: Global, bytes: &[u8], fields: &mut Vmhd) -> u32
    ensures { FillsStruct (front_box reads_vmhd codes.VMHD bytes.now) fields_vmhd result fields.old fields.new }
{
    fill_struct::<VmhdBox, Vmhd>(alloc, codes::VMHD, bytes, fields)
}

/// Writes the `vmhd` with `fields` to the front of `bytes`, and its length to `length` (ISO/IEC 14496-12, 12.1.2).
/// Returns the status.
#[unsafe(no_mangle)]
pub extern "C" fn mp4_write_vmhd(fields: &Vmhd, bytes: &mut [u8], length: &mut usize) -> u32
    ensures { PutsBox format_vmhd (vmhd_of fields.now) result bytes.old bytes.new length.old length.new }
{
    put_box(&vmhd_of(fields), bytes, length)
}

/// Fills `fields` with those of the `trex` at the front of `bytes`, the defaults for the samples of a track's fragments
/// (ISO/IEC 14496-12, 8.8.3). Returns the status.
#[unsafe(no_mangle)]
pub extern "C" fn mp4_trex(alloc: Global, bytes: &[u8], fields: &mut Trex) -> u32
    ensures { FillsStruct (front_box reads_trex codes.TREX bytes.now) fields_trex result fields.old fields.new }
{
    fill_struct::<TrexBox, Trex>(alloc, codes::TREX, bytes, fields)
}

/// Writes the `trex` with `fields` to the front of `bytes`, and its length to `length` (ISO/IEC 14496-12, 8.8.3).
/// Returns the status.
#[unsafe(no_mangle)]
pub extern "C" fn mp4_write_trex(fields: &Trex, bytes: &mut [u8], length: &mut usize) -> u32
    ensures { PutsBox format_trex (trex_of fields.now) result bytes.old bytes.new length.old length.new }
{
    put_box(&trex_of(fields), bytes, length)
}

/// Fills `fields` with those of the `tfdt` at the front of `bytes`, the decoding time of the track fragment (ISO/IEC
/// 14496-12, 8.8.12). Returns the status.
#[unsafe(no_mangle)]
pub extern "C" fn mp4_tfdt(alloc: Global, bytes: &[u8], fields: &mut Tfdt) -> u32
    ensures { FillsStruct (front_box reads_tfdt codes.TFDT bytes.now) fields_tfdt result fields.old fields.new }
{
    fill_struct::<TfdtBox, Tfdt>(alloc, codes::TFDT, bytes, fields)
}

/// Writes the `tfdt` with `fields` to the front of `bytes`, and its length to `length` (ISO/IEC 14496-12, 8.8.12).
/// Returns the status.
#[unsafe(no_mangle)]
pub extern "C" fn mp4_write_tfdt(fields: &Tfdt, bytes: &mut [u8], length: &mut usize) -> u32
    ensures { PutsBox format_tfdt (tfdt_of fields.now) result bytes.old bytes.new length.old length.new }
{
    put_box(&tfdt_of(fields), bytes, length)
}
