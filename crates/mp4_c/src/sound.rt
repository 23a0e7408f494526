//! Reads and writes the boxes of `mp4_sound`: MPEG-4 audio and sample descriptions.

ghost use Rattle.mp4_frame.specs.declared.codes.TheConstants as codes;
ghost use Rattle.mp4_c_boxes.specs.Calls.{CopiesParts, FillsStruct};
ghost use Rattle.mp4_c_boxes.specs.Audio.{fields_esds, fields_mp4a};
ghost use Rattle.mp4_c_boxes.specs.Sets.{FillsSets};
ghost use Rattle.mp4_c_boxes.specs.Stsd.{PutsStsd, fields_stsd, sets_stsd};
ghost use Rattle.mp4_frame.specs.WholeBox.{front_box};
ghost use Rattle.mp4_stream.specs.Boxes.{reads_esds, reads_mp4a, reads_stsd};

use mp4_c_boxes::audio::{Esds, Mp4a};
use mp4_c_boxes::sets::copy_box_sets;
use mp4_c_boxes::stsd::{Stsd, write_stsd};
use mp4_c_boxes::to_struct::fill_struct;
use mp4_frame::codes;
use mp4_stream::{EsdsBox, Mp4aBox, StsdBox};
use std::alloc::Global;

/// Fills `fields` with those of the `mp4a` at the front of `bytes`, the sample entry of MPEG-4 audio (ISO/IEC 14496-14,
/// 5.6). Returns the status.
#[unsafe(no_mangle)]
pub extern "C" fn mp4_mp4a(alloc: Global, bytes: &[u8], fields: &mut Mp4a) -> u32
    ensures { FillsStruct (front_box reads_mp4a codes.MP4A bytes.now) fields_mp4a result fields.old fields.new }
{
    fill_struct::<Mp4aBox, Mp4a>(alloc, codes::MP4A, bytes, fields)
}

/// Fills `fields` with those of the `esds` at the front of `bytes`, the descriptors of the stream (ISO/IEC 14496-14,
/// 5.6). Returns the status.
#[unsafe(no_mangle)]
pub extern "C" fn mp4_esds(alloc: Global, bytes: &[u8], fields: &mut Esds) -> u32
    ensures { FillsStruct (front_box reads_esds codes.ESDS bytes.now) fields_esds result fields.old fields.new }
{
    fill_struct::<EsdsBox, Esds>(alloc, codes::ESDS, bytes, fields)
}

/// Fills `fields` with those of the `stsd` at the front of `bytes` and of its first sample entry (ISO/IEC 14496-12,
/// 8.5.2). Copies its parameter sets: their lengths to `lengths`, and their bytes to `set_bytes`. Returns the status.
#[unsafe(no_mangle)]
pub extern "C" fn mp4_stsd(
    alloc: Global,
    bytes: &[u8],
    lengths: &mut [usize],
    set_bytes: &mut [u8],
    fields: &mut Stsd,
) -> u32
    ensures { CopiesParts (front_box reads_stsd codes.STSD bytes.now) fields_stsd sets_stsd FillsSets result
        fields.old fields.new (record { lengths = lengths.old; bytes = set_bytes.old })
        (record { lengths = lengths.new; bytes = set_bytes.new }) }
{
    copy_box_sets::<StsdBox, Stsd>(alloc, codes::STSD, bytes, lengths, set_bytes, fields)
}

/// Writes the `stsd` with `fields`, which has one entry or none, to the front of `bytes`, and its length to `length`
/// (ISO/IEC 14496-12, 8.5.2). An `avc1` gets the parameter sets of `lengths` and `set_bytes`. Returns the status.
#[unsafe(no_mangle)]
pub extern "C" fn mp4_write_stsd(
    alloc: Global,
    fields: &Stsd,
    lengths: &[usize],
    set_bytes: &[u8],
    bytes: &mut [u8],
    length: &mut usize,
) -> u32
    ensures { PutsStsd fields.now lengths.now set_bytes.now result bytes.old bytes.new length.old length.new }
{
    write_stsd(alloc, fields, lengths, set_bytes, bytes, length)
}
