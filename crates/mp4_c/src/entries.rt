//! Reads the boxes of `mp4_entries`: sample entries of video and subtitles, and the boxes inside them.

ghost use Rattle.mp4_frame.specs.declared.codes.TheConstants as codes;
ghost use Rattle.mp4_c_boxes.specs.Avc.{fields_avc1, fields_avcc, sets_avcc};
ghost use Rattle.mp4_c_boxes.specs.Calls.{CopiesParts, FillsStruct};
ghost use Rattle.mp4_c_boxes.specs.Hevc.{fields_hev1, fields_hvcc};
ghost use Rattle.mp4_c_boxes.specs.Sets.{FillsSets};
ghost use Rattle.mp4_c_boxes.specs.Tx3g.{fields_tx3g};
ghost use Rattle.mp4_c_boxes.specs.Vp9.{fields_vp09, fields_vpcc};
ghost use Rattle.mp4_frame.specs.WholeBox.{front_box};
ghost use Rattle.mp4_stream.specs.Boxes.{reads_avc1, reads_avcc, reads_hev1, reads_hvcc, reads_tx3g, reads_vp09};
ghost use Rattle.mp4_stream.specs.Boxes.{reads_vpcc};

use mp4_c_boxes::avc::{Avc1, Avcc};
use mp4_c_boxes::hevc::{Hev1, Hvcc};
use mp4_c_boxes::sets::copy_box_sets;
use mp4_c_boxes::to_struct::fill_struct;
use mp4_c_boxes::tx3g::Tx3g;
use mp4_c_boxes::vp9::{Vp09, Vpcc};
use mp4_frame::codes;
use mp4_stream::{Avc1Box, AvcCBox, Hev1Box, HvcCBox, Tx3gBox, Vp09Box, VpccBox};
use std::alloc::Global;

/// Fills `fields` with those of the `avc1` at the front of `bytes`, the sample entry of AVC video (ISO/IEC 14496-15,
/// 5.4.2). Copies its parameter sets: their lengths to `lengths`, and their bytes to `set_bytes`. Returns the status.
#[unsafe(no_mangle)]
pub extern "C" fn mp4_avc1(
    alloc: Global,
    bytes: &[u8],
    lengths: &mut [usize],
    set_bytes: &mut [u8],
    fields: &mut Avc1,
) -> u32
    ensures { CopiesParts (front_box reads_avc1 codes.AVC1 bytes.now) fields_avc1 (λ v. sets_avcc v.avcc) FillsSets
        result fields.old fields.new (record { lengths = lengths.old; bytes = set_bytes.old })
        (record { lengths = lengths.new; bytes = set_bytes.new }) }
{
    copy_box_sets::<Avc1Box, Avc1>(alloc, codes::AVC1, bytes, lengths, set_bytes, fields)
}

/// Fills `fields` with those of the `avcC` at the front of `bytes`, the AVC decoder configuration (ISO/IEC 14496-15,
/// 5.3.3.1). Copies its parameter sets: their lengths to `lengths`, and their bytes to `set_bytes`. Returns the status.
#[unsafe(no_mangle)]
pub extern "C" fn mp4_avcc(
    alloc: Global,
    bytes: &[u8],
    lengths: &mut [usize],
    set_bytes: &mut [u8],
    fields: &mut Avcc,
) -> u32
    ensures { CopiesParts (front_box reads_avcc codes.AVCC bytes.now) fields_avcc sets_avcc FillsSets result
        fields.old fields.new (record { lengths = lengths.old; bytes = set_bytes.old })
        (record { lengths = lengths.new; bytes = set_bytes.new }) }
{
    copy_box_sets::<AvcCBox, Avcc>(alloc, codes::AVCC, bytes, lengths, set_bytes, fields)
}

/// Fills `fields` with those of the `hev1` at the front of `bytes`, the sample entry of HEVC video (ISO/IEC 14496-15,
/// 8.4.1). Returns the status.
#[unsafe(no_mangle)]
pub extern "C" fn mp4_hev1(alloc: Global, bytes: &[u8], fields: &mut Hev1) -> u32
    ensures { FillsStruct (front_box reads_hev1 codes.HEV1 bytes.now) fields_hev1 result fields.old fields.new }
{
    fill_struct::<Hev1Box, Hev1>(alloc, codes::HEV1, bytes, fields)
}

/// Fills `fields` with those of the `hvcC` at the front of `bytes`, the HEVC decoder configuration (ISO/IEC 14496-15,
/// 8.3.3.1). The codec reads one of its fields. Returns the status.
#[unsafe(no_mangle)]
pub extern "C" fn mp4_hvcc(alloc: Global, bytes: &[u8], fields: &mut Hvcc) -> u32
    ensures { FillsStruct (front_box reads_hvcc codes.HVCC bytes.now) fields_hvcc result fields.old fields.new }
{
    fill_struct::<HvcCBox, Hvcc>(alloc, codes::HVCC, bytes, fields)
}

/// Fills `fields` with those of the `vp09` at the front of `bytes`, the sample entry of VP9 video (VP Codec ISO Media
/// File Format Binding). Returns the status.
#[unsafe(no_mangle)]
pub extern "C" fn mp4_vp09(alloc: Global, bytes: &[u8], fields: &mut Vp09) -> u32
    ensures { FillsStruct (front_box reads_vp09 codes.VP09 bytes.now) fields_vp09 result fields.old fields.new }
{
    fill_struct::<Vp09Box, Vp09>(alloc, codes::VP09, bytes, fields)
}

/// Fills `fields` with those of the `vpcC` at the front of `bytes`, the VP9 decoder configuration (VP Codec ISO Media
/// File Format Binding). Returns the status.
#[unsafe(no_mangle)]
pub extern "C" fn mp4_vpcc(alloc: Global, bytes: &[u8], fields: &mut Vpcc) -> u32
    ensures { FillsStruct (front_box reads_vpcc codes.VPCC bytes.now) fields_vpcc result fields.old fields.new }
{
    fill_struct::<VpccBox, Vpcc>(alloc, codes::VPCC, bytes, fields)
}

/// Fills `fields` with those of the `tx3g` at the front of `bytes`, the sample entry of timed text (3GPP TS 26.245,
/// 5.16). Returns the status.
#[unsafe(no_mangle)]
pub extern "C" fn mp4_tx3g(alloc: Global, bytes: &[u8], fields: &mut Tx3g) -> u32
    ensures { FillsStruct (front_box reads_tx3g codes.TX3G bytes.now) fields_tx3g result fields.old fields.new }
{
    fill_struct::<Tx3gBox, Tx3g>(alloc, codes::TX3G, bytes, fields)
}
