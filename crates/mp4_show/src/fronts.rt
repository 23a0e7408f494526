//! Fields that are read from bytes: those that begin a box that holds boxes, those of sample entries of any code, and
//! those of a reference, with its text as it is.

ghost use Rattle.std.specs.Prelude.{◌≡◌, ◌≤◌, OnOk, length, slice_range};
ghost use Rattle.mp4_show.specs.FrontFields.{entry_fields, head_fields, list_fields, reference_fields};
ghost use Rattle.mp4_show.specs.FrontFields.{terminator_fields, usertype_fields, visual_fields};
ghost use Rattle.mp4_show.specs.Fronts.{compressor, location};
ghost use Rattle.mp4_shown.specs.Hands.{Hands};
ghost use Rattle.mp4_shown.specs.Members.{HandsMembers};

use crate::fields::URL;
use crate::row::{FULL, Part, field, put_members};
use mp4_frame::{u8_at, u16_at, u24_at, u32_at};
use mp4_shown::{FLAGS, FieldSink, NumberName, Result, VERSION, number};

/// Hands version and flags to a sink (ISO/IEC 14496-12, 4.2). They are the first 4 bytes of the content of a full box.
pub fn put_full_head<K: FieldSink>(bytes: &[u8], sink: &mut K) -> Result<()>
    requires { 4 ≤ length bytes.now }
    ensures fields { OnOk result (Hands K.trace K.after sink.old (head_fields bytes.now) sink.new) }
    ensures whole { OnOk result (HandsMembers K.trace K.after sink.old sink.new) }
{
    let parts = [Part::U8(u8_at(bytes, 0)), Part::U32(u24_at(bytes, 1))];
    put_members(FULL, &parts, sink)
}

/// The front of an `stsd` or a `dref`: version, flags and the number of boxes that it states (ISO/IEC 14496-12, 8.5.2
/// and 8.7.2).
const LIST: &[NumberName] = &[VERSION, FLAGS, number!("entry_count")];

/// Hands the fields before the boxes of an `stsd` or a `dref` to a sink. They are the first 8 bytes of its content.
pub fn put_list_head<K: FieldSink>(bytes: &[u8], sink: &mut K) -> Result<()>
    requires { 8 ≤ length bytes.now }
    ensures fields { OnOk result (Hands K.trace K.after sink.old (list_fields bytes.now) sink.new) }
    ensures whole { OnOk result (HandsMembers K.trace K.after sink.old sink.new) }
{
    let parts = [
        Part::U8(u8_at(bytes, 0)),
        Part::U32(u24_at(bytes, 1)),
        Part::U32(u32_at(bytes, 4)),
    ];
    put_members(LIST, &parts, sink)
}

/// The field that all sample entries have (ISO/IEC 14496-12, 8.5.2).
const ENTRY: &[NumberName] = &[number!("data_reference_index")];

/// Hands the field that all sample entries have to a sink. It ends at byte 8 of the content.
pub fn put_entry<K: FieldSink>(bytes: &[u8], sink: &mut K) -> Result<()>
    requires { 8 ≤ length bytes.now }
    ensures fields { OnOk result (Hands K.trace K.after sink.old (entry_fields bytes.now) sink.new) }
    ensures whole { OnOk result (HandsMembers K.trace K.after sink.old sink.new) }
{
    let parts = [Part::U16(u16_at(bytes, 6))];
    put_members(ENTRY, &parts, sink)
}

/// Returns the text of a compressor's name: a byte that says how long it is, and at most 31 bytes.
#[tactic(auto, unfolding(crate::specs::Fronts::compressor))]
fn compressor(bytes: &[u8]) -> &[u8]
    requires { 32 ≤ length bytes.now }
    ensures { result.now ≡ compressor bytes.now }
{
    let count = (bytes[0] as usize).min(31);
    &bytes[1..1 + count]
}

/// The common fields of a sample entry of video (ISO/IEC 14496-12, 12.1.3).
const VISUAL: &[NumberName] = &[
    number!("data_reference_index"),
    number!("width"),
    number!("height"),
    number!("horizresolution", Fixed(16)),
    number!("vertresolution", Fixed(16)),
    number!("frame_count"),
    field!("compressorname"),
    number!("depth"),
];

/// Returns the text of the compressor's name in the content of a sample entry of video.
fn compressor_of(bytes: &[u8]) -> &[u8]
    requires { 78 ≤ length bytes.now }
    ensures { result.now ≡ compressor (slice_range bytes.now 42 74) }
{
    compressor(&bytes[42..74])
}

/// Hands the common fields of a sample entry of video to a sink. They are the first 78 bytes of its content.
pub fn put_visual<K: FieldSink>(bytes: &[u8], sink: &mut K) -> Result<()>
    requires { 78 ≤ length bytes.now }
    ensures fields { OnOk result (Hands K.trace K.after sink.old (visual_fields bytes.now) sink.new) }
    ensures whole { OnOk result (HandsMembers K.trace K.after sink.old sink.new) }
{
    let parts = [
        Part::U16(u16_at(bytes, 6)),
        Part::U16(u16_at(bytes, 24)),
        Part::U16(u16_at(bytes, 26)),
        Part::U32(u32_at(bytes, 28)),
        Part::U32(u32_at(bytes, 32)),
        Part::U16(u16_at(bytes, 40)),
        Part::Text(compressor_of(bytes)),
        Part::U16(u16_at(bytes, 74)),
    ];
    put_members(VISUAL, &parts, sink)
}

/// Returns the location in the content of a `url `: the bytes after version and flags, up to the last byte, which ends
/// it.
#[tactic(auto, unfolding(crate::specs::Fronts::location))]
fn location(bytes: &[u8]) -> &[u8]
    requires { 4 ≤ length bytes.now }
    ensures { result.now ≡ location bytes.now }
{
    &bytes[4..(bytes.len() - 1).max(4)]
}

/// Hands the fields of a reference by a location to a sink (ISO/IEC 14496-12, 8.7.2), of which these bytes are the
/// content.
pub fn put_reference<K: FieldSink>(bytes: &[u8], sink: &mut K) -> Result<()>
    requires { 4 ≤ length bytes.now }
    ensures fields { OnOk result (Hands K.trace K.after sink.old (reference_fields bytes.now) sink.new) }
    ensures whole { OnOk result (HandsMembers K.trace K.after sink.old sink.new) }
{
    let parts = [
        Part::U8(u8_at(bytes, 0)),
        Part::U32(u24_at(bytes, 1)),
        Part::Text(location(bytes)),
    ];
    put_members(URL, &parts, sink)
}

/// The type of a `uuid` box (ISO/IEC 14496-12, 4.2).
const USERTYPE: &[NumberName] = &[field!("usertype")];

/// Hands `text`, the type of a `uuid` box, to a sink.
pub fn put_usertype<K: FieldSink>(text: &[u8], sink: &mut K) -> Result<()>
    ensures fields { OnOk result (Hands K.trace K.after sink.old (usertype_fields text.now) sink.new) }
    ensures whole { OnOk result (HandsMembers K.trace K.after sink.old sink.new) }
{
    let parts = [Part::Text(text)];
    put_members(USERTYPE, &parts, sink)
}

/// The four zero bytes that may end a box of QuickTime.
const TERMINATOR: &[NumberName] = &[number!("terminator")];

/// Hands the four zero bytes that may end a box of QuickTime to a sink, as a number.
pub fn put_terminator<K: FieldSink>(sink: &mut K) -> Result<()>
    ensures fields { OnOk result (Hands K.trace K.after sink.old terminator_fields sink.new) }
    ensures whole { OnOk result (HandsMembers K.trace K.after sink.old sink.new) }
{
    let parts = [Part::U32(0)];
    put_members(TERMINATOR, &parts, sink)
}
