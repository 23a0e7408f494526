//! The fields of sample entries of sound of any code, which are read from bytes.

ghost use Rattle.std.specs.Prelude.{◌≡◌, ◌≤◌, ◌∷◌, OnOk, codes, length};
ghost use Rattle.mp4_show.specs.FrontFields.{sound_fields};
ghost use Rattle.mp4_show.specs.Row.{shown_row};
ghost use Rattle.mp4_show.specs.SoundFront.{first_row, second_row, shown_first, shown_second, shown_sound};
ghost use Rattle.mp4_show.specs.SoundFront.{version_of};
ghost use Rattle.mp4_show.specs.declared.sound_front.TheConstants.{COMMON, FIRST, SECOND};
ghost use Rattle.mp4_shown.specs.Event.{field, shown_of};
ghost use Rattle.mp4_shown.specs.Hands.{Hands};
ghost use Rattle.mp4_shown.specs.Members.{HandsMembers};
ghost use Rattle.mp4_shown.specs.declared.value.Value.{Value as AValue};

use crate::row::{Part, put_row};
use mp4_frame::{u16_at, u32_at, u64_at};
use mp4_shown::{FieldSink, NumberName, Result, Value, number};
use ryu::Buffer;
use std::num::f64_from_bits_with_nan;

/// The common fields of a sample entry of sound (ISO/IEC 14496-12, 12.2.3), with QuickTime's version.
const COMMON: &[NumberName] = &[
    number!("data_reference_index"),
    number!("version"),
    number!("channelcount"),
    number!("samplesize"),
    number!("samplerate", Fixed(16)),
];

/// The fields of QuickTime's version 1 after the common ones.
const FIRST: &[NumberName] = &[
    number!("samples_per_packet"),
    number!("bytes_per_packet"),
    number!("bytes_per_frame"),
    number!("bytes_per_sample"),
];

/// The fields of QuickTime's version 2 after the common ones and the rate, as that version spells them.
const SECOND: &[NumberName] = &[
    number!("numAudioChannels"),
    number!("constBitsPerChannel"),
    number!("formatSpecificFlags", Flags(8)),
    number!("constBytesPerAudioPacket"),
    number!("constLPCMFramesPerAudioPacket"),
];

/// Returns the version, if it is wanted.
#[tactic(auto, unfolding(crate::specs::SoundFront::version_of))]
fn version_of(quicktime: bool, bytes: &[u8]) -> Option<u32>
    requires { 28 ≤ length bytes.now }
    ensures { result ≡ version_of quicktime bytes.now }
{
    if quicktime {
        Some(u32::from(u16_at(bytes, 8)))
    } else {
        None
    }
}

/// Returns the number in the 8 bytes of IEEE 754 at offset 32, or the bytes if they are no finite number. The decimal
/// of the number is written to `buffer`. Returns no bytes if there are fewer.
fn rate_of<'a>(bytes: &'a [u8], buffer: &'a mut Buffer) -> Value<'a> {
    if bytes.len() < 40 {
        return Value::Bytes(&[]);
    }
    let number = f64_from_bits_with_nan(u64_at(bytes, 32));
    if number.is_finite() {
        Value::Float(number, buffer.format_finite(number))
    } else {
        Value::Bytes(&bytes[32..40])
    }
}

/// Hands the fields of QuickTime's version 1 to a sink.
fn put_first_row<K: FieldSink>(bytes: &[u8], sink: &mut K) -> Result<()>
    requires { 44 ≤ length bytes.now }
    ensures { OnOk result (Hands K.trace K.after sink.old (shown_row FIRST.now (first_row bytes.now)) sink.new) }
{
    let parts = [
        Part::U32(u32_at(bytes, 28)),
        Part::U32(u32_at(bytes, 32)),
        Part::U32(u32_at(bytes, 36)),
        Part::U32(u32_at(bytes, 40)),
    ];
    put_row(FIRST, &parts, sink)
}

/// Hands the fields of QuickTime's version 2 after the rate to a sink.
fn put_second_row<K: FieldSink>(bytes: &[u8], sink: &mut K) -> Result<()>
    requires { 64 ≤ length bytes.now }
    ensures { OnOk result (Hands K.trace K.after sink.old (shown_row SECOND.now (second_row bytes.now)) sink.new) }
{
    let parts = [
        Part::U32(u32_at(bytes, 40)),
        Part::U32(u32_at(bytes, 48)),
        Part::U32(u32_at(bytes, 52)),
        Part::U32(u32_at(bytes, 56)),
        Part::U32(u32_at(bytes, 60)),
    ];
    put_row(SECOND, &parts, sink)
}

/// Hands this `rate` and the other fields of QuickTime's version 2 to a sink.
fn put_rate<K: FieldSink>(bytes: &[u8], rate: Value<'_>, sink: &mut K) -> Result<()>
    requires { 64 ≤ length bytes.now }
    ensures { OnOk result (Hands K.trace K.after sink.old
        (field (codes "audioSampleRate") (shown_of rate.entry) ∷ shown_row SECOND.now (second_row bytes.now))
        sink.new) }
{
    sink.field("audioSampleRate", rate)?;
    put_second_row(bytes, sink)
}

/// Hands the fields of QuickTime's version 1 to a sink, if the entry has them.
#[tactic(auto, unfolding(crate::specs::SoundFront::has_first))]
fn put_first<K: FieldSink>(bytes: &[u8], quicktime: bool, sink: &mut K) -> Result<()>
    requires { 28 ≤ length bytes.now }
    ensures { OnOk result (Hands K.trace K.after sink.old (shown_first FIRST.now quicktime bytes.now) sink.new) }
{
    if quicktime && u16_at(bytes, 8) == 1 && bytes.len() >= 44 {
        put_first_row(bytes, sink)
    } else {
        Ok(())
    }
}

/// Hands the fields of QuickTime's version 2 to a sink, if the entry has them, with this `rate`.
#[tactic(auto, unfolding(crate::specs::SoundFront::has_second))]
fn put_second<K: FieldSink>(
    bytes: &[u8],
    quicktime: bool,
    rate: Value<'_>,
    sink: &mut K,
) -> Result<()>
    requires { 28 ≤ length bytes.now }
    ensures { OnOk result (Hands K.trace K.after sink.old
        (shown_second SECOND.now quicktime bytes.now (shown_of rate.entry)) sink.new) }
{
    if quicktime && u16_at(bytes, 8) == 2 && bytes.len() >= 64 {
        put_rate(bytes, rate, sink)
    } else {
        Ok(())
    }
}

/// Hands the fields of a sample entry of sound to a sink, with this `rate` for QuickTime's version 2.
fn put_with_rate<K: FieldSink>(
    bytes: &[u8],
    quicktime: bool,
    rate: Value<'_>,
    sink: &mut K,
) -> Result<()>
    requires { 28 ≤ length bytes.now }
    ensures { OnOk result (Hands K.trace K.after sink.old
        (shown_sound COMMON.now FIRST.now SECOND.now quicktime bytes.now (shown_of rate.entry)) sink.new) }
{
    let parts = [
        Part::U16(u16_at(bytes, 6)),
        Part::SomeU32(version_of(quicktime, bytes)),
        Part::U16(u16_at(bytes, 16)),
        Part::U16(u16_at(bytes, 18)),
        Part::U32(u32_at(bytes, 24)),
    ];
    put_row(COMMON, &parts, sink)?;
    put_first(bytes, quicktime, sink)?;
    put_second(bytes, quicktime, rate, sink)
}

/// Hands the fields of a sample entry of sound to a sink. The common ones are the first 28 bytes of its content. Those
/// of QuickTime's versions 1 and 2 are handed over if `quicktime` is true. No clause says how the rate of version 2 is
/// written.
pub fn put_sound<K: FieldSink>(bytes: &[u8], quicktime: bool, sink: &mut K) -> Result<()>
    requires { 28 ≤ length bytes.now }
    ensures fields { OnOk result ((rate : AValue) × Hands K.trace K.after sink.old
        (sound_fields quicktime bytes.now (shown_of rate)) sink.new) }
    ensures whole { OnOk result (HandsMembers K.trace K.after sink.old sink.new) }
{
    let mut buffer = Buffer::new();
    let rate = rate_of(bytes, &mut buffer);
    put_with_rate(bytes, quicktime, rate, sink)
}
