//! Rows of fields: the names of a box's fields, and its values beside them. A row is handed over by one call, which is
//! proved once.

ghost use Rattle.std.specs.Prelude.{◌≡◌, OnOk, if◌then◌else◌, map};
ghost use Rattle.mp4_show.specs.Row.{group_if, matrix, resolution, row_entry, seen_part, shown_part, shown_row};
ghost use Rattle.mp4_shown.specs.Hands.{Hands};
ghost use Rattle.mp4_shown.specs.Members.{HandsMembers};
ghost use Rattle.mp4_shown.specs.Numbers.{seen_number};
ghost use Rattle.mp4_shown.specs.Shapes.{shown_group};

use crate::box_fields::BoxFields;
use crate::language::language_value;
use crate::value::matrix_of;
use mp4_shown::{
    FLAGS, FieldSink, NumberName, Result, VERSION, Value, View, put_number, put_signed,
};
use mp4_stream::{FourCC, Matrix};

/// Writes the name of a field that is no number: `field!("matrix")`.
macro_rules! field {
    ($name:expr) => {
        ($name, mp4_shown::NumberAs::Plain, &[])
    };
}

pub(crate) use field;

/// The names of version and flags.
pub(crate) const FULL: &[NumberName] = &[VERSION, FLAGS];

/// The value of a field in a row. Numbers are shown as their names say.
#[derive(Clone, Copy)]
pub(crate) enum Part<'a> {
    /// A number of 8 bits.
    U8(u8),
    /// A number of 16 bits.
    U16(u16),
    /// A number of at most 32 bits.
    U32(u32),
    /// A number of at most 64 bits.
    U64(u64),
    /// A number of 8 bits that may be negative.
    I8(i8),
    /// A number of 16 bits that may be negative.
    I16(i16),
    /// A number of 32 bits that may be negative.
    I32(i32),
    /// A number of 32 bits that is left out if it is absent.
    SomeU32(Option<u32>),
    /// A number of 64 bits that is left out if it is absent.
    SomeU64(Option<u64>),
    /// A number of 32 bits that may be negative, and is left out if it is absent.
    SomeI32(Option<i32>),
    /// A flag, which is shown as 0 or 1.
    Bit(bool),
    /// Bytes.
    Bytes(&'a [u8]),
    /// Bytes that are meant as a text.
    Text(&'a [u8]),
    /// A code of four characters.
    Code(FourCC),
    /// Codes of four characters.
    Codes(&'a [FourCC]),
    /// The time in its media at which an edit begins.
    MediaTime(i64),
    /// A resolution of 16.16 bits, as its whole part and its fraction.
    Resolution((u16, u16)),
    /// A few numbers, one after the other.
    Numbers(&'a [i16]),
    /// The letters of a language.
    Language(&'a str),
    /// The transformation of a video.
    Matrix(&'a Matrix),
}

/// Returns `flag` as 0 or 1.
fn bit_of(flag: bool) -> u64
    ensures { result ≡ (if flag then 1 else 0) }
{
    if flag { 1 } else { 0 }
}

/// Hands a resolution to a sink.
fn put_resolution<K: FieldSink>(name: NumberName, whole: u16, part: u16, sink: &mut K) -> Result<()>
    ensures { OnOk result (Hands K.trace K.after sink.old
        (shown_part (seen_number name.entry) (resolution (whole, part))) sink.new) }
{
    let raw = u64::from(whole) * 65_536 + u64::from(part);
    sink.field(name.0, Value::Fixed(raw, 16))
}

/// Hands a transformation to a sink.
fn put_matrix<K: FieldSink>(name: NumberName, m: &Matrix, sink: &mut K) -> Result<()>
    ensures { OnOk result (Hands K.trace K.after sink.old
        (shown_part (seen_number name.entry) (matrix m.now)) sink.new) }
{
    let value = matrix_of(m);
    sink.field(name.0, Value::Matrix(&value))
}

/// Hands a field to a sink.
fn put_part<K: FieldSink>(name: NumberName, part: Part<'_>, sink: &mut K) -> Result<()>
    ensures { OnOk result (Hands K.trace K.after sink.old
        (shown_part (seen_number name.entry) (seen_part part.entry)) sink.new) }
{
    match part {
        Part::U8(number) => put_number(name, u64::from(number), sink),
        Part::U16(number) => put_number(name, u64::from(number), sink),
        Part::U32(number) => put_number(name, u64::from(number), sink),
        Part::U64(number) => put_number(name, number, sink),
        Part::I8(number) => put_signed(name, i64::from(number), sink),
        Part::I16(number) => put_signed(name, i64::from(number), sink),
        Part::I32(number) => put_signed(name, i64::from(number), sink),
        Part::SomeU32(Some(number)) => put_number(name, u64::from(number), sink),
        Part::SomeU64(Some(number)) => put_number(name, number, sink),
        Part::SomeI32(Some(number)) => put_signed(name, i64::from(number), sink),
        Part::SomeU32(None) | Part::SomeU64(None) | Part::SomeI32(None) => Ok(()),
        Part::Bit(flag) => put_number(name, bit_of(flag), sink),
        Part::Bytes(bytes) => sink.field(name.0, Value::Bytes(bytes)),
        Part::Text(text) => sink.field(name.0, Value::Text(text)),
        Part::Code(code) => sink.field(name.0, Value::Code(code)),
        Part::Codes(codes) => sink.field(name.0, Value::Codes(codes)),
        Part::MediaTime(time) => sink.field(name.0, Value::MediaTime(time)),
        Part::Resolution((whole, part)) => put_resolution(name, whole, part, sink),
        Part::Numbers(numbers) => sink.field(name.0, Value::Numbers(numbers)),
        Part::Language(letters) => sink.field(name.0, language_value(letters)),
        Part::Matrix(m) => put_matrix(name, m, sink),
    }
}

/// Hands `parts` to a sink, each by the name of its place.
pub(crate) fn put_row<K: FieldSink>(
    names: &[NumberName],
    parts: &[Part<'_>],
    sink: &mut K,
) -> Result<()>
    ensures { OnOk result (Hands K.trace K.after sink.old
        (shown_row (map seen_number names.now) (map seen_part parts.now)) sink.new) }
{
    for i in 0..names.len().min(parts.len()) {
        put_part(names[i], parts[i], sink)?;
    }
    Ok(())
}

/// Hands `parts` to a sink, each by the name of its place. They are whole members.
pub(crate) fn put_members<K: FieldSink>(
    names: &[NumberName],
    parts: &[Part<'_>],
    sink: &mut K,
) -> Result<()>
    ensures fields { OnOk result (Hands K.trace K.after sink.old
        (shown_row (map seen_number names.now) (map seen_part parts.now)) sink.new) }
    ensures whole { OnOk result (HandsMembers K.trace K.after sink.old sink.new) }
{
    put_row(names, parts, sink)
}

/// Hands an entry with these `parts` to a sink, each by the name of its place.
pub(crate) fn put_entry_row<K: FieldSink>(
    names: &[NumberName],
    parts: &[Part<'_>],
    sink: &mut K,
) -> Result<()>
    ensures { OnOk result (Hands K.trace K.after sink.old
        (row_entry (map seen_number names.now) (map seen_part parts.now)) sink.new) }
{
    sink.begin_entry()?;
    put_row(names, parts, sink)?;
    sink.end_entry()
}

/// Hands the fields of `fields` to a sink, as members of one field.
pub(crate) fn put_group<B: BoxFields, K: FieldSink>(
    name: &'static str,
    fields: &B,
    view: View,
    sink: &mut K,
) -> Result<()>
    ensures { OnOk result (Hands K.trace K.after sink.old
        (shown_group name.now (B.shown view fields.now)) sink.new) }
{
    sink.begin_group(name)?;
    fields.show(view, sink)?;
    sink.end_group()
}

/// Hands the fields of `fields` to a sink, as members of one field, if it is present.
pub(crate) fn put_group_if<B: BoxFields, K: FieldSink>(
    name: &'static str,
    fields: &Option<B>,
    view: View,
    sink: &mut K,
) -> Result<()>
    ensures { OnOk result (Hands K.trace K.after sink.old
        (group_if name.now (B.shown view) fields.now) sink.new) }
{
    match fields {
        Some(fields) => put_group(name, fields, view, sink),
        None => Ok(()),
    }
}
