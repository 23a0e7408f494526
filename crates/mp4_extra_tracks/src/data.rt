//! The metadata value box.

ghost use Rattle.mp4_extra_tracks.specs.ShownValue.{ValueNames as SeenNames, country_letters, is_country};
ghost use Rattle.mp4_extra_tracks.specs.ShownValue.{is_language, is_letter, kind_of, language_letters, seen_value};
ghost use Rattle.mp4_extra_tracks.specs.ShownValue.{shown_kind, shown_locale, shown_number_of, shown_value};
ghost use Rattle.mp4_extra_tracks.specs.ShownValue.{signed_in, signed_width, unsigned_width, whole_locale};
ghost use Rattle.mp4_extra_tracks.specs.ShownValue.{whole_value};
ghost use Rattle.mp4_extra_tracks.specs.declared.data.TheConstants.{NAMES};
ghost use Rattle.mp4_extra_tracks.specs.declared.data.ValueKind.TheVariants as kinds;
ghost use Rattle.mp4_frame.specs.declared.codes.TheConstants as codes;
ghost use Rattle.mp4_shown.specs.Event.{Text, seen_text, shown_of};
ghost use Rattle.mp4_shown.specs.Hands.{Hands};
ghost use Rattle.std.proofs.Common.{refl, lit<};
ghost use Rattle.std.specs.Prelude.{◌≡◌, ◌==◌, ◌||◌, true, OnOk, length};
ghost use Rattle.mp4_declared.specs.OwnBox.{layout_of};

mod taken;

use mp4_declared::{
    Declared, DeclaredBox, Last, Rest, Shape, ShapeVisitor, U8, U16, U24, box_of, parts_of,
};
use mp4_frame::{Entries, Result, TryClone, codes, i8_at, i16_at, i32_at, u64_at};
use mp4_shown::{
    BytesName, FieldSink, HasFields, Meaning, NamedBy, NamedShape, ShowShape, Value, View, number,
    number_at, put_bytes, run,
};

/// The value of a metadata item, of any type (`data`, QuickTime File Format, "Value atom").
#[derive(Debug, Drop, PartialEq, Eq)]
pub struct Data {
    /// The set of types that `data_type` belongs to: 0 for the well-known types.
    pub type_set: u8,
    /// The type of the value in its set, 24 bits. Well-known types are 0 for bytes of an unspecified type, 1 for text
    /// in UTF-8, 13 for a JPEG, 14 for a PNG, 21 for a signed number, and others.
    pub data_type: u32,
    /// The country that the value is for, as the two letters of ISO 3166; 0 for all countries. A number between 1 and
    /// 255 is the index of a list of countries.
    pub country: u16,
    /// The language that the value is for, as a packed code of ISO 639-2; 0 for all languages. A number between 1 and
    /// 255 is the index of a list of languages.
    pub language: u16,
    /// The bytes of the value.
    pub value: Entries<u8>,
}

/// The content of the box: a type indicator of two numbers, a locale indicator of two numbers, and bytes up to its end.
pub type DataShape = (U8, U24, U16, U16, Last<Rest>);

impl DeclaredBox for Data {
    ghost use Rattle.mp4_extra_tracks.specs.contracts.data.Data.{struct};

    type Shape = DataShape;

    ghost CODE = { codes.DATA };

    ghost layout = { layout_of struct (λ _. tt) (λ _. refl) (lit< tt) };

    const CODE: u32 = codes::DATA;

    fn from_content(found: <DataShape as Shape>::Value) -> Data {
        box_of!(found => Data { type_set, data_type, country, language, value })
    }

    fn visit<Q: ShapeVisitor<Self::Shape>>(&self, out: &mut [u8]) -> Q::Answer {
        let parts = parts_of!(self => type_set, data_type, country, language, value.as_slice());
        Q::visit(parts, out)
    }

    ghost valid = { refl };
}

/// The meanings of the well-known types (QuickTime File Format, "Well-known types").
pub const WELL_KNOWN_TYPES: &[Meaning] = &[
    (0, "binary"),
    (1, "text"),
    (2, "UTF-16 text"),
    (13, "JPEG"),
    (14, "PNG"),
    (21, "signed integer"),
    (22, "unsigned integer"),
    (23, "32-bit float"),
    (24, "64-bit float"),
    (27, "BMP"),
];

/// Returns whether `byte` is a letter of ASCII.
fn is_letter(byte: u8) -> bool
    ensures { result ≡ is_letter byte }
{
    (65 <= byte && byte <= 90) || (97 <= byte && byte <= 122)
}

/// Hands a part of a locale to a sink: its letters, if it has them, or its number. 0 is left out.
fn put_locale<K: FieldSink>(
    name: &'static str,
    code: u16,
    has_letters: bool,
    letters: &[u8],
    sink: &mut K,
) -> mp4_shown::Result<()>
    ensures { OnOk result (Hands K.trace K.after sink.old
        (shown_locale name.now code has_letters letters.now) sink.new) }
{
    if code == 0 {
        return Ok(());
    }
    if has_letters {
        sink.field(name, Value::Text(letters))
    } else {
        sink.field(name, Value::Number(u64::from(code)))
    }
}

/// A country as two letters, for showing only.
pub struct Country;

/// Returns the letters of a country.
fn country_letters(code: u16) -> [u8; 2]
    ensures { result ≡ country_letters code }
{
    [(code / 256) as u8, (code % 256) as u8]
}

/// Returns whether a country has letters.
fn is_country(code: u16) -> bool
    ensures { result ≡ is_country code }
{
    is_letter((code / 256) as u8) && is_letter((code % 256) as u8)
}

impl NamedShape for Country {
    type Value = u16;

    type Names = &'static str;

    ghost Seen = { Text };

    ghost seen = { seen_text };

    ghost shown = { λ name view c. shown_locale name.now c (is_country c) (country_letters c) };

    ghost whole = { λ name view c. whole_locale name.now c (is_country c) (country_letters c) };
}

impl ShowShape<u16> for Country {
    ghost content = { λ c. c };

    fn show<K: FieldSink>(
        name: &&'static str,
        _view: View,
        value: &u16,
        sink: &mut K,
    ) -> mp4_shown::Result<()> {
        put_locale(
            *name,
            *value,
            is_country(*value),
            &country_letters(*value),
            sink,
        )
    }
}

/// A language as three letters, for showing only.
pub struct Language;

/// Returns the letters of a language.
fn language_letters(code: u16) -> [u8; 3]
    ensures { result ≡ language_letters code }
{
    [
        96 + (code / 1024) as u8,
        96 + (code / 32 % 32) as u8,
        96 + (code % 32) as u8,
    ]
}

/// Returns whether a language has letters.
fn is_language(code: u16) -> bool
    ensures { result ≡ is_language code }
{
    is_letter(96 + (code / 1024) as u8)
        && is_letter(96 + (code / 32 % 32) as u8)
        && is_letter(96 + (code % 32) as u8)
}

impl NamedShape for Language {
    type Value = u16;

    type Names = &'static str;

    ghost Seen = { Text };

    ghost seen = { seen_text };

    ghost shown = { λ name view c. shown_locale name.now c (is_language c) (language_letters c) };

    ghost whole = { λ name view c. whole_locale name.now c (is_language c) (language_letters c) };
}

impl ShowShape<u16> for Language {
    ghost content = { λ c. c };

    fn show<K: FieldSink>(
        name: &&'static str,
        _view: View,
        value: &u16,
        sink: &mut K,
    ) -> mp4_shown::Result<()> {
        put_locale(
            *name,
            *value,
            is_language(*value),
            &language_letters(*value),
            sink,
        )
    }
}

/// The kind of a value.
#[derive(Clone, Copy, Drop)]
pub enum ValueKind {
    /// A text in UTF-8.
    Text,
    /// A signed number.
    Signed,
    /// An unsigned number.
    Unsigned,
    /// Bytes of another kind.
    Bytes,
}

/// Returns whether a number may have `count` bytes.
fn is_width(count: usize) -> bool
    ensures { result ≡ (count == 1 || (count == 2 || (count == 4 || count == 8))) }
{
    count == 1 || (count == 2 || (count == 4 || count == 8))
}

/// Returns the kind of a value of `count` bytes, of a type that is well-known if `is_known` is set.
fn kind_of(is_known: bool, data_type: u32, count: usize) -> ValueKind
    ensures kind { result ≡ kind_of is_known data_type count }
{
    if is_known && data_type == 1 {
        ValueKind::Text
    } else if is_known && (data_type == 21 && is_width(count)) {
        ValueKind::Signed
    } else if is_known && (data_type == 22 && is_width(count)) {
        ValueKind::Unsigned
    } else {
        ValueKind::Bytes
    }
}

/// Returns the signed number in 1, 2, 4 or 8 bytes.
fn signed_in(bytes: &[u8]) -> i64
    requires { (length bytes.now == 1 || (length bytes.now == 2 || (length bytes.now == 4 || length bytes.now == 8)))
        ≡ true }
    ensures { result ≡ signed_in bytes.now }
{
    if bytes.len() == 1 {
        i64::from(i8_at(bytes, 0))
    } else if bytes.len() == 2 {
        i64::from(i16_at(bytes, 0))
    } else if bytes.len() == 4 {
        i64::from(i32_at(bytes, 0))
    } else {
        u64_at(bytes, 0).cast_signed()
    }
}

/// Returns the number of bytes that a signed number has if they aren't shown.
fn signed_width(number: i64) -> usize
    ensures { result ≡ signed_width number }
{
    if -128 <= number && number <= 127 {
        1
    } else if -32768 <= number && number <= 32767 {
        2
    } else if -2147483648 <= number && number <= 2147483647 {
        4
    } else {
        8
    }
}

/// Returns the number of bytes that an unsigned number has if they aren't shown.
fn unsigned_width(number: u64) -> usize
    ensures { result ≡ unsigned_width number }
{
    if number <= 255 {
        1
    } else if number <= 65535 {
        2
    } else if number <= 4294967295 {
        4
    } else {
        8
    }
}

/// A value, after whether its type is well-known and its type, for showing only.
pub struct TypedValue;

/// The names of a text, of a number, of the bytes of a number, and of other bytes.
type ValueNames = (BytesName, (&'static str, (BytesName, BytesName)));

/// Hands a number to a sink, and its bytes unless they are `width`.
fn put_number_of<K: FieldSink>(
    names: ValueNames,
    rows: usize,
    value: Value<'static>,
    width: usize,
    bytes: &[u8],
    sink: &mut K,
) -> mp4_shown::Result<()>
    ensures { OnOk result (Hands K.trace K.after sink.old
        (shown_number_of (seen_value names.entry) rows (shown_of value.entry) width bytes.now) sink.new) }
{
    let (_, (number, (number_hex, _))) = names;
    sink.field(number, value)?;
    if width == bytes.len() {
        return Ok(());
    }
    put_bytes(number_hex, rows, bytes, sink)
}

/// Hands a value of this `kind` to a sink.
fn put_kind<K: FieldSink>(
    names: ValueNames,
    rows: usize,
    kind: ValueKind,
    bytes: &[u8],
    sink: &mut K,
) -> mp4_shown::Result<()>
    requires signed { kind ≡ kinds.Signed → (length bytes.now == 1 || (length bytes.now == 2
        || (length bytes.now == 4 || length bytes.now == 8))) ≡ true }
    requires unsigned { kind ≡ kinds.Unsigned → (length bytes.now == 1 || (length bytes.now == 2
        || (length bytes.now == 4 || length bytes.now == 8))) ≡ true }
    ensures { OnOk result (Hands K.trace K.after sink.old
        (shown_kind (seen_value names.entry) rows kind bytes.now) sink.new) }
{
    match kind {
        ValueKind::Text => put_bytes(names.0, rows, bytes, sink),
        ValueKind::Signed => {
            let number = signed_in(bytes);
            put_number_of(
                names,
                rows,
                Value::Signed(number),
                signed_width(number),
                bytes,
                sink,
            )
        }
        ValueKind::Unsigned => {
            let number = number_at(bytes, 0, bytes.len());
            put_number_of(
                names,
                rows,
                Value::Number(number),
                unsigned_width(number),
                bytes,
                sink,
            )
        }
        ValueKind::Bytes => put_bytes(names.1.1.1, rows, bytes, sink),
    }
}

impl NamedShape for TypedValue {
    type Value = (bool, (u32, Entries<u8>));

    type Names = ValueNames;

    ghost Seen = { SeenNames };

    ghost seen = { seen_value };

    ghost shown = { λ names view v. shown_value names view.rows v };

    ghost whole = { λ names view v. whole_value names view.rows v };
}

impl<'a> ShowShape<(bool, (u32, &'a [u8]))> for TypedValue {
    ghost content = { λ v. (v.0, (v.1.0, v.1.1.now)) };

    fn show<K: FieldSink>(
        names: &Self::Names,
        view: View,
        value: &(bool, (u32, &'a [u8])),
        sink: &mut K,
    ) -> mp4_shown::Result<()> {
        let (is_known, (data_type, bytes)) = *value;
        let kind = kind_of(is_known, data_type, bytes.len());
        put_kind(*names, view.rows, kind, bytes, sink)
    }
}

/// The content of the box, for showing only. A type of another set than the well-known ones has no meaning.
type DataShown = (U8, NamedBy<U24>, Country, Language, TypedValue);

/// The names of the fields.
const NAMES: &<DataShown as NamedShape>::Names = &(
    number!("type_set", Reserved(0)),
    (
        (
            number!("data_type", Named, WELL_KNOWN_TYPES),
            number!("data_type"),
        ),
        (
            "country",
            (
                "language",
                (
                    run!("text", Text),
                    (
                        "number",
                        (run!("number_hex", Bytes), run!("data_bytes", Bytes)),
                    ),
                ),
            ),
        ),
    ),
);

impl HasFields for Data {
    ghost shown = { λ view b. ⟦<DataShown as NamedShape>⟧.shown NAMES.now view (
      b.type_set,
      ((b.type_set == 0, b.data_type), (b.country, (b.language, (b.type_set == 0, (b.data_type, b.value))))),
    ) };

    ghost whole = { λ view b. ⟦<DataShown as NamedShape>⟧.whole NAMES.now view (
      b.type_set,
      ((b.type_set == 0, b.data_type), (b.country, (b.language, (b.type_set == 0, (b.data_type, b.value))))),
    ) };

    fn show<K: FieldSink>(&self, view: View, sink: &mut K) -> mp4_shown::Result<()> {
        let is_known = self.type_set == 0;
        let value = (is_known, (self.data_type, self.value.as_slice()));
        let locale = (self.country, (self.language, value));
        let parts = (self.type_set, ((is_known, self.data_type), locale));
        DataShown::show(NAMES, view, &parts, sink)
    }
}

impl TryClone for Data {
    fn try_clone(&self) -> Result<Data> {
        let value = self.value.try_clone()?;
        Ok(Data { value, ..*self })
    }
}

/// The metadata value box.
pub type DataBox = Declared<Data>;
