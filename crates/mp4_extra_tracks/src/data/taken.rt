//! Takes the box back out of its JSON.

ghost use Rattle.std.specs.Prelude.{◌≡◌, ◌≤◌, true, IfOk, IfSome, IsTrue, length, option_map};
ghost use Rattle.json.specs.Value.{value_view};
ghost use Rattle.mp4_frame.specs.Bytes.{be_bytes};
ghost use Rattle.mp4_extra_tracks.specs.ShownValue.{is_letter};
ghost use Rattle.mp4_extra_tracks.specs.declared.data.TheConstants as data_box;
ghost use Rattle.mp4_shown.specs.Object.{left};
ghost use Rattle.mp4_extra_tracks.specs.TakenData.{bytes_or_missing, code_by, country_of, data_taken, is_lower};
ghost use Rattle.mp4_extra_tracks.specs.TakenData.{is_same, is_width, language_of, locale_taken, number_if, number_in};
ghost use Rattle.mp4_extra_tracks.specs.TakenData.{number_in_hex, number_of, number_or_bytes, number_taken_by};
ghost use Rattle.mp4_extra_tracks.specs.TakenData.{usual_bytes};
ghost use Rattle.mp4_extra_tracks.specs.TakenData.{value_taken};
ghost use Rattle.mp4_shown.specs.Taking.{TakesAs};

use super::{Data, signed_in, signed_width, unsigned_width};
use crate::data;
use json::Value;
use mp4_declared::{U8, U24};
use mp4_frame::Entries;
use mp4_shown::number_at;
use mp4_shown::taken::integer::unsigned_in;
use mp4_shown::taken::{
    NO_CONTEXT, Object, Reason, Result, TakeFields, TakeShape, hex_in, integer, push_number,
    refuse, take_bytes, take_named_by,
};
use std::alloc::Global;

/// The two letters of a country, or the three of a language.
#[derive(Clone, Copy)]
enum Locale {
    Country,
    Language,
}

/// Returns whether `byte` is a small letter of ASCII.
fn is_lower(byte: u8) -> bool
    ensures value { result ≡ is_lower byte }
    ensures range { result ≡ true → (97 ≤ byte) × (byte ≤ 122) }
{
    97 <= byte && byte <= 122
}

/// Returns whether `byte` is a letter of ASCII.
fn is_letter(byte: u8) -> bool
    ensures { result ≡ is_letter byte }
{
    (65 <= byte && byte <= 90) || (97 <= byte && byte <= 122)
}

/// Returns the number of the country with the two letters `text`, or `None` if they aren't two.
fn country_of(text: &[u8]) -> Option<u16>
    ensures { result ≡ country_of text.now }
{
    if text.len() == 2 && is_letter(text[0]) && is_letter(text[1]) {
        Some(u16::from(text[0]) * 256 + u16::from(text[1]))
    } else {
        None
    }
}

/// Returns the packed code of the language with the three letters `text`, or `None` if they aren't three.
fn language_of(text: &[u8]) -> Option<u16>
    ensures { result ≡ language_of text.now }
{
    if text.len() == 3 && is_lower(text[0]) && is_lower(text[1]) && is_lower(text[2]) {
        let front = u16::from(text[0] - 96) * 1024 + u16::from(text[1] - 96) * 32;
        Some(front + u16::from(text[2] - 96))
    } else {
        None
    }
}

/// Returns the number of a part of a locale with the letters `text`, or `None` if they aren't letters of one.
fn code_of(locale: Locale, text: &[u8]) -> Option<u16>
    ensures { result ≡ code_by locale text.now }
{
    match locale {
        Locale::Country => country_of(text),
        Locale::Language => language_of(text),
    }
}

/// Takes a part of a locale out: its letters, or its number. 0 is absent.
fn take_locale(alloc: Global, name: &str, locale: Locale, object: &mut Object<'_>) -> Result<u16>
    ensures { TakesAs (λ n. (n, left object.new)) result (locale_taken name.now (code_by locale) (left object.old)) }
{
    let Some(value) = object.take_out(alloc, name)? else {
        return Ok(0);
    };
    if let Some(text) = value.as_str() {
        return match code_of(locale, text.as_bytes()) {
            Some(code) => Ok(code),
            None => Err(refuse(alloc, name, Reason::OutOfRange)),
        };
    }
    let Some(number) = unsigned_in(&value) else {
        return Err(refuse(alloc, name, Reason::NotWhole));
    };
    if number < 1 << 16 {
        Ok(number as u16)
    } else {
        Err(refuse(alloc, name, Reason::OutOfRange))
    }
}

/// Returns the number that `bytes` are, of two's complement if it is `signed`.
#[tactic(auto, using(crate::proofs::TakenWidths::some_width, crate::proofs::TakenWidths::small_width))]
fn number_of(signed: bool, bytes: &[u8]) -> i128
    requires { IsTrue (is_width (length bytes.now)) }
    ensures { result ≡ number_in signed bytes.now }
{
    if signed {
        i128::from(signed_in(bytes))
    } else {
        i128::from(number_at(bytes, 0, bytes.len()))
    }
}

/// A number of 64 bits with or without a sign: its bits, its value, and its usual width in bytes.
type SizedNumber = (u64, i128, usize);

/// Returns the number that `value` is.
#[tactic(auto, using(crate::proofs::TakenWidths::few_bytes))]
fn sized_number(signed: bool, value: &Value<'_>) -> Option<SizedNumber>
    ensures number { option_map (λ n. n.1) result ≡ number_of signed (value_view value.now) }
    ensures bytes { IfSome result (λ n. (n.2 ≤ 8) × (be_bytes n.2 n.0 ≡ usual_bytes signed n.1)) }
{
    if signed {
        let number = integer::signed_in(value)?;
        Some((
            number.cast_unsigned(),
            i128::from(number),
            signed_width(number),
        ))
    } else {
        let number = unsigned_in(value)?;
        Some((number, i128::from(number), unsigned_width(number)))
    }
}

/// Returns the number that the member `name` is, or `None` if it is absent.
fn number_if(
    alloc: Global,
    signed: bool,
    name: &str,
    value: &Option<Value<'_>>,
) -> Result<Option<SizedNumber>>
    ensures number { TakesAs (option_map (λ n. n.1)) result
        (number_if name.now signed (option_map value_view value.now)) }
    ensures bytes { IfOk result (λ number. IfSome number (λ n. (n.2 ≤ 8)
        × (be_bytes n.2 n.0 ≡ usual_bytes signed n.1))) }
{
    let Some(value) = value else {
        return Ok(None);
    };
    match sized_number(signed, value) {
        Some(number) => Ok(Some(number)),
        None => Err(refuse(alloc, name, Reason::NotWhole)),
    }
}

/// Returns whether a number may have `bytes` bytes.
fn is_width(bytes: usize) -> bool
    ensures { result ≡ is_width bytes }
{
    bytes == 1 || bytes == 2 || bytes == 4 || bytes == 8
}

/// Returns whether the number of some bytes is that of the member beside them, if there is one.
fn is_same(found: i128, number: Option<i128>) -> bool
    ensures { result ≡ is_same found number }
{
    match number {
        Some(number) => found == number,
        None => true,
    }
}

/// Returns the bytes that `hex` is, which are called `hex_name`. They are those of `number`, which is called `name`, if
/// it is present.
fn number_in_hex(
    alloc: Global,
    signed: bool,
    name: &str,
    hex_name: &str,
    number: Option<i128>,
    hex: &Value<'_>,
) -> Result<Vec<u8>>
    ensures { TakesAs (λ bytes. bytes.items) result
        (number_in_hex signed name.now hex_name.now number (value_view hex.now)) }
{
    let bytes = hex_in(alloc, hex_name, hex)?;
    if !is_width(bytes.len()) {
        return Err(refuse(alloc, hex_name, Reason::WrongLength));
    }
    if is_same(number_of(signed, bytes.as_slice()), number) {
        Ok(bytes)
    } else {
        Err(refuse(alloc, name, Reason::Contradiction))
    }
}

/// Returns the bytes that `number` usually has. It is called `name`, and may not be absent.
fn bytes_or_missing(
    alloc: Global,
    signed: bool,
    name: &str,
    number: Option<SizedNumber>,
) -> Result<Vec<u8>>
    requires { IfSome number (λ n. (n.2 ≤ 8) × (be_bytes n.2 n.0 ≡ usual_bytes signed n.1)) }
    ensures { TakesAs (λ bytes. bytes.items) result
        (bytes_or_missing signed name.now (option_map (λ n. n.1) number)) }
{
    let Some((bits, _, width)) = number else {
        return Err(refuse(alloc, name, Reason::Missing));
    };
    let mut bytes = Vec::new(alloc);
    push_number(bits, width, &mut bytes)?;
    Ok(bytes)
}

/// Returns the value of `number`.
fn value_of(number: Option<SizedNumber>) -> Option<i128>
    ensures { result ≡ option_map (λ n. n.1) number }
{
    match number {
        Some(number) => Some(number.1),
        None => None,
    }
}

/// Returns the bytes of a number: those of `hex`, from which the number follows, or as many as it usually has.
fn number_bytes(
    alloc: Global,
    signed: bool,
    value: &Option<Value<'_>>,
    hex: &Option<Value<'_>>,
) -> Result<Vec<u8>>
    ensures { TakesAs (λ bytes. bytes.items) result (number_or_bytes signed data_box.NAMES.now.1.1.1.1.1.0.now
        data_box.NAMES.now.1.1.1.1.1.1.0.0.now (option_map value_view value.now) (option_map value_view hex.now)) }
{
    let (_, (name, (number_hex, _))) = data::NAMES.1.1.1.1;
    let number = number_if(alloc, signed, name, value)?;
    match hex {
        Some(hex) => number_in_hex(alloc, signed, name, number_hex.0, value_of(number), hex),
        None => bytes_or_missing(alloc, signed, name, number),
    }
}

/// Takes a number and its bytes out, of which one may be absent. Returns its bytes.
fn take_number_bytes(alloc: Global, signed: bool, object: &mut Object<'_>) -> Result<Entries<u8>>
    ensures { TakesAs (λ bytes. (bytes, left object.new)) result
        (number_taken_by signed data_box.NAMES.now.1.1.1.1.1.0.now data_box.NAMES.now.1.1.1.1.1.1.0.0.now
        (left object.old)) }
{
    let (_, (name, (number_hex, _))) = data::NAMES.1.1.1.1;
    let value = object.take_out(alloc, name)?;
    let hex = object.take_out(alloc, number_hex.0)?;
    Ok(number_bytes(alloc, signed, &value, &hex)?.into())
}

/// Takes the bytes of a value out, of a type that is well-known if `is_known` is set.
fn take_value(
    alloc: Global,
    is_known: bool,
    data_type: u32,
    object: &mut Object<'_>,
) -> Result<Entries<u8>>
    ensures { TakesAs (λ bytes. (bytes, left object.new)) result (value_taken is_known data_type (left object.old)) }
{
    let (text, (_, (_, bytes))) = data::NAMES.1.1.1.1;
    if is_known && data_type == 1 {
        Ok(take_bytes(alloc, text, object)?.into())
    } else if is_known && data_type == 21 && !object.has(bytes.0) {
        take_number_bytes(alloc, true, object)
    } else if is_known && data_type == 22 && !object.has(bytes.0) {
        take_number_bytes(alloc, false, object)
    } else {
        Ok(take_bytes(alloc, bytes, object)?.into())
    }
}

impl TakeFields for Data {
    ghost taken = { data_taken };

    fn take(alloc: Global, object: &mut Object<'_>) -> Result<Data> {
        let (type_set_name, (type_names, (country_name, (language_name, _)))) = *data::NAMES;
        let type_set = U8::take(alloc, &type_set_name, NO_CONTEXT, object)?;
        let is_known = type_set == 0;
        let data_type = take_named_by::<U24>(alloc, &type_names, NO_CONTEXT, is_known, object)?;
        let country = take_locale(alloc, country_name, Locale::Country, object)?;
        let language = take_locale(alloc, language_name, Locale::Language, object)?;
        let value = take_value(alloc, is_known, data_type, object)?;
        Ok(Data {
            type_set,
            data_type,
            country,
            language,
            value,
        })
    }
}
