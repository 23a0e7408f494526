//! Numbers, bytes and texts as text.

ghost use Rattle.std.specs.Prelude.{◌≡◌, ◌++◌, IfOk, OnOk, decimal, string_bytes, take};
ghost use Rattle.std.specs.Fmt.{sign_text, signed_decimal};
ghost use Rattle.mp4_show.specs.Texts.{fixed_shown, signed_fixed_shown, front_shown, bytes_shown, float_shown};
ghost use Rattle.mp4_show.specs.Texts.{hex_shown, quoted, quoted_char, text_shown};

use crate::escape::{Form, push_digits, push_shown};
use mp4_shown::Result;
use mp4_shown_json::{power, push_fraction};
use std::alloc::Global;

/// So many bytes of a value are shown.
const MOST_BYTES: usize = 24;

/// Appends a number.
pub fn push_number(number: u64, out: &mut String) -> Result<()>
    ensures text { OnOk result (string_bytes out.new ≡ string_bytes out.old ++ decimal number) }
{
    let mut buffer = itoa::Buffer::new();
    out.push_str(buffer.format(number))?;
    Ok(())
}

/// Appends a number that may be negative.
pub(crate) fn push_signed(number: i64, out: &mut String) -> Result<()>
    ensures text { OnOk result (string_bytes out.new ≡ string_bytes out.old ++ signed_decimal number) }
{
    let mut buffer = itoa::Buffer::new();
    out.push_str(buffer.format(number))?;
    Ok(())
}

/// Appends the sign of a number, if it is negative.
fn push_sign(negative: bool, out: &mut String) -> Result<()>
    ensures text { OnOk result (string_bytes out.new ≡ string_bytes out.old ++ sign_text negative) }
{
    if negative {
        out.push('-')?;
    }
    Ok(())
}

/// Appends a fixed-point number that may be negative, in the form of `push_fixed`.
#[tactic(auto, unfolding(crate::specs::Texts::signed_fixed_shown))]
pub(crate) fn push_signed_fixed(number: i64, bits: u32, out: &mut String) -> Result<()>
    ensures text { OnOk result (string_bytes out.new ≡ string_bytes out.old ++ signed_fixed_shown number bits) }
{
    push_sign(number < 0, out)?;
    push_fixed(number.unsigned_abs(), bits, out)
}

/// Appends a fixed-point number as an exact decimal: `number` has this many bits after the point, at most 30.
#[tactic(auto, using(crate::proofs::Fixed::rest_below))]
pub(crate) fn push_fixed(number: u64, bits: u32, out: &mut String) -> Result<()>
    ensures text { OnOk result (string_bytes out.new ≡ string_bytes out.old ++ fixed_shown number bits) }
{
    let bits = bits.min(30);
    let one = power(bits);
    push_number(number / one, out)?;
    let rest = number % one;
    if rest == 0 {
        return Ok(());
    }
    out.push('.')?;
    push_fraction(rest, bits, out)
}

/// Returns `decimal` without the zero after the point of a whole number.
fn float_text(decimal: &str) -> &str
    ensures { result.now ≡ float_shown decimal.now }
{
    match decimal.strip_suffix(".0") {
        Some(whole) => whole,
        None => decimal,
    }
}

/// Appends the decimal of a number with 64 bits of IEEE 754, without the zero after the point of a whole number.
pub(crate) fn push_float(decimal: &str, out: &mut String) -> Result<()>
    ensures text { OnOk result (string_bytes out.new ≡ string_bytes out.old ++ float_shown decimal.now) }
{
    out.push_str(float_text(decimal))
}

/// Returns a number in hexadecimal digits: at least 2, 6 if `digits` is more than 2, and 8 if it is more than 6.
pub(crate) fn hex_text(alloc: Global, number: u64, digits: usize) -> Result<String>
    ensures text { IfOk result (λ text. string_bytes text ≡ hex_shown number digits) }
{
    if digits > 6 {
        format!(in alloc; "0x{number:08x}")
    } else if digits > 2 {
        format!(in alloc; "0x{number:06x}")
    } else {
        format!(in alloc; "0x{number:02x}")
    }
}

/// Returns the bytes that are shown of `bytes`.
fn first(bytes: &[u8]) -> &[u8]
    ensures { result.now ≡ take 24 bytes.now }
{
    if bytes.len() > MOST_BYTES {
        &bytes[..MOST_BYTES]
    } else {
        bytes
    }
}

/// Appends the hexadecimal digits of `bytes`, if there are some, and dots if `more` bytes follow.
fn push_first(bytes: &[u8], more: bool, out: &mut String) -> Result<()>
    ensures text { OnOk result (string_bytes out.new ≡ string_bytes out.old ++ front_shown more bytes.now) }
{
    if bytes.is_empty() {
        return Ok(());
    }
    push_digits(bytes, out)?;
    out.push_str(if more { ".. " } else { " " })
}

/// Appends bytes in hexadecimal digits, the first of them if there are many, and how many there are.
pub(crate) fn push_bytes(bytes: &[u8], out: &mut String) -> Result<()>
    ensures text { OnOk result (string_bytes out.new ≡ string_bytes out.old ++ bytes_shown bytes.now) }
{
    push_first(first(bytes), bytes.len() > MOST_BYTES, out)?;
    out.push('(')?;
    push_number(bytes.len() as u64, out)?;
    out.push_str(if bytes.len() == 1 {
        " byte)"
    } else {
        " bytes)"
    })
}

/// Appends `c` as a character of a text between quotes: a quote and a backslash after a backslash, and others as
/// `push_escaped` does.
fn push_quoted(c: char, out: &mut String) -> Result<()>
    ensures text { OnOk result (string_bytes out.new ≡ string_bytes out.old ++ quoted_char c) }
{
    match c {
        '"' => out.push_str("\\\""),
        '\\' => out.push_str("\\\\"),
        _ => push_shown(Form::Text, c, out),
    }
}

/// Appends `text` as the characters of a text between quotes.
fn push_all_quoted(text: &str, out: &mut String) -> Result<()>
    ensures text { OnOk result (string_bytes out.new ≡ string_bytes out.old ++ quoted text.now) }
{
    for c in text.chars() {
        push_quoted(c, out)?;
    }
    Ok(())
}

/// Appends a text between quotes, with U+FFFD for what is not UTF-8 in it.
pub(crate) fn push_text(alloc: Global, text: &[u8], out: &mut String) -> Result<()>
    ensures text { OnOk result (string_bytes out.new ≡ string_bytes out.old ++ text_shown text.now) }
{
    let text = String::from_utf8_lossy(alloc, text)?;
    out.push('"')?;
    push_all_quoted(text.as_str(), out)?;
    out.push('"')
}
