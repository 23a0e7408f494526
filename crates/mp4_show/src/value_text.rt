//! The values of fields as text.

ghost use Rattle.std.specs.Prelude.{◌≡◌, ◌==◌, ◌∷◌, ◌++◌, true, IfOk, List, OnOk, bit_and, flat_map, map};
ghost use Rattle.std.specs.Prelude.{string_bytes};
ghost use Rattle.mp4_show.specs.Texts.{before_flag, code_after_space, codes_shown, flag_names, flags_shown};
ghost use Rattle.mp4_show.specs.Texts.{matrix_shown, number_after_space, numbers_shown, row_shown, signed_fixed_shown};
ghost use Rattle.mp4_show.specs.Values.{media_time_shown, meaning_shown, value_shown};
ghost use Rattle.mp4_shown.specs.Event.{Meaning as AMeaning, bytes_of_code, seen_meaning, shown_of};

use crate::code::push_code;
use crate::dates::push_date;
use crate::number_text::{
    hex_text, push_bytes, push_fixed, push_float, push_number, push_signed, push_signed_fixed,
    push_text,
};
use mp4_shown::{Matrix, Meaning, Result, Value};
use mp4_stream::FourCC;
use std::alloc::Global;

/// Returns what comes before the name of a flag.
fn before_flag(first: bool) -> &'static str
    ensures { result.now ≡ before_flag first }
{
    if first { " (" } else { ", " }
}

/// Returns whether the flag `bit` is not set in `flags`.
fn is_clear(flags: u64, bit: u64) -> bool
    ensures { result ≡ (bit_and flags bit == 0) }
{
    flags & bit == 0
}

/// Appends the name of the flag `bit`, if it is set in `flags`. Returns whether the next name is the first.
fn push_flag(first: bool, flags: u64, bit: u64, name: &str, out: &mut String) -> Result<bool>
    ensures names { IfOk result (λ next. (rest : List AMeaning)
        → string_bytes out.new ++ flag_names next flags rest
        ≡ string_bytes out.old ++ flag_names first flags ((bit, record { now = name.now }) ∷ rest)) }
{
    if is_clear(flags, bit) {
        return Ok(first);
    }
    out.push_str(before_flag(first))?;
    out.push_str(name)?;
    Ok(false)
}

/// Appends the names of the flags of `names` that are set in `flags`, between brackets, if there are any.
fn push_flag_names(flags: u64, names: &[Meaning], out: &mut String) -> Result<()>
    ensures text { OnOk result (string_bytes out.new
        ≡ string_bytes out.old ++ flag_names true flags (map seen_meaning names.now)) }
{
    let mut first = true;
    for meaning in names {
        first = push_flag(first, flags, meaning.0, meaning.1, out)?;
    }
    if first {
        return Ok(());
    }
    out.push(')')?;
    Ok(())
}

/// Appends flags in hexadecimal digits, and the names of those that are set.
fn push_flags(
    alloc: Global,
    flags: u64,
    digits: usize,
    names: &[Meaning],
    out: &mut String,
) -> Result<()>
    ensures text { OnOk result (string_bytes out.new
        ≡ string_bytes out.old ++ flags_shown flags digits (map seen_meaning names.now)) }
{
    let number = hex_text(alloc, flags, digits)?;
    out.push_str(number.as_str())?;
    push_flag_names(flags, names, out)
}

/// Appends codes, each after a space.
fn push_more_codes(codes: &[FourCC], out: &mut String) -> Result<()>
    ensures text { OnOk result (string_bytes out.new
        ≡ string_bytes out.old ++ flat_map code_after_space (map bytes_of_code codes.now)) }
{
    for code in codes {
        out.push(' ')?;
        push_code(*code, out)?;
    }
    Ok(())
}

/// Appends codes, one after the other.
fn push_codes(codes: &[FourCC], out: &mut String) -> Result<()>
    ensures text { OnOk result (string_bytes out.new
        ≡ string_bytes out.old ++ codes_shown (map bytes_of_code codes.now)) }
{
    match codes.split_first() {
        Some((first, more)) => {
            push_code(*first, out)?;
            push_more_codes(more, out)
        }
        None => out.push_str("none"),
    }
}

/// Appends numbers, each after a space.
fn push_more_numbers(numbers: &[i16], out: &mut String) -> Result<()>
    ensures text { OnOk result (string_bytes out.new
        ≡ string_bytes out.old ++ flat_map number_after_space numbers.now) }
{
    for number in numbers {
        out.push(' ')?;
        push_signed(i64::from(*number), out)?;
    }
    Ok(())
}

/// Appends numbers, one after the other.
fn push_numbers(numbers: &[i16], out: &mut String) -> Result<()>
    ensures text { OnOk result (string_bytes out.new ≡ string_bytes out.old ++ numbers_shown numbers.now) }
{
    match numbers.split_first() {
        Some((first, more)) => {
            push_signed(i64::from(*first), out)?;
            push_more_numbers(more, out)
        }
        None => Ok(()),
    }
}

/// Appends a number of a transformation, with this many bits after the point.
fn push_part(number: i32, bits: u32, out: &mut String) -> Result<()>
    ensures text { OnOk result (string_bytes out.new ≡ string_bytes out.old ++ signed_fixed_shown number bits) }
{
    push_signed_fixed(i64::from(number), bits, out)
}

/// Appends a row of a transformation.
fn push_row(first: i32, second: i32, third: i32, out: &mut String) -> Result<()>
    ensures text { OnOk result (string_bytes out.new ≡ string_bytes out.old ++ row_shown first second third) }
{
    push_part(first, 16, out)?;
    out.push(' ')?;
    push_part(second, 16, out)?;
    out.push(' ')?;
    push_part(third, 30, out)
}

/// Appends the rows of a transformation: (a b u), (c d v) and (x y w).
fn push_matrix(m: Matrix, out: &mut String) -> Result<()>
    ensures text { OnOk result (string_bytes out.new ≡ string_bytes out.old ++ matrix_shown m) }
{
    out.push('(')?;
    push_row(m.a, m.b, m.u, out)?;
    out.push_str("; ")?;
    push_row(m.c, m.d, m.v, out)?;
    out.push_str("; ")?;
    push_row(m.x, m.y, m.w, out)?;
    out.push(')')
}

/// Appends a number, and what it means.
fn push_named(number: u64, name: &str, out: &mut String) -> Result<()>
    ensures text { OnOk result (string_bytes out.new ≡ string_bytes out.old ++ meaning_shown number name.now) }
{
    push_number(number, out)?;
    out.push_str(" (")?;
    out.push_str(name)?;
    out.push(')')
}

/// Appends the time at which an edit begins.
fn push_media_time(time: i64, out: &mut String) -> Result<()>
    ensures text { OnOk result (string_bytes out.new ≡ string_bytes out.old ++ media_time_shown time) }
{
    if time == -1 {
        out.push_str("empty")
    } else {
        push_signed(time, out)
    }
}

/// Appends the text of a value.
pub(crate) fn push_value(alloc: Global, value: Value<'_>, out: &mut String) -> Result<()>
    ensures text { OnOk result (string_bytes out.new
        ≡ string_bytes out.old ++ value_shown (shown_of value.entry)) }
{
    match value {
        Value::Number(number) => push_number(number, out),
        Value::Signed(number) => push_signed(number, out),
        Value::Named(number, name) => push_named(number, name, out),
        Value::Flags(flags, digits, names) => push_flags(alloc, flags, digits, names, out),
        Value::Date(seconds) => push_date(seconds, out),
        Value::Fixed(number, bits) => push_fixed(number, bits, out),
        Value::SignedFixed(number, bits) => push_signed_fixed(number, bits, out),
        Value::Float(_, decimal) => push_float(decimal, out),
        Value::Hex(number, count) => push_bytes(&number.to_be_bytes()[8 - count.min(8)..], out),
        Value::MediaTime(time) => push_media_time(time, out),
        Value::Code(code) => push_code(code, out),
        Value::Codes(codes) => push_codes(codes, out),
        Value::Text(text) => push_text(alloc, text, out),
        Value::Bytes(bytes) => push_bytes(bytes, out),
        Value::Numbers(numbers) => push_numbers(numbers, out),
        Value::Matrix(matrix) => push_matrix(*matrix, out),
    }
}
