//! Numbers that are taken out of an object.

ghost use Rattle.std.specs.Prelude.{◌≡◌, ℕ, ◌*◌, ◌<◌, ◌≤◌, ◌≤ℤ◌, ◌^◌, ◌++◌, ◌&&◌, nat_lt, int_le, true, Ok, IfOk};
ghost use Rattle.std.specs.Prelude.{IfSome, length, map, option_map, position, slice_index, string_bytes};
ghost use Rattle.json.specs.Value.{value_view};
ghost use Rattle.mp4_frame.specs.Bytes.{number};
ghost use Rattle.mp4_shown.specs.Event.{seen_meaning};
ghost use Rattle.mp4_shown.specs.Numbers.{seen_number};
ghost use Rattle.mp4_shown.specs.Places.{means};
ghost use Rattle.mp4_shown.specs.TakenNumbers.{absent, agrees, meaning_after, meaning_in, meaning_taken};
ghost use Rattle.mp4_shown.specs.TakenNumbers.{number_or_absent, number_taken, numbers_taken, signed_taken};
ghost use Rattle.mp4_shown.specs.Object.{left};
ghost use Rattle.mp4_shown.specs.Taking.{TakesAs};
ghost use Rattle.mp4_shown.specs.TakenValues.{as_decimal, fixed_of, number_in, number_in_hex, or_else, signed_by};
ghost use Rattle.mp4_shown.specs.TakenValues.{signed_fixed_of, whole_in};
ghost use Rattle.mp4_shown.specs.declared.taken.error.Reason.TheVariants.{NotNumber, NotWhole};

use crate::taken::decimal::{Decimal, decimal_in, fixed_bits};
use crate::taken::error::{Reason, Result, refuse};
use crate::taken::integer::{signed_in, unsigned_in};
use crate::taken::object::Object;
use crate::{Meaning, NumberAs, NumberName, number_at};
use hex::FromHexError;
use json::Value;
use mp4_declared::Context;
use std::alloc::{AllocError, Global};

/// The context of a shape that follows no version and flags.
pub const NO_CONTEXT: Context = Context {
    version: 0,
    flags: 0,
};

/// Returns the whole number that `value` is.
pub fn whole_in(value: &Value<'_>) -> std::result::Result<u64, Reason>
    ensures { result ≡ or_else NotWhole Ok (whole_in (value_view value.now)) }
{
    unsigned_in(value).ok_or(Reason::NotWhole)
}

/// Returns the decimal that `value` is, or `None` if it is none.
fn as_decimal(value: &Value<'_>) -> Option<Decimal>
    ensures { option_map (λ d. (d.negative, (d.digits, d.places))) result ≡ as_decimal (value_view value.now) }
{
    decimal_in(value.as_number()?)
}

/// Returns the fixed-point number that `value` is, by its bits, of which `bits` are after the point.
fn fixed_in(bits: u32, value: &Value<'_>) -> std::result::Result<u64, Reason>
    ensures { result ≡ or_else NotNumber (fixed_of bits) (as_decimal (value_view value.now)) }
{
    let decimal = as_decimal(value).ok_or(Reason::NotNumber)?;
    let number = fixed_bits(decimal, bits).ok_or(Reason::OutOfRange)?;
    if decimal.negative && number > 0 {
        return Err(Reason::OutOfRange);
    }
    Ok(number)
}

/// Returns the fixed-point number that `value` is, by its bits, of which `bits` are after the point. It may be
/// negative.
fn signed_fixed_in(bits: u32, value: &Value<'_>) -> std::result::Result<i64, Reason>
    ensures { result ≡ or_else NotNumber (signed_fixed_of bits) (as_decimal (value_view value.now)) }
{
    let decimal = as_decimal(value).ok_or(Reason::NotNumber)?;
    let number = fixed_bits(decimal, bits).ok_or(Reason::OutOfRange)?;
    if number >= 1 << 56 {
        return Err(Reason::OutOfRange);
    }
    let number = number as i64;
    Ok(if decimal.negative { -number } else { number })
}

/// Returns the number that at most 8 bytes are, the most significant first.
fn number_of_bytes(bytes: &[u8]) -> u64
    requires { length bytes.now ≤ 8 }
    ensures { result ≡ number bytes.now 0 (length bytes.now) }
{
    if bytes.is_empty() {
        0
    } else {
        number_at(bytes, 0, bytes.len())
    }
}

/// Returns the number whose last bytes, `count` or 8 of them, are the hexadecimal digits of `value`.
fn number_in_hex(count: usize, value: &Value<'_>) -> std::result::Result<u64, Reason>
    ensures { result ≡ number_in_hex count (value_view value.now) }
{
    let Some(digits) = value.as_str() else {
        return Err(Reason::NotHex);
    };
    let width = count.min(8);
    let mut bytes = [0; 8];
    match hex::decode_to_slice(digits, &mut bytes[..width]) {
        Ok(()) => Ok(number_of_bytes(&bytes[..width])),
        Err(FromHexError::InvalidStringLength) => Err(Reason::WrongLength),
        Err(
            FromHexError::InvalidHexCharacter { .. }
            | FromHexError::OddLength
            | FromHexError::OutOfMemory,
        ) => Err(Reason::NotHex),
    }
}

/// Returns the number that `value` is if it is shown so.
pub(crate) fn number_by(number_as: NumberAs, value: &Value<'_>) -> std::result::Result<u64, Reason>
    ensures { result ≡ number_in number_as (value_view value.now) }
{
    match number_as {
        NumberAs::Plain
        | NumberAs::Named
        | NumberAs::Flags(_)
        | NumberAs::Date
        | NumberAs::Reserved(_) => whole_in(value),
        NumberAs::Fixed(bits) => fixed_in(bits, value),
        NumberAs::Hex(count) => number_in_hex(count, value),
    }
}

/// Returns what an absent number is: reserved bits have the standard's value.
fn absent(number_as: NumberAs) -> std::result::Result<u64, Reason>
    ensures { result ≡ absent number_as }
{
    match number_as {
        NumberAs::Plain
        | NumberAs::Named
        | NumberAs::Flags(_)
        | NumberAs::Date
        | NumberAs::Fixed(_)
        | NumberAs::Hex(_) => Err(Reason::Missing),
        NumberAs::Reserved(usual) => Ok(usual),
    }
}

/// Returns the number that `value` is, or what it is if it is absent.
fn number_or_absent(
    number_as: NumberAs,
    value: &Option<Value<'_>>,
) -> std::result::Result<u64, Reason>
    ensures { result ≡ number_or_absent number_as (option_map value_view value.now) }
{
    match value {
        Some(value) => number_by(number_as, value),
        None => absent(number_as),
    }
}

/// Returns whether `number` fits `bits` bits.
pub(crate) fn fits(number: u64, bits: u32) -> bool
    ensures { result ≡ nat_lt number (2 ^ bits) }
{
    if bits < 64 { number < 1 << bits } else { true }
}

/// Returns the place of the first meaning of `number` in `meanings`, or `None` if it has none.
fn place_of(meanings: &[Meaning], number: u64) -> Option<usize>
    ensures place { result ≡ position (means number) meanings.now }
    ensures inside { IfSome result (λ i. i < length meanings.now) }
{
    meanings.iter().position(|meaning| meaning.0 == number)
}

/// Returns the first meaning of `number` in `meanings`, or `None` if it has none.
fn meaning_in(meanings: &[Meaning], number: u64) -> Option<&'static str>
    ensures { option_map (λ s. s.now) result ≡ meaning_in (map seen_meaning meanings.now) number }
{
    match place_of(meanings, number) {
        Some(place) => Some(meanings[place].1),
        None => None,
    }
}

/// Returns `name` with `suffix` after it.
pub fn with_suffix(
    alloc: Global,
    name: &str,
    suffix: &str,
) -> std::result::Result<String, AllocError>
    ensures { IfOk result (λ whole. string_bytes whole ≡ name.now ++ suffix.now) }
{
    let mut whole = String::from_str(alloc, name)?;
    whole.push_str(suffix)?;
    Ok(whole)
}

/// Returns whether a derived member, if it is present, is the text `follows`.
pub fn agrees(value: &Option<Value<'_>>, follows: Option<&str>) -> bool
    ensures { result ≡ agrees (option_map (λ s. s.now) follows.entry) (option_map value_view value.now) }
{
    let Some(value) = value else {
        return true;
    };
    match (value.as_str(), follows) {
        (Some(text), Some(follows)) => text == follows,
        _ => false,
    }
}

/// Takes the meaning of `number` out, if it is present, and checks it.
fn take_meaning(
    alloc: Global,
    name: &str,
    meanings: &[Meaning],
    number: u64,
    object: &mut Object<'_>,
) -> Result<()>
    ensures { TakesAs (λ _. left object.new) result
        (meaning_taken name.now (map seen_meaning meanings.now) number (left object.old)) }
{
    let name = with_suffix(alloc, name, "_name")?;
    let value = object.take_out(alloc, name.as_str())?;
    if !agrees(&value, meaning_in(meanings, number)) {
        return Err(refuse(alloc, name.as_str(), Reason::Contradiction));
    }
    Ok(())
}

/// Takes the meaning of `number` out, if it is present, and checks it. Only a number with meanings may have one.
fn take_meaning_of(
    alloc: Global,
    number_as: NumberAs,
    name: &str,
    meanings: &[Meaning],
    number: u64,
    object: &mut Object<'_>,
) -> Result<()>
    ensures { TakesAs (λ _. left object.new) result
        (meaning_after number_as name.now (map seen_meaning meanings.now) number (left object.old)) }
{
    match number_as {
        NumberAs::Named => take_meaning(alloc, name, meanings, number, object),
        NumberAs::Plain
        | NumberAs::Flags(_)
        | NumberAs::Date
        | NumberAs::Fixed(_)
        | NumberAs::Hex(_)
        | NumberAs::Reserved(_) => Ok(()),
    }
}

/// Takes the number called `name` out, which fits `bits` bits.
pub fn take_number(
    alloc: Global,
    name: NumberName,
    bits: u32,
    object: &mut Object<'_>,
) -> Result<u64>
    ensures value { TakesAs (λ n. (n, left object.new)) result
        (number_taken (seen_number name.entry) bits (left object.old)) }
    ensures fits { IfOk result (λ n. n < 2 ^ bits) }
{
    let (name, number_as, meanings) = name;
    let value = object.take_out(alloc, name)?;
    let number = match number_or_absent(number_as, &value) {
        Ok(number) => number,
        Err(reason) => return Err(refuse(alloc, name, reason)),
    };
    if !fits(number, bits) {
        return Err(refuse(alloc, name, Reason::OutOfRange));
    }
    take_meaning_of(alloc, number_as, name, meanings, number, object)?;
    Ok(number)
}

/// Returns the number that `value` is if it is shown so. It may be negative.
fn signed_by(number_as: NumberAs, value: &Value<'_>) -> std::result::Result<i64, Reason>
    ensures { result ≡ signed_by number_as (value_view value.now) }
{
    match number_as {
        NumberAs::Plain
        | NumberAs::Named
        | NumberAs::Flags(_)
        | NumberAs::Date
        | NumberAs::Hex(_)
        | NumberAs::Reserved(_) => signed_in(value).ok_or(Reason::NotWhole),
        NumberAs::Fixed(bits) => signed_fixed_in(bits, value),
    }
}

/// Returns whether `number` is at least `least` and at most `most`.
fn is_between(number: i64, least: i64, most: i64) -> bool
    ensures value { result ≡ (int_le least number && int_le number most) }
    ensures least { result ≡ true → least ≤ℤ number }
    ensures most { result ≡ true → number ≤ℤ most }
{
    least <= number && number <= most
}

/// Takes the number called `name` out, which is at least `least` and at most `most`.
pub fn take_signed(
    alloc: Global,
    name: NumberName,
    least: i64,
    most: i64,
    object: &mut Object<'_>,
) -> Result<i64>
    ensures value { TakesAs (λ z. (z, left object.new)) result
        (signed_taken (seen_number name.entry) least most (left object.old)) }
    ensures least { IfOk result (λ z. least ≤ℤ z) }
    ensures most { IfOk result (λ z. z ≤ℤ most) }
{
    let (name, number_as, _) = name;
    let value = object.take_one(alloc, name)?;
    let number = match signed_by(number_as, &value) {
        Ok(number) => number,
        Err(reason) => return Err(refuse(alloc, name, reason)),
    };
    if is_between(number, least, most) {
        Ok(number)
    } else {
        Err(refuse(alloc, name, Reason::OutOfRange))
    }
}

/// Takes the numbers of these `widths` out, each by the name of its place. Those without a name are 0.
pub fn take_numbers<const N: usize>(
    alloc: Global,
    names: &[NumberName],
    widths: &[u8; N],
    object: &mut Object<'_>,
) -> Result<[u64; N]>
    requires { N * 8 < 2 ^ 63 }
    ensures value { TakesAs (λ ns. (ns, left object.new)) result
        (numbers_taken (map seen_number names.now) widths.now (left object.old)) }
    ensures fit { IfOk result (λ ns. (k : ℕ) → slice_index ns k < 2 ^ slice_index widths.now k) }
{
    let mut numbers = [0; N];
    for k in 0..names.len().min(N) {
        let number = take_number(alloc, names[k], u32::from(widths[k]), object)?;
        numbers[k] = number;
    }
    Ok(numbers)
}
