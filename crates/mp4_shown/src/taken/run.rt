//! Runs of bytes that are taken out of an object.

ghost use Rattle.std.specs.Prelude.{◌≡◌, ◌<◌, ◌^◌, [], IfOk, option_map};
ghost use Rattle.json.specs.Value.{value_view};
ghost use Rattle.mp4_shown.specs.Runs.{seen_bytes, unended};
ghost use Rattle.mp4_shown.specs.TakenNumbers.{at_path};
ghost use Rattle.mp4_shown.specs.Object.{left};
ghost use Rattle.mp4_shown.specs.TakenRuns.{checked, count_or_length, counted_by, run_taken, small_in};
ghost use Rattle.mp4_shown.specs.TakenRuns.{small_numbers_in};
ghost use Rattle.mp4_shown.specs.TakenRuns.{text_bytes, text_in, text_in_hex, text_part, text_taken};
ghost use Rattle.mp4_shown.specs.Taking.{TakesAs};
ghost use Rattle.mp4_shown.specs.TakenValues.{hex_in};

use crate::taken::each::{TakeItem, take_each};
use crate::taken::error::{Error, Reason, Result, refuse};
use crate::taken::list::array_in;
use crate::taken::number::{agrees, fits, whole_in};
use crate::taken::object::Object;
use crate::{BytesAs, BytesName};
use hex::FromHexError;
use json::Value;
use std::alloc::{AllocError, Global};

/// Returns the bytes whose hexadecimal digits are the text `value`. Another value is refused, with the path `path`.
pub fn hex_in(alloc: Global, path: &str, value: &Value<'_>) -> Result<Vec<u8>>
    ensures { TakesAs (λ bytes. bytes.items) result (at_path path.now (hex_in (value_view value.now))) }
{
    let Some(digits) = value.as_str() else {
        return Err(refuse(alloc, path, Reason::NotHex));
    };
    match hex::decode(alloc, digits) {
        Ok(bytes) => Ok(bytes),
        Err(FromHexError::OutOfMemory) => Err(Error::OutOfMemory),
        Err(
            FromHexError::InvalidHexCharacter { .. }
            | FromHexError::OddLength
            | FromHexError::InvalidStringLength,
        ) => Err(refuse(alloc, path, Reason::NotHex)),
    }
}

/// Returns the whole number of `bits` bits that `value` is. Another value is refused, with the path `path`.
pub fn small_in(alloc: Global, path: &str, bits: u32, value: &Value<'_>) -> Result<u64>
    ensures value { TakesAs (λ n. n) result (small_in bits path.now (value_view value.now)) }
    ensures fits { IfOk result (λ n. n < 2 ^ bits) }
{
    match whole_in(value) {
        Ok(number) => {
            if fits(number, bits) {
                Ok(number)
            } else {
                Err(refuse(alloc, path, Reason::OutOfRange))
            }
        }
        Err(reason) => Err(refuse(alloc, path, reason)),
    }
}

/// An entry that is a byte.
#[derive(Drop)]
struct ByteItem;

impl TakeItem<u8> for ByteItem {
    ghost taken = { λ by j. small_in 8 [] j };

    fn take(&self, alloc: Global, value: Value<'_>) -> Result<u8> {
        Ok(small_in(alloc, "", 8, &value)? as u8)
    }
}

/// Returns the bytes that the numbers of the array `value` are. `name` is its name.
fn numbers_in(alloc: Global, name: &str, value: Value<'_>) -> Result<Vec<u8>>
    ensures { TakesAs (λ bytes. bytes.items) result (small_numbers_in 8 name.now (value_view value.entry)) }
{
    let items = array_in(alloc, name, value)?;
    take_each(alloc, name, &ByteItem, items)
}

/// Returns the byte that counts `bytes`: the member `second`, or their number if it is absent.
fn count_or_length(
    alloc: Global,
    name: &str,
    second: &str,
    bytes: usize,
    value: &Option<Value<'_>>,
) -> Result<u8>
    ensures { TakesAs (λ n. n) result
        (count_or_length name.now second.now bytes (option_map value_view value.now)) }
{
    match value {
        Some(value) => Ok(small_in(alloc, second, 8, value)? as u8),
        None => {
            if bytes < 256 {
                Ok(bytes as u8)
            } else {
                Err(refuse(alloc, name, Reason::WrongLength))
            }
        }
    }
}

/// Takes a byte that counts and the bytes after it out, if they are present.
fn take_counted(alloc: Global, name: &str, second: &str, object: &mut Object<'_>) -> Result<Vec<u8>>
    ensures { TakesAs (λ bytes. (bytes.items, left object.new)) result
        (counted_by name.now second.now (left object.old)) }
{
    let mut bytes = Vec::new(alloc);
    let Some(value) = object.take_out(alloc, name)? else {
        return Ok(bytes);
    };
    let rest = hex_in(alloc, name, &value)?;
    let count = object.take_out(alloc, second)?;
    bytes.push(count_or_length(alloc, name, second, rest.len(), &count)?)?;
    bytes.extend_from_slice(rest.as_slice())?;
    Ok(bytes)
}

/// Returns `bytes` without a last byte of 0.
fn unended(bytes: &[u8]) -> &[u8]
    ensures { result.now ≡ unended bytes.now }
{
    if !bytes.is_empty() && bytes[bytes.len() - 1] == 0 {
        &bytes[..bytes.len() - 1]
    } else {
        bytes
    }
}

/// Returns the part of `bytes` that is shown as a text: without a byte of 0 that ends them, if the text is ended.
fn text_part(is_ended: bool, bytes: &[u8]) -> &[u8]
    ensures { result.now ≡ text_part is_ended bytes.now }
{
    if is_ended { unended(bytes) } else { bytes }
}

/// Returns the bytes whose hexadecimal digits are `hex`, from which `text` follows.
fn text_in_hex(
    alloc: Global,
    name: &str,
    second: &str,
    is_ended: bool,
    text: &Option<Value<'_>>,
    hex: &Value<'_>,
) -> Result<Vec<u8>>
    ensures { TakesAs (λ bytes. bytes.items) result (text_in_hex name.now is_ended second.now
        (option_map value_view text.now) (value_view hex.now)) }
{
    let bytes = hex_in(alloc, second, hex)?;
    let shown = String::from_utf8_lossy(alloc, text_part(is_ended, bytes.as_slice()))?;
    if agrees(text, Some(shown.as_str())) {
        Ok(bytes)
    } else {
        Err(refuse(alloc, name, Reason::Contradiction))
    }
}

/// Returns the bytes of `text`. An ended text has a byte of 0 after it.
fn text_bytes(alloc: Global, is_ended: bool, text: &str) -> std::result::Result<Vec<u8>, AllocError>
    ensures { IfOk result (λ bytes. bytes.items ≡ text_bytes is_ended text.now) }
{
    let mut bytes = Vec::from_slice(alloc, text.as_bytes())?;
    if is_ended {
        bytes.push(0)?;
    }
    Ok(bytes)
}

/// Returns the bytes of a text: those of the member `second`, from which the text follows, or those of the text. An
/// ended text has a byte of 0 after it.
fn text_in(
    alloc: Global,
    name: &str,
    second: &str,
    is_ended: bool,
    text: &Option<Value<'_>>,
    hex: &Option<Value<'_>>,
) -> Result<Vec<u8>>
    ensures { TakesAs (λ bytes. bytes.items) result (text_in name.now is_ended second.now
        (option_map value_view text.now) (option_map value_view hex.now)) }
{
    if let Some(hex) = hex {
        return text_in_hex(alloc, name, second, is_ended, text, hex);
    }
    let Some(value) = text else {
        return Err(refuse(alloc, name, Reason::Missing));
    };
    match value.as_str() {
        Some(text) => Ok(text_bytes(alloc, is_ended, text)?),
        None => Err(refuse(alloc, name, Reason::NotText)),
    }
}

/// Takes a text out, and the bytes beside it if they are present. Returns its bytes. An ended text has a byte of 0
/// after it.
pub fn take_text(
    alloc: Global,
    name: &str,
    second: &str,
    is_ended: bool,
    object: &mut Object<'_>,
) -> Result<Vec<u8>>
    ensures { TakesAs (λ bytes. (bytes.items, left object.new)) result
        (text_taken name.now is_ended second.now (left object.old)) }
{
    let text = object.take_out(alloc, name)?;
    let hex = object.take_out(alloc, second)?;
    text_in(alloc, name, second, is_ended, &text, &hex)
}

/// Takes the bytes called `name` out.
pub fn take_bytes(alloc: Global, name: BytesName, object: &mut Object<'_>) -> Result<Vec<u8>>
    ensures { TakesAs (λ bytes. (bytes.items, left object.new)) result
        (run_taken (seen_bytes name.entry) (left object.old)) }
{
    let (name, bytes_as, second) = name;
    match bytes_as {
        BytesAs::Bytes => {
            let value = object.take_one(alloc, name)?;
            hex_in(alloc, name, &value)
        }
        BytesAs::SomeBytes => match object.take_out(alloc, name)? {
            Some(value) => hex_in(alloc, name, &value),
            None => Ok(Vec::new(alloc)),
        },
        BytesAs::Counted => take_counted(alloc, name, second, object),
        BytesAs::Numbers => match object.take_out(alloc, name)? {
            Some(value) => numbers_in(alloc, name, value),
            None => Ok(Vec::new(alloc)),
        },
        BytesAs::Text => take_text(alloc, name, second, false, object),
        BytesAs::Ended => take_text(alloc, name, second, true, object),
    }
}

/// Returns `bytes`, which are called `name`. They are refused for this `reason` unless `pass` is set.
pub fn check_bytes(
    alloc: Global,
    name: BytesName,
    bytes: Vec<u8>,
    pass: bool,
    reason: Reason,
) -> Result<Vec<u8>>
    ensures { TakesAs (λ bytes. bytes.items) result
        (checked pass name.entry.0.now reason bytes.items) }
{
    if pass {
        Ok(bytes)
    } else {
        Err(refuse(alloc, name.0, reason))
    }
}
