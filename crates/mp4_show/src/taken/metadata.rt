//! The metadata value box of the codec.

ghost use Rattle.std.specs.Prelude.{◌≡◌, option_map};
ghost use Rattle.json.specs.Value.{value_view};
ghost use Rattle.mp4_show.specs.TakenText.{data_box_taken, digits_taken, integer_by, integer_if, integer_in};
ghost use Rattle.mp4_show.specs.TakenText.{integer_taken, is_integer, type_or_refused, value_taken};
ghost use Rattle.mp4_shown.specs.Object.{left};
ghost use Rattle.mp4_shown.specs.Taking.{TakesAs};

use crate::fields::{DATA_TYPES, integer, integer_width};
use crate::taken::take_box::TakeBox;
use json::Value;
use mp4_media::DataType;
use mp4_shown::taken::integer::signed_in;
use mp4_shown::taken::{
    Object, Reason, Result, hex_in, push_number, refuse, take_number, take_text,
};
use mp4_shown::{NumberName, number};
use mp4_text::DataBox;
use std::alloc::Global;

/// The name of a value that is bytes.
const BYTES: &str = "data_bytes";

/// The name of the type of a value.
const DATA_TYPE: NumberName = number!("data_type", Named, DATA_TYPES);

/// Returns the type with this `number`. Another number is refused.
fn type_of(alloc: Global, number: u64) -> Result<DataType>
    ensures { TakesAs (λ t. t) result (type_or_refused number) }
{
    match number {
        0 => Ok(DataType::Binary),
        1 => Ok(DataType::Text),
        13 => Ok(DataType::Image),
        21 => Ok(DataType::TempoCpil),
        _ => Err(refuse(alloc, DATA_TYPE.0, Reason::OutOfRange)),
    }
}

/// Takes the bytes called `name` out.
fn take_digits(alloc: Global, name: &str, object: &mut Object<'_>) -> Result<Vec<u8>>
    ensures { TakesAs (λ bytes. (bytes.items, left object.new)) result (digits_taken name.now (left object.old)) }
{
    let value = object.take_one(alloc, name)?;
    hex_in(alloc, name, &value)
}

/// Returns the number of 32 bits that `value` is. Another value is refused.
fn integer_in(alloc: Global, value: &Value<'_>) -> Result<i64>
    ensures { TakesAs (λ z. z) result (integer_in (value_view value.now)) }
{
    let Some(number) = signed_in(value) else {
        return Err(refuse(alloc, "number", Reason::NotWhole));
    };
    if number < -(1 << 31) || number > (1 << 31) - 1 {
        return Err(refuse(alloc, "number", Reason::OutOfRange));
    }
    Ok(number)
}

/// Returns the number that `value` is, if it is present.
fn integer_if(alloc: Global, value: &Option<Value<'_>>) -> Result<Option<i64>>
    ensures { TakesAs (λ z. z) result (integer_if (option_map value_view value.now)) }
{
    match value {
        Some(value) => Ok(Some(integer_in(alloc, value)?)),
        None => Ok(None),
    }
}

/// Returns whether `number`, if it is present, is the one in the bytes.
fn is_integer(number: Option<i64>, in_bytes: Option<i64>) -> bool
    ensures { result ≡ is_integer number in_bytes }
{
    match (number, in_bytes) {
        (Some(number), Some(other)) => number == other,
        (Some(_), None) => false,
        (None, _) => true,
    }
}

/// Returns the bytes of a number: those of `hex`, from which the number follows, or as many as it needs.
fn integer_by(alloc: Global, number: Option<i64>, hex: &Option<Value<'_>>) -> Result<Vec<u8>>
    ensures { TakesAs (λ bytes. bytes.items) result (integer_by number (option_map value_view hex.now)) }
{
    if let Some(hex) = hex {
        let bytes = hex_in(alloc, "number_hex", hex)?;
        let in_bytes = integer(bytes.as_slice());
        if in_bytes.is_none() {
            return Err(refuse(alloc, "number_hex", Reason::WrongLength));
        }
        if !is_integer(number, in_bytes) {
            return Err(refuse(alloc, "number", Reason::Contradiction));
        }
        return Ok(bytes);
    }
    let Some(number) = number else {
        return Err(refuse(alloc, "number", Reason::Missing));
    };
    let mut bytes = Vec::new(alloc);
    push_number(number.cast_unsigned(), integer_width(number), &mut bytes)?;
    Ok(bytes)
}

/// Takes a number and its bytes out, of which one may be absent. Returns its bytes.
fn take_integer(alloc: Global, object: &mut Object<'_>) -> Result<Vec<u8>>
    ensures { TakesAs (λ bytes. (bytes.items, left object.new)) result (integer_taken (left object.old)) }
{
    let value = object.take_out(alloc, "number")?;
    let hex = object.take_out(alloc, "number_hex")?;
    let number = integer_if(alloc, &value)?;
    integer_by(alloc, number, &hex)
}

/// Takes the value of a type out: a text, a number, or bytes.
fn take_value(alloc: Global, data_type: &DataType, object: &mut Object<'_>) -> Result<Vec<u8>>
    ensures { TakesAs (λ bytes. (bytes.items, left object.new)) result (value_taken data_type.now (left object.old)) }
{
    match data_type {
        DataType::Binary | DataType::Image => take_digits(alloc, BYTES, object),
        DataType::Text => take_text(alloc, "text", "text_hex", false, object),
        DataType::TempoCpil => {
            if object.has(BYTES) {
                take_digits(alloc, BYTES, object)
            } else {
                take_integer(alloc, object)
            }
        }
    }
}

impl TakeBox for DataBox {
    ghost taken = { data_box_taken };

    fn take(alloc: Global, object: &mut Object<'_>) -> Result<DataBox> {
        let number = take_number(alloc, DATA_TYPE, 32, object)?;
        let data_type = type_of(alloc, number)?;
        let bytes = take_value(alloc, &data_type, object)?;
        Ok(DataBox {
            data_bytes: bytes.into(),
            data_type,
        })
    }
}
