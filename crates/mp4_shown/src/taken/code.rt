//! Codes of four characters that are taken out of an object.

ghost use Rattle.std.specs.Prelude.{◌≡◌, option_map};
ghost use Rattle.json.specs.Value.{value_view};
ghost use Rattle.mp4_shown.specs.TakenLists.{code_taken};
ghost use Rattle.mp4_shown.specs.Object.{left};
ghost use Rattle.mp4_shown.specs.Taking.{TakesAs};
ghost use Rattle.mp4_shown.specs.TakenValues.{code_in, four_bytes};
ghost use Rattle.std.specs.Str.{chars};

use crate::taken::error::{Reason, Result, refuse};
use crate::taken::object::Object;
use json::Value;
use mp4_frame::FourCC;
use std::alloc::Global;

/// Returns the numbers of the characters of `text`, which have to be four below 256. Returns `None` if they aren't.
pub fn latin_in(text: &str) -> Option<[u8; 4]>
    ensures { result ≡ four_bytes (chars text.now) }
{
    let mut value = [0; 4];
    let mut count = 0;
    for c in text.chars() {
        if count == 4 {
            return None;
        }
        let number = u32::from(c);
        if number >= 256 {
            return None;
        }
        value[count] = number as u8;
        count += 1;
    }
    if count == 4 { Some(value) } else { None }
}

/// Returns the code that `value` is: a text of four characters, each of the number of its byte.
pub fn code_in(value: &Value<'_>) -> Option<FourCC>
    ensures { option_map (λ c. c.value) result ≡ code_in (value_view value.now) }
{
    let value = latin_in(value.as_str()?)?;
    Some(FourCC { value })
}

/// Takes the code called `name` out.
pub fn take_code(alloc: Global, name: &str, object: &mut Object<'_>) -> Result<FourCC>
    ensures { TakesAs (λ c. (c, left object.new)) result (code_taken name.now (left object.old)) }
{
    let value = object.take_one(alloc, name)?;
    match code_in(&value) {
        Some(code) => Ok(code),
        None => Err(refuse(alloc, name, Reason::NotCode)),
    }
}
