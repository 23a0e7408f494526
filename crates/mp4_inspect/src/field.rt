//! The value of a field in the JSON object of the fields of a box.

ghost use Rattle.std.specs.Prelude.{◌≡◌, false, IfOk, map, option_map, string_bytes};
ghost use Rattle.std.specs.Str.{IsUtf8};
ghost use Rattle.json.specs.Json.{document};
ghost use Rattle.json.specs.Value.{value_view};
ghost use Rattle.mp4_io.specs.Ends.{is_write};
ghost use Rattle.mp4_content.specs.Field.{place_of, value_at};
ghost use Rattle.mp4_inspect.specs.Field.{line_at, line_of, line_to, text_of};

use json::{Error, Scratch, Value};
use mp4_command::escaped;
use mp4_content::{Step, steps_of, value_at};
use mp4_io::Failure;
use std::alloc::Global;

/// Returns the text of `value` if it is a text or a number.
fn text_of<'a>(value: &Value<'a>) -> Option<&'a str>
    ensures { option_map (λ text. text.now) result ≡ text_of (value_view value.now) }
{
    match value.as_str() {
        Some(text) => Some(text),
        None => value.as_number(),
    }
}

/// Returns the line with a value, or `None` if it is a list or has members.
fn line_of(alloc: Global, value: &Value<'_>) -> Result<Option<String>, Failure>
    ensures line { IfOk result (λ line. option_map string_bytes line ≡ line_of (value_view value.now)) }
    ensures not_write { is_write result ≡ false }
{
    let Some(text) = text_of(value) else {
        return Ok(None);
    };
    let mut line = escaped(alloc, text)?;
    line.push('\n')?;
    Ok(Some(line))
}

/// Returns the line with the value to which `steps` lead in the JSON object `fields`, or `None` if there is no such
/// value, or it is not a single one.
fn line_to(alloc: Global, fields: &[u8], steps: &[Step<'_>]) -> Result<Option<String>, Failure>
    requires { IsUtf8 fields.now }
    ensures line { IfOk result (λ line. option_map string_bytes line
        ≡ line_to (map place_of steps.now) (document fields.now)) }
    ensures not_write { is_write result ≡ false }
{
    let mut scratch = Scratch::new(alloc);
    match Value::from_slice(alloc, fields, &mut scratch) {
        Ok(object) => match value_at(&object, steps) {
            Some(value) => line_of(alloc, value),
            None => Ok(None),
        },
        Err(Error::OutOfMemory) => Err(Failure::Memory),
        Err(_) => Ok(None),
    }
}

/// Returns the line with the value of the field `field` in the JSON object `fields`, or `None` if it has no such field,
/// or one that is not a single value.
pub fn line_at(alloc: Global, fields: &[u8], field: &str) -> Result<Option<String>, Failure>
    requires { IsUtf8 fields.now }
    ensures line { IfOk result (λ line. option_map string_bytes line ≡ line_at field.now (document fields.now)) }
    ensures not_write { is_write result ≡ false }
{
    match steps_of(alloc, field) {
        Ok(Some(steps)) => line_to(alloc, fields, &steps),
        Ok(None) => Ok(None),
        Err(_) => Err(Failure::Memory),
    }
}
