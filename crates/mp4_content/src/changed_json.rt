//! Changes values in JSON.

ghost use Rattle.std.specs.Prelude.{◌≡◌, ◌≤◌, ◌++◌, [], IfOk, OnOk, Some, length, map, option_map, string_bytes};
ghost use Rattle.std.specs.List.{insert};
ghost use Rattle.std.specs.Str.{IsUtf8};
ghost use Rattle.json.specs.Json.{document, member, object};
ghost use Rattle.json.specs.Tree.{HasNumbers, ItemsHaveNumbers, MembersHaveNumbers};
ghost use Rattle.json.specs.Value.{items_view, value_view};
ghost use Rattle.mp4_content.specs.ChangedJson.{BecomesMissing, before_hex, dropped, put_at, set_member, set_text};
ghost use Rattle.mp4_content.specs.ChangedJson.{text_put, text_put_if, value_of};
ghost use Rattle.mp4_content.specs.Field.{place_of};
ghost use Rattle.mp4_shown.specs.Object.{left};
ghost use Rattle.mp4_shown.specs.TakenRuns.{items_in};
ghost use Rattle.mp4_shown.specs.Taking.{TakesAs};

use crate::field::{Step, steps_of};
use json::{Scratch, Value, to_vec};
use mp4_shown::taken::{Error, Object, Reason, Result, object_in, refuse, with_suffix};
use std::alloc::{AllocError, Global};

/// Returns the value that `text` is: that of a JSON text, or else the text itself.
fn value_of<'a>(
    alloc: Global,
    text: &'a str,
    scratch: &'a mut Scratch,
) -> std::result::Result<Value<'a>, AllocError>
    ensures value { IfOk result (λ v. value_view v ≡ value_of text.now) }
    ensures numbers { IfOk result (λ v. HasNumbers (value_view v)) }
{
    match Value::parse(alloc, text, scratch) {
        Ok(value) => Ok(value),
        Err(json::Error::Invalid) => Ok(Value::String(text)),
        Err(_) => Err(AllocError),
    }
}

/// Takes the member `name` out, if there is one.
fn drop_member(alloc: Global, object: &mut Object<'_>, name: &str) -> Result<()>
    requires { MembersHaveNumbers (left object.old) }
    ensures value { TakesAs (λ _. left object.new) result (dropped name.now (left object.old)) }
    ensures numbers { OnOk result (MembersHaveNumbers (left object.new)) }
{
    object.take_out(alloc, name)?;
    Ok(())
}

/// Takes the member out that is called `name` and then `suffix`, if there is one.
fn drop_beside(alloc: Global, object: &mut Object<'_>, name: &str, suffix: &str) -> Result<()>
    requires { MembersHaveNumbers (left object.old) }
    ensures value { TakesAs (λ _. left object.new) result (dropped (name.now ++ suffix.now) (left object.old)) }
    ensures numbers { OnOk result (MembersHaveNumbers (left object.new)) }
{
    let name = with_suffix(alloc, name, suffix)?;
    drop_member(alloc, object, name.as_str())
}

/// Returns what is before `_hex` at the end of `name`, or `None` if it has another end.
fn before_hex(name: &str) -> Option<&str>
    ensures { option_map (λ text. text.now) result ≡ before_hex name.now }
{
    name.strip_suffix("_hex")
}

/// Puts the member `name` before the others.
fn put_first<'a>(
    object: &mut Object<'a>,
    name: &'a str,
    value: Value<'a>,
) -> std::result::Result<(), AllocError>
    ensures { OnOk result (left object.new ≡ member name.now (value_view value.entry) (left object.old)) }
{
    match object.members.insert(0, (name, value)) {
        Ok(()) => Ok(()),
        Err(_) => Err(AllocError),
    }
}

/// Sets the member `name` to `new`, and leaves out what follows from it: its meaning, and the bytes beside it, or the
/// text beside these bytes.
fn set_member<'a>(
    alloc: Global,
    object: &mut Object<'a>,
    name: &'a str,
    new: Value<'a>,
) -> Result<()>
    requires members { MembersHaveNumbers (left object.old) }
    requires new { HasNumbers (value_view new) }
    ensures value { TakesAs (λ _. left object.new) result
        (set_member name.now (value_view new.entry) (left object.old)) }
    ensures numbers { OnOk result (MembersHaveNumbers (left object.new)) }
{
    drop_member(alloc, object, name)?;
    drop_beside(alloc, object, name, "_name")?;
    drop_beside(alloc, object, name, "_hex")?;
    if let Some(text) = before_hex(name) {
        drop_member(alloc, object, text)?;
    }
    put_first(object, name, new)?;
    Ok(())
}

/// Returns the items of the array `value`. Another value is refused.
fn items_of<'a>(alloc: Global, value: Value<'a>) -> Result<Vec<Value<'a>>>
    requires { HasNumbers (value_view value) }
    ensures value { TakesAs (λ items. items_view items.items) result (items_in [] (value_view value.entry)) }
    ensures numbers { IfOk result (λ items. ItemsHaveNumbers (items_view items.items)) }
{
    match value {
        Value::Array(items) => Ok(items),
        Value::Null | Value::Bool(_) | Value::Number(_) | Value::String(_) | Value::Object(_) => {
            Err(refuse(alloc, "", Reason::NotArray))
        }
    }
}

/// Returns the object of the members that are left.
fn whole<'a>(rest: Object<'a>) -> Value<'a>
    ensures { value_view result ≡ object (left rest.entry) }
{
    let Object { members } = rest;
    Value::Object(members)
}

/// Puts `item` before the item of the number `number`.
fn put_item<'a>(
    items: &mut Vec<Value<'a>>,
    number: usize,
    item: Value<'a>,
) -> std::result::Result<(), AllocError>
    requires { number ≤ length items.old.items }
    ensures { OnOk result (items.new.items ≡ insert items.old.items number item.entry) }
{
    match items.insert(number, item) {
        Ok(()) => Ok(()),
        Err(_) => Err(AllocError),
    }
}

/// Returns `value` with `new` at the end of `steps`. It is refused if a step leads nowhere.
fn put_at<'a>(
    alloc: Global,
    value: Value<'a>,
    steps: &[Step<'a>],
    new: Value<'a>,
) -> Result<Value<'a>>
    requires value { HasNumbers (value_view value) }
    requires new { HasNumbers (value_view new) }
    ensures value { TakesAs value_view result
        (put_at (map place_of steps.now) (value_view new.entry) (value_view value.entry)) }
    ensures numbers { IfOk result (λ v. HasNumbers (value_view v)) }
{
    let Some((step, rest)) = steps.split_first() else {
        return Ok(new);
    };
    match *step {
        Step::Member(name) => {
            let mut object = object_in(alloc, "", value)?;
            if rest.is_empty() {
                set_member(alloc, &mut object, name, new)?;
            } else {
                let inside = object.take_one(alloc, name)?;
                let inside = put_at(alloc, inside, rest, new)?;
                put_first(&mut object, name, inside)?;
            }
            Ok(whole(object))
        }
        Step::Entry(number) => {
            let mut items = items_of(alloc, value)?;
            if number >= items.len() {
                return Err(refuse(alloc, "", Reason::Missing));
            }
            let inside = items.remove(number);
            let inside = put_at(alloc, inside, rest, new)?;
            put_item(&mut items, number, inside)?;
            Ok(Value::Array(items))
        }
    }
}

/// Returns the error that memory is refused if `error` is this one, or else that the field `field` is missing.
fn missing(alloc: Global, field: &str, error: Error) -> Error
    ensures { BecomesMissing field.now error result }
{
    match error {
        Error::OutOfMemory => Error::OutOfMemory,
        Error::Refused(_) => refuse(alloc, field, Reason::Missing),
    }
}

/// Returns the text of `bytes`, which are UTF-8.
pub(crate) fn text_of(bytes: Vec<u8>) -> String
    requires { IsUtf8 bytes.items }
    ensures { string_bytes result ≡ bytes.items }
{
    String::from_utf8(bytes).unwrap()
}

/// Returns the JSON text of `value` with `new` at the end of `steps`.
fn changed_text<'a>(
    alloc: Global,
    value: Value<'a>,
    steps: &[Step<'a>],
    new: Value<'a>,
) -> Result<String>
    requires value { HasNumbers (value_view value) }
    requires new { HasNumbers (value_view new) }
    ensures { TakesAs string_bytes result
        (text_put (map place_of steps.now) (value_view new.entry) (value_view value.entry)) }
{
    let changed = put_at(alloc, value, steps, new)?;
    let bytes = to_vec(alloc, &changed)?;
    Ok(text_of(bytes))
}

/// Returns the JSON text of `object` with what the text `value` stands for at the end of `steps`.
fn value_put<'a>(
    alloc: Global,
    object: Value<'a>,
    steps: &[Step<'a>],
    value: &'a str,
    scratch: &'a mut Scratch,
) -> Result<String>
    requires { HasNumbers (value_view object) }
    ensures { TakesAs string_bytes result
        (text_put (map place_of steps.now) (value_of value.now) (value_view object.entry)) }
{
    let new = value_of(alloc, value, scratch)?;
    changed_text(alloc, object, steps, new)
}

/// Returns the JSON text `text` with what the text `value` stands for at the end of `steps`.
fn set_at<'a>(
    alloc: Global,
    text: &'a str,
    steps: &[Step<'a>],
    value: &'a str,
    scratch: &'a mut Scratch,
) -> Result<String>
    ensures { TakesAs string_bytes result
        (text_put_if (Some (map place_of steps.now)) (value_of value.now) (document text.now)) }
{
    let object = match Value::parse(alloc, text, scratch) {
        Ok(object) => object,
        Err(json::Error::Invalid) => return Err(refuse(alloc, "", Reason::NotJson)),
        Err(_) => return Err(Error::OutOfMemory),
    };
    let mut beside = Scratch::new(alloc);
    value_put(alloc, object, steps, value, &mut beside)
}

/// Returns the JSON text `text` of an object with the field `field` set to what the text `value` stands for. Any
/// refusal says that this field is missing.
pub(crate) fn set_text(alloc: Global, text: &str, field: &str, value: &str) -> Result<String>
    ensures { TakesAs string_bytes result (set_text field.now value.now text.now) }
{
    let Some(steps) = steps_of(alloc, field)? else {
        return Err(refuse(alloc, field, Reason::Missing));
    };
    let mut scratch = Scratch::new(alloc);
    match set_at(alloc, text, &steps, value, &mut scratch) {
        Ok(changed) => Ok(changed),
        Err(error) => Err(missing(alloc, field, error)),
    }
}
