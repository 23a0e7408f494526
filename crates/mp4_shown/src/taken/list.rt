//! Lists that are taken out of an object.

ghost use Rattle.std.specs.Prelude.{◌≡◌, ◌^◌, nat_lt};
ghost use Rattle.json.specs.Value.{items_view, value_view};
ghost use Rattle.mp4_shown.specs.Lists.{seen_list};
ghost use Rattle.mp4_shown.specs.TakenLists.{count_by, count_taken, length_of, list_below, list_taken};
ghost use Rattle.mp4_shown.specs.Object.{is_number, left};
ghost use Rattle.mp4_shown.specs.TakenRuns.{items_in};
ghost use Rattle.mp4_shown.specs.Taking.{TakesAs};
ghost use Rattle.mp4_shown.specs.TakenValues.{whole_in};

use crate::taken::error::{Reason, Result, refuse};
use crate::taken::integer::unsigned_in;
use crate::taken::object::Object;
use crate::{ListAs, ListName};
use json::Value;
use mp4_declared::Count;
use std::alloc::Global;

/// Returns the items of the array `value`. Another value is refused, with the path `path`.
pub(crate) fn array_in<'a>(alloc: Global, path: &str, value: Value<'a>) -> Result<Vec<Value<'a>>>
    ensures { TakesAs (λ items. items_view items.items) result (items_in path.now (value_view value.entry)) }
{
    match value {
        Value::Array(items) => Ok(items),
        Value::Null | Value::Bool(_) | Value::Number(_) | Value::String(_) | Value::Object(_) => {
            Err(refuse(alloc, path, Reason::NotArray))
        }
    }
}

/// Returns whether `value` is the number `count`.
fn is_count(value: &Value<'_>, count: usize) -> bool
    ensures { result ≡ is_number count (whole_in (value_view value.now)) }
{
    match unsigned_in(value) {
        Some(number) => number == count as u64,
        None => false,
    }
}

/// Takes the count `name` out, if it is present, and checks that it is `count`.
pub fn take_count(alloc: Global, name: &str, count: usize, object: &mut Object<'_>) -> Result<()>
    ensures { TakesAs (λ _. left object.new) result (count_taken name.now count (left object.old)) }
{
    let Some(value) = object.take_out(alloc, name)? else {
        return Ok(());
    };
    if is_count(&value, count) {
        Ok(())
    } else {
        Err(refuse(alloc, name, Reason::Contradiction))
    }
}

/// Takes the count `name` out if a list that is shown so has one.
fn take_count_of(
    alloc: Global,
    list_as: ListAs,
    name: &str,
    count: usize,
    object: &mut Object<'_>,
) -> Result<()>
    ensures { TakesAs (λ _. left object.new) result (count_by name.now list_as count (left object.old)) }
{
    match list_as {
        ListAs::Counted => take_count(alloc, name, count, object),
        ListAs::Entries | ListAs::Items => Ok(()),
    }
}

/// Returns the number of `items`.
#[tactic(auto, using(crate::proofs::TakenCounts::items_length))]
pub fn number_of(items: &[Value<'_>]) -> usize
    ensures { result ≡ length_of (items_view items.now) }
{
    items.len()
}

/// Takes the list called `name` out, and its count if that is shown and present. Returns its entries.
pub fn take_list<'a>(
    alloc: Global,
    name: ListName,
    object: &mut Object<'a>,
) -> Result<Vec<Value<'a>>>
    ensures { TakesAs (λ items. (items_view items.items, left object.new)) result
        (list_taken (seen_list name.entry) (left object.old)) }
{
    let (name, list_as, count) = name;
    let value = object.take_one(alloc, name)?;
    let items = array_in(alloc, name, value)?;
    take_count_of(alloc, list_as, count, number_of(items.as_slice()), object)?;
    Ok(items)
}

/// Takes the list called `name` out, like `take_list`. Refuses more entries than a `C` can count.
pub(crate) fn take_list_of<'a, C: Count>(
    alloc: Global,
    name: ListName,
    object: &mut Object<'a>,
) -> Result<Vec<Value<'a>>>
    ensures { TakesAs (λ items. (items_view items.items, left object.new)) result
        (list_below (256 ^ C.WIDTH) (seen_list name.entry) (left object.old)) }
{
    let items = take_list(alloc, name, object)?;
    if count_fits::<C>(number_of(items.as_slice()) as u64) {
        Ok(items)
    } else {
        Err(refuse(alloc, name.0, Reason::TooMany))
    }
}

/// Returns whether the count `count` fits a `C`.
#[tactic(auto, using(crate::proofs::TakenCounts::bits_of_bytes))]
pub(crate) fn count_fits<C: Count>(count: u64) -> bool
    ensures { result ≡ nat_lt count (256 ^ C.WIDTH) }
{
    crate::taken::number::fits(count, 8 * C::WIDTH as u32)
}
