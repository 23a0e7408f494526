//! Bit fields, and lists of entries of bit fields.

ghost use Rattle.std.specs.Prelude.{◌≡◌, ℕ, ◌*◌, ◌<◌, ◌^◌, ◌==◌, IfOk, if◌then◌else◌, map, slice_index};
ghost use Rattle.json.specs.Value.{items_view, value_view};
ghost use Rattle.mp4_declared.specs.Layout.{layout_in, widths_of, values_of};
ghost use Rattle.mp4_shown.specs.Numbers.{seen_number};
ghost use Rattle.mp4_shown.specs.TakenLists.{entries_taken, entry_numbers, item_numbers};
ghost use Rattle.mp4_shown.specs.TakenLists.{list_below, list_taken, row_numbers};
ghost use Rattle.mp4_shown.specs.TakenRuns.{each_taken};
ghost use Rattle.mp4_shown.specs.TakenShapes.{layout_taken, row_taken};
ghost use Rattle.mp4_shown.specs.Taking.{TakesAs};

use crate::taken::each::{TakeItem, take_each};
use crate::taken::error::{Reason, Result, refuse};
use crate::taken::list::{take_list, take_list_of};
use crate::taken::number::{fits, number_by, take_numbers};
use crate::taken::object::{Object, end_object, object_in};
use crate::taken::take::TakeShape;
use crate::{ListAs, ListName, NamedShape, NumberName};
use json::Value;
use mp4_declared::{Bits, Context, Count, EntryLayout, List, ListByVersion, ToEnd};
use mp4_frame::Entries;
use std::alloc::Global;

impl<X: EntryLayout<N, E>, const N: usize, const E: usize> TakeShape for Bits<X, N, E> {
    type Names = &'static [NumberName];

    type Taken = X;

    ghost Known = { ⟦<Bits<X, N, E> as NamedShape>⟧.Seen };

    ghost known = { ⟦<Bits<X, N, E> as NamedShape>⟧.seen };

    ghost taken = { λ names c ms. layout_taken X.layout names.now ms };

    fn take(
        alloc: Global,
        names: &&'static [NumberName],
        _context: Context,
        object: &mut Object<'_>,
    ) -> Result<X> {
        let numbers = take_numbers(alloc, *names, &X::widths(), object)?;
        Ok(X::from_numbers(&numbers))
    }
}

/// Returns the numbers of the entry `value`, which is an object with these names.
fn entry_numbers<const N: usize>(
    alloc: Global,
    names: &[NumberName],
    widths: &[u8; N],
    value: Value<'_>,
) -> Result<[u64; N]>
    requires { N * 8 < 2 ^ 63 }
    ensures value { TakesAs (λ ns. ns) result
        (entry_numbers (map seen_number names.now) widths.now (value_view value.entry)) }
    ensures fit { IfOk result (λ ns. (k : ℕ) → slice_index ns k < 2 ^ slice_index widths.now k) }
{
    let mut object = object_in(alloc, "", value)?;
    let numbers = take_numbers(alloc, names, widths, &mut object)?;
    end_object(alloc, &object)?;
    Ok(numbers)
}

/// Returns the numbers of the entry `value`, which is one number, the first of these names. The others are 0.
fn item_numbers<const N: usize>(
    alloc: Global,
    names: &[NumberName],
    widths: &[u8; N],
    value: &Value<'_>,
) -> Result<[u64; N]>
    requires { N * 8 < 2 ^ 63 }
    ensures value { TakesAs (λ ns. ns) result
        (item_numbers (map seen_number names.now) widths.now (value_view value.now)) }
    ensures fit { IfOk result (λ ns. (k : ℕ) → slice_index ns k < 2 ^ slice_index widths.now k) }
{
    let mut numbers = [0; N];
    if names.is_empty() || N == 0 {
        return Ok(numbers);
    }
    let number = match number_by(names[0].1, value) {
        Ok(number) => number,
        Err(reason) => return Err(refuse(alloc, "", reason)),
    };
    if !fits(number, u32::from(widths[0])) {
        return Err(refuse(alloc, "", Reason::OutOfRange));
    }
    numbers[0] = number;
    Ok(numbers)
}

/// Returns the numbers of the entry `value` of a list that is shown so.
fn row_numbers<const N: usize>(
    alloc: Global,
    list_as: ListAs,
    names: &[NumberName],
    widths: &[u8; N],
    value: Value<'_>,
) -> Result<[u64; N]>
    requires { N * 8 < 2 ^ 63 }
    ensures value { TakesAs (λ ns. ns) result
        (row_numbers list_as (map seen_number names.now) widths.now (value_view value.entry)) }
    ensures fit { IfOk result (λ ns. (k : ℕ) → slice_index ns k < 2 ^ slice_index widths.now k) }
{
    match list_as {
        ListAs::Entries | ListAs::Counted => entry_numbers(alloc, names, widths, value),
        ListAs::Items => item_numbers(alloc, names, widths, &value),
    }
}

/// An entry of bit fields, of `N` numbers in `E` bytes, of a list that is shown so.
#[derive(Drop)]
struct RowItem<'n, const N: usize, const E: usize> {
    list_as: ListAs,
    names: &'n [NumberName],
}

impl<'n, X: EntryLayout<N, E>, const N: usize, const E: usize> TakeItem<X> for RowItem<'n, N, E> {
    ghost taken = { λ by j. row_taken (layout_in X.layout).value by.list_as (map seen_number by.names.now)
        (widths_of X.layout.fields) j };

    fn take(&self, alloc: Global, value: Value<'_>) -> Result<X> {
        let numbers = row_numbers(alloc, self.list_as, self.names, &X::widths(), value)?;
        Ok(X::from_numbers(&numbers))
    }
}

/// Takes the entries `items` of the list `name`.
fn take_rows<X: EntryLayout<N, E>, const N: usize, const E: usize>(
    alloc: Global,
    name: ListName,
    names: &[NumberName],
    items: Vec<Value<'_>>,
) -> Result<Entries<X>>
    ensures { TakesAs (λ xs. xs) result (each_taken (row_taken (layout_in X.layout).value name.entry.1
        (map seen_number names.now) (widths_of X.layout.fields)) name.entry.0.now 0 (items_view items.entry.items)) }
{
    let by = RowItem::<'_, N, E> {
        list_as: name.1,
        names,
    };
    let entries: Vec<X> = take_each(alloc, name.0, &by, items)?;
    Ok(entries.into())
}

impl<C: Count, X: EntryLayout<N, E>, const N: usize, const E: usize> TakeShape
    for List<C, X, N, E> {
    type Names = (ListName, &'static [NumberName]);

    type Taken = Entries<X>;

    ghost Known = { ⟦<List<C, X, N, E> as NamedShape>⟧.Seen };

    ghost known = { ⟦<List<C, X, N, E> as NamedShape>⟧.seen };

    ghost taken = { λ names c ms. entries_taken (row_taken (layout_in X.layout).value names.0.1 names.1.now
        (widths_of X.layout.fields)) names.0 (list_below (256 ^ C.WIDTH) names.0 ms) };

    fn take(
        alloc: Global,
        names: &(ListName, &'static [NumberName]),
        _context: Context,
        object: &mut Object<'_>,
    ) -> Result<Entries<X>> {
        let items = take_list_of::<C>(alloc, names.0, object)?;
        take_rows::<X, N, E>(alloc, names.0, names.1, items)
    }
}

/// The entries have `E` bytes in version 0, and `F` in later versions.
impl<C: Count, X, const N: usize, const E: usize, const F: usize> TakeShape
    for ListByVersion<C, X, N, E, F>
where
    X: EntryLayout<N, E> + EntryLayout<N, F>,
{
    type Names = (ListName, &'static [NumberName]);

    type Taken = Entries<X>;

    ghost Known = { ⟦<ListByVersion<C, X, N, E, F> as NamedShape>⟧.Seen };

    ghost known = { ⟦<ListByVersion<C, X, N, E, F> as NamedShape>⟧.seen };

    ghost taken = { λ names c ms. if c.version == 0 then ⟦<List<C, X, N, E> as TakeShape>⟧.taken names c ms
        else ⟦<List<C, X, N, F> as TakeShape>⟧.taken names c ms };

    fn take(
        alloc: Global,
        names: &(ListName, &'static [NumberName]),
        context: Context,
        object: &mut Object<'_>,
    ) -> Result<Entries<X>> {
        if context.version == 0 {
            <List<C, X, N, E> as TakeShape>::take(alloc, names, context, object)
        } else {
            <List<C, X, N, F> as TakeShape>::take(alloc, names, context, object)
        }
    }
}

impl<X: EntryLayout<N, E>, const N: usize, const E: usize> TakeShape for ToEnd<X, N, E> {
    type Names = (ListName, &'static [NumberName]);

    type Taken = Entries<X>;

    ghost Known = { ⟦<ToEnd<X, N, E> as NamedShape>⟧.Seen };

    ghost known = { ⟦<ToEnd<X, N, E> as NamedShape>⟧.seen };

    ghost taken = { λ names c ms. entries_taken (row_taken (layout_in X.layout).value names.0.1 names.1.now
        (widths_of X.layout.fields)) names.0 (list_taken names.0 ms) };

    fn take(
        alloc: Global,
        names: &(ListName, &'static [NumberName]),
        _context: Context,
        object: &mut Object<'_>,
    ) -> Result<Entries<X>> {
        let items = take_list(alloc, names.0, object)?;
        take_rows::<X, N, E>(alloc, names.0, names.1, items)
    }
}
