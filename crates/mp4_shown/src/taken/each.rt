//! The entries of a list, one after the other.

ghost use Rattle.std.specs.Prelude.{◌≡◌};
ghost use Rattle.json.specs.Json.{Json};
ghost use Rattle.json.specs.Value.{items_view, value_view};
ghost use Rattle.mp4_shown.specs.TakenRuns.{each_taken};
ghost use Rattle.mp4_shown.specs.Taking.{Taking, TakesAs, entry_path, within};

use crate::taken::error::Result;
use json::Value;
use std::alloc::Global;
use std::collections::VecDeque;

/// A way to take an entry of type `X` from its value.
pub trait TakeItem<X> {
    /// Gives the entry that a value is, or the first fault. The path of a member begins in the entry.
    ghost taken: { Self → Json → Taking X };

    /// Takes an entry from `value`.
    fn take(&self, alloc: Global, value: Value<'_>) -> Result<X>
        ensures { TakesAs (λ x. x) result (taken self.now (value_view value.entry)) };
}

/// Takes the entry with the index `index` of the list `name` from `value`.
fn take_at<X, T: TakeItem<X>>(
    alloc: Global,
    name: &str,
    index: usize,
    by: &T,
    value: Value<'_>,
) -> Result<X>
    ensures { TakesAs (λ x. x) result (within (entry_path name.now index) (T.taken by.now (value_view value.entry))) }
{
    match by.take(alloc, value) {
        Ok(entry) => Ok(entry),
        Err(error) => Err(error.in_entry(alloc, name, index)),
    }
}

/// Takes the entries `items` of the list `name`.
pub fn take_each<X: Drop, T: TakeItem<X>>(
    alloc: Global,
    name: &str,
    by: &T,
    items: Vec<Value<'_>>,
) -> Result<Vec<X>>
    ensures { TakesAs (λ xs. xs.items) result (each_taken (T.taken by.now) name.now 0 (items_view items.entry.items)) }
{
    let count = items.len();
    let mut rest = VecDeque::from_vec(items);
    let mut entries = Vec::new(alloc);
    for index in 0..count {
        let Some(value) = rest.pop_front() else {
            return Ok(entries);
        };
        let entry = take_at(alloc, name, index, by, value)?;
        entries.push(entry)?;
    }
    Ok(entries)
}
