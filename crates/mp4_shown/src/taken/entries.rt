//! Lists of entries, each of which has a shape.

ghost use Rattle.std.specs.Prelude.{◌^◌};
ghost use Rattle.mp4_shown.specs.TakenLists.{entries_taken, list_below, list_taken};

use crate::taken::each::{TakeItem, take_each};
use crate::taken::error::Result;
use crate::taken::list::{take_list, take_list_of};
use crate::taken::object::Object;
use crate::taken::take::{TakeEntry, TakeShape};
use crate::{EntriesOf, ListName, NamedShape, ShownEntry};
use json::Value;
use mp4_declared::{Context, Count, Each, EachToEnd};
use mp4_frame::Entries;
use std::alloc::Global;

/// An entry that is an `X` in a context.
#[derive(Drop)]
pub struct EntryItem {
    /// The context.
    pub context: Context,
}

impl<X: TakeEntry> TakeItem<X> for EntryItem {
    ghost taken = { λ by j. X.taken by.context j };

    fn take(&self, alloc: Global, value: Value<'_>) -> Result<X> {
        X::take(alloc, self.context, value)
    }
}

impl<C: Count, X: ShownEntry + TakeEntry> TakeShape for Each<C, X> {
    type Names = ListName;

    type Taken = Entries<X>;

    ghost Known = { ⟦<Each<C, X> as NamedShape>⟧.Seen };

    ghost known = { ⟦<Each<C, X> as NamedShape>⟧.seen };

    ghost taken = { λ name c ms. entries_taken (X.TakeEntry.taken c) name (list_below (256 ^ C.WIDTH) name ms) };

    fn take(
        alloc: Global,
        name: &ListName,
        context: Context,
        object: &mut Object<'_>,
    ) -> Result<Entries<X>> {
        let items = take_list_of::<C>(alloc, *name, object)?;
        let entries: Vec<X> = take_each(alloc, name.0, &EntryItem { context }, items)?;
        Ok(entries.into())
    }
}

impl<X: ShownEntry + TakeEntry> TakeShape for EachToEnd<X> {
    type Names = ListName;

    type Taken = Entries<X>;

    ghost Known = { ⟦<EachToEnd<X> as NamedShape>⟧.Seen };

    ghost known = { ⟦<EachToEnd<X> as NamedShape>⟧.seen };

    ghost taken = { λ name c ms. entries_taken (X.TakeEntry.taken c) name (list_taken name ms) };

    fn take(
        alloc: Global,
        name: &ListName,
        context: Context,
        object: &mut Object<'_>,
    ) -> Result<Entries<X>> {
        let items = take_list(alloc, *name, object)?;
        let entries: Vec<X> = take_each(alloc, name.0, &EntryItem { context }, items)?;
        Ok(entries.into())
    }
}

impl<X: ShownEntry + TakeEntry> TakeShape for EntriesOf<X> {
    type Names = ListName;

    type Taken = Entries<X>;

    ghost Known = { ⟦<EntriesOf<X> as NamedShape>⟧.Seen };

    ghost known = { ⟦<EntriesOf<X> as NamedShape>⟧.seen };

    ghost taken = { λ name c ms. entries_taken (X.TakeEntry.taken c) name (list_taken name ms) };

    fn take(
        alloc: Global,
        name: &ListName,
        context: Context,
        object: &mut Object<'_>,
    ) -> Result<Entries<X>> {
        let items = take_list(alloc, *name, object)?;
        let entries: Vec<X> = take_each(alloc, name.0, &EntryItem { context }, items)?;
        Ok(entries.into())
    }
}
