//! Lists of entries, each of which has a shape.

ghost use Rattle.std.specs.Prelude.{List, OnOk, flat_map};
ghost use Rattle.mp4_shown.specs.Event.{Event};
ghost use Rattle.mp4_shown.specs.Hands.{Hands};
ghost use Rattle.mp4_shown.specs.Lists.{ListName as SeenList, seen_list, shown_list};
ghost use Rattle.mp4_shown.specs.Members.{AreEntries, whole_list};
ghost use Rattle.mp4_shown.specs.declared.view.View.{View};

use crate::field_sink::{FieldSink, Result};
use crate::list_name::{ListName, begin, first};
use crate::show::{NamedShape, ShowShape};
use crate::view::View;
use mp4_declared::{Each, EachToEnd};
use mp4_frame::Entries;

/// An entry of a list that is shown by its own names.
pub trait ShownEntry {
    /// The events of an entry for a view: an item, or an entry with its members.
    ghost shown: { View → Self → List Event };

    /// Each entry is whole.
    ghost whole: { (view : View) (x : Self) → AreEntries (shown view x) };

    /// Hands the entry to a sink.
    fn show<K: FieldSink>(&self, view: View, sink: &mut K) -> Result<()>
        ensures { OnOk result (Hands K.trace K.after sink.old (shown view self.now) sink.new) };
}

/// Hands `entries` to a sink, one after the other.
fn put_each<X: ShownEntry, K: FieldSink>(entries: &[X], view: View, sink: &mut K) -> Result<()>
    ensures { OnOk result (Hands K.trace K.after sink.old (flat_map (X.shown view) entries.now) sink.new) }
{
    for entry in entries {
        entry.show(view, sink)?;
    }
    Ok(())
}

/// Hands a list of `entries` to a sink, as many of them as are wanted.
fn put_list<X: ShownEntry, K: FieldSink>(
    name: ListName,
    entries: &[X],
    view: View,
    sink: &mut K,
) -> Result<()>
    ensures { OnOk result (Hands K.trace K.after sink.old
        (shown_list (seen_list name.entry) (X.shown view) view.rows entries.now) sink.new) }
{
    begin(name, entries.len(), sink)?;
    put_each(first(entries, view.rows), view, sink)?;
    sink.end_list()
}

impl<C, X: ShownEntry> NamedShape for Each<C, X> {
    type Value = Entries<X>;

    type Names = ListName;

    ghost Seen = { SeenList };

    ghost seen = { seen_list };

    ghost shown = { λ name view xs. shown_list name (X.shown view) view.rows xs };

    ghost whole = { λ name view xs. whole_list name (X.shown view) (X.whole view) view.rows xs };
}

impl<'a, C, X: ShownEntry> ShowShape<&'a [X]> for Each<C, X> {
    ghost content = { λ entries. entries.now };

    fn show<K: FieldSink>(
        name: &ListName,
        view: View,
        value: &&'a [X],
        sink: &mut K,
    ) -> Result<()> {
        put_list(*name, *value, view, sink)
    }
}

impl<X: ShownEntry> NamedShape for EachToEnd<X> {
    type Value = Entries<X>;

    type Names = ListName;

    ghost Seen = { SeenList };

    ghost seen = { seen_list };

    ghost shown = { λ name view xs. shown_list name (X.shown view) view.rows xs };

    ghost whole = { λ name view xs. whole_list name (X.shown view) (X.whole view) view.rows xs };
}

impl<'a, X: ShownEntry> ShowShape<&'a [X]> for EachToEnd<X> {
    ghost content = { λ entries. entries.now };

    fn show<K: FieldSink>(
        name: &ListName,
        view: View,
        value: &&'a [X],
        sink: &mut K,
    ) -> Result<()> {
        put_list(*name, *value, view, sink)
    }
}

/// Stands for the entries `X` of a box that isn't declared.
pub struct EntriesOf<X>(X);

impl<X: ShownEntry> NamedShape for EntriesOf<X> {
    type Value = Entries<X>;

    type Names = ListName;

    ghost Seen = { SeenList };

    ghost seen = { seen_list };

    ghost shown = { λ name view xs. shown_list name (X.shown view) view.rows xs };

    ghost whole = { λ name view xs. whole_list name (X.shown view) (X.whole view) view.rows xs };
}

impl<'a, X: ShownEntry> ShowShape<&'a [X]> for EntriesOf<X> {
    ghost content = { λ entries. entries.now };

    fn show<K: FieldSink>(
        name: &ListName,
        view: View,
        value: &&'a [X],
        sink: &mut K,
    ) -> Result<()> {
        put_list(*name, *value, view, sink)
    }
}
