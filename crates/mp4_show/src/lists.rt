//! Lists of entries in the codec's boxes.

ghost use Rattle.std.specs.Prelude.{◌≡◌, ◌∷◌, [], List, OnOk, flat_map, map, take};
ghost use Rattle.std.proofs.Common.{refl};
ghost use Rattle.mp4_shown.specs.Event.{Event, item, number};
ghost use Rattle.mp4_shown.specs.Hands.{Hands};
ghost use Rattle.mp4_shown.specs.Members.{AreEntries};
ghost use Rattle.mp4_shown.specs.Numbers.{seen_number};
ghost use Rattle.mp4_shown.specs.declared.view.View.{View};
ghost use Rattle.mp4_show.specs.Lists.{listed, listed_if, shown_table};
ghost use Rattle.mp4_show.specs.Row.{seen_part};

use crate::row::{Part, put_row};
use mp4_shown::{FieldSink, NumberName, Result, Value, View};
use mp4_stream::Entries;

/// An entry of a list in a box of the codec. A `C` is what else decides how it is shown.
pub(crate) trait BoxEntry<C> {
    /// The events of an entry for a view: an item, or an entry with its members.
    ghost shown: { View → C → Self → List Event };

    /// Each entry is whole.
    ghost whole: { (view : View) (c : C) (x : Self) → AreEntries (shown view c x) };

    /// Hands the entry to a sink.
    fn show<K: FieldSink>(&self, view: View, context: C, sink: &mut K) -> Result<()>
        ensures { OnOk result (Hands K.trace K.after sink.old (shown view context self.now) sink.new) };
}

/// Returns the first entries, at most `rows`.
fn first<X>(entries: &[X], rows: usize) -> &[X]
    ensures { result.now ≡ take rows entries.now }
{
    if rows < entries.len() {
        &entries[..rows]
    } else {
        entries
    }
}

/// Hands `entries` to a sink, one after the other.
fn put_each<C: Copy, X: BoxEntry<C>, K: FieldSink>(
    entries: &[X],
    view: View,
    context: C,
    sink: &mut K,
) -> Result<()>
    ensures { OnOk result (Hands K.trace K.after sink.old (flat_map (X.shown view context) entries.now) sink.new) }
{
    for entry in entries {
        entry.show(view, context, sink)?;
    }
    Ok(())
}

/// Hands a list of `entries` to a sink, as many of them as are wanted.
pub(crate) fn put_list<C: Copy, X: BoxEntry<C>, K: FieldSink>(
    name: &'static str,
    entries: &Entries<X>,
    view: View,
    context: C,
    sink: &mut K,
) -> Result<()>
    ensures { OnOk result (Hands K.trace K.after sink.old
        (listed name.now (X.shown view context) view.rows entries.now) sink.new) }
{
    sink.begin_list(name, entries.len())?;
    put_each(first(entries.as_slice(), view.rows), view, context, sink)?;
    sink.end_list()
}

/// Hands a list of `entries` to a sink, as many of them as are wanted. A list without entries is left out.
pub(crate) fn put_list_if<C: Copy, X: BoxEntry<C>, K: FieldSink>(
    name: &'static str,
    entries: &Entries<X>,
    view: View,
    context: C,
    sink: &mut K,
) -> Result<()>
    ensures { OnOk result (Hands K.trace K.after sink.old
        (listed_if name.now (X.shown view context) view.rows entries.now) sink.new) }
{
    if entries.is_empty() {
        return Ok(());
    }
    put_list(name, entries, view, context, sink)
}

/// Hands `parts` to a sink, each by the name of its place, and then the list `name` of `entries`.
pub(crate) fn put_table<C: Copy, X: BoxEntry<C>, K: FieldSink>(
    names: &[NumberName],
    parts: &[Part<'_>],
    name: &'static str,
    entries: &Entries<X>,
    view: View,
    context: C,
    sink: &mut K,
) -> Result<()>
    ensures { OnOk result (Hands K.trace K.after sink.old
        (shown_table (map seen_number names.now) (map seen_part parts.now) name.now (X.shown view context) view.rows
        entries.now) sink.new) }
{
    put_row(names, parts, sink)?;
    put_list(name, entries, view, context, sink)
}

/// An entry is shown as a number.
impl BoxEntry<()> for u32 {
    ghost shown = { λ view c n. item (number n) ∷ [] };

    ghost whole = { λ view c n s. refl };

    fn show<K: FieldSink>(&self, _view: View, _context: (), sink: &mut K) -> Result<()> {
        sink.item(Value::Number(u64::from(*self)))
    }
}

/// An entry is shown as a number.
impl BoxEntry<()> for u64 {
    ghost shown = { λ view c n. item (number n) ∷ [] };

    ghost whole = { λ view c n s. refl };

    fn show<K: FieldSink>(&self, _view: View, _context: (), sink: &mut K) -> Result<()> {
        sink.item(Value::Number(*self))
    }
}
