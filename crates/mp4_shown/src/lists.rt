//! Bit fields, and lists of entries of bit fields.

ghost use Rattle.std.specs.Prelude.{◌++◌, OnOk, false, flat_map, map};
ghost use Rattle.mp4_declared.specs.Layout.{numbers_of};
ghost use Rattle.mp4_shown.specs.Members.{whole_list, whole_numbers, whole_row};
ghost use Rattle.mp4_shown.specs.Hands.{Hands};
ghost use Rattle.mp4_shown.specs.Lists.{ListName as SeenList, row_as, seen_list, shown_list};
ghost use Rattle.mp4_shown.specs.Numbers.{NumberNames as SeenNames, seen_number, seen_numbers, shown_numbers};

use crate::field_sink::{FieldSink, Result};
use crate::list_name::{ListAs, ListName, begin, first};
use crate::number_name::{NumberName, put_numbers};
use crate::show::{NamedShape, ShowShape};
use crate::view::View;
use mp4_declared::{Bits, Count, EntryLayout, List, ListByVersion, ToEnd};
use mp4_frame::Entries;

impl<X: EntryLayout<N, E>, const N: usize, const E: usize> NamedShape for Bits<X, N, E> {
    type Value = X;

    type Names = &'static [NumberName];

    ghost Seen = { SeenNames };

    ghost seen = { seen_numbers };

    ghost shown = { λ names view x. shown_numbers false names.now (numbers_of X.layout.fields (X.layout.content x)) };

    ghost whole = { λ names view x. whole_numbers names.now (numbers_of X.layout.fields (X.layout.content x)) };
}

impl<X: EntryLayout<N, E>, const N: usize, const E: usize> ShowShape<X> for Bits<X, N, E> {
    ghost content = { λ x. x };

    fn show<K: FieldSink>(
        names: &&'static [NumberName],
        _view: View,
        value: &X,
        sink: &mut K,
    ) -> Result<()> {
        put_numbers(false, *names, &value.numbers(), sink)
    }
}

/// Hands an entry of `numbers` to a sink.
fn put_row<K: FieldSink>(
    list_as: ListAs,
    names: &[NumberName],
    numbers: &[u64],
    sink: &mut K,
) -> Result<()>
    ensures { OnOk result (Hands K.trace K.after sink.old
        (row_as list_as (map seen_number names.now) numbers.now) sink.new) }
{
    match list_as {
        ListAs::Entries | ListAs::Counted => {
            sink.begin_entry()?;
            put_numbers(false, names, numbers, sink)?;
            sink.end_entry()
        }
        ListAs::Items => put_numbers(true, names, numbers, sink),
    }
}

/// Hands `entries` to a sink, one after the other.
fn put_rows<X: EntryLayout<N, E>, const N: usize, const E: usize, K: FieldSink>(
    list_as: ListAs,
    names: &[NumberName],
    entries: &[X],
    sink: &mut K,
) -> Result<()>
    ensures { OnOk result (Hands K.trace K.after sink.old (flat_map
        (λ x. row_as list_as (map seen_number names.now) (numbers_of X.layout.fields (X.layout.content x))) entries.now)
        sink.new) }
{
    for entry in entries {
        put_row(list_as, names, &entry.numbers(), sink)?;
    }
    Ok(())
}

/// Hands a list of `entries` to a sink, at most `rows` of them.
fn put_list<X: EntryLayout<N, E>, const N: usize, const E: usize, K: FieldSink>(
    name: ListName,
    names: &[NumberName],
    rows: usize,
    entries: &[X],
    sink: &mut K,
) -> Result<()>
    ensures { OnOk result (Hands K.trace K.after sink.old (shown_list (seen_list name.entry)
        (λ x. row_as name.entry.1 (map seen_number names.now) (numbers_of X.layout.fields (X.layout.content x)))
        rows entries.now) sink.new) }
{
    begin(name, entries.len(), sink)?;
    put_rows(name.1, names, first(entries, rows), sink)?;
    sink.end_list()
}

impl<C: Count, X: EntryLayout<N, E>, const N: usize, const E: usize> NamedShape
    for List<C, X, N, E> {
    type Value = Entries<X>;

    type Names = (ListName, &'static [NumberName]);

    ghost Seen = { SeenList × SeenNames };

    ghost seen = { λ names. (seen_list names.0, seen_numbers names.1) };

    ghost shown = { λ names view xs. shown_list names.0
        (λ x. row_as names.0.1 names.1.now (numbers_of X.layout.fields (X.layout.content x))) view.rows xs };

    ghost whole = { λ names view xs. whole_list names.0
        (λ x. row_as names.0.1 names.1.now (numbers_of X.layout.fields (X.layout.content x)))
        (λ x. whole_row names.0.1 names.1.now (numbers_of X.layout.fields (X.layout.content x))) view.rows xs };
}

impl<'a, C: Count, X: EntryLayout<N, E>, const N: usize, const E: usize> ShowShape<&'a [X]>
    for List<C, X, N, E> {
    ghost content = { λ entries. entries.now };

    fn show<K: FieldSink>(
        names: &(ListName, &'static [NumberName]),
        view: View,
        value: &&'a [X],
        sink: &mut K,
    ) -> Result<()> {
        put_list(names.0, names.1, view.rows, *value, sink)
    }
}

/// The entries have the same numbers in all versions.
impl<C: Count, X, const N: usize, const E: usize, const F: usize> NamedShape
    for ListByVersion<C, X, N, E, F>
where
    X: EntryLayout<N, E> + EntryLayout<N, F>,
{
    type Value = Entries<X>;

    type Names = (ListName, &'static [NumberName]);

    ghost Seen = { SeenList × SeenNames };

    ghost seen = { λ names. (seen_list names.0, seen_numbers names.1) };

    ghost shown = { ⟦<List<C, X, N, F> as NamedShape>⟧.shown };

    ghost whole = { ⟦<List<C, X, N, F> as NamedShape>⟧.whole };
}

impl<'a, C: Count, X, const N: usize, const E: usize, const F: usize> ShowShape<&'a [X]>
    for ListByVersion<C, X, N, E, F>
where
    X: EntryLayout<N, E> + EntryLayout<N, F>,
{
    ghost content = { λ entries. entries.now };

    fn show<K: FieldSink>(
        names: &(ListName, &'static [NumberName]),
        view: View,
        value: &&'a [X],
        sink: &mut K,
    ) -> Result<()> {
        <List<C, X, N, F> as ShowShape<&'a [X]>>::show(names, view, value, sink)
    }
}

impl<X: EntryLayout<N, E>, const N: usize, const E: usize> NamedShape for ToEnd<X, N, E> {
    type Value = Entries<X>;

    type Names = (ListName, &'static [NumberName]);

    ghost Seen = { SeenList × SeenNames };

    ghost seen = { λ names. (seen_list names.0, seen_numbers names.1) };

    ghost shown = { λ names view xs. shown_list names.0
        (λ x. row_as names.0.1 names.1.now (numbers_of X.layout.fields (X.layout.content x))) view.rows xs };

    ghost whole = { λ names view xs. whole_list names.0
        (λ x. row_as names.0.1 names.1.now (numbers_of X.layout.fields (X.layout.content x)))
        (λ x. whole_row names.0.1 names.1.now (numbers_of X.layout.fields (X.layout.content x))) view.rows xs };
}

impl<'a, X: EntryLayout<N, E>, const N: usize, const E: usize> ShowShape<&'a [X]>
    for ToEnd<X, N, E> {
    ghost content = { λ entries. entries.now };

    fn show<K: FieldSink>(
        names: &(ListName, &'static [NumberName]),
        view: View,
        value: &&'a [X],
        sink: &mut K,
    ) -> Result<()> {
        put_list(names.0, names.1, view.rows, *value, sink)
    }
}
