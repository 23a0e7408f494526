//! Three to five shapes, one after the other: the first one, and then the others.

use crate::field_sink::{FieldSink, Result};
use crate::show::{NamedShape, ShowShape};
use crate::view::View;

impl<A: NamedShape, B: NamedShape, C: NamedShape> NamedShape for (A, B, C) {
    type Value = (A::Value, (B::Value, C::Value));

    type Names = (A::Names, (B::Names, C::Names));

    ghost Seen = { ⟦<(A, (B, C)) as NamedShape>⟧.Seen };

    ghost seen = { ⟦<(A, (B, C)) as NamedShape>⟧.seen };

    ghost shown = { ⟦<(A, (B, C)) as NamedShape>⟧.shown };

    ghost whole = { ⟦<(A, (B, C)) as NamedShape>⟧.whole };
}

impl<A, B, C, T, U, V> ShowShape<(T, (U, V))> for (A, B, C)
where
    A: ShowShape<T>,
    B: ShowShape<U>,
    C: ShowShape<V>,
{
    ghost content = { ⟦<(A, (B, C)) as ShowShape<(T, (U, V))>>⟧.content };

    fn show<K: FieldSink>(
        names: &Self::Names,
        view: View,
        value: &(T, (U, V)),
        sink: &mut K,
    ) -> Result<()> {
        <(A, (B, C)) as ShowShape<(T, (U, V))>>::show(names, view, value, sink)
    }
}

impl<A: NamedShape, B: NamedShape, C: NamedShape, D: NamedShape> NamedShape for (A, B, C, D) {
    type Value = (A::Value, (B::Value, (C::Value, D::Value)));

    type Names = (A::Names, (B::Names, (C::Names, D::Names)));

    ghost Seen = { ⟦<(A, (B, C, D)) as NamedShape>⟧.Seen };

    ghost seen = { ⟦<(A, (B, C, D)) as NamedShape>⟧.seen };

    ghost shown = { ⟦<(A, (B, C, D)) as NamedShape>⟧.shown };

    ghost whole = { ⟦<(A, (B, C, D)) as NamedShape>⟧.whole };
}

impl<A, B, C, D, T, U, V, W> ShowShape<(T, (U, (V, W)))> for (A, B, C, D)
where
    A: ShowShape<T>,
    B: ShowShape<U>,
    C: ShowShape<V>,
    D: ShowShape<W>,
{
    ghost content = { ⟦<(A, (B, C, D)) as ShowShape<(T, (U, (V, W)))>>⟧.content };

    fn show<K: FieldSink>(
        names: &Self::Names,
        view: View,
        value: &(T, (U, (V, W))),
        sink: &mut K,
    ) -> Result<()> {
        <(A, (B, C, D)) as ShowShape<(T, (U, (V, W)))>>::show(names, view, value, sink)
    }
}

impl<A, B, C, D, E> NamedShape for (A, B, C, D, E)
where
    A: NamedShape,
    B: NamedShape,
    C: NamedShape,
    D: NamedShape,
    E: NamedShape,
{
    type Value = (A::Value, (B::Value, (C::Value, (D::Value, E::Value))));

    type Names = (A::Names, (B::Names, (C::Names, (D::Names, E::Names))));

    ghost Seen = { ⟦<(A, (B, C, D, E)) as NamedShape>⟧.Seen };

    ghost seen = { ⟦<(A, (B, C, D, E)) as NamedShape>⟧.seen };

    ghost shown = { ⟦<(A, (B, C, D, E)) as NamedShape>⟧.shown };

    ghost whole = { ⟦<(A, (B, C, D, E)) as NamedShape>⟧.whole };
}

impl<A, B, C, D, E, T, U, V, W, X> ShowShape<(T, (U, (V, (W, X))))> for (A, B, C, D, E)
where
    A: ShowShape<T>,
    B: ShowShape<U>,
    C: ShowShape<V>,
    D: ShowShape<W>,
    E: ShowShape<X>,
{
    ghost content = { ⟦<(A, (B, C, D, E)) as ShowShape<(T, (U, (V, (W, X))))>>⟧.content };

    fn show<K: FieldSink>(
        names: &Self::Names,
        view: View,
        value: &(T, (U, (V, (W, X)))),
        sink: &mut K,
    ) -> Result<()> {
        <(A, (B, C, D, E)) as ShowShape<(T, (U, (V, (W, X))))>>::show(names, view, value, sink)
    }
}
