//! Shapes that follow one another, and shapes with a front that isn't shown.

ghost use Rattle.std.specs.Prelude.{◌++◌};
ghost use Rattle.mp4_shown.specs.Members.{members_append, whole_number};
ghost use Rattle.mp4_shown.specs.Numbers.{NumberName as SeenName, seen_number, shown_number};

use crate::field_sink::{FieldSink, Result};
use crate::number_name::{NumberName, put_number};
use crate::show::{NamedShape, ShowShape};
use crate::view::View;
use mp4_declared::{Full, Last, Reserved, WithSize};

impl<A: NamedShape, B: NamedShape> NamedShape for (A, B) {
    type Value = (A::Value, B::Value);

    type Names = (A::Names, B::Names);

    ghost Seen = { A.Seen × B.Seen };

    ghost seen = { λ names. (A.seen names.0, B.seen names.1) };

    ghost shown = { λ names view v. A.shown names.0 view v.0 ++ B.shown names.1 view v.1 };

    ghost whole = { λ names view v. members_append (A.shown names.0 view v.0) (B.shown names.1 view v.1)
        (A.whole names.0 view v.0) (B.whole names.1 view v.1) };
}

impl<A: ShowShape<V>, B: ShowShape<W>, V, W> ShowShape<(V, W)> for (A, B) {
    ghost content = { λ v. (A.content v.0, B.content v.1) };

    fn show<K: FieldSink>(
        names: &(A::Names, B::Names),
        view: View,
        value: &(V, W),
        sink: &mut K,
    ) -> Result<()> {
        A::show(&names.0, view, &value.0, sink)?;
        B::show(&names.1, view, &value.1, sink)
    }
}

impl<S: NamedShape> NamedShape for Last<S> {
    type Value = (S::Value, ());

    type Names = (S::Names, ());

    ghost Seen = { S.Seen × Unit {0} };

    ghost seen = { λ names. (S.seen names.0, tt) };

    ghost shown = { λ names view v. S.shown names.0 view v.0 };

    ghost whole = { λ names view v. S.whole names.0 view v.0 };
}

impl<S: ShowShape<V>, V> ShowShape<(V, ())> for Last<S> {
    ghost content = { λ v. (S.content v.0, tt) };

    fn show<K: FieldSink>(
        names: &(S::Names, ()),
        view: View,
        value: &(V, ()),
        sink: &mut K,
    ) -> Result<()> {
        S::show(&names.0, view, &value.0, sink)
    }
}

impl<const N: usize, S: NamedShape> NamedShape for Reserved<N, S> {
    type Value = S::Value;

    type Names = S::Names;

    ghost Seen = { S.Seen };

    ghost seen = { S.seen };

    ghost shown = { S.shown };

    ghost whole = { S.whole };
}

impl<const N: usize, S: ShowShape<V>, V> ShowShape<V> for Reserved<N, S> {
    ghost content = { S.content };

    fn show<K: FieldSink>(names: &S::Names, view: View, value: &V, sink: &mut K) -> Result<()> {
        S::show(names, view, value, sink)
    }
}

/// The size isn't shown.
impl<S: NamedShape> NamedShape for WithSize<S> {
    type Value = S::Value;

    type Names = S::Names;

    ghost Seen = { S.Seen };

    ghost seen = { S.seen };

    ghost shown = { S.shown };

    ghost whole = { S.whole };
}

impl<S: ShowShape<V>, V> ShowShape<V> for WithSize<S> {
    ghost content = { S.content };

    fn show<K: FieldSink>(names: &S::Names, view: View, value: &V, sink: &mut K) -> Result<()> {
        S::show(names, view, value, sink)
    }
}

impl<const N: usize, S: NamedShape> NamedShape for Full<N, S> {
    type Value = (u8, (u32, S::Value));

    type Names = (NumberName, (NumberName, S::Names));

    ghost Seen = { SeenName × (SeenName × S.Seen) };

    ghost seen = { λ names. (seen_number names.0, (seen_number names.1.0, S.seen names.1.1)) };

    ghost shown = { λ names view v. (shown_number names.0 v.0 ++ shown_number names.1.0 v.1.0)
        ++ S.shown names.1.1 view v.1.1 };

    ghost whole = { λ names view v. members_append (shown_number names.0 v.0 ++ shown_number names.1.0 v.1.0)
        (S.shown names.1.1 view v.1.1)
        (members_append (shown_number names.0 v.0) (shown_number names.1.0 v.1.0) (whole_number names.0 v.0)
        (whole_number names.1.0 v.1.0))
        (S.whole names.1.1 view v.1.1) };
}

impl<const N: usize, S: ShowShape<V>, V> ShowShape<(u8, (u32, V))> for Full<N, S> {
    ghost content = { λ v. (v.0, (v.1.0, S.content v.1.1)) };

    fn show<K: FieldSink>(
        names: &Self::Names,
        view: View,
        value: &(u8, (u32, V)),
        sink: &mut K,
    ) -> Result<()> {
        put_number(names.0, u64::from(value.0), sink)?;
        put_number(names.1.0, u64::from(value.1.0), sink)?;
        S::show(&names.1.1, view, &value.1.1, sink)
    }
}
