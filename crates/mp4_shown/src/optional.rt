//! Shapes that may be absent. A part that is absent isn't shown.

ghost use Rattle.std.specs.Prelude.{option_map};
ghost use Rattle.mp4_shown.specs.Members.{whole_if};
ghost use Rattle.mp4_shown.specs.Shapes.{shown_if};

use crate::field_sink::{FieldSink, Result};
use crate::show::{NamedShape, ShowShape};
use crate::view::View;
use mp4_declared::{Condition, If, OrZeros};

impl<P: Condition, S: NamedShape> NamedShape for If<P, S> {
    type Value = Option<S::Value>;

    type Names = S::Names;

    ghost Seen = { S.Seen };

    ghost seen = { S.seen };

    ghost shown = { λ names view v. shown_if S.shown names view v };

    ghost whole = { whole_if S.shown S.whole };
}

impl<P: Condition, S: ShowShape<V>, V> ShowShape<Option<V>> for If<P, S> {
    ghost content = { option_map S.content };

    fn show<K: FieldSink>(
        names: &S::Names,
        view: View,
        value: &Option<V>,
        sink: &mut K,
    ) -> Result<()> {
        match value {
            Some(value) => S::show(names, view, value, sink),
            None => Ok(()),
        }
    }
}

impl<P: Condition, S: NamedShape, const N: usize> NamedShape for OrZeros<P, S, N> {
    type Value = Option<S::Value>;

    type Names = S::Names;

    ghost Seen = { S.Seen };

    ghost seen = { S.seen };

    ghost shown = { λ names view v. shown_if S.shown names view v };

    ghost whole = { whole_if S.shown S.whole };
}

impl<P: Condition, S: ShowShape<V>, V, const N: usize> ShowShape<Option<V>> for OrZeros<P, S, N> {
    ghost content = { option_map S.content };

    fn show<K: FieldSink>(
        names: &S::Names,
        view: View,
        value: &Option<V>,
        sink: &mut K,
    ) -> Result<()> {
        match value {
            Some(value) => S::show(names, view, value, sink),
            None => Ok(()),
        }
    }
}
