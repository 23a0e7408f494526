//! Parts whose names depend on a condition.

ghost use Rattle.mp4_shown.specs.Members.{members_if};
ghost use Rattle.std.specs.Prelude.{if◌then◌else◌};

use crate::field_sink::{FieldSink, Result};
use crate::show::{NamedShape, ShowShape};
use crate::view::View;

/// An `S` after a condition, for showing only. The names are the first if the condition holds, and else the second.
pub struct NamedBy<S>(S);

impl<S: NamedShape> NamedShape for NamedBy<S> {
    type Value = (bool, S::Value);

    type Names = (S::Names, S::Names);

    ghost Seen = { S.Seen × S.Seen };

    ghost seen = { λ names. (S.seen names.0, S.seen names.1) };

    ghost shown = { λ names view v. if v.0 then S.shown names.0 view v.1 else S.shown names.1 view v.1 };

    ghost whole = { λ names view v. members_if v.0 (S.shown names.0 view v.1) (S.shown names.1 view v.1)
        (S.whole names.0 view v.1) (S.whole names.1 view v.1) };
}

impl<S: ShowShape<V>, V> ShowShape<(bool, V)> for NamedBy<S> {
    ghost content = { λ v. (v.0, S.content v.1) };

    fn show<K: FieldSink>(
        names: &Self::Names,
        view: View,
        value: &(bool, V),
        sink: &mut K,
    ) -> Result<()> {
        if value.0 {
            S::show(&names.0, view, &value.1, sink)
        } else {
            S::show(&names.1, view, &value.1, sink)
        }
    }
}
