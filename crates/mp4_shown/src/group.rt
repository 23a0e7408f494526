//! Parts that are shown as one field with members.

ghost use Rattle.mp4_shown.specs.Members.{whole_group};
ghost use Rattle.mp4_shown.specs.Event.{Text, seen_text};
ghost use Rattle.mp4_shown.specs.Shapes.{shown_group};

use crate::field_sink::{FieldSink, Result};
use crate::show::{NamedShape, ShowShape};
use crate::view::View;

/// An `S` whose fields are shown as members of one field. The shape is for showing only.
pub struct Group<S>(S);

impl<S: NamedShape> NamedShape for Group<S> {
    type Value = S::Value;

    type Names = (&'static str, S::Names);

    ghost Seen = { Text × S.Seen };

    ghost seen = { λ names. (seen_text names.0, S.seen names.1) };

    ghost shown = { λ names view v. shown_group names.0.now (S.shown names.1 view v) };

    ghost whole = { λ names view v. whole_group names.0.now (S.shown names.1 view v) (S.whole names.1 view v) };
}

impl<S: ShowShape<V>, V> ShowShape<V> for Group<S> {
    ghost content = { S.content };

    fn show<K: FieldSink>(
        names: &(&'static str, S::Names),
        view: View,
        value: &V,
        sink: &mut K,
    ) -> Result<()> {
        sink.begin_group(names.0)?;
        S::show(&names.1, view, value, sink)?;
        sink.end_group()
    }
}
