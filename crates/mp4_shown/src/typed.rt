//! A tag, and what it says that follows.

ghost use Rattle.mp4_declared.specs.Typed.{map_type};
ghost use Rattle.mp4_shown.specs.Members.{whole_typed};
ghost use Rattle.mp4_shown.specs.Event.{Text, seen_text};
ghost use Rattle.mp4_shown.specs.Shapes.{shown_typed};

use crate::field_sink::{FieldSink, Result};
use crate::show::{NamedShape, ShowShape};
use crate::value::Value;
use crate::view::View;
use mp4_declared::{OfType, Tag, Typed};
use mp4_frame::FourCC;

/// The tag is shown as a code.
impl<K: Tag, S: NamedShape, T: NamedShape> NamedShape for Typed<K, S, T> {
    type Value = OfType<S::Value, T::Value>;

    type Names = (&'static str, (S::Names, T::Names));

    ghost Seen = { Text × (S.Seen × T.Seen) };

    ghost seen = { λ names. (seen_text names.0, (S.seen names.1.0, T.seen names.1.1)) };

    ghost shown = { λ names view v. shown_typed K.TAG S.shown T.shown names.0.now names.1.0 names.1.1 view v };

    ghost whole = { λ names view v. whole_typed K.TAG S.shown T.shown S.whole T.whole names.0.now names.1.0 names.1.1
        view v };
}

impl<K: Tag, S: ShowShape<V>, T: ShowShape<W>, V, W> ShowShape<OfType<V, W>> for Typed<K, S, T> {
    ghost content = { map_type S.content T.content };

    fn show<L: FieldSink>(
        names: &(&'static str, (S::Names, T::Names)),
        view: View,
        value: &OfType<V, W>,
        sink: &mut L,
    ) -> Result<()> {
        match value {
            OfType::Own(value) => {
                sink.field(names.0, Value::Code(FourCC::from(K::TAG)))?;
                S::show(&names.1.0, view, value, sink)
            }
            OfType::Other(tag, value) => {
                sink.field(names.0, Value::Code(FourCC::from(*tag)))?;
                T::show(&names.1.1, view, value, sink)
            }
        }
    }
}
