//! The traits of a shape whose values are shown.

ghost use Rattle.std.specs.Prelude.{List, OnOk};
ghost use Rattle.mp4_shown.specs.Event.{Event};
ghost use Rattle.mp4_shown.specs.Hands.{Hands};
ghost use Rattle.mp4_shown.specs.Members.{AreMembers};
ghost use Rattle.mp4_shown.specs.declared.view.View.{View};

use crate::field_sink::{FieldSink, Result};
use crate::view::View;

/// A shape with names for its fields.
pub trait NamedShape {
    /// The type of the value that is shown, as the shape reads it.
    type Value;

    /// The type of the names, which is built like that of the values.
    type Names;

    /// The type of the names as a clause sees them in a constant.
    ghost Seen: { Type 0 };

    /// The names as a clause sees them in a constant.
    ghost seen: { Self.Names → Seen };

    /// The events of a value under these names, for a view.
    ghost shown: { Seen → View → Self.Value → List Event };

    /// The events are whole members.
    ghost whole: { (names : Seen) (view : View) (v : Self.Value) → AreMembers (shown names view v) };
}

/// A shape whose values are shown, given as a `V`: a number, a reference, or a pair of such values.
pub trait ShowShape<V>: NamedShape {
    /// The value that a `V` stands for.
    ghost content: { V → Self.Value };

    /// Hands the fields of `value` to a sink, under their names.
    fn show<K: FieldSink>(names: &Self::Names, view: View, value: &V, sink: &mut K) -> Result<()>
        ensures { OnOk result (Hands K.trace K.after sink.old
            (Self.shown (Self.seen names.now) view (content value.now)) sink.new) };
}

/// Hands the fields of `value` to a sink by `S::show`. Call it if several parts of a box are references: the borrow
/// checker refuses their lifetimes beside the `'static` of names that a shape such as `Full` spells out.
pub fn show_shape<S: ShowShape<V>, V, K: FieldSink>(
    names: &S::Names,
    view: View,
    value: &V,
    sink: &mut K,
) -> Result<()>
    ensures { OnOk result (Hands K.trace K.after sink.old
        (S.shown (S.seen names.now) view (S.content value.now)) sink.new) }
{
    S::show(names, view, value, sink)
}
