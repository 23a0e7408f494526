//! Boxes whose fields are shown.

ghost use Rattle.std.specs.Prelude.{List, OnOk};
ghost use Rattle.mp4_shown.specs.Event.{Event};
ghost use Rattle.mp4_shown.specs.Hands.{Hands};
ghost use Rattle.mp4_shown.specs.Members.{AreMembers};
ghost use Rattle.mp4_shown.specs.declared.view.View.{View};

use crate::field_sink::{FieldSink, Result};
use crate::view::View;
use mp4_declared::{Checked, Declared};

/// A box, or the fields of one, that can be shown.
pub trait HasFields {
    /// The events of a box for a view, in the order of the box.
    ghost shown: { View → Self → List Event };

    /// They are whole members.
    ghost whole: { (view : View) (b : Self) → AreMembers (shown view b) };

    /// Hands the fields of the box to a sink.
    fn show<K: FieldSink>(&self, view: View, sink: &mut K) -> Result<()>
        ensures { OnOk result (Hands K.trace K.after sink.old (shown view self.now) sink.new) };
}

impl<T: HasFields> HasFields for Declared<T> {
    ghost shown = { λ view b. T.shown view b };

    ghost whole = { λ view b. T.whole view b };

    fn show<K: FieldSink>(&self, view: View, sink: &mut K) -> Result<()> {
        (**self).show(view, sink)
    }
}

impl<T: HasFields> HasFields for Checked<T> {
    ghost shown = { λ view b. T.shown view b };

    ghost whole = { λ view b. T.whole view b };

    fn show<K: FieldSink>(&self, view: View, sink: &mut K) -> Result<()> {
        (**self).show(view, sink)
    }
}

/// Hands the fields of `fields` to a sink, as much of them as it wants.
pub fn put_fields<B: HasFields, K: FieldSink>(fields: &B, sink: &mut K) -> Result<()>
    ensures { OnOk result (Hands K.trace K.after sink.old (B.shown (K.wanted sink.old) fields.now) sink.new) }
{
    let view = sink.view();
    fields.show(view, sink)
}
