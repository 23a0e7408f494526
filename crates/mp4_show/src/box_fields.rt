//! Boxes of the codec whose fields are shown.

ghost use Rattle.std.specs.Prelude.{List, OnOk};
ghost use Rattle.mp4_shown.specs.Event.{Event};
ghost use Rattle.mp4_shown.specs.Hands.{Hands};
ghost use Rattle.mp4_shown.specs.Members.{AreMembers, HandsMembers};
ghost use Rattle.mp4_shown.specs.declared.view.View.{View};

use mp4_shown::{FieldSink, Result, View};

/// A box of the codec, or a part of one, that can be shown. The members are those of `mp4_shown::HasFields`, which only
/// the crate of a box can implement.
pub trait BoxFields {
    /// The events of a box for a view, in the order of the box.
    ghost shown: { View → Self → List Event };

    /// They are whole members.
    ghost whole: { (view : View) (b : Self) → AreMembers (shown view b) };

    /// Hands the fields of the box to a sink.
    fn show<K: FieldSink>(&self, view: View, sink: &mut K) -> Result<()>
        ensures { OnOk result (Hands K.trace K.after sink.old (shown view self.now) sink.new) };
}

/// Hands the fields of `fields` to a sink, as much of them as it wants.
pub fn put_fields<B: BoxFields, K: FieldSink>(fields: &B, sink: &mut K) -> Result<()>
    ensures fields { OnOk result (Hands K.trace K.after sink.old
        (B.shown (K.wanted sink.old) fields.now) sink.new) }
    ensures whole { OnOk result (HandsMembers K.trace K.after sink.old sink.new) }
{
    let view = sink.view();
    fields.show(view, sink)
}
