//! Entries that are found by their places.

ghost use Rattle.std.specs.Prelude.{ℕ, List, OnOk};
ghost use Rattle.mp4_show.specs.Run.{entries_to};
ghost use Rattle.mp4_shown.specs.Event.{Event};
ghost use Rattle.mp4_shown.specs.Hands.{Hands};
ghost use Rattle.mp4_shown.specs.Members.{AreEntries};
ghost use Rattle.mp4_shown.specs.declared.view.View.{View};

use mp4_shown::{FieldSink, Result, View};

/// A box with entries that are found by their places.
pub(crate) trait PlacedEntries {
    /// The events of the entry at a place, for a view.
    ghost shown_at: { View → Self → ℕ → List Event };

    /// Each entry is whole.
    ghost whole_at: { (view : View) (b : Self) (i : ℕ) → AreEntries (shown_at view b i) };

    /// Hands the entry at `index` to a sink.
    fn show_at<K: FieldSink>(&self, view: View, index: usize, sink: &mut K) -> Result<()>
        ensures { OnOk result (Hands K.trace K.after sink.old (shown_at view self.now index) sink.new) };
}

/// Hands the first `count` entries of `b` to a sink.
pub(crate) fn put_placed<B: PlacedEntries, K: FieldSink>(
    b: &B,
    count: usize,
    view: View,
    sink: &mut K,
) -> Result<()>
    ensures { OnOk result (Hands K.trace K.after sink.old (entries_to (B.shown_at view b.now) count) sink.new) }
{
    for index in 0..count {
        b.show_at(view, index, sink)?;
    }
    Ok(())
}
