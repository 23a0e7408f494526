//! What takes the fields of a box.

ghost use Rattle.std.specs.Prelude.{◌≡◌, OnOk};
ghost use Rattle.mp4_shown.specs.Event.{Event, field, begin_list, item, begin_entry, end_entry, end_list};
ghost use Rattle.mp4_shown.specs.Event.{begin_group, end_group, shown_of};
ghost use Rattle.mp4_shown.specs.declared.view.View.{View};

use crate::value::Value;
use crate::view::View;
use std::alloc::AllocError;

/// The result of a call of a sink. The only error is out of memory.
pub type Result<T> = std::result::Result<T, AllocError>;

/// Takes the fields of a box, in the order of the box.
pub trait FieldSink {
    /// The type of the trace: all that was handed over, as far as a clause sees it.
    ghost Trace: { Type 0 };

    /// The trace of a sink.
    ghost trace: { Self → Trace };

    /// The trace after one more event.
    ghost after: { Trace → Event → Trace };

    /// The part of a box that is wanted.
    ghost wanted: { Self → View };

    /// Returns the part of a box that is wanted.
    fn view(&self) -> View
        ensures { result ≡ wanted self.now };

    /// Takes a field of one value.
    fn field(&mut self, name: &str, value: Value<'_>) -> Result<()>
        ensures { OnOk result (trace self.new ≡ after (trace self.old) (field name.now (shown_of value.entry))) };

    /// Begins a field that is a list of `total` entries. At most `rows` of them follow.
    fn begin_list(&mut self, name: &str, total: usize) -> Result<()>
        ensures { OnOk result (trace self.new ≡ after (trace self.old) (begin_list name.now total)) };

    /// Takes an entry that is one value.
    fn item(&mut self, value: Value<'_>) -> Result<()>
        ensures { OnOk result (trace self.new ≡ after (trace self.old) (item (shown_of value.entry))) };

    /// Begins an entry that has members.
    fn begin_entry(&mut self) -> Result<()>
        ensures { OnOk result (trace self.new ≡ after (trace self.old) begin_entry) };

    /// Ends an entry that has members.
    fn end_entry(&mut self) -> Result<()>
        ensures { OnOk result (trace self.new ≡ after (trace self.old) end_entry) };

    /// Ends a list.
    fn end_list(&mut self) -> Result<()>
        ensures { OnOk result (trace self.new ≡ after (trace self.old) end_list) };

    /// Begins a field that has members.
    fn begin_group(&mut self, name: &str) -> Result<()>
        ensures { OnOk result (trace self.new ≡ after (trace self.old) (begin_group name.now)) };

    /// Ends a field that has members.
    fn end_group(&mut self) -> Result<()>
        ensures { OnOk result (trace self.new ≡ after (trace self.old) end_group) };
}
