//! The name of a list, and how a person reads it.

ghost use Rattle.std.specs.Prelude.{◌≡◌, OnOk, take};
ghost use Rattle.mp4_shown.specs.Hands.{Hands};
ghost use Rattle.mp4_shown.specs.Lists.{list_head, seen_list};

use crate::field_sink::{FieldSink, Result};
use crate::value::Value;

/// The look of a list.
#[derive(Clone, Copy)]
pub enum ListAs {
    /// Entries that have members.
    Entries,
    /// Entries that have members, after a field with their number.
    Counted,
    /// Entries of one number each, without its name.
    Items,
}

/// The name of a list, how it is shown, and the name of its count. It is a tuple so that a clause can name a constant
/// that holds it. `list!` writes one.
pub type ListName = (&'static str, ListAs, &'static str);

/// Returns the first entries, at most `rows`.
pub(crate) fn first<X>(entries: &[X], rows: usize) -> &[X]
    ensures { result.now ≡ take rows entries.now }
{
    if rows < entries.len() {
        &entries[..rows]
    } else {
        entries
    }
}

/// Begins a list of `total` entries, after its count if that is shown.
pub(crate) fn begin<K: FieldSink>(name: ListName, total: usize, sink: &mut K) -> Result<()>
    ensures { OnOk result (Hands K.trace K.after sink.old
        (list_head (seen_list name.entry) total) sink.new) }
{
    let (name, list_as, count) = name;
    match list_as {
        ListAs::Counted => {
            sink.field(count, Value::Number(total as u64))?;
            sink.begin_list(name, total)
        }
        ListAs::Entries | ListAs::Items => sink.begin_list(name, total),
    }
}
