//! Counted lists of rows of bytes.

ghost use Rattle.std.specs.Prelude.{OnOk, flat_map};
ghost use Rattle.mp4_shown.specs.Members.{whole_bytes_item, whole_list};
ghost use Rattle.mp4_shown.specs.Hands.{Hands};
ghost use Rattle.mp4_shown.specs.Lists.{ListName as SeenList, bytes_item, seen_list, shown_list};

use crate::field_sink::{FieldSink, Result};
use crate::list_name::{ListName, begin, first};
use crate::show::{NamedShape, ShowShape};
use crate::value::Value;
use crate::view::View;
use mp4_declared::{Count, Rows};
use mp4_frame::Entries;

/// Hands `rows` to a sink, each as an item.
fn put_each<const E: usize, K: FieldSink>(rows: &[[u8; E]], sink: &mut K) -> Result<()>
    ensures { OnOk result (Hands K.trace K.after sink.old (flat_map bytes_item rows.now) sink.new) }
{
    for row in rows {
        sink.item(Value::Bytes(row))?;
    }
    Ok(())
}

impl<C: Count, const E: usize> NamedShape for Rows<C, E> {
    type Value = Entries<[u8; E]>;

    type Names = ListName;

    ghost Seen = { SeenList };

    ghost seen = { seen_list };

    ghost shown = { λ name view rows. shown_list name bytes_item view.rows rows };

    ghost whole = { λ name view rows. whole_list name bytes_item whole_bytes_item view.rows rows };
}

impl<'a, C: Count, const E: usize> ShowShape<&'a [[u8; E]]> for Rows<C, E> {
    ghost content = { λ rows. rows.now };

    fn show<K: FieldSink>(
        name: &ListName,
        view: View,
        value: &&'a [[u8; E]],
        sink: &mut K,
    ) -> Result<()> {
        begin(*name, value.len(), sink)?;
        put_each(first(*value, view.rows), sink)?;
        sink.end_list()
    }
}
