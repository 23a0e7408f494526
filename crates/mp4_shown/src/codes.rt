//! Codes of four characters, and numbers of four bytes up to the end of a box.

ghost use Rattle.std.proofs.Common.{refl};
ghost use Rattle.std.specs.Prelude.{OnOk, map};
ghost use Rattle.mp4_shown.specs.Members.{whole_items};
ghost use Rattle.mp4_shown.specs.Event.{Text, bytes_of_code, code, code_list, seen_text};
ghost use Rattle.mp4_shown.specs.Hands.{Hands};
ghost use Rattle.mp4_shown.specs.Runs.{items_of, shown_items};
ghost use Rattle.mp4_shown.specs.Shapes.{shown_as};

use crate::field_sink::{FieldSink, Result};
use crate::list_name::first;
use crate::show::{NamedShape, ShowShape};
use crate::value::Value;
use crate::view::View;
use mp4_declared::{Code, Codes, Numbers};
use mp4_frame::{Entries, FourCC};

impl NamedShape for Code {
    type Value = FourCC;

    type Names = &'static str;

    ghost Seen = { Text };

    ghost seen = { seen_text };

    ghost shown = { λ name view c. shown_as name.now (code (bytes_of_code c)) };

    ghost whole = { λ name view c s. refl };
}

impl ShowShape<FourCC> for Code {
    ghost content = { λ code. code };

    fn show<K: FieldSink>(
        name: &&'static str,
        _view: View,
        value: &FourCC,
        sink: &mut K,
    ) -> Result<()> {
        sink.field(*name, Value::Code(*value))
    }
}

/// The codes are one value, not a list, since there are few of them.
impl NamedShape for Codes {
    type Value = Entries<FourCC>;

    type Names = &'static str;

    ghost Seen = { Text };

    ghost seen = { seen_text };

    ghost shown = { λ name view cs. shown_as name.now (code_list (map bytes_of_code cs)) };

    ghost whole = { λ name view cs s. refl };
}

impl<'a> ShowShape<&'a [FourCC]> for Codes {
    ghost content = { λ codes. codes.now };

    fn show<K: FieldSink>(
        name: &&'static str,
        _view: View,
        value: &&'a [FourCC],
        sink: &mut K,
    ) -> Result<()> {
        sink.field(*name, Value::Codes(*value))
    }
}

/// Hands `numbers` to a sink, each as an item.
fn put_items<K: FieldSink>(numbers: &[u32], sink: &mut K) -> Result<()>
    ensures { OnOk result (Hands K.trace K.after sink.old (items_of numbers.now) sink.new) }
{
    for number in numbers {
        sink.item(Value::Number(u64::from(*number)))?;
    }
    Ok(())
}

impl NamedShape for Numbers {
    type Value = Entries<u32>;

    type Names = &'static str;

    ghost Seen = { Text };

    ghost seen = { seen_text };

    ghost shown = { λ name view numbers. shown_items name.now view.rows numbers };

    ghost whole = { λ name view numbers. whole_items name.now view.rows numbers };
}

impl<'a> ShowShape<&'a [u32]> for Numbers {
    ghost content = { λ numbers. numbers.now };

    fn show<K: FieldSink>(
        name: &&'static str,
        view: View,
        value: &&'a [u32],
        sink: &mut K,
    ) -> Result<()> {
        sink.begin_list(*name, value.len())?;
        put_items(first(*value, view.rows), sink)?;
        sink.end_list()
    }
}
