//! The fields of a box as rows, to be compared: a name, and the JSON text of the value or of each entry of a list.

ghost use Rattle.std.specs.Prelude.{◌≡◌, ◌^◌, ◌-◌, ◌++◌, true, IfOk, OnOk, map, string_bytes, vec_items};
ghost use Rattle.json.specs.Print.{print};
ghost use Rattle.mp4_diff.specs.Rows.{Rows, has_offsets, is_aside, is_offset, last_front, no_rows, offset_name};
ghost use Rattle.mp4_diff.specs.Rows.{rows_of, state_of, then_item, then_row, then_value, with_entry, with_list};
ghost use Rattle.mp4_diff.specs.Rows.{with_row};
ghost use Rattle.mp4_shown.specs.Event.{shown_of};
ghost use Rattle.mp4_shown_json.specs.Tokens.{value_tokens};

use mp4_frame::codes::{CO64, ILOC, SAIO, SIDX, STCO, TFHD, TFRA};
use mp4_shown::{FieldSink, Result, Value, View};
use mp4_shown_json::JsonSink;
use mp4_stream::FourCC;
use std::alloc::Global;

/// A field of a box.
#[derive(Debug, Drop)]
pub struct Row {
    /// The name, after the names of the groups around the field, with a point after each of them.
    pub name: String,
    /// True for a list.
    pub is_list: bool,
    /// The JSON text of each entry of the list, or only that of the value.
    pub entries: Vec<Vec<u8>>,
}

/// Returns the name of the field of a box with the code `code` that has offsets into the file.
fn offset_name(code: u32) -> &'static str
    ensures { result.now ≡ offset_name code }
{
    match code {
        STCO | CO64 => "chunk_offset",
        SAIO => "offset",
        TFRA => "moof_offset",
        SIDX => "first_offset",
        TFHD => "base_data_offset",
        ILOC => "data_bytes",
        _ => "",
    }
}

/// Returns whether boxes with the code `code` have offsets into the file.
pub fn has_offsets(code: Option<FourCC>) -> bool
    ensures { result ≡ has_offsets code }
{
    match code {
        Some(code) => !offset_name(u32::from(code)).is_empty(),
        None => false,
    }
}

/// Returns whether the field `name` of a box with the code `code` has offsets into the file. The bytes of an `iloc`
/// hold the places of items.
fn is_offset(code: Option<FourCC>, name: &str) -> bool
    ensures { result ≡ is_offset code name.now }
{
    match code {
        Some(code) => !name.is_empty() && offset_name(u32::from(code)) == name,
        None => false,
    }
}

/// Returns the JSON text of a value.
fn value_text(alloc: Global, value: Value<'_>) -> Result<Vec<u8>>
    ensures { IfOk result (λ text. text.items ≡ print (value_tokens (shown_of value.entry))) }
{
    let mut sink = JsonSink::new(alloc);
    sink.item(value)?;
    Ok(sink.into_text())
}

/// Appends the last of `fronts` to `text`, if there is one.
fn push_last(fronts: &[String], text: &mut String) -> Result<()>
    ensures { OnOk result (string_bytes text.new
        ≡ string_bytes text.old ++ last_front (map string_bytes fronts.now)) }
{
    let count = fronts.len();
    if count == 0 {
        return Ok(());
    }
    let last = count - 1;
    text.push_str(fronts[last].as_str())?;
    Ok(())
}

/// Takes the fields of a box as rows.
#[derive(Drop)]
pub struct RowSink {
    alloc: Global,
    /// The code of the box.
    code: Option<FourCC>,
    /// True if offsets into the file are taken.
    offsets: bool,
    /// The finished rows.
    rows: Vec<Row>,
    /// The text before the names in each open group, outermost first.
    fronts: Vec<String>,
    /// The name of the open list.
    name: String,
    /// The entries of the open list.
    entries: Vec<Vec<u8>>,
    /// True if the open list has offsets that are left aside.
    aside: bool,
    /// The number of open levels: 1 in a list, 2 in an entry of it, and so on.
    nested: u64,
    /// The open entry.
    entry: JsonSink,
}

impl RowSink {
    /// Creates a sink for a box with the code `code`. It takes offsets into the file only if `offsets`: other lists of
    /// offsets have an empty text for each entry.
    pub fn new(alloc: Global, code: Option<FourCC>, offsets: bool) -> RowSink
        ensures { state_of result ≡ no_rows (is_aside offsets code) }
    {
        RowSink {
            alloc,
            code,
            offsets,
            rows: Vec::new(alloc),
            fronts: Vec::new(alloc),
            name: String::new(alloc),
            entries: Vec::new(alloc),
            aside: false,
            nested: 0,
            entry: JsonSink::new(alloc),
        }
    }

    /// Returns the rows.
    pub fn into_rows(self) -> Vec<Row>
        ensures { rows_of result.items ≡ (state_of self).done }
    {
        let RowSink {
            alloc: _,
            code: _,
            offsets: _,
            rows,
            fronts: _,
            name: _,
            entries: _,
            aside: _,
            nested: _,
            entry: _,
        } = self;
        rows
    }

    /// Returns whether the field `name` is left aside.
    fn leaves(&self, name: &str) -> bool
        ensures { result ≡ is_aside self.now.offsets self.now.code name.now }
    {
        !self.offsets && is_offset(self.code, name)
    }

    /// Returns `name` after the names of the open groups.
    fn full_name(&self, name: &str) -> Result<String>
        ensures { IfOk result (λ text. string_bytes text
            ≡ last_front (map string_bytes self.now.fronts.items) ++ name.now) }
    {
        let mut text = String::new(self.alloc);
        push_last(&self.fronts, &mut text)?;
        text.push_str(name)?;
        Ok(text)
    }

    /// Appends a row.
    fn push_row(&mut self, name: String, is_list: bool, entries: Vec<Vec<u8>>) -> Result<()>
        ensures { OnOk result (state_of self.new
            ≡ with_row (state_of self.old) (string_bytes name, is_list, map vec_items entries.items)) }
    {
        self.rows.push(Row {
            name,
            is_list,
            entries,
        })?;
        Ok(())
    }

    /// Appends a row with one value.
    fn push_value(&mut self, name: &str, value: Value<'_>) -> Result<()>
        ensures { OnOk result (state_of self.new
            ≡ then_value (state_of self.old) name.now (shown_of value.entry)) }
    {
        let name = self.full_name(name)?;
        let text = value_text(self.alloc, value)?;
        let mut entries = Vec::new(self.alloc);
        entries.push(text)?;
        self.push_row(name, false, entries)
    }

    /// Appends an entry that is one value to the open list.
    fn push_item(&mut self, value: Value<'_>) -> Result<()>
        ensures { OnOk result (state_of self.new ≡ then_item (state_of self.old) (shown_of value.entry)) }
    {
        let text = if self.aside {
            Vec::new(self.alloc)
        } else {
            value_text(self.alloc, value)?
        };
        self.entries.push(text)?;
        Ok(())
    }

    /// Appends the open entry to the open list.
    fn push_entry(&mut self) -> Result<()>
        ensures { OnOk result (state_of self.new ≡ with_entry (state_of self.old)) }
    {
        let entry = std::mem::replace(&mut self.entry, JsonSink::new(self.alloc));
        self.entries.push(entry.into_text())?;
        Ok(())
    }

    /// Ends the open list, and appends it as a row.
    fn push_list(&mut self) -> Result<()>
        ensures { OnOk result (state_of self.new ≡ with_list (state_of self.old)) }
    {
        let name = std::mem::replace(&mut self.name, String::new(self.alloc));
        let entries = std::mem::replace(&mut self.entries, Vec::new(self.alloc));
        self.nested = 0;
        self.push_row(name, true, entries)
    }
}

impl FieldSink for RowSink {
    ghost Trace = { Rows };

    ghost trace = { state_of };

    ghost after = { then_row };

    ghost wanted = { λ _. record { rows = 2 ^ 64 - 1; columns = true } };

    fn view(&self) -> View {
        View {
            rows: usize::MAX,
            columns: true,
        }
    }

    fn field(&mut self, name: &str, value: Value<'_>) -> Result<()> {
        if self.leaves(name) {
            Ok(())
        } else if self.nested == 0 {
            self.push_value(name, value)
        } else {
            self.entry.field(name, value)
        }
    }

    fn begin_list(&mut self, name: &str, total: usize) -> Result<()> {
        if self.nested == 0 {
            self.name = self.full_name(name)?;
            self.aside = self.leaves(name);
            self.nested = 1;
            Ok(())
        } else {
            self.nested = self.nested.saturating_add(1);
            self.entry.begin_list(name, total)
        }
    }

    fn item(&mut self, value: Value<'_>) -> Result<()> {
        if self.nested <= 1 {
            self.push_item(value)
        } else {
            self.entry.item(value)
        }
    }

    fn begin_entry(&mut self) -> Result<()> {
        self.nested = self.nested.saturating_add(1);
        self.entry.begin_entry()
    }

    fn end_entry(&mut self) -> Result<()> {
        self.nested = self.nested.saturating_sub(1);
        self.entry.end_entry()?;
        if self.nested <= 1 {
            self.push_entry()?;
        }
        Ok(())
    }

    fn end_list(&mut self) -> Result<()> {
        if self.nested <= 1 {
            self.push_list()
        } else {
            self.nested = self.nested.saturating_sub(1);
            self.entry.end_list()
        }
    }

    fn begin_group(&mut self, name: &str) -> Result<()> {
        if self.nested == 0 {
            let mut front = self.full_name(name)?;
            front.push('.')?;
            self.fronts.push(front)?;
            Ok(())
        } else {
            self.entry.begin_group(name)
        }
    }

    fn end_group(&mut self) -> Result<()> {
        if self.nested == 0 {
            let _ = self.fronts.pop();
            Ok(())
        } else {
            self.entry.end_group()
        }
    }
}
