//! The text of a box: its line, and a line for each entry of its lists.

ghost use Rattle.std.specs.Prelude.{◌≡◌, ◌++◌, OnOk, codes, false, length, replicate, string_bytes};
ghost use Rattle.std.specs.Str.{chars};
ghost use Rattle.mp4_show.specs.Lines.{TextState, begun, further, in_color, new_line, separated, state_of};
ghost use Rattle.mp4_show.specs.Lines.{with_colored, with_piece, with_words, wrote};
ghost use Rattle.mp4_show.specs.TextTrace.{after_list, counted, entry_begun, last_list, list_left, numbered};
ghost use Rattle.mp4_show.specs.TextTrace.{rest_told, then_text, with_entry, with_more};
ghost use Rattle.mp4_show.specs.Texts.{colored};
ghost use Rattle.mp4_show.specs.Values.{is_identity, is_row, is_usual};
ghost use Rattle.mp4_shown.specs.Event.{shown_of};

use crate::look::Look;
use crate::number_text::push_number;
use crate::value_text::push_value;
use mp4_shown::{FieldSink, Matrix, Result, Value, View};
use std::alloc::Global;

/// What comes before the next piece of a line.
#[derive(Clone, Copy, Debug, PartialEq, Eq)]
enum Before {
    /// A space: it follows what begins the line.
    Space,
    /// A comma: it follows another piece.
    Comma,
    /// The end of the line: it follows the entries of a list.
    Line,
}

/// A list whose entries are handed over.
#[derive(Clone, Copy, Debug, PartialEq, Eq)]
struct OpenList {
    /// How many entries it has.
    total: usize,
    /// How many of them are shown so far.
    shown: usize,
}

/// Takes the fields of a box as text.
#[derive(Drop)]
pub struct TextSink {
    alloc: Global,
    text: String,
    piece: String,
    look: Look,
    indent: usize,
    column: usize,
    before: Before,
    /// The lists that are begun and not ended, each in an entry of the one before it.
    lists: Vec<OpenList>,
}

/// Appends a text in a colour, if colours are wanted. The colour is a number of ECMA-48, "select graphic rendition".
pub fn push_colored(look: Look, text: &str, color: &str, out: &mut String) -> Result<()>
    ensures text { OnOk result (string_bytes out.new
        ≡ string_bytes out.old ++ colored look.color color.now text.now) }
{
    if !look.color {
        return out.push_str(text);
    }
    out.push_str("\u{1B}[")?;
    out.push_str(color)?;
    out.push('m')?;
    out.push_str(text)?;
    out.push_str("\u{1B}[0m")
}

/// Returns how many columns a text takes: one a character.
pub fn columns(text: &str) -> usize
    ensures { result ≡ length (chars text.now) }
{
    text.chars().count()
}

/// Appends `count` spaces.
fn push_spaces(count: usize, out: &mut String) -> Result<()>
    ensures text { OnOk result (string_bytes out.new ≡ string_bytes out.old ++ replicate count 32) }
{
    for _ in 0..count {
        out.push(' ')?;
    }
    Ok(())
}

impl TextSink {
    /// Creates an empty sink for the line of a box at this depth, of which `column` columns are taken.
    pub fn new(alloc: Global, look: Look, depth: u64, column: usize) -> TextSink
        ensures { state_of result ≡ begun look depth column }
    {
        TextSink {
            alloc,
            text: String::new(alloc),
            piece: String::new(alloc),
            look,
            indent: 2 * depth.min(64) as usize,
            column,
            before: Before::Space,
            lists: Vec::new(alloc),
        }
    }

    /// Returns the text.
    pub fn text(&self) -> &str
        ensures { result.now ≡ (state_of self.now).text }
    {
        self.text.as_str()
    }

    /// Ends the line, and begins one that is so much further in than the box's.
    fn next_line(&mut self, further: usize) -> Result<()>
        ensures { OnOk result (state_of self.new ≡ new_line (state_of self.old) further) }
    {
        let count = self.indent.saturating_add(further);
        self.text.push('\n')?;
        push_spaces(count, &mut self.text)?;
        self.column = count;
        Ok(())
    }

    /// Returns how much further in than the box's line those of the entries are, of the last list that is begun.
    fn further(&self) -> usize
        ensures { result ≡ further (state_of self.now) }
    {
        self.lists.len().saturating_mul(4)
    }

    /// Appends a text that no line break comes before.
    fn write(&mut self, text: &str) -> Result<()>
        ensures { OnOk result (state_of self.new ≡ wrote (state_of self.old) text.now) }
    {
        self.text.push_str(text)?;
        self.column = self.column.saturating_add(columns(text));
        Ok(())
    }

    /// Appends a text in a colour, if colours are wanted.
    fn colored(&mut self, text: &str, color: &str) -> Result<()>
        ensures { OnOk result (state_of self.new ≡ in_color (state_of self.old) text.now color.now) }
    {
        self.column = self.column.saturating_add(columns(text));
        push_colored(self.look, text, color, &mut self.text)
    }

    /// Appends a comma, ends the line, and begins one with `further` more spaces than that of the box.
    fn comma_line(&mut self, further: usize) -> Result<()>
        ensures { OnOk result (state_of self.new ≡ new_line (wrote (state_of self.old) (codes ",")) further) }
    {
        self.write(",")?;
        self.next_line(further)?;
        Ok(())
    }

    /// Appends what comes before a piece of `size` columns. Begins a line if this one has no room for the piece.
    #[tactic(auto, unfolding(crate::specs::Lines::separated))]
    fn separate(&mut self, size: usize) -> Result<()>
        ensures { OnOk result (state_of self.new ≡ separated (state_of self.old) size) }
    {
        let room = self.look.width.saturating_sub(self.column);
        let further = self.further();
        match self.before {
            Before::Line => self.next_line(further.saturating_add(2)),
            Before::Space if room > size => self.write(" "),
            Before::Space => self.next_line(further.max(4)),
            Before::Comma if room > size.saturating_add(2) => self.write(", "),
            Before::Comma => self.comma_line(further.max(4)),
        }
    }

    /// Appends a piece after what is there, on a new line if this one has no room.
    #[tactic(auto, unfolding(crate::specs::Lines::with_piece))]
    fn put(&mut self, text: &str) -> Result<()>
        ensures { OnOk result (state_of self.new ≡ with_piece (state_of self.old) text.now) }
    {
        self.separate(columns(text))?;
        self.write(text)?;
        self.before = Before::Comma;
        Ok(())
    }

    /// Begins a piece with a name.
    fn name_piece(&mut self, name: &str) -> Result<()>
        ensures piece { OnOk result (string_bytes self.new.piece ≡ name.now ++ codes ": ") }
        ensures kept { state_of self.new ≡ state_of self.old }
    {
        self.piece.clear();
        self.piece.push_str(name)?;
        self.piece.push_str(": ")
    }

    /// Appends the piece that was made.
    fn put_piece(&mut self) -> Result<()>
        ensures { OnOk result (state_of self.new ≡ with_piece (state_of self.old) (string_bytes self.old.piece)) }
    {
        let alloc = self.alloc;
        let piece = std::mem::replace(&mut self.piece, String::new(alloc));
        self.put(piece.as_str())?;
        self.piece = piece;
        Ok(())
    }

    /// Appends some words in a colour, after a space.
    #[tactic(auto, unfolding(crate::specs::Lines::with_colored))]
    pub fn words_colored(&mut self, text: &str, color: &str) -> Result<()>
        ensures { OnOk result (state_of self.new ≡ with_colored (state_of self.old) text.now color.now) }
    {
        self.words("")?;
        self.colored(text, color)?;
        Ok(())
    }

    /// Appends some words, after a space.
    pub fn words(&mut self, text: &str) -> Result<()>
        ensures { OnOk result (state_of self.new ≡ with_words (state_of self.old) text.now) }
    {
        self.before = Before::Space;
        self.put(text)?;
        self.before = Before::Space;
        Ok(())
    }

    /// Appends the piece that was made, as what begins a line.
    fn write_piece(&mut self) -> Result<()>
        ensures { OnOk result (state_of self.new ≡ wrote (state_of self.old) (string_bytes self.old.piece)) }
    {
        let alloc = self.alloc;
        let piece = std::mem::replace(&mut self.piece, String::new(alloc));
        self.write(piece.as_str())?;
        self.piece = piece;
        Ok(())
    }

    /// Returns the last list that is begun, or one of no entries.
    fn last_list(&self) -> OpenList
        ensures { result ≡ last_list (state_of self.now).lists }
    {
        let none = OpenList { total: 0, shown: 0 };
        self.lists.last().copied().unwrap_or(none)
    }

    /// Counts an entry of the last list that is begun.
    fn count_entry(&mut self)
        ensures { state_of self.new ≡ record (state_of self.old) { lists = counted (state_of self.old).lists } }
    {
        if self.lists.is_empty() {
            return;
        }
        let list = with_entry(self.last_list());
        let last = self.lists.len() - 1;
        self.lists[last] = list;
    }

    /// Begins a line with the number of the last entry that was counted.
    fn number_line(&mut self) -> Result<()>
        ensures { OnOk result (state_of self.new ≡ numbered (state_of self.old)) }
    {
        let list = self.last_list();
        self.next_line(self.further())?;
        self.piece.clear();
        push_number(list.shown as u64, &mut self.piece)?;
        self.piece.push(':')?;
        self.write_piece()?;
        self.before = Before::Space;
        Ok(())
    }

    /// Begins the line of an entry.
    #[tactic(auto, unfolding(crate::specs::TextTrace::entry_begun))]
    fn entry_line(&mut self) -> Result<()>
        ensures { OnOk result (state_of self.new ≡ entry_begun (state_of self.old)) }
    {
        self.count_entry();
        self.number_line()?;
        Ok(())
    }

    /// Appends a line that says how many entries of the last list aren't shown, so many.
    #[tactic(auto, unfolding(crate::specs::TextTrace::with_more))]
    fn more_line(&mut self, more: usize) -> Result<()>
        ensures { OnOk result (state_of self.new ≡ with_more (state_of self.old) more) }
    {
        self.next_line(self.further())?;
        self.piece.clear();
        self.piece.push_str(".. ")?;
        push_number(more as u64, &mut self.piece)?;
        self.piece.push_str(" more")?;
        self.write_piece()?;
        Ok(())
    }

    /// Appends a line that says how many entries of `list` aren't shown, if only some are.
    fn tell_rest(&mut self, list: OpenList) -> Result<()>
        ensures { OnOk result (state_of self.new ≡ rest_told (state_of self.old) list) }
    {
        if list.shown > 0 && list.shown < list.total {
            self.more_line(list.total - list.shown)
        } else {
            Ok(())
        }
    }

    /// Forgets the last list that is begun, which is `list`.
    fn leave_list(&mut self, list: OpenList)
        ensures { state_of self.new ≡ list_left (state_of self.old) list }
    {
        let _ = self.lists.pop();
        self.before = after_list(list);
    }
}

/// Returns `list` with one more entry that is shown.
fn with_entry(list: OpenList) -> OpenList
    ensures { result ≡ with_entry list }
{
    OpenList {
        total: list.total,
        shown: list.shown.saturating_add(1),
    }
}

/// Returns what comes before the next piece after the end of `list`.
fn after_list(list: OpenList) -> Before
    ensures { result ≡ after_list list }
{
    if list.shown > 0 {
        Before::Line
    } else {
        Before::Comma
    }
}

/// Returns whether a row of a transformation is (`first` `second` `third`).
#[tactic(auto, unfolding(crate::specs::Values::is_row))]
fn is_row(row: (i32, i32, i32), first: i32, second: i32, third: i32) -> bool
    ensures { result ≡ is_row row first second third }
{
    row.0 == first && row.1 == second && row.2 == third
}

/// Returns whether a transformation changes nothing.
fn is_identity(m: Matrix) -> bool
    ensures { result ≡ is_identity m }
{
    is_row((m.a, m.b, m.u), 0x1_0000, 0, 0)
        && is_row((m.c, m.d, m.v), 0, 0x1_0000, 0)
        && is_row((m.x, m.y, m.w), 0, 0, 0x4000_0000)
}

/// Returns whether a value is left out of a text, since most boxes have it.
fn is_usual(value: Value<'_>) -> bool
    ensures { result ≡ is_usual (shown_of value.entry) }
{
    match value {
        Value::Matrix(matrix) => is_identity(*matrix),
        Value::Number(_)
        | Value::Signed(_)
        | Value::Named(_, _)
        | Value::Flags(_, _, _)
        | Value::Date(_)
        | Value::Fixed(_, _)
        | Value::SignedFixed(_, _)
        | Value::Float(_, _)
        | Value::MediaTime(_)
        | Value::Hex(_, _)
        | Value::Code(_)
        | Value::Codes(_)
        | Value::Text(_)
        | Value::Bytes(_)
        | Value::Numbers(_) => false,
    }
}

impl FieldSink for TextSink {
    ghost Trace = { TextState };

    ghost trace = { state_of };

    ghost after = { then_text };

    ghost wanted = { λ sink. record { rows = sink.look.rows; columns = false } };

    fn view(&self) -> View {
        View {
            rows: self.look.rows,
            columns: false,
        }
    }

    fn field(&mut self, name: &str, value: Value<'_>) -> Result<()> {
        if is_usual(value) {
            return Ok(());
        }
        self.name_piece(name)?;
        push_value(self.alloc, value, &mut self.piece)?;
        self.put_piece()?;
        Ok(())
    }

    fn begin_list(&mut self, name: &str, total: usize) -> Result<()> {
        self.name_piece(name)?;
        push_number(total as u64, &mut self.piece)?;
        self.put_piece()?;
        self.lists.push(OpenList { total, shown: 0 })?;
        Ok(())
    }

    fn item(&mut self, value: Value<'_>) -> Result<()> {
        self.entry_line()?;
        self.piece.clear();
        push_value(self.alloc, value, &mut self.piece)?;
        self.put_piece()?;
        Ok(())
    }

    fn begin_entry(&mut self) -> Result<()> {
        self.entry_line()
    }

    fn end_entry(&mut self) -> Result<()> {
        Ok(())
    }

    fn end_list(&mut self) -> Result<()> {
        if self.lists.is_empty() {
            return Ok(());
        }
        let list = self.last_list();
        self.tell_rest(list)?;
        self.leave_list(list);
        Ok(())
    }

    fn begin_group(&mut self, name: &str) -> Result<()> {
        self.name_piece(name)?;
        self.piece.push('{')?;
        self.put_piece()?;
        self.before = Before::Space;
        Ok(())
    }

    fn end_group(&mut self) -> Result<()> {
        self.write(" }")?;
        self.before = Before::Comma;
        Ok(())
    }
}
