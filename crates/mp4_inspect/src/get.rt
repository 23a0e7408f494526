//! The boxes at a pattern of paths, and one of their fields.

ghost use Rattle.std.specs.Prelude.{◌≡◌, ◌+◌, ◌<◌, ◌^◌, ℕ, ◌||◌, List, true, false};
ghost use Rattle.std.specs.Prelude.{flat_map, IfOk, OnOk, IfSome, string_bytes};
ghost use Rattle.std.specs.Io.KnownBytes.{Appends};
ghost use Rattle.mp4_inspect.specs.Fields.{WritesFields, field_got};
ghost use Rattle.mp4_content.specs.Pieces.{bytes_of_box};
ghost use Rattle.mp4_inspect.specs.Patterns.{bytes_at, got_of, has_box};
ghost use Rattle.mp4_inspect.specs.Json.{IsJson};
ghost use Rattle.mp4_inspect.specs.Trees.{WritesTrees, WritesTreesJson};
ghost use Rattle.mp4_io.specs.Ends.{is_write};
ghost use Rattle.mp4_walk.specs.FileBoxes.{boxes_of};
ghost use Rattle.mp4_walk.specs.Source.{piece};

use crate::chosen::{boxes_at, trees_at};
use crate::field_lines::write_lines;
use crate::pattern::Pattern;
use crate::program::list_file;
use crate::tree_json::tree_json;
use crate::tree_text::write_tree;
use mp4_content::{PIECE, Shown, or_memory, present, size_of, start_of};
use mp4_io::{Failure, Output, or_read, write_all};
use mp4_show::Look;
use mp4_walk::{BoxWalk, Source, TreeBox};
use std::alloc::Global;
use std::io::Write;

/// A form in which the boxes at a pattern are written.
#[derive(Clone, Copy, Debug, PartialEq, Eq)]
pub enum GetForm {
    /// Their trees, as text.
    Tree,
    /// Their trees, as JSON.
    Json,
    /// Their bytes.
    Raw,
    /// The bytes of their contents.
    Content,
    /// The value of one field.
    Field,
}

/// A request for the boxes at a pattern.
#[derive(Debug, Drop)]
pub struct Get {
    /// The pattern.
    pub pattern: Pattern,
    /// The text of the pattern, for messages.
    pub path: String,
    /// The form in which the boxes are written.
    pub form: GetForm,
    /// The field whose value is written, with `GetForm::Field`.
    pub field: String,
}

/// The result of a search for boxes.
#[derive(Clone, Copy, Debug, PartialEq, Eq)]
pub enum Got {
    /// A box, and what is written shows no fault.
    Sound,
    /// A box, and what is written shows a fault.
    Faulty,
    /// No box.
    Nowhere,
    /// No box with the field.
    NoField,
}

/// Writes `size` bytes of a source that begin at `start`.
fn write_piece<S: Source, W: Write>(
    alloc: Global,
    walk: &mut BoxWalk<S>,
    found: &TreeBox,
    start: u64,
    size: u64,
    output: &mut Output<W>,
) -> Result<(), Failure>
    ensures bytes { IfSome walk.old.bytes
        (λ file. OnOk result (Appends (W.contents output.old.inner) (W.contents output.new.inner)
        (piece file start size))) }
    ensures kept { walk.new ≡ walk.old }
{
    let place = TreeBox {
        position: start,
        length: size,
        ..*found
    };
    let bytes = or_read(walk.read_box(alloc, &place))?;
    write_all(output, &bytes)
}

/// Writes `size` bytes of a source that begin at `start`, a piece at a time. The source has them all.
fn write_pieces<S: Source, W: Write>(
    alloc: Global,
    walk: &mut BoxWalk<S>,
    found: &TreeBox,
    start: u64,
    size: u64,
    output: &mut Output<W>,
) -> Result<(), Failure>
    requires { start + size < 2 ^ 64 }
    ensures bytes { IfSome walk.old.bytes
        (λ file. OnOk result (Appends (W.contents output.old.inner) (W.contents output.new.inner)
        (piece file start size))) }
    ensures kept { walk.new ≡ walk.old }
{
    let mut at = start;
    let mut left = size;
    'pieces: while left > 0 {
        let count = left.min(PIECE);
        write_piece(alloc, walk, found, at, count, output)?;
        at += count;
        left -= count;
    }
    Ok(())
}

/// Writes the bytes of the box `found`, or only those of its content if `content`.
fn write_box<S: Source, W: Write>(
    alloc: Global,
    walk: &mut BoxWalk<S>,
    found: &TreeBox,
    content: bool,
    output: &mut Output<W>,
) -> Result<(), Failure>
    ensures bytes { IfSome walk.old.bytes
        (λ file. OnOk result (Appends (W.contents output.old.inner) (W.contents output.new.inner)
        (bytes_of_box content file found.now))) }
    ensures kept { walk.new ≡ walk.old }
{
    let start = start_of(found, content);
    let size = present(start, size_of(found, content), walk.length());
    write_pieces(alloc, walk, found, start, size, output)
}

/// Writes the bytes of the boxes `chosen`, or only those of their contents if `content`, one after the other.
fn write_boxes<S: Source, W: Write>(
    alloc: Global,
    walk: &mut BoxWalk<S>,
    chosen: &[TreeBox],
    content: bool,
    output: &mut Output<W>,
) -> Result<(), Failure>
    ensures bytes { IfSome walk.old.bytes
        (λ file. OnOk result (Appends (W.contents output.old.inner) (W.contents output.new.inner)
        (flat_map (bytes_of_box content file) chosen.now))) }
    ensures kept { walk.new ≡ walk.old }
{
    'boxes: for found in chosen {
        write_box(alloc, walk, found, content, output)?;
    }
    Ok(())
}

/// Writes the bytes of the boxes at `pattern`, or only those of their contents if `content`. Returns whether there is a
/// box.
fn write_bytes<S: Source, W: Write>(
    alloc: Global,
    source: S,
    pattern: &Pattern,
    content: bool,
    output: &mut Output<W>,
) -> Result<bool, Failure>
    ensures bytes { IfSome (S.all source)
        (λ file. IfOk result (λ any. Appends (W.contents output.old.inner) (W.contents output.new.inner)
        (bytes_at content pattern.now file) × (any ≡ has_box pattern.now file))) }
{
    let mut walk = or_read(BoxWalk::new(alloc, source))?;
    let boxes = or_read(walk.rest(alloc))?;
    let chosen = or_memory(boxes_at(alloc, &boxes, pattern))?;
    write_boxes(alloc, &mut walk, &chosen, content, output)?;
    Ok(!chosen.is_empty())
}

/// Returns what was found, from whether there is a box and whether a fault is shown.
fn got_of(any: bool, faulty: bool) -> Got
    ensures { result ≡ got_of any faulty }
{
    if !any {
        Got::Nowhere
    } else if faulty {
        Got::Faulty
    } else {
        Got::Sound
    }
}

/// Writes the trees of the boxes at `pattern` as text.
fn write_text<B: Shown, S: Source, W: Write>(
    alloc: Global,
    source: S,
    pattern: &Pattern,
    look: Look,
    output: &mut Output<W>,
) -> Result<Got, Failure>
    ensures trees { IfSome (S.all source)
        (λ file. IfOk result
        (WritesTrees B.known B.named_reading B.shown look pattern.now file (W.contents output.old.inner)
        (W.contents output.new.inner))) }
{
    let (mut walk, boxes, tracks) = list_file(alloc, source)?;
    let shown = or_memory(trees_at(alloc, &boxes, pattern))?;
    let faulty = write_tree::<B, S, W>(alloc, &mut walk, &shown, &tracks, look, output)?;
    Ok(got_of(!shown.is_empty(), faulty))
}

/// Returns a walk over a source, and its boxes. Reads the headers of all boxes.
fn listed<S: Source>(alloc: Global, source: S) -> Result<(BoxWalk<S>, Vec<TreeBox>), Failure>
    ensures bytes { IfOk result (λ file. file.0.bytes ≡ S.all source) }
    ensures boxes { IfSome (S.all source) (λ bytes. IfOk result (λ file. file.1.items ≡ boxes_of bytes)) }
    ensures not_write { is_write result ≡ false }
{
    let mut walk = or_read(BoxWalk::new(alloc, source))?;
    let boxes = or_read(walk.rest(alloc))?;
    Ok((walk, boxes))
}

/// Writes the JSON of a file that has the boxes `shown`. Returns whether one of them has a fault.
fn write_shown<B: Shown, S: Source, W: Write>(
    alloc: Global,
    walk: &mut BoxWalk<S>,
    name: &str,
    shown: &[TreeBox],
    output: &mut Output<W>,
) -> Result<bool, Failure>
    ensures json { IfOk result (λ faulty. (text : List ℕ)
        × IsJson B.known B.named_reading B.shown walk.old.bytes name.now shown.now text faulty
        × Appends (W.contents output.old.inner) (W.contents output.new.inner) text) }
{
    let (text, faulty) = tree_json::<B, S>(alloc, walk, name, shown)?;
    write_all(output, text.as_slice())?;
    Ok(faulty)
}

/// Writes the trees of the boxes at `pattern` as JSON.
fn write_json<B: Shown, S: Source, W: Write>(
    alloc: Global,
    name: &str,
    source: S,
    pattern: &Pattern,
    output: &mut Output<W>,
) -> Result<Got, Failure>
    ensures trees { IfSome (S.all source)
        (λ file. IfOk result
        (WritesTreesJson B.known B.named_reading B.shown pattern.now name.now file (W.contents output.old.inner)
        (W.contents output.new.inner))) }
{
    let (mut walk, boxes) = listed(alloc, source)?;
    let shown = or_memory(trees_at(alloc, &boxes, pattern))?;
    let faulty = write_shown::<B, S, W>(alloc, &mut walk, name, &shown, output)?;
    Ok(got_of(!shown.is_empty(), faulty))
}

/// Returns what was found, from whether there is a box and whether one has the field.
fn field_got(any: bool, has_field: bool) -> Got
    ensures { result ≡ field_got any has_field }
{
    if has_field {
        Got::Sound
    } else if any {
        Got::NoField
    } else {
        Got::Nowhere
    }
}

/// Writes the value of the field `field` of each of the boxes at `pattern` that has it, a line each. After a failed
/// write a beginning of the lines is written, and after another failure the whole lines of the first boxes.
fn write_fields<B: Shown, S: Source, W: Write>(
    alloc: Global,
    source: S,
    pattern: &Pattern,
    field: &str,
    output: &mut Output<W>,
) -> Result<Got, Failure>
    ensures field { IfSome (S.all source)
        (λ file. WritesFields B.known B.named_reading B.shown field.now pattern.now file
        (W.contents output.old.inner) (W.contents output.new.inner) result) }
    ensures failed { output.new.failed ≡ (output.old.failed || is_write result) }
{
    let (mut walk, boxes) = listed(alloc, source)?;
    let chosen = or_memory(boxes_at(alloc, &boxes, pattern))?;
    let has_field = write_lines::<B, S, W>(alloc, &mut walk, &chosen, field, output)?;
    Ok(field_got(!chosen.is_empty(), has_field))
}

/// Writes what `get` asks for. Returns what was found. Of the lines of a field, a beginning is written after a failed
/// write, and whole lines of the first boxes after another failure.
pub fn get_boxes<B: Shown, S: Source, W: Write>(
    alloc: Global,
    name: &str,
    source: S,
    get: &Get,
    look: Look,
    output: &mut Output<W>,
) -> Result<Got, Failure>
    ensures raw { get.now.form ≡ GetForm.Raw
        → IfSome (S.all source)
        (λ file. IfOk result (λ found. Appends (W.contents output.old.inner) (W.contents output.new.inner)
        (bytes_at false get.now.pattern file) × (found ≡ got_of (has_box get.now.pattern file) false))) }
    ensures content { get.now.form ≡ GetForm.Content
        → IfSome (S.all source)
        (λ file. IfOk result (λ found. Appends (W.contents output.old.inner) (W.contents output.new.inner)
        (bytes_at true get.now.pattern file) × (found ≡ got_of (has_box get.now.pattern file) false))) }
    ensures tree { get.now.form ≡ GetForm.Tree
        → IfSome (S.all source)
        (λ file. IfOk result
        (WritesTrees B.known B.named_reading B.shown look get.now.pattern file (W.contents output.old.inner)
        (W.contents output.new.inner))) }
    ensures json { get.now.form ≡ GetForm.Json
        → IfSome (S.all source)
        (λ file. IfOk result
        (WritesTreesJson B.known B.named_reading B.shown get.now.pattern name.now file (W.contents output.old.inner)
        (W.contents output.new.inner))) }
    ensures field { get.now.form ≡ GetForm.Field
        → IfSome (S.all source)
        (λ file. WritesFields B.known B.named_reading B.shown (string_bytes get.now.field) get.now.pattern file
        (W.contents output.old.inner) (W.contents output.new.inner) result) }
    ensures failed { get.now.form ≡ GetForm.Field
        → output.new.failed ≡ (output.old.failed || is_write result) }
{
    match get.form {
        GetForm::Tree => write_text::<B, S, W>(alloc, source, &get.pattern, look, output),
        GetForm::Json => write_json::<B, S, W>(alloc, name, source, &get.pattern, output),
        GetForm::Raw => {
            let any = write_bytes(alloc, source, &get.pattern, false, output)?;
            Ok(got_of(any, false))
        }
        GetForm::Content => {
            let any = write_bytes(alloc, source, &get.pattern, true, output)?;
            Ok(got_of(any, false))
        }
        GetForm::Field => {
            write_fields::<B, S, W>(alloc, source, &get.pattern, get.field.as_str(), output)
        }
    }
}
