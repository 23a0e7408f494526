//! The lines with the value of a field of boxes.

ghost use Rattle.std.specs.Prelude.{◌≡◌, [], ◌||◌, false, IfOk, IfSome, option_map, string_bytes};
ghost use Rattle.std.specs.Option.{is_some, unwrap_or};
ghost use Rattle.std.specs.Str.{IsUtf8};
ghost use Rattle.json.specs.Lex.{tokens};
ghost use Rattle.mp4_content.specs.Fields.{content_fields, json_view, object_tokens};
ghost use Rattle.mp4_io.specs.Ends.{WritesAll, is_write};
ghost use Rattle.mp4_inspect.specs.FieldLines.{HasLine, IsLine, TellsLine};
ghost use Rattle.mp4_inspect.specs.InTurn.{WritesInTurn, WritesOne};
ghost use Rattle.mp4_shown.specs.Event.{shown_of};
ghost use Rattle.mp4_shown.specs.declared.value.Value.{Value as AValue};

use crate::field::line_at;
use crate::tree_json::put_object;
use mp4_content::{Content, Shown, content_of, either, or_memory};
use mp4_io::{Failure, Output, write_all};
use mp4_show::BoxFields;
use mp4_shown_json::JsonSink;
use mp4_walk::{BoxWalk, Source, TreeBox};
use std::alloc::Global;
use std::io::Write;

/// Returns the fields of a box as a JSON object.
fn fields_of<B: BoxFields + Drop>(
    alloc: Global,
    content: &Content<B>,
    is_quicktime: bool,
) -> mp4_show::Result<Vec<u8>>
    ensures fields { IfOk result (λ text. (rate : AValue)
        × (tokens text.items ≡ object_tokens
        (content_fields (B.shown json_view) is_quicktime content.now (shown_of rate)))) }
    ensures utf8 { IfOk result (λ text. IsUtf8 text.items) }
{
    let mut sink = JsonSink::new(alloc);
    put_object(content, is_quicktime, &mut sink)?;
    let JsonSink { out, .. } = sink;
    Ok(out.into_inner())
}

/// Returns the line with the value of the field `field` of a content, if it has the field.
fn line_in<B: BoxFields + Drop>(
    alloc: Global,
    content: &Content<B>,
    found: &TreeBox,
    field: &str,
) -> Result<Option<String>, Failure>
    ensures line { IfOk result
        (λ line. IsLine B.shown field.now found.now content.now (option_map string_bytes line)) }
    ensures not_write { is_write result ≡ false }
{
    let is_quicktime = found.context.stsd_version == 0;
    let fields = or_memory(fields_of(alloc, content, is_quicktime))?;
    line_at(alloc, &fields, field)
}

/// Returns the line with the value of the field `field` of the box `found`, if it has the field.
fn line_of_box<B: Shown, S: Source>(
    alloc: Global,
    walk: &mut BoxWalk<S>,
    found: &TreeBox,
    field: &str,
) -> Result<Option<String>, Failure>
    ensures line { IfSome walk.old.bytes
        (λ bytes. IfOk result (λ line. HasLine B.known B.named_reading B.shown field.now bytes found.now
        (option_map string_bytes line))) }
    ensures kept { walk.new ≡ walk.old }
    ensures not_write { is_write result ≡ false }
{
    let content = content_of::<B, S>(alloc, walk, found)?;
    line_in(alloc, &content, found, field)
}

/// Writes `line`, if there is one. Returns whether there is one.
fn write_line<W: Write>(line: Option<String>, output: &mut Output<W>) -> Result<bool, Failure>
    ensures any { IfOk result (λ any. any ≡ is_some line) }
    ensures bytes { WritesAll (W.contents output.old.inner) (W.contents output.new.inner) result
        (unwrap_or (option_map string_bytes line) []) }
    ensures failed { output.new.failed ≡ (output.old.failed || is_write result) }
{
    match line {
        Some(line) => {
            write_all(output, line.as_bytes())?;
            Ok(true)
        }
        None => Ok(false),
    }
}

/// Writes the line with the value of the field `field` of the box `found`, if it has the field. Returns whether it has
/// it.
fn write_line_of<B: Shown, S: Source, W: Write>(
    alloc: Global,
    walk: &mut BoxWalk<S>,
    found: &TreeBox,
    field: &str,
    output: &mut Output<W>,
) -> Result<bool, Failure>
    ensures line { IfSome walk.old.bytes
        (λ bytes. WritesOne (TellsLine B.known B.named_reading B.shown field.now bytes) found.now
        (W.contents output.old.inner) (W.contents output.new.inner) result) }
    ensures kept { walk.new ≡ walk.old }
    ensures failed { output.new.failed ≡ (output.old.failed || is_write result) }
{
    let line = line_of_box::<B, S>(alloc, walk, found, field)?;
    write_line(line, output)
}

/// Writes the line with the value of the field `field` of each of the boxes `chosen` that has the field. Returns
/// whether one has it. After a failed write a beginning of the lines is written, and after another failure the whole
/// lines of the first boxes.
pub fn write_lines<B: Shown, S: Source, W: Write>(
    alloc: Global,
    walk: &mut BoxWalk<S>,
    chosen: &[TreeBox],
    field: &str,
    output: &mut Output<W>,
) -> Result<bool, Failure>
    ensures lines { IfSome walk.old.bytes
        (λ bytes. WritesInTurn (TellsLine B.known B.named_reading B.shown field.now bytes) chosen.now
        (W.contents output.old.inner) (W.contents output.new.inner) result) }
    ensures failed { output.new.failed ≡ (output.old.failed || is_write result) }
{
    let mut any = false;
    for found in chosen {
        let here = write_line_of::<B, S, W>(alloc, walk, found, field, output)?;
        any = either(any, here);
    }
    Ok(any)
}
