//! Writes the fields of a box of any type as JSON.

ghost use Rattle.std.specs.Prelude.{◌≡◌, OnOk, IfOk};
ghost use Rattle.std.specs.Option.{option_copied};
ghost use Rattle.mp4_c.specs.Fields.{CopiesFields, CopiesFieldsText, IsFieldsText, IsWholeText, PutsObject, fields_or};
ghost use Rattle.mp4_c.specs.Fields.{front_url};
ghost use Rattle.mp4_compose.specs.Either.{known_or, reading_or};
ghost use Rattle.mp4_content.specs.Fields.{json_view, object_tokens};
ghost use Rattle.mp4_shown.specs.Hands.{Hands};
ghost use Rattle.mp4_shown.specs.Members.{HandsMembers};
ghost use Rattle.mp4_shown_json.specs.Tokens.{Puts};
ghost use Rattle.mp4_stream.specs.AnyBox.{known_any, reading_any};

use crate::front_box::front_known;
use mp4_c_boxes::status::{OUT_OF_MEMORY, status_of};
use mp4_c_boxes::to_rows::copy_rows;
use mp4_extra::ExtraBox;
use mp4_frame::codes::URL;
use mp4_frame::{Frame, StreamBox};
use mp4_show::{BoxFields, Result, json_text, put_fields, put_reference};
use mp4_shown::FieldSink;
use mp4_shown_json::JsonSink;
use mp4_stream::{AnyBox, Either};
use std::alloc::Global;

/// The status for a box of a type that isn't read. No error and no other status has this number.
pub const UNKNOWN_BOX: u32 = 102;

/// Puts the fields of `value` into `sink`. Those of a `url ` are read from `url`, the content of the box, since the
/// codec keeps its text only if it is UTF-8.
fn put_shown<B: BoxFields, K: FieldSink>(value: &B, url: Option<&[u8]>, sink: &mut K) -> Result<()>
    ensures fields { OnOk result (Hands K.trace K.after sink.old
        (fields_or (option_copied url.entry) (B.shown (K.wanted sink.old) value.now)) sink.new) }
    ensures whole { OnOk result (HandsMembers K.trace K.after sink.old sink.new) }
{
    match url {
        Some(content) if content.len() >= 4 => put_reference(content, sink),
        _ => put_fields(value, sink),
    }
}

/// Writes the fields of `value` to `sink` as an object.
fn put_object<B: BoxFields>(value: &B, url: Option<&[u8]>, sink: &mut JsonSink) -> Result<()>
    ensures fields { OnOk result (Puts sink.old.out sink.new.out
        (object_tokens (fields_or (option_copied url.entry) (B.shown json_view value.now)))) }
    ensures whole { OnOk result (PutsObject sink.old.out sink.new.out) }
{
    sink.out.begin_object()?;
    put_shown(value, url, sink)?;
    sink.out.end_object()?;
    Ok(())
}

/// Returns the fields of `value` as the text of a JSON object (RFC 8259) in UTF-8, in the order of the box. `url` is
/// the content of a `url `.
pub fn text_of<B: BoxFields>(alloc: Global, value: &B, url: Option<&[u8]>) -> Result<Vec<u8>>
    ensures fields { IfOk result (λ text. IsFieldsText
        (fields_or (option_copied url.entry) (B.shown json_view value.now)) text.items) }
    ensures whole { IfOk result (λ text. IsWholeText text.items) }
{
    let mut sink = JsonSink::new(alloc);
    put_object(value, url, &mut sink)?;
    json_text(alloc, sink)
}

/// Copies the fields of `value` to `text`, and writes their length to `count`. `url` is the content of a `url `.
/// Returns the status.
fn copy_fields_text<B: BoxFields>(
    alloc: Global,
    value: &B,
    url: Option<&[u8]>,
    text: &mut [u8],
    count: &mut usize,
) -> u32
    ensures { CopiesFieldsText (fields_or (option_copied url.entry) (B.shown json_view value.now)) result
        text.old text.new count.old count.new }
{
    match text_of(alloc, value, url) {
        Ok(found) => copy_rows(Ok(found), text, count),
        Err(_) => OUT_OF_MEMORY,
    }
}

/// Returns the content of the box at the front of `bytes`, if it is a whole `url `.
fn front_url(bytes: &[u8]) -> Option<&[u8]>
    ensures { option_copied result ≡ front_url bytes.now }
{
    let Ok(found) = Frame::at(bytes, 0) else {
        return None;
    };
    let Ok(frame) = found.within(bytes.len() as u64) else {
        return None;
    };
    if frame.code == URL {
        Some(&bytes[frame.content() as usize..frame.end() as usize])
    } else {
        None
    }
}

/// Copies the fields of the box at the front of `bytes` to `text`, and writes their length to `count`. Returns the
/// status, which is `UNKNOWN_BOX` if `B` doesn't read boxes of this name.
pub fn copy_fields<B: StreamBox + BoxFields>(
    alloc: Global,
    bytes: &[u8],
    text: &mut [u8],
    count: &mut usize,
) -> u32
    ensures { CopiesFields B.shown B.known B.named_reading bytes.now result text.old text.new count.old count.new }
{
    match front_known::<B>(alloc, bytes) {
        Ok(Some(value)) => copy_fields_text(alloc, &value, front_url(bytes), text, count),
        Ok(None) => UNKNOWN_BOX,
        Err(error) => status_of(&error),
    }
}

/// Copies the fields of the box at the front of `bytes` to `text`: a JSON object (RFC 8259) in UTF-8. Its length is
/// written to `count`. The types of boxes are those of the codec and of `mp4_extra`. Returns the status.
#[unsafe(no_mangle)]
pub extern "C" fn mp4_fields(alloc: Global, bytes: &[u8], text: &mut [u8], count: &mut usize) -> u32
    ensures { CopiesFields ⟦<Either<ExtraBox, AnyBox> as BoxFields>⟧.shown
        (known_or ⟦<ExtraBox as StreamBox>⟧.known known_any)
        (reading_or ⟦<ExtraBox as StreamBox>⟧.known ⟦<ExtraBox as StreamBox>⟧.named_reading reading_any)
        bytes.now result text.old text.new count.old count.new }
{
    copy_fields::<Either<ExtraBox, AnyBox>>(alloc, bytes, text, count)
}
