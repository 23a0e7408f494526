//! What is made of the JSON of a box, and of the JSON that is shown of a box.

use crate::push_record;
use mp4_extra::ExtraBox;
use mp4_show::read_codec;
use mp4_shown::taken::{Error, Result as Taken};
use mp4_shown_json::JsonSink;
use mp4_stream::{AnyBox, BoxType, ByteCursor, Mp4Box, StreamBox, WriteBox, read_boxes_as};
use std::alloc::{AllocError, Global};
use std::fmt::Debug;

/// The boxes that are shown as JSON, and made of it.
trait JsonBox: Sized + Drop {
    /// Returns the box with the code `code` that is made of the JSON `text`.
    fn made_of(alloc: Global, code: u32, text: &str) -> Taken<Option<Self>>;

    /// Returns the code of the box.
    fn code(&self) -> u32;

    /// Writes the fields of the box to `sink`.
    fn put(&self, sink: &mut JsonSink) -> Result<(), AllocError>;
}

impl JsonBox for AnyBox {
    fn made_of(alloc: Global, code: u32, text: &str) -> Taken<Option<AnyBox>> {
        read_codec(alloc, BoxType::from(code), text)
    }

    fn code(&self) -> u32 {
        u32::from(self.box_type())
    }

    fn put(&self, sink: &mut JsonSink) -> Result<(), AllocError> {
        mp4_show::put_fields(self, sink)
    }
}

impl JsonBox for ExtraBox {
    fn made_of(alloc: Global, code: u32, text: &str) -> Taken<Option<ExtraBox>> {
        ExtraBox::from_json(alloc, code, text)
    }

    fn code(&self) -> u32 {
        u32::from(self.box_type())
    }

    fn put(&self, sink: &mut JsonSink) -> Result<(), AllocError> {
        mp4_shown::put_fields(self, sink)
    }
}

/// Returns the text of what was made: the result of writing the box, and the bytes, or why the JSON is refused.
fn text_of<B: WriteBox>(
    alloc: Global,
    found: &Taken<Option<B>>,
) -> std::result::Result<String, AllocError> {
    match found {
        Ok(Some(value)) => {
            let mut written = Vec::new(alloc);
            let result = value.write_box(&mut written);
            format!(in alloc; "{result:?} {written:?}")
        }
        Ok(None) => String::from_str(alloc, "no box has this code"),
        Err(Error::OutOfMemory) => String::from_str(alloc, "out of memory"),
        Err(Error::Refused(refusal)) => format!(in alloc; "{refusal}"),
    }
}

/// Appends a record of the box of type `B` with the code `code` that is made of the JSON `text`.
fn show_made<B: JsonBox + WriteBox>(
    alloc: Global,
    code: u32,
    text: &str,
    out: &mut Vec<u8>,
) -> Result<(), AllocError> {
    let found = B::made_of(alloc, code, text);
    push_record(&text_of(alloc, &found)?, out)
}

/// Appends two records of what is made of the JSON `text` of a box with the code `code`: the declared box, and the
/// codec's.
pub(crate) fn show_taken(
    alloc: Global,
    code: u64,
    text: &[u8],
    out: &mut Vec<u8>,
) -> Result<(), AllocError> {
    let code = (code % (1 << 32)) as u32;
    let Ok(text) = std::str::from_utf8(text) else {
        push_record("the text is not UTF-8", out)?;
        return push_record("the text is not UTF-8", out);
    };
    show_made::<ExtraBox>(alloc, code, text, out)?;
    show_made::<AnyBox>(alloc, code, text, out)
}

/// Returns the JSON that is shown of `value`.
fn shown_text<B: JsonBox>(alloc: Global, value: &B) -> Result<Option<String>, AllocError> {
    let mut sink = JsonSink::new(alloc);
    sink.out.begin_object()?;
    value.put(&mut sink)?;
    sink.out.end_object()?;
    Ok(String::from_utf8(sink.into_text()).ok())
}

/// Appends a line: `same` if `found` is `value`, or else `found`.
fn push_found<B: Debug + PartialEq>(
    alloc: Global,
    value: &B,
    found: &Taken<Option<B>>,
    lines: &mut String,
) -> Result<(), AllocError> {
    match found {
        Ok(Some(found)) if found == value => lines.push_str("same\n"),
        _ => lines.push_str(&format!(in alloc; "{found:?}\n")?),
    }
}

/// Appends a line of what the JSON that is shown of `value` gives: `same` if it gives the box back.
fn push_line<B: JsonBox + Debug + PartialEq>(
    alloc: Global,
    value: &B,
    lines: &mut String,
) -> Result<(), AllocError> {
    let Some(text) = shown_text(alloc, value)? else {
        return lines.push_str("the text is not UTF-8\n");
    };
    let found = B::made_of(alloc, value.code(), text.as_str());
    push_found(alloc, value, &found, lines)
}

/// Appends a line for each box of type `B` that is read from `bytes` at `position`.
fn push_lines<B: JsonBox + StreamBox + Debug + PartialEq>(
    alloc: Global,
    position: u64,
    bytes: &[u8],
    lines: &mut String,
) -> Result<(), AllocError> {
    let mut reader = ByteCursor::new(bytes);
    reader.set_position(position);
    if let Ok(boxes) = read_boxes_as::<B>(alloc, &mut reader) {
        for value in &boxes {
            push_line(alloc, value, lines)?;
        }
    }
    Ok(())
}

/// Appends a record with a line for each box that is read from `bytes` at `position`: those of the codec, and then the
/// declared ones. The line is `same` if the JSON that is shown of the box gives the box back.
pub(crate) fn show_back(
    alloc: Global,
    position: u64,
    bytes: &[u8],
    out: &mut Vec<u8>,
) -> Result<(), AllocError> {
    let mut lines = String::new(alloc);
    push_lines::<AnyBox>(alloc, position, bytes, &mut lines)?;
    push_lines::<ExtraBox>(alloc, position, bytes, &mut lines)?;
    push_record(lines.as_str(), out)
}
