//! The text around the rows.

ghost use Rattle.std.specs.Prelude.{◌≡◌, ◌||◌, OnOk};
ghost use Rattle.std.specs.Io.KnownBytes.{Appends};
ghost use Rattle.mp4_io.specs.Ends.{is_write};
ghost use Rattle.mp4_inspect_samples.specs.Rows.{WritesHeading, end_text, front_text, is_headed};

use crate::fault::TrackName;
use crate::row_text::Form;
use crate::rows::RowWriter;
use mp4_frame::FourCC;
use mp4_io::{Failure, Output, write_all};
use std::alloc::AllocError;
use std::io::Write;

/// The names of the columns of a row as text.
const COLUMNS: &str =
    "  number        offset       size   decode_time  presentation_time   duration  sync  description\n";

/// Writes the text before the rows of a file.
pub fn write_front<W: Write>(form: Form, output: &mut Output<W>) -> Result<(), Failure>
    ensures text { OnOk result
        (Appends (W.contents output.old.inner) (W.contents output.new.inner) (front_text form)) }
{
    match form {
        Form::Text => Ok(()),
        Form::Csv => write_all(
            output,
            b"track,number,offset,size,decode_time,presentation_time,duration,sync,description,timescale\n",
        ),
        Form::Json => write_all(output, b"["),
    }
}

/// Writes the text after the rows of a file.
pub fn write_end<W: Write>(form: Form, output: &mut Output<W>) -> Result<(), Failure>
    ensures text { OnOk result
        (Appends (W.contents output.old.inner) (W.contents output.new.inner) (end_text form)) }
{
    match form {
        Form::Text | Form::Csv => Ok(()),
        Form::Json => write_all(output, b"\n]\n"),
    }
}

/// Appends `number` to `out`.
fn push_number(number: u64, out: &mut String) -> Result<(), AllocError> {
    let mut buffer = itoa::Buffer::new();
    out.push_str(buffer.format(number))
}

/// Appends `handler` to `out`: its four characters if all can be printed, or otherwise its number.
fn push_handler(handler: FourCC, out: &mut String) -> Result<(), AllocError> {
    let bytes = handler.value;
    if bytes.iter().all(|byte| matches!(*byte, 0x20..=0x7E)) {
        for byte in &bytes {
            out.push(char::from(*byte))?;
        }
        return Ok(());
    }
    push_number(u64::from(u32::from(handler)), out)
}

/// Appends the name of a track to `out`: its track_ID, or the position of its `trak`.
fn push_name(name: TrackName, out: &mut String) -> Result<(), AllocError> {
    match name {
        TrackName::Id(id) => {
            out.push_str("track ")?;
            push_number(u64::from(id), out)
        }
        TrackName::At(position) => {
            out.push_str("trak at ")?;
            push_number(position, out)
        }
    }
}

/// The values in the heading of a track.
#[derive(Clone, Copy, Debug, PartialEq, Eq)]
pub struct Heading {
    /// The name of the track.
    pub name: TrackName,
    /// The handler type of its media, if it can be read.
    pub handler: Option<FourCC>,
    /// The timescale of its media, if it can be read.
    pub timescale: Option<u32>,
}

/// Puts the text of `heading` and the names of the columns into `text`, after an empty line if rows of another track
/// precede them.
fn make_heading(heading: Heading, follows: bool, text: &mut String) -> Result<(), AllocError> {
    text.clear();
    text.push_str(if follows { "\n" } else { "" })?;
    push_name(heading.name, text)?;
    if let Some(handler) = heading.handler {
        text.push_str(", ")?;
        push_handler(handler, text)?;
    }
    if let Some(timescale) = heading.timescale {
        text.push_str(", timescale ")?;
        push_number(u64::from(timescale), text)?;
    }
    text.push_str("\n")?;
    text.push_str(COLUMNS)
}

/// Writes the heading of a track, if rows are aligned columns.
pub fn write_heading<W: Write>(
    heading: Heading,
    writer: &mut RowWriter,
    output: &mut Output<W>,
) -> Result<(), Failure>
    ensures heading { OnOk result
        (WritesHeading writer.old.form (W.contents output.old.inner) (W.contents output.new.inner)) }
    ensures follows { OnOk result (writer.new.follows ≡ is_headed writer.old.form writer.old.follows) }
    ensures form { writer.new.form ≡ writer.old.form }
    ensures failed { output.new.failed ≡ (output.old.failed || is_write result) }
{
    match writer.form {
        Form::Text => {}
        Form::Csv | Form::Json => return Ok(()),
    }
    make_heading(heading, writer.follows, &mut writer.text)?;
    writer.follows = true;
    write_all(output, writer.text.as_bytes())
}
