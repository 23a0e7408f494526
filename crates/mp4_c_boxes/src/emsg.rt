//! The event message box.

ghost use Rattle.std.specs.Prelude.{◌≡◌, ◌≤◌, ◌++◌, drop, length, IfOk, IfErr};
ghost use Rattle.mp4_frame.specs.declared.error.Error.TheVariants.{OutOfMemory};
ghost use Rattle.mp4_text.specs.Boxes.{format_emsg, reads_emsg};
ghost use Rattle.mp4_frame.specs.declared.codes.TheConstants as codes;
ghost use Rattle.mp4_frame.specs.WholeBox.{front_box};
ghost use Rattle.mp4_c_boxes.specs.Calls.{CopiesParts, PutsOrRefuses};
ghost use Rattle.mp4_c_boxes.specs.Emsg.{FillsEmsg, emsg_of, texts_emsg, fields_emsg};

use crate::status::{INVALID_DATA, NO_ROOM, OK, status_of};
use crate::to_struct::ToStruct;
use crate::written::{put_box, write_result};
use mp4_frame::{Result, Text, codes, front_box};
use mp4_text::EmsgBox;
use std::alloc::Global;
use std::str;

/// The fields of an `emsg` (ISO/IEC 23009-1, 5.10.3.3), without its strings and its message.
#[repr(C)]
#[derive(Clone, Copy)]
pub struct Emsg {
    /// The number of bytes of the scheme.
    pub scheme_id_uri_count: usize,
    /// The number of bytes of the value.
    pub value_count: usize,
    /// The number of bytes of the message.
    pub message_data_count: usize,
    /// In version 1, the time of the event from the start of the presentation, in the timescale; else 0.
    pub presentation_time: u64,
    /// In version 0, the time of the event from the start of the segment, in the timescale; else 0.
    pub presentation_time_delta: u32,
    /// The number of time units per second.
    pub timescale: u32,
    /// The duration of the event, in the timescale.
    pub event_duration: u32,
    /// The number of the event.
    pub id: u32,
    /// The flags of the box: 24 bits.
    pub flags: u32,
    /// The version of the box: 0 or 1.
    pub version: u8,
}

impl ToStruct<Emsg> for EmsgBox {
    ghost to_struct = { fields_emsg };

    fn to_struct(&self) -> Emsg {
        Emsg {
            scheme_id_uri_count: self.scheme_id_uri.len(),
            value_count: self.value.len(),
            message_data_count: self.message_data.len(),
            presentation_time: self.presentation_time.unwrap_or(0),
            presentation_time_delta: self.presentation_time_delta.unwrap_or(0),
            timescale: self.timescale,
            event_duration: self.event_duration,
            id: self.id,
            flags: self.flags,
            version: self.version,
        }
    }
}

/// Copies `bytes` to the front of `out`, which is long enough for them.
fn put_front(out: &mut [u8], bytes: &[u8])
    requires { length bytes.now ≤ length out.old }
    ensures { out.new ≡ bytes.now ++ drop (length bytes.now) out.old }
{
    out[..bytes.len()].copy_from_slice(bytes);
}

/// Copies the strings and the message of `found` to the fronts of the three arrays. Returns `OK`, or `NO_ROOM` if one
/// of the arrays is too short; all three then stay as they are.
fn fill_emsg(
    found: &EmsgBox,
    scheme_id_uri: &mut [u8],
    value: &mut [u8],
    message_data: &mut [u8],
) -> u32
    ensures { FillsEmsg result (texts_emsg found.now)
        (record { scheme_id_uri = scheme_id_uri.old; value = value.old; message_data = message_data.old })
        (record { scheme_id_uri = scheme_id_uri.new; value = value.new; message_data = message_data.new }) }
{
    if scheme_id_uri.len() < found.scheme_id_uri.len()
        || value.len() < found.value.len()
        || message_data.len() < found.message_data.len()
    {
        return NO_ROOM;
    }
    put_front(scheme_id_uri, found.scheme_id_uri.as_bytes());
    put_front(value, found.value.as_bytes());
    put_front(message_data, found.message_data.as_slice());
    OK
}

/// Fills `fields` with those of the `emsg` at the front of `bytes`, and copies its strings and its message. Returns the
/// status, which is `NO_ROOM` if one of the three arrays is too short. Even then it fills `fields`.
pub fn copy_emsg(
    alloc: Global,
    bytes: &[u8],
    scheme_id_uri: &mut [u8],
    value: &mut [u8],
    message_data: &mut [u8],
    fields: &mut Emsg,
) -> u32
    ensures { CopiesParts (front_box reads_emsg codes.EMSG bytes.now) fields_emsg texts_emsg FillsEmsg result
        fields.old fields.new
        (record { scheme_id_uri = scheme_id_uri.old; value = value.old; message_data = message_data.old })
        (record { scheme_id_uri = scheme_id_uri.new; value = value.new; message_data = message_data.new }) }
{
    match front_box::<EmsgBox>(alloc, codes::EMSG, bytes) {
        Ok(found) => {
            *fields = found.to_struct();
            fill_emsg(&found, scheme_id_uri, value, message_data)
        }
        Err(error) => status_of(&error),
    }
}

/// Returns the box with `fields`, two strings and a message. The only error is out of memory.
fn emsg_of(
    alloc: Global,
    fields: &Emsg,
    scheme_id_uri: &str,
    value: &str,
    message_data: &[u8],
) -> Result<EmsgBox>
    ensures value { IfOk result (λ v. v ≡ emsg_of fields.now
        (record { scheme_id_uri = scheme_id_uri.now; value = value.now; message_data = message_data.now })) }
    ensures memory { IfErr result (λ e. e ≡ OutOfMemory) }
{
    let is_first = fields.version == 0;
    let (time, delta) = if is_first {
        (None, Some(fields.presentation_time_delta))
    } else {
        (Some(fields.presentation_time), None)
    };
    Ok(EmsgBox {
        version: fields.version,
        flags: fields.flags,
        timescale: fields.timescale,
        presentation_time: time,
        presentation_time_delta: delta,
        event_duration: fields.event_duration,
        id: fields.id,
        scheme_id_uri: Text::from_str(alloc, scheme_id_uri)?,
        value: Text::from_str(alloc, value)?,
        message_data: Vec::from_slice(alloc, message_data)?.into(),
    })
}

/// Writes the box with `fields`, two strings and a message to the front of `bytes`, and its length to `length`. Returns
/// the status, which is `INVALID_DATA` if a string isn't UTF-8, or has a zero byte.
pub fn write_emsg(
    alloc: Global,
    fields: &Emsg,
    scheme_id_uri: &[u8],
    value: &[u8],
    message_data: &[u8],
    bytes: &mut [u8],
    length: &mut usize,
) -> u32
    ensures { PutsOrRefuses format_emsg (emsg_of fields.now
        (record { scheme_id_uri = scheme_id_uri.now; value = value.now; message_data = message_data.now }))
        result bytes.old bytes.new length.old length.new }
{
    let Ok(scheme_id_uri) = str::from_utf8(scheme_id_uri) else {
        return INVALID_DATA;
    };
    let Ok(value) = str::from_utf8(value) else {
        return INVALID_DATA;
    };
    write_result!(
        emsg_of(alloc, fields, scheme_id_uri, value, message_data),
        bytes,
        length
    )
}
