//! The fields of metadata and of events.

ghost use Rattle.std.specs.Prelude.{◌≡◌, ◌==◌, ◌≤◌, ◌++◌, OnOk, length};
ghost use Rattle.mp4_media.specs.DataType.{number_data_type};
ghost use Rattle.mp4_show.specs.BoxRows.{data_row, emsg_row};
ghost use Rattle.mp4_show.specs.Metadata.{integer, integer_width, number_and_bytes, shown_integer, shown_value};
ghost use Rattle.mp4_show.specs.Metadata.{whole_value};
ghost use Rattle.mp4_show.specs.Row.{shown_row, whole_row};
ghost use Rattle.mp4_show.specs.declared.fields.metadata.TheConstants.{DATA, EMSG};
ghost use Rattle.mp4_shown.specs.Hands.{Hands};
ghost use Rattle.mp4_shown.specs.Members.{members_append};

use crate::box_fields::BoxFields;
use crate::row::{Part, field, put_row};
use mp4_frame::{i8_at, i16_at, i32_at};
use mp4_shown::{
    BytesName, FLAGS, FieldSink, Meaning, NumberName, Result, VERSION, Value, View, number,
    put_bytes, run,
};
use mp4_stream::{DataBox, DataType, EmsgBox};

/// The types of metadata values that the codec reads (QuickTime File Format, "Well-known types").
pub const DATA_TYPES: &[Meaning] = &[
    (0, "binary"),
    (1, "text"),
    (13, "JPEG"),
    (21, "signed integer"),
];

/// Returns the number of `data_type`.
fn number_data_type(data_type: &DataType) -> u32
    ensures { result ≡ number_data_type data_type.now }
{
    match data_type {
        DataType::Binary => 0,
        DataType::Text => 1,
        DataType::Image => 13,
        DataType::TempoCpil => 21,
    }
}

/// Returns the signed number in 1, 2 or 4 bytes, or `None` if there are more bytes or fewer.
pub fn integer(bytes: &[u8]) -> Option<i64>
    ensures { result ≡ integer bytes.now }
{
    if bytes.len() == 1 {
        Some(i64::from(i8_at(bytes, 0)))
    } else if bytes.len() == 2 {
        Some(i64::from(i16_at(bytes, 0)))
    } else if bytes.len() == 4 {
        Some(i64::from(i32_at(bytes, 0)))
    } else {
        None
    }
}

/// Returns the least of 1, 2 and 4 bytes that have room for `number`.
pub fn integer_width(number: i64) -> usize
    ensures value { result ≡ integer_width number }
    ensures few { result ≤ 4 }
{
    if -(1 << 7) <= number && number <= (1 << 7) - 1 {
        1
    } else if -(1 << 15) <= number && number <= (1 << 15) - 1 {
        2
    } else {
        4
    }
}

/// Hands `number` to a sink, and its `bytes` unless it needs as many.
fn put_with_bytes<K: FieldSink>(number: i64, bytes: &[u8], sink: &mut K) -> Result<()>
    ensures { OnOk result (Hands K.trace K.after sink.old
        (number_and_bytes (length bytes.now == integer_width number) number bytes.now) sink.new) }
{
    sink.field("number", Value::Signed(number))?;
    if bytes.len() == integer_width(number) {
        return Ok(());
    }
    sink.field("number_hex", Value::Bytes(bytes))
}

/// Hands `number` to a sink, or `bytes` if there is none.
fn put_integer<K: FieldSink>(number: Option<i64>, bytes: &[u8], sink: &mut K) -> Result<()>
    ensures { OnOk result (Hands K.trace K.after sink.old (shown_integer number bytes.now) sink.new) }
{
    match number {
        None => sink.field("data_bytes", Value::Bytes(bytes)),
        Some(number) => put_with_bytes(number, bytes, sink),
    }
}

/// The name of a value that is a text.
const TEXT: BytesName = run!("text", Text);

/// Hands a metadata value to a sink, of the type with the number `data_type`.
fn put_value<K: FieldSink>(data_type: u32, bytes: &[u8], sink: &mut K) -> Result<()>
    ensures { OnOk result (Hands K.trace K.after sink.old (shown_value data_type bytes.now) sink.new) }
{
    if data_type == 1 {
        return put_bytes(TEXT, 0, bytes, sink);
    }
    if data_type == 21 {
        return put_integer(integer(bytes), bytes, sink);
    }
    sink.field("data_bytes", Value::Bytes(bytes))
}

/// The field of a metadata item before its value (QuickTime File Format, "Data atom").
const DATA: &[NumberName] = &[number!("data_type", Named, DATA_TYPES)];

impl BoxFields for DataBox {
    ghost shown = { λ view b. shown_row DATA.now (data_row b)
        ++ shown_value (number_data_type b.data_type) b.data_bytes };

    ghost whole = { λ view b. members_append (shown_row DATA.now (data_row b))
        (shown_value (number_data_type b.data_type) b.data_bytes) (whole_row DATA.now (data_row b))
        (whole_value (number_data_type b.data_type) b.data_bytes) };

    fn show<K: FieldSink>(&self, _view: View, sink: &mut K) -> Result<()> {
        let data_type = number_data_type(&self.data_type);
        let parts = [Part::U32(data_type)];
        put_row(DATA, &parts, sink)?;
        put_value(data_type, self.data_bytes.as_slice(), sink)
    }
}

/// The fields of an event (ISO/IEC 23009-1, 5.10.3.3). The field of the other version is left out.
const EMSG: &[NumberName] = &[
    VERSION,
    FLAGS,
    field!("scheme_id_uri"),
    field!("value"),
    number!("timescale"),
    number!("presentation_time"),
    number!("presentation_time_delta"),
    number!("event_duration"),
    number!("id"),
    field!("message_data"),
];

impl BoxFields for EmsgBox {
    ghost shown = { λ view b. shown_row EMSG.now (emsg_row b) };

    ghost whole = { λ view b. whole_row EMSG.now (emsg_row b) };

    fn show<K: FieldSink>(&self, _view: View, sink: &mut K) -> Result<()> {
        let parts = [
            Part::U8(self.version),
            Part::U32(self.flags),
            Part::Text(self.scheme_id_uri.as_bytes()),
            Part::Text(self.value.as_bytes()),
            Part::U32(self.timescale),
            Part::SomeU64(self.presentation_time),
            Part::SomeU32(self.presentation_time_delta),
            Part::U32(self.event_duration),
            Part::U32(self.id),
            Part::Bytes(self.message_data.as_slice()),
        ];
        put_row(EMSG, &parts, sink)
    }
}
