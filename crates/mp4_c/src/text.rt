//! Reads and writes the boxes of `mp4_text`: boxes of strings and references.

ghost use Rattle.mp4_frame.specs.declared.codes.TheConstants as codes;
ghost use Rattle.mp4_c_boxes.specs.Calls.{CopiesParts, CopiesReading, PutsOrRefuses};
ghost use Rattle.mp4_c_boxes.specs.Text.{fields_data, dref_of, fields_dinf, fields_dref, location_dref, brands_ftyp};
ghost use Rattle.mp4_c_boxes.specs.Text.{fields_ftyp, ftyp_of, fields_hdlr, hdlr_of, fields_url};
ghost use Rattle.mp4_c_boxes.specs.Emsg.{FillsEmsg, emsg_of, fields_emsg, texts_emsg};
ghost use Rattle.mp4_frame.specs.WholeBox.{front_box};
ghost use Rattle.mp4_stream.specs.Boxes.{format_dref, format_emsg, format_ftyp, format_hdlr, reads_data, reads_dinf};
ghost use Rattle.mp4_stream.specs.Boxes.{reads_dref, reads_emsg, reads_ftyp, reads_hdlr, reads_url};

use mp4_c_boxes::emsg::{Emsg, copy_emsg, write_emsg};
use mp4_c_boxes::text::{Data, Dref, Ftyp, Hdlr, Url, write_dref, write_hdlr};
use mp4_c_boxes::to_rows::copy_box_rows;
use mp4_c_boxes::written::write_from;
use mp4_frame::codes;
use mp4_stream::{DataBox, DinfBox, DrefBox, FtypBox, HdlrBox, UrlBox};
use std::alloc::Global;

/// Copies the compatible brands in the `ftyp` at the front of `bytes` (ISO/IEC 14496-12, 4.3) to `brands`. Fills
/// `fields` with the other fields. The major brand is one of the fields. Returns the status.
#[unsafe(no_mangle)]
pub extern "C" fn mp4_ftyp(
    alloc: Global,
    bytes: &[u8],
    brands: &mut [u32],
    fields: &mut Ftyp,
) -> u32
    ensures { CopiesReading (front_box reads_ftyp codes.FTYP bytes.now) brands_ftyp fields_ftyp
        result brands.old brands.new fields.old fields.new }
{
    copy_box_rows::<FtypBox, u32, Ftyp>(alloc, codes::FTYP, bytes, brands, fields)
}

/// Writes the `ftyp` with `fields` and `brands` to the front of `bytes`, and its length to `length` (ISO/IEC 14496-12,
/// 4.3). Returns the status.
#[unsafe(no_mangle)]
pub extern "C" fn mp4_write_ftyp(
    alloc: Global,
    fields: &Ftyp,
    brands: &[u32],
    bytes: &mut [u8],
    length: &mut usize,
) -> u32
    ensures { PutsOrRefuses format_ftyp (ftyp_of fields.now brands.now)
        result bytes.old bytes.new length.old length.new }
{
    write_from::<FtypBox, Ftyp, u32>(alloc, fields, brands, bytes, length)
}

/// Copies the name of the handler in the `hdlr` at the front of `bytes` (ISO/IEC 14496-12, 8.4.3) to `name`. Fills
/// `fields` with the other fields. The handler type is one of the fields. Returns the status.
#[unsafe(no_mangle)]
pub extern "C" fn mp4_hdlr(alloc: Global, bytes: &[u8], name: &mut [u8], fields: &mut Hdlr) -> u32
    ensures { CopiesReading (front_box reads_hdlr codes.HDLR bytes.now) (λ v. v.name) fields_hdlr
        result name.old name.new fields.old fields.new }
{
    copy_box_rows::<HdlrBox, u8, Hdlr>(alloc, codes::HDLR, bytes, name, fields)
}

/// Writes the `hdlr` with `fields` and `name` to the front of `bytes`, and its length to `length` (ISO/IEC 14496-12,
/// 8.4.3). `name` has to be UTF-8. Returns the status.
#[unsafe(no_mangle)]
pub extern "C" fn mp4_write_hdlr(
    alloc: Global,
    fields: &Hdlr,
    name: &[u8],
    bytes: &mut [u8],
    length: &mut usize,
) -> u32
    ensures { PutsOrRefuses format_hdlr (hdlr_of fields.now name.now)
        result bytes.old bytes.new length.old length.new }
{
    write_hdlr(alloc, fields, name, bytes, length)
}

/// Copies the bytes of the metadata value in the `data` at the front of `bytes` (QuickTime's metadata, "Data atom") to
/// `value`. Fills `fields` with the other fields. The type of the bytes is one of the fields. Returns the status.
#[unsafe(no_mangle)]
pub extern "C" fn mp4_data(alloc: Global, bytes: &[u8], value: &mut [u8], fields: &mut Data) -> u32
    ensures { CopiesReading (front_box reads_data codes.DATA bytes.now) (λ v. v.data_bytes) fields_data
        result value.old value.new fields.old fields.new }
{
    copy_box_rows::<DataBox, u8, Data>(alloc, codes::DATA, bytes, value, fields)
}

/// Fills `fields` with those of the `emsg` at the front of `bytes`, an event message (ISO/IEC 23009-1, 5.10.3.3).
/// Copies its strings and its message. Returns the status.
#[unsafe(no_mangle)]
pub extern "C" fn mp4_emsg(
    alloc: Global,
    bytes: &[u8],
    scheme_id_uri: &mut [u8],
    value: &mut [u8],
    message_data: &mut [u8],
    fields: &mut Emsg,
) -> u32
    ensures { CopiesParts (front_box reads_emsg codes.EMSG bytes.now) fields_emsg texts_emsg FillsEmsg result
        fields.old fields.new
        (record { scheme_id_uri = scheme_id_uri.old; value = value.old; message_data = message_data.old })
        (record { scheme_id_uri = scheme_id_uri.new; value = value.new; message_data = message_data.new }) }
{
    copy_emsg(alloc, bytes, scheme_id_uri, value, message_data, fields)
}

/// Writes the `emsg` with `fields`, two strings and a message to the front of `bytes`, and its length to `length`
/// (ISO/IEC 23009-1, 5.10.3.3). The strings have to be UTF-8 without a zero byte. Returns the status.
#[unsafe(no_mangle)]
pub extern "C" fn mp4_write_emsg(
    alloc: Global,
    fields: &Emsg,
    scheme_id_uri: &[u8],
    value: &[u8],
    message_data: &[u8],
    bytes: &mut [u8],
    length: &mut usize,
) -> u32
    ensures { PutsOrRefuses format_emsg (emsg_of fields.now
        (record { scheme_id_uri = scheme_id_uri.now; value = value.now; message_data = message_data.now }))
        result bytes.old bytes.new length.old length.new }
{
    write_emsg(
        alloc,
        fields,
        scheme_id_uri,
        value,
        message_data,
        bytes,
        length,
    )
}

/// Copies the location in the `url ` at the front of `bytes` (ISO/IEC 14496-12, 8.7.2) to `location`. Fills `fields`
/// with the other fields. Returns the status.
#[unsafe(no_mangle)]
pub extern "C" fn mp4_url(alloc: Global, bytes: &[u8], location: &mut [u8], fields: &mut Url) -> u32
    ensures { CopiesReading (front_box reads_url codes.URL bytes.now) (λ v. v.location) fields_url
        result location.old location.new fields.old fields.new }
{
    copy_box_rows::<UrlBox, u8, Url>(alloc, codes::URL, bytes, location, fields)
}

/// Copies the location of the data reference in the `dref` at the front of `bytes` (ISO/IEC 14496-12, 8.7.2) to
/// `location`. Fills `fields` with the other fields. Returns the status.
#[unsafe(no_mangle)]
pub extern "C" fn mp4_dref(
    alloc: Global,
    bytes: &[u8],
    location: &mut [u8],
    fields: &mut Dref,
) -> u32
    ensures { CopiesReading (front_box reads_dref codes.DREF bytes.now) location_dref fields_dref
        result location.old location.new fields.old fields.new }
{
    copy_box_rows::<DrefBox, u8, Dref>(alloc, codes::DREF, bytes, location, fields)
}

/// Writes the `dref` with `fields` and `location` to the front of `bytes`, and its length to `length` (ISO/IEC
/// 14496-12, 8.7.2). `location` has to be UTF-8. Returns the status.
#[unsafe(no_mangle)]
pub extern "C" fn mp4_write_dref(
    alloc: Global,
    fields: &Dref,
    location: &[u8],
    bytes: &mut [u8],
    length: &mut usize,
) -> u32
    ensures { PutsOrRefuses format_dref (dref_of fields.now location.now)
        result bytes.old bytes.new length.old length.new }
{
    write_dref(alloc, fields, location, bytes, length)
}

/// Copies the location of the data reference in the `dinf` at the front of `bytes` (ISO/IEC 14496-12, 8.7.1) to
/// `location`. Fills `fields` with the other fields. Returns the status.
#[unsafe(no_mangle)]
pub extern "C" fn mp4_dinf(
    alloc: Global,
    bytes: &[u8],
    location: &mut [u8],
    fields: &mut Dref,
) -> u32
    ensures { CopiesReading (front_box reads_dinf codes.DINF bytes.now) (λ v. location_dref v.dref) fields_dinf
        result location.old location.new fields.old fields.new }
{
    copy_box_rows::<DinfBox, u8, Dref>(alloc, codes::DINF, bytes, location, fields)
}
