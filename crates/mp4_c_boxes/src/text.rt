//! The structs and rows for C of boxes of strings and references, except `emsg`.

ghost use Rattle.std.specs.Prelude.{◌≡◌, IfOk, IfErr, map, ◌<◌};
ghost use Rattle.mp4_frame.specs.declared.error.Error.TheVariants.{OutOfMemory};
ghost use Rattle.mp4_frame.specs.FourCC.{four_cc_of};
ghost use Rattle.mp4_c_boxes.specs.Text.{brands_ftyp, ftyp_of, fields_ftyp, hdlr_of, fields_hdlr, fields_data};
ghost use Rattle.mp4_c_boxes.specs.Text.{fields_url, url_of, dref_of, location_dref, fields_dref, fields_dinf};
ghost use Rattle.mp4_text.specs.Boxes.{format_hdlr, format_dref};
ghost use Rattle.mp4_c_boxes.specs.Calls.{PutsOrRefuses};
ghost use Rattle.mp4_media.specs.DataType.{number_data_type};

use crate::status::{INVALID_DATA, status_of};
use crate::to_rows::ToRows;
use crate::to_struct::ToStruct;
use crate::written::{FromStruct, put_box, write_result};
use mp4_frame::{FourCC, Result, Text};
use mp4_media::DataType;
use mp4_text::{DataBox, DinfBox, DrefBox, FtypBox, HdlrBox, UrlBox};
use std::alloc::Global;
use std::str;

/// The fields of an `ftyp` (ISO/IEC 14496-12, 4.3), without its compatible brands.
#[repr(C)]
#[derive(Clone, Copy)]
pub struct Ftyp {
    /// The number of compatible brands.
    pub count: usize,
    /// The four characters of the brand that suits the file best, the first in the highest byte.
    pub major_brand: u32,
    /// The version of the major brand.
    pub minor_version: u32,
}

impl ToStruct<Ftyp> for FtypBox {
    ghost to_struct = { fields_ftyp };

    fn to_struct(&self) -> Ftyp {
        Ftyp {
            count: self.compatible_brands.len(),
            major_brand: u32::from(self.major_brand),
            minor_version: self.minor_version,
        }
    }
}

impl ToRows<u32, Ftyp> for FtypBox {
    ghost rows = { brands_ftyp };

    ghost summary = { fields_ftyp };

    fn count(&self) -> usize {
        self.compatible_brands.len()
    }

    fn row(&self, index: usize) -> u32 {
        u32::from(self.compatible_brands.as_slice()[index])
    }

    fn summary(&self) -> Ftyp {
        self.to_struct()
    }
}

/// Returns the codes whose numbers are `numbers`. The only error is out of memory.
fn codes_of(alloc: Global, numbers: &[u32]) -> Result<Vec<FourCC>>
    ensures value { IfOk result (λ codes. codes.items ≡ map four_cc_of numbers.now) }
    ensures memory { IfErr result (λ e. e ≡ OutOfMemory) }
{
    let codes: Vec<FourCC> = numbers
        .iter()
        .map(
            |number: &u32| -> FourCC
                ensures { result ≡ four_cc_of number.now }
            { FourCC::from(*number) },
        )
        .collect(alloc)?;
    Ok(codes)
}

impl FromStruct<Ftyp, u32> for FtypBox {
    ghost from_struct = { ftyp_of };

    fn from_struct(alloc: Global, fields: &Ftyp, rows: &[u32]) -> Result<FtypBox> {
        Ok(FtypBox {
            major_brand: FourCC::from(fields.major_brand),
            minor_version: fields.minor_version,
            compatible_brands: codes_of(alloc, rows)?.into(),
        })
    }
}

/// The fields of an `hdlr` (ISO/IEC 14496-12, 8.4.3), without its name.
#[repr(C)]
#[derive(Clone, Copy)]
pub struct Hdlr {
    /// The number of bytes of the name.
    pub count: usize,
    /// The flags of the box: 24 bits.
    pub flags: u32,
    /// The four characters of the kind of media, the first in the highest byte.
    pub handler_type: u32,
    /// The version of the box.
    pub version: u8,
}

impl ToStruct<Hdlr> for HdlrBox {
    ghost to_struct = { fields_hdlr };

    fn to_struct(&self) -> Hdlr {
        Hdlr {
            count: self.name.len(),
            flags: self.flags,
            handler_type: u32::from(self.handler_type),
            version: self.version,
        }
    }
}

impl ToRows<u8, Hdlr> for HdlrBox {
    ghost rows = { λ v. v.name };

    ghost summary = { fields_hdlr };

    fn count(&self) -> usize {
        self.name.len()
    }

    fn row(&self, index: usize) -> u8 {
        self.name.as_bytes()[index]
    }

    fn summary(&self) -> Hdlr {
        self.to_struct()
    }
}

/// Returns the box with `fields` and `name`. The only error is out of memory.
fn hdlr_of(alloc: Global, fields: &Hdlr, name: &str) -> Result<HdlrBox>
    ensures value { IfOk result (λ v. v ≡ hdlr_of fields.now name.now) }
    ensures memory { IfErr result (λ e. e ≡ OutOfMemory) }
{
    Ok(HdlrBox {
        version: fields.version,
        flags: fields.flags,
        handler_type: FourCC::from(fields.handler_type),
        name: Text::from_str(alloc, name)?,
    })
}

/// Writes the box with `fields` and `name` to the front of `bytes`, and its length to `length`. Returns the status,
/// which is `INVALID_DATA` if `name` isn't UTF-8.
pub fn write_hdlr(
    alloc: Global,
    fields: &Hdlr,
    name: &[u8],
    bytes: &mut [u8],
    length: &mut usize,
) -> u32
    ensures { PutsOrRefuses format_hdlr (hdlr_of fields.now name.now) result bytes.old bytes.new length.old
        length.new }
{
    let Ok(name) = str::from_utf8(name) else {
        return INVALID_DATA;
    };
    write_result!(hdlr_of(alloc, fields, name), bytes, length)
}

/// The fields of a `data` (QuickTime's metadata, "Data atom"), without its bytes.
#[repr(C)]
#[derive(Clone, Copy)]
pub struct Data {
    /// The number of bytes of the value.
    pub count: usize,
    /// The type of the bytes: 0 is binary, 1 a UTF-8 string, 13 a JPEG picture, 21 a whole number.
    pub data_type: u32,
}

/// Returns the number of `data_type`.
fn type_code(data_type: &DataType) -> u32
    ensures { result ≡ number_data_type data_type.now }
{
    match data_type {
        DataType::Binary => 0,
        DataType::Text => 1,
        DataType::Image => 13,
        DataType::TempoCpil => 21,
    }
}

impl ToStruct<Data> for DataBox {
    ghost to_struct = { fields_data };

    fn to_struct(&self) -> Data {
        Data {
            count: self.data_bytes.len(),
            data_type: type_code(&self.data_type),
        }
    }
}

impl ToRows<u8, Data> for DataBox {
    ghost rows = { λ v. v.data_bytes };

    ghost summary = { fields_data };

    fn count(&self) -> usize {
        self.data_bytes.len()
    }

    fn row(&self, index: usize) -> u8 {
        self.data_bytes.as_slice()[index]
    }

    fn summary(&self) -> Data {
        self.to_struct()
    }
}

/// The fields of a `url ` (ISO/IEC 14496-12, 8.7.2), without its location.
#[repr(C)]
#[derive(Clone, Copy, Default)]
pub struct Url {
    /// The number of bytes of the location.
    pub count: usize,
    /// The flags of the box: 24 bits. 1 means that the data is in the same file.
    pub flags: u32,
    /// The version of the box.
    pub version: u8,
}

impl ToStruct<Url> for UrlBox {
    ghost to_struct = { fields_url };

    fn to_struct(&self) -> Url {
        Url {
            count: self.location.len(),
            flags: self.flags,
            version: self.version,
        }
    }
}

impl ToRows<u8, Url> for UrlBox {
    ghost rows = { λ v. v.location };

    ghost summary = { fields_url };

    fn count(&self) -> usize {
        self.location.len()
    }

    fn row(&self, index: usize) -> u8 {
        self.location.as_bytes()[index]
    }

    fn summary(&self) -> Url {
        self.to_struct()
    }
}

/// The fields of a `dref` (ISO/IEC 14496-12, 8.7.2), without the location of its entry.
#[repr(C)]
#[derive(Clone, Copy)]
pub struct Dref {
    /// The fields of the `url ` that the codec keeps; zeros if there is none.
    pub url: Url,
    /// The flags of the box: 24 bits.
    pub flags: u32,
    /// The version of the box.
    pub version: u8,
    /// 1 if there is a `url `, else 0.
    pub has_url: u8,
}

impl ToStruct<Dref> for DrefBox {
    ghost to_struct = { fields_dref };

    fn to_struct(&self) -> Dref {
        let (has_url, url) = match &self.url {
            Some(url) => (1, url.to_struct()),
            None => (0, Url::default()),
        };
        Dref {
            url,
            flags: self.flags,
            version: self.version,
            has_url,
        }
    }
}

/// Returns the location of the entry of `found`; empty if there is no entry.
pub fn location_of(found: &DrefBox) -> &[u8]
    ensures { result.now ≡ location_dref found.now }
{
    match &found.url {
        Some(url) => url.location.as_bytes(),
        None => &[],
    }
}

impl ToRows<u8, Dref> for DrefBox {
    ghost rows = { location_dref };

    ghost summary = { fields_dref };

    fn count(&self) -> usize {
        location_of(self).len()
    }

    fn row(&self, index: usize) -> u8 {
        location_of(self)[index]
    }

    fn summary(&self) -> Dref {
        self.to_struct()
    }
}

/// Returns the entry with `fields` and `location`. The only error is out of memory.
fn url_of(alloc: Global, fields: &Url, location: &str) -> Result<UrlBox>
    ensures value { IfOk result (λ v. v ≡ url_of fields.now location.now) }
    ensures memory { IfErr result (λ e. e ≡ OutOfMemory) }
{
    Ok(UrlBox {
        version: fields.version,
        flags: fields.flags,
        location: Text::from_str(alloc, location)?,
    })
}

/// Returns the box with `fields` and an entry with `location`. The only error is out of memory.
fn dref_of(alloc: Global, fields: &Dref, location: &str) -> Result<DrefBox>
    requires { 0 < fields.now.has_url }
    ensures value { IfOk result (λ v. v ≡ dref_of fields.now location.now) }
    ensures memory { IfErr result (λ e. e ≡ OutOfMemory) }
{
    Ok(DrefBox {
        version: fields.version,
        flags: fields.flags,
        url: Some(url_of(alloc, &fields.url, location)?),
    })
}

/// Writes the box with `fields` to the front of `bytes`, and its length to `length`. If `has_url` isn't 0, the box has
/// an entry with `location`. Returns the status, which is `INVALID_DATA` if this location isn't UTF-8.
pub fn write_dref(
    alloc: Global,
    fields: &Dref,
    location: &[u8],
    bytes: &mut [u8],
    length: &mut usize,
) -> u32
    ensures { PutsOrRefuses format_dref (dref_of fields.now location.now) result bytes.old bytes.new length.old
        length.new }
{
    if fields.has_url == 0 {
        let without = DrefBox {
            version: fields.version,
            flags: fields.flags,
            url: None,
        };
        return put_box(&without, bytes, length);
    }
    let Ok(location) = str::from_utf8(location) else {
        return INVALID_DATA;
    };
    write_result!(dref_of(alloc, fields, location), bytes, length)
}

impl ToRows<u8, Dref> for DinfBox {
    ghost rows = { λ v. location_dref v.dref };

    ghost summary = { fields_dinf };

    fn count(&self) -> usize {
        location_of(self.dref()).len()
    }

    fn row(&self, index: usize) -> u8 {
        location_of(self.dref())[index]
    }

    fn summary(&self) -> Dref {
        self.dref().to_struct()
    }
}
