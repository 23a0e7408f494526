//! Boxes of texts, data and references, with their bytes.

use mp4_stream::{
    DataBox, DataType, DinfBox, DrefBox, EmsgBox, Entries, FourCC, FtypBox, HdlrBox, Result, Text,
    UrlBox,
};
use std::alloc::Global;

/// `ftyp`: four compatible brands.
pub const FTYP: [u8; 32] = *b"\0\0\0\x20ftypisom\0\0\0\0isomiso2avc1mp41";

/// `ftyp`: a minor version of 512, and two compatible brands.
pub const FTYP_OF_TWO: [u8; 24] = *b"\0\0\0\x18ftypisom\0\0\x02\0isommp41";

/// `hdlr`, version 0: the handler of a video track.
pub const HDLR: [u8; 45] =
    *b"\0\0\0-hdlr\0\0\0\0\0\0\0\0vide\0\0\0\0\0\0\0\0\0\0\0\0VideoHandler\0";

/// `data`: a text.
pub const DATA: [u8; 25] = *b"\0\0\0\x19data\0\0\0\x01\0\0\0\0test_data";

/// `emsg`, version 0: a time relative to its segment.
pub const EMSG: [u8; 39] =
    *b"\0\0\0'emsg\0\0\0\0foo\0foo\0\0\0\xbb\x80\0\0\0d\0\0\0\xc8\0\0\0\x08\x01\x02\x03";

/// `url `, version 0: the location `a`.
pub const URL: [u8; 14] = *b"\0\0\0\x0eurl \0\0\0\0a\0";

/// `dref`, version 0: the data is in the same file.
pub const DREF: [u8; 28] = *b"\0\0\0\x1cdref\0\0\0\0\0\0\0\x01\0\0\0\x0curl \0\0\0\x01";

/// `dinf`: the data is in the same file.
pub const DINF: [u8; 36] = *b"\0\0\0$dinf\0\0\0\x1cdref\0\0\0\0\0\0\0\x01\0\0\0\x0curl \0\0\0\x01";

/// `emsg`, version 1: a time in its presentation.
pub const EMSG_LONG: [u8; 43] =
    *b"\0\0\0\x2bemsg\x01\0\0\0\0\0\xbb\x80\0\0\0\0\0\0\xc3\x50\0\0\0\xc8\0\0\0\x08foo\0foo\0\x03\x02\x01";

/// `dref`, version 0: the location `a`.
pub const DREF_URL: [u8; 30] = *b"\0\0\0\x1edref\0\0\0\0\0\0\0\x01\0\0\0\x0eurl \0\0\0\0a\0";

/// `dinf`: the location `a`.
pub const DINF_URL: [u8; 38] =
    *b"\0\0\0\x26dinf\0\0\0\x1edref\0\0\0\0\0\0\0\x01\0\0\0\x0eurl \0\0\0\0a\0";

/// Returns an `ftyp`: a file type with four compatible brands.
pub fn ftyp(alloc: Global) -> Result<FtypBox> {
    let mut compatible_brands = Entries::new(alloc);
    for brand in [*b"isom", *b"iso2", *b"avc1", *b"mp41"] {
        compatible_brands.push(FourCC::from(brand))?;
    }
    Ok(FtypBox {
        major_brand: FourCC::from(*b"isom"),
        minor_version: 0,
        compatible_brands,
    })
}

/// Returns an `hdlr` of version 0: the handler of a video track.
pub fn hdlr(alloc: Global) -> Result<HdlrBox> {
    Ok(HdlrBox {
        version: 0,
        flags: 0,
        handler_type: FourCC::from(*b"vide"),
        name: Text::from_str(alloc, "VideoHandler")?,
    })
}

/// Returns a `data`: a metadata value that is a text.
pub fn data_box(alloc: Global) -> Result<DataBox> {
    Ok(DataBox {
        data_bytes: Vec::from_slice(alloc, b"test_data")?.into(),
        data_type: DataType::Text,
    })
}

/// Returns an `emsg` of version 0: an event with a time relative to its segment.
pub fn emsg(alloc: Global) -> Result<EmsgBox> {
    Ok(EmsgBox {
        version: 0,
        flags: 0,
        timescale: 48000,
        presentation_time: None,
        presentation_time_delta: Some(100),
        event_duration: 200,
        id: 8,
        scheme_id_uri: Text::from_str(alloc, "foo")?,
        value: Text::from_str(alloc, "foo")?,
        message_data: Vec::from_slice(alloc, &[1, 2, 3])?.into(),
    })
}

/// Returns an `emsg` of version 1: an event with a time in its presentation.
pub fn emsg_long(alloc: Global) -> Result<EmsgBox> {
    Ok(EmsgBox {
        version: 1,
        flags: 0,
        timescale: 48000,
        presentation_time: Some(50000),
        presentation_time_delta: None,
        event_duration: 200,
        id: 8,
        scheme_id_uri: Text::from_str(alloc, "foo")?,
        value: Text::from_str(alloc, "foo")?,
        message_data: Vec::from_slice(alloc, &[3, 2, 1])?.into(),
    })
}

/// Returns a `url ` of version 0: the location `a`.
pub fn url(alloc: Global) -> Result<UrlBox> {
    Ok(UrlBox {
        version: 0,
        flags: 0,
        location: Text::from_str(alloc, "a")?,
    })
}

/// Returns a `dref` of version 0: data references with the entry `url`, or with none.
pub fn dref_of(url: Option<UrlBox>) -> DrefBox {
    DrefBox {
        version: 0,
        flags: 0,
        url,
    }
}

/// Returns a `dref` of version 0: data references with the location `a`.
pub fn dref_url(alloc: Global) -> Result<DrefBox> {
    Ok(dref_of(Some(url(alloc)?)))
}

/// Returns a `dref` of version 0: data references that say that the data is in the same file.
pub fn dref(alloc: Global) -> DrefBox {
    DrefBox::default_in(alloc)
}

/// Returns a `dinf`: data information that says that the data is in the same file.
pub fn dinf(alloc: Global) -> DinfBox {
    DinfBox::default_in(alloc)
}

/// Returns a `dinf`: data information with the location `a`.
pub fn dinf_url(alloc: Global) -> Result<DinfBox> {
    Ok(DinfBox::new(dref_url(alloc)?))
}
