//! Tests of the conversions between the names of boxes and their codes.

use mp4_stream::{BoxType, FourCC};

/// Each name with the four bytes of its code.
const CODES: [(BoxType, [u8; 4]); 55] = [
    (BoxType::FtypBox, *b"ftyp"),
    (BoxType::FreeBox, *b"free"),
    (BoxType::WideBox, *b"wide"),
    (BoxType::MdatBox, *b"mdat"),
    (BoxType::MoovBox, *b"moov"),
    (BoxType::MoofBox, *b"moof"),
    (BoxType::MvexBox, *b"mvex"),
    (BoxType::TrafBox, *b"traf"),
    (BoxType::MvhdBox, *b"mvhd"),
    (BoxType::MehdBox, *b"mehd"),
    (BoxType::MfhdBox, *b"mfhd"),
    (BoxType::TrexBox, *b"trex"),
    (BoxType::TfhdBox, *b"tfhd"),
    (BoxType::TfdtBox, *b"tfdt"),
    (BoxType::TrunBox, *b"trun"),
    (BoxType::EmsgBox, *b"emsg"),
    (BoxType::TrakBox, *b"trak"),
    (BoxType::TkhdBox, *b"tkhd"),
    (BoxType::EdtsBox, *b"edts"),
    (BoxType::ElstBox, *b"elst"),
    (BoxType::MdiaBox, *b"mdia"),
    (BoxType::MdhdBox, *b"mdhd"),
    (BoxType::HdlrBox, *b"hdlr"),
    (BoxType::MinfBox, *b"minf"),
    (BoxType::VmhdBox, *b"vmhd"),
    (BoxType::SmhdBox, *b"smhd"),
    (BoxType::DinfBox, *b"dinf"),
    (BoxType::DrefBox, *b"dref"),
    (BoxType::UrlBox, *b"url "),
    (BoxType::StblBox, *b"stbl"),
    (BoxType::StsdBox, *b"stsd"),
    (BoxType::SttsBox, *b"stts"),
    (BoxType::CttsBox, *b"ctts"),
    (BoxType::StssBox, *b"stss"),
    (BoxType::StscBox, *b"stsc"),
    (BoxType::StszBox, *b"stsz"),
    (BoxType::StcoBox, *b"stco"),
    (BoxType::Co64Box, *b"co64"),
    (BoxType::Avc1Box, *b"avc1"),
    (BoxType::AvcCBox, *b"avcC"),
    (BoxType::Hev1Box, *b"hev1"),
    (BoxType::HvcCBox, *b"hvcC"),
    (BoxType::Vp09Box, *b"vp09"),
    (BoxType::VpccBox, *b"vpcC"),
    (BoxType::Mp4aBox, *b"mp4a"),
    (BoxType::EsdsBox, *b"esds"),
    (BoxType::Tx3gBox, *b"tx3g"),
    (BoxType::UdtaBox, *b"udta"),
    (BoxType::MetaBox, *b"meta"),
    (BoxType::IlstBox, *b"ilst"),
    (BoxType::DataBox, *b"data"),
    (BoxType::CovrBox, *b"covr"),
    (BoxType::DescBox, *b"desc"),
    (BoxType::NameBox, *b"\xa9nam"),
    (BoxType::DayBox, *b"\xa9day"),
];

/// Returns the rows of `CODES`. A constant is copied to each place that names it, so only this function names `CODES`.
fn codes() -> &'static [(BoxType, [u8; 4])] {
    &CODES
}

/// Returns whether `name` is converted to `bytes`, as a number and as a code, and back.
fn is_code_of(name: BoxType, bytes: [u8; 4]) -> bool {
    let number = u32::from_be_bytes(bytes);
    u32::from(name) == number
        && FourCC::from(name).value == bytes
        && BoxType::from(number) == name
        && BoxType::from(u32::from(&FourCC::from(bytes))) == name
}

/// Returns the first name in `CODES` that is not converted to its bytes and back, if there is one.
fn first_with_other_code() -> Option<BoxType> {
    for &(name, bytes) in codes() {
        if !is_code_of(name, bytes) {
            return Some(name);
        }
    }
    None
}

#[test]
fn names_have_their_codes_and_codes_their_names(rt: HostRuntime) {
    assert_eq!(rt; first_with_other_code(), None);
}

/// Returns whether `number` is the code of no named box, and is kept as it is.
fn is_unknown(number: u32) -> bool {
    let unknown = BoxType::UnknownBox(number);
    BoxType::from(number) == unknown && u32::from(unknown) == number
}

/// Returns the first name in `CODES` that keeps a name if the highest bit of its first or last byte is flipped, if
/// there is one.
fn first_with_two_codes() -> Option<BoxType> {
    for &(name, bytes) in codes() {
        let number = u32::from_be_bytes(bytes);
        if !is_unknown(number ^ 0x80) || !is_unknown(number ^ 0x8000_0000) {
            return Some(name);
        }
    }
    None
}

#[test]
fn codes_with_another_first_or_last_byte_have_no_name(rt: HostRuntime) {
    assert_eq!(rt; first_with_two_codes(), None);
}
