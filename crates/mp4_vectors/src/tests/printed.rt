//! Tests of how errors, names, codes and matrices print.

use mp4_stream::{BoxType, Error, FourCC, Matrix};
use std::alloc::Global;
use std::fmt::{Debug, Display};
use test_shared::helpers::debug_text;

/// Returns whether `value` prints as `text`.
fn is_printed(alloc: Global, value: impl Display + Drop, text: &str) -> bool {
    match format!(in alloc; "{value}") {
        Ok(printed) => printed.as_str() == text,
        Err(_) => false,
    }
}

/// Returns whether `value` prints as `text` by `Debug`.
fn is_shown(alloc: Global, value: &impl Debug, text: &str) -> bool {
    match debug_text(alloc, value) {
        Ok(printed) => printed.as_str() == text,
        Err(_) => false,
    }
}

/// Returns whether errors of reading print as their texts.
fn faults_are_printed(alloc: Global) -> bool {
    let small = "box size too small";
    is_printed(alloc, Error::IoError, "unexpected end of input")
        && is_printed(alloc, Error::InvalidData(small), small)
        && is_printed(
            alloc,
            Error::BoxNotFound(BoxType::DrefBox),
            "dref not found",
        )
        && is_printed(alloc, Error::OutOfMemory, "out of memory")
}

/// Returns whether errors that name boxes of a file print as their texts.
fn missing_boxes_are_printed(alloc: Global) -> bool {
    let (stsd, moov, trun) = (BoxType::StsdBox, BoxType::MoovBox, BoxType::TrunBox);
    is_printed(
        alloc,
        Error::Box2NotFound(moov, stsd),
        "moov and stsd not found",
    ) && is_printed(alloc, Error::TrakNotFound(3), "trak[3] not found")
        && is_printed(
            alloc,
            Error::BoxInTrakNotFound(3, stsd),
            "trak[3].stsd not found",
        )
        && is_printed(
            alloc,
            Error::BoxInTrafNotFound(3, trun),
            "traf[3].trun not found",
        )
}

/// Returns whether errors that name boxes and entries of tables print as their texts.
fn missing_entries_are_printed(alloc: Global) -> bool {
    let (stsd, trun) = (BoxType::StsdBox, BoxType::TrunBox);
    let entry_of_stbl = Error::EntryInStblNotFound(3, stsd, 4);
    let entry_of_trun = Error::EntryInTrunNotFound(3, trun, 4);
    let version = Error::UnsupportedBoxVersion(stsd, 9);
    is_printed(
        alloc,
        Error::BoxInStblNotFound(3, stsd),
        "trak[3].stbl.stsd not found",
    ) && is_printed(alloc, entry_of_stbl, "trak[3].stbl.stsd.entry[4] not found")
        && is_printed(alloc, entry_of_trun, "traf[3].trun.trun.entry[4] not found")
        && is_printed(alloc, version, "stsd version 9 is not supported")
}

#[test]
fn errors_print_their_texts(rt: HostRuntime) {
    assert!(rt; faults_are_printed(rt.alloc()));
    assert!(rt; missing_boxes_are_printed(rt.alloc()));
    assert!(rt; missing_entries_are_printed(rt.alloc()));
}

/// Returns whether names of boxes print as their codes.
fn types_are_printed(alloc: Global) -> bool {
    is_printed(alloc, BoxType::FtypBox, "ftyp")
        && is_printed(alloc, BoxType::UrlBox, "url ")
        && is_printed(alloc, BoxType::NameBox, "\u{fffd}nam")
        && is_shown(alloc, &BoxType::DayBox, "\u{fffd}day")
}

/// Returns whether names of unknown boxes print as their codes, whatever bytes the codes have.
fn unknown_types_are_printed(alloc: Global) -> bool {
    is_printed(alloc, BoxType::UnknownBox(0x6d61_726b), "mark")
        && is_printed(alloc, BoxType::UnknownBox(0xf09f_a680), "\u{1f980}")
        && is_printed(
            alloc,
            BoxType::UnknownBox(0xe282_00ff),
            "\u{fffd}\0\u{fffd}",
        )
}

/// Returns whether codes print as their letters by `Display`, and as their letters and number by `Debug`.
fn codes_are_printed(alloc: Global) -> bool {
    let isom = FourCC::from(*b"isom");
    is_printed(alloc, FourCC::from(0xa96e_616d), "\u{fffd}nam")
        && is_printed(alloc, isom, "isom")
        && is_shown(alloc, &isom, "isom / 0x69736F6D")
}

#[test]
fn names_print_their_codes(rt: HostRuntime) {
    assert!(rt; types_are_printed(rt.alloc()));
    assert!(rt; unknown_types_are_printed(rt.alloc()));
    assert!(rt; codes_are_printed(rt.alloc()));
}

/// A matrix prints as nine hexadecimal numbers.
#[test]
fn printed_matrices(rt: HostRuntime) {
    let unity = "0x10000 0x0 0x0 0x0 0x10000 0x0 0x0 0x0 0x40000000";
    assert!(rt; is_printed(rt.alloc(), Matrix::default(), unity));
    let mut matrix = Matrix::default();
    matrix.b = -1;
    let sheared = "0x10000 0xffffffff 0x0 0x0 0x10000 0x0 0x0 0x0 0x40000000";
    assert!(rt; is_printed(rt.alloc(), matrix, sheared));
}
