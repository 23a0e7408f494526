//! Tests of boxes of fixed fields (`mfhd`, `smhd`, `mehd`, `mvhd` and `mdhd`) and of the codes of languages.

use mp4_stream::{
    ByteCursor, Error, MdhdBox, MehdBox, MfhdBox, MvhdBox, ReadBox, Text, language_code,
    language_string,
};
use std::alloc::Global;
use std::test::Fail;
use test_shared::boxes::flat::{mdhd, mehd, mfhd, smhd};
use test_shared::helpers::{
    Kind, expect_kind, expect_round_trip, expect_unwritable_of_size, expect_value, kind_of,
};
use test_shared::made;

/// Reads an `mfhd` at offset 1 of a buffer, with this size. Returns the kind of the outcome and the position of the
/// cursor after the call.
fn read_behind(alloc: Global, size: u64) -> (Kind, u64) {
    let mut reader = ByteCursor::new(b"\xff\0\0\0\x10mfhd\0\0\0\0\0\0\0\x01");
    reader.set_position(9);
    let kind = kind_of(&MfhdBox::read_box(alloc, &mut reader, size));
    (kind, reader.position())
}

/// A box of the largest size ends past 2^64 - 1 if it does not begin at offset 0.
#[test]
fn mfhd_of_its_own_size_and_of_the_largest(rt: HostRuntime) -> Result<(), Fail> {
    let alloc = rt.alloc();
    let bytes = b"\0\0\0\x10mfhd\0\0\0\0\0\0\0\x01";
    expect_round_trip(alloc, &mfhd(), bytes).and(expect_value(
        alloc,
        &mfhd(),
        bytes,
        0xffff_ffff_ffff_ffff,
    ))?;
    let found = read_behind(alloc, 0xffff_ffff_ffff_ffff);
    assert_eq!(rt; found, (Kind::Invalid, 9));
    Ok(())
}

#[test]
fn smhd_mehd_and_mvhd_of_each_version(rt: HostRuntime) -> Result<(), Fail> {
    let alloc = rt.alloc();
    let smhd_bytes = b"\0\0\0\x10smhd\0\0\0\0\xff\xff\0\0";
    let mehd_bytes = b"\0\0\0\x14mehd\x01\0\0\0\0\0\0\x01\0\0\0\0";
    let unknown_mehd = MehdBox {
        version: 2,
        ..mehd()
    };
    let (unknown, known) = (b"\0\0\0\x6cmvhd\x02\0\0\0", b"\0\0\0\x6cmvhd\0\0\0\0");
    expect_round_trip(alloc, &smhd(), smhd_bytes)
        .and(expect_round_trip(alloc, &mehd(), mehd_bytes))
        .and(expect_unwritable_of_size(alloc, &unknown_mehd, 12))
        .and(expect_kind::<MvhdBox>(alloc, unknown, 108, Kind::Invalid))
        .and(expect_kind::<MvhdBox>(alloc, known, 108, Kind::End))?;
    Ok(())
}

/// Returns a media header with this language.
fn mdhd_in(alloc: Global, language: &str) -> Result<MdhdBox, Error> {
    let mut made = mdhd(alloc)?;
    made.language = Text::from_str(alloc, language)?;
    Ok(made)
}

/// Letters after the third are not written, and missing letters are read as 0x60.
#[test]
fn mdhd_of_nine_letters_and_of_none(rt: HostRuntime) -> Result<(), Fail> {
    let alloc = rt.alloc();
    let bytes = b"\0\0\0\x20mdhd\0\0\0\0\0\0\0\x64\0\0\0\xc8\0\0\xbb\x80\x01\xd0\x7a\0\x55\xc4\0\0";
    let none = b"\0\0\0\x20mdhd\0\0\0\0\0\0\0\x64\0\0\0\xc8\0\0\xbb\x80\x01\xd0\x7a\0\0\0\0\0";
    made::round_trip(alloc, mdhd_in(alloc, "und"), bytes)
        .and(made::normal_form(
            alloc,
            mdhd_in(alloc, "undefined"),
            mdhd_in(alloc, "und"),
            bytes,
        ))
        .and(made::normal_form(
            alloc,
            mdhd_in(alloc, ""),
            mdhd_in(alloc, "\x60\x60\x60"),
            none,
        ))?;
    Ok(())
}

#[test]
fn languages_have_codes(rt: HostRuntime) -> Result<(), Fail> {
    assert_eq!(rt;
        (language_code("und"), language_code("eng")),
        (0x55c4, 0x15c7)
    );
    let empty = language_string(rt.alloc(), language_code(""))?;
    assert_eq!(rt; empty.as_str(), "\x60\x60\x60");
    Ok(())
}
