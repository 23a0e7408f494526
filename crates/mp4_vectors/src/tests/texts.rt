//! Tests of strings and data: `hdlr`, `data` and `emsg`.

use mp4_stream::{DataBox, EmsgBox, Error, FourCC, HdlrBox, Text};
use std::alloc::Global;
use std::test::Fail;
use test_shared::boxes::text::emsg;
use test_shared::helpers::{Kind, expect_kind, expect_list_kind};
use test_shared::made;

/// Returns the handler of a video track with this name.
fn hdlr_of(alloc: Global, name: &str) -> Result<HdlrBox, Error> {
    Ok(HdlrBox {
        version: 0,
        flags: 0,
        handler_type: FourCC::from(*b"vide"),
        name: Text::from_str(alloc, name)?,
    })
}

/// An `hdlr` without a name has a size of 33. As one box it is read from its first 20 bytes, and in a list it needs all
/// of them. A name that is not UTF-8 is read as `null`.
#[test]
fn hdlr_of_no_name_and_of_one_that_is_not_utf8(rt: HostRuntime) -> Result<(), Fail> {
    let alloc = rt.alloc();
    let bytes = b"\0\0\0\x21hdlr\0\0\0\0\0\0\0\0vide";
    let small = b"\0\0\0\x20hdlr\0\0\0\0\0\0\0\0vide";
    let read = b"\0\0\0\x22hdlr\0\0\0\0\0\0\0\0vide\0\0\0\0\0\0\0\0\0\0\0\0\xff\0";
    let written = b"\0\0\0\x25hdlr\0\0\0\0\0\0\0\0vide\0\0\0\0\0\0\0\0\0\0\0\0null\0";
    made::value(alloc, hdlr_of(alloc, ""), bytes, 33)
        .and(expect_list_kind(alloc, bytes, Kind::End))
        .and(expect_kind::<HdlrBox>(alloc, small, 32, Kind::Invalid))
        .and(expect_kind::<HdlrBox>(alloc, &small[..18], 32, Kind::End))
        .and(made::value(alloc, hdlr_of(alloc, "null"), read, 34))
        .and(made::round_trip(alloc, hdlr_of(alloc, "null"), written))?;
    Ok(())
}

#[test]
fn first_faults_of_data_and_emsg(rt: HostRuntime) -> Result<(), Fail> {
    let alloc = rt.alloc();
    let (unknown, known, short) = (
        b"\0\0\0\x10data\0\0\0\x02",
        b"\0\0\0\x10data\0\0\0\x01",
        b"\0\0\0\x0cdata\0\0\0\x01\0\0\0\0",
    );
    let zeros = b"\0\0\0\x0cemsg\0\0\0\0\0\0\0\0\0\0\0\0\0\0\0\0\0\0\0\0\0\0";
    let text = b"\0\0\0\x20emsg\0\0\0\0\xff\0";
    expect_kind::<DataBox>(alloc, unknown, 16, Kind::Invalid)
        .and(expect_kind::<DataBox>(alloc, known, 16, Kind::End))
        .and(expect_kind::<DataBox>(alloc, short, 12, Kind::Invalid))
        .and(expect_kind::<EmsgBox>(alloc, zeros, 12, Kind::Invalid))
        .and(expect_kind::<EmsgBox>(alloc, &text[..13], 32, Kind::End))
        .and(expect_kind::<EmsgBox>(alloc, text, 32, Kind::Invalid))?;
    Ok(())
}

/// The bytes of the event whose scheme and value are `foo`.
const FOO: [u8; 39] =
    *b"\0\0\0\x27emsg\0\0\0\0foo\0foo\0\0\0\xbb\x80\0\0\0\x64\0\0\0\xc8\0\0\0\x08\x01\x02\x03";

/// Returns the event of `FOO` with a zero byte in its value.
fn emsg_of_inner_zero(alloc: Global) -> Result<EmsgBox, Error> {
    let mut made = emsg(alloc)?;
    made.value = Text::from_str(alloc, "a\0b")?;
    Ok(made)
}

/// Returns the event of `FOO` without a time.
fn emsg_without_time(alloc: Global) -> Result<EmsgBox, Error> {
    let mut made = emsg(alloc)?;
    made.presentation_time_delta = None;
    Ok(made)
}

/// Returns an event of an unknown version, with empty texts and without a message.
fn emsg_of_version_2(alloc: Global) -> EmsgBox {
    let mut made = EmsgBox::default_in(alloc);
    made.version = 2;
    made
}

/// Returns the event of `FOO` with a second time, which version 1 uses.
fn emsg_of_two_times(alloc: Global) -> Result<EmsgBox, Error> {
    let mut made = emsg(alloc)?;
    made.presentation_time = Some(5);
    Ok(made)
}

/// If an event has two times, the one of its version is written.
#[test]
fn emsg_of_a_time_in_its_segment(rt: HostRuntime) -> Result<(), Fail> {
    let alloc = rt.alloc();
    made::round_trip(alloc, emsg(alloc), &FOO)
        .and(made::normal_form(alloc, emsg_of_two_times(alloc), emsg(alloc), &FOO))
        .and(made::unwritable(alloc, emsg_of_inner_zero(alloc)))
        .and(made::unwritable(alloc, emsg_without_time(alloc)))
        .and(made::unwritable_of_size(alloc, Ok(emsg_of_version_2(alloc)), 34))?;
    Ok(())
}
