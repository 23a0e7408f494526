//! Tests of lists of boxes.

use mp4_stream::{AnyBox, StreamBox, write_boxes};
use std::alloc::{AllocError, Global};
use std::test::Fail;
use test_shared::boxes::flat::{mehd_short, mfhd};
use test_shared::helpers::{Kind, expect_list, expect_list_kind, kind_of};

const MFHD: [u8; 16] = *b"\0\0\0\x10mfhd\0\0\0\0\0\0\0\x01";

/// An `mfhd`, a `free` and an `smhd`.
const THREE: [u8; 40] =
    *b"\0\0\0\x10mfhd\0\0\0\0\0\0\0\x01\0\0\0\x08free\0\0\0\x10smhd\0\0\0\0\xff\xff\0\0";

#[test]
fn a_list_skips_unread_types_and_is_cut(rt: HostRuntime) -> Result<(), Fail> {
    let alloc = rt.alloc();
    let two = b"\0\0\0\x10mfhd\0\0\0\0\0\0\0\x01\0\0\0\x10smhd\0\0\0\0\xff\xff\0\0";
    expect_list(alloc, &THREE, two)
        .and(expect_list(alloc, &THREE[..24], &MFHD))
        .and(expect_list(alloc, &THREE[..16], &MFHD))
        .and(expect_list_kind(alloc, &THREE[..17], Kind::End))
        .and(expect_list(alloc, &THREE[..0], b""))?;
    Ok(())
}

/// Appends a list of `first` and `last` to a vector that has a 9. Returns the kind of the outcome, and whether the
/// vector is unchanged.
fn append_two<B: StreamBox>(alloc: Global, first: B, last: B) -> Result<(Kind, bool), AllocError> {
    let mut boxes = Vec::new(alloc);
    boxes.push(first)?;
    boxes.push(last)?;
    let mut out = [9].to_vec(alloc)?;
    let outcome = write_boxes(&boxes, &mut out);
    Ok((kind_of(&outcome), out.as_slice() == [9].as_slice()))
}

/// Returns whether an empty list of boxes is written as no bytes.
fn no_box_is_no_bytes(alloc: Global) -> Result<bool, AllocError> {
    let none: [AnyBox; 0] = [];
    let mut out = [9].to_vec(alloc)?;
    Ok(matches!(write_boxes(&none, &mut out), Ok(0)) && out.as_slice() == [9].as_slice())
}

#[test]
fn a_list_of_an_unwritable_box_is_not_written(rt: HostRuntime) -> Result<(), Fail> {
    let (first, last) = (
        AnyBox::MfhdBox(mfhd()),
        AnyBox::MehdBox(mehd_short(1 << 32)),
    );
    assert!(rt; append_two(rt.alloc(), first, last)? == (Kind::Invalid, true));
    assert!(rt; no_box_is_no_bytes(rt.alloc())?);
    Ok(())
}

#[test]
fn a_size_of_zero_goes_to_the_end(rt: HostRuntime) -> Result<(), Fail> {
    let alloc = rt.alloc();
    let compact = b"\0\0\0\0mfhd\0\0\0\0\0\0\0\x01";
    let large = b"\0\0\0\x01mfhd\0\0\0\0\0\0\0\0\0\0\0\0\0\0\0\x01";
    let ftyp = b"\0\0\0\x18ftypisom\0\0\x02\0isommp41";
    let two = b"\0\0\0\x18ftypisom\0\0\x02\0isommp41\0\0\0\0mdat\x01\x02\x03";
    let no_room = b"\0\0\0\0stco\0\0\0\0\0\0\0\x02\0\0\x01\x0b";
    expect_list(alloc, compact, &MFHD)
        .and(expect_list(alloc, large, &MFHD))
        .and(expect_list(alloc, two, ftyp))
        .and(expect_list_kind(alloc, no_room, Kind::Invalid))
        .and(expect_list_kind(alloc, b"\0\0\0\x02free", Kind::Invalid))?;
    Ok(())
}
