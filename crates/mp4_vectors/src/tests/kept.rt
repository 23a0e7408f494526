//! Tests of boxes of types that the codec does not read and keeps as bytes.

use mp4_stream::{
    BoxType, ByteCursor, Error, KeptBox, OtherBox, StreamBox, WriteBox, read_boxes_as, write_boxes,
};
use std::alloc::Global;
use std::test::Fail;
use test_shared::boxes::THREE;
use test_shared::helpers::{Kind, kind_of};
use test_shared::made;

/// Returns whether `boxes` are written as `written`.
fn are_written(alloc: Global, boxes: &[KeptBox], written: &[u8]) -> bool {
    let mut out = Vec::new(alloc);
    write_boxes(boxes, &mut out).is_ok() && out.as_slice() == written
}

/// Returns whether `bytes` have `count` boxes, also those of other types, which are written as `written`.
fn are_kept(alloc: Global, bytes: &[u8], count: usize, written: &[u8]) -> bool {
    match read_boxes_as::<KeptBox>(alloc, &mut ByteCursor::new(bytes)) {
        Ok(boxes) => boxes.len() == count && are_written(alloc, &boxes, written),
        Err(_) => false,
    }
}

const MOOV: [u8; 9] = *b"\0\0\0\x09moov\xaa";

/// Returns the other box whose bytes are `MOOV`.
fn moov(alloc: Global) -> Result<OtherBox, Error> {
    OtherBox::copy_of(alloc, 0x6d6f_6f76, &[0xaa])
}

#[test]
fn another_box_has_a_code_of_no_type_and_a_content(rt: HostRuntime) -> Result<(), Fail> {
    let other = moov(rt.alloc())?;
    assert!(rt; other.name() == BoxType::MoovBox && other.content() == [0xaa].as_slice());
    let ftyp = ended(OtherBox::copy_of(rt.alloc(), 0x6674_7970, &[]));
    assert!(rt; ftyp == Kind::Invalid);
    Ok(())
}

/// Returns whether `value` is written as `MOOV`.
fn is_written<B: WriteBox>(alloc: Global, value: &B) -> bool {
    let mut out = Vec::new(alloc);
    matches!(value.write_box(&mut out), Ok(9)) && out.as_slice() == MOOV.as_slice()
}

/// Returns whether the box in `made` is written as `MOOV`.
fn is_moov<B: WriteBox + Drop>(alloc: Global, made: Result<B, Error>) -> bool {
    match made {
        Ok(value) => is_written(alloc, &value),
        Err(_) => false,
    }
}

/// Returns the box of `MOOV` as a `KeptBox`.
fn kept_moov(alloc: Global) -> Result<KeptBox, Error> {
    Ok(KeptBox::Other(moov(alloc)?))
}

#[test]
fn another_box_and_a_kept_box_are_written_as_they_are(rt: HostRuntime) -> Result<(), Fail> {
    let alloc = rt.alloc();
    made::cloned(moov(alloc)).and(made::cloned(kept_moov(alloc)))?;
    assert!(rt; is_moov(alloc, moov(alloc)) && is_moov(alloc, kept_moov(alloc)));
    Ok(())
}

/// Drops `outcome` and returns its kind.
fn ended<B: Drop>(outcome: Result<B, Error>) -> Kind {
    kind_of(&outcome)
}

/// Reads the `free` box at the front of `bytes` with this size. Returns the kind of the outcome and the position of the
/// cursor after the call.
fn read_free(alloc: Global, bytes: &[u8], size: u64) -> (Kind, u64) {
    let mut reader = ByteCursor::new(bytes);
    reader.set_position(8);
    let kind = ended(KeptBox::read_named(alloc, BoxType::FreeBox, &mut reader, size));
    (kind, reader.position())
}

#[test]
fn the_size_of_a_kept_box_is_checked(rt: HostRuntime) {
    let bytes = b"\0\0\0\x08free";
    assert_eq!(rt; read_free(rt.alloc(), bytes, 7), (Kind::Invalid, 8));
    assert_eq!(rt; read_free(rt.alloc(), bytes, 8), (Kind::Ok, 8));
    assert_eq!(rt; read_free(rt.alloc(), bytes, 9), (Kind::End, 8));
    let followed = b"\0\0\0\x0bfree\x01\x02\x03\0\0\0\x08wide";
    assert_eq!(rt; read_free(rt.alloc(), followed, 11), (Kind::Ok, 11));
}

/// The headers of the written boxes have 8 bytes, whatever form was read.
#[test]
fn all_boxes_of_a_stream_are_kept(rt: HostRuntime) {
    let short = b"\0\0\0\x0bmdat\x01\x02\x03";
    let forms: [(&[u8], usize, &[u8]); 3] = [
        (&THREE, 3, &THREE),
        (b"\0\0\0\x01mdat\0\0\0\0\0\0\0\x13\x01\x02\x03", 1, short),
        (b"\0\0\0\0mdat\x01\x02\x03", 1, short),
    ];
    for (bytes, count, written) in forms {
        assert!(rt; are_kept(rt.alloc(), bytes, count, written), "{bytes:?}");
    }
}
