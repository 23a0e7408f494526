//! Lists with an `ssix` or a `fiel` among other boxes.

use crate::tests::own_boxes::ssix::{BYTES, TOO_MANY, changed, index};
use example_boxes::{FIEL, Fiel, FielBox, SSIX, SegmentBox};
use mp4_stream::{
    AnyBox, BoxType, ByteCursor, Either, Error, KeptBox, MfhdBox, Mp4Box, OtherBox, Result as Made,
    StreamBox, TfdtBox, TrunBox, read_boxes_as, write_boxes,
};
use std::alloc::{AllocError, Global};
use std::test::Fail;
use test_shared::made;

/// An `mfhd`, a `tfdt` of version 1, and a `trun` with the sizes of two samples.
const FRAGMENT: [u8; 60] = *b"\0\0\0\x10mfhd\0\0\0\0\xc1\xc2\xc3\xc4\
\0\0\0\x14tfdt\x01\0\0\0\xd1\xd2\xd3\xd4\xd5\xd6\xd7\xd8\
\0\0\0\x18trun\0\0\x02\0\0\0\0\x02\xe1\xe2\xe3\xe4\xe5\xe6\xe7\xe8";

/// Boxes that a list of `SegmentBox`es skips. The last code differs from that of an index in one bit.
const OTHERS: [u8; 29] = *b"\0\0\0\x0cstyp\xf1\xf2\xf3\xf4\0\0\0\x08free\0\0\0\x09ssiy\xf5";

/// The `mfhd` of `FRAGMENT` and `BESIDE`.
const OF_MFHD: MfhdBox = MfhdBox {
    version: 0,
    flags: 0,
    sequence_number: 0xc1c2_c3c4,
};

/// The `tfdt` of `FRAGMENT`.
const OF_TFDT: TfdtBox = TfdtBox {
    version: 1,
    flags: 0,
    base_media_decode_time: 0xd1d2_d3d4_d5d6_d7d8,
};

/// Returns the bytes of an index with the pieces of `after` appended.
fn joined(alloc: Global, after: &[&[u8]]) -> Result<Vec<u8>, AllocError> {
    let mut bytes = Vec::from_slice(alloc, &BYTES)?;
    for piece in after {
        bytes.extend_from_slice(piece)?;
    }
    Ok(bytes)
}

/// Makes the `trun` of `FRAGMENT`.
fn two_samples(alloc: Global) -> Result<TrunBox, AllocError> {
    let mut trun = TrunBox::default_in(alloc);
    trun.flags = TrunBox::FLAG_SAMPLE_SIZE;
    trun.sample_count = 2;
    trun.sample_sizes = Vec::from_slice(alloc, &[0xe1e2_e3e4, 0xe5e6_e7e8])?.into();
    Ok(trun)
}

/// Makes an index and the boxes of `FRAGMENT`.
fn segment(alloc: Global) -> Made<Vec<SegmentBox>> {
    let mut boxes = Vec::new(alloc);
    boxes.push(SegmentBox::SsixBox(index(alloc)?))?;
    boxes.push(SegmentBox::MfhdBox(OF_MFHD))?;
    boxes.push(SegmentBox::TfdtBox(OF_TFDT))?;
    boxes.push(SegmentBox::TrunBox(two_samples(alloc)?))?;
    Ok(boxes)
}

/// A `fiel`, an `mfhd` and a box of another type.
const BESIDE: [u8; 38] = *b"\0\0\0\x0afiel\x81\x82\
\0\0\0\x10mfhd\0\0\0\0\xc1\xc2\xc3\xc4\0\0\0\x0cstyp\xf1\xf2\xf3\xf4";

/// Makes the boxes of `BESIDE`. The last is kept as its bytes.
fn kept(alloc: Global) -> Made<Vec<Either<FielBox, KeptBox>>> {
    let mut boxes = Vec::new(alloc);
    let fiel = Fiel {
        count: 0x81,
        detail: 0x82,
    };
    boxes.push(Either::First(FielBox::new(fiel)))?;
    boxes.push(Either::Second(KeptBox::Any(AnyBox::MfhdBox(OF_MFHD))))?;
    let other = OtherBox::copy_of(alloc, 0x7374_7970, &[0xf1, 0xf2, 0xf3, 0xf4])?;
    boxes.push(Either::Second(KeptBox::Other(other)))?;
    Ok(boxes)
}

/// Returns whether `boxes` have the `expected` names and sizes, and the type knows the names.
fn are_named<B: StreamBox>(boxes: &[B], expected: &[(BoxType, u64)]) -> bool {
    for (member, (name, size)) in boxes.iter().zip(expected) {
        if member.box_type() != *name || member.box_size() != *size || !B::knows(*name) {
            return false;
        }
    }
    boxes.len() == expected.len()
}

/// Returns whether `boxes` are written as `written`.
fn are_written<B: StreamBox>(alloc: Global, boxes: &[B], written: &[u8]) -> bool {
    let mut out = Vec::new(alloc);
    write_boxes(boxes, &mut out).is_ok() && out.as_slice() == written
}

/// Returns whether `boxes` are read from `bytes` up to the end, and have these `names` with sizes.
fn are_read<B: StreamBox + PartialEq + Drop>(
    alloc: Global,
    boxes: &[B],
    names: &[(BoxType, u64)],
    bytes: &[u8],
) -> bool {
    let mut reader = ByteCursor::new(bytes);
    let found: Made<Vec<B>> = read_boxes_as(alloc, &mut reader);
    let is_all = reader.position() == bytes.len() as u64;
    match found {
        Ok(found) => is_all && found.as_slice() == boxes && are_named(&found, names),
        Err(_) => false,
    }
}

/// Returns whether the boxes have these `names` with sizes, are read from `bytes` up to the end, and are written as
/// `written`.
fn are_in<B: StreamBox + PartialEq + Drop>(
    alloc: Global,
    made: Made<Vec<B>>,
    names: &[(BoxType, u64)],
    bytes: &[u8],
    written: &[u8],
) -> bool {
    match made {
        Ok(boxes) => are_written(alloc, &boxes, written) && are_read(alloc, &boxes, names, bytes),
        Err(_) => false,
    }
}

/// The names and sizes of the boxes in a segment.
const OF_SEGMENT: [(BoxType, u64); 4] = [
    (BoxType::UnknownBox(SSIX), 56),
    (BoxType::MfhdBox, 16),
    (BoxType::TfdtBox, 20),
    (BoxType::TrunBox, 24),
];

/// Returns whether a segment is read with other boxes in it and written without them.
fn is_a_segment(alloc: Global) -> Result<bool, AllocError> {
    let bytes = joined(alloc, &[&OTHERS, &FRAGMENT])?;
    let written = joined(alloc, &[&FRAGMENT])?;
    Ok(are_in(alloc, segment(alloc), &OF_SEGMENT, &bytes, &written))
}

/// Returns whether the type of the list knows neither the code after that of an index nor `moof`.
fn knows_no_other() -> bool {
    !SegmentBox::knows(BoxType::UnknownBox(SSIX + 1)) && !SegmentBox::knows(BoxType::MoofBox)
}

/// Returns whether reading a list fails with the fault of its index, whose last count is too large, and leaves the
/// cursor at its position.
fn has_the_fault_of_its_box(alloc: Global) -> bool {
    let bytes = changed(39, 5);
    let mut reader = ByteCursor::new(&bytes);
    let found: Made<Vec<SegmentBox>> = read_boxes_as(alloc, &mut reader);
    let is_its_fault = matches!(found, Err(Error::InvalidData(text)) if text == TOO_MANY);
    is_its_fault && reader.position() == 0
}

#[test]
fn a_segment_is_written_and_read(rt: HostRuntime) -> Result<(), Fail> {
    assert!(rt; is_a_segment(rt.alloc())?);
    assert!(rt; has_the_fault_of_its_box(rt.alloc()) && knows_no_other());
    Ok(())
}

/// The names and sizes of the boxes of `BESIDE`.
const OF_BESIDE: [(BoxType, u64); 3] = [
    (BoxType::UnknownBox(FIEL), 10),
    (BoxType::MfhdBox, 16),
    (BoxType::UnknownBox(0x7374_7970), 12),
];

#[test]
fn a_fiel_is_among_boxes_of_the_codec_and_others(rt: HostRuntime) {
    let alloc = rt.alloc();
    assert!(rt; are_in(alloc, kept(alloc), &OF_BESIDE, &BESIDE, &BESIDE));
}

/// Makes a kept box with the code of a `fiel` and a longer content.
fn kept_with_the_declared_code(alloc: Global) -> Made<Either<FielBox, KeptBox>> {
    let kept = OtherBox::copy_of(alloc, FIEL, &[0x81, 0x82, 0x83])?;
    Ok(Either::Second(KeptBox::Other(kept)))
}

#[test]
fn a_kept_box_may_not_have_the_declared_code(rt: HostRuntime) -> Result<(), Fail> {
    let alloc = rt.alloc();
    made::unwritable(alloc, kept_with_the_declared_code(alloc))?;
    Ok(())
}
