//! Tests of the texts of invalid data, except those of reading boxes.

use mp4_stream::{
    AnyBox, BoxHeader, BoxType, ByteCursor, Co64Box, Error, FourCC, MfhdBox, StcoBox, WriteBox,
    skip_box, skip_bytes, write_box_header_ext, write_boxes,
};
use std::alloc::Global;
use std::str::FromStr;
use test_shared::helpers::invalid_text;

/// Returns whether `outcome` is invalid data with this text.
fn is_invalid<T: Drop>(outcome: Result<T, Error>, text: &str) -> bool {
    invalid_text(&outcome) == Some(text)
}

/// Returns whether skipping to a position past 64 bits is invalid data.
fn skips_are_refused() -> bool {
    let text = "box end past 64 bits";
    let mut reader = ByteCursor::new(b"\0\0\0\0\x10mfhd\0\0\0\0\0\0\0\x01");
    reader.set_position(9);
    is_invalid(skip_bytes(&mut reader, u64::MAX), text)
        && is_invalid(skip_box(&mut reader, u64::MAX), text)
}

/// Returns whether writing the header of a box of size 2^64 - 1 is invalid data.
fn largest_header_is_refused(alloc: Global) -> bool {
    let largest = BoxHeader::new(BoxType::FreeBox, u64::MAX);
    is_invalid(largest.write(&mut Vec::new(alloc)), "box too large")
}

/// Returns whether writing a version with flags of 25 bits is invalid data.
fn flags_are_refused(alloc: Global) -> bool {
    let written = write_box_header_ext(&mut Vec::new(alloc), 0, 1 << 24);
    is_invalid(written, "value does not fit its field")
}

#[test]
fn invalid_headers_and_skips(rt: HostRuntime) {
    let text = "expected exactly four bytes in string";
    assert!(rt;
        skips_are_refused()
            && largest_header_is_refused(rt.alloc())
            && flags_are_refused(rt.alloc())
            && is_invalid(FourCC::from_str("abc"), text)
    );
}

/// Returns a box whose flags have 25 bits.
fn flagged() -> MfhdBox {
    MfhdBox {
        version: 0,
        flags: 1 << 24,
        sequence_number: 1,
    }
}

/// Returns whether `outcome` is invalid data because a value does not fit its field.
fn does_not_fit<T: Drop>(outcome: Result<T, Error>) -> bool {
    is_invalid(outcome, "value does not fit its field")
}

/// Returns whether `member` can't be written because a value does not fit its field.
fn box_does_not_fit(alloc: Global, member: MfhdBox) -> bool {
    does_not_fit(member.write_box(&mut Vec::new(alloc)))
}

/// Returns whether a list of `member` can't be written because a value does not fit its field.
fn list_does_not_fit(alloc: Global, member: MfhdBox) -> bool {
    let boxes = [AnyBox::MfhdBox(member)];
    does_not_fit(write_boxes(&boxes, &mut Vec::new(alloc)))
}

/// Returns a `co64` with these offsets.
fn long_offsets(alloc: Global, offsets: &[u64]) -> Result<Co64Box, Error> {
    Ok(Co64Box {
        version: 0,
        flags: 0,
        entries: Vec::from_slice(alloc, offsets)?.into(),
    })
}

/// Returns whether the offsets in `made` can't be converted to 32 bits.
fn offsets_do_not_fit(alloc: Global, made: Result<Co64Box, Error>) -> bool {
    match made {
        Ok(long) => does_not_fit(StcoBox::try_from_co64(alloc, &long)),
        Err(_) => false,
    }
}

#[test]
fn values_that_do_not_fit(rt: HostRuntime) {
    let alloc = rt.alloc();
    assert!(rt;
        box_does_not_fit(alloc, flagged())
            && list_does_not_fit(alloc, flagged())
            && offsets_do_not_fit(alloc, long_offsets(alloc, &[1 << 32]))
    );
}
