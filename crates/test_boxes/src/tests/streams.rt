//! Helpers that read and write lists of boxes, and a test of a list of a type from outside the codec.

use example_boxes::append_normal;
use example_boxes::mark::MarkBox;
use mp4_stream::{AnyBox, ByteCursor, Error, StreamBox, read_boxes, read_boxes_as, write_boxes};
use std::alloc::{Allocator, Global};
use std::test::Fail;
use test_shared::boxes::{THREE, text};
use test_shared::helpers::{Kind, kind_of};

/// Returns the kind of `outcome` and the number of items in its list, or 0 if it has none.
pub(super) fn kind_and_count<T: Drop, A: Allocator>(
    outcome: Result<Vec<T, A>, Error>,
) -> (Kind, usize) {
    let kind = kind_of(&outcome);
    match outcome {
        Ok(found) => (kind, found.len()),
        Err(_) => (kind, 0),
    }
}

/// Reads the boxes in `bytes`. Returns the kind of the outcome, the number of boxes, and the position of the cursor
/// after the call.
pub(super) fn read_stream(alloc: Global, bytes: &[u8]) -> (Kind, usize, u64) {
    let mut reader = ByteCursor::new(bytes);
    let (kind, count) = kind_and_count(read_boxes(alloc, &mut reader));
    (kind, count, reader.position())
}

/// Returns whether the boxes in `bytes` are read, and written as the same bytes.
pub(super) fn is_rewritten(alloc: Global, bytes: &[u8]) -> bool {
    let mut out = Vec::new(alloc);
    append_normal(alloc, bytes, &mut out).is_ok() && out.as_slice() == bytes
}

/// Appends a list of `first` and `last` to `out`. Returns the kind of the outcome.
pub(super) fn append_two<B: StreamBox + Drop, A: Allocator>(
    alloc: Global,
    first: Result<B, Error>,
    last: B,
    out: &mut Vec<u8, A>,
) -> Result<Kind, Error> {
    let mut boxes = Vec::new(alloc);
    boxes.push(first?)?;
    boxes.push(last)?;
    Ok(kind_of(&write_boxes(&boxes, out)))
}

/// Returns an `ftyp` that can be written.
pub(super) fn any_ftyp(alloc: Global) -> Result<AnyBox, Error> {
    Ok(AnyBox::FtypBox(text::ftyp(alloc)?))
}

/// Returns whether `marks` are written as `bytes`.
fn are_written(alloc: Global, marks: &[MarkBox], bytes: &[u8]) -> bool {
    let mut out = Vec::new(alloc);
    matches!(write_boxes(marks, &mut out), Ok(size) if size == bytes.len() as u64)
        && out.as_slice() == bytes
}

/// Returns whether `marks` are read from `bytes`, and the cursor is then at their end.
fn are_read(alloc: Global, marks: &[MarkBox], bytes: &[u8]) -> bool {
    let mut reader = ByteCursor::new(bytes);
    match read_boxes_as::<MarkBox>(alloc, &mut reader) {
        Ok(found) => found.as_slice() == marks && reader.position() == bytes.len() as u64,
        Err(_) => false,
    }
}

#[test]
fn a_type_from_outside(rt: HostRuntime) -> Result<(), Fail> {
    let marks = [MarkBox { mark: 7 }, MarkBox { mark: 8 }];
    let bytes = b"\0\0\0\x0cmark\0\0\0\x07\0\0\0\x0cmark\0\0\0\x08";
    assert!(rt; are_written(rt.alloc(), &marks, bytes));
    let mut all = Vec::from_slice(rt.alloc(), bytes)?;
    all.extend_from_slice(&THREE)?;
    assert!(rt; are_read(rt.alloc(), &marks, &all));
    assert_eq!(rt; read_stream(rt.alloc(), &all), (Kind::Ok, 2, 76));
    Ok(())
}
