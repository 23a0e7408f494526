//! Tests of the cursor: taking bytes and rows, and skipping.

use mp4_stream::{ByteCursor, box_start, skip_box, skip_bytes, skip_bytes_to};
use test_shared::helpers::{Kind, kind_of};

/// Returns whether the last two bytes are taken, and the cursor is at the end.
fn takes_the_last_bytes() -> bool {
    let mut reader = ByteCursor::new(b"\0\0\0\x01");
    reader.set_position(2);
    let is_taken = matches!(reader.take(2), Ok(bytes) if bytes == [0, 1].as_slice());
    is_taken && reader.position() == 4
}

/// Returns whether taking a byte past the end is end of input, and taking no bytes succeeds.
fn takes_nothing_behind_the_end() -> bool {
    let mut reader = ByteCursor::new(b"\0\0\0\x01");
    reader.set_position(9);
    let is_empty = matches!(reader.take(0), Ok(bytes) if bytes.is_empty());
    is_empty && kind_of(&reader.take(1)) == Kind::End && reader.position() == 9
}

#[test]
fn bytes_are_taken(rt: HostRuntime) {
    assert!(rt; takes_the_last_bytes());
    assert!(rt; takes_nothing_behind_the_end());
}

/// Skips `count` bytes at `position`. Returns the kind of the outcome and the position after the call.
fn after_bytes(position: u64, count: u64) -> (Kind, u64) {
    let mut reader = ByteCursor::new(b"");
    reader.set_position(position);
    let outcome = skip_bytes(&mut reader, count);
    (kind_of(&outcome), reader.position())
}

/// Returns whether skipping a box moves the cursor to its end.
fn box_is_skipped() -> bool {
    let mut reader = ByteCursor::new(b"");
    reader.set_position(8);
    let outcome = skip_box(&mut reader, 24);
    kind_of(&outcome) == Kind::Ok && reader.position() == 24
}

/// Returns whether skipping a box that ends past 64 bits is invalid data, and the cursor stays.
fn large_box_is_not_skipped() -> bool {
    let mut reader = ByteCursor::new(b"");
    reader.set_position(24);
    let outcome = skip_box(&mut reader, u64::MAX - 15);
    kind_of(&outcome) == Kind::Invalid && reader.position() == 24
}

/// Returns whether the cursor moves to position 8, from which a box with a header of 8 bytes begins at 0.
fn position_is_after_the_header() -> bool {
    let mut reader = ByteCursor::new(b"");
    let is_there = skip_bytes_to(&mut reader, 8).is_ok();
    is_there && matches!(box_start(&reader), Ok(0))
}

#[test]
fn bytes_and_boxes_are_skipped(rt: HostRuntime) {
    assert!(rt; position_is_after_the_header());
    assert!(rt; box_is_skipped() && large_box_is_not_skipped());
    assert!(rt; after_bytes(24, u64::MAX - 23) == (Kind::Invalid, 24));
    assert!(rt; after_bytes(9, 0xffff_ffff_ffff_fff7) == (Kind::Invalid, 9));
    assert!(rt; after_bytes(9, 0xffff_ffff_ffff_fff6) == (Kind::Ok, 0xffff_ffff_ffff_ffff));
}

/// Returns whether all rows are taken, and the cursor is at the end.
fn takes_two_rows() -> bool {
    let mut reader = ByteCursor::new(b"0123456789abcdef");
    let rows = [*b"01234567", *b"89abcdef"];
    let is_taken = matches!(reader.take_rows::<8>(2), Ok(found) if found == rows.as_slice());
    is_taken && reader.position() == 16
}

/// Returns whether taking more rows than the buffer has is end of input, and the cursor stays.
fn takes_no_missing_rows() -> bool {
    let mut reader = ByteCursor::new(b"0123456789abcdef");
    let is_end = kind_of(&reader.take_rows::<12>(2)) == Kind::End;
    is_end && kind_of(&reader.take_rows::<16>(1 << 63)) == Kind::End && reader.position() == 0
}

/// Returns whether taking no rows past the end succeeds, and the cursor stays.
fn takes_no_row_behind_the_end() -> bool {
    let mut reader = ByteCursor::new(b"0123456789abcdef");
    reader.set_position(20);
    let is_empty = matches!(reader.take_rows::<4>(0), Ok(rows) if rows.is_empty());
    is_empty && reader.position() == 20
}

#[test]
fn rows_are_taken(rt: HostRuntime) {
    assert!(rt; takes_two_rows());
    assert!(rt; takes_no_missing_rows());
    assert!(rt; takes_no_row_behind_the_end());
}
