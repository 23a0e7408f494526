//! Tests of boxes that are written into a slice of their size, whatever bytes it had.

use mp4_stream::{Tx3gBox, WriteBox};
use std::test::Fail;
use test_shared::boxes::flat::mfhd;

/// Writes `value` into `place` if it can be written and has the size of `place`. Returns whether it was written.
fn put<B: WriteBox>(value: &B, place: &mut [u8]) -> bool {
    match value.writable_size() {
        Some(size) if size == place.len() as u64 => {
            value.put_box(place);
            true
        }
        _ => false,
    }
}

#[test]
fn boxes_are_put_in_place_as_they_are_appended(rt: HostRuntime) -> Result<(), Fail> {
    let mut place = [0xff; 16];
    assert!(rt; put(&mfhd(), &mut place));
    assert_eq!(rt; place, *b"\0\0\0\x10mfhd\0\0\0\0\0\0\0\x01");
    let mut place = [0xff; 46];
    assert!(rt; put(&Tx3gBox::default(), &mut place));
    let mut out = Vec::new(rt.alloc());
    assert_eq!(rt; Tx3gBox::default().write_box(&mut out)?, 46);
    assert_eq!(rt; out.as_slice(), place.as_slice());
    Ok(())
}
