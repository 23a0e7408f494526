//! Tests of the headers of boxes, and of version and flags.

use mp4_stream::{
    BoxHeader, BoxType, ByteCursor, HEADER_EXT_SIZE, HEADER_SIZE, read_box_header_ext,
    write_box_header_ext, write_zeros,
};
use std::alloc::{AllocError, Global};
use std::test::Fail;
use test_shared::helpers::{Kind, kind_of};

/// Reads the header in `bytes`. Returns the kind of the outcome, the name and size if there is a header, and the
/// position of the cursor after the call.
fn read_header(bytes: &[u8]) -> (Kind, Option<(BoxType, u64)>, u64) {
    let mut reader = ByteCursor::new(bytes);
    let outcome = BoxHeader::read(&mut reader);
    let found = match &outcome {
        Ok(header) => Some((header.name, header.size)),
        Err(_) => None,
    };
    (kind_of(&outcome), found, reader.position())
}

#[test]
fn headers_are_read(rt: HostRuntime) {
    let name = BoxType::UnknownBox(0x0102_0304);
    let headers: [(&[u8], u64, u64); 5] = [
        (b"\0\0\0\0\x01\x02\x03\x04", 0, 8),
        (b"\xff\xff\xff\xff\x01\x02\x03\x04", 0xffff_ffff, 8),
        (b"\0\0\0\x01\x01\x02\x03\x04\0\0\0\0\0\0\0\0", 0, 16),
        (b"\0\0\0\x01\x01\x02\x03\x04\0\0\0\0\0\0\0\x10", 8, 16),
        (
            b"\0\0\0\x01\x01\x02\x03\x04\xff\xff\xff\xff\xff\xff\xff\xff",
            u64::MAX - 8,
            16,
        ),
    ];
    for (bytes, size, position) in headers {
        let expected = (Kind::Ok, Some((name, size)), position);
        assert_eq!(rt; read_header(bytes), expected, "{bytes:?}");
    }
    for bytes in [
        b"\0\0\0\x01\x01\x02\x03\x04\0\0\0\0\0\0\0\x07",
        b"\0\0\0\x01\x01\x02\x03\x04\0\0\0\0\0\0\0\x08",
        b"\0\0\0\x01\x01\x02\x03\x04\0\0\0\0\0\0\0\x0f",
    ] {
        assert_eq!(rt; read_header(bytes), (Kind::Invalid, None, 0), "{bytes:?}");
    }
}

/// Returns whether the header of a `free` of this size is written as `bytes`, and writing returns their number.
fn is_written(alloc: Global, size: u64, bytes: &[u8]) -> bool {
    let mut out = Vec::new(alloc);
    let outcome = BoxHeader::new(BoxType::FreeBox, size).write(&mut out);
    matches!(outcome, Ok(count) if count == bytes.len() as u64) && out.as_slice() == bytes
}

/// Returns whether writing the header of a `free` of this size is invalid data and leaves the vector unchanged.
fn is_too_large(alloc: Global, size: u64) -> Result<bool, AllocError> {
    let mut out = [9].to_vec(alloc)?;
    let outcome = BoxHeader::new(BoxType::FreeBox, size).write(&mut out);
    Ok(kind_of(&outcome) == Kind::Invalid && out.as_slice() == [9].as_slice())
}

#[test]
fn headers_are_written(rt: HostRuntime) -> Result<(), Fail> {
    let alloc = rt.alloc();
    let largest = b"\0\0\0\x01free\xff\xff\xff\xff\xff\xff\xff\xff";
    assert!(rt;
        is_written(alloc, 8, b"\0\0\0\x08free")
            && is_written(alloc, 0xffff_ffff, b"\xff\xff\xff\xfffree")
            && is_written(alloc, 1 << 32, b"\0\0\0\x01free\0\0\0\x01\0\0\0\x08")
            && is_written(alloc, u64::MAX - 8, largest)
    );
    assert!(rt; is_too_large(alloc, u64::MAX - 7)?);
    Ok(())
}

/// Returns whether version and flags are read from `bytes` once, and a second reading is end of input.
fn reads_version_and_flags(bytes: &[u8]) -> bool {
    let mut reader = ByteCursor::new(bytes);
    let is_read = matches!(read_box_header_ext(&mut reader), Ok((1, 0x00ff_ffff)));
    is_read && kind_of(&read_box_header_ext(&mut reader)) == Kind::End && reader.position() == 4
}

/// Returns whether writing flags of more than 24 bits is invalid data and leaves the vector unchanged.
fn refuses_wide_flags(alloc: Global) -> bool {
    let mut out = Vec::new(alloc);
    kind_of(&write_box_header_ext(&mut out, 1, 1 << 24)) == Kind::Invalid && out.is_empty()
}

/// Returns whether a version, flags and three zeros are written as `bytes`.
fn writes_version_and_flags(alloc: Global, bytes: &[u8]) -> bool {
    let mut out = Vec::new(alloc);
    matches!(write_box_header_ext(&mut out, 1, (1 << 24) - 1), Ok(4))
        && write_zeros(&mut out, 3).is_ok()
        && out.as_slice() == bytes
}

#[test]
fn version_and_flags_are_read_and_written(rt: HostRuntime) {
    let bytes = b"\x01\xff\xff\xff\0\0\0";
    assert!(rt; (HEADER_SIZE, HEADER_EXT_SIZE) == (8, 4));
    assert!(rt; reads_version_and_flags(bytes));
    assert!(rt; refuses_wide_flags(rt.alloc()));
    assert!(rt; writes_version_and_flags(rt.alloc(), bytes));
}
