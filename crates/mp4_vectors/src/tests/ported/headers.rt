//! The tests of the Rust crate for codes and headers.

use mp4_stream::{BoxHeader, BoxType, ByteCursor, FourCC};
use std::test::Fail;
use test_shared::helpers::{Kind, kind_of};

#[test]
fn four_cc(rt: HostRuntime) {
    let ftyp = FourCC::from(0x6674_7970);
    assert_eq!(rt; ftyp.value, *b"ftyp");
    assert_eq!(rt; u32::from(ftyp), 0x6674_7970);
}

/// The test of the Rust crate has only the sizes 7, 8 and 15.
#[test]
fn large_sizes_that_are_too_small(rt: HostRuntime) {
    for size in 1..16 {
        let mut bytes = *b"\0\0\0\x01\x01\x02\x03\x04\0\0\0\0\0\0\0\0";
        bytes[15] = size;
        let mut reader = ByteCursor::new(&bytes);
        let kind = kind_of(&BoxHeader::read(&mut reader));
        assert_eq!(rt; (kind, reader.position()), (Kind::Invalid, 0), "{size}");
    }
}

#[test]
fn valid_large_size(rt: HostRuntime) -> Result<(), Fail> {
    let bytes = *b"\0\0\0\x01\x01\x02\x03\x04\0\0\0\0\0\0\0\x10";
    let mut reader = ByteCursor::new(&bytes);
    let header = BoxHeader::read(&mut reader)?;
    assert_eq!(rt; header.name, BoxType::UnknownBox(0x0102_0304));
    assert_eq!(rt; (header.size, reader.position()), (8, 16));
    Ok(())
}
