//! A test of `ftyp`: two brands, and sizes that do not hold whole brands.

use mp4_stream::{Error, FourCC, FtypBox};
use std::alloc::Global;
use std::test::Fail;
use test_shared::helpers::{Kind, expect_kind};
use test_shared::made;

/// Returns the file type `isom`, of minor version 512, with two brands.
fn isom(alloc: Global) -> Result<FtypBox, Error> {
    let brands = [FourCC::from(*b"isom"), FourCC::from(*b"mp41")];
    Ok(FtypBox {
        major_brand: FourCC::from(*b"isom"),
        minor_version: 512,
        compatible_brands: Vec::from_slice(alloc, &brands)?.into(),
    })
}

#[test]
fn ftyp_of_two_brands_and_of_sizes_without_its_fields(rt: HostRuntime) -> Result<(), Fail> {
    let alloc = rt.alloc();
    let bytes = b"\0\0\0\x18ftypisom\0\0\x02\0isommp41";
    let (short, long) = (b"\0\0\0\x10ftyp", b"\0\0\0\x12ftyp");
    made::round_trip(alloc, isom(alloc), bytes)
        .and(expect_kind::<FtypBox>(alloc, bytes, 18, Kind::Invalid))
        .and(expect_kind::<FtypBox>(alloc, long, 18, Kind::Invalid))
        .and(expect_kind::<FtypBox>(alloc, short, 16, Kind::End))?;
    Ok(())
}
