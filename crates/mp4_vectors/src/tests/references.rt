//! Tests of references: `url `, `dref` and `dinf`.

use mp4_stream::{BoxType, DinfBox, DrefBox, Error, Text, UrlBox};
use std::alloc::Global;
use std::test::Fail;
use test_shared::boxes::text::{dref_of, url};
use test_shared::helpers::{Kind, expect_kind, expect_list};
use test_shared::made;

/// Returns the reference to the same file: flags of 1 and no location.
fn same_file(alloc: Global) -> UrlBox {
    UrlBox {
        version: 0,
        flags: 1,
        location: Text::new(alloc),
    }
}

/// Returns a `dref` whose `url ` has the location `abc`.
fn dref_of_abc(alloc: Global) -> Result<DrefBox, Error> {
    let mut child = url(alloc)?;
    child.location = Text::from_str(alloc, "abc")?;
    Ok(dref_of(Some(child)))
}

/// An empty location is written without its zero byte. The last `url ` ends 8 bytes after its `dref`. In a list these 8
/// bytes are the header of a box of size 0, which extends to the end and is skipped.
#[test]
fn url_and_dref_of_each_location(rt: HostRuntime) -> Result<(), Fail> {
    let alloc = rt.alloc();
    let (read, written) = (b"\0\0\0\x0durl \0\0\0\x01\0", b"\0\0\0\x0curl \0\0\0\x01");
    let alone = b"\0\0\0\x10dref\0\0\0\0\0\0\0\0";
    let followed = b"\0\0\0\x10dref\0\0\0\0\0\0\0\0\0\0\0\x0curl \0\0\0\x01";
    let short = b"\0\0\0\x18dref\0\0\0\0\0\0\0\x01\0\0\0\x10url \0\0\0\0abc\0";
    let whole = b"\0\0\0\x20dref\0\0\0\0\0\0\0\x01\0\0\0\x10url \0\0\0\0abc\0";
    made::value(alloc, Ok(same_file(alloc)), read, 13)
        .and(made::round_trip(alloc, Ok(same_file(alloc)), written))
        .and(made::round_trip(alloc, url(alloc), b"\0\0\0\x0eurl \0\0\0\0a\0"))
        .and(made::round_trip(alloc, Ok(dref_of(None)), alone))
        .and(made::value(alloc, Ok(dref_of(None)), followed, 16))
        .and(made::value(alloc, dref_of_abc(alloc), short, 24))
        .and(made::round_trip(alloc, dref_of_abc(alloc), whole))
        .and(expect_list(alloc, short, whole))?;
    Ok(())
}

#[test]
fn dinf_of_the_same_file_and_without_dref(rt: HostRuntime) -> Result<(), Fail> {
    let alloc = rt.alloc();
    let bytes = b"\0\0\0\x24dinf\0\0\0\x1cdref\0\0\0\0\0\0\0\x01\0\0\0\x0curl \0\0\0\x01";
    let empty = b"\0\0\0\x08dinf";
    let small = b"\0\0\0\x10dinf\0\0\0\0free";
    let largest = b"\0\0\0\x08dinf\0\0\0\x01free\xff\xff\xff\xff\xff\xff\xff\xff";
    made::round_trip(alloc, Ok(DinfBox::new(DrefBox::default_in(alloc))), bytes)
        .and(expect_kind::<DinfBox>(alloc, empty, 8, Kind::NotFound(BoxType::DrefBox)))
        .and(expect_kind::<DinfBox>(alloc, small, 16, Kind::Invalid))
        .and(expect_kind::<DinfBox>(alloc, largest, 0xffff_ffff_ffff_ffff, Kind::Invalid))?;
    Ok(())
}
