//! Tests of `stco`: a count of more entries than the box can hold, and offsets that are converted from 64 bits.

use mp4_stream::{Co64Box, Error, StcoBox};
use std::alloc::Global;
use std::test::Fail;
use test_shared::helpers::{Kind, expect_kind, kind_of};

#[test]
fn stco_of_more_entries_than_there_is_room_for(rt: HostRuntime) -> Result<(), Fail> {
    let (short, long) = (
        b"\0\0\0\x14stco\0\0\0\0\0\0\0\x02\0\0\x01\x0b",
        b"\0\0\0\x18stco\0\0\0\0\0\0\0\x02\0\0\x01\x0b",
    );
    expect_kind::<StcoBox>(rt.alloc(), short, 20, Kind::Invalid).and(expect_kind::<StcoBox>(
        rt.alloc(),
        long,
        24,
        Kind::End,
    ))?;
    Ok(())
}

/// Returns an `stco` with `offsets`, converted from a `co64`.
fn shortened(alloc: Global, offsets: &[u64]) -> Result<StcoBox, Error> {
    let long = Co64Box {
        version: 1,
        flags: 5,
        entries: Vec::from_slice(alloc, offsets)?.into(),
    };
    StcoBox::try_from_co64(alloc, &long)
}

/// Returns whether the `stco` in `made` has these offsets, version 0 and no flags.
fn are(made: Result<StcoBox, Error>, offsets: &[u32]) -> Result<bool, Error> {
    let short = made?;
    Ok((short.version, short.flags) == (0, 0) && short.entries.as_slice() == offsets)
}

#[test]
fn long_offsets_become_short_or_stay_long(rt: HostRuntime) -> Result<(), Fail> {
    let alloc = rt.alloc();
    assert!(rt; are(shortened(alloc, &[267, 4294967295]), &[267, 4294967295])?);
    let outcome = are(shortened(alloc, &[4294967296]), &[]);
    assert_eq!(rt; kind_of(&outcome), Kind::Invalid);
    Ok(())
}
