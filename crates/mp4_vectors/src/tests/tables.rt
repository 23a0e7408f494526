//! Tests of tables with a count or with flags: `ctts`, `stsz`, `elst`, `tfhd` and `trun`.

use mp4_stream::{ElstBox, Error, StszBox, TfhdBox, TrunBox};
use std::alloc::Global;
use std::test::Fail;
use test_shared::boxes::tables::{
    ctts, elst, elst_of, list, stsz_of_one_size, tfhd, trun, trun_of_durations,
};
use test_shared::helpers::{Kind, expect_kind, expect_round_trip, expect_unwritable};
use test_shared::made;

/// Returns an `stsz` that counts nine samples and has eight sizes.
fn stsz_of_eight(alloc: Global, sample_size: u32) -> Result<StszBox, Error> {
    let sizes = [1165, 11, 11, 8545, 10126, 10866, 9643, 9351];
    Ok(StszBox {
        version: 0,
        flags: 0,
        sample_size,
        sample_count: 9,
        sample_sizes: list(alloc, &sizes)?,
    })
}

#[test]
fn ctts_of_a_negative_offset_and_stsz_of_as_many_sizes_as_its_count(
    rt: HostRuntime,
) -> Result<(), Fail> {
    let alloc = rt.alloc();
    let ctts_bytes =
        b"\0\0\0\x20ctts\0\0\0\0\0\0\0\x02\0\0\0\x01\0\0\0\xc8\0\0\0\x02\xff\xff\xff\x9c";
    let stsz_bytes = b"\0\0\0\x14stsz\0\0\0\0\0\0\x04\x8d\0\0\0\x0c";
    made::round_trip(alloc, ctts(alloc), ctts_bytes)
        .and(made::round_trip(alloc, Ok(stsz_of_one_size(alloc, 1165, 12)), stsz_bytes))
        .and(made::unwritable(alloc, stsz_of_eight(alloc, 0)))
        .and(made::unwritable(alloc, stsz_of_eight(alloc, 1165)))?;
    Ok(())
}

#[test]
fn elst_of_each_version(rt: HostRuntime) -> Result<(), Fail> {
    let alloc = rt.alloc();
    let (short, long) = (
        b"\0\0\0\x1celst\0\0\0\0\0\0\0\x01\0\x09\xaf\x0a\0\0\0\0\0\x01\0\0",
        b"\0\0\0\x1celst\x01\0\0\0\0\0\0\x01\0\x09\xaf\x0a\0\0\0\0\0\x01\0\0",
    );
    made::written(alloc, elst_of(alloc, 0, 0), 28)
        .and(made::written(alloc, elst_of(alloc, 2, 0), 28))
        .and(made::written(alloc, elst_of(alloc, 1, 0), 36))
        .and(made::unwritable(alloc, elst_of(alloc, 2, 1 << 32)))
        .and(made::value(alloc, elst(alloc), short, 28))
        .and(expect_kind::<ElstBox>(alloc, long, 28, Kind::Invalid))?;
    Ok(())
}

#[test]
fn tfhd_has_the_fields_of_its_flags(rt: HostRuntime) -> Result<(), Fail> {
    let bytes = b"\0\0\0\x1ctfhd\0\0\0\x2a\0\0\0\x01\0\0\0\x01\0\0\x02\0\x01\x01\0\0";
    let other = TfhdBox {
        flags: 0x0a,
        ..tfhd()
    };
    expect_round_trip(rt.alloc(), &tfhd(), bytes).and(expect_unwritable(rt.alloc(), &other))?;
    Ok(())
}

/// Returns a `trun` with a size that its flags do not announce.
fn trun_of_a_size_too(alloc: Global) -> Result<TrunBox, Error> {
    let mut trun = trun_of_durations(alloc)?;
    trun.sample_sizes = list(alloc, &[1])?;
    Ok(trun)
}

/// Returns a `trun` with the largest count and without lists.
fn trun_of_no_lists(alloc: Global) -> TrunBox {
    let mut trun = TrunBox::default_in(alloc);
    trun.sample_count = 4294967295;
    trun
}

#[test]
fn trun_has_the_lists_of_its_flags(rt: HostRuntime) -> Result<(), Fail> {
    let alloc = rt.alloc();
    let sizes = b"\0\0\0\x1ctrun\0\0\x02\x01\0\0\0\x02\0\0\0\x64\0\0\0\x0a\0\0\0\x14";
    let durations = b"\0\0\0\x14trun\0\0\x01\0\0\0\0\x01\0\0\x04\0";
    let none = b"\0\0\0\x10trun\0\0\0\0\xff\xff\xff\xff";
    let no_room = b"\0\0\0\x1ctrun\0\0\x03\x01\0\0\0\x02\0\0\0\x64\0\0\0\x0a\0\0\0\x14";
    made::round_trip(alloc, trun(alloc), sizes)
        .and(made::round_trip(alloc, trun_of_durations(alloc), durations))
        .and(made::unwritable(alloc, trun_of_a_size_too(alloc)))
        .and(made::round_trip(alloc, Ok(trun_of_no_lists(alloc)), none))
        .and(expect_kind::<TrunBox>(alloc, no_room, 28, Kind::Invalid))
        .and(expect_kind::<TrunBox>(alloc, &no_room[..16], 28, Kind::End))?;
    Ok(())
}
