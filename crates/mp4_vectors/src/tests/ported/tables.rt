//! The tests of the Rust crate for tables.

use mp4_stream::TrunBox;
use std::test::Fail;
use test_shared::boxes::tables::{
    CO64_OF_SEVEN, CTTS, ELST, ELST_LONG, STCO, STSC, STSS_OF_NINE, STSZ_OF_NINE, STSZ_OF_ONE_SIZE,
    STTS, TFHD, TFHD_BARE, TRUN_NONE, TRUN_OF_FOUR_LISTS, co64_of_seven, ctts, elst, elst_long,
    stco, stsc, stss_of_nine, stsz_of_nine, stsz_of_one_size, stts, tfhd, tfhd_bare,
    trun_of_four_lists,
};
use test_shared::helpers::expect_round_trip;
use test_shared::made;

#[test]
fn stco_co64_and_stsc(rt: HostRuntime) -> Result<(), Fail> {
    let alloc = rt.alloc();
    made::round_trip(alloc, stco(alloc), &STCO)
        .and(made::round_trip(alloc, co64_of_seven(alloc), &CO64_OF_SEVEN))
        .and(made::round_trip(alloc, stsc(alloc), &STSC))?;
    Ok(())
}

#[test]
fn stts_ctts_and_stss(rt: HostRuntime) -> Result<(), Fail> {
    let alloc = rt.alloc();
    made::round_trip(alloc, stts(alloc), &STTS)
        .and(made::round_trip(alloc, ctts(alloc), &CTTS))
        .and(made::round_trip(alloc, stss_of_nine(alloc), &STSS_OF_NINE))?;
    Ok(())
}

#[test]
fn stsz_same_size_and_many_sizes(rt: HostRuntime) -> Result<(), Fail> {
    let alloc = rt.alloc();
    made::round_trip(
        alloc,
        Ok(stsz_of_one_size(alloc, 1165, 12)),
        &STSZ_OF_ONE_SIZE,
    )
    .and(made::round_trip(alloc, stsz_of_nine(alloc), &STSZ_OF_NINE))?;
    Ok(())
}

#[test]
fn elst32_and_elst64(rt: HostRuntime) -> Result<(), Fail> {
    let alloc = rt.alloc();
    made::round_trip(alloc, elst(alloc), &ELST).and(made::round_trip(
        alloc,
        elst_long(alloc),
        &ELST_LONG,
    ))?;
    Ok(())
}

#[test]
fn tfhd_with_and_without_flags(rt: HostRuntime) -> Result<(), Fail> {
    let alloc = rt.alloc();
    expect_round_trip(alloc, &tfhd_bare(), &TFHD_BARE).and(expect_round_trip(
        alloc,
        &tfhd(),
        &TFHD,
    ))?;
    Ok(())
}

#[test]
fn trun_same_size_and_many_sizes(rt: HostRuntime) -> Result<(), Fail> {
    let alloc = rt.alloc();
    made::round_trip(alloc, Ok(TrunBox::default_in(alloc)), &TRUN_NONE).and(made::round_trip(
        alloc,
        trun_of_four_lists(alloc),
        &TRUN_OF_FOUR_LISTS,
    ))?;
    Ok(())
}
