//! Tests of `stsc` and its first samples, which reading computes and writing ignores.

use mp4_stream::StscBox;
use std::test::Fail;
use test_shared::boxes::tables::{chunk_run, stsc_of};
use test_shared::helpers::{Kind, expect_kind};
use test_shared::made;

/// The bytes of two runs of chunks, which begin at the chunks 1 and 19026.
const TWO_RUNS: [u8; 40] = *b"\0\0\0\x28stsc\0\0\0\0\0\0\0\x02\0\0\0\x01\0\0\0\x01\0\0\0\x01\
\0\0\x4a\x52\0\0\0\x0e\0\0\0\x01";

/// A wrong first sample is not written.
#[test]
fn first_samples_are_computed(rt: HostRuntime) -> Result<(), Fail> {
    let alloc = rt.alloc();
    let two = [chunk_run(1, 1, 1), chunk_run(19026, 14, 19026)];
    let nine = [chunk_run(1, 1, 9), chunk_run(19026, 14, 9)];
    let last = [chunk_run(1, 4294967294, 1), chunk_run(2, 1, 4294967295)];
    let last_bytes =
        b"\0\0\0\x28stsc\0\0\0\0\0\0\0\x02\0\0\0\x01\xff\xff\xff\xfe\0\0\0\x01\0\0\0\x02\0\0\0\x01\0\0\0\x01";
    made::round_trip(alloc, stsc_of(alloc, &two), &TWO_RUNS)
        .and(made::round_trip(alloc, stsc_of(alloc, &last), last_bytes))
        .and(made::normal_form(
            alloc,
            stsc_of(alloc, &nine),
            stsc_of(alloc, &two),
            &TWO_RUNS,
        ))?;
    Ok(())
}

#[test]
fn first_samples_past_32_bits_and_chunks_out_of_order(rt: HostRuntime) -> Result<(), Fail> {
    let alloc = rt.alloc();
    let past =
        b"\0\0\0\x28stsc\0\0\0\0\0\0\0\x02\0\0\0\x01\xff\xff\xff\xff\0\0\0\x01\0\0\0\x02\0\0\0\x01\0\0\0\x01";
    let back =
        b"\0\0\0\x28stsc\0\0\0\0\0\0\0\x02\0\0\0\x02\0\0\0\x01\0\0\0\x01\0\0\0\x01\0\0\0\x01\0\0\0\x01";
    expect_kind::<StscBox>(alloc, past, 40, Kind::Invalid)
        .and(expect_kind::<StscBox>(alloc, back, 40, Kind::Invalid))
        .and(expect_kind::<StscBox>(alloc, &back[..39], 40, Kind::End))?;
    let past = [chunk_run(1, 4294967295, 1), chunk_run(2, 1, 1)];
    let back = [chunk_run(2, 1, 1), chunk_run(1, 1, 1)];
    made::unwritable(alloc, stsc_of(alloc, &past)).and(made::unwritable(
        alloc,
        stsc_of(alloc, &back),
    ))?;
    Ok(())
}
