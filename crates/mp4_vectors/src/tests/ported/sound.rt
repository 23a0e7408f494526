//! The test of the Rust crate for the sample entry of audio.

use std::test::Fail;
use test_shared::boxes::sound::{MP4A_OF_TEST, MP4A_WITHOUT_ESDS, mp4a_of, mp4a_of_test};
use test_shared::helpers::expect_round_trip;

#[test]
fn mp4a_with_and_without_esds(rt: HostRuntime) -> Result<(), Fail> {
    let alloc = rt.alloc();
    expect_round_trip(alloc, &mp4a_of_test(), &MP4A_OF_TEST).and(expect_round_trip(
        alloc,
        &mp4a_of(None),
        &MP4A_WITHOUT_ESDS,
    ))?;
    Ok(())
}
