//! The tests of the Rust crate for sample entries of video and text.

use std::test::Fail;
use test_shared::boxes::entries::{
    AVC1_OF_TEST, HEV1_OF_TEST, TX3G_OF_TEST, VP09_OF_TEST, VPCC_OF_TEST, avc1_of_two,
    hev1_of_config, tx3g_of_test, vp09_of_config, vpcc_of_test,
};
use test_shared::helpers::expect_round_trip;
use test_shared::made;

#[test]
fn avc1_and_hev1(rt: HostRuntime) -> Result<(), Fail> {
    let alloc = rt.alloc();
    made::round_trip(alloc, avc1_of_two(alloc, 3), &AVC1_OF_TEST).and(expect_round_trip(
        alloc,
        &hev1_of_config(),
        &HEV1_OF_TEST,
    ))?;
    Ok(())
}

#[test]
fn vp09_vpcc_and_tx3g(rt: HostRuntime) -> Result<(), Fail> {
    let alloc = rt.alloc();
    expect_round_trip(alloc, &vp09_of_config(), &VP09_OF_TEST)
        .and(expect_round_trip(alloc, &vpcc_of_test(), &VPCC_OF_TEST))
        .and(expect_round_trip(alloc, &tx3g_of_test(), &TX3G_OF_TEST))?;
    Ok(())
}
