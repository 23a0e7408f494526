//! The tests of the Rust crate for boxes of fixed fields.

use mp4_stream::{language_code, language_string};
use std::test::Fail;
use test_shared::boxes::flat::{
    MDHD, MDHD_ENGLISH, MEHD_SHORT, MFHD, MVHD, MVHD_LONG, SMHD, TFDT_LONG, TFDT_OF_ZERO,
    TKHD_LONG, TKHD_SHORT, TREX, VMHD_BLACK, mdhd, mdhd_english, mehd_short, mfhd, mvhd, mvhd_long,
    smhd, tfdt_of_zero, tkhd_long, tkhd_short, trex, vmhd_black,
};
use test_shared::helpers::expect_round_trip;
use test_shared::made;

#[test]
fn mvhd32_and_mvhd64(rt: HostRuntime) -> Result<(), Fail> {
    let alloc = rt.alloc();
    expect_round_trip(alloc, &mvhd(), &MVHD).and(expect_round_trip(
        alloc,
        &mvhd_long(),
        &MVHD_LONG,
    ))?;
    Ok(())
}

#[test]
fn tkhd32_and_tkhd64(rt: HostRuntime) -> Result<(), Fail> {
    let alloc = rt.alloc();
    expect_round_trip(alloc, &tkhd_short(), &TKHD_SHORT).and(expect_round_trip(
        alloc,
        &tkhd_long(),
        &TKHD_LONG,
    ))?;
    Ok(())
}

/// Both tests have times of 32 bits, as in the Rust crate.
#[test]
fn mdhd32_and_mdhd64(rt: HostRuntime) -> Result<(), Fail> {
    let alloc = rt.alloc();
    made::round_trip(alloc, mdhd(alloc), &MDHD).and(made::round_trip(
        alloc,
        mdhd_english(alloc),
        &MDHD_ENGLISH,
    ))?;
    Ok(())
}

#[test]
fn language_codes(rt: HostRuntime) -> Result<(), Fail> {
    for (language, code) in [("und", 0x55c4), ("eng", 0x15c7), ("kor", 0x2df2)] {
        assert_eq!(rt; language_code(language), code, "{language}");
        assert_eq!(rt; language_string(rt.alloc(), code)?.as_str(), language);
    }
    Ok(())
}

/// Both tests have a duration of 32 bits, as in the Rust crate.
#[test]
fn mehd32_and_mehd64(rt: HostRuntime) -> Result<(), Fail> {
    let alloc = rt.alloc();
    let bytes = b"\0\0\0\x10mehd\0\0\0\0\x01\xd0z\0";
    expect_round_trip(alloc, &mehd_short(32), &MEHD_SHORT).and(expect_round_trip(
        alloc,
        &mehd_short(30_439_936),
        bytes,
    ))?;
    Ok(())
}

#[test]
fn tfdt32_and_tfdt64(rt: HostRuntime) -> Result<(), Fail> {
    let alloc = rt.alloc();
    expect_round_trip(alloc, &tfdt_of_zero(0), &TFDT_OF_ZERO).and(expect_round_trip(
        alloc,
        &tfdt_of_zero(1),
        &TFDT_LONG,
    ))?;
    Ok(())
}

#[test]
fn mfhd_smhd_vmhd_and_trex(rt: HostRuntime) -> Result<(), Fail> {
    let alloc = rt.alloc();
    expect_round_trip(alloc, &mfhd(), &MFHD)
        .and(expect_round_trip(alloc, &smhd(), &SMHD))
        .and(expect_round_trip(alloc, &vmhd_black(), &VMHD_BLACK))
        .and(expect_round_trip(alloc, &trex(), &TREX))?;
    Ok(())
}
