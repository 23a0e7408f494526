//! Tests of `avc1` and its `avcC`, made from configurations.

use mp4_stream::{Avc1Box, AvcCBox, AvcConfig, Error, FixedPointU16};
use std::alloc::Global;
use std::test::Fail;
use test_shared::boxes::entries::{PICTURE, SEQUENCE, avc1_of, avcc_of_two, list_of_sets};
use test_shared::made;

const COUNTED_SEQUENCE: [u8; 5] = [0x67, 0x81, 0x82, 0x83, 0x84];

const COUNTED_PICTURE: [u8; 2] = [0x68, 0x85];

/// Returns the `avcC` with the parameter sets `COUNTED_SEQUENCE` and `COUNTED_PICTURE`.
fn counted_avcc(alloc: Global) -> Result<AvcCBox, Error> {
    Ok(AvcCBox {
        configuration_version: 1,
        avc_profile_indication: 0x81,
        profile_compatibility: 0x82,
        avc_level_indication: 0x83,
        length_size_minus_one: 0xff,
        sequence_parameter_sets: list_of_sets(alloc, &[COUNTED_SEQUENCE.as_slice()])?,
        picture_parameter_sets: list_of_sets(alloc, &[COUNTED_PICTURE.as_slice()])?,
    })
}

/// Returns the `avc1` with this `avcC`, 72 pixels per inch, one frame and 24 bits.
fn counted_avc1(alloc: Global) -> Result<Avc1Box, Error> {
    Ok(Avc1Box {
        data_reference_index: 1,
        width: 0x8182,
        height: 0x8384,
        horizresolution: FixedPointU16::new_raw(0x48_0000),
        vertresolution: FixedPointU16::new_raw(0x48_0000),
        frame_count: 1,
        depth: 24,
        avcc: counted_avcc(alloc)?,
    })
}

/// Returns the `avc1` that `new` makes from the parameter sets `COUNTED_SEQUENCE` and `COUNTED_PICTURE`.
fn new_counted(alloc: Global) -> Result<Avc1Box, Error> {
    let config = AvcConfig {
        width: 0x8182,
        height: 0x8384,
        seq_param_set: Vec::from_slice(alloc, &COUNTED_SEQUENCE)?.into(),
        pic_param_set: Vec::from_slice(alloc, &COUNTED_PICTURE)?.into(),
    };
    Avc1Box::new(alloc, &config)
}

/// Returns the `avc1` that `new` makes from the parameter sets of the Rust crate's test.
fn new_of_test(alloc: Global) -> Result<Avc1Box, Error> {
    let config = AvcConfig {
        width: 320,
        height: 240,
        seq_param_set: Vec::from_slice(alloc, &SEQUENCE)?.into(),
        pic_param_set: Vec::from_slice(alloc, &PICTURE)?.into(),
    };
    Avc1Box::new(alloc, &config)
}

/// Returns the `avc1` of the Rust crate's test, with lengths of four bytes before parameter sets.
fn of_test(alloc: Global) -> Result<Avc1Box, Error> {
    Ok(avc1_of(alloc, avcc_of_two(alloc, 0xff)?))
}

#[test]
fn new_avcc_and_avc1(rt: HostRuntime) -> Result<(), Fail> {
    let alloc = rt.alloc();
    let avcc = AvcCBox::new(alloc, &COUNTED_SEQUENCE, &COUNTED_PICTURE);
    made::equal(avcc, counted_avcc(alloc))
        .and(made::equal(new_counted(alloc), counted_avc1(alloc)))
        .and(made::equal(new_of_test(alloc), of_test(alloc)))?;
    Ok(())
}
