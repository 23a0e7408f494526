//! Tests of sample entries of video: `vpcC`, `vp09`, `avcC` and `avc1`.

use mp4_stream::{Avc1Box, AvcCBox, AvcConfig, Entries, Error, NalUnit, VpccBox, WriteBox};
use std::alloc::Global;
use std::test::Fail;
use test_shared::boxes::entries::{
    AVC1_OF_TEST, avc1_of_two, empty_sets, list_of_sets, vp09_of_config,
};
use test_shared::helpers::{expect_round_trip, expect_value};
use test_shared::made;

/// The child of a `vp09` is read whatever its name is.
#[test]
fn vpcc_of_wide_colors_and_vp09_of_a_child_of_another_name(rt: HostRuntime) -> Result<(), Fail> {
    let alloc = rt.alloc();
    let vpcc = VpccBox {
        version: 1,
        flags: 0,
        profile: 0,
        level: 31,
        bit_depth: 8,
        chroma_subsampling: 0,
        video_full_range_flag: false,
        color_primaries: 9,
        transfer_characteristics: 16,
        matrix_coefficients: 9,
        codec_initialization_data_size: 0,
    };
    let vpcc_bytes = b"\0\0\0\x14vpcC\x01\0\0\0\0\x1f\x80\x09\x10\x09\0\0";
    let vp09_bytes = b"\0\0\0\x6avp09\0\0\0\0\0\0\0\x01\0\0\0\0\0\0\0\0\0\0\0\0\0\0\0\0\
\x07\x80\x04\x38\0\x48\0\0\0\x48\0\0\0\0\0\0\0\x01\0\0\0\0\0\0\0\0\0\0\0\0\0\0\0\0\
\0\0\0\0\0\0\0\0\0\0\0\0\0\0\0\0\0\x18\xff\xff\0\0\0\x14free\x01\0\0\0\0\x1f\x80\0\0\0\0\0";
    expect_round_trip(alloc, &vpcc, vpcc_bytes)
        .and(made::written(alloc, Ok(vp09_of_config()), 106))
        .and(expect_value(alloc, &vp09_of_config(), vp09_bytes, 106))?;
    Ok(())
}

#[test]
fn avc1_of_two_sets(rt: HostRuntime) -> Result<(), Fail> {
    let alloc = rt.alloc();
    made::round_trip(alloc, avc1_of_two(alloc, 3), &AVC1_OF_TEST).and(made::normal_form(
        alloc,
        avc1_of_two(alloc, 0xff),
        avc1_of_two(alloc, 3),
        &AVC1_OF_TEST,
    ))?;
    assert_eq!(rt; AVC1_OF_TEST.len(), 135);
    let child = b"\0\0\0\x31avcC\x01\x64\0\x0d\xff\xe1\0\x18";
    assert!(rt; AVC1_OF_TEST.get(86..102) == Some(child.as_slice()));
    Ok(())
}

/// Returns the `avcC` that `new` makes from two short parameter sets.
fn new_avcc(alloc: Global) -> Result<AvcCBox, Error> {
    AvcCBox::new(alloc, &[0x67, 0x64, 0x00, 0x0d], &[0x68])
}

/// Returns the normal form of `new_avcc`, which has lengths of four bytes before parameter sets.
fn new_avcc_of_four(alloc: Global) -> Result<AvcCBox, Error> {
    let mut made = new_avcc(alloc)?;
    made.length_size_minus_one = 3;
    Ok(made)
}

/// Returns the size of the `avc1` that `new` makes from the parameter sets of `new_avcc`.
fn size_of_new_avc1(alloc: Global) -> Result<u64, Error> {
    let config = AvcConfig {
        width: 320,
        height: 240,
        seq_param_set: Vec::from_slice(alloc, &[0x67, 0x64, 0x00, 0x0d])?.into(),
        pic_param_set: Vec::from_slice(alloc, &[0x68])?.into(),
    };
    let mut out = Vec::new(alloc);
    Avc1Box::new(alloc, &config)?.write_box(&mut out)
}

#[test]
fn new_configuration_of_two_sets(rt: HostRuntime) -> Result<(), Fail> {
    let alloc = rt.alloc();
    let bytes = b"\0\0\0\x18avcC\x01\x64\0\x0d\xff\xe1\0\x04\x67\x64\0\x0d\x01\0\x01\x68";
    made::normal_form(alloc, new_avcc(alloc), new_avcc_of_four(alloc), bytes)?;
    assert_eq!(rt; size_of_new_avc1(alloc)?, 110);
    Ok(())
}

/// Returns an `avcC` with these parameter sets, whose other fields are 0.
fn avcc_of_sets(sequence: Entries<NalUnit>, picture: Entries<NalUnit>) -> AvcCBox {
    AvcCBox {
        configuration_version: 0,
        avc_profile_indication: 0,
        profile_compatibility: 0,
        avc_level_indication: 0,
        length_size_minus_one: 0,
        sequence_parameter_sets: sequence,
        picture_parameter_sets: picture,
    }
}

/// Returns an `avcC` with `sequence` empty sequence sets and `picture` empty picture sets.
fn avcc_of_empty(alloc: Global, sequence: usize, picture: usize) -> Result<AvcCBox, Error> {
    let sequence = empty_sets(alloc, sequence)?;
    let picture = empty_sets(alloc, picture)?;
    Ok(avcc_of_sets(sequence, picture))
}

/// Returns an `avcC` with one picture set of `count` zeros.
fn avcc_of_zeros(alloc: Global, count: usize) -> Result<AvcCBox, Error> {
    let mut zeros = Vec::new(alloc);
    zeros.resize(count, 0)?;
    let picture = list_of_sets(alloc, &[zeros.as_slice()])?;
    Ok(avcc_of_sets(Entries::new(alloc), picture))
}

#[test]
fn more_sets_or_bytes_than_their_count_can_say(rt: HostRuntime) -> Result<(), Fail> {
    let alloc = rt.alloc();
    made::unwritable_of_size(alloc, avcc_of_empty(alloc, 32, 0), 79)
        .and(made::unwritable_of_size(alloc, avcc_of_empty(alloc, 0, 256), 527))
        .and(made::unwritable_of_size(alloc, avcc_of_zeros(alloc, 65536), 65553))
        .and(made::written(alloc, avcc_of_empty(alloc, 31, 0), 77))?;
    Ok(())
}
