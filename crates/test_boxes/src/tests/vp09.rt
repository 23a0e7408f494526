//! Tests of `vp09` and its `vpcC`: an entry that is made from a configuration, and numbers that don't fit.

use mp4_stream::{Vp09Box, Vp9Config, VpccBox};
use std::alloc::Global;
use std::test::Fail;
use test_shared::boxes::entries::vp09_of_config;
use test_shared::helpers::{Mismatch, expect_unwritable, expect_unwritable_of_size};

#[test]
fn new_vpcc_and_vp09(rt: HostRuntime) {
    let made = Vp09Box {
        version: 0,
        flags: 0,
        start_code: 0,
        data_reference_index: 1,
        reserved0: [0; 16],
        width: 0x8182,
        height: 0x8384,
        horizresolution: (72, 0),
        vertresolution: (72, 0),
        reserved1: [0; 4],
        frame_count: 1,
        compressorname: [0; 32],
        depth: 24,
        end_code: 0xffff,
        vpcc: VpccBox {
            version: 1,
            flags: 0,
            profile: 0,
            level: 31,
            bit_depth: 8,
            chroma_subsampling: 0,
            video_full_range_flag: false,
            color_primaries: 0,
            transfer_characteristics: 0,
            matrix_coefficients: 0,
            codec_initialization_data_size: 0,
        },
    };
    let config = Vp9Config {
        width: 0x8182,
        height: 0x8384,
    };
    assert!(rt; Vp09Box::new(&config) == made);
}

/// Expects that neither a `vpcC` with these numbers nor a `vp09` with it can be written.
fn expect_unwritable_vpcc(
    alloc: Global,
    bit_depth: u8,
    chroma_subsampling: u8,
    flags: u32,
) -> Result<(), Mismatch> {
    let child = VpccBox {
        bit_depth,
        chroma_subsampling,
        flags,
        ..VpccBox::default()
    };
    expect_unwritable(alloc, &child)?;
    let entry = Vp09Box {
        vpcc: child,
        ..vp09_of_config()
    };
    expect_unwritable(alloc, &entry)
}

#[test]
fn unwritable_vpcc_and_vp09(rt: HostRuntime) -> Result<(), Fail> {
    let alloc = rt.alloc();
    let flagged = Vp09Box {
        flags: 1 << 24,
        ..vp09_of_config()
    };
    expect_unwritable_vpcc(alloc, 16, 0, 0)
        .and(expect_unwritable_vpcc(alloc, 0, 8, 0))
        .and(expect_unwritable_vpcc(alloc, 0, 0, 1 << 24))
        .and(expect_unwritable_of_size(alloc, &flagged, 106))?;
    Ok(())
}
