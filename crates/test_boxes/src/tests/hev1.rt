//! A test of `hev1` and its `hvcC`, made from a configuration.

use mp4_stream::{FixedPointU16, Hev1Box, HevcConfig, HvcCBox};

#[test]
fn new_hvcc_and_hev1(rt: HostRuntime) {
    let hvcc = HvcCBox {
        configuration_version: 1,
    };
    assert!(rt; HvcCBox::new() == hvcc);
    let config = HevcConfig {
        width: 0x8182,
        height: 0x8384,
    };
    // 72 pixels per inch, one frame and 24 bits.
    let made = Hev1Box {
        data_reference_index: 1,
        width: 0x8182,
        height: 0x8384,
        horizresolution: FixedPointU16::new_raw(0x48_0000),
        vertresolution: FixedPointU16::new_raw(0x48_0000),
        frame_count: 1,
        depth: 24,
        hvcc,
    };
    assert!(rt; Hev1Box::new(&config) == made);
}
