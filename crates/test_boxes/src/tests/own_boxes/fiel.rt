//! The bytes of `fiel`.

use example_boxes::{Fiel, FielBox};
use std::test::Fail;
use test_shared::helpers::{Kind, expect_kind, expect_round_trip};

/// Interlaced video. The size is 10.
const BYTES: [u8; 10] = *b"\0\0\0\x0afiel\x81\x82";

#[test]
fn fiel_is_written_and_read(rt: HostRuntime) -> Result<(), Fail> {
    let alloc = rt.alloc();
    let fiel = FielBox::new(Fiel {
        count: 0x81,
        detail: 0x82,
    });
    expect_round_trip(alloc, &fiel, &BYTES).and(expect_kind::<FielBox>(
        alloc,
        &BYTES[..9],
        10,
        Kind::End,
    ))?;
    Ok(())
}
