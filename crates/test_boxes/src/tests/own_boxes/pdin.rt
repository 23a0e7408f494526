//! The bytes of `pdin` (ISO/IEC 14496-12, 8.1.3).

use crate::tests::own_boxes::has_fault;
use example_boxes::{Pdin, PdinBox, PdinEntry};
use mp4_stream::Result as Made;
use std::alloc::Global;
use std::test::Fail;
use test_shared::helpers::{Kind, expect_kind};
use test_shared::made;

/// Three entries. The bytes of the fields count up from 0x81, after the version.
const BYTES: [u8; 36] = *b"\0\0\0\x24pdin\0\x81\x82\x83\
\x84\x85\x86\x87\x88\x89\x8a\x8b\
\x8c\x8d\x8e\x8f\x90\x91\x92\x93\
\x94\x95\x96\x97\x98\x99\x9a\x9b";

/// The entries of `BYTES`.
const ENTRIES: [PdinEntry; 3] = [
    PdinEntry {
        rate: 0x8485_8687,
        initial_delay: 0x8889_8a8b,
    },
    PdinEntry {
        rate: 0x8c8d_8e8f,
        initial_delay: 0x9091_9293,
    },
    PdinEntry {
        rate: 0x9495_9697,
        initial_delay: 0x9899_9a9b,
    },
];

/// Makes a box with these fields.
fn pdin(alloc: Global, version: u8, flags: u32, entries: &[PdinEntry]) -> Made<PdinBox> {
    Ok(PdinBox::new(Pdin {
        version,
        flags,
        entries: Vec::from_slice(alloc, entries)?.into(),
    }))
}

#[test]
fn pdin_is_written_and_read(rt: HostRuntime) -> Result<(), Fail> {
    let alloc = rt.alloc();
    let two = pdin(alloc, 0, 0x81_8283, &ENTRIES[..2]);
    let none = pdin(alloc, 0, 0, &[]);
    made::round_trip(alloc, pdin(alloc, 0, 0x81_8283, &ENTRIES), &BYTES)
        .and(made::value(alloc, two, &BYTES, 28))
        .and(made::round_trip(alloc, none, b"\0\0\0\x0cpdin\0\0\0\0"))?;
    Ok(())
}

/// Returns whether a size and a version that do not fit have their faults.
fn has_faults(alloc: Global) -> bool {
    let first = b"\0\0\0\x0cpdin\x01\x81\x82\x83";
    has_fault::<PdinBox>(alloc, &BYTES, 35, "entries do not fill the box")
        && has_fault::<PdinBox>(alloc, first, 12, "version must be 0")
}

#[test]
fn sizes_and_versions_that_do_not_fit(rt: HostRuntime) -> Result<(), Fail> {
    let alloc = rt.alloc();
    assert!(rt; has_faults(alloc));
    expect_kind::<PdinBox>(alloc, &BYTES[..35], 36, Kind::End)
        .and(made::unwritable(alloc, pdin(alloc, 1, 0, &[])))
        .and(made::written(alloc, pdin(alloc, 0, 0xff_ffff, &[]), 12))
        .and(made::unwritable(alloc, pdin(alloc, 0, 0x100_0000, &[])))?;
    Ok(())
}
