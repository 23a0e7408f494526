//! The bytes of `ssix` (ISO/IEC 14496-12, 8.16.4).

ghost use Rattle.std.specs.Prelude.{◌<◌};

use crate::tests::own_boxes::has_fault;
use example_boxes::{Ssix, SsixBox, SsixRange, Subsegment};
use mp4_stream::Result as Made;
use std::alloc::Global;
use std::test::Fail;
use test_shared::helpers::{Kind, expect_kind};
use test_shared::made;

/// Three subsegments, with two ranges, one and four. The bytes of the fields count up from 0x81, after the version and
/// between the counts.
pub(crate) const BYTES: [u8; 56] = *b"\0\0\0\x38ssix\0\x81\x82\x83\0\0\0\x03\
\0\0\0\x02\x84\x85\x86\x87\x88\x89\x8a\x8b\
\0\0\0\x01\x8c\x8d\x8e\x8f\
\0\0\0\x04\x90\x91\x92\x93\x94\x95\x96\x97\x98\x99\x9a\x9b\x9c\x9d\x9e\x9f";

/// The ranges of the subsegments of `BYTES`.
const RANGES: [&[(u8, u32)]; 3] = [
    &[(0x84, 0x85_8687), (0x88, 0x89_8a8b)],
    &[(0x8c, 0x8d_8e8f)],
    &[
        (0x90, 0x91_9293),
        (0x94, 0x95_9697),
        (0x98, 0x99_9a9b),
        (0x9c, 0x9d_9e9f),
    ],
];

/// Makes a box with the flags of `BYTES` and with subsegments with these `ranges`, each a level and a size.
fn ssix(alloc: Global, ranges: &[&[(u8, u32)]]) -> Made<SsixBox> {
    let mut subsegments = Vec::new(alloc);
    for of_subsegment in ranges {
        let mut ranges = Vec::new(alloc);
        for (level, range_size) in *of_subsegment {
            ranges.push(SsixRange {
                level: *level,
                range_size: *range_size,
            })?;
        }
        let ranges = ranges.into();
        subsegments.push(Subsegment { ranges })?;
    }
    Ok(SsixBox::new(Ssix {
        version: 0,
        flags: 0x81_8283,
        subsegments: subsegments.into(),
    }))
}

/// Makes the box of `BYTES`.
pub(crate) fn index(alloc: Global) -> Made<SsixBox> {
    ssix(alloc, &RANGES)
}

/// Returns the bytes of `BYTES` with the byte at offset `at` set to `value`.
pub(crate) fn changed(at: usize, value: u8) -> [u8; 56]
    requires { at < 56 }
{
    let mut bytes = BYTES;
    bytes[at] = value;
    bytes
}

/// The fault of a count that is too large for the box.
pub(crate) const TOO_MANY: &str = "count indicates more entries than could fit in the box";

/// Returns whether reading `bytes` with this `size` fails with `TOO_MANY`.
fn has_too_many(alloc: Global, bytes: &[u8], size: u64) -> bool {
    has_fault::<SsixBox>(alloc, bytes, size, TOO_MANY)
}

#[test]
fn ssix_is_written_and_read(rt: HostRuntime) -> Result<(), Fail> {
    let alloc = rt.alloc();
    let empty = b"\0\0\0\x14ssix\0\x81\x82\x83\0\0\0\x01\0\0\0\0";
    made::round_trip(alloc, index(alloc), &BYTES).and(made::round_trip(
        alloc,
        ssix(alloc, &[&[]]),
        empty,
    ))?;
    Ok(())
}

/// A count of one less leaves out the last entry, or reads its bytes as the next count.
#[test]
fn counts_that_are_one_short(rt: HostRuntime) -> Result<(), Fail> {
    let alloc = rt.alloc();
    let two = ssix(alloc, &RANGES[..2]);
    let last = ssix(alloc, &[RANGES[0], RANGES[1], &RANGES[2][..3]]);
    assert!(rt; has_too_many(alloc, &changed(19, 1), 56));
    made::value(alloc, two, &changed(15, 2), 56).and(made::value(
        alloc,
        last,
        &changed(39, 3),
        56,
    ))?;
    Ok(())
}

#[test]
fn counts_and_sizes_that_do_not_fit(rt: HostRuntime) -> Result<(), Fail> {
    let alloc = rt.alloc();
    assert!(rt; has_too_many(alloc, &BYTES, 55) && has_too_many(alloc, &changed(39, 5), 56));
    expect_kind::<SsixBox>(alloc, &BYTES[..55], 56, Kind::End)
        .and(expect_kind::<SsixBox>(alloc, &changed(15, 4), 56, Kind::End))
        .and(made::written(alloc, ssix(alloc, &[&[(0xff, 0xff_ffff)]]), 24))
        .and(made::unwritable(alloc, ssix(alloc, &[&[(0, 0x100_0000)]])))?;
    Ok(())
}
