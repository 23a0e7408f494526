//! Tests of the equality and the printed form of samples, and of creation times.

use mp4_stream::{Bytes, Mp4Sample, creation_time};
use std::test::Fail;

fn sample(bytes: &'static [u8]) -> Mp4Sample {
    Mp4Sample {
        start_time: 1,
        duration: 2,
        rendering_offset: -3,
        is_sync: true,
        bytes: Bytes::from_static(bytes),
    }
}

/// Returns whether `other` is unequal to the sample of three bytes.
fn is_unlike(other: Mp4Sample) -> bool {
    sample(b"abc") != other
}

/// Returns whether samples are unequal if their start time, duration, offset or sync mark differs.
fn other_fields_are_told() -> bool {
    is_unlike(Mp4Sample {
        start_time: 2,
        ..sample(b"abc")
    }) && is_unlike(Mp4Sample {
        duration: 3,
        ..sample(b"abc")
    }) && is_unlike(Mp4Sample {
        rendering_offset: 3,
        ..sample(b"abc")
    }) && is_unlike(Mp4Sample {
        is_sync: false,
        ..sample(b"abc")
    })
}

#[test]
fn samples_are_equal_by_length(rt: HostRuntime) {
    assert!(rt; sample(b"abc") == sample(b"xyz"));
    assert!(rt; is_unlike(sample(b"abcd")));
    assert!(rt; other_fields_are_told());
}

#[test]
fn samples_are_printed(rt: HostRuntime) -> Result<(), Fail> {
    assert_eq!(rt;
        sample(b"abcd").to_string(rt.alloc())?.as_str(),
        "start_time 1, duration 2, rendering_offset -3, is_sync true, length 4"
    );
    assert_eq!(rt;
        format!(in rt.alloc(); "{:?}", sample(b"ab"))?.as_str(),
        "Mp4Sample { start_time: 1, duration: 2, rendering_offset: -3, is_sync: true, bytes: b\"ab\" }"
    );
    Ok(())
}

#[test]
fn creation_times_count_from_1970(rt: HostRuntime) {
    for (time, expected) in [
        (0, 0),
        (5, 5),
        (2_082_844_799, 2_082_844_799),
        (2_082_844_800, 0),
        (2_082_844_801, 1),
        (u64::MAX, u64::MAX - 2_082_844_800),
    ] {
        assert_eq!(rt; creation_time(time), expected, "of {time}");
    }
}
