//! Tests of fixed-point numbers: their raw numbers, their whole parts and how they print.

use mp4_stream::{FixedPointI8, FixedPointU8, FixedPointU16};
use std::alloc::{AllocError, Global};
use std::fmt::Debug;
use std::test::Fail;
use test_shared::helpers::debug_text;

/// Returns the first unsigned number of 8 bits that has a wrong raw number, if there is one.
fn other_raw_of_8() -> Option<u8> {
    for (value, raw) in [(0, 0), (1, 256), (255, 65280)] {
        let fixed = FixedPointU8::new(value);
        if fixed.raw_value() != raw || fixed.value() != value {
            return Some(value);
        }
    }
    None
}

/// Returns the first signed number of 8 bits that has a wrong raw number, if there is one.
fn other_raw_of_signed_8() -> Option<i8> {
    for (value, raw) in [(-128, -32768), (-1, -256), (0, 0), (1, 256), (127, 32512)] {
        let fixed = FixedPointI8::new(value);
        if fixed.raw_value() != raw || fixed.value() != value {
            return Some(value);
        }
    }
    None
}

/// Returns the first number of 16 bits that has a wrong raw number, if there is one.
fn other_raw_of_16() -> Option<u16> {
    for (value, raw) in [
        (0, 0),
        (1, 65536),
        (512, 33_554_432),
        (65535, 4_294_901_760),
    ] {
        let fixed = FixedPointU16::new(value);
        if fixed.raw_value() != raw || fixed.value() != value {
            return Some(value);
        }
    }
    None
}

#[test]
fn fixed_points_have_raw_numbers(rt: HostRuntime) {
    assert_eq!(rt; other_raw_of_8(), None);
    assert_eq!(rt; other_raw_of_signed_8(), None);
    assert_eq!(rt; other_raw_of_16(), None);
}

/// Returns the first unsigned raw number that is not rounded down to a whole part of 8 bits, if there is one.
fn unrounded_8() -> Option<u16> {
    for (raw, value) in [
        (0, 0),
        (255, 0),
        (256, 1),
        (65279, 254),
        (65280, 255),
        (65535, 255),
    ] {
        let fixed = FixedPointU8::new_raw(raw);
        if fixed.value() != value || fixed.raw_value() != raw {
            return Some(raw);
        }
    }
    None
}

/// Returns the first signed raw number that is not rounded towards 0 to a whole part of 8 bits, if there is one.
fn unrounded_signed_8() -> Option<i16> {
    for (raw, value) in [
        (-32768, -128),
        (-32767, -127),
        (-512, -2),
        (-511, -1),
        (-257, -1),
        (-256, -1),
        (-255, 0),
        (-1, 0),
        (0, 0),
        (1, 0),
        (255, 0),
        (256, 1),
        (32767, 127),
    ] {
        let fixed = FixedPointI8::new_raw(raw);
        if fixed.value() != value || fixed.raw_value() != raw {
            return Some(raw);
        }
    }
    None
}

/// Returns the first raw number that is not rounded down to a whole part of 16 bits, if there is one.
fn unrounded_16() -> Option<u32> {
    for (raw, value) in [
        (0, 0),
        (65535, 0),
        (65536, 1),
        (4_294_901_759, 65534),
        (4_294_901_760, 65535),
        (u32::MAX, 65535),
    ] {
        let fixed = FixedPointU16::new_raw(raw);
        if fixed.value() != value || fixed.raw_value() != raw {
            return Some(raw);
        }
    }
    None
}

#[test]
fn raw_numbers_are_rounded(rt: HostRuntime) {
    assert_eq!(rt; unrounded_8(), None);
    assert_eq!(rt; unrounded_signed_8(), None);
    assert_eq!(rt; unrounded_16(), None);
}

/// Returns whether `Debug` prints `value` as `text`.
fn is_printed(alloc: Global, value: &impl Debug, text: &str) -> Result<bool, AllocError> {
    Ok(debug_text(alloc, value)?.as_str() == text)
}

#[test]
fn fixed_points_print_raw_numbers(rt: HostRuntime) -> Result<(), Fail> {
    let alloc = rt.alloc();
    assert!(rt; is_printed(alloc, &FixedPointU8::new(1), "FixedPoint { raw: 256 }")?);
    assert!(rt; is_printed(alloc, &FixedPointI8::new_raw(-1), "FixedPoint { raw: -1 }")?);
    assert!(rt; is_printed(alloc, &FixedPointU16::new(1), "FixedPoint { raw: 65536 }")?);
    Ok(())
}
