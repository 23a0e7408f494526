//! Checks of a box from a call that may be out of memory. Each check takes the result of the call in `made` and returns
//! its error. So this branch is proved once, and not in each test.

use crate::helpers::{
    Mismatch, expect_end_at_cuts_below, expect_invalid_at_small_sizes, expect_normal_form,
    expect_round_trip, expect_unwritable, expect_unwritable_of_size, expect_value,
    expect_value_at_any_size, expect_written,
};
use mp4_stream::{BoxLaws, Result as Made, TryClone, WriteBox};
use std::alloc::Global;

/// Expects that the box in `made` is written as `bytes`, and read back from them.
pub fn round_trip<B: BoxLaws + PartialEq + Drop>(
    alloc: Global,
    made: Made<B>,
    bytes: &[u8],
) -> Result<(), Mismatch> {
    expect_round_trip(alloc, &made?, bytes)
}

/// Expects that the box in `made` is written as `size` bytes, which begin with its header, and is read back from them.
pub fn written<B: BoxLaws + PartialEq + Drop>(
    alloc: Global,
    made: Made<B>,
    size: u64,
) -> Result<(), Mismatch> {
    expect_written(alloc, &made?, size)?;
    Ok(())
}

/// Expects that a box of the size `size` is read from `bytes` as the box in `made`, and that the cursor is then at its
/// end.
pub fn value<B: BoxLaws + PartialEq + Drop>(
    alloc: Global,
    made: Made<B>,
    bytes: &[u8],
    size: u64,
) -> Result<(), Mismatch> {
    expect_value(alloc, &made?, bytes, size)
}

/// Expects that the box in `made` is written as `bytes`, and that its normal form `normal` is read back from them.
pub fn normal_form<B: BoxLaws + PartialEq + Drop>(
    alloc: Global,
    made: Made<B>,
    normal: Made<B>,
    bytes: &[u8],
) -> Result<(), Mismatch> {
    expect_normal_form(alloc, &made?, &normal?, bytes)
}

/// Expects that writing the box in `made` is invalid data, and leaves the vector unchanged.
pub fn unwritable<B: WriteBox + Drop>(alloc: Global, made: Made<B>) -> Result<(), Mismatch> {
    expect_unwritable(alloc, &made?)
}

/// Expects that the box in `made` has a clone that is equal to it.
pub fn cloned<B: TryClone + PartialEq + Drop>(made: Made<B>) -> Result<(), Mismatch> {
    clone_of(&made?)
}

/// Expects that `original` has a clone that is equal to it.
pub fn clone_of<B: TryClone + PartialEq + Drop>(original: &B) -> Result<(), Mismatch> {
    if original.try_clone()? == *original {
        Ok(())
    } else {
        Err(Mismatch::OtherValue)
    }
}

/// Expects that the values in `made` and `expected` are equal.
pub fn equal<B: PartialEq + Drop>(made: Made<B>, expected: Made<B>) -> Result<(), Mismatch> {
    if made? == expected? {
        Ok(())
    } else {
        Err(Mismatch::OtherValue)
    }
}

/// Expects that the box in `made` has the size `size`, and that writing it is invalid data and leaves the vector
/// unchanged.
pub fn unwritable_of_size<B: WriteBox + Drop>(
    alloc: Global,
    made: Made<B>,
    size: u64,
) -> Result<(), Mismatch> {
    expect_unwritable_of_size(alloc, &made?, size)
}

/// Cuts the bytes of the box in `made` at every length. Expects end of input if fewer than `needed` bytes are left, and
/// the box if at least `needed` are left.
pub fn end_at_cuts_below<B: BoxLaws + PartialEq + Drop>(
    alloc: Global,
    made: Made<B>,
    needed: usize,
) -> Result<(), Mismatch> {
    expect_end_at_cuts_below(alloc, &made?, needed)
}

/// Expects that the bytes of the box in `made` are read as the box with each of the sizes 0, 7, the number of bytes,
/// and 2^64 - 1.
pub fn value_at_any_size<B: BoxLaws + PartialEq + Drop>(
    alloc: Global,
    made: Made<B>,
) -> Result<(), Mismatch> {
    expect_value_at_any_size(alloc, &made?)
}

/// Expects that the bytes of the box in `made` are invalid data with a size of 0 or 7, and are read as the box with the
/// size 2^64 - 1.
pub fn invalid_at_small_sizes<B: BoxLaws + PartialEq + Drop>(
    alloc: Global,
    made: Made<B>,
) -> Result<(), Mismatch> {
    expect_invalid_at_small_sizes(alloc, &made?)
}
