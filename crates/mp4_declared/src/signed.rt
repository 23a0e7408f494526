//! Signed numbers.

ghost use Rattle.std.specs.Int.{w8, w16, w32};
ghost use Rattle.mp4_declared.specs.OptionalShapes.{signed_shape};
ghost use Rattle.mp4_declared.specs.OptionalShapesLaws.{signed8_laws, signed16_laws, signed32_laws};

use crate::context::Context;
use crate::shape::{PutShape, Shape};
use mp4_frame::{Result, i8_at, i16_at, i32_at, put_i8, put_i16, put_i32};
use std::alloc::Global;

/// A signed number of 8 bits, in two's complement.
pub struct I8;

impl Shape for I8 {
    type Value = i8;

    ghost shape = { signed_shape w8 1 };

    ghost shape_laws = { signed8_laws };

    #[inline]
    fn is_fixed() -> bool {
        true
    }

    #[inline]
    fn front(_context: Context) -> usize {
        1
    }

    #[inline]
    fn read(
        _alloc: Global,
        bytes: &[u8],
        at: usize,
        _end: u64,
        _context: Context,
    ) -> Result<(i8, usize)> {
        Ok((i8_at(bytes, at), at + 1))
    }
}

impl PutShape<i8> for I8 {
    ghost content = { λ z. z };

    #[inline]
    fn size(_context: Context, _value: i8) -> u64 {
        1
    }

    #[inline]
    fn fits(_context: Context, _value: i8) -> bool {
        true
    }

    #[inline]
    fn put(out: &mut [u8], at: usize, _context: Context, value: i8) -> usize {
        put_i8(out, at, value)
    }
}

/// A signed number of 16 bits, in two's complement.
pub struct I16;

impl Shape for I16 {
    type Value = i16;

    ghost shape = { signed_shape w16 2 };

    ghost shape_laws = { signed16_laws };

    #[inline]
    fn is_fixed() -> bool {
        true
    }

    #[inline]
    fn front(_context: Context) -> usize {
        2
    }

    #[inline]
    fn read(
        _alloc: Global,
        bytes: &[u8],
        at: usize,
        _end: u64,
        _context: Context,
    ) -> Result<(i16, usize)> {
        Ok((i16_at(bytes, at), at + 2))
    }
}

impl PutShape<i16> for I16 {
    ghost content = { λ z. z };

    #[inline]
    fn size(_context: Context, _value: i16) -> u64 {
        2
    }

    #[inline]
    fn fits(_context: Context, _value: i16) -> bool {
        true
    }

    #[inline]
    fn put(out: &mut [u8], at: usize, _context: Context, value: i16) -> usize {
        put_i16(out, at, value)
    }
}

/// A signed number of 32 bits, in two's complement.
pub struct I32;

impl Shape for I32 {
    type Value = i32;

    ghost shape = { signed_shape w32 4 };

    ghost shape_laws = { signed32_laws };

    #[inline]
    fn is_fixed() -> bool {
        true
    }

    #[inline]
    fn front(_context: Context) -> usize {
        4
    }

    #[inline]
    fn read(
        _alloc: Global,
        bytes: &[u8],
        at: usize,
        _end: u64,
        _context: Context,
    ) -> Result<(i32, usize)> {
        Ok((i32_at(bytes, at), at + 4))
    }
}

impl PutShape<i32> for I32 {
    ghost content = { λ z. z };

    #[inline]
    fn size(_context: Context, _value: i32) -> u64 {
        4
    }

    #[inline]
    fn fits(_context: Context, _value: i32) -> bool {
        true
    }

    #[inline]
    fn put(out: &mut [u8], at: usize, _context: Context, value: i32) -> usize {
        put_i32(out, at, value)
    }
}
