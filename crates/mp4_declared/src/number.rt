//! Unsigned numbers, times, and reserved bytes.

ghost use Rattle.std.specs.Prelude.{◌≡◌, ◌==◌, ◌^◌, ◌<◌, if◌then◌else◌};
ghost use Rattle.mp4_declared.specs.Shape.{number_shape, time_width, zeros_shape};
ghost use Rattle.mp4_declared.specs.ShapeLaws.{number_laws, zeros_laws};

use crate::context::Context;
use crate::shape::{PutShape, Shape};
use mp4_frame::{
    Result, put_u8, put_u16, put_u24, put_u32, put_u64, put_zeros, u8_at, u16_at, u24_at, u32_at,
    u64_at,
};
use std::alloc::Global;

/// A number of 8 bits.
pub struct U8;

impl Shape for U8 {
    type Value = u8;

    ghost shape = { number_shape (λ _. 1) };

    ghost shape_laws = { number_laws (λ _. 1) };

    #[inline]
    fn is_fixed() -> bool {
        true
    }

    #[inline]
    fn front(_context: Context) -> usize {
        1
    }

    #[inline]
    fn read(
        _alloc: Global,
        bytes: &[u8],
        at: usize,
        _end: u64,
        _context: Context,
    ) -> Result<(u8, usize)> {
        Ok((u8_at(bytes, at), at + 1))
    }
}

impl PutShape<u8> for U8 {
    ghost content = { λ n. n };

    #[inline]
    fn size(_context: Context, _value: u8) -> u64 {
        1
    }

    #[inline]
    fn fits(_context: Context, _value: u8) -> bool {
        true
    }

    #[inline]
    fn put(out: &mut [u8], at: usize, _context: Context, value: u8) -> usize {
        put_u8(out, at, value)
    }
}

/// A number of 16 bits.
pub struct U16;

impl Shape for U16 {
    type Value = u16;

    ghost shape = { number_shape (λ _. 2) };

    ghost shape_laws = { number_laws (λ _. 2) };

    #[inline]
    fn is_fixed() -> bool {
        true
    }

    #[inline]
    fn front(_context: Context) -> usize {
        2
    }

    #[inline]
    fn read(
        _alloc: Global,
        bytes: &[u8],
        at: usize,
        _end: u64,
        _context: Context,
    ) -> Result<(u16, usize)> {
        Ok((u16_at(bytes, at), at + 2))
    }
}

impl PutShape<u16> for U16 {
    ghost content = { λ n. n };

    #[inline]
    fn size(_context: Context, _value: u16) -> u64 {
        2
    }

    #[inline]
    fn fits(_context: Context, _value: u16) -> bool {
        true
    }

    #[inline]
    fn put(out: &mut [u8], at: usize, _context: Context, value: u16) -> usize {
        put_u16(out, at, value)
    }
}

/// A number of 24 bits.
pub struct U24;

impl Shape for U24 {
    type Value = u32;

    ghost shape = { number_shape (λ _. 3) };

    ghost shape_laws = { number_laws (λ _. 3) };

    #[inline]
    fn is_fixed() -> bool {
        true
    }

    #[inline]
    fn front(_context: Context) -> usize {
        3
    }

    #[inline]
    fn read(
        _alloc: Global,
        bytes: &[u8],
        at: usize,
        _end: u64,
        _context: Context,
    ) -> Result<(u32, usize)> {
        Ok((u24_at(bytes, at), at + 3))
    }
}

impl PutShape<u32> for U24 {
    ghost content = { λ n. n };

    #[inline]
    fn size(_context: Context, _value: u32) -> u64 {
        3
    }

    #[inline]
    fn fits(_context: Context, value: u32) -> bool {
        value < 1 << 24
    }

    #[inline]
    fn put(out: &mut [u8], at: usize, _context: Context, value: u32) -> usize {
        put_u24(out, at, value)
    }
}

/// A number of 32 bits.
pub struct U32;

impl Shape for U32 {
    type Value = u32;

    ghost shape = { number_shape (λ _. 4) };

    ghost shape_laws = { number_laws (λ _. 4) };

    #[inline]
    fn is_fixed() -> bool {
        true
    }

    #[inline]
    fn front(_context: Context) -> usize {
        4
    }

    #[inline]
    fn read(
        _alloc: Global,
        bytes: &[u8],
        at: usize,
        _end: u64,
        _context: Context,
    ) -> Result<(u32, usize)> {
        Ok((u32_at(bytes, at), at + 4))
    }
}

impl PutShape<u32> for U32 {
    ghost content = { λ n. n };

    #[inline]
    fn size(_context: Context, _value: u32) -> u64 {
        4
    }

    #[inline]
    fn fits(_context: Context, _value: u32) -> bool {
        true
    }

    #[inline]
    fn put(out: &mut [u8], at: usize, _context: Context, value: u32) -> usize {
        put_u32(out, at, value)
    }
}

/// A number of 64 bits.
pub struct U64;

impl Shape for U64 {
    type Value = u64;

    ghost shape = { number_shape (λ _. 8) };

    ghost shape_laws = { number_laws (λ _. 8) };

    #[inline]
    fn is_fixed() -> bool {
        true
    }

    #[inline]
    fn front(_context: Context) -> usize {
        8
    }

    #[inline]
    fn read(
        _alloc: Global,
        bytes: &[u8],
        at: usize,
        _end: u64,
        _context: Context,
    ) -> Result<(u64, usize)> {
        Ok((u64_at(bytes, at), at + 8))
    }
}

impl PutShape<u64> for U64 {
    ghost content = { λ n. n };

    #[inline]
    fn size(_context: Context, _value: u64) -> u64 {
        8
    }

    #[inline]
    fn fits(_context: Context, _value: u64) -> bool {
        true
    }

    #[inline]
    fn put(out: &mut [u8], at: usize, _context: Context, value: u64) -> usize {
        put_u64(out, at, value)
    }
}

/// A time: a number of 32 bits in version 0, and of 64 bits in later versions.
pub struct Time;

/// Returns the number of bytes of a time in `version`.
#[inline]
fn width_of_time(version: u8) -> usize
    ensures { result ≡ time_width version }
{
    if version == 0 { 4 } else { 8 }
}

impl Shape for Time {
    type Value = u64;

    ghost shape = { number_shape (λ c. time_width c.version) };

    ghost shape_laws = { number_laws (λ c. time_width c.version) };

    #[inline]
    fn is_fixed() -> bool {
        true
    }

    #[inline]
    fn front(context: Context) -> usize {
        width_of_time(context.version)
    }

    #[inline]
    fn read(
        _alloc: Global,
        bytes: &[u8],
        at: usize,
        _end: u64,
        context: Context,
    ) -> Result<(u64, usize)> {
        if context.version == 0 {
            Ok((u32_at(bytes, at).into(), at + 4))
        } else {
            Ok((u64_at(bytes, at), at + 8))
        }
    }
}

impl PutShape<u64> for Time {
    ghost content = { λ n. n };

    #[inline]
    fn size(context: Context, _value: u64) -> u64 {
        width_of_time(context.version) as u64
    }

    #[inline]
    fn fits(context: Context, value: u64) -> bool {
        context.version != 0 || value < 1 << 32
    }

    #[inline]
    fn put(out: &mut [u8], at: usize, context: Context, value: u64) -> usize {
        if context.version == 0 {
            put_u32(out, at, value as u32)
        } else {
            put_u64(out, at, value)
        }
    }
}

/// `N` reserved bytes, which are written as 0 and read as any.
pub struct Zeros<const N: usize>;

impl<const N: usize> Shape for Zeros<N> {
    type Value = ();

    ghost shape = { zeros_shape N };

    ghost shape_laws = { zeros_laws N };

    #[inline]
    fn is_fixed() -> bool {
        true
    }

    #[inline]
    fn front(_context: Context) -> usize {
        N
    }

    #[inline]
    fn read(
        _alloc: Global,
        _bytes: &[u8],
        at: usize,
        _end: u64,
        _context: Context,
    ) -> Result<((), usize)> {
        Ok(((), at + N))
    }
}

impl<const N: usize> PutShape<()> for Zeros<N> {
    ghost content = { λ _. tt };

    #[inline]
    fn size(_context: Context, _value: ()) -> u64 {
        N as u64
    }

    #[inline]
    fn fits(_context: Context, _value: ()) -> bool {
        true
    }

    #[inline]
    fn put(out: &mut [u8], at: usize, _context: Context, _value: ()) -> usize {
        put_zeros(out, at, N)
    }
}
