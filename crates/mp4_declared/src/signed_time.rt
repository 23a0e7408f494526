//! Signed times.

ghost use Rattle.std.specs.Prelude.{◌≡◌, ◌+◌, ◌≤◌, ◌++◌, length, take};
ghost use Rattle.std.specs.Int.{w64, cast_signed, cast_unsigned};
ghost use Rattle.mp4_frame.specs.Bytes.{number, be_bytes};
ghost use Rattle.mp4_declared.specs.SignedTime.{signed_time_shape};
ghost use Rattle.mp4_declared.specs.SignedTimeLaws.{signed_time_laws};

use crate::{Context, PutShape, Shape};
use mp4_frame::{Result, i32_at, put_i32, put_u64, u64_at};
use std::alloc::Global;

/// A signed time in two's complement: a number of 32 bits in version 0, and of 64 bits in later versions.
pub struct SignedTime;

/// Returns the signed number in the eight bytes at offset `at`.
fn i64_at(bytes: &[u8], at: usize) -> i64
    requires { at + 8 ≤ length bytes.now }
    ensures { result ≡ cast_signed w64 (number bytes.now at 8) }
{
    u64_at(bytes, at).cast_signed()
}

/// Puts `n` in eight bytes, and returns the offset after them.
fn put_i64(out: &mut [u8], at: usize, n: i64) -> usize
    requires { at + 8 ≤ length out.old }
    ensures next { result ≡ at + 8 }
    ensures put { take result out.new ≡ take at out.old ++ be_bytes 8 (cast_unsigned w64 n) }
{
    put_u64(out, at, n.cast_unsigned())
}

impl Shape for SignedTime {
    type Value = i64;

    ghost shape = { signed_time_shape };

    ghost shape_laws = { signed_time_laws };

    #[inline]
    fn is_fixed() -> bool {
        true
    }

    #[inline]
    fn front(context: Context) -> usize {
        if context.version == 0 { 4 } else { 8 }
    }

    #[inline]
    fn read(
        _alloc: Global,
        bytes: &[u8],
        at: usize,
        _end: u64,
        context: Context,
    ) -> Result<(i64, usize)> {
        if context.version == 0 {
            Ok((i32_at(bytes, at).into(), at + 4))
        } else {
            Ok((i64_at(bytes, at), at + 8))
        }
    }
}

impl PutShape<i64> for SignedTime {
    ghost content = { λ z. z };

    #[inline]
    fn size(context: Context, _value: i64) -> u64 {
        if context.version == 0 { 4 } else { 8 }
    }

    #[inline]
    fn fits(context: Context, value: i64) -> bool {
        context.version != 0 || (-(1 << 31) <= value && value < 1 << 31)
    }

    #[inline]
    fn put(out: &mut [u8], at: usize, context: Context, value: i64) -> usize {
        if context.version == 0 {
            put_i32(out, at, value as i32)
        } else {
            put_i64(out, at, value)
        }
    }
}
