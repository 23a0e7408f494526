//! The shape of a four-character code.

ghost use Rattle.mp4_declared.specs.ToEnd.{code_shape};
ghost use Rattle.mp4_declared.specs.ToEndLaws.{code_laws};

use crate::{Array, Context, PutShape, Shape};
use mp4_frame::{FourCC, Result, put_bytes};
use std::alloc::Global;

/// A four-character code, in four bytes.
pub struct Code;

impl Shape for Code {
    type Value = FourCC;

    ghost shape = { code_shape };

    ghost shape_laws = { code_laws };

    #[inline]
    fn is_fixed() -> bool {
        true
    }

    #[inline]
    fn front(_context: Context) -> usize {
        4
    }

    #[inline]
    fn read(
        alloc: Global,
        bytes: &[u8],
        at: usize,
        end: u64,
        context: Context,
    ) -> Result<(FourCC, usize)> {
        let (value, next) = Array::<4>::read(alloc, bytes, at, end, context)?;
        Ok((FourCC { value }, next))
    }
}

impl PutShape<FourCC> for Code {
    ghost content = { λ code. code };

    #[inline]
    fn size(_context: Context, _value: FourCC) -> u64 {
        4
    }

    #[inline]
    fn fits(_context: Context, _value: FourCC) -> bool {
        true
    }

    #[inline]
    fn put(out: &mut [u8], at: usize, _context: Context, value: FourCC) -> usize {
        put_bytes(out, at, &value.value)
    }
}
