//! Shapes that are present only in some versions, or only with some flags, and are reserved bytes otherwise.

ghost use Rattle.std.specs.Prelude.{option_map};
ghost use Rattle.mp4_declared.specs.OrZeros.{or_zeros_shape};
ghost use Rattle.mp4_declared.specs.OrZerosLaws.{or_zeros_laws};

use crate::{Condition, Context, PutShape, Shape};
use mp4_frame::{Result, put_zeros};
use std::alloc::Global;

/// An `S` if `P` holds, and otherwise `N` reserved bytes, which are written as 0 and read as any.
pub struct OrZeros<P, S, const N: usize>(P, S);

impl<P: Condition, S: Shape, const N: usize> Shape for OrZeros<P, S, N> {
    type Value = Option<S::Value>;

    ghost shape = { or_zeros_shape P.holds S.shape N };

    ghost shape_laws = { or_zeros_laws P.holds S.shape N S.shape_laws };

    #[inline]
    fn is_fixed() -> bool {
        false
    }

    #[inline]
    fn front(context: Context) -> usize {
        if P::holds(context) {
            S::front(context)
        } else {
            N
        }
    }

    #[inline]
    fn read(
        alloc: Global,
        bytes: &[u8],
        at: usize,
        end: u64,
        context: Context,
    ) -> Result<(Option<S::Value>, usize)> {
        if !P::holds(context) {
            return Ok((None, at + N));
        }
        let (value, next) = S::read(alloc, bytes, at, end, context)?;
        Ok((Some(value), next))
    }
}

impl<P: Condition, S: PutShape<V>, V: Copy, const N: usize> PutShape<Option<V>>
    for OrZeros<P, S, N> {
    ghost content = { option_map S.content };

    #[inline]
    fn size(context: Context, value: Option<V>) -> u64 {
        match value {
            Some(value) => S::size(context, value),
            None => N as u64,
        }
    }

    #[inline]
    fn fits(context: Context, value: Option<V>) -> bool {
        match value {
            Some(value) => P::holds(context) && S::fits(context, value),
            None => !P::holds(context),
        }
    }

    #[inline]
    fn put(out: &mut [u8], at: usize, context: Context, value: Option<V>) -> usize {
        match value {
            Some(value) => S::put(out, at, context, value),
            None => put_zeros(out, at, N),
        }
    }
}
