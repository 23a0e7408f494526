//! The last part of a tuple, and a part with reserved bytes in front.

ghost use Rattle.mp4_declared.specs.Shape.{last_shape, reserved_shape};
ghost use Rattle.mp4_declared.specs.MappedLaws.{last_laws, reserved_laws};

use crate::context::Context;
use crate::number::Zeros;
use crate::shape::{PutShape, Shape};
use mp4_frame::Result;
use std::alloc::Global;

/// An `S`, as the last part of a tuple. Its value is paired with `()`, as the list of a struct's fields ends.
pub struct Last<S>(S);

impl<S: Shape> Shape for Last<S> {
    type Value = (S::Value, ());

    ghost shape = { last_shape S.shape };

    ghost shape_laws = { last_laws S.shape S.shape_laws };

    #[inline]
    fn is_fixed() -> bool {
        S::is_fixed()
    }

    #[inline]
    fn front(context: Context) -> usize {
        S::front(context)
    }

    #[inline]
    fn read(
        alloc: Global,
        bytes: &[u8],
        at: usize,
        end: u64,
        context: Context,
    ) -> Result<((S::Value, ()), usize)> {
        let (value, next) = S::read(alloc, bytes, at, end, context)?;
        Ok(((value, ()), next))
    }
}

impl<S: PutShape<V>, V: Copy> PutShape<(V, ())> for Last<S> {
    ghost content = { λ v. (S.content v.0, tt) };

    #[inline]
    fn size(context: Context, value: (V, ())) -> u64 {
        S::size(context, value.0)
    }

    #[inline]
    fn fits(context: Context, value: (V, ())) -> bool {
        S::fits(context, value.0)
    }

    #[inline]
    fn put(out: &mut [u8], at: usize, context: Context, value: (V, ())) -> usize {
        S::put(out, at, context, value.0)
    }
}

/// `N` reserved bytes, which are written as 0 and read as any, and an `S`. Its value is that of the `S`.
pub struct Reserved<const N: usize, S>(S);

impl<const N: usize, S: Shape> Shape for Reserved<N, S> {
    type Value = S::Value;

    ghost shape = { reserved_shape N S.shape };

    ghost shape_laws = { reserved_laws N S.shape S.shape_laws };

    #[inline]
    fn is_fixed() -> bool {
        <(Zeros<N>, S) as Shape>::is_fixed()
    }

    #[inline]
    fn front(context: Context) -> usize {
        <(Zeros<N>, S) as Shape>::front(context)
    }

    #[inline]
    fn read(
        alloc: Global,
        bytes: &[u8],
        at: usize,
        end: u64,
        context: Context,
    ) -> Result<(S::Value, usize)> {
        let ((_, value), next) = <(Zeros<N>, S) as Shape>::read(alloc, bytes, at, end, context)?;
        Ok((value, next))
    }
}

impl<const N: usize, S: PutShape<V>, V: Copy> PutShape<V> for Reserved<N, S> {
    ghost content = { S.content };

    #[inline]
    fn size(context: Context, value: V) -> u64 {
        <(Zeros<N>, S) as PutShape<((), V)>>::size(context, ((), value))
    }

    #[inline]
    fn fits(context: Context, value: V) -> bool {
        <(Zeros<N>, S) as PutShape<((), V)>>::fits(context, ((), value))
    }

    #[inline]
    fn put(out: &mut [u8], at: usize, context: Context, value: V) -> usize {
        <(Zeros<N>, S) as PutShape<((), V)>>::put(out, at, context, ((), value))
    }
}
