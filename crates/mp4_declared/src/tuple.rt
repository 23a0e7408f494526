//! Three to five shapes, one after the other. A tuple is a pair of its first shape and the tuple of the others.

use crate::context::Context;
use crate::shape::{PutShape, Shape};
use mp4_frame::Result;
use std::alloc::Global;

impl<A: Shape, B: Shape, C: Shape> Shape for (A, B, C) {
    type Value = (A::Value, (B::Value, C::Value));

    ghost shape = { ⟦<(A, (B, C)) as Shape>⟧.shape };

    ghost shape_laws = { ⟦<(A, (B, C)) as Shape>⟧.shape_laws };

    #[inline]
    fn is_fixed() -> bool {
        <(A, (B, C)) as Shape>::is_fixed()
    }

    #[inline]
    fn front(context: Context) -> usize {
        <(A, (B, C)) as Shape>::front(context)
    }

    #[inline]
    fn read(
        alloc: Global,
        bytes: &[u8],
        at: usize,
        end: u64,
        context: Context,
    ) -> Result<(Self::Value, usize)> {
        <(A, (B, C)) as Shape>::read(alloc, bytes, at, end, context)
    }
}

impl<A, B, C, T: Copy, U: Copy, V: Copy> PutShape<(T, (U, V))> for (A, B, C)
where
    A: PutShape<T>,
    B: PutShape<U>,
    C: PutShape<V>,
{
    ghost content = { ⟦<(A, (B, C)) as PutShape<(T, (U, V))>>⟧.content };

    #[inline]
    fn size(context: Context, value: (T, (U, V))) -> u64 {
        <(A, (B, C)) as PutShape<(T, (U, V))>>::size(context, value)
    }

    #[inline]
    fn fits(context: Context, value: (T, (U, V))) -> bool {
        <(A, (B, C)) as PutShape<(T, (U, V))>>::fits(context, value)
    }

    #[inline]
    fn put(out: &mut [u8], at: usize, context: Context, value: (T, (U, V))) -> usize {
        <(A, (B, C)) as PutShape<(T, (U, V))>>::put(out, at, context, value)
    }
}

impl<A: Shape, B: Shape, C: Shape, D: Shape> Shape for (A, B, C, D) {
    type Value = (A::Value, (B::Value, (C::Value, D::Value)));

    ghost shape = { ⟦<(A, (B, C, D)) as Shape>⟧.shape };

    ghost shape_laws = { ⟦<(A, (B, C, D)) as Shape>⟧.shape_laws };

    #[inline]
    fn is_fixed() -> bool {
        <(A, (B, C, D)) as Shape>::is_fixed()
    }

    #[inline]
    fn front(context: Context) -> usize {
        <(A, (B, C, D)) as Shape>::front(context)
    }

    #[inline]
    fn read(
        alloc: Global,
        bytes: &[u8],
        at: usize,
        end: u64,
        context: Context,
    ) -> Result<(Self::Value, usize)> {
        <(A, (B, C, D)) as Shape>::read(alloc, bytes, at, end, context)
    }
}

impl<A, B, C, D, T: Copy, U: Copy, V: Copy, W: Copy> PutShape<(T, (U, (V, W)))> for (A, B, C, D)
where
    A: PutShape<T>,
    B: PutShape<U>,
    C: PutShape<V>,
    D: PutShape<W>,
{
    ghost content = { ⟦<(A, (B, C, D)) as PutShape<(T, (U, (V, W)))>>⟧.content };

    #[inline]
    fn size(context: Context, value: (T, (U, (V, W)))) -> u64 {
        <(A, (B, C, D)) as PutShape<(T, (U, (V, W)))>>::size(context, value)
    }

    #[inline]
    fn fits(context: Context, value: (T, (U, (V, W)))) -> bool {
        <(A, (B, C, D)) as PutShape<(T, (U, (V, W)))>>::fits(context, value)
    }

    #[inline]
    fn put(out: &mut [u8], at: usize, context: Context, value: (T, (U, (V, W)))) -> usize {
        <(A, (B, C, D)) as PutShape<(T, (U, (V, W)))>>::put(out, at, context, value)
    }
}

impl<A: Shape, B: Shape, C: Shape, D: Shape, E: Shape> Shape for (A, B, C, D, E) {
    type Value = (A::Value, (B::Value, (C::Value, (D::Value, E::Value))));

    ghost shape = { ⟦<(A, (B, C, D, E)) as Shape>⟧.shape };

    ghost shape_laws = { ⟦<(A, (B, C, D, E)) as Shape>⟧.shape_laws };

    #[inline]
    fn is_fixed() -> bool {
        <(A, (B, C, D, E)) as Shape>::is_fixed()
    }

    #[inline]
    fn front(context: Context) -> usize {
        <(A, (B, C, D, E)) as Shape>::front(context)
    }

    #[inline]
    fn read(
        alloc: Global,
        bytes: &[u8],
        at: usize,
        end: u64,
        context: Context,
    ) -> Result<(Self::Value, usize)> {
        <(A, (B, C, D, E)) as Shape>::read(alloc, bytes, at, end, context)
    }
}

impl<A, B, C, D, E, T: Copy, U: Copy, V: Copy, W: Copy, X: Copy> PutShape<(T, (U, (V, (W, X))))>
    for (A, B, C, D, E)
where
    A: PutShape<T>,
    B: PutShape<U>,
    C: PutShape<V>,
    D: PutShape<W>,
    E: PutShape<X>,
{
    ghost content = { ⟦<(A, (B, C, D, E)) as PutShape<(T, (U, (V, (W, X))))>>⟧.content };

    #[inline]
    fn size(context: Context, value: (T, (U, (V, (W, X))))) -> u64 {
        <(A, (B, C, D, E)) as PutShape<(T, (U, (V, (W, X))))>>::size(context, value)
    }

    #[inline]
    fn fits(context: Context, value: (T, (U, (V, (W, X))))) -> bool {
        <(A, (B, C, D, E)) as PutShape<(T, (U, (V, (W, X))))>>::fits(context, value)
    }

    #[inline]
    fn put(out: &mut [u8], at: usize, context: Context, value: (T, (U, (V, (W, X))))) -> usize {
        <(A, (B, C, D, E)) as PutShape<(T, (U, (V, (W, X))))>>::put(out, at, context, value)
    }
}
