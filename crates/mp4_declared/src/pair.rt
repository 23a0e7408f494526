//! Two shapes, one after the other.

ghost use Rattle.mp4_declared.specs.Shape.{pair_shape};
ghost use Rattle.mp4_declared.specs.ShapeLaws.{pair_laws};

use crate::context::Context;
use crate::shape::{PutShape, Shape, read_next};
use mp4_frame::Result;
use std::alloc::Global;

impl<A: Shape, B: Shape> Shape for (A, B) {
    type Value = (A::Value, B::Value);

    ghost shape = { pair_shape A.shape B.shape };

    ghost shape_laws = { pair_laws A.shape B.shape A.shape_laws B.shape_laws };

    #[inline]
    fn is_fixed() -> bool {
        A::is_fixed() && B::is_fixed()
    }

    #[inline]
    fn front(context: Context) -> usize {
        if A::is_fixed() {
            A::front(context).saturating_add(B::front(context))
        } else {
            A::front(context)
        }
    }

    #[inline]
    fn read(
        alloc: Global,
        bytes: &[u8],
        at: usize,
        end: u64,
        context: Context,
    ) -> Result<((A::Value, B::Value), usize)> {
        let (first, next) = A::read(alloc, bytes, at, end, context)?;
        let (second, next) = read_next::<B>(alloc, bytes, next, end, context, A::is_fixed())?;
        Ok(((first, second), next))
    }
}

impl<A: PutShape<V>, B: PutShape<W>, V: Copy, W: Copy> PutShape<(V, W)> for (A, B) {
    ghost content = { λ v. (A.content v.0, B.content v.1) };

    #[inline]
    fn size(context: Context, value: (V, W)) -> u64 {
        A::size(context, value.0).saturating_add(B::size(context, value.1))
    }

    #[inline]
    fn fits(context: Context, value: (V, W)) -> bool {
        A::fits(context, value.0) && B::fits(context, value.1)
    }

    #[inline]
    fn put(out: &mut [u8], at: usize, context: Context, value: (V, W)) -> usize {
        let next = A::put(out, at, context, value.0);
        B::put(out, next, context, value.1)
    }
}
