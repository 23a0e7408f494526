//! Bit fields, and a shape that may depend on them.

ghost use Rattle.std.specs.Prelude.{◌≡◌};
ghost use Rattle.mp4_declared.specs.Layout.{layout_in};
ghost use Rattle.mp4_declared.specs.LayoutLaws.{laws_in};
ghost use Rattle.mp4_declared.specs.OptionalShapes.{bits_shape};
ghost use Rattle.mp4_declared.specs.OptionalShapesLaws.{bits_laws};
ghost use Rattle.mp4_declared.specs.declared.context.Context.{Context};
ghost use Rattle.mp4_declared.specs.Dependent.{dependent_shape};
ghost use Rattle.mp4_declared.specs.DependentLaws.{dependent_laws};

use crate::after::read_after;
use crate::bit_fields::Bits;
use crate::context::Context;
use crate::entries::EntryLayout;
use crate::shape::{PutShape, Shape};
use mp4_frame::Result;
use std::alloc::Global;

/// Bit fields that decide what follows them.
pub trait HasContext {
    /// The version and flags that what follows sees.
    ghost context_of: { Self → Context };

    /// Returns the version and flags that what follows sees.
    fn context(&self) -> Context
        ensures { result ≡ context_of self.now };
}

/// The bit fields of an `X`, and an `S` whose version and flags follow from them.
pub struct Dependent<X, S, const N: usize, const E: usize>(X, S);

impl<X, S: Shape, const N: usize, const E: usize> Shape for Dependent<X, S, N, E>
where
    X: EntryLayout<N, E> + HasContext,
{
    type Value = (X, S::Value);

    ghost shape = { dependent_shape (bits_shape (layout_in X.layout) E) X.context_of S.shape };

    ghost shape_laws = { dependent_laws (bits_shape (layout_in X.layout) E) X.context_of S.shape
        (bits_laws (layout_in X.layout) (laws_in X.layout)) S.shape_laws };

    #[inline]
    fn is_fixed() -> bool {
        false
    }

    #[inline]
    fn front(_context: Context) -> usize {
        E
    }

    #[inline]
    fn read(
        alloc: Global,
        bytes: &[u8],
        at: usize,
        end: u64,
        context: Context,
    ) -> Result<((X, S::Value), usize)> {
        let (fields, next) = Bits::<X, N, E>::read(alloc, bytes, at, end, context)?;
        let (value, next) = read_after::<S>(alloc, bytes, next, end, fields.context())?;
        Ok(((fields, value), next))
    }
}

impl<X, S: PutShape<V>, V: Copy, const N: usize, const E: usize> PutShape<(X, V)>
    for Dependent<X, S, N, E>
where
    X: EntryLayout<N, E> + HasContext,
{
    ghost content = { λ v. (v.0, S.content v.1) };

    #[inline]
    fn size(_context: Context, value: (X, V)) -> u64 {
        let (fields, value) = value;
        S::size(fields.context(), value).saturating_add(E as u64)
    }

    #[inline]
    fn fits(context: Context, value: (X, V)) -> bool {
        let (fields, value) = value;
        <Bits<X, N, E> as PutShape<X>>::fits(context, fields) && S::fits(fields.context(), value)
    }

    #[inline]
    fn put(out: &mut [u8], at: usize, context: Context, value: (X, V)) -> usize {
        let (fields, value) = value;
        let next = <Bits<X, N, E> as PutShape<X>>::put(out, at, context, fields);
        S::put(out, next, fields.context(), value)
    }
}
