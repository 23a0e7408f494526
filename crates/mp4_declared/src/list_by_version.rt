//! Counted lists whose entries have another width in version 0.

ghost use Rattle.mp4_declared.specs.ByVersion.{by_version_shape};
ghost use Rattle.mp4_declared.specs.ByVersionLaws.{by_version_laws};

use crate::{Context, Count, EntryLayout, List, PutShape, Shape};
use mp4_frame::{Entries, Result};
use std::alloc::Global;

/// A count of the shape `C`, and that many entries `X` of `N` numbers each. An entry has `E` bytes in version 0, and
/// `F` bytes in later versions.
pub struct ListByVersion<C, X, const N: usize, const E: usize, const F: usize>(C, X);

impl<C: Count, X, const N: usize, const E: usize, const F: usize> Shape
    for ListByVersion<C, X, N, E, F>
where
    X: EntryLayout<N, E> + EntryLayout<N, F>,
{
    type Value = Entries<X>;

    ghost shape = { by_version_shape ⟦<List<C, X, N, E> as Shape>⟧.shape ⟦<List<C, X, N, F> as Shape>⟧.shape };

    ghost shape_laws = { by_version_laws ⟦<List<C, X, N, E> as Shape>⟧.shape ⟦<List<C, X, N, F> as Shape>⟧.shape
        ⟦<List<C, X, N, E> as Shape>⟧.shape_laws ⟦<List<C, X, N, F> as Shape>⟧.shape_laws };

    #[inline]
    fn is_fixed() -> bool {
        false
    }

    #[inline]
    fn front(context: Context) -> usize {
        if context.version == 0 {
            List::<C, X, N, E>::front(context)
        } else {
            List::<C, X, N, F>::front(context)
        }
    }

    #[inline]
    fn read(
        alloc: Global,
        bytes: &[u8],
        at: usize,
        end: u64,
        context: Context,
    ) -> Result<(Entries<X>, usize)> {
        if context.version == 0 {
            List::<C, X, N, E>::read(alloc, bytes, at, end, context)
        } else {
            List::<C, X, N, F>::read(alloc, bytes, at, end, context)
        }
    }
}

impl<'a, C: Count, X, const N: usize, const E: usize, const F: usize> PutShape<&'a [X]>
    for ListByVersion<C, X, N, E, F>
where
    X: EntryLayout<N, E> + EntryLayout<N, F>,
{
    ghost content = { λ entries. entries.now };

    #[inline]
    fn size(context: Context, entries: &'a [X]) -> u64 {
        if context.version == 0 {
            List::<C, X, N, E>::size(context, entries)
        } else {
            List::<C, X, N, F>::size(context, entries)
        }
    }

    #[inline]
    fn fits(context: Context, entries: &'a [X]) -> bool {
        if context.version == 0 {
            List::<C, X, N, E>::fits(context, entries)
        } else {
            List::<C, X, N, F>::fits(context, entries)
        }
    }

    #[inline]
    fn put(out: &mut [u8], at: usize, context: Context, entries: &'a [X]) -> usize {
        if context.version == 0 {
            List::<C, X, N, E>::put(out, at, context, entries)
        } else {
            List::<C, X, N, F>::put(out, at, context, entries)
        }
    }
}
