//! A tag of four bytes, which decides the shape after it.

ghost use Rattle.std.specs.Prelude.{◌≡◌, ℕ, ◌+◌, ◌<◌, ◌≤◌, ◌^◌, true, IfOk, length};
ghost use Rattle.mp4_frame.specs.Reading.{AnswersAs};
ghost use Rattle.mp4_declared.specs.Typed.{typed_shape, map_type};
ghost use Rattle.mp4_declared.specs.TypedLaws.{typed_laws};

use crate::{Context, PutShape, Shape};
use mp4_frame::{Error, Result, put_u32, u32_at};
use std::alloc::Global;

/// One value of a tag.
pub trait Tag {
    /// The value.
    ghost TAG: { ℕ };

    /// The value.
    const TAG: u32;

    /// The value has 32 bits.
    ghost is_small: { TAG < 256 ^ 4 };
}

/// The value after a tag of four bytes.
#[derive(Clone, Copy, Debug, Drop, PartialEq, Eq)]
pub enum OfType<A, B> {
    /// The value after the one tag of the shape.
    Own(A),
    /// Another tag, and the value after it.
    Other(u32, B),
}

/// A tag of four bytes, and an `S` if it is `K::TAG`, or a `T` if it is another.
pub struct Typed<K, S, T>(K, S, T);

impl<K: Tag, S: Shape, T: Shape> Shape for Typed<K, S, T> {
    type Value = OfType<S::Value, T::Value>;

    ghost shape = { typed_shape K.TAG S.shape T.shape };

    ghost shape_laws = { typed_laws K.TAG S.shape T.shape S.shape_laws T.shape_laws K.is_small };

    #[inline]
    fn is_fixed() -> bool {
        false
    }

    #[inline]
    fn front(_context: Context) -> usize {
        4
    }

    #[inline]
    fn read(
        alloc: Global,
        bytes: &[u8],
        at: usize,
        end: u64,
        context: Context,
    ) -> Result<(OfType<S::Value, T::Value>, usize)> {
        let tag = u32_at(bytes, at);
        if tag == K::TAG {
            let (value, next) = read_after::<S>(alloc, bytes, at + 4, end, context)?;
            Ok((OfType::Own(value), next))
        } else {
            let (value, next) = read_after::<T>(alloc, bytes, at + 4, end, context)?;
            Ok((OfType::Other(tag, value), next))
        }
    }
}

/// Reads a value at offset `at`, after checking that its front is present.
#[inline]
pub(crate) fn read_after<S: Shape>(
    alloc: Global,
    bytes: &[u8],
    at: usize,
    end: u64,
    context: Context,
) -> Result<(S::Value, usize)>
    requires valid { S.shape.valid ≡ true }
    requires inside { 0 < at }
    requires reached { at ≤ length bytes.now }
    ensures value { AnswersAs (λ r. r.0) result (S.shape.reads context bytes.now at end) }
    ensures next { IfOk result (λ r. r.1 ≡ at + S.shape.size context r.0) }
    ensures within { IfOk result (λ r. r.1 ≤ length bytes.now) }
{
    if bytes.len() - at < S::front(context) {
        return Err(Error::IoError);
    }
    S::read(alloc, bytes, at, end, context)
}

impl<K: Tag, S: PutShape<V>, T: PutShape<W>, V: Copy, W: Copy> PutShape<OfType<V, W>>
    for Typed<K, S, T> {
    ghost content = { map_type S.content T.content };

    #[inline]
    fn size(context: Context, value: OfType<V, W>) -> u64 {
        match value {
            OfType::Own(value) => S::size(context, value).saturating_add(4),
            OfType::Other(_, value) => T::size(context, value).saturating_add(4),
        }
    }

    #[inline]
    fn fits(context: Context, value: OfType<V, W>) -> bool {
        match value {
            OfType::Own(value) => S::fits(context, value),
            OfType::Other(tag, value) => tag != K::TAG && T::fits(context, value),
        }
    }

    #[inline]
    fn put(out: &mut [u8], at: usize, context: Context, value: OfType<V, W>) -> usize {
        match value {
            OfType::Own(value) => {
                let next = put_u32(out, at, K::TAG);
                S::put(out, next, context, value)
            }
            OfType::Other(tag, value) => {
                let next = put_u32(out, at, tag);
                T::put(out, next, context, value)
            }
        }
    }
}
