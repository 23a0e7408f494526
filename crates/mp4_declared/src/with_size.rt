//! A size, and a shape that ends where the size says.

ghost use Rattle.std.specs.Prelude.{◌≡◌, ◌+◌, ◌<◌, ◌^◌};
ghost use Rattle.mp4_declared.specs.WithSize.{with_size_shape};
ghost use Rattle.mp4_declared.specs.WithSizeLaws.{with_size_laws};

use crate::typed::read_after;
use crate::{Context, PutShape, Shape};
use mp4_frame::{Result, check, put_u32, u32_at};
use std::alloc::Global;

/// The text of the error for a size that differs from the length of its entry, or reaches past the end of the box.
pub const WRONG_SIZE: &str = "size of an entry is too small or too large";

/// A size of four bytes, which counts itself, and an `S` that ends where the size says, as a box does. Inside the `S`,
/// a part that reaches to the end of the box, such as `Rest`, reaches to that end instead.
pub struct WithSize<S>(S);

impl<S: Shape> Shape for WithSize<S> {
    type Value = S::Value;

    ghost shape = { with_size_shape S.shape };

    ghost shape_laws = { with_size_laws S.shape S.shape_laws };

    #[inline]
    fn is_fixed() -> bool {
        false
    }

    #[inline]
    fn front(_context: Context) -> usize {
        4
    }

    #[inline]
    #[tactic(auto, unfolding(crate::specs::WithSize::reads_sized))]
    fn read(
        alloc: Global,
        bytes: &[u8],
        at: usize,
        end: u64,
        context: Context,
    ) -> Result<(S::Value, usize)> {
        let size = u32_at(bytes, at);
        let last = at as u64 + u64::from(size);
        check(4 <= size && last <= end, WRONG_SIZE)?;
        let (value, next) = read_after::<S>(alloc, bytes, at + 4, last, context)?;
        check(next as u64 == last, WRONG_SIZE)?;
        Ok((value, next))
    }
}

/// Returns the number of bytes of `value`, plus the four of its size.
#[inline]
fn size_of<S: PutShape<V>, V: Copy>(context: Context, value: V) -> u32
    requires fits { 4 + S.shape.size context (S.content value) < 2 ^ 32 }
    ensures { result ≡ 4 + S.shape.size context (S.content value) }
{
    4 + S::size(context, value) as u32
}

impl<S: PutShape<V>, V: Copy> PutShape<V> for WithSize<S> {
    ghost content = { S.content };

    #[inline]
    fn size(context: Context, value: V) -> u64 {
        S::size(context, value).saturating_add(4)
    }

    #[inline]
    fn fits(context: Context, value: V) -> bool {
        S::fits(context, value) && S::size(context, value).saturating_add(4) < 1 << 32
    }

    #[inline]
    fn put(out: &mut [u8], at: usize, context: Context, value: V) -> usize {
        let next = put_u32(out, at, size_of::<S, V>(context, value));
        S::put(out, next, context, value)
    }
}
