//! The shape of one group of bit fields.

ghost use Rattle.std.specs.Prelude.{◌≡◌, ◌+◌, ◌≤◌, length, slice_index};
ghost use Rattle.mp4_frame.specs.Bytes.{number};
ghost use Rattle.mp4_declared.specs.Bits.{bytes_in, split};
ghost use Rattle.mp4_declared.specs.Layout.{layout_in, widths_of};
ghost use Rattle.mp4_declared.specs.LayoutLaws.{laws_in};
ghost use Rattle.mp4_declared.specs.OptionalShapes.{bits_shape};
ghost use Rattle.mp4_declared.specs.OptionalShapesLaws.{bits_laws};

use crate::bits::{numbers_at, numbers_fit};
use crate::context::Context;
use crate::entries::{EntryLayout, put_row};
use crate::shape::{PutShape, Shape};
use mp4_frame::Result;
use std::alloc::Global;

/// An `X` of `N` numbers in `E` bytes. Each number has a width in bits.
pub struct Bits<X, const N: usize, const E: usize>(X);

/// Returns the `X` whose fields begin at offset `at`.
#[inline]
fn bits_from<X: EntryLayout<N, E>, const N: usize, const E: usize>(bytes: &[u8], at: usize) -> X
    requires { at + E ≤ length bytes.now }
    ensures { result ≡ (layout_in X.layout).value (slice_index
        (split (widths_of X.layout.fields) (number bytes.now at (bytes_in (widths_of X.layout.fields))))) }
{
    let numbers = numbers_at(bytes, at, &X::widths());
    X::from_numbers(&numbers)
}

impl<X: EntryLayout<N, E>, const N: usize, const E: usize> Shape for Bits<X, N, E> {
    type Value = X;

    ghost shape = { bits_shape (layout_in X.layout) E };

    ghost shape_laws = { bits_laws (layout_in X.layout) (laws_in X.layout) };

    #[inline]
    fn is_fixed() -> bool {
        true
    }

    #[inline]
    fn front(_context: Context) -> usize {
        E
    }

    #[inline]
    fn read(
        _alloc: Global,
        bytes: &[u8],
        at: usize,
        _end: u64,
        _context: Context,
    ) -> Result<(X, usize)> {
        Ok((bits_from(bytes, at), at + E))
    }
}

impl<X: EntryLayout<N, E>, const N: usize, const E: usize> PutShape<X> for Bits<X, N, E> {
    ghost content = { λ x. x };

    #[inline]
    fn size(_context: Context, _value: X) -> u64 {
        E as u64
    }

    #[inline]
    fn fits(_context: Context, value: X) -> bool {
        numbers_fit(&X::widths(), &value.numbers())
    }

    #[inline]
    fn put(out: &mut [u8], at: usize, _context: Context, value: X) -> usize {
        put_row(out, at, &value)
    }
}
