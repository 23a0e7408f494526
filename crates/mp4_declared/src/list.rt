//! Counted lists of entries of numbers.

ghost use Rattle.std.specs.Prelude.{◌≡◌, ℕ, ◌+◌, ◌*◌, ◌<◌, ◌≤◌, ◌^◌, ◌↔◌, length, IfOk, IsTrue};
ghost use Rattle.mp4_frame.specs.Reading.{AnswersAs};
ghost use Rattle.mp4_declared.specs.Layout.{layout_in, row_of, entry_of, FitsEntry};
ghost use Rattle.mp4_declared.specs.LayoutLaws.{laws_in, entry_laws};
ghost use Rattle.mp4_declared.specs.ListLaws.{list_laws};
ghost use Rattle.mp4_declared.specs.Shape.{rows_within, list_shape};
ghost use Rattle.std.proofs.Common.{lit≤};

use crate::bits::{fits, number_at, put_number};
use crate::context::Context;
use crate::entries::{EntryLayout, entries_fit, entries_of, put_rows};
use crate::number::{U8, U16, U32};
use crate::shape::{PutShape, Shape};
use mp4_frame::{Entries, Result, check, rows_at};
use std::alloc::Global;

/// The shape of a count.
pub trait Count {
    /// Its width in bytes.
    ghost WIDTH: { ℕ };

    /// Its width in bytes.
    const WIDTH: usize;

    /// The width is 1, 2, 3 or 4.
    ghost is_short: { (1 ≤ WIDTH) × (WIDTH ≤ 4) };
}

impl Count for U8 {
    ghost WIDTH = { 1 };

    const WIDTH: usize = 1;

    ghost is_short = { (lit≤ tt, lit≤ tt) };
}

impl Count for U16 {
    ghost WIDTH = { 2 };

    const WIDTH: usize = 2;

    ghost is_short = { (lit≤ tt, lit≤ tt) };
}

impl Count for U32 {
    ghost WIDTH = { 4 };

    const WIDTH: usize = 4;

    ghost is_short = { (lit≤ tt, lit≤ tt) };
}

/// Returns whether the count `n` fits its bytes.
#[inline]
pub(crate) fn count_fits<C: Count>(n: u64) -> bool
    ensures { IsTrue result ↔ (n < 256 ^ C.WIDTH) }
{
    fits(n, 8 * C::WIDTH)
}

/// Returns `count` rows of `E` bytes each, the first at offset `at`. Fails with invalid data if they would end after
/// `end`, the end of the box, and with end of input if they aren't all present.
#[tactic(auto, using(mp4_lemmas::proofs::Numbers::same_room, crate::proofs::Room::rows_count), unfolding(crate::specs::Shape::rows_within))]
pub(crate) fn read_rows<const E: usize>(
    bytes: &[u8],
    end: u64,
    at: usize,
    count: u64,
) -> Result<&[[u8; E]]>
    requires positive { 0 < E }
    requires reached { at ≤ length bytes.now }
    ensures rows { AnswersAs (λ rows. rows.now) result (rows_within bytes.now end at E count) }
    ensures within { IfOk result (λ rows. at + length rows.now * E ≤ length bytes.now) }
{
    check(
        count <= end.saturating_sub(at as u64) / E as u64,
        "count indicates more entries than could fit in the box",
    )?;
    rows_at::<E>(bytes, at, count)
}

/// A count of the shape `C`, and that many entries `X`, each of `N` numbers in `E` bytes.
pub struct List<C, X, const N: usize, const E: usize>(C, X);

impl<C: Count, X: EntryLayout<N, E>, const N: usize, const E: usize> Shape for List<C, X, N, E> {
    type Value = Entries<X>;

    ghost shape = { list_shape C.WIDTH E (row_of (layout_in X.layout)) (entry_of (layout_in X.layout))
        (FitsEntry (layout_in X.layout)) };

    ghost shape_laws = { list_laws C.WIDTH E (row_of (layout_in X.layout)) (entry_of (layout_in X.layout))
        (FitsEntry (layout_in X.layout)) (entry_laws (layout_in X.layout) (laws_in X.layout)) };

    #[inline]
    fn is_fixed() -> bool {
        false
    }

    #[inline]
    fn front(_context: Context) -> usize {
        C::WIDTH
    }

    #[inline]
    #[tactic(auto, unfolding(crate::specs::Shape::reads_entries))]
    fn read(
        alloc: Global,
        bytes: &[u8],
        at: usize,
        end: u64,
        _context: Context,
    ) -> Result<(Entries<X>, usize)> {
        let count = number_at(bytes, at, C::WIDTH);
        let rows = read_rows::<E>(bytes, end, at + C::WIDTH, count)?;
        let entries = entries_of(alloc, rows)?.into();
        Ok((entries, at + C::WIDTH + rows.len() * E))
    }
}

impl<'a, C: Count, X: EntryLayout<N, E>, const N: usize, const E: usize> PutShape<&'a [X]>
    for List<C, X, N, E> {
    ghost content = { λ entries. entries.now };

    #[inline]
    fn size(_context: Context, value: &'a [X]) -> u64 {
        (value.len() as u64)
            .saturating_mul(E as u64)
            .saturating_add(C::WIDTH as u64)
    }

    #[inline]
    fn fits(_context: Context, value: &'a [X]) -> bool {
        count_fits::<C>(value.len() as u64) && entries_fit(value)
    }

    #[inline]
    fn put(out: &mut [u8], at: usize, _context: Context, value: &'a [X]) -> usize {
        let next = put_number(out, at, value.len() as u64, C::WIDTH);
        put_rows(out, next, value)
    }
}
