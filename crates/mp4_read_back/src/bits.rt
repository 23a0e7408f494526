//! Bit fields, and lists of entries of bit fields.

ghost use Rattle.std.specs.Prelude.{◌≡◌, List as Listed, ◌^◌};
ghost use Rattle.mp4_read_back.specs.BitLaws.{any_rows_come, bits_come, rows_come};
ghost use Rattle.mp4_read_back.specs.BitParts.{RowNames, any_rows_part, bits_part, numbers_in, rows_part};
ghost use Rattle.mp4_read_back.specs.StructLaws.{rows_by_version, rows_come_by_version};
ghost use Rattle.mp4_declared.specs.Layout.{OwnEntry};
ghost use Rattle.mp4_shown.specs.Numbers.{NumberNames};

use crate::ComesBack;
use mp4_declared::{Bits, Count, EntryLayout, List, ListByVersion, ToEnd};

impl<X: EntryLayout<N, E>, const N: usize, const E: usize> ComesBack for Bits<X, N, E> {
    ghost Names = { NumberNames };

    ghost Value = { X };

    ghost part = { bits_part X.layout };

    ghost comes = { bits_come X.layout };
}

impl<C: Count, X: EntryLayout<N, E>, const N: usize, const E: usize> ComesBack
    for List<C, X, N, E> {
    ghost Names = { RowNames };

    ghost Value = { Listed X };

    ghost part = { rows_part (256 ^ C.WIDTH) X.layout };

    ghost comes = { rows_come C.WIDTH C.is_short X.layout };
}

impl<X: EntryLayout<N, E>, const N: usize, const E: usize> ComesBack for ToEnd<X, N, E> {
    ghost Names = { RowNames };

    ghost Value = { Listed X };

    ghost part = { any_rows_part X.layout };

    ghost comes = { any_rows_come X.layout };
}

/// An entry with the same numbers in `E` bytes and in `F` bytes.
pub trait SameNumbers<const N: usize, const E: usize, const F: usize>: Sized {
    /// The layout in `E` bytes.
    ghost short: { OwnEntry Self E };

    /// The layout in `F` bytes.
    ghost long: { OwnEntry Self F };

    /// The numbers are the same.
    ghost same: { (x : Self) → numbers_in short x ≡ numbers_in long x };
}

/// The entries have `E` bytes in version 0, and `F` in later versions.
impl<C: Count, X, const N: usize, const E: usize, const F: usize> ComesBack
    for ListByVersion<C, X, N, E, F>
where
    X: EntryLayout<N, E> + EntryLayout<N, F> + SameNumbers<N, E, F>,
{
    ghost Names = { RowNames };

    ghost Value = { Listed X };

    ghost part = { rows_by_version (256 ^ C.WIDTH) X.SameNumbers.short X.SameNumbers.long };

    ghost comes = { rows_come_by_version C.WIDTH C.is_short X.SameNumbers.short X.SameNumbers.long X.SameNumbers.same };
}
