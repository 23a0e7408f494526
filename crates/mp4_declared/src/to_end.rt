//! Entries of a fixed length up to the end of a box.

ghost use Rattle.std.specs.Prelude.{◌≡◌, ◌+◌, ◌*◌, ◌<◌, ◌≤◌, IfOk, IfErr, length, map};
ghost use Rattle.mp4_frame.specs.Reading.{AnswersAs};
ghost use Rattle.mp4_frame.specs.declared.error.Error.TheVariants.{OutOfMemory};
ghost use Rattle.mp4_declared.specs.Layout.{layout_in, row_of, entry_of, FitsEntry};
ghost use Rattle.mp4_declared.specs.LayoutLaws.{laws_in, entry_laws};
ghost use Rattle.mp4_declared.specs.ToEnd.{rows_to_end, to_end_shape, code_in, codes_shape};
ghost use Rattle.mp4_declared.specs.ToEnd.{number_in, numbers_shape};
ghost use Rattle.mp4_declared.specs.ToEndLaws.{to_end_laws, codes_laws, numbers_laws};

use crate::{Context, EntryLayout, PutShape, Shape, entries_fit, entries_of, put_rows};
use mp4_frame::{Entries, FourCC, Result, all_fit, check, put_entries, rows_at, u32_at};
use std::alloc::Global;

/// The text of the error for a box that ends inside an entry.
const NOT_FILLED: &str = "entries do not fill the box";

/// Returns the rows of `E` bytes each between the offsets `at` and `end`. Fails with invalid data unless whole rows
/// fill these bytes, and with end of input if the rows aren't all present.
#[tactic(auto, using(crate::proofs::Room::rows_count), unfolding(crate::specs::ToEnd::rows_to_end))]
fn rows_up_to<const E: usize>(bytes: &[u8], at: usize, end: u64) -> Result<&[[u8; E]]>
    requires positive { 0 < E }
    requires reached { at ≤ length bytes.now }
    ensures rows { AnswersAs (λ rows. rows.now) result (rows_to_end E bytes.now at end) }
    ensures within { IfOk result (λ rows. at + length rows.now * E ≤ length bytes.now) }
{
    let available = end.saturating_sub(at as u64);
    check(available % E as u64 == 0, NOT_FILLED)?;
    rows_at::<E>(bytes, at, available / E as u64)
}

/// Entries `X` up to the end of the box, as its last part, each of `N` numbers in `E` bytes. The entries are checked to
/// fill the bytes up to the end.
pub struct ToEnd<X, const N: usize, const E: usize>(X);

impl<X: EntryLayout<N, E>, const N: usize, const E: usize> Shape for ToEnd<X, N, E> {
    type Value = Entries<X>;

    ghost shape = { to_end_shape E (row_of (layout_in X.layout)) (entry_of (layout_in X.layout))
        (FitsEntry (layout_in X.layout)) };

    ghost shape_laws = { to_end_laws E (row_of (layout_in X.layout)) (entry_of (layout_in X.layout))
        (FitsEntry (layout_in X.layout)) (entry_laws (layout_in X.layout) (laws_in X.layout)) };

    #[inline]
    fn is_fixed() -> bool {
        false
    }

    #[inline]
    fn front(_context: Context) -> usize {
        0
    }

    #[inline]
    #[tactic(auto, unfolding(crate::specs::ToEnd::reads_to_end))]
    fn read(
        alloc: Global,
        bytes: &[u8],
        at: usize,
        end: u64,
        _context: Context,
    ) -> Result<(Entries<X>, usize)> {
        let rows = rows_up_to::<E>(bytes, at, end)?;
        let entries = entries_of(alloc, rows)?.into();
        Ok((entries, at + rows.len() * E))
    }
}

impl<'a, X: EntryLayout<N, E>, const N: usize, const E: usize> PutShape<&'a [X]>
    for ToEnd<X, N, E> {
    ghost content = { λ entries. entries.now };

    #[inline]
    fn size(_context: Context, value: &'a [X]) -> u64 {
        (value.len() as u64).saturating_mul(E as u64)
    }

    #[inline]
    fn fits(_context: Context, value: &'a [X]) -> bool {
        entries_fit(value)
    }

    #[inline]
    fn put(out: &mut [u8], at: usize, _context: Context, value: &'a [X]) -> usize {
        put_rows(out, at, value)
    }
}

/// Four-character codes up to the end of the box, as its last part. The codes are checked to fill the bytes up to the
/// end.
pub struct Codes;

/// Returns the codes in `rows`. The only error is out of memory.
fn codes_of(alloc: Global, rows: &[[u8; 4]]) -> Result<Vec<FourCC>>
    ensures value { IfOk result (λ codes. codes.items ≡ map code_in rows.now) }
    ensures memory { IfErr result (λ e. e ≡ OutOfMemory) }
{
    let codes: Vec<FourCC> = rows
        .iter()
        .map(
            |row: &[u8; 4]| -> FourCC
                ensures { result ≡ code_in row.now }
            { FourCC { value: *row } },
        )
        .collect(alloc)?;
    Ok(codes)
}

impl Shape for Codes {
    type Value = Entries<FourCC>;

    ghost shape = { codes_shape };

    ghost shape_laws = { codes_laws };

    #[inline]
    fn is_fixed() -> bool {
        false
    }

    #[inline]
    fn front(_context: Context) -> usize {
        0
    }

    #[inline]
    #[tactic(auto, unfolding(crate::specs::ToEnd::reads_to_end))]
    fn read(
        alloc: Global,
        bytes: &[u8],
        at: usize,
        end: u64,
        _context: Context,
    ) -> Result<(Entries<FourCC>, usize)> {
        let rows = rows_up_to::<4>(bytes, at, end)?;
        let codes = codes_of(alloc, rows)?.into();
        Ok((codes, at + rows.len() * 4))
    }
}

impl<'a> PutShape<&'a [FourCC]> for Codes {
    ghost content = { λ codes. codes.now };

    #[inline]
    fn size(_context: Context, value: &'a [FourCC]) -> u64 {
        (value.len() as u64).saturating_mul(4)
    }

    #[inline]
    fn fits(_context: Context, value: &'a [FourCC]) -> bool {
        all_fit(value)
    }

    #[inline]
    fn put(out: &mut [u8], at: usize, _context: Context, value: &'a [FourCC]) -> usize {
        put_entries(out, at, value)
    }
}

/// Numbers of four bytes up to the end of the box, as its last part. The numbers are checked to fill the bytes up to
/// the end.
pub struct Numbers;

/// Returns the numbers in `rows`. The only error is out of memory.
fn numbers_in(alloc: Global, rows: &[[u8; 4]]) -> Result<Vec<u32>>
    ensures value { IfOk result (λ numbers. numbers.items ≡ map number_in rows.now) }
    ensures memory { IfErr result (λ e. e ≡ OutOfMemory) }
{
    let numbers: Vec<u32> = rows
        .iter()
        .map(
            |row: &[u8; 4]| -> u32
                ensures { result ≡ number_in row.now }
            { u32_at(row, 0) },
        )
        .collect(alloc)?;
    Ok(numbers)
}

impl Shape for Numbers {
    type Value = Entries<u32>;

    ghost shape = { numbers_shape };

    ghost shape_laws = { numbers_laws };

    #[inline]
    fn is_fixed() -> bool {
        false
    }

    #[inline]
    fn front(_context: Context) -> usize {
        0
    }

    #[inline]
    #[tactic(auto, unfolding(crate::specs::ToEnd::reads_to_end))]
    fn read(
        alloc: Global,
        bytes: &[u8],
        at: usize,
        end: u64,
        _context: Context,
    ) -> Result<(Entries<u32>, usize)> {
        let rows = rows_up_to::<4>(bytes, at, end)?;
        let numbers = numbers_in(alloc, rows)?.into();
        Ok((numbers, at + rows.len() * 4))
    }
}

impl<'a> PutShape<&'a [u32]> for Numbers {
    ghost content = { λ numbers. numbers.now };

    #[inline]
    fn size(_context: Context, value: &'a [u32]) -> u64 {
        (value.len() as u64).saturating_mul(4)
    }

    #[inline]
    fn fits(_context: Context, value: &'a [u32]) -> bool {
        all_fit(value)
    }

    #[inline]
    fn put(out: &mut [u8], at: usize, _context: Context, value: &'a [u32]) -> usize {
        put_entries(out, at, value)
    }
}
