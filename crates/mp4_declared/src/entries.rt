//! Entries of numbers, and their rows of bytes. Widths are in bits.

ghost use Rattle.std.specs.Prelude.{◌≡◌, ℕ, ◌<◌, ◌≤◌, ◌+◌, ◌*◌, ◌^◌, ◌++◌, ◌↔◌, All, IfOk, IfErr, IsTrue, flat_map};
ghost use Rattle.std.specs.Prelude.{length, map, slice_index, take};
ghost use Rattle.mp4_declared.specs.Layout.{OwnEntry, layout_in, row_of, entry_of, FitsEntry};
ghost use Rattle.mp4_declared.specs.Layout.{widths_of, numbers_of, values_of};

use crate::bits::{numbers_at, numbers_fit, put_numbers};
use mp4_frame::{Error, Result};
use std::alloc::Global;

/// An entry of `N` numbers, in a row of `E` bytes.
pub trait EntryLayout<const N: usize, const E: usize>: Copy + Drop {
    /// Its fields, the content of an entry, and the entry that is made from some content.
    ghost layout: { OwnEntry Self E };

    /// Returns the widths of its fields, in bits.
    fn widths() -> [u8; N]
        ensures { result ≡ widths_of layout.fields };

    /// Returns the numbers in its fields.
    fn numbers(&self) -> [u64; N]
        ensures { result ≡ numbers_of layout.fields (layout.content self.now) };

    /// Creates the entry with these `numbers` in its fields.
    fn from_numbers(numbers: &[u64; N]) -> Self
        requires { (k : ℕ) → slice_index numbers.now k < 2 ^ slice_index (widths_of layout.fields) k }
        ensures { result ≡ layout.value (values_of layout.fields (slice_index numbers.now)) };

    /// An array of its numbers fits in memory.
    ghost few: { N * 8 < 2 ^ 63 };
}

/// Returns the entry in `row`.
fn entry_at<X: EntryLayout<N, E>, const N: usize, const E: usize>(row: &[u8; E]) -> X
    ensures { result ≡ entry_of (layout_in X.layout) row.now }
{
    let numbers = numbers_at(row, 0, &X::widths());
    X::from_numbers(&numbers)
}

/// Returns the entries in `rows`. The only error is out of memory.
pub fn entries_of<X: EntryLayout<N, E>, const N: usize, const E: usize>(
    alloc: Global,
    rows: &[[u8; E]],
) -> Result<Vec<X>>
    ensures value { IfOk result (λ entries. entries.items ≡ map (entry_of (layout_in X.layout)) rows.now) }
    ensures memory { IfErr result (λ e. e ≡ Error.OutOfMemory) }
{
    let entries: Vec<X> = rows
        .iter()
        .map(
            |row: &[u8; E]| -> X
                ensures { result ≡ entry_of (layout_in X.layout) row.now }
            { entry_at(row) },
        )
        .collect(alloc)?;
    Ok(entries)
}

/// Returns whether the numbers of each entry fit their fields.
pub fn entries_fit<X: EntryLayout<N, E>, const N: usize, const E: usize>(entries: &[X]) -> bool
    ensures { IsTrue result ↔ All (FitsEntry (layout_in X.layout)) entries.now }
{
    entries.iter().all(
        |entry: &X| -> bool
            ensures { IsTrue result ↔ FitsEntry (layout_in X.layout) entry.now }
        { numbers_fit(&X::widths(), &entry.numbers()) },
    )
}

/// Puts the row of `entry`, and returns the offset after it.
pub(crate) fn put_row<X: EntryLayout<N, E>, const N: usize, const E: usize>(
    out: &mut [u8],
    at: usize,
    entry: &X,
) -> usize
    requires fits { FitsEntry (layout_in X.layout) entry.now }
    requires room { at + E ≤ length out.old }
    ensures next { result ≡ at + E }
    ensures put { take result out.new ≡ take at out.old ++ row_of (layout_in X.layout) entry.now }
{
    put_numbers(out, at, &X::widths(), &entry.numbers())
}

/// Puts the rows of `entries`, and returns the offset after them.
pub fn put_rows<X: EntryLayout<N, E>, const N: usize, const E: usize>(
    out: &mut [u8],
    at: usize,
    entries: &[X],
) -> usize
    requires fit { All (FitsEntry (layout_in X.layout)) entries.now }
    requires room { at + E * length entries.now ≤ length out.old }
    ensures next { result ≡ at + E * length entries.now }
    ensures put { take result out.new ≡ take at out.old ++ flat_map (row_of (layout_in X.layout)) entries.now }
{
    let mut next = at;
    for entry in entries {
        next = put_row(out, next, entry);
    }
    next
}
