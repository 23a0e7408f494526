//! Rows of bytes, and the entries in them.

ghost use Rattle.std.specs.Prelude.{◌≡◌, ℕ, ◌≤◌, ◌<◌, ◌+◌, ◌++◌, IfOk, IfErr, List, length, map, vec_capacity, vec_len};
ghost use Rattle.mp4_frame.specs.Bytes.{number};
ghost use Rattle.mp4_frame.specs.Reading.{AnswersAs};
ghost use Rattle.mp4_tables.specs.Rows.{rows_within};

use mp4_frame::{ByteCursor, Error, Result, check, u32_at, u64_at};
use std::alloc::Global;

/// Returns the `count` rows of `E` bytes each that start at offset `at` of `bytes`. Fails with invalid data and the
/// text `too_many` if a box of `size` bytes has no room for them. Fails with end of input unless `bytes` has all of
/// them.
#[tactic(auto, using(mp4_lemmas::proofs::Numbers::same_room), unfolding(crate::specs::Rows::rows_within))]
pub fn read_rows<'a, const E: usize>(
    bytes: &'a [u8],
    size: u64,
    at: usize,
    count: u64,
    too_many: &'static str,
) -> Result<&'a [[u8; E]]>
    requires { 0 < E }
    ensures { AnswersAs (λ rows. rows.now) result (rows_within bytes.now size at E count) }
{
    check(count <= size.saturating_sub(at as u64) / E as u64, too_many)?;
    let mut cursor = ByteCursor::new(bytes);
    cursor.set_position(at as u64);
    cursor.take_rows::<E>(count)
}

/// Appends the 4-byte number at offset `at` of each row to `numbers`. The vector must have room for them.
pub(crate) fn append_numbers<const E: usize>(numbers: &mut Vec<u32>, rows: &[[u8; E]], at: usize)
    requires within { at + 4 ≤ E }
    requires room { vec_len numbers.old + length rows.now ≤ vec_capacity numbers.old }
    ensures appended { numbers.new.items ≡ numbers.old.items ++ map (λ row. number row at 4) rows.now }
    ensures capacity { vec_capacity numbers.new ≡ vec_capacity numbers.old }
{
    for row in rows {
        numbers.push_reserved(u32_at(row, at));
    }
}

/// A type of entries, each of which is read from a row of `E` bytes.
pub(crate) trait RowEntry<const E: usize>: Drop {
    /// The entry whose row has these bytes.
    ghost entry_of: { List ℕ → Self };

    /// Returns the entry in `row`.
    fn from_row(row: &[u8; E]) -> Self
        ensures { result ≡ entry_of row.now };
}

impl RowEntry<4> for u32 {
    ghost entry_of = { λ bytes. number bytes 0 4 };

    fn from_row(row: &[u8; 4]) -> u32 {
        u32_at(row, 0)
    }
}

impl RowEntry<8> for u64 {
    ghost entry_of = { λ bytes. number bytes 0 8 };

    fn from_row(row: &[u8; 8]) -> u64 {
        u64_at(row, 0)
    }
}

/// Returns the entry in each of `rows`. It asks for all memory before the loop, so that no step of the loop can fail.
/// It is not inlined, so that the loop keeps its constants in registers. The only error is out of memory.
#[inline(never)]
pub(crate) fn entries_of<T: RowEntry<E>, const E: usize>(
    alloc: Global,
    rows: &[[u8; E]],
) -> Result<Vec<T>>
    ensures value { IfOk result (λ entries. entries.items ≡ map T.entry_of rows.now) }
    ensures memory { IfErr result (λ e. e ≡ Error.OutOfMemory) }
{
    let mut entries = Vec::with_capacity(alloc, rows.len())?;
    for row in rows {
        entries.push_reserved(T::from_row(row));
    }
    Ok(entries)
}
