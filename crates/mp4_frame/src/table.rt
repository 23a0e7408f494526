//! Boxes with one counted table: version, flags, a count, and `count` rows of one length.

ghost use Rattle.std.specs.Prelude.{◌≡◌, ℕ, ◌≤◌, ◌<◌, ◌+◌, ◌*◌, ◌-◌, ◌^◌, ◌++◌, ◌↔◌, min, All, IsTrue, List, length};
ghost use Rattle.std.specs.Prelude.{take, flat_map};
ghost use Rattle.mp4_frame.specs.Bytes.{be_bytes};
ghost use Rattle.mp4_frame.specs.Reading.{AnswersAs};
ghost use Rattle.mp4_frame.specs.Tables.{counted_rows, size_table, WritableTable, bytes_table};

use crate::byte_cursor::ByteCursor;
use crate::error::Result;
use crate::number::{u8_at, u24_at, u32_at};
use crate::put::{put_bytes, put_full_box, put_u32};
use crate::reading::{check, expect_bytes};

/// An entry of a table. Its row has `E` bytes.
pub trait TableEntry<const E: usize>: Copy {
    /// The bytes of an entry's row.
    ghost row_of: { Self → List ℕ };

    /// The condition that an entry's numbers fit their fields in the row.
    ghost Fits: { Self → Type 0 };

    /// Returns the bytes of the entry's row.
    fn to_row(&self) -> [u8; E]
        ensures { result ≡ row_of self.now };

    /// Returns whether the entry's numbers fit their fields. The result is always `true` where the fields fill their
    /// types. For the prover: a value that was read has the range of its type.
    fn fits(&self) -> bool
        ensures { IsTrue result ↔ Fits self.now };
}

impl TableEntry<4> for u32 {
    ghost row_of = { λ x. be_bytes 4 x };

    ghost Fits = { λ x. x < 2 ^ 32 };

    #[tactic(auto, unfolding(crate::specs::Bytes::be_bytes))]
    fn to_row(&self) -> [u8; 4] {
        self.to_be_bytes()
    }

    fn fits(&self) -> bool {
        // For the prover: a value that was read has the range of its type.
        let _entry = *self;
        true
    }
}

impl TableEntry<8> for u64 {
    ghost row_of = { λ x. be_bytes 8 x };

    ghost Fits = { λ x. x < 2 ^ 64 };

    #[tactic(auto, unfolding(crate::specs::Bytes::be_bytes))]
    fn to_row(&self) -> [u8; 8] {
        self.to_be_bytes()
    }

    fn fits(&self) -> bool {
        // For the prover: a value that was read has the range of its type.
        let _entry = *self;
        true
    }
}

/// Reads a box of `size` bytes that has one table with rows of `E` bytes, and returns its version, flags and rows.
/// `bytes` begins at the box's start. A count of more rows than `size` has space for is invalid data with the text
/// `too_many`.
#[tactic(auto, unfolding(crate::specs::Tables::counted_rows))]
pub fn read_table<'a, const E: usize>(
    bytes: &'a [u8],
    size: u64,
    too_many: &'static str,
) -> Result<(u8, u32, &'a [[u8; E]])>
    requires { 0 < E }
    ensures { AnswersAs (λ t. record { version = t.0; flags = t.1; rows = t.2.now }) result
        (counted_rows bytes.now size E) }
{
    expect_bytes(bytes, 8, 8)?;
    let count = u64::from(u32_at(bytes, 12));
    check(count <= size.saturating_sub(16) / E as u64, too_many)?;
    let mut cursor = ByteCursor::new(bytes);
    cursor.set_position(16);
    let rows = cursor.take_rows::<E>(count)?;
    Ok((u8_at(bytes, 8), u24_at(bytes, 9), rows))
}

/// Returns the size of a box of one table with these entries, at most 2^64 - 1.
pub fn table_size<T: TableEntry<E>, const E: usize>(entries: &[T]) -> u64
    ensures { result ≡ min (size_table E entries.now) (2 ^ 64 - 1) }
{
    (entries.len() as u64)
        .saturating_mul(E as u64)
        .saturating_add(16)
}

/// Returns whether the numbers of each entry fit their fields. The result is always `true` where the fields fill their
/// types.
pub fn all_fit<T: TableEntry<E>, const E: usize>(entries: &[T]) -> bool
    ensures { IsTrue result ↔ All T.Fits entries.now }
{
    entries.iter().all(
        |entry: &T| -> bool
            ensures { IsTrue result ↔ T.Fits entry.now }
        { entry.fits() },
    )
}

/// Returns whether a box of one table with these entries can be written.
#[tactic(auto, using(mp4_lemmas::proofs::Numbers::few_entries))]
pub fn is_writable_table<T: TableEntry<E>, const E: usize>(
    code: u32,
    version: u8,
    flags: u32,
    entries: &[T],
) -> bool
    requires { 0 < E }
    ensures { IsTrue result ↔ WritableTable T.Fits E code version flags entries.now }
{
    flags < 1 << 24 && table_size(entries) < 1 << 32 && all_fit(entries)
}

/// Fills `out` with a box of one table. The length of `out` is the box's size.
#[tactic(auto, unfolding(crate::specs::Bytes::bytes_of_fields, crate::specs::Bytes::bytes_of_fields_onto))]
pub fn put_table<T: TableEntry<E>, const E: usize>(
    out: &mut [u8],
    code: u32,
    version: u8,
    flags: u32,
    entries: &[T],
)
    requires writable { WritableTable T.Fits E code version flags entries.now }
    requires room { length out.old ≡ size_table E entries.now }
    ensures { out.new ≡ bytes_table T.row_of E code version flags entries.now }
{
    let size = table_size(entries) as u32;
    let at = put_full_box(out, size, code, version, flags);
    let at = put_u32(out, at, entries.len() as u32);
    put_entries(out, at, entries);
}

/// Puts the rows of `entries` at offset `at` of `out`, and returns the offset after them. As a separate function, the
/// loop is aligned and keeps its constants in registers.
#[inline(never)]
pub fn put_entries<T: TableEntry<E>, const E: usize>(
    out: &mut [u8],
    at: usize,
    entries: &[T],
) -> usize
    requires { at + E * length entries.now ≤ length out.old }
    ensures next { result ≡ at + E * length entries.now }
    ensures put { take result out.new ≡ take at out.old ++ flat_map T.row_of entries.now }
{
    let mut next = at;
    for entry in entries {
        next = put_bytes(out, next, &entry.to_row());
    }
    next
}
