//! Counted lists of rows of bytes.

ghost use Rattle.std.specs.Prelude.{◌≡◌, ◌+◌, ◌*◌, ◌≤◌, ◌++◌, ◌↔◌, All, IfOk, IfErr, IsTrue, flat_map, length, map};
ghost use Rattle.std.specs.Prelude.{take};
ghost use Rattle.mp4_frame.specs.declared.error.Error.TheVariants.{OutOfMemory};
ghost use Rattle.mp4_declared.specs.ListLaws.{list_laws, row_entry};
ghost use Rattle.mp4_declared.specs.Shape.{list_shape};

use crate::bits::{number_at, put_number};
use crate::context::Context;
use crate::list::{Count, count_fits, read_rows};
use crate::shape::{PutShape, Shape};
use mp4_frame::{Entries, Result, put_bytes};
use std::alloc::Global;

/// A count of the shape `C`, and that many rows of `E` bytes each.
pub struct Rows<C, const E: usize>(C);

/// Returns a copy of `rows`. The only error is out of memory.
#[tactic(auto, using(mp4_lemmas::proofs::Lists::map_same))]
fn copy_of<const E: usize>(alloc: Global, rows: &[[u8; E]]) -> Result<Vec<[u8; E]>>
    ensures value { IfOk result (λ copy. copy.items ≡ map (λ row. row) rows.now) }
    ensures memory { IfErr result (λ e. e ≡ OutOfMemory) }
{
    Ok(Vec::from_slice(alloc, rows)?)
}

/// Returns whether each row has `E` bytes, as its type says.
fn rows_fit<const E: usize>(rows: &[[u8; E]]) -> bool
    ensures { IsTrue result ↔ All (λ row. length row ≡ E) rows.now }
{
    rows.iter().all(
        |row: &[u8; E]| -> bool
            ensures { IsTrue result ↔ (length row.now ≡ E) }
        { row.len() == E },
    )
}

/// Puts `rows`, and returns the offset after them.
fn put_all<const E: usize>(out: &mut [u8], at: usize, rows: &[[u8; E]]) -> usize
    requires fit { All (λ row. length row ≡ E) rows.now }
    requires room { at + E * length rows.now ≤ length out.old }
    ensures next { result ≡ at + E * length rows.now }
    ensures put { take result out.new ≡ take at out.old ++ flat_map (λ row. row) rows.now }
{
    let mut next = at;
    for row in rows {
        next = put_bytes(out, next, row);
    }
    next
}

impl<C: Count, const E: usize> Shape for Rows<C, E> {
    type Value = Entries<[u8; E]>;

    ghost shape = { list_shape C.WIDTH E (λ row. row) (λ row. row) (λ row. length row ≡ E) };

    ghost shape_laws = { list_laws C.WIDTH E (λ row. row) (λ row. row) (λ row. length row ≡ E) (row_entry E) };

    #[inline]
    fn is_fixed() -> bool {
        false
    }

    #[inline]
    fn front(_context: Context) -> usize {
        C::WIDTH
    }

    #[inline]
    #[tactic(auto, unfolding(crate::specs::Shape::reads_entries))]
    fn read(
        alloc: Global,
        bytes: &[u8],
        at: usize,
        end: u64,
        _context: Context,
    ) -> Result<(Entries<[u8; E]>, usize)> {
        let count = number_at(bytes, at, C::WIDTH);
        let rows = read_rows::<E>(bytes, end, at + C::WIDTH, count)?;
        let entries = copy_of(alloc, rows)?.into();
        Ok((entries, at + C::WIDTH + rows.len() * E))
    }
}

impl<'a, C: Count, const E: usize> PutShape<&'a [[u8; E]]> for Rows<C, E> {
    ghost content = { λ rows. rows.now };

    #[inline]
    fn size(_context: Context, value: &'a [[u8; E]]) -> u64 {
        (value.len() as u64)
            .saturating_mul(E as u64)
            .saturating_add(C::WIDTH as u64)
    }

    #[inline]
    fn fits(_context: Context, value: &'a [[u8; E]]) -> bool {
        count_fits::<C>(value.len() as u64) && rows_fit(value)
    }

    #[inline]
    fn put(out: &mut [u8], at: usize, _context: Context, value: &'a [[u8; E]]) -> usize {
        let next = put_number(out, at, value.len() as u64, C::WIDTH);
        put_all(out, next, value)
    }
}
