//! Entries up to the end of a box, each of which has a shape.

ghost use Rattle.std.specs.Prelude.{◌≡◌, ◌≤◌, ◌<◌, ◌+◌, ◌↔◌, true, All, IfOk, IsTrue, length};
ghost use Rattle.std.specs.List.{sum_by};
ghost use Rattle.mp4_frame.specs.Reading.{AnswersAs};
ghost use Rattle.mp4_declared.specs.DeclaredEntry.{entry_shape};
ghost use Rattle.mp4_declared.specs.DeclaredEntryLaws.{laws_of_entry};
ghost use Rattle.mp4_declared.specs.EachToEnd.{reads_inside, until_end, each_to_end_shape};
ghost use Rattle.mp4_declared.specs.EachToEndLaws.{each_to_end_laws};

use crate::context::Context;
use crate::declared_entry::{DeclaredEntry, Entry};
use crate::each::{each_fits, put_each, size_of_each};
use crate::shape::{PutShape, Shape, read_next};
use mp4_frame::{Entries, Result, check};
use std::alloc::Global;

/// The text of the error for a box that ends inside an entry.
pub const NOT_FILLED: &str = "entries do not fill the box";

/// Entries `X` up to the end of the box, as its last part. The length of an entry depends on its shape. Each entry is
/// checked to end in the box.
pub struct EachToEnd<X>(X);

/// Reads the entry at offset `at`. Returns it, and the offset after it. Fails with invalid data if the entry has no
/// bytes, or ends after the box.
#[tactic(auto, unfolding(crate::specs::EachToEnd::reads_inside))]
fn read_inside<X: DeclaredEntry>(
    alloc: Global,
    bytes: &[u8],
    at: usize,
    end: u64,
    context: Context,
) -> Result<(X, usize)>
    requires valid { X.Shape.shape.valid ≡ true }
    requires inside { 0 < at }
    requires reached { at ≤ length bytes.now }
    ensures value { AnswersAs (λ r. r.0) result
        (reads_inside (entry_shape X.Shape.shape X.layout) context bytes.now end at) }
    ensures next { IfOk result (λ r. r.1 ≡ at + (entry_shape X.Shape.shape X.layout).size context r.0) }
    ensures within { IfOk result (λ r. r.1 ≤ length bytes.now) }
{
    let (entry, next) = read_next::<Entry<X>>(alloc, bytes, at, end, context, false)?;
    check(at < next && next as u64 <= end, NOT_FILLED)?;
    Ok((entry, next))
}

/// Reads entries up to the end of the box, but at most `count`, the first at offset `at`. Returns them, and the offset
/// after them.
fn read_until_end<X: DeclaredEntry>(
    alloc: Global,
    bytes: &[u8],
    at: usize,
    end: u64,
    context: Context,
    count: u64,
) -> Result<(Entries<X>, usize)>
    requires valid { X.Shape.shape.valid ≡ true }
    requires inside { 0 < at }
    requires reached { at ≤ length bytes.now }
    ensures value { AnswersAs (λ r. r.0) result
        (until_end (entry_shape X.Shape.shape X.layout) context bytes.now end count at) }
    ensures next { IfOk result
        (λ r. r.1 ≡ at + sum_by ((entry_shape X.Shape.shape X.layout).size context) r.0) }
    ensures within { IfOk result (λ r. r.1 ≤ length bytes.now) }
{
    let mut entries = Entries::new(alloc);
    let mut next = at;
    let mut left = count;
    while left > 0 && (next as u64) < end {
        let (entry, after) = read_inside(alloc, bytes, next, end, context)?;
        entries.push(entry)?;
        next = after;
        left -= 1;
    }
    Ok((entries, next))
}

/// Returns whether each entry has at least one byte.
fn each_has_bytes<X: DeclaredEntry>(context: Context, entries: &[X]) -> bool
    ensures { IsTrue result
        ↔ All (λ entry. 0 < (entry_shape X.Shape.shape X.layout).size context entry) entries.now }
{
    entries.iter().all(
        |entry: &X| -> bool
            ensures { IsTrue result ↔ (0 < (entry_shape X.Shape.shape X.layout).size context entry.now) }
        { Entry::<X>::size(context, entry) > 0 },
    )
}

impl<X: DeclaredEntry> Shape for EachToEnd<X> {
    type Value = Entries<X>;

    ghost shape = { each_to_end_shape (entry_shape X.Shape.shape X.layout) };

    ghost shape_laws = { each_to_end_laws (entry_shape X.Shape.shape X.layout)
        (laws_of_entry X.Shape.shape X.Shape.shape_laws X.layout) };

    #[inline]
    fn is_fixed() -> bool {
        false
    }

    #[inline]
    fn front(_context: Context) -> usize {
        0
    }

    #[inline]
    fn read(
        alloc: Global,
        bytes: &[u8],
        at: usize,
        end: u64,
        context: Context,
    ) -> Result<(Entries<X>, usize)> {
        let available = end.saturating_sub(at as u64);
        read_until_end(alloc, bytes, at, end, context, available)
    }
}

impl<'a, X: DeclaredEntry> PutShape<&'a [X]> for EachToEnd<X> {
    ghost content = { λ entries. entries.now };

    #[inline]
    fn size(context: Context, value: &'a [X]) -> u64 {
        size_of_each(context, value)
    }

    #[inline]
    fn fits(context: Context, value: &'a [X]) -> bool {
        each_fits(context, value) && each_has_bytes(context, value)
    }

    #[inline]
    fn put(out: &mut [u8], at: usize, context: Context, value: &'a [X]) -> usize {
        put_each(out, at, context, value)
    }
}
