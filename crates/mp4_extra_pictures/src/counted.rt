//! Lists of entries with a shape, whose count is in bits before them.

ghost use Rattle.std.specs.Prelude.{◌≡◌, ◌≤◌, ◌<◌, ◌+◌, ◌-◌, ◌^◌, ◌++◌, ◌↔◌, true, min, All, IfOk, IsTrue, flat_map};
ghost use Rattle.std.specs.Prelude.{length, take};
ghost use Rattle.std.specs.List.{sum_by};
ghost use Rattle.mp4_frame.specs.Reading.{AnswersAs};
ghost use Rattle.mp4_declared.specs.DeclaredEntry.{entry_shape};
ghost use Rattle.mp4_declared.specs.DeclaredEntryLaws.{laws_of_entry};
ghost use Rattle.mp4_declared.specs.Each.{counted};
ghost use Rattle.mp4_extra_pictures.specs.Counted.{counted_shape};
ghost use Rattle.mp4_extra_pictures.specs.CountedLaws.{counted_laws};

use mp4_declared::{Context, DeclaredEntry, PutShape, Shape, read_after};
use mp4_frame::{Entries, Result};
use mp4_shown::Nested;
use std::alloc::Global;

/// Entries `X`, one after the other, as many as the flags of the context say.
pub struct Counted<X>(X);

/// Reads `count` entries, the first at offset `at`. Returns them, and the offset after them. Asks for memory entry by
/// entry.
fn read_entries<X: DeclaredEntry>(
    alloc: Global,
    bytes: &[u8],
    at: usize,
    end: u64,
    context: Context,
    count: u64,
) -> Result<(Entries<X>, usize)>
    requires valid { X.Shape.shape.valid ≡ true }
    requires inside { 0 < at }
    requires reached { at ≤ length bytes.now }
    ensures value { AnswersAs (λ r. r.0) result
        (counted (entry_shape X.Shape.shape X.layout) context bytes.now end count at) }
    ensures next { IfOk result
        (λ r. r.1 ≡ at + sum_by ((entry_shape X.Shape.shape X.layout).size context) r.0) }
    ensures within { IfOk result (λ r. r.1 ≤ length bytes.now) }
{
    let mut entries = Entries::new(alloc);
    let mut next = at;
    let mut left = count;
    while left > 0 {
        let (entry, after) = read_after::<Nested<X>>(alloc, bytes, next, end, context)?;
        entries.push(entry)?;
        next = after;
        left -= 1;
    }
    Ok((entries, next))
}

/// Returns the total number of bytes of `entries`. It saturates at 2^64 - 1.
fn size_of_entries<X: DeclaredEntry>(context: Context, entries: &[X]) -> u64
    ensures { result
        ≡ min (sum_by ((entry_shape X.Shape.shape X.layout).size context) entries.now) (2 ^ 64 - 1) }
{
    let mut size: u64 = 0;
    for entry in entries {
        size = size.saturating_add(Nested::<X>::size(context, entry));
    }
    size
}

/// Returns whether each number of each entry fits its field.
fn entries_fit<X: DeclaredEntry>(context: Context, entries: &[X]) -> bool
    ensures { IsTrue result ↔ All ((entry_shape X.Shape.shape X.layout).Fits context) entries.now }
{
    entries.iter().all(
        |entry: &X| -> bool
            ensures { IsTrue result ↔ (entry_shape X.Shape.shape X.layout).Fits context entry.now }
        { Nested::<X>::fits(context, entry) },
    )
}

/// Puts `entries`, one after the other, and returns the offset after them.
fn put_entries<X: DeclaredEntry>(
    out: &mut [u8],
    at: usize,
    context: Context,
    entries: &[X],
) -> usize
    requires fit { All ((entry_shape X.Shape.shape X.layout).Fits context) entries.now }
    requires room { at + sum_by ((entry_shape X.Shape.shape X.layout).size context) entries.now
        ≤ length out.old }
    ensures next { result ≡ at + sum_by ((entry_shape X.Shape.shape X.layout).size context) entries.now }
    ensures put { take result out.new
        ≡ take at out.old ++ flat_map ((entry_shape X.Shape.shape X.layout).bytes context) entries.now }
{
    let mut next = at;
    for entry in entries {
        next = Nested::<X>::put(out, next, context, entry);
    }
    next
}

impl<X: DeclaredEntry> Shape for Counted<X> {
    type Value = Entries<X>;

    ghost shape = { counted_shape (entry_shape X.Shape.shape X.layout) };

    ghost shape_laws = { counted_laws (entry_shape X.Shape.shape X.layout)
        (laws_of_entry X.Shape.shape X.Shape.shape_laws X.layout) };

    #[inline]
    fn is_fixed() -> bool {
        false
    }

    #[inline]
    fn front(_context: Context) -> usize {
        0
    }

    #[inline]
    fn read(
        alloc: Global,
        bytes: &[u8],
        at: usize,
        end: u64,
        context: Context,
    ) -> Result<(Entries<X>, usize)> {
        read_entries(alloc, bytes, at, end, context, u64::from(context.flags))
    }
}

impl<'a, X: DeclaredEntry> PutShape<&'a [X]> for Counted<X> {
    ghost content = { λ entries. entries.now };

    #[inline]
    fn size(context: Context, value: &'a [X]) -> u64 {
        size_of_entries(context, value)
    }

    #[inline]
    fn fits(context: Context, value: &'a [X]) -> bool {
        value.len() as u64 == u64::from(context.flags) && entries_fit(context, value)
    }

    #[inline]
    fn put(out: &mut [u8], at: usize, context: Context, value: &'a [X]) -> usize {
        put_entries(out, at, context, value)
    }
}
