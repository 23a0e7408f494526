//! The rule of segment indexes.

ghost use Rattle.std.specs.Prelude.{◌≡◌, ◌+◌, ℕ, Ok, IfOk, IfSome, List};
ghost use Rattle.mp4_check.specs.Indexes.{AreStarts, first_wrong, index_found, index_what, is_start, wrong_at};
ghost use Rattle.mp4_extra_samples.specs.declared.sidx.Sidx.{Sidx};
ghost use Rattle.mp4_frame.specs.Reading.{Reading};
ghost use Rattle.mp4_walk.specs.declared.tree_box.TreeBox.{TreeBox};

use crate::fault::What;
use mp4_extra_samples::sidx::{Sidx, SidxBox, SidxEntry};
use mp4_frame::ReadBox;
use mp4_io::{Failure, or_read};
use mp4_movie::read_at;
use mp4_show::Result;
use mp4_walk::{BoxWalk, Source, TreeBox};
use std::alloc::Global;
use std::collections::BTreeMap;

/// A way to read the bytes of an index.
trait IndexReading {
    /// The reading.
    ghost reads: { List ℕ → ℕ → ℕ → Reading Sidx };
}

/// The way in which `SidxBox` is read, under a name that proofs can cite.
struct OwnReading;

impl IndexReading for OwnReading {
    ghost reads = { ⟦<SidxBox as ReadBox>⟧.reads };
}

/// The positions at which boxes of the top level begin, and the end of the file.
#[derive(Drop)]
pub struct Starts {
    /// The positions.
    pub positions: BTreeMap<u64, ()>,
}

/// Returns the positions at which boxes of the top level begin, and `length`, the end of the file.
pub fn starts_of(alloc: Global, boxes: &[TreeBox], length: u64) -> Result<Starts>
    ensures { IfOk result (AreStarts boxes.now length) }
{
    let mut positions = BTreeMap::new(alloc);
    positions.insert(length, ())?;
    for found in boxes {
        if found.depth == 0 {
            positions.insert(found.position, ())?;
        }
    }
    Ok(Starts { positions })
}

/// Returns whether a box begins or the file ends at `position`.
fn is_start(position: u128, starts: &Starts) -> bool
    ensures { (boxes : List TreeBox) (length : ℕ) → AreStarts boxes length starts.now
        → result ≡ is_start boxes length position }
{
    match u64::try_from(position) {
        Ok(position) => starts.positions.contains_key(&position),
        Err(_) => false,
    }
}

/// Returns the fault of an index with the subsegments `entries`, the first of which begins at `begin`.
fn first_wrong(begin: u128, entries: &[SidxEntry], starts: &Starts) -> Option<What>
    ensures { (boxes : List TreeBox) (length : ℕ) → AreStarts boxes length starts.now
        → result ≡ first_wrong boxes length begin 0 entries.now }
{
    let mut position = begin;
    let mut before = 0u64;
    for entry in entries {
        if !is_start(position, starts) {
            return Some(wrong_at(position, before));
        }
        position = position.saturating_add(u128::from(entry.referenced_size));
        before = before.saturating_add(1);
    }
    if is_start(position, starts) {
        None
    } else {
        Some(wrong_at(position, before))
    }
}

/// Returns the fault of an index whose subsegment after `before` others begins at `position`, where no box begins.
fn wrong_at(position: u128, before: u64) -> What
    ensures { result ≡ wrong_at position before }
{
    What::IndexSizes {
        before,
        position: position.min(u128::from(u64::MAX)) as u64,
    }
}

/// Returns the position `offset` bytes after a box of `length` bytes at `position`.
fn begin_of(position: u64, length: u64, offset: u64) -> u128
    ensures { result ≡ position + length + offset }
{
    u128::from(position) + u128::from(length) + u128::from(offset)
}

/// Returns the fault of `sidx`, the value of `found`, if it has one. An index without subsegments has none.
fn index_found(found: &TreeBox, sidx: &Sidx, starts: &Starts) -> Option<What>
    ensures { (boxes : List TreeBox) (length : ℕ) → AreStarts boxes length starts.now
        → result ≡ index_found boxes length found.now (Ok sidx.now) }
{
    if sidx.entries.is_empty() {
        return None;
    }
    let begin = begin_of(found.position, found.length, sidx.first_offset);
    first_wrong(begin, sidx.entries.as_slice(), starts)
}

/// Returns the fault of the index `found`, if its subsegments don't begin and end where boxes of the top level do.
pub fn index_what<S: Source>(
    alloc: Global,
    walk: &mut BoxWalk<S>,
    found: &TreeBox,
    starts: &Starts,
) -> std::result::Result<Option<What>, Failure>
    ensures value { IfSome walk.old.bytes
        (λ file. (boxes : List TreeBox) (length : ℕ) → AreStarts boxes length starts.now
        → IfOk result (λ r. r ≡ index_what ⟦<SidxBox as ReadBox>⟧.reads file boxes length found.now)) }
    ensures kept { walk.new ≡ walk.old }
{
    match or_read(read_at::<SidxBox, S>(alloc, walk, found))? {
        Ok(sidx) => Ok(index_found(found, &sidx, starts)),
        Err(_) => Ok(None),
    }
}
