//! Lists of parameter sets, each preceded by its length.

ghost use Rattle.std.specs.Prelude.{◌≡◌, ◌≤◌, ◌<◌, ◌+◌, ◌-◌, ◌^◌, ◌++◌, ◌↔◌, ◌∷◌, [], All, IsTrue, IfOk, IfErr, length};
ghost use Rattle.std.specs.Prelude.{min, take};
ghost use Rattle.mp4_frame.specs.declared.error.Error.TheVariants.{OutOfMemory};
ghost use Rattle.mp4_frame.specs.Bytes.{be_bytes};
ghost use Rattle.mp4_frame.specs.Reading.{Answers};
ghost use Rattle.mp4_entries.specs.Sets.{set_at, sets, IsSet, size_sets, bytes_sets};

use crate::nal_unit::NalUnit;
use mp4_frame::{Entries, Result, TryClone, expect_bytes, piece_at, put_bytes, put_u16, u16_at};
use std::alloc::Global;

/// Reads the set at offset `at`: a length of two bytes, and the bytes of the set.
#[tactic(auto, unfolding(crate::specs::Sets::set_at))]
fn read_set(alloc: Global, bytes: &[u8], at: usize) -> Result<NalUnit>
    ensures set { Answers result (set_at bytes.now at) }
    ensures room { IfOk result (λ set. at + 2 + length set.bytes ≤ length bytes.now) }
{
    expect_bytes(bytes, at, 2)?;
    let count = usize::from(u16_at(bytes, at));
    let set = piece_at(bytes, at + 2, count)?;
    NalUnit::from_bytes(alloc, set)
}

/// Reads `count` sets, the first at offset `at`. Returns them, and the offset after them.
pub(crate) fn read_sets(
    alloc: Global,
    bytes: &[u8],
    at: usize,
    count: u8,
) -> Result<(Entries<NalUnit>, usize)>
    ensures { Answers result (sets bytes.now count at) }
{
    let mut found = Entries::new(alloc);
    let mut next = at;
    let mut left = count;
    while left > 0 {
        let set = read_set(alloc, bytes, next)?;
        next += 2 + set.bytes.len();
        found.push(set)?;
        left -= 1;
    }
    Ok((found, next))
}

/// Returns the number of bytes of `sets` with their lengths. It saturates at 2^64 - 1.
pub(crate) fn sets_size(sets: &[NalUnit]) -> u64
    ensures { result ≡ min (size_sets sets.now) (2 ^ 64 - 1) }
{
    let mut size: u64 = 0;
    for set in sets {
        size = size
            .saturating_add(2)
            .saturating_add(set.bytes.len() as u64);
    }
    size
}

/// Returns whether the length of each set fits two bytes.
pub(crate) fn are_sets(sets: &[NalUnit]) -> bool
    ensures { IsTrue result ↔ All IsSet sets.now }
{
    sets.iter().all(|set| set.bytes.len() < 1 << 16)
}

/// Puts the length and the bytes of a set, and returns the offset after them.
fn put_set(out: &mut [u8], at: usize, set: &[u8]) -> usize
    requires room { at + 2 + length set.now ≤ length out.old }
    requires fits { length set.now < 2 ^ 16 }
    ensures next { result ≡ at + 2 + length set.now }
    ensures put { take result out.new ≡ take at out.old ++ (be_bytes 2 (length set.now) ++ set.now) }
{
    let at = put_u16(out, at, set.len() as u16);
    put_bytes(out, at, set)
}

/// Puts `sets`, one after the other, and returns the offset after them.
pub(crate) fn put_sets(out: &mut [u8], at: usize, sets: &[NalUnit]) -> usize
    requires fits { All IsSet sets.now }
    requires room { at + size_sets sets.now ≤ length out.old }
    ensures next { result ≡ at + size_sets sets.now }
    ensures put { take result out.new ≡ take at out.old ++ bytes_sets sets.now }
{
    let mut next = at;
    for set in sets {
        next = put_set(out, next, set.bytes.as_slice());
    }
    next
}

/// Returns a clone of `sets`, which shares no memory with them. The only error is out of memory.
pub(crate) fn clone_sets(alloc: Global, sets: &[NalUnit]) -> Result<Entries<NalUnit>>
    ensures clone { IfOk result (λ clone. clone ≡ sets.now) }
    ensures memory { IfErr result (λ e. e ≡ OutOfMemory) }
{
    let mut clone = Entries::new(alloc);
    for set in sets {
        clone.push(set.try_clone()?)?;
    }
    Ok(clone)
}

/// Returns a list of one set with a copy of `bytes`. The only error is out of memory.
pub(crate) fn one_set(alloc: Global, bytes: &[u8]) -> Result<Entries<NalUnit>>
    ensures set { IfOk result (λ sets. sets ≡ record { bytes = bytes.now } ∷ []) }
    ensures memory { IfErr result (λ e. e ≡ OutOfMemory) }
{
    let mut sets = Entries::new(alloc);
    sets.push(NalUnit::from_bytes(alloc, bytes)?)?;
    Ok(sets)
}
