//! Copies parameter sets to and from two arrays of C: one of their lengths, and one of their bytes.

ghost use Rattle.std.specs.Prelude.{◌≡◌, ◌≤◌, ◌-◌, ◌+◌, ◌^◌, ◌++◌, List, drop, length, min, sum, take, IfOk, IfErr};
ghost use Rattle.mp4_frame.specs.declared.error.Error.TheVariants.{OutOfMemory};
ghost use Rattle.mp4_entries.specs.declared.nal_unit.NalUnit.{NalUnit};
ghost use Rattle.mp4_frame.specs.WholeBox.{front_box};
ghost use Rattle.mp4_c_boxes.specs.Calls.{CopiesParts};
ghost use Rattle.mp4_c_boxes.specs.Sets.{FillsSets, bytes_of_sets, lengths_of_sets, sets_of, size_of_sets};

use crate::status::{NO_ROOM, OK, status_of};
use crate::to_struct::ToStruct;
use mp4_entries::NalUnit;
use mp4_frame::{Entries, ReadBox, Result, front_box, put_bytes};
use std::alloc::Global;

/// Returns the number of bytes of `sets`, or 2^64 - 1 if there are more.
fn size_of(sets: &[NalUnit]) -> usize
    ensures { result ≡ min (size_of_sets sets.now) (2 ^ 64 - 1) }
{
    let mut size: usize = 0;
    for set in sets {
        size = size.saturating_add(set.bytes.len());
    }
    size
}

/// Returns the number of bytes of the sets of `first` and `second`, or 2^64 - 1 if there are more.
pub(crate) fn size_of_both(first: &[NalUnit], second: &[NalUnit]) -> usize
    ensures { result ≡ min (size_of_sets (first.now ++ second.now)) (2 ^ 64 - 1) }
{
    size_of(first).saturating_add(size_of(second))
}

/// Writes the bytes of `sets` to `out`, one set after the other, starting at `at`. Returns the offset after them.
fn put_sets(out: &mut [u8], at: usize, sets: &[NalUnit]) -> usize
    requires { at + size_of_sets sets.now ≤ length out.old }
    ensures next { result ≡ at + size_of_sets sets.now }
    ensures put { take result out.new ≡ take at out.old ++ bytes_of_sets sets.now }
{
    let mut next = at;
    for set in sets {
        next = put_bytes(out, next, set.bytes.as_slice());
    }
    next
}

/// Fills `out` with the bytes of the sets of `first` and then of `second`.
fn fill_bytes(out: &mut [u8], first: &[NalUnit], second: &[NalUnit])
    requires { size_of_sets (first.now ++ second.now) ≡ length out.old }
    ensures { out.new ≡ bytes_of_sets (first.now ++ second.now) }
{
    let at = put_sets(out, 0, first);
    put_sets(out, at, second);
}

/// Writes the lengths of `sets` to `out`, starting at the index `at`. Returns the index after them.
fn put_lengths(out: &mut [usize], at: usize, sets: &[NalUnit]) -> usize
    requires { at + length sets.now ≤ length out.old }
    ensures next { result ≡ at + length sets.now }
    ensures put { take result out.new ≡ take at out.old ++ lengths_of_sets sets.now }
{
    let mut next = at;
    for set in sets {
        out[next] = set.bytes.len();
        next += 1;
    }
    next
}

/// Fills `out` with the lengths of the sets of `first` and then of `second`.
fn fill_lengths(out: &mut [usize], first: &[NalUnit], second: &[NalUnit])
    requires { length (first.now ++ second.now) ≡ length out.old }
    ensures { out.new ≡ lengths_of_sets (first.now ++ second.now) }
{
    let at = put_lengths(out, 0, first);
    put_lengths(out, at, second);
}

/// Writes the lengths and the bytes of the sets of `first` and `second` to the fronts of `lengths` and `bytes`. Returns
/// `OK`, or `NO_ROOM` if one of the arrays is too short; both then stay as they are.
fn fill_sets(first: &[NalUnit], second: &[NalUnit], lengths: &mut [usize], bytes: &mut [u8]) -> u32
    ensures { FillsSets result (first.now ++ second.now) (record { lengths = lengths.old; bytes = bytes.old })
        (record { lengths = lengths.new; bytes = bytes.new }) }
{
    let count = first.len() + second.len();
    let size = size_of_both(first, second);
    if lengths.len() < count || bytes.len() < size {
        return NO_ROOM;
    }
    fill_lengths(&mut lengths[..count], first, second);
    fill_bytes(&mut bytes[..size], first, second);
    OK
}

/// A box that has parameter sets beside its fields.
pub trait HasSets<S>: ToStruct<S> {
    /// The sequence sets of a box.
    ghost sequence: { Self → List NalUnit };

    /// The picture sets of a box, which follow its sequence sets.
    ghost picture: { Self → List NalUnit };

    /// Returns the sequence sets.
    fn sequence(&self) -> &[NalUnit]
        ensures { result.now ≡ sequence self.now };

    /// Returns the picture sets.
    fn picture(&self) -> &[NalUnit]
        ensures { result.now ≡ picture self.now };
}

/// Fills `fields` with those of the box at the front of `bytes`, which has to have the code `code`. Copies its
/// parameter sets: their lengths to `lengths`, and their bytes to `set_bytes`. Returns the status, which is `NO_ROOM`
/// if one of these arrays is too short. Even then it fills `fields`.
pub fn copy_box_sets<B: ReadBox + HasSets<S> + Drop, S: Copy>(
    alloc: Global,
    code: u32,
    bytes: &[u8],
    lengths: &mut [usize],
    set_bytes: &mut [u8],
    fields: &mut S,
) -> u32
    ensures { CopiesParts (front_box B.reads code bytes.now) B.ToStruct.to_struct
        (λ v. B.sequence v ++ B.picture v) FillsSets result fields.old fields.new
        (record { lengths = lengths.old; bytes = set_bytes.old })
        (record { lengths = lengths.new; bytes = set_bytes.new }) }
{
    match front_box::<B>(alloc, code, bytes) {
        Ok(value) => {
            *fields = value.to_struct();
            fill_sets(value.sequence(), value.picture(), lengths, set_bytes)
        }
        Err(error) => status_of(&error),
    }
}

/// Returns the sum of `lengths`, or 2^64 - 1 if it is larger.
pub(crate) fn sum_of(lengths: &[usize]) -> usize
    ensures { result ≡ min (sum lengths.now) (2 ^ 64 - 1) }
{
    let mut total: usize = 0;
    for length in lengths {
        total = total.saturating_add(*length);
    }
    total
}

/// Returns the parameter sets that have the lengths `lengths` and follow one another at the front of `bytes`. The only
/// error is out of memory.
pub(crate) fn sets_of(alloc: Global, lengths: &[usize], bytes: &[u8]) -> Result<Entries<NalUnit>>
    requires { sum lengths.now ≤ length bytes.now }
    ensures value { IfOk result (λ sets. sets ≡ sets_of lengths.now bytes.now) }
    ensures memory { IfErr result (λ e. e ≡ OutOfMemory) }
{
    let mut sets = Entries::new(alloc);
    let mut left = lengths;
    let mut rest = bytes;
    'cut: while let Some((long, later)) = left.split_first() {
        sets.push(NalUnit::from_bytes(alloc, &rest[..*long])?)?;
        rest = &rest[*long..];
        left = later;
    }
    Ok(sets)
}
