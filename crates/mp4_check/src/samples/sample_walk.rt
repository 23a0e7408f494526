//! A look at the samples of tables and of fragments.

ghost use Rattle.std.specs.Prelude.{◌≡◌, IfOk, IfSome};
ghost use Rattle.mp4_check.specs.Looked.{AreOfFragment, Looks, LooksIf, nothing};
ghost use Rattle.mp4_check.specs.Kinds.{are_known};
ghost use Rattle.mp4_samples.specs.Fragments.{IsFragmentSample};
ghost use Rattle.mp4_samples.specs.Samples.{IsSample, sample_count};

use crate::samples::kind::{Kind, are_known};
use crate::samples::looked::{Looked, is_seen, looked_at, nothing};
use mp4_io::Failure;
use mp4_samples::{Fragment, SampleTables};
use mp4_walk::{BoxWalk, Source};
use std::alloc::Global;

/// Looks at the samples of `tables`, up to the first that the file doesn't have, or that has more than the bytes that
/// are left. `kinds` has the kind of the samples of each entry, and samples may have `left` bytes.
pub fn look_at_tables<S: Source>(
    alloc: Global,
    walk: &mut BoxWalk<S>,
    tables: &SampleTables<'_>,
    kinds: &[Kind],
    left: u64,
) -> Result<Looked, Failure>
    ensures value { IfSome walk.old.bytes
        (λ file. IfOk result (Looks (IsSample tables.now) (λ m. m ≡ sample_count tables.now) file kinds.now
        (nothing left))) }
    ensures kept { walk.new ≡ walk.old }
{
    let mut samples = tables.samples();
    let mut looked = nothing(left);
    for _ in 0..u64::MAX {
        match samples.next() {
            Some(sample) => {
                if !is_seen(walk.length(), looked, &sample) {
                    return Ok(looked);
                }
                looked = looked_at(alloc, walk, kinds, looked, &sample)?;
            }
            None => return Ok(looked),
        }
    }
    Err(Failure::Memory)
}

/// Looks at the samples of `fragment`, up to the first that has a fault, that the file doesn't have, or that has more
/// than the bytes that are left.
fn look_at_runs<S: Source>(
    alloc: Global,
    walk: &mut BoxWalk<S>,
    fragment: &Fragment<'_>,
    kinds: &[Kind],
    left: u64,
) -> Result<Looked, Failure>
    ensures value { IfSome walk.old.bytes
        (λ file. IfOk result (Looks (IsFragmentSample fragment.now) (AreOfFragment fragment.now) file kinds.now
        (nothing left))) }
    ensures kept { walk.new ≡ walk.old }
{
    let mut samples = fragment.samples();
    let mut looked = nothing(left);
    for _ in 0..u64::MAX {
        match samples.next() {
            Some(Ok(sample)) => {
                if !is_seen(walk.length(), looked, &sample) {
                    return Ok(looked);
                }
                looked = looked_at(alloc, walk, kinds, looked, &sample)?;
            }
            Some(Err(_)) => return Ok(looked),
            None => return Ok(looked),
        }
    }
    Err(Failure::Memory)
}

/// Looks at the samples of `fragment`, if there is a rule about samples of one of `kinds`, which has those of each
/// entry of its track. Samples may have `left` bytes.
pub fn look_at_fragment<S: Source>(
    alloc: Global,
    walk: &mut BoxWalk<S>,
    fragment: &Fragment<'_>,
    kinds: &[Kind],
    left: u64,
) -> Result<Looked, Failure>
    ensures value { IfSome walk.old.bytes
        (λ file. IfOk result (LooksIf (are_known kinds.now) (IsFragmentSample fragment.now)
        (AreOfFragment fragment.now) file kinds.now left)) }
    ensures kept { walk.new ≡ walk.old }
{
    if are_known(kinds) {
        look_at_runs(alloc, walk, fragment, kinds, left)
    } else {
        Ok(nothing(left))
    }
}
