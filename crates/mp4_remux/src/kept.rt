//! The comparison of the samples of two tracks.

ghost use Rattle.std.specs.Prelude.{◌≡◌, ◌↔◌, IsTrue, IsOk};
ghost use Rattle.mp4_remux.specs.declared.kept.Pair.TheVariants.{Same};
ghost use Rattle.mp4_remux.specs.Kept.{AreAlike, IsCarried, IsPair, KeepsSamples, Tells};

use crate::media::{Media, Untold};
use crate::pieces::Plan;
use mp4_samples::Sample;

/// The first sample that is not kept.
#[derive(Clone, Copy, Debug, PartialEq, Eq)]
pub struct Lost {
    /// Its number, counted from 0.
    pub number: u64,
}

/// The outcome of a comparison of the next samples of two tracks.
#[derive(Clone, Copy)]
pub enum Pair {
    /// They are the same.
    Same,
    /// Neither track has a further sample.
    Ended,
    /// One of them is not kept.
    Lost,
}

/// Returns whether two samples are the same except for their positions.
fn are_alike(before: &Sample, after: &Sample) -> bool
    ensures { IsTrue result ↔ AreAlike before.now after.now }
{
    after.size == before.size
        && after.start_time == before.start_time
        && after.duration == before.duration
        && after.rendering_offset == before.rendering_offset
        && after.is_sync == before.is_sync
        && after.sample_description_index == before.sample_description_index
}

/// Returns whether the sample `after` of the new file is the sample `before` of the old file.
fn is_carried(plan: &Plan, before: &Sample, after: &Sample) -> bool
    ensures { IsTrue result ↔ IsCarried plan.now before.now after.now }
{
    are_alike(before, after) && plan.carries(after.offset, u64::from(before.size), before.offset)
}

/// Returns the outcome for the next samples of two tracks, of which each can be missing or have a fault.
fn pair_of(
    plan: &Plan,
    first: Result<Option<Sample>, Untold>,
    second: Result<Option<Sample>, Untold>,
) -> Pair
    ensures { Tells plan.now first second result }
{
    match first {
        Ok(Some(before)) => match second {
            Ok(Some(after)) => {
                if is_carried(plan, &before, &after) {
                    Pair::Same
                } else {
                    Pair::Lost
                }
            }
            Ok(None) => Pair::Lost,
            Err(_) => Pair::Lost,
        },
        Ok(None) => match second {
            Ok(Some(_)) => Pair::Lost,
            Ok(None) => Pair::Ended,
            Err(_) => Pair::Lost,
        },
        Err(_) => Pair::Lost,
    }
}

/// Compares the next samples of two tracks.
fn compare<M: Media, N: Media>(before: &mut M, after: &mut N, plan: &Plan) -> Pair
    requires number { M.number before.old ≡ N.number after.old }
    requires first { M.is_going before.old }
    requires second { N.is_going after.old }
    ensures going { result ≡ Same → M.is_going before.new × N.is_going after.new }
    ensures pair { IsPair M.is_sample M.count N.is_sample N.count plan.now (M.teller before.old) (N.teller after.old)
        (M.number before.old) result (M.number before.new) (N.number after.new) }
    ensures before { M.teller before.new ≡ M.teller before.old }
    ensures after { N.teller after.new ≡ N.teller after.old }
{
    let first = before.next();
    let second = after.next();
    pair_of(plan, first, second)
}

/// Checks that a track of the new file has the samples of a track of the old file: as many, in the same order, each
/// with the same times, flags, description and bytes. `plan` says which bytes of the new file are those of the old
/// file. The bytes are not read. Takes a step for each sample, and a binary search over the pieces.
pub fn keeps_samples<M: Media, N: Media>(before: M, after: N, plan: &Plan) -> Result<(), Lost>
    requires before { M.number before ≡ 0 }
    requires after { N.number after ≡ 0 }
    requires first { M.is_going before }
    requires second { N.is_going after }
    ensures exact { IsOk result ↔ KeepsSamples M.is_sample M.count N.is_sample N.count plan.now (M.teller before)
        (N.teller after) }
{
    let mut before = before;
    let mut after = after;
    let mut number: u64 = 0;
    'samples: loop {
        match compare(&mut before, &mut after, plan) {
            Pair::Same => number = number.saturating_add(1),
            Pair::Ended => return Ok(()),
            Pair::Lost => return Err(Lost { number }),
        }
    }
}
