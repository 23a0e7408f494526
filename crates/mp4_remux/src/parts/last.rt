//! The last sample of a track that meets a bound.

ghost use Rattle.std.specs.Prelude.{◌≡◌, IfOk};
ghost use Rattle.mp4_remux.specs.Parts.{IsLater, LastOf};

use crate::media::{Media, Untold};
use crate::parts::bound::{Bound, Line, meets};
use mp4_samples::Sample;

/// A sample and its number.
#[derive(Clone, Copy, Debug, PartialEq, Eq)]
pub struct Place {
    /// The number of the sample, counted from 0.
    pub number: u64,
    /// The sample.
    pub sample: Sample,
}

/// Returns the sample after `last` that meets `bound`: `sample`, which has this number, or else `last`.
fn later(
    line: Line,
    bound: Bound,
    number: u64,
    sample: Sample,
    last: Option<Place>,
) -> Option<Place>
    ensures { IsLater line bound number sample last result }
{
    if meets(line, bound, &sample) {
        Some(Place { number, sample })
    } else {
        last
    }
}

/// Returns the last of `samples` that meets `bound`, or `None` if none does. Takes a step for each sample.
pub fn last_of<M: Media>(samples: M, line: Line, bound: Bound) -> Result<Option<Place>, Untold>
    requires number { M.number samples ≡ 0 }
    requires going { M.is_going samples }
    ensures { IfOk result
        (LastOf M.is_sample (M.teller samples) line bound (M.count (M.teller samples))) }
{
    let mut samples = samples;
    let mut number: u64 = 0;
    let mut last: Option<Place> = None;
    'samples: loop {
        match samples.next() {
            Ok(Some(sample)) => {
                last = later(line, bound, number, sample, last);
                match number.checked_add(1) {
                    Some(next) => number = next,
                    None => return Err(Untold),
                }
            }
            Ok(None) => return Ok(last),
            Err(error) => return Err(error),
        }
    }
}
