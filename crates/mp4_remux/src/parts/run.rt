//! A run of the samples of a track.

ghost use Rattle.std.specs.Prelude.{◌≡◌, ◌<◌, ◌≤◌, IfNone, IfOk, IfSome};
ghost use Rattle.mp4_samples.specs.declared.sample.Sample.{Sample};
ghost use Rattle.mp4_remux.specs.Parts.{earlier, IsInRun, IsRunGoing, run_count, run_number, run_teller};
ghost use Rattle.mp4_remux.specs.PartLaws.{one_in_run};
ghost use Rattle.mp4_remux.specs.Tracks.{IsGoing, number_of_track, teller_of};

use crate::media::{Media, Untold};
use crate::teller::Teller;
use crate::track_samples::TrackSamples;
use mp4_samples::Sample;

/// Lists the samples of a run of a track.
#[derive(Clone, Copy)]
pub struct PartTeller<'a> {
    /// The samples of the track, one after the other.
    pub teller: Teller<'a>,
    /// The number of the first sample, counted from 0.
    pub first: u64,
    /// The number of samples.
    pub length: u64,
    /// The number of ticks by which each sample is decoded earlier than in the track.
    pub shift: u64,
}

/// A run of the samples of a track, one at a time, decoded earlier.
#[derive(Drop)]
pub struct PartSamples<'a> {
    /// The samples of the track.
    pub samples: TrackSamples<'a>,
    /// The number of the first sample, counted from 0.
    pub first: u64,
    /// The number of samples.
    pub length: u64,
    /// The number of ticks by which each sample is decoded earlier than in the track.
    pub shift: u64,
    /// The number of samples of the run that are passed.
    pub passed: u64,
}

/// Returns `sample` with a decode time that is `shift` less, or `None` if it would be below 0.
fn earlier(sample: Sample, shift: u64) -> Option<Sample>
    ensures some { IfSome result (λ s. (shift ≤ sample.start_time) × (s ≡ earlier shift sample)) }
    ensures none { IfNone result (sample.start_time < shift) }
{
    match sample.start_time.checked_sub(shift) {
        Some(start_time) => Some(Sample {
            start_time,
            ..sample
        }),
        None => None,
    }
}

/// Passes the next samples up to number `first`, counted from 0.
fn skip<'a>(samples: TrackSamples<'a>, first: u64) -> Result<TrackSamples<'a>, Untold>
    requires number { number_of_track samples ≡ 0 }
    requires going { IsGoing samples }
    ensures teller { IfOk result (λ s. teller_of s ≡ teller_of samples.entry) }
    ensures number { IfOk result (λ s. number_of_track s ≡ first) }
    ensures going { IfOk result IsGoing }
{
    let mut samples = samples;
    let mut number: u64 = 0;
    'skipped: while number < first {
        match Media::next(&mut samples) {
            Ok(Some(_)) => number += 1,
            Ok(None) => return Err(Untold),
            Err(error) => return Err(error),
        }
    }
    Ok(samples)
}

impl<'a> PartSamples<'a> {
    /// Returns the `length` samples of `samples` starting at number `first`, each decoded `shift` ticks earlier. Takes
    /// a step for each sample before them.
    pub fn new(
        samples: TrackSamples<'a>,
        first: u64,
        length: u64,
        shift: u64,
    ) -> Result<PartSamples<'a>, Untold>
        requires number { number_of_track samples ≡ 0 }
        requires going { IsGoing samples }
        ensures going { IfOk result IsRunGoing }
        ensures number { IfOk result (λ s. run_number s ≡ 0) }
        ensures teller { IfOk result (λ s. run_teller s ≡ record {
          teller = teller_of samples.entry;
          first = first;
          length = length;
          shift = shift;
        }) }
    {
        let samples = skip(samples, first)?;
        Ok(PartSamples {
            samples,
            first,
            length,
            shift,
            passed: 0,
        })
    }
}

impl<'a> Media for PartSamples<'a> {
    type Teller = PartTeller<'a>;

    ghost teller = { run_teller };

    ghost number = { run_number };

    ghost count = { run_count };

    ghost is_sample = { IsInRun };

    ghost is_going = { IsRunGoing };

    fn next(&mut self) -> Result<Option<Sample>, Untold> {
        if self.passed >= self.length {
            return Ok(None);
        }
        match Media::next(&mut self.samples) {
            Ok(Some(sample)) => match earlier(sample, self.shift) {
                Some(moved) => {
                    self.passed += 1;
                    Ok(Some(moved))
                }
                None => Err(Untold),
            },
            Ok(None) => Err(Untold),
            Err(error) => Err(error),
        }
    }

    ghost unique = { one_in_run };
}
