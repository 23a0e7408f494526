//! An iterator over the samples of a fragment.

ghost use Rattle.std.specs.Prelude.{◌≡◌, ◌<◌, ◌≤◌, ◌^◌, pos, IfSome, IfNone};
ghost use Rattle.std.specs.Iterator.{at_most};
ghost use Rattle.mp4_samples.specs.Fragments.{HasOffset};
ghost use Rattle.mp4_samples.specs.FragmentGives.{begins, offset_of, time_of};

use crate::fragment::Fragment;
use crate::fragment_fault::FragmentFault;
use crate::fragment_place::{FragmentPlace, first_place, in_run, offset_in_file, sample_at};
use crate::sample::Sample;
use std::iter::FusedIterator;
use std::marker::Model;

/// The samples of a fragment, from the first to the last. Each item is a sample or its fault, and a fault is the last
/// item. Contracts see a `FragmentProgress`.
#[derive(Drop)]
pub struct FragmentSamples<'a> {
    fragment: Fragment<'a>,
    place: FragmentPlace,
    ended: bool,
}

impl<'a> Model for FragmentSamples<'a> {
    ghost use Rattle.mp4_samples.specs.FragmentGives.{FragmentProgress};
    ghost use Rattle.mp4_samples.specs.FragmentPlaces.{IsAt};

    ghost Value = { FragmentProgress };

    ghost view = { λ s. record { fragment = s.fragment; run = s.place.run; index = s.place.index; ended = s.ended } };

    ghost invariant = { λ s. IsAt s.fragment s.place };
}

impl<'a> FragmentSamples<'a> {
    /// Returns an iterator over the samples of `fragment`.
    pub(crate) fn new(fragment: Fragment<'a>) -> FragmentSamples<'a>
        ensures { result ≡ begins fragment.entry }
    {
        FragmentSamples {
            fragment,
            place: first_place(&fragment),
            ended: false,
        }
    }

    /// Returns the end time of the sample that was returned last, in the timescale of the media. After the last sample
    /// it is the `time_end` of the next fragment of the track.
    pub fn time(&self) -> u64
        ensures { result ≡ time_of self.now }
    {
        self.place.time
    }

    /// Returns the end of the sample that was returned last. After the last sample it is the `data_end` of the next
    /// `traf` of the `moof`. It is `None` below 0 and above 2^64 - 1, which is possible if a run has no samples.
    pub fn offset(&self) -> Option<u64>
        ensures some { IfSome result (λ offset. pos offset ≡ offset_of self.now) }
        ensures none { IfNone result (¬ HasOffset (offset_of self.now) 0) }
    {
        offset_in_file(self.place.offset)
    }
}

impl<'a> Iterator for FragmentSamples<'a> {
    ghost use Rattle.mp4_samples.specs.FragmentGives.{GivesFragmentSample, fragment_samples_left};

    type Item = Result<Sample, FragmentFault>;

    ghost next_gives = { GivesFragmentSample };

    ghost remaining = { λ s. at_most (fragment_samples_left s) };

    fn next(&mut self) -> Option<Result<Sample, FragmentFault>> {
        if self.ended {
            return None;
        }
        let place = in_run(&self.fragment, self.place);
        self.place = place;
        if place.run >= self.fragment.runs.len() {
            self.ended = true;
            return None;
        }
        match sample_at(&self.fragment, place) {
            Ok((sample, next)) => {
                self.place = next;
                Some(Ok(sample))
            }
            Err(fault) => {
                self.ended = true;
                Some(Err(fault))
            }
        }
    }
}

impl<'a> FusedIterator for FragmentSamples<'a> {}
