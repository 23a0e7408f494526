//! The samples of a track, which are taken fragment by fragment.

use crate::forms::budget::Budget;
use crate::forms::moof::{Run, usual_dependencies};
use crate::forms::ranges::Ranges;
use crate::forms::refusal::FormStop;
use crate::forms::rendering::{short_offset, shown_at};
use crate::forms::sample_groups::Grouping;
use crate::forms::times::Time;
use crate::refusal::TrackPlace;
use mp4_samples::{Sample, Samples};
use std::alloc::Global;

/// The samples of a track that are in no fragment yet.
#[derive(Drop)]
pub struct Cursor<'a> {
    /// The track, as refusals name it.
    place: TrackPlace,
    /// The track_ID.
    id: u32,
    /// The timescale of its media.
    scale: u32,
    /// The samples after the next one.
    samples: Samples<'a>,
    /// The next sample.
    pub next: Option<Sample>,
    /// The number of samples that are passed.
    passed: u64,
    /// The time at which these end.
    pub time: u64,
    /// The earliest time at which one of these is presented.
    pub earliest: u64,
    /// The dependencies of the samples, a byte for each, as far as they are known.
    dependencies: Vec<u8>,
    /// The groups of the samples.
    groups: Vec<Grouping>,
}

impl<'a> Cursor<'a> {
    /// Returns the samples of a track.
    pub(crate) fn new(
        place: TrackPlace,
        id: u32,
        scale: u32,
        samples: Samples<'a>,
        dependencies: Vec<u8>,
        groups: Vec<Grouping>,
    ) -> Cursor<'a> {
        let mut samples = samples;
        let next = samples.next();
        Cursor {
            place,
            id,
            scale,
            samples,
            next,
            passed: 0,
            time: 0,
            earliest: u64::MAX,
            dependencies,
            groups,
        }
    }

    /// Returns the next sample, if it is decoded before `end`.
    fn next_before(&self, end: Option<Time>) -> Option<Sample> {
        let sample = self.next?;
        match end {
            None => Some(sample),
            Some(end) => {
                let begin = Time {
                    ticks: sample.start_time,
                    scale: self.scale,
                };
                if begin.is_before(end) {
                    Some(sample)
                } else {
                    None
                }
            }
        }
    }

    /// Passes `sample`, which is the next one.
    fn pass(&mut self, sample: &Sample) {
        self.next = self.samples.next();
        self.passed = self.passed.saturating_add(1);
        self.time = sample.start_time.saturating_add(u64::from(sample.duration));
        self.earliest = self.earliest.min(shown_at(sample));
    }

    /// Returns the dependencies of `sample`, which is the next one.
    fn dependencies_of(&self, sample: &Sample) -> u8 {
        match self.dependencies.get(self.passed as usize) {
            Some(byte) => *byte,
            None => usual_dependencies(sample.is_sync),
        }
    }

    /// Takes the samples before `end` that have the description of `first`, which is the next one.
    fn take_run(
        &mut self,
        alloc: Global,
        first: &Sample,
        end: Option<Time>,
        media: &mut Ranges,
        budget: &mut Budget,
    ) -> Result<Run, FormStop> {
        let mut run = Run::new(alloc, self.id, first);
        for _ in 0..u64::MAX {
            let Some(sample) = self.next_before(end) else {
                break;
            };
            if sample.sample_description_index != run.description {
                break;
            }
            let number = self.passed.saturating_add(1);
            budget.take(&sample, self.place, number)?;
            let offset = short_offset(&sample, self.place, number)?;
            run.push(&sample, offset, self.dependencies_of(&sample))?;
            media.push(sample.offset, u64::from(sample.size))?;
            self.pass(&sample);
        }
        run.take_groups(alloc, &mut self.groups)?;
        Ok(run)
    }

    /// Takes the samples before `end`: adds a run for those of one description that follow each other, and their bytes.
    pub(crate) fn take(
        &mut self,
        alloc: Global,
        end: Option<Time>,
        runs: &mut Vec<Run>,
        media: &mut Ranges,
        budget: &mut Budget,
    ) -> Result<(), FormStop> {
        for _ in 0..u64::MAX {
            let Some(first) = self.next_before(end) else {
                break;
            };
            let run = self.take_run(alloc, &first, end, media, budget)?;
            runs.push(run)?;
        }
        Ok(())
    }
}
