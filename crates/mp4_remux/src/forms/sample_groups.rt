//! The groups of samples (ISO/IEC 14496-12, 8.9), which are cut with the fragments, and joined with them.

use mp4_declared::Declared;
use mp4_extra_samples::sbgp::{Sbgp, SbgpBox, SbgpEntry};
use mp4_frame::{Entries, FourCC};
use std::alloc::{AllocError, Global};

/// The groups of the samples of a track, for one kind of grouping. Samples after the last run are in no run.
#[derive(Debug, Drop)]
pub struct Grouping {
    /// The version of the box.
    version: u8,
    /// The flags of the box.
    flags: u32,
    /// The kind of grouping.
    kind: FourCC,
    /// The number that distinguishes groupings of this kind.
    parameter: Option<u32>,
    /// The runs of samples.
    runs: Vec<SbgpEntry>,
    /// The number of runs that are passed.
    passed: usize,
    /// The number of samples of the next run that are passed.
    used: u32,
}

impl Grouping {
    /// Returns the groups that `sbgp` lists.
    pub(crate) fn new(sbgp: SbgpBox) -> Grouping {
        let Sbgp {
            version,
            flags,
            grouping_type,
            grouping_type_parameter,
            entries,
        } = sbgp.into_fields();
        Grouping {
            version,
            flags,
            kind: grouping_type,
            parameter: grouping_type_parameter,
            runs: entries.into_vec(),
            passed: 0,
            used: 0,
        }
    }

    /// Returns groups of the kind of `like`, without runs.
    pub(crate) fn empty_like(alloc: Global, like: &Grouping) -> Grouping {
        Grouping {
            version: like.version,
            flags: like.flags,
            kind: like.kind,
            parameter: like.parameter,
            runs: Vec::new(alloc),
            passed: 0,
            used: 0,
        }
    }

    /// Returns whether both are of one kind.
    pub(crate) fn is_like(&self, other: &Grouping) -> bool {
        self.kind == other.kind && self.parameter == other.parameter
    }

    /// Returns the next run, with at most `count` samples, and passes them.
    fn next_run(&mut self, count: u32) -> Option<SbgpEntry> {
        let run = self.runs.get(self.passed).copied()?;
        let left = run.sample_count.saturating_sub(self.used);
        let part = left.min(count);
        if part == left {
            self.passed = self.passed.saturating_add(1);
            self.used = 0;
        } else {
            self.used = self.used.saturating_add(part);
        }
        Some(SbgpEntry {
            sample_count: part,
            group_description_index: run.group_description_index,
        })
    }

    /// Passes the next `count` samples, and returns their runs.
    pub(crate) fn take(&mut self, alloc: Global, count: u32) -> Result<Vec<SbgpEntry>, AllocError> {
        let mut taken = Vec::new(alloc);
        let mut left = count;
        for _ in 0..self.runs.len() {
            if left == 0 {
                break;
            }
            let Some(run) = self.next_run(left) else {
                break;
            };
            left = left.saturating_sub(run.sample_count);
            if run.sample_count > 0 {
                taken.push(run)?;
            }
        }
        Ok(taken)
    }

    /// Adds `count` samples of the group with the index `group`.
    fn add_run(&mut self, count: u32, group: u32) -> Result<(), AllocError> {
        if count == 0 {
            return Ok(());
        }
        if let Some(last) = self.runs.last_mut() {
            if last.group_description_index == group {
                if let Some(sum) = last.sample_count.checked_add(count) {
                    last.sample_count = sum;
                    return Ok(());
                }
            }
        }
        self.runs.push(SbgpEntry {
            sample_count: count,
            group_description_index: group,
        })?;
        Ok(())
    }

    /// Adds the groups of the next `count` samples, as the runs of `part` list them. `before` samples, which are in no
    /// run yet, come before them.
    pub(crate) fn add(
        &mut self,
        alloc: Global,
        part: &mut Grouping,
        before: u32,
        count: u32,
    ) -> Result<u32, AllocError> {
        let runs = part.take(alloc, count)?;
        let mut left = count;
        let mut between = before;
        for run in &runs {
            self.add_run(between, 0)?;
            between = 0;
            self.add_run(run.sample_count, run.group_description_index)?;
            left = left.saturating_sub(run.sample_count);
        }
        Ok(between.saturating_add(left))
    }

    /// Returns the box of these runs, or `None` if there are none.
    fn box_of(&self, runs: Vec<SbgpEntry>) -> Option<SbgpBox> {
        if runs.is_empty() {
            return None;
        }
        Some(Declared::new(Sbgp {
            version: self.version,
            flags: self.flags,
            grouping_type: self.kind,
            grouping_type_parameter: self.parameter,
            entries: Entries::from_vec(runs),
        }))
    }

    /// Passes the next `count` samples, and returns the box of their groups, or `None` if they are in no run.
    pub(crate) fn take_box(
        &mut self,
        alloc: Global,
        count: u32,
    ) -> Result<Option<SbgpBox>, AllocError> {
        let runs = self.take(alloc, count)?;
        Ok(self.box_of(runs))
    }

    /// Returns the box of all runs, or `None` if there are none.
    pub(crate) fn into_box(self) -> Option<SbgpBox> {
        let Grouping {
            version,
            flags,
            kind,
            parameter,
            runs,
            passed: _,
            used: _,
        } = self;
        if runs.is_empty() {
            return None;
        }
        Some(Declared::new(Sbgp {
            version,
            flags,
            grouping_type: kind,
            grouping_type_parameter: parameter,
            entries: Entries::from_vec(runs),
        }))
    }
}
