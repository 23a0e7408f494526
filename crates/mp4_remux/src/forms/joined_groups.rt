//! The groups of the samples of a track, joined over its tables and its fragments.

use crate::forms::refusal::FormStop;
use crate::forms::sample_groups::Grouping;
use crate::forms::tracks::grouping_at;
use crate::refusal::{Stop, in_fragments};
use mp4_frame::{FourCC, codes};
use mp4_movie::{BoxError, MovieError, TrackFragment, read_at};
use mp4_tables::TfhdBox;
use mp4_walk::{BoxWalk, Source, TreeBox};
use std::alloc::Global;
use std::collections::BTreeMap;

/// A grouping, and the number of the last samples that are in none of its runs.
#[derive(Debug, Drop)]
struct Joined {
    grouping: Grouping,
    missing: u32,
}

/// The groups of the samples of a track, as far as samples were added.
#[derive(Debug, Drop)]
pub struct JoinedGroups {
    all: Vec<Joined>,
    /// The number of samples.
    count: u32,
}

impl JoinedGroups {
    /// Returns the groups of no samples.
    pub(crate) fn new(alloc: Global) -> JoinedGroups {
        JoinedGroups {
            all: Vec::new(alloc),
            count: 0,
        }
    }

    /// Returns the index of the grouping of the kind of `part`, after it is added if there is none.
    fn index_of(&mut self, alloc: Global, part: &Grouping) -> Result<usize, FormStop> {
        for index in 0..self.all.len() {
            if self.all[index].grouping.is_like(part) {
                return Ok(index);
            }
        }
        self.all.push(Joined {
            grouping: Grouping::empty_like(alloc, part),
            missing: self.count,
        })?;
        Ok(self.all.len().saturating_sub(1))
    }

    /// Adds the next `count` samples, with the groups `parts`.
    pub(crate) fn add(
        &mut self,
        alloc: Global,
        parts: Vec<Grouping>,
        count: u32,
    ) -> Result<(), FormStop> {
        for part in &parts {
            self.index_of(alloc, part)?;
        }
        let mut parts = parts;
        for joined in self.all.iter_mut() {
            joined.add(alloc, &mut parts, count)?;
        }
        self.count = self.count.saturating_add(count);
        Ok(())
    }

    /// Returns the groupings.
    pub(crate) fn into_groupings(self, alloc: Global) -> Result<Vec<Grouping>, FormStop> {
        let JoinedGroups { all, count: _ } = self;
        let mut groupings = Vec::new(alloc);
        for joined in all {
            let Joined {
                grouping,
                missing: _,
            } = joined;
            groupings.push(grouping)?;
        }
        Ok(groupings)
    }
}

impl Joined {
    /// Adds the next `count` samples, with the first of `parts` that is of this kind.
    fn add(&mut self, alloc: Global, parts: &mut [Grouping], count: u32) -> Result<(), FormStop> {
        for part in parts.iter_mut() {
            if self.grouping.is_like(part) {
                self.missing = self.grouping.add(alloc, part, self.missing, count)?;
                return Ok(());
            }
        }
        self.missing = self.missing.saturating_add(count);
        Ok(())
    }
}

/// The `sbgp`s of each `traf` of a track, in the order of the file.
#[derive(Debug, Drop)]
pub struct TrafGroups {
    /// The boxes of each `traf`.
    pub trafs: Vec<Vec<TreeBox>>,
}

/// The `sbgp`s of the fragments of each track_ID. A file whose fragments have none has no track here.
#[derive(Debug, Drop)]
pub struct FragmentGroups {
    by_id: BTreeMap<u32, TrafGroups>,
}

/// Returns whether a `traf` among `boxes` has groups.
fn has_groups(boxes: &[TreeBox]) -> bool {
    for found in boxes {
        if found.context.parent == codes::TRAF && found.has_code(FourCC::from(codes::SBGP)) {
            return true;
        }
    }
    false
}

/// Stores the groups of the next `traf` of the track with the track_ID `id`.
fn keep(
    alloc: Global,
    by_id: &mut BTreeMap<u32, TrafGroups>,
    id: u32,
    groups: Vec<TreeBox>,
) -> Result<(), FormStop> {
    let mut track = match by_id.remove(&id) {
        Some(track) => track,
        None => TrafGroups {
            trafs: Vec::new(alloc),
        },
    };
    track.trafs.push(groups)?;
    match by_id.insert(id, track) {
        Ok(_) => Ok(()),
        Err(_) => Err(FormStop::Memory),
    }
}

/// Returns the track_ID in `found`, a `tfhd`.
fn id_in<S: Source>(
    alloc: Global,
    walk: &mut BoxWalk<S>,
    found: &TreeBox,
) -> Result<u32, MovieError> {
    match read_at::<TfhdBox, S>(alloc, walk, found)? {
        Ok(header) => Ok(header.track_id),
        Err(error) => Err(MovieError::Box(BoxError::Fault {
            code: FourCC::from(codes::TFHD),
            position: found.position,
            error,
        })),
    }
}

/// The `traf` that is read.
#[derive(Drop)]
struct Current {
    id: Option<u32>,
    groups: Vec<TreeBox>,
}

/// Stores the groups of `current`, if it has a header.
fn keep_current(
    alloc: Global,
    by_id: &mut BTreeMap<u32, TrafGroups>,
    current: Current,
) -> Result<(), FormStop> {
    let Current { id, groups } = current;
    match id {
        Some(id) => keep(alloc, by_id, id, groups),
        None => Ok(()),
    }
}

/// Returns the `sbgp`s of the fragments among `boxes`.
pub(crate) fn fragment_groups<S: Source>(
    alloc: Global,
    walk: &mut BoxWalk<S>,
    boxes: &[TreeBox],
) -> Result<FragmentGroups, Stop> {
    let mut by_id = BTreeMap::new(alloc);
    if !has_groups(boxes) {
        return Ok(FragmentGroups { by_id });
    }
    let mut current = Current {
        id: None,
        groups: Vec::new(alloc),
    };
    for found in boxes {
        let Some(code) = found.code else {
            continue;
        };
        let number = u32::from(code);
        if number == codes::TRAF && found.depth == 1 {
            keep_current(alloc, &mut by_id, current)?;
            current = Current {
                id: None,
                groups: Vec::new(alloc),
            };
        } else if found.context.parent == codes::TRAF && found.depth == 2 {
            if number == codes::SBGP {
                current.groups.push(*found)?;
            } else if number == codes::TFHD && current.id.is_none() {
                current.id = match id_in(alloc, walk, found) {
                    Ok(id) => Some(id),
                    Err(error) => return Err(in_fragments(error)),
                };
            }
        }
    }
    keep_current(alloc, &mut by_id, current)?;
    Ok(FragmentGroups { by_id })
}

/// Returns the number of samples of `fragment`, at most 2^32 - 1.
pub(crate) fn count_of(fragment: &TrackFragment) -> u32 {
    let mut count: u32 = 0;
    for run in &fragment.runs {
        count = count.saturating_add(run.sample_count);
    }
    count
}

/// Returns the groups in `found`, the `sbgp`s of a `traf`.
fn groupings_at<S: Source>(
    alloc: Global,
    walk: &mut BoxWalk<S>,
    found: &[TreeBox],
) -> Result<Vec<Grouping>, Stop> {
    let mut all = Vec::new(alloc);
    for one in found {
        match grouping_at(alloc, walk, one) {
            Ok(grouping) => all.push(grouping)?,
            Err(error) => return Err(in_fragments(error)),
        }
    }
    Ok(all)
}

impl FragmentGroups {
    /// Adds the samples of `fragments` to `joined`, with their groups. They are all fragments of the track with the
    /// track_ID `id`.
    pub(crate) fn join<S: Source>(
        &self,
        alloc: Global,
        walk: &mut BoxWalk<S>,
        id: u32,
        fragments: &[TrackFragment],
        joined: &mut JoinedGroups,
    ) -> Result<(), Stop> {
        let Some(track) = self.by_id.get(&id) else {
            return Ok(());
        };
        for number in 0..fragments.len() {
            let parts = match track.trafs.get(number) {
                Some(found) => groupings_at(alloc, walk, found)?,
                None => Vec::new(alloc),
            };
            joined.add(alloc, parts, count_of(&fragments[number]))?;
        }
        Ok(())
    }
}
