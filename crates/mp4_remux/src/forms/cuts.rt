//! The places at which a file is cut into fragments.

use crate::forms::refusal::FormStop;
use crate::forms::times::Time;
use crate::forms::tracks::Track;
use mp4_frame::{FourCC, codes};
use mp4_samples::SampleTables;
use std::alloc::Global;

/// The number of nanoseconds after which a track is cut whose samples are all sync samples.
const USUAL: u64 = 2_000_000_000;

/// The places at which a file is cut into fragments: decode times of the track that leads.
#[derive(Debug, Drop)]
pub struct Cuts {
    /// The index of the track that leads.
    pub lead: usize,
    /// The timescale of that track.
    pub scale: u32,
    /// The time at which each fragment but the last ends, in ticks of the timescale. The times ascend.
    pub ends: Vec<u64>,
}

impl Cuts {
    /// Returns the number of fragments.
    pub(crate) fn count(&self) -> usize {
        self.ends.len().saturating_add(1)
    }

    /// Returns the time at which fragment `index` ends, or `None` for the last one.
    pub(crate) fn end_of(&self, index: usize) -> Option<Time> {
        match self.ends.get(index) {
            Some(ticks) => Some(Time {
                ticks: *ticks,
                scale: self.scale,
            }),
            None => None,
        }
    }
}

/// Returns the index of the first track with at least `least` samples, of video if `is_video`.
fn first_with(tracks: &[Track], least: u32, is_video: bool) -> Option<usize> {
    for index in 0..tracks.len() {
        let track = &tracks[index];
        if track.count() >= least && (!is_video || track.handler == FourCC::from(codes::VIDE)) {
            return Some(index);
        }
    }
    None
}

/// Returns the index of the track that leads: the first of video with at least two samples, or the first with two, or
/// the first with one. A video of one sample is a cover. Returns `None` if no track has samples.
fn lead_of(tracks: &[Track]) -> Option<usize> {
    first_with(tracks, 2, true)
        .or(first_with(tracks, 2, false))
        .or(first_with(tracks, 1, false))
}

/// Returns the number of nanoseconds that a fragment has at least, if `asked` was asked for.
fn least_of(asked: Option<u64>, is_all_sync: bool) -> u64 {
    match asked {
        Some(nanoseconds) => nanoseconds,
        None => { if is_all_sync { USUAL } else { 0 } }
    }
}

/// Returns the decode time of each sync sample after the first that is at least `least` nanoseconds after the one
/// before it.
fn ends_of(
    alloc: Global,
    tables: &SampleTables<'_>,
    scale: u32,
    least: u64,
) -> Result<Vec<u64>, FormStop> {
    let mut ends = Vec::new(alloc);
    let mut last: Option<u64> = None;
    for sample in tables.samples() {
        if !sample.is_sync {
            continue;
        }
        match last {
            None => last = Some(sample.start_time),
            Some(time) => {
                let passed = Time {
                    ticks: sample.start_time.saturating_sub(time),
                    scale,
                };
                if passed.ticks > 0 && passed.is_at_least(least) {
                    ends.push(sample.start_time)?;
                    last = Some(sample.start_time);
                }
            }
        }
    }
    Ok(ends)
}

/// Returns where `tracks` with these agreeing tables are cut, if each fragment has at least `asked` nanoseconds. If
/// none were asked for, a video is cut at each sync sample, and a track whose samples are all sync samples every two
/// seconds. Returns `None` if no track has samples.
pub(crate) fn cuts_of(
    alloc: Global,
    tracks: &[Track],
    tables: &[Option<SampleTables<'_>>],
    asked: Option<u64>,
) -> Result<Option<Cuts>, FormStop> {
    let Some(lead) = lead_of(tracks) else {
        return Ok(None);
    };
    if lead >= tracks.len() || lead >= tables.len() {
        return Ok(None);
    }
    let track = &tracks[lead];
    let Some(agreeing) = &tables[lead] else {
        return Ok(None);
    };
    let is_all_sync = match &track.tables {
        Some(boxes) => boxes.stss.is_none(),
        None => true,
    };
    let least = least_of(asked, is_all_sync);
    let ends = ends_of(alloc, agreeing, track.scale, least)?;
    Ok(Some(Cuts {
        lead,
        scale: track.scale,
        ends,
    }))
}
