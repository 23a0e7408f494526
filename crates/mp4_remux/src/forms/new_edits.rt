//! The edit lists of a part of a file: the old ones, and the new ones.

use crate::forms::new_bytes::{begin_box, end_box, push_box};
use crate::forms::refusal::FormStop;
use crate::forms::times::Time;
use crate::forms::tracks::Track;
use crate::parts::PartRefusal;
use crate::parts::origin::origin_by;
use crate::refusal::{Refusal, Stop, TrackPlace};
use mp4_frame::{Entries, FourCC, codes};
use mp4_movie::{BoxError, read_at};
use mp4_tables::{ElstBox, ElstEntry};
use mp4_walk::{BoxWalk, Source, TreeBox};
use std::alloc::Global;

/// The range of its media that a track presents.
#[derive(Clone, Copy, Debug, PartialEq, Eq)]
pub struct MediaRange {
    /// The time of the media that is presented at 0.
    pub origin: i64,
    /// The time of the presentation at which the range ends, in the timescale of the movie, if the edit list has one.
    pub end: Option<u64>,
}

/// The times of the run of a track. Those of the media are in its timescale, starting at the first sample of the run.
#[derive(Clone, Copy, Debug, PartialEq, Eq)]
pub struct RunTimes {
    /// The time of the media that should be presented at 0.
    pub origin: i64,
    /// The earliest time at which a sample is composed.
    pub begin: i64,
    /// The latest time at which a composed sample ends.
    pub end: i64,
}

/// A new edit list, and the duration of its edits, in the timescale of the movie.
#[derive(Debug, Drop)]
pub struct NewEdits {
    /// The bytes of the `edts`.
    pub bytes: Vec<u8>,
    /// The duration of all edits.
    pub duration: u64,
}

/// Returns the time of the presentation at which the last edit of `list` ends, or `None` if it has no end.
fn end_of(list: &ElstBox) -> Option<u64> {
    let mut end: u64 = 0;
    let mut last: u64 = 0;
    for entry in list.entries.as_slice() {
        last = entry.segment_duration;
        end = end.saturating_add(last);
    }
    if last == 0 { None } else { Some(end) }
}

/// Returns the range that `list` presents: its last edit, and empty ones before it. `scale` is the timescale of the
/// movie.
fn presented_by(list: &ElstBox, track: &Track, scale: u32) -> Result<MediaRange, PartRefusal> {
    match origin_by(list, scale, track.scale) {
        Some(origin) => Ok(MediaRange {
            origin,
            end: end_of(list),
        }),
        None => Err(PartRefusal::Edits(track.place)),
    }
}

/// Returns why the `elst` at `position` can't be read.
fn unread(error: mp4_frame::Error, position: u64, track: TrackPlace) -> Stop {
    Stop::Refused(Refusal::Track {
        track,
        error: BoxError::Fault {
            code: FourCC::from(codes::ELST),
            position,
            error,
        },
    })
}

/// Returns the range of its media that `track` presents, whose edit list is `found`, if it has one. `scale` is the
/// timescale of the movie.
pub(crate) fn range_of<S: Source>(
    alloc: Global,
    walk: &mut BoxWalk<S>,
    track: &Track,
    found: Option<TreeBox>,
    scale: u32,
) -> Result<MediaRange, Stop> {
    let whole = MediaRange {
        origin: 0,
        end: None,
    };
    let Some(place) = found else {
        return Ok(whole);
    };
    match read_at::<ElstBox, S>(alloc, walk, &place) {
        Ok(Ok(list)) => {
            if list.entries.is_empty() {
                return Ok(whole);
            }
            Ok(presented_by(&list, track, scale)?)
        }
        Ok(Err(error)) => Err(unread(error, place.position, track.place)),
        Err(error) => Err(Stop::from(error)),
    }
}

/// Returns the number of ticks from `begin` to `end`, or 0 if it ends before.
fn ticks_between(begin: i64, end: i64) -> u64 {
    u64::try_from(end.saturating_sub(begin)).unwrap_or(0)
}

/// Appends an edit to `list`.
fn push_edit(list: &mut Vec<ElstEntry>, duration: u64, media_time: u64) -> Result<(), FormStop> {
    list.push(ElstEntry {
        segment_duration: duration,
        media_time,
        media_rate: 1,
        media_rate_fraction: 0,
    })?;
    Ok(())
}

/// Returns an `edts` that presents the media for `duration` starting at the time `begin`, after a gap. `gap` and
/// `duration` are in the timescale of the movie.
fn edits_with(alloc: Global, gap: u64, begin: u64, duration: u64) -> Result<Vec<u8>, FormStop> {
    let limit = u64::from(u32::MAX / 2);
    let is_long = gap > limit || duration > limit || begin > limit;
    let mut list = Vec::new(alloc);
    if gap > 0 {
        let none = if is_long {
            u64::MAX
        } else {
            u64::from(u32::MAX)
        };
        push_edit(&mut list, gap, none)?;
    }
    push_edit(&mut list, duration, begin)?;
    let elst = ElstBox {
        version: if is_long { 1 } else { 0 },
        flags: 0,
        entries: Entries::from_vec(list),
    };
    let mut out = Vec::new(alloc);
    let at = begin_box(&mut out, codes::EDTS)?;
    push_box(&mut out, &elst, codes::ELST)?;
    end_box(&mut out, at, codes::EDTS)?;
    Ok(out)
}

/// Returns the edit list of the run of a track with the timescale `scale`, for a part that lasts at most `longest`, in
/// the timescale `movie`. Returns `None` if nothing is presented.
pub(crate) fn new_edits(
    alloc: Global,
    times: RunTimes,
    scale: u32,
    longest: u64,
    movie: u32,
) -> Result<Option<NewEdits>, FormStop> {
    let begin = times.begin.max(times.origin).max(0);
    let gap = Time {
        ticks: ticks_between(times.origin, begin),
        scale,
    };
    let media = Time {
        ticks: ticks_between(begin, times.end),
        scale,
    };
    let wait = gap.in_scale(movie);
    let duration = media.in_scale(movie).min(longest.saturating_sub(wait));
    if duration == 0 {
        return Ok(None);
    }
    let bytes = edits_with(alloc, wait, ticks_between(0, begin), duration)?;
    Ok(Some(NewEdits {
        bytes,
        duration: wait.saturating_add(duration),
    }))
}
