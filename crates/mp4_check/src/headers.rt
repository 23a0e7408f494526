//! The headers of the movie and of its tracks.

ghost use Rattle.std.specs.Prelude.{◌≡◌, ◌-◌, ◌^◌, min, length, Result, Ok, Some, IfOk, IfSome};
ghost use Rattle.mp4_check.specs.Durations.{edits_duration};
ghost use Rattle.mp4_check.specs.Headers.{edits_found, edits_of, media_found, media_times, movie_found, movie_times};
ghost use Rattle.mp4_check.specs.Headers.{track_found, track_header};
ghost use Rattle.mp4_flat.specs.declared.mdhd.MdhdBox.{MdhdBox};
ghost use Rattle.mp4_frame.specs.Reading.{Fault};
ghost use Rattle.mp4_movie.specs.Reads.{IsReadAs};
ghost use Rattle.mp4_samples.specs.Edits.{durations_before};
ghost use Rattle.mp4_tables.specs.declared.elst.ElstBox.{ElstBox};

use crate::duration::Times;
use mp4_flat::{MdhdBox, MvhdBox, TkhdBox};
use mp4_frame::codes::{EDTS, ELST, MDHD, MDIA, MVHD, TKHD};
use mp4_io::{Failure, or_read, read_failure};
use mp4_movie::{first_in, read_at};
use mp4_tables::{ElstBox, ElstEntry};
use mp4_walk::{BoxWalk, Source, TreeBox};
use std::alloc::Global;

/// The numbers of a `tkhd`.
#[derive(Clone, Copy, Debug, PartialEq, Eq)]
pub struct TrackHeader {
    /// The position of the box.
    pub position: u64,
    /// The version of the box.
    pub version: u8,
    /// The track_ID.
    pub track_id: u32,
    /// The duration in ticks of the timescale of the movie.
    pub duration: u64,
}

/// The duration of the edits of a track.
#[derive(Clone, Copy, Debug, PartialEq, Eq)]
pub enum EditTimes {
    /// The track has no edits.
    None,
    /// The edits can't be read, or the last one has no duration.
    Unknown,
    /// The sum of their durations, in ticks of the timescale of the movie.
    Known(u64),
}

/// Returns the numbers of `header`, a `tkhd` at `position`.
fn track_found(header: &TkhdBox, position: u64) -> TrackHeader
    ensures { Some result ≡ track_found position (Ok header.now) }
{
    TrackHeader {
        position,
        version: header.version,
        track_id: header.track_id,
        duration: header.duration,
    }
}

/// Returns the numbers of the `tkhd` of a track, unless it is missing or has a fault. `trak` begins with the boxes
/// inside its `trak`.
pub fn track_header<S: Source>(
    alloc: Global,
    walk: &mut BoxWalk<S>,
    trak: &[TreeBox],
) -> Result<Option<TrackHeader>, Failure>
    ensures value { IfSome walk.old.bytes (λ file. IfOk result (λ r. r ≡ track_header file trak.now)) }
    ensures kept { walk.new ≡ walk.old }
{
    let Some(place) = first_in(trak, 2, TKHD) else {
        return Ok(None);
    };
    match read_at::<TkhdBox, S>(alloc, walk, &place.found) {
        Ok(Ok(header)) => Ok(Some(track_found(&header, place.found.position))),
        Ok(Err(_)) => Ok(None),
        Err(error) => Err(read_failure(&error)),
    }
}

/// Returns the times of `header`, an `mvhd` at `position`.
fn movie_found(header: &MvhdBox, position: u64) -> Times
    ensures { Some result ≡ movie_found position (Ok header.now) }
{
    Times {
        position,
        version: header.version,
        timescale: header.timescale,
        duration: header.duration,
    }
}

/// Returns the times of the `mvhd` of a movie, unless it is missing or has a fault. `movie` begins with the boxes
/// inside its `moov`.
pub fn movie_times<S: Source>(
    alloc: Global,
    walk: &mut BoxWalk<S>,
    movie: &[TreeBox],
) -> Result<Option<Times>, Failure>
    ensures value { IfSome walk.old.bytes (λ file. IfOk result (λ r. r ≡ movie_times file movie.now)) }
    ensures kept { walk.new ≡ walk.old }
{
    let Some(place) = first_in(movie, 1, MVHD) else {
        return Ok(None);
    };
    match read_at::<MvhdBox, S>(alloc, walk, &place.found) {
        Ok(Ok(header)) => Ok(Some(movie_found(&header, place.found.position))),
        Ok(Err(_)) => Ok(None),
        Err(error) => Err(read_failure(&error)),
    }
}

/// Returns the times of `read`, an `mdhd` at `position`.
fn media_found(read: mp4_frame::Result<MdhdBox>, position: u64) -> Option<Times>
    ensures { (r : Result MdhdBox Fault) → IsReadAs read r → result ≡ media_found position r }
{
    match read {
        Ok(header) => Some(Times {
            position,
            version: header.version,
            timescale: header.timescale,
            duration: header.duration,
        }),
        Err(_) => None,
    }
}

/// Returns the times of the `mdhd` of a track, unless it is missing or has a fault. `trak` begins with the boxes inside
/// its `trak`.
pub fn media_times<S: Source>(
    alloc: Global,
    walk: &mut BoxWalk<S>,
    trak: &[TreeBox],
) -> Result<Option<Times>, Failure>
    ensures value { IfSome walk.old.bytes (λ file. IfOk result (λ r. r ≡ media_times file trak.now)) }
    ensures kept { walk.new ≡ walk.old }
{
    let Some(mdia) = first_in(trak, 2, MDIA) else {
        return Ok(None);
    };
    let Some(place) = first_in(mdia.after, 3, MDHD) else {
        return Ok(None);
    };
    let read = or_read(read_at::<MdhdBox, S>(alloc, walk, &place.found))?;
    Ok(media_found(read, place.found.position))
}

/// Returns the sum of the durations of `edits`, or 2^64 - 1 if the sum is larger.
fn sum_of(edits: &[ElstEntry]) -> u64
    ensures { result ≡ min (durations_before edits.now (length edits.now)) (2 ^ 64 - 1) }
{
    let mut total = 0u64;
    for edit in edits {
        total = total.saturating_add(edit.segment_duration);
    }
    total
}

/// Returns the duration of `edits`, unless the last one has none.
fn edits_duration(edits: &[ElstEntry]) -> Option<u64>
    ensures { result ≡ edits_duration edits.now }
{
    match edits.last() {
        Some(last) if last.segment_duration > 0 => Some(sum_of(edits)),
        _ => None,
    }
}

/// Returns the duration of the edits of `read`, an `elst`.
fn edits_found(read: mp4_frame::Result<ElstBox>) -> EditTimes
    ensures { (r : Result ElstBox Fault) → IsReadAs read r → result ≡ edits_found r }
{
    let Ok(list) = read else {
        return EditTimes::Unknown;
    };
    if list.entries.is_empty() {
        return EditTimes::None;
    }
    match edits_duration(list.entries.as_slice()) {
        Some(duration) => EditTimes::Known(duration),
        None => EditTimes::Unknown,
    }
}

/// Returns the duration of the edits of a track. `trak` begins with the boxes inside its `trak`.
pub fn edits_of<S: Source>(
    alloc: Global,
    walk: &mut BoxWalk<S>,
    trak: &[TreeBox],
) -> Result<EditTimes, Failure>
    ensures value { IfSome walk.old.bytes (λ file. IfOk result (λ r. r ≡ edits_of file trak.now)) }
    ensures kept { walk.new ≡ walk.old }
{
    let Some(edts) = first_in(trak, 2, EDTS) else {
        return Ok(EditTimes::None);
    };
    let Some(place) = first_in(edts.after, 3, ELST) else {
        return Ok(EditTimes::None);
    };
    let read = or_read(read_at::<ElstBox, S>(alloc, walk, &place.found))?;
    Ok(edits_found(read))
}
