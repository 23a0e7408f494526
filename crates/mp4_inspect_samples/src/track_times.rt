//! The times of tracks: their timescales, and the ends of their samples.

ghost use Rattle.std.specs.Prelude.{◌≡◌, ◌==◌, ℕ, None, Ok, Result, Some, if◌then◌else◌, IfOk, IfSome, OnOk};
ghost use Rattle.std.specs.BTreeMap.{get};
ghost use Rattle.std.specs.Option.{option_or};
ghost use Rattle.std.specs.Ordering.{nat_cmp};
ghost use Rattle.std.specs.declared.option.Option.{Option};
ghost use Rattle.mp4_frame.specs.FourCC.{four_cc_of};
ghost use Rattle.mp4_frame.specs.declared.codes.TheConstants as names;
ghost use Rattle.mp4_movie.specs.Infos.{AreInfos, IsInfo};
ghost use Rattle.mp4_movie.specs.Levels.{Found, all_in};
ghost use Rattle.mp4_movie.specs.Movies.{samples_of};
ghost use Rattle.mp4_movie.specs.Problems.{Problem, Records};
ghost use Rattle.mp4_movie.specs.declared.sample_boxes.SampleBoxes.{SampleBoxes};
ghost use Rattle.mp4_inspect_samples.specs.Segments.{end_after, end_known, known, start_by, time_after, time_if};
ghost use Rattle.mp4_inspect_samples.specs.Segments.{time_or, time_with};

use crate::durations::duration_of;
use crate::tables::tables_of;
use mp4_flat::TfdtBox;
use mp4_frame::codes::TRAK;
use mp4_io::Failure;
use mp4_movie::{BoxError, SampleBoxes, TrackFragment, TrackInfo, first_in};
use mp4_walk::{BoxWalk, Source, TreeBox};
use std::alloc::{AllocError, Global};
use std::collections::BTreeMap;

/// The times of a track.
#[derive(Clone, Copy, Debug, PartialEq, Eq)]
pub struct TrackTime {
    /// The timescale of its media, in ticks a second, if it is known.
    pub timescale: Option<u32>,
    /// The end of the samples that were read before, in that timescale, if it is known. 2^64 - 1 stands for all later
    /// times.
    pub end: Option<u64>,
}

/// The times of tracks.
#[derive(Drop)]
pub struct TrackTimes {
    /// The times of the track of each track_ID that is known.
    pub by_track: BTreeMap<u32, TrackTime>,
}

/// Returns the start of a fragment with the box `time`, if the samples of its track before it end at `end`.
pub fn start_by(time: &Option<TfdtBox>, end: Option<u64>) -> Option<u64>
    ensures { result ≡ start_by time.now end }
{
    match time {
        Some(time) => Some(time.base_media_decode_time),
        None => end,
    }
}

/// Returns the end of the samples of a track after `fragment`, if those before it end at `end`.
fn end_after(fragment: &TrackFragment, end: Option<u64>) -> Option<u64>
    ensures { result ≡ end_after fragment.now end }
{
    match start_by(&fragment.time, end) {
        Some(start) => Some(start.saturating_add(duration_of(fragment))),
        None => None,
    }
}

impl TrackTimes {
    /// Returns the times of no track.
    fn new(alloc: Global) -> TrackTimes
        ensures { (q : ℕ) → get nat_cmp result.by_track q ≡ None }
    {
        TrackTimes {
            by_track: BTreeMap::new(alloc),
        }
    }

    /// Returns the times of the track with the track_ID `track`.
    pub fn of(&self, track: u32) -> TrackTime
        ensures { result ≡ time_or (get nat_cmp self.now.by_track track) }
    {
        match self.by_track.get(&track) {
            Some(time) => *time,
            None => TrackTime {
                timescale: None,
                end: None,
            },
        }
    }

    /// Stores the times of the track with the track_ID `track`, unless they are stored.
    fn keep_first(&mut self, track: u32, time: TrackTime) -> Result<(), AllocError>
        ensures { OnOk result ((q : ℕ) → get nat_cmp self.new.by_track q
            ≡ option_or (get nat_cmp self.old.by_track q) (if track == q then Some time else None)) }
    {
        if self.by_track.contains_key(&track) {
            return Ok(());
        }
        self.by_track.insert(track, time)?;
        Ok(())
    }

    /// Stores the times of a track after `fragment`.
    pub fn enter(&mut self, fragment: &TrackFragment) -> Result<(), AllocError>
        ensures { OnOk result ((q : ℕ) → time_or (get nat_cmp self.new.by_track q)
            ≡ time_after q (time_or (get nat_cmp self.old.by_track q)) fragment.now) }
    {
        let track = fragment.header.track_id;
        let time = self.of(track);
        let next = TrackTime {
            timescale: time.timescale,
            end: end_after(fragment, time.end),
        };
        self.by_track.insert(track, next)?;
        Ok(())
    }
}

/// Returns the end of the samples of `tables`, if these could be read: 0 without tables.
fn end_by(tables: Result<Option<SampleBoxes>, BoxError>) -> Option<u64>
    ensures { (r : Result (Option SampleBoxes) Problem) → Records tables r
        → result ≡ end_known r }
{
    match tables {
        Ok(Some(boxes)) => Some(boxes.time_end()),
        Ok(None) => Some(0),
        Err(_) => None,
    }
}

/// Returns the number that was read, if it could be.
fn known(read: Result<u32, BoxError>) -> Option<u32>
    ensures { (r : Result ℕ Problem) → Records read r → result ≡ known r }
{
    match read {
        Ok(number) => Some(number),
        Err(_) => None,
    }
}

/// Returns the times of a track before its fragments. `trak` begins with the boxes inside its `trak`.
fn time_of<S: Source>(
    alloc: Global,
    walk: &mut BoxWalk<S>,
    trak: &[TreeBox],
    timescale: Result<u32, BoxError>,
) -> Result<TrackTime, Failure>
    ensures timescale { (r : Result ℕ Problem) → Records timescale r → IfOk result (λ t. t.timescale ≡ known r) }
    ensures end { IfSome walk.old.bytes (λ file. IfOk result (λ t. t.end ≡ end_known (samples_of file trak.now))) }
    ensures kept { walk.new ≡ walk.old }
{
    let tables = tables_of(alloc, walk, trak)?;
    Ok(TrackTime {
        timescale: known(timescale),
        end: end_by(tables),
    })
}

/// Stores the times of a track with the headers `info`, unless they are stored for its track_ID. `trak` begins with the
/// boxes inside its `trak`.
fn enter_track<S: Source>(
    alloc: Global,
    walk: &mut BoxWalk<S>,
    trak: &[TreeBox],
    info: TrackInfo,
    times: &mut TrackTimes,
) -> Result<(), Failure>
    ensures value { IfSome walk.old.bytes (λ file. (number : ℕ) (f : Found) → f.after ≡ trak.now
        → IsInfo file number f info
        → OnOk result ((q : ℕ) → get nat_cmp times.new.by_track q
        ≡ option_or (get nat_cmp times.old.by_track q) (time_if file q f))) }
    ensures kept { walk.new ≡ walk.old }
{
    let TrackInfo {
        number: _,
        position: _,
        track_id,
        timescale,
        handler: _,
    } = info;
    let Some(track) = known(track_id) else {
        return Ok(());
    };
    let time = time_of(alloc, walk, trak, timescale)?;
    times.keep_first(track, time)?;
    Ok(())
}

/// Returns the times of the tracks `infos` before their fragments. The first track of a track_ID counts. `movie` begins
/// with the boxes inside the `moov`.
pub fn times_of<S: Source>(
    alloc: Global,
    walk: &mut BoxWalk<S>,
    movie: &[TreeBox],
    infos: Vec<TrackInfo>,
) -> Result<TrackTimes, Failure>
    ensures value { IfSome walk.old.bytes
        (λ file. AreInfos file 0 (all_in 1 (four_cc_of names.TRAK) movie.now) infos.items
        → IfOk result (λ times. (q : ℕ) → get nat_cmp times.by_track q
        ≡ time_with file q (all_in 1 (four_cc_of names.TRAK) movie.now))) }
    ensures kept { walk.new ≡ walk.old }
{
    let mut times = TrackTimes::new(alloc);
    let mut rest = movie;
    for info in infos {
        let Some(place) = first_in(rest, 1, TRAK) else {
            return Ok(times);
        };
        enter_track(alloc, walk, place.after, info, &mut times)?;
        rest = place.after;
    }
    Ok(times)
}
