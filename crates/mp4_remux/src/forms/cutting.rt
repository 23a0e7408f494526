//! The plan of a file with a part of the samples of another.

use crate::forms::budget::Budget;
use crate::forms::chunk_place::ChunkPlace;
use crate::forms::defragmenting::{
    AllTables, TrackTables, add_tables, check_groups, count_in, finished, groups_of, plan_file,
};
use crate::forms::dependencies::{all_dependencies, says_more};
use crate::forms::joined_groups::{FragmentGroups, fragment_groups};
use crate::forms::movie_copy::{Durations, NewDuration, TrackDurations};
use crate::forms::new_edits::{MediaRange, RunTimes, new_edits, range_of};
use crate::forms::new_tables::NewTables;
use crate::forms::obstacles::{check_boxes, check_tops};
use crate::forms::refusal::FormStop;
use crate::forms::sample_groups::Grouping;
use crate::forms::times::Time;
use crate::forms::tracks::{
    Track, TrackParts, Tracks, check_counts, dependencies_of, movie_scale, parts_of, read_tracks,
};
use crate::groups::{Groups, fragments_of};
use crate::media::Media;
use crate::parts::origin::list_boxes;
use crate::parts::{Bound, Line, Moment, PartRefusal, Place, last_of};
use crate::pieces::Plan;
use crate::refusal::{Stop, in_fragments};
use crate::track::samples_in;
use mp4_frame::{FourCC, codes};
use mp4_movie::{Movie, TrackFragment};
use mp4_samples::Sample;
use mp4_walk::{BoxWalk, Source, TreeBox};
use std::alloc::Global;

/// The number of nanoseconds in a second.
const SECOND: u32 = 1_000_000_000;

/// The plan of a file with a part of the samples of another.
#[derive(Drop)]
pub struct PlannedPart {
    /// The plan of the file.
    pub plan: Plan,
    /// The time of the media of each track that is presented at 0, in the timescale of the media.
    pub origins: Vec<i64>,
    /// The number of samples of all tracks.
    pub samples: u64,
}

/// The times that are asked for, in nanoseconds, and the timescale of the movie.
#[derive(Clone, Copy, Debug, PartialEq, Eq)]
struct Asked {
    from: u64,
    to: u64,
    scale: u32,
}

/// The run of a track: the numbers of its samples, and its decode time.
#[derive(Clone, Copy, Debug, PartialEq, Eq)]
struct Run {
    /// The number of the first sample, counted from 0.
    begin: u64,
    /// The number of the sample after the last one.
    end: u64,
    /// The decode time of the first sample.
    shift: u64,
}

/// The boxes of a file, as far as its runs need them.
#[derive(Drop)]
struct Boxes {
    tracks: Vec<Track>,
    parts: Vec<TrackParts>,
    ranges: Vec<MediaRange>,
    groups: Groups,
    of_fragments: FragmentGroups,
}

/// Returns this many nanoseconds.
fn nanoseconds(ticks: u64) -> Moment {
    Moment {
        ticks,
        scale: SECOND,
    }
}

/// Returns the last sample of `track` that meets `bound`.
fn last_in(
    track: &Track,
    fragments: &[TrackFragment],
    line: Line,
    bound: Bound,
) -> Result<Option<Place>, Stop> {
    let samples = samples_in(&track.tables, fragments, track.place)?;
    match last_of(samples, line, bound) {
        Ok(last) => Ok(last),
        Err(_) => Err(Stop::from(PartRefusal::Times(track.place))),
    }
}

/// Returns the composition time of `sample`, less `shift`.
fn composed(sample: &Sample, shift: u64) -> i64 {
    i64::try_from(sample.start_time.saturating_sub(shift))
        .unwrap_or(i64::MAX)
        .saturating_add(sample.rendering_offset)
}

/// Returns the time at which the samples of `track` have been presented, in ticks of its media.
fn end_of(track: &Track, fragments: &[TrackFragment], origin: i64) -> Result<u64, Stop> {
    let mut samples = samples_in(&track.tables, fragments, track.place)?;
    let mut end: i64 = 0;
    for _ in 1..u64::MAX {
        match samples.next() {
            Ok(Some(sample)) => {
                let time = composed(&sample, 0).saturating_add(i64::from(sample.duration));
                end = end.max(time.saturating_sub(origin));
            }
            _ => break,
        }
    }
    Ok(u64::try_from(end).unwrap_or(0))
}

/// Returns the index of the first video.
fn video_in(tracks: &[Track]) -> Result<usize, PartRefusal> {
    for index in 0..tracks.len() {
        if tracks[index].handler == FourCC::from(codes::VIDE) {
            return Ok(index);
        }
    }
    Err(PartRefusal::NoVideo)
}

/// Returns whether a track whose samples end at `end`, and which presents `range`, has ended at the time `from`.
fn has_ended(end: Time, range: MediaRange, asked: Asked) -> bool {
    if !end.is_after(asked.from) {
        return true;
    }
    match range.end {
        Some(ticks) => {
            let last = Time {
                ticks,
                scale: asked.scale,
            };
            !last.is_after(asked.from)
        }
        None => false,
    }
}

/// Returns the times of `track`, which presents `range`.
fn line_of(track: &Track, range: MediaRange) -> Line {
    Line {
        scale: track.scale,
        origin: range.origin,
    }
}

/// Returns the time at which `sample` is presented.
fn moment_of(sample: &Sample, line: Line) -> Moment {
    let time = composed(sample, 0).saturating_sub(line.origin);
    Moment {
        ticks: u64::try_from(time).unwrap_or(0),
        scale: line.scale,
    }
}

/// Returns the time at which the run of the video `track` begins, which presents `range`.
fn start_of(
    track: &Track,
    fragments: &[TrackFragment],
    range: MediaRange,
    asked: Asked,
) -> Result<Moment, Stop> {
    let line = line_of(track, range);
    let end = Time {
        ticks: end_of(track, fragments, range.origin)?,
        scale: track.scale,
    };
    if has_ended(end, range, asked) {
        return Err(Stop::from(PartRefusal::Ended(track.place)));
    }
    match last_in(track, fragments, line, Bound::From(nanoseconds(asked.from)))? {
        Some(place) => Ok(moment_of(&place.sample, line)),
        None => Err(Stop::from(PartRefusal::NoSync(track.place))),
    }
}

/// Returns the run of `track` between the times `start` and `to`.
fn run_of(
    track: &Track,
    fragments: &[TrackFragment],
    line: Line,
    start: Moment,
    to: u64,
) -> Result<Run, Stop> {
    let first = last_in(track, fragments, line, Bound::From(start))?;
    let Some(last) = last_in(track, fragments, line, Bound::To(nanoseconds(to)))? else {
        return Err(Stop::from(PartRefusal::Empty(track.place)));
    };
    let end = last.number.saturating_add(1);
    match first {
        Some(place) => Ok(Run {
            begin: place.number,
            end,
            shift: place.sample.start_time,
        }),
        None => Ok(Run {
            begin: 0,
            end,
            shift: first_time(track, fragments)?,
        }),
    }
}

/// Returns the decode time of the first sample of `track`, or 0 if it has none.
fn first_time(track: &Track, fragments: &[TrackFragment]) -> Result<u64, Stop> {
    let mut samples = samples_in(&track.tables, fragments, track.place)?;
    match samples.next() {
        Ok(Some(sample)) => Ok(sample.start_time),
        _ => Ok(0),
    }
}

/// Returns the times of a run without samples. The time `origin` of the media is presented at 0.
fn no_times(origin: i64) -> RunTimes {
    RunTimes {
        origin,
        begin: i64::MAX,
        end: 0,
    }
}

/// Adds the times of `sample` to `times`.
fn add_times(times: &mut RunTimes, sample: &Sample) {
    let begin = composed(sample, 0);
    times.begin = times.begin.min(begin);
    times.end = times
        .end
        .max(begin.saturating_add(i64::from(sample.duration)));
}

/// Adds the samples of `run` to `tables`, and their times to `times`. Returns whether the dependencies of a sample say
/// more than its sync flag.
fn add_run(
    track: &Track,
    fragments: &[TrackFragment],
    run: Run,
    dependencies: &[u8],
    tables: &mut NewTables,
    times: &mut RunTimes,
    places: &mut Vec<ChunkPlace>,
    budget: &mut Budget,
) -> Result<bool, Stop> {
    let mut samples = samples_in(&track.tables, fragments, track.place)?;
    let mut is_more = false;
    for number in 0..run.end {
        let Ok(Some(old)) = samples.next() else {
            return Err(Stop::from(PartRefusal::Times(track.place)));
        };
        if number < run.begin {
            continue;
        }
        let sample = Sample {
            start_time: old.start_time.saturating_sub(run.shift),
            ..old
        };
        budget.take(&sample, track.place, number.saturating_add(1))?;
        let known = dependencies
            .get(tables.count as usize)
            .copied()
            .unwrap_or(0);
        is_more = is_more || says_more(known, sample.is_sync);
        add_times(times, &sample);
        tables.add(&sample, places)?;
    }
    tables.finish(places)?;
    Ok(is_more)
}

/// Returns the groups of the samples of `run`, if those of all samples are `groupings`.
fn cut_groups(
    alloc: Global,
    groupings: Vec<Grouping>,
    run: Run,
) -> Result<Vec<Grouping>, FormStop> {
    let begin = u32::try_from(run.begin).unwrap_or(u32::MAX);
    let count = u32::try_from(run.end.saturating_sub(run.begin)).unwrap_or(u32::MAX);
    let mut all = Vec::new(alloc);
    for grouping in groupings {
        let mut old = grouping;
        let _ = old.take(alloc, begin)?;
        let mut new = Grouping::empty_like(alloc, &old);
        let _ = new.add(alloc, &mut old, 0, count)?;
        all.push(new)?;
    }
    Ok(all)
}

/// Returns the part of `dependencies` that is about the samples of `run`.
fn cut_dependencies(dependencies: &[u8], run: Run) -> &[u8] {
    let length = dependencies.len();
    let end = run.end.min(length as u64) as usize;
    let begin = run.begin.min(end as u64) as usize;
    &dependencies[begin..end]
}

/// Returns the new tables of track `index` with the samples of `run`. Adds the times of the samples to `times`.
fn tables_of<S: Source>(
    alloc: Global,
    walk: &mut BoxWalk<S>,
    file: &Boxes,
    index: usize,
    run: Run,
    times: &mut RunTimes,
    places: &mut Vec<ChunkPlace>,
    budget: &mut Budget,
) -> Result<TrackTables, Stop> {
    let (Some(track), Some(part)) = (file.tracks.get(index), file.parts.get(index)) else {
        return Err(Stop::from(PartRefusal::NoVideo));
    };
    let fragments = file.groups.of_track(track.id);
    let known = dependencies_of(alloc, walk, part)?;
    let all = all_dependencies(known, track.count(), fragments)?;
    let dependencies = cut_dependencies(all.as_slice(), run);
    let mut tables = NewTables::new(alloc, track.place, index);
    let is_more = add_run(
        track,
        fragments,
        run,
        dependencies,
        &mut tables,
        times,
        places,
        budget,
    )?;
    let groupings = groups_of(alloc, walk, track, part, fragments, &file.of_fragments)?;
    let cut = cut_groups(alloc, groupings, run)?;
    Ok(finished(alloc, tables, dependencies, is_more, cut)?)
}

/// Returns a duration that replaces any other.
fn set_to(value: u64) -> NewDuration {
    NewDuration {
        value,
        least: u64::MAX,
    }
}

/// Returns the longest duration of the edits of a track that presents `range`, in the timescale of the movie.
fn longest(asked: Asked, range: MediaRange) -> u64 {
    let part = Time {
        ticks: asked.to.saturating_sub(asked.from),
        scale: SECOND,
    };
    let from = Time {
        ticks: asked.from,
        scale: SECOND,
    };
    let asked_for = part.nearest(asked.scale);
    match range.end {
        Some(end) => asked_for.min(end.saturating_sub(from.in_scale(asked.scale))),
        None => asked_for,
    }
}

/// Returns the time of the media that should be presented at 0, if the samples are decoded `shift` ticks earlier.
fn new_origin(track: &Track, range: MediaRange, asked: Asked, shift: u64) -> i64 {
    let from = Time {
        ticks: asked.from,
        scale: SECOND,
    };
    let ticks = i64::try_from(from.in_scale(track.scale)).unwrap_or(i64::MAX);
    let shift = i64::try_from(shift).unwrap_or(i64::MAX);
    ticks.saturating_add(range.origin).saturating_sub(shift)
}

/// Adds the edit list of a run with these `times`, and its durations, to `durations`. The media of its track end at
/// `end`.
fn add_edits(
    alloc: Global,
    track: &Track,
    range: MediaRange,
    asked: Asked,
    times: RunTimes,
    end: u64,
    durations: &mut Durations,
) -> Result<(), Stop> {
    let most = longest(asked, range);
    let Some(edits) = new_edits(alloc, times, track.scale, most, asked.scale)? else {
        return Err(Stop::from(PartRefusal::Empty(track.place)));
    };
    if durations.movie.value < edits.duration {
        durations.movie = set_to(edits.duration);
    }
    durations.tracks.push(TrackDurations {
        media: set_to(end),
        movie: set_to(edits.duration),
    })?;
    durations.edits.push(edits.bytes)?;
    Ok(())
}

/// Adds the run of track `index` between the times `start` and `asked.to` to `all`, and its edit list to `durations`.
fn add_track<S: Source>(
    alloc: Global,
    walk: &mut BoxWalk<S>,
    file: &Boxes,
    index: usize,
    start: Moment,
    asked: Asked,
    all: &mut AllTables,
    durations: &mut Durations,
    budget: &mut Budget,
) -> Result<(), Stop> {
    let (Some(track), Some(range)) = (file.tracks.get(index), file.ranges.get(index).copied())
    else {
        return Ok(());
    };
    let fragments = file.groups.of_track(track.id);
    let run = run_of(track, fragments, line_of(track, range), start, asked.to)?;
    let mut times = no_times(new_origin(track, range, asked, run.shift));
    let tables = tables_of(
        alloc,
        walk,
        file,
        index,
        run,
        &mut times,
        &mut all.places,
        budget,
    )?;
    let end = tables.end();
    add_tables(all, tables)?;
    add_edits(alloc, track, range, asked, times, end, durations)
}

/// Returns the ranges that `tracks` present. `scale` is the timescale of the movie.
fn ranges_of<S: Source>(
    alloc: Global,
    walk: &mut BoxWalk<S>,
    boxes: &[TreeBox],
    tracks: &[Track],
    scale: u32,
) -> Result<Vec<MediaRange>, Stop> {
    let lists = list_boxes(alloc, boxes)?;
    let mut all = Vec::new(alloc);
    for index in 0..tracks.len() {
        let found = lists.get(index).copied().unwrap_or(None);
        let range = range_of(alloc, walk, &tracks[index], found, scale)?;
        all.push(range)?;
    }
    Ok(all)
}

/// Returns the time of the media that is presented at 0 in each of `ranges`.
fn origins_of(alloc: Global, ranges: &[MediaRange]) -> Result<Vec<i64>, FormStop> {
    let mut origins = Vec::new(alloc);
    for range in ranges {
        origins.push(range.origin)?;
    }
    Ok(origins)
}

/// Returns the time at which the run of the first video of `file` begins.
fn first_start(file: &Boxes, asked: Asked) -> Result<Moment, Stop> {
    let index = video_in(file.tracks.as_slice())?;
    let (Some(track), Some(range)) = (file.tracks.get(index), file.ranges.get(index).copied())
    else {
        return Err(Stop::from(PartRefusal::NoVideo));
    };
    start_of(track, file.groups.of_track(track.id), range, asked)
}

/// Plans the new file.
fn plan_runs<S: Source>(
    alloc: Global,
    walk: &mut BoxWalk<S>,
    boxes: &[TreeBox],
    file: &Boxes,
    asked: Asked,
    length: u64,
) -> Result<PlannedPart, Stop> {
    let start = first_start(file, asked)?;
    let mut budget = Budget::new(length);
    let mut all = AllTables {
        tables: Vec::new(alloc),
        facts: Vec::new(alloc),
        places: Vec::new(alloc),
    };
    let mut durations = Durations {
        movie: set_to(0),
        tracks: Vec::new(alloc),
        edits: Vec::new(alloc),
    };
    for index in 0..file.tracks.len() {
        add_track(
            alloc,
            walk,
            file,
            index,
            start,
            asked,
            &mut all,
            &mut durations,
            &mut budget,
        )?;
    }
    all.places.sort_unstable();
    let plan = plan_file(alloc, walk, boxes, &mut all, &durations)?;
    let samples = count_in(&all.facts);
    Ok(PlannedPart {
        plan,
        origins: origins_of(alloc, file.ranges.as_slice())?,
        samples,
    })
}

/// Plans a progressive file with the samples of a file that are presented between the times `from` and `to`, in
/// nanoseconds. The run of the first video begins with its last sync sample at `from` or before, and the runs of all
/// other tracks begin at the same time. New edit lists present the part only. Reads no media data. Needs the memory of
/// all fragments and sample tables, of the new tables, and 32 bytes for each chunk. Takes three steps for each sample,
/// and sorts the chunks.
pub fn plan_part<S: Source>(
    alloc: Global,
    source: S,
    from: u64,
    to: u64,
) -> Result<PlannedPart, Stop> {
    let mut source = source;
    let length = source.length()?;
    let mut movie = Movie::open(alloc, source)?;
    check_tops(movie.boxes())?;
    let tracks = read_tracks(alloc, &mut movie)?;
    let groups = match fragments_of(alloc, &mut movie) {
        Ok(groups) => groups,
        Err(error) => return Err(in_fragments(error)),
    };
    let (mut walk, boxes) = movie.into_parts();
    check_boxes(alloc, &mut walk, &boxes, true)?;
    let others = check_groups(&groups, &tracks)?;
    check_counts(&tracks.all, others, length)?;
    let scale = movie_scale(alloc, &mut walk, &boxes)?;
    let ranges = ranges_of(alloc, &mut walk, &boxes, &tracks.all, scale)?;
    let parts = parts_of(alloc, &boxes)?;
    let of_fragments = fragment_groups(alloc, &mut walk, &boxes)?;
    let Tracks { all, by_id: _ } = tracks;
    let file = Boxes {
        tracks: all,
        parts,
        ranges,
        groups,
        of_fragments,
    };
    let asked = Asked { from, to, scale };
    plan_runs(alloc, &mut walk, &boxes, &file, asked, length)
}
