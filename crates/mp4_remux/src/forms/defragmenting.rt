//! The plan of a file whose fragments are joined into tables.

use crate::forms::budget::Budget;
use crate::forms::chunk_place::ChunkPlace;
use crate::forms::dependencies::{all_dependencies, says_more};
use crate::forms::joined_groups::{FragmentGroups, JoinedGroups, fragment_groups};
use crate::forms::movie_copy::{
    CopiedMovie, Durations, NewDuration, NewMovie, TrackDurations, copy_movie,
};
use crate::forms::new_bytes::{media_header_length, push_media_header, set_u32, set_u64};
use crate::forms::new_tables::{NewTables, push_chunk_offsets};
use crate::forms::obstacles::{check_boxes, check_tops};
use crate::forms::refusal::{FormRefusal, FormStop};
use crate::forms::sample_groups::Grouping;
use crate::forms::times::Time;
use crate::forms::tops::{Side, first_top, push_kept, push_piece};
use crate::forms::tracks::{
    Track, TrackParts, Tracks, check_counts, dependencies_of, groupings_of, movie_scale, parts_of,
    read_tracks,
};
use crate::groups::{Groups, fragments_of};
use crate::media::Media;
use crate::pieces::{Piece, Plan};
use crate::refusal::{Stop, in_fragments};
use crate::track::samples_in;
use mp4_frame::{FourCC, codes};
use mp4_movie::{Movie, TrackFragment};
use mp4_walk::{BoxWalk, Source, TreeBox};
use std::alloc::Global;

/// The plan of a file whose fragments are joined.
#[derive(Drop)]
pub struct Defragmented {
    /// The plan of the file.
    pub plan: Plan,
    /// The number of `moof`s that are joined.
    pub fragments: u64,
    /// The number of samples of all tracks.
    pub samples: u64,
}

/// The facts of the new tables of a track.
#[derive(Clone, Copy, Debug, PartialEq, Eq)]
pub struct TableFacts {
    /// The number of bytes before the chunk offsets.
    length: usize,
    /// The number of chunks.
    chunks: u32,
    /// The number of samples.
    count: u32,
    /// The time at which the last sample ends.
    end: u64,
}

/// The new tables of a track, without chunk offsets.
#[derive(Debug, Drop)]
pub struct TrackTables {
    bytes: Vec<u8>,
    facts: TableFacts,
}

/// The new tables of all tracks, and the places of their chunks.
#[derive(Drop)]
pub struct AllTables {
    /// The tables of each track.
    pub tables: Vec<Vec<u8>>,
    /// The facts of the tables of each track.
    pub facts: Vec<TableFacts>,
    /// The places of the chunks of all tracks.
    pub places: Vec<ChunkPlace>,
}

impl TrackTables {
    /// Returns the time at which the last sample ends.
    pub(crate) fn end(&self) -> u64 {
        self.facts.end
    }
}

/// Refuses a file without an `mvex` and without a `moof`. Returns the number of `moof`s.
fn count_fragments(boxes: &[TreeBox]) -> Result<u64, FormRefusal> {
    let mut is_fragmented = false;
    let mut count: u64 = 0;
    for found in boxes {
        if found.depth == 0 && found.has_code(FourCC::from(codes::MOOF)) {
            is_fragmented = true;
            count = count.saturating_add(1);
        }
        if found.depth == 1 && found.has_code(FourCC::from(codes::MVEX)) {
            is_fragmented = true;
        }
    }
    if is_fragmented {
        Ok(count)
    } else {
        Err(FormRefusal::NotFragmented)
    }
}

/// Refuses fragments of a track that the `moov` doesn't have. Returns the number of samples in fragments.
pub(crate) fn check_groups(groups: &Groups, tracks: &Tracks) -> Result<u64, FormRefusal> {
    let mut samples: u64 = 0;
    for (id, group) in groups.by_track.iter() {
        for fragment in &group.fragments {
            if !tracks.by_id.contains_key(id) {
                return Err(FormRefusal::NoTrack {
                    position: fragment.moof,
                    id: *id,
                });
            }
            for run in &fragment.runs {
                samples = samples.saturating_add(u64::from(run.sample_count));
            }
        }
    }
    Ok(samples)
}

/// Adds all samples of `track` to `tables`. Returns whether the dependencies of a sample say more than its sync flag.
fn add_samples(
    track: &Track,
    fragments: &[TrackFragment],
    dependencies: &[u8],
    tables: &mut NewTables,
    places: &mut Vec<ChunkPlace>,
    budget: &mut Budget,
) -> Result<bool, Stop> {
    let mut samples = samples_in(&track.tables, fragments, track.place)?;
    let mut is_more = false;
    for number in 1..u64::MAX {
        match samples.next() {
            Ok(Some(sample)) => {
                budget.take(&sample, track.place, number)?;
                let known = dependencies
                    .get(tables.count as usize)
                    .copied()
                    .unwrap_or(0);
                is_more = is_more || says_more(known, sample.is_sync);
                tables.add(&sample, places)?;
            }
            Ok(None) => break,
            Err(_) => {
                return Err(Stop::from(FormRefusal::Untold {
                    track: track.place,
                    number,
                }));
            }
        }
    }
    tables.finish(places)?;
    Ok(is_more)
}

/// Returns the groups of the samples of `track`, in its tables and its fragments.
pub(crate) fn groups_of<S: Source>(
    alloc: Global,
    walk: &mut BoxWalk<S>,
    track: &Track,
    part: &TrackParts,
    fragments: &[TrackFragment],
    groups: &FragmentGroups,
) -> Result<Vec<Grouping>, Stop> {
    let mut joined = JoinedGroups::new(alloc);
    let tabled = groupings_of(alloc, walk, part, track.place)?;
    joined.add(alloc, tabled, track.count())?;
    groups.join(alloc, walk, track.id, fragments, &mut joined)?;
    Ok(joined.into_groupings(alloc)?)
}

/// Returns the bytes of `tables`, with their facts. The `dependencies` of samples are listed if `is_more`.
pub(crate) fn finished(
    alloc: Global,
    tables: NewTables,
    dependencies: &[u8],
    is_more: bool,
    groups: Vec<Grouping>,
) -> Result<TrackTables, FormStop> {
    let (chunks, count, end) = (tables.chunk_count, tables.count, tables.end);
    let listed = if is_more { Some(dependencies) } else { None };
    let bytes = tables.into_bytes(alloc, listed, groups)?;
    let facts = TableFacts {
        length: bytes.len(),
        chunks,
        count,
        end,
    };
    Ok(TrackTables { bytes, facts })
}

/// Returns the new tables of `track`, which is the track with this index.
fn tables_of<S: Source>(
    alloc: Global,
    walk: &mut BoxWalk<S>,
    track: &Track,
    index: usize,
    part: &TrackParts,
    fragments: &[TrackFragment],
    groups: &FragmentGroups,
    places: &mut Vec<ChunkPlace>,
    budget: &mut Budget,
) -> Result<TrackTables, Stop> {
    let known = dependencies_of(alloc, walk, part)?;
    let dependencies = all_dependencies(known, track.count(), fragments)?;
    let mut tables = NewTables::new(alloc, track.place, index);
    let is_more = add_samples(track, fragments, &dependencies, &mut tables, places, budget)?;
    let groupings = groups_of(alloc, walk, track, part, fragments, groups)?;
    Ok(finished(alloc, tables, &dependencies, is_more, groupings)?)
}

/// Adds the tables of a track to `all`.
pub(crate) fn add_tables(all: &mut AllTables, tables: TrackTables) -> Result<(), FormStop> {
    let TrackTables { bytes, facts } = tables;
    all.tables.push(bytes)?;
    all.facts.push(facts)?;
    Ok(())
}

/// Returns the new tables of all `tracks`, whose fragments are `fragments`. Frees the fragments, since they take more
/// memory than the new tables.
fn all_tables<S: Source>(
    alloc: Global,
    walk: &mut BoxWalk<S>,
    boxes: &[TreeBox],
    tracks: &[Track],
    parts: &[TrackParts],
    fragments: Groups,
    length: u64,
) -> Result<AllTables, Stop> {
    let groups = fragment_groups(alloc, walk, boxes)?;
    let mut budget = Budget::new(length);
    let mut all = AllTables {
        tables: Vec::new(alloc),
        facts: Vec::new(alloc),
        places: Vec::new(alloc),
    };
    for index in 0..tracks.len() {
        let track = &tracks[index];
        let Some(part) = parts.get(index) else {
            continue;
        };
        let made = tables_of(
            alloc,
            walk,
            track,
            index,
            part,
            fragments.of_track(track.id),
            &groups,
            &mut all.places,
            &mut budget,
        )?;
        add_tables(&mut all, made)?;
    }
    Ok(all)
}

/// Returns the new duration of a track with an edit list, or of one without.
fn duration_of(value: u64, is_edited: bool) -> NewDuration {
    NewDuration {
        value,
        least: if is_edited { 0 } else { value },
    }
}

/// Returns the durations of the new file. `scale` is the timescale of the movie.
fn durations_of(
    alloc: Global,
    tracks: &[Track],
    parts: &[TrackParts],
    facts: &[TableFacts],
    scale: u32,
) -> Result<Durations, FormStop> {
    let mut all = Vec::new(alloc);
    let mut movie = NewDuration { value: 0, least: 0 };
    for index in 0..tracks.len() {
        let (Some(part), Some(known)) = (parts.get(index), facts.get(index)) else {
            continue;
        };
        let end = Time {
            ticks: known.end,
            scale: tracks[index].scale,
        };
        let shown = duration_of(end.in_scale(scale), part.has_edits);
        movie.value = movie.value.max(shown.value);
        movie.least = movie.least.max(shown.least);
        all.push(TrackDurations {
            media: duration_of(known.end, false),
            movie: shown,
        })?;
    }
    Ok(Durations {
        movie,
        tracks: all,
        edits: Vec::new(alloc),
    })
}

/// Returns the new `moov`, with places for chunk offsets of 64 bits each if `is_wide`.
fn movie_with<S: Source>(
    alloc: Global,
    walk: &mut BoxWalk<S>,
    boxes: &[TreeBox],
    all: &mut AllTables,
    durations: &Durations,
    is_wide: bool,
) -> Result<CopiedMovie, Stop> {
    let facts = all.facts.as_slice();
    for (index, bytes) in all.tables.iter_mut().enumerate() {
        if let Some(known) = facts.get(index) {
            bytes.truncate(known.length);
            push_chunk_offsets(bytes, known.chunks, is_wide)?;
        }
    }
    let new = NewMovie {
        tables: all.tables.as_slice(),
        extends: &[],
        durations: Some(durations),
    };
    copy_movie(alloc, walk, boxes, new)
}

/// Sets the chunk offsets in `movie`. The chunks at `places` follow each other in the new file, starting at `begin`.
fn set_offsets(movie: &mut CopiedMovie, all: &AllTables, begin: u64, is_wide: bool) {
    let width: usize = if is_wide { 8 } else { 4 };
    let mut offset = begin;
    for place in &all.places {
        if let (Some(first), Some(known)) = (
            movie.tables_at.get(place.track).copied(),
            all.facts.get(place.track),
        ) {
            // The header of the table has 16 bytes.
            let at = first
                .saturating_add(known.length)
                .saturating_add(16)
                .saturating_add(width.saturating_mul(place.index as usize));
            if is_wide {
                set_u64(&mut movie.bytes, at, offset);
            } else {
                set_u32(
                    &mut movie.bytes,
                    at,
                    u32::try_from(offset).unwrap_or(u32::MAX),
                );
            }
        }
        offset = offset.saturating_add(place.length);
    }
}

/// Returns the number of bytes of the chunks at `places`.
fn media_length(places: &[ChunkPlace]) -> u64 {
    let mut length: u64 = 0;
    for place in places {
        length = length.saturating_add(place.length);
    }
    length
}

/// Returns a plan of the boxes before the `moov`.
fn front_of<S: Source>(
    alloc: Global,
    walk: &mut BoxWalk<S>,
    boxes: &[TreeBox],
    movie: u64,
) -> Result<Plan, Stop> {
    let mut plan = Plan::new(alloc);
    if let Some(ftyp) = first_top(boxes, codes::FTYP) {
        push_piece(
            &mut plan,
            Piece::Old {
                begin: ftyp.position,
                end: ftyp.position.saturating_add(ftyp.length),
            },
        )?;
    }
    push_kept(alloc, walk, boxes, movie, Side::Before, &mut plan)?;
    Ok(plan)
}

/// Returns the number of bytes of the boxes after the `moov`.
fn length_after<S: Source>(
    alloc: Global,
    walk: &mut BoxWalk<S>,
    boxes: &[TreeBox],
    movie: u64,
) -> Result<u64, Stop> {
    let mut plan = Plan::new(alloc);
    push_kept(alloc, walk, boxes, movie, Side::After, &mut plan)?;
    Ok(plan.length())
}

/// Adds the header of the `mdat` and the chunks at `places` to `plan`.
fn push_media(alloc: Global, plan: &mut Plan, places: &[ChunkPlace]) -> Result<(), FormStop> {
    let mut header = Vec::new(alloc);
    push_media_header(&mut header, media_length(places))?;
    push_piece(plan, Piece::New(header))?;
    for place in places {
        push_piece(
            plan,
            Piece::Old {
                begin: place.begin,
                end: place.begin.saturating_add(place.length),
            },
        )?;
    }
    Ok(())
}

/// Returns the new `moov` with its chunk offsets, if the media data have `length` bytes and all other boxes `others`.
fn movie_of<S: Source>(
    alloc: Global,
    walk: &mut BoxWalk<S>,
    boxes: &[TreeBox],
    all: &mut AllTables,
    durations: &Durations,
    others: u64,
    length: u64,
) -> Result<Vec<u8>, Stop> {
    let mut movie = movie_with(alloc, walk, boxes, all, durations, false)?;
    let end = others
        .saturating_add(movie.bytes.len() as u64)
        .saturating_add(length);
    let is_wide = end > u64::from(u32::MAX);
    if is_wide {
        movie = movie_with(alloc, walk, boxes, all, durations, true)?;
    }
    let begin = others.saturating_add(movie.bytes.len() as u64);
    set_offsets(&mut movie, all, begin, is_wide);
    let CopiedMovie {
        bytes,
        tables_at: _,
    } = movie;
    Ok(bytes)
}

/// Returns the plan of the new file, with its new tables.
pub(crate) fn plan_file<S: Source>(
    alloc: Global,
    walk: &mut BoxWalk<S>,
    boxes: &[TreeBox],
    all: &mut AllTables,
    durations: &Durations,
) -> Result<Plan, Stop> {
    let Some(moov) = first_top(boxes, codes::MOOV) else {
        return Err(Stop::from(FormRefusal::NoMovie));
    };
    let mut plan = front_of(alloc, walk, boxes, moov.position)?;
    let after = length_after(alloc, walk, boxes, moov.position)?;
    let length = media_length(&all.places);
    let others = plan
        .length()
        .saturating_add(after)
        .saturating_add(media_header_length(length));
    let movie = movie_of(alloc, walk, boxes, all, durations, others, length)?;
    push_piece(&mut plan, Piece::New(movie))?;
    push_kept(alloc, walk, boxes, moov.position, Side::After, &mut plan)?;
    push_media(alloc, &mut plan, &all.places)?;
    Ok(plan)
}

/// Returns the number of samples in the tables with these facts.
pub(crate) fn count_in(facts: &[TableFacts]) -> u64 {
    let mut count: u64 = 0;
    for known in facts {
        count = count.saturating_add(u64::from(known.count));
    }
    count
}

/// Plans the new file. `groups` are the fragments of the tracks, in `count` `moof`s.
fn plan_joined<S: Source>(
    alloc: Global,
    walk: &mut BoxWalk<S>,
    boxes: &[TreeBox],
    tracks: &[Track],
    groups: Groups,
    length: u64,
    count: u64,
) -> Result<Defragmented, Stop> {
    let parts = parts_of(alloc, boxes)?;
    let scale = movie_scale(alloc, walk, boxes)?;
    let mut all = all_tables(alloc, walk, boxes, tracks, &parts, groups, length)?;
    all.places.sort_unstable();
    let durations = durations_of(alloc, tracks, &parts, &all.facts, scale)?;
    let plan = plan_file(alloc, walk, boxes, &mut all, &durations)?;
    Ok(Defragmented {
        plan,
        fragments: count,
        samples: count_in(&all.facts),
    })
}

/// Plans a progressive file with the samples of a fragmented file: `ftyp`, `moov` with tables of all samples, and one
/// `mdat`. Reads no media data. Needs the memory of all fragments and sample tables, of the new tables, and 32 bytes
/// for each chunk: a run of samples of a track that follow each other in the old file. Takes a step for each sample,
/// and sorts the chunks.
pub fn plan_tables<S: Source>(alloc: Global, source: S) -> Result<Defragmented, Stop> {
    let mut source = source;
    let length = source.length()?;
    let mut movie = Movie::open(alloc, source)?;
    check_tops(movie.boxes())?;
    let count = count_fragments(movie.boxes())?;
    let tracks = read_tracks(alloc, &mut movie)?;
    let groups = match fragments_of(alloc, &mut movie) {
        Ok(groups) => groups,
        Err(error) => return Err(in_fragments(error)),
    };
    let (mut walk, boxes) = movie.into_parts();
    check_boxes(alloc, &mut walk, &boxes, true)?;
    let samples = check_groups(&groups, &tracks)?;
    check_counts(&tracks.all, samples, length)?;
    plan_joined(alloc, &mut walk, &boxes, &tracks.all, groups, length, count)
}
