//! The rules of a track.

ghost use Rattle.std.specs.Prelude.{◌≡◌, ℕ, ◌==◌, ◌&&◌, ◌||◌, [], ◌∷◌, ◌++◌, is_some, Some, IfOk, IfSome};
ghost use Rattle.std.specs.Prelude.{OnOk, List, None, option_map};
ghost use Rattle.std.specs.BTreeMap.{get};
ghost use Rattle.std.specs.Option.{option_or};
ghost use Rattle.std.specs.Ordering.{nat_cmp};
ghost use Rattle.mp4_check.specs.FaultValues.{values_of};
ghost use Rattle.mp4_check.specs.Media.{AreInOrder};
ghost use Rattle.mp4_check.specs.TrackFaults.{IsMet, chunk_faults, chunks_in, earlier_of, faults_by, header_faults};
ghost use Rattle.mp4_check.specs.TrackFaults.{header_for, id_what, if_not, in_this, media_fault, media_faults};
ghost use Rattle.mp4_check.specs.TrackFaults.{movie_fault, no_chunks};
ghost use Rattle.mp4_check.specs.TrackFaults.{table_faults, track_duration, track_fault, track_faults, track_value};
ghost use Rattle.mp4_check.specs.TrackFaults.{value_of_facts, value_of_track};
ghost use Rattle.mp4_check.specs.Headers.{track_header};
ghost use Rattle.mp4_check.specs.Outside.{chunks_outside};
ghost use Rattle.mp4_check.specs.Overlap.{chunks_overlap};
ghost use Rattle.mp4_check.specs.References.{is_away};
ghost use Rattle.mp4_check.specs.TrackTables.{value_of_chunks};
ghost use Rattle.mp4_check.specs.declared.fault.What.TheVariants as whats;
ghost use Rattle.mp4_movie.specs.Levels.{Found, found_of};

use crate::duration::{Duration, Times, converted, duration_fault, longer};
use crate::fault::{Fault, Reason, What};
use crate::headers::{EditTimes, TrackHeader, edits_of, media_times, track_header};
use crate::media::Media;
use crate::outside::chunks_outside;
use crate::overlap::chunks_overlap;
use crate::references::is_away;
use crate::tables::{
    ChunkTable, TrackChunks, chunk_table, loose_chunks, sample_table, track_chunks,
};
use mp4_content::{in_track, or_memory};
use mp4_frame::codes::{MDHD, MDIA, MINF, STBL, TKHD};
use mp4_io::Failure;
use mp4_movie::BoxLocation;
use mp4_samples::ChunkExtent;
use mp4_show::Result;
use mp4_walk::{BoxWalk, Source, TreeBox};
use std::alloc::Global;
use std::collections::BTreeMap;

/// The facts of the movie that the rules of a track need.
#[derive(Drop)]
pub struct MovieFacts {
    /// The media data of the file.
    pub media: Media,
    /// The times in the `mvhd`, if it can be read.
    pub times: Option<Times>,
    /// True if the movie has an `mvex`, so that fragments may follow.
    pub is_fragmented: bool,
}

/// The facts of the tracks that were read.
#[derive(Drop)]
pub struct Met {
    /// The position of the `tkhd` of the first track with each track_ID.
    pub headers: BTreeMap<u32, u64>,
    /// The track_IDs whose first track may have its media data in another file.
    pub away: BTreeMap<u32, ()>,
    /// The longest duration in a `tkhd`.
    pub longest: Option<u64>,
}

impl Met {
    /// Returns what is known before the first track.
    pub fn new(alloc: Global) -> Met
        ensures { (file : List ℕ) → IsMet file [] result }
    {
        Met {
            headers: BTreeMap::new(alloc),
            away: BTreeMap::new(alloc),
            longest: None,
        }
    }
}

/// The values of the boxes of a track that its rules need.
#[derive(Debug, Drop)]
pub struct TrackValues {
    /// Its header, if that can be read.
    pub header: Option<TrackHeader>,
    /// The times in the header of its media, if that can be read.
    pub times: Option<Times>,
    /// The duration of its edits.
    pub edits: EditTimes,
    /// True if its media data may be in another file.
    pub is_away: bool,
    /// Its chunks.
    pub chunks: TrackChunks,
    /// The position of its `stbl`, or 0 if there is none.
    pub table: u64,
    /// Its chunk table, if it has one.
    pub chunk_table: Option<ChunkTable>,
}

/// Appends the fault `what`, if there is one, of the box at `position`, which is the first one at `codes` in track
/// `number`.
pub fn push_fault(
    alloc: Global,
    number: u64,
    codes: &[u32],
    position: u64,
    what: Option<What>,
    reason: Reason,
    faults: &mut Vec<Fault>,
) -> Result<()>
    ensures { OnOk result (values_of faults.new.items
        ≡ values_of faults.old.items ++ in_this number codes.now position what) }
{
    let Some(what) = what else {
        return Ok(());
    };
    let path = in_track(alloc, number, codes)?;
    faults.push(Fault {
        position,
        path,
        what,
        reason,
    })?;
    Ok(())
}

/// Returns the fault of the track_ID of `header`, if it has one. `headers` has the first `tkhd` with each track_ID
/// before it.
fn id_what(header: TrackHeader, headers: &BTreeMap<u32, u64>) -> Option<What>
    ensures { result ≡ id_what header (get nat_cmp headers.now header.track_id) }
{
    if header.track_id == 0 {
        return Some(What::TrackZero);
    }
    match headers.get(&header.track_id) {
        Some(earlier) => Some(What::TrackTwice {
            track_id: header.track_id,
            earlier: *earlier,
        }),
        None => None,
    }
}

/// Stores the position of `header` as that of the first `tkhd` with its track_ID, unless there is one before it.
fn keep_header(header: TrackHeader, headers: &mut BTreeMap<u32, u64>) -> Result<()>
    ensures { OnOk result ((q : ℕ) → get nat_cmp headers.new q
        ≡ option_or (get nat_cmp headers.old q) (header_for q (Some header))) }
{
    if headers.contains_key(&header.track_id) {
        return Ok(());
    }
    headers.insert(header.track_id, header.position)?;
    Ok(())
}

/// Stores that a track with the track_ID `track_id` may have its media data in another file, if it is the first one
/// with this track_ID and `is_away` says so.
fn keep_away(
    track_id: u32,
    is_first: bool,
    is_away: bool,
    away: &mut BTreeMap<u32, ()>,
) -> Result<()>
    ensures { OnOk result ((q : ℕ) → is_some (get nat_cmp away.new q)
        ≡ (is_some (get nat_cmp away.old q) || ((track_id == q) && (is_first && is_away)))) }
{
    if is_first && is_away {
        away.insert(track_id, ())?;
    }
    Ok(())
}

/// Stores the track with the header `header` as the first one with its track_ID, unless there is one before it.
/// `elsewhere` says whether its media data may be in another file.
fn keep_track(header: TrackHeader, elsewhere: bool, met: &mut Met) -> Result<()>
    ensures { (file : List ℕ) (fs : List Found) (f : Found) → track_header file f.after ≡ Some header
        → is_away file f.after ≡ elsewhere → IsMet file fs met.old → OnOk result (IsMet file (fs ++ f ∷ []) met.new) }
{
    met.longest = longer(met.longest, header.version, header.duration);
    let is_first = !met.headers.contains_key(&header.track_id);
    keep_header(header, &mut met.headers)?;
    keep_away(header.track_id, is_first, elsewhere, &mut met.away)
}

/// Returns the duration of a track by its edits, or by its samples if it has no edits, in ticks of `timescale`.
fn track_duration(values: &TrackValues, timescale: u32) -> Option<u64>
    ensures { result ≡ track_duration values.now.edits values.now.chunks.time_end values.now.times timescale }
{
    match values.edits {
        EditTimes::Known(duration) => Some(duration),
        EditTimes::Unknown => None,
        EditTimes::None => match (values.chunks.time_end, values.times) {
            (Some(end), Some(times)) if times.timescale > 0 => {
                Some(converted(end, times.timescale, timescale))
            }
            _ => None,
        },
    }
}

/// Returns the fault of the duration of a track, if it has one.
fn track_fault(values: &TrackValues, header: TrackHeader, facts: &MovieFacts) -> Option<Duration>
    ensures { result ≡ track_fault (value_of_facts facts.now) (value_of_track values.now) header }
{
    let movie = facts.times?;
    let found = track_duration(values, movie.timescale)?;
    duration_fault(header.version, header.duration, movie.timescale, found)
}

/// Returns the fault of the duration of the media of a track, if it has one.
fn media_fault(times: Times, time_end: Option<u64>) -> Option<Duration>
    ensures { result ≡ media_fault times time_end }
{
    duration_fault(times.version, times.duration, times.timescale, time_end?)
}

/// Returns the fault of the duration of a track, unless fragments may follow.
fn track_what(values: &TrackValues, header: TrackHeader, facts: &MovieFacts) -> Option<What>
    ensures { result ≡ if_not facts.now.is_fragmented
        (option_map whats.TrackDuration (track_fault (value_of_facts facts.now) (value_of_track values.now) header)) }
{
    if facts.is_fragmented {
        return None;
    }
    match track_fault(values, header, facts) {
        Some(duration) => Some(What::TrackDuration(duration)),
        None => None,
    }
}

/// Appends the faults of the header of a track, and stores the track.
fn header_faults(
    alloc: Global,
    number: u64,
    values: &TrackValues,
    facts: &MovieFacts,
    met: &mut Met,
    faults: &mut Vec<Fault>,
) -> Result<()>
    ensures faults { (file : List ℕ) (earlier : List Found) → IsMet file earlier met.old
        → OnOk result (values_of faults.new.items ≡ values_of faults.old.items
        ++ header_faults (value_of_facts facts.now) number (value_of_track values.now)
        (earlier_of file earlier values.now.header) values.now.header) }
    ensures met { (file : List ℕ) (earlier : List Found) (f : Found) → track_header file f.after ≡ values.now.header
        → is_away file f.after ≡ values.now.is_away → IsMet file earlier met.old
        → OnOk result (IsMet file (earlier ++ f ∷ []) met.new) }
{
    let Some(header) = values.header else {
        return Ok(());
    };
    let position = header.position;
    let twice = id_what(header, &met.headers);
    push_fault(
        alloc,
        number,
        &[TKHD],
        position,
        twice,
        Reason::None,
        faults,
    )?;
    keep_track(header, values.is_away, met)?;
    let wrong = track_what(values, header, facts);
    push_fault(
        alloc,
        number,
        &[TKHD],
        position,
        wrong,
        Reason::None,
        faults,
    )
}

/// Returns the fault of a header of media, if it has one.
fn media_what(times: Times, time_end: Option<u64>) -> Option<What>
    ensures { result ≡ option_map whats.MediaDuration (media_fault times time_end) }
{
    match media_fault(times, time_end) {
        Some(duration) => Some(What::MediaDuration(duration)),
        None => None,
    }
}

/// Appends the fault of the duration of the media of a track, if it has one.
fn media_faults(
    alloc: Global,
    number: u64,
    values: &TrackValues,
    faults: &mut Vec<Fault>,
) -> Result<()>
    ensures { OnOk result (values_of faults.new.items ≡ values_of faults.old.items
        ++ media_faults number values.now.chunks.time_end values.now.times) }
{
    let Some(times) = values.times else {
        return Ok(());
    };
    push_fault(
        alloc,
        number,
        &[MDIA, MDHD],
        times.position,
        media_what(times, values.chunks.time_end),
        Reason::None,
        faults,
    )
}

/// Appends the fault of the tables of a track, if they disagree.
fn table_faults(
    alloc: Global,
    number: u64,
    values: &TrackValues,
    faults: &mut Vec<Fault>,
) -> Result<()>
    ensures { OnOk result (values_of faults.new.items ≡ values_of faults.old.items
        ++ table_faults number (value_of_track values.now)) }
{
    let Some(disagreement) = values.chunks.disagreement else {
        return Ok(());
    };
    push_fault(
        alloc,
        number,
        &[MDIA, MINF, STBL],
        values.table,
        Some(What::Disagree),
        Reason::Tables(disagreement),
        faults,
    )
}

/// Returns the fault of `chunks`, if some lie outside the media data.
fn outside_what(chunks: &[ChunkExtent], media: &Media) -> Option<What>
    requires { AreInOrder 0 media.now.extents.items }
    ensures { result ≡ option_map whats.ChunksOutside
        (chunks_outside media.now.extents.items media.now.length chunks.now) }
{
    match chunks_outside(chunks, media) {
        Some(outside) => Some(What::ChunksOutside(outside)),
        None => None,
    }
}

/// Returns the fault of `chunks`, if some share bytes with the chunk before them.
fn overlap_what(chunks: &[ChunkExtent]) -> Option<What>
    ensures { result ≡ option_map whats.ChunksOverlap (chunks_overlap None 1 chunks.now) }
{
    match chunks_overlap(chunks) {
        Some(overlap) => Some(What::ChunksOverlap(overlap)),
        None => None,
    }
}

/// Appends the faults of the chunks of a track, whose table is `table`.
fn chunk_faults(
    alloc: Global,
    number: u64,
    chunks: &TrackChunks,
    table: ChunkTable,
    media: &Media,
    faults: &mut Vec<Fault>,
) -> Result<()>
    requires { AreInOrder 0 media.now.extents.items }
    ensures { OnOk result (values_of faults.new.items ≡ values_of faults.old.items
        ++ chunk_faults media.now.extents.items media.now.length number chunks.now.chunks.items table) }
{
    let codes = [MDIA, MINF, STBL, table.code];
    let position = table.position;
    let outside = outside_what(&chunks.chunks, media);
    push_fault(
        alloc,
        number,
        &codes,
        position,
        outside,
        Reason::None,
        faults,
    )?;
    let overlap = overlap_what(&chunks.chunks);
    push_fault(
        alloc,
        number,
        &codes,
        position,
        overlap,
        Reason::None,
        faults,
    )
}

/// Returns the chunks of the track with the sample table `stbl`. A sample table that is not whole is not used.
fn chunks_in<S: Source>(
    alloc: Global,
    walk: &mut BoxWalk<S>,
    stbl: BoxLocation<'_>,
) -> std::result::Result<TrackChunks, Failure>
    ensures value { IfSome walk.old.bytes
        (λ file. IfOk result (λ r. value_of_chunks r ≡ chunks_in file (found_of (Some stbl.entry)))) }
    ensures kept { walk.new ≡ walk.old }
{
    if stbl.found.is_whole() {
        track_chunks(alloc, walk, stbl.after)
    } else {
        loose_chunks(alloc, walk, stbl.after)
    }
}

/// Returns no chunks.
fn no_chunks(alloc: Global) -> TrackChunks
    ensures { value_of_chunks result ≡ no_chunks }
{
    TrackChunks {
        chunks: Vec::new(alloc),
        time_end: None,
        disagreement: None,
    }
}

/// Returns the values that the rules of a track need. `trak` begins with the boxes inside its `trak`.
fn track_values<S: Source>(
    alloc: Global,
    walk: &mut BoxWalk<S>,
    trak: &[TreeBox],
) -> std::result::Result<TrackValues, Failure>
    ensures value { IfSome walk.old.bytes
        (λ file. IfOk result (λ r. value_of_track r ≡ track_value file trak.now)) }
    ensures kept { walk.new ≡ walk.old }
{
    let header = track_header(alloc, walk, trak)?;
    let times = media_times(alloc, walk, trak)?;
    let edits = edits_of(alloc, walk, trak)?;
    let is_away = is_away(alloc, walk, trak)?;
    match sample_table(trak) {
        Some(stbl) => Ok(TrackValues {
            header,
            times,
            edits,
            is_away,
            chunks: chunks_in(alloc, walk, stbl)?,
            table: stbl.found.position,
            chunk_table: chunk_table(stbl.after),
        }),
        None => Ok(TrackValues {
            header,
            times,
            edits,
            is_away,
            chunks: no_chunks(alloc),
            table: 0,
            chunk_table: None,
        }),
    }
}

/// Appends the faults of a track with these values.
fn push_faults(
    alloc: Global,
    number: u64,
    values: &TrackValues,
    facts: &MovieFacts,
    met: &mut Met,
    faults: &mut Vec<Fault>,
) -> Result<()>
    requires { AreInOrder 0 facts.now.media.extents.items }
    ensures faults { (file : List ℕ) (earlier : List Found) → IsMet file earlier met.old
        → OnOk result (values_of faults.new.items ≡ values_of faults.old.items
        ++ faults_by (value_of_facts facts.now) number (value_of_track values.now)
        (earlier_of file earlier values.now.header)) }
    ensures met { (file : List ℕ) (earlier : List Found) (f : Found) → track_header file f.after ≡ values.now.header
        → is_away file f.after ≡ values.now.is_away → IsMet file earlier met.old
        → OnOk result (IsMet file (earlier ++ f ∷ []) met.new) }
{
    header_faults(alloc, number, values, facts, met, faults)?;
    if !facts.is_fragmented {
        media_faults(alloc, number, values, faults)?;
    }
    table_faults(alloc, number, values, faults)?;
    if values.is_away {
        return Ok(());
    }
    match values.chunk_table {
        Some(table) => chunk_faults(alloc, number, &values.chunks, table, &facts.media, faults),
        None => Ok(()),
    }
}

/// Returns the faults of track `number`, and stores the track in `met`. `trak` begins with the boxes inside its `trak`.
pub fn track_faults<S: Source>(
    alloc: Global,
    walk: &mut BoxWalk<S>,
    trak: &[TreeBox],
    number: u64,
    facts: &MovieFacts,
    met: &mut Met,
) -> std::result::Result<Vec<Fault>, Failure>
    requires { AreInOrder 0 facts.now.media.extents.items }
    ensures value { IfSome walk.old.bytes
        (λ file. (earlier : List Found) → IsMet file earlier met.old
        → IfOk result (λ faults. values_of faults.items
        ≡ track_faults file (value_of_facts facts.now) earlier number trak.now)) }
    ensures met { IfSome walk.old.bytes
        (λ file. (earlier : List Found) (f : Found) → f.after ≡ trak.now → IsMet file earlier met.old
        → OnOk result (IsMet file (earlier ++ f ∷ []) met.new)) }
    ensures kept { walk.new ≡ walk.old }
{
    let values = track_values(alloc, walk, trak)?;
    let mut faults = Vec::new(alloc);
    or_memory(push_faults(alloc, number, &values, facts, met, &mut faults))?;
    Ok(faults)
}

/// Returns the fault of the duration of the movie, if it has one: it is not that of the longest track.
pub fn movie_fault(facts: &MovieFacts, longest: Option<u64>) -> Option<Duration>
    ensures { result ≡ movie_fault (value_of_facts facts.now) longest }
{
    let times = facts.times?;
    if facts.is_fragmented {
        return None;
    }
    duration_fault(times.version, times.duration, times.timescale, longest?)
}
