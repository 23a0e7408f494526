//! What is known of a file and of its tracks.

ghost use Rattle.std.specs.BTreeMap.{get};
ghost use Rattle.std.specs.Ordering.{nat_cmp};
ghost use Rattle.std.specs.Prelude.{◌≡◌, ℕ, List, [], ◌∷◌, ◌++◌, Result, IfOk, OnOk, IfSome, is_some, length, map};
ghost use Rattle.mp4_frame.specs.FourCC.{four_cc_of};
ghost use Rattle.mp4_frame.specs.declared.codes.TheConstants as names;
ghost use Rattle.mp4_info.specs.Facts.{AreTracks, HasContents, InfoReadings, IsFile, IsFileBy, IsTrack, first_time};
ghost use Rattle.mp4_info.specs.Facts.{fragment_time, heads_in};
ghost use Rattle.mp4_info.specs.Facts.{facts_if, handler_of, is_fragmented, known, movie_timescale, order_of};
ghost use Rattle.mp4_info.specs.Facts.{are_known, is_known, is_track_known};
ghost use Rattle.mp4_info.specs.Facts.{longest, sample_facts, samples_in, stbl_in, thousandths_of, track_duration};
ghost use Rattle.mp4_info.specs.RunTimes.{fragment_times};
ghost use Rattle.mp4_info.specs.Totals.{sample_time};
ghost use Rattle.mp4_info.specs.TrackPieces.{AreByTrack, pieces_in, times_in};
ghost use Rattle.mp4_movie.specs.Levels.{all_in, first_in, found_of, movie_in};
ghost use Rattle.mp4_movie.specs.Problems.{Problem, Returns};
ghost use Rattle.mp4_movie.specs.Tables.{tables_in};
ghost use Rattle.mp4_movie.specs.declared.moof.MoofFragments.{MoofFragments};
ghost use Rattle.mp4_walk.specs.FileBoxes.{boxes_of};

use crate::durations::{Duration, duration_of};
use crate::entry::{Entry, EntryReading, ReadsEntry, first_entry};
use crate::found::found;
use crate::headers::{
    HeaderBoxes, Headers, ReadsHeaders, headers_in, id_of, media_in, timescale_of,
};
use crate::rates::{FrameRate, bit_rate, frame_rate};
use crate::run_times::{push_fragment, times_of};
use crate::tags::{ItemValue, ReadsValue, Tag, tags_in};
use crate::totals::{Piece, Totals, sample_time, shown_end, totals_of};
use crate::track_pieces::{AllPieces, all_pieces, pieces_in, times_in};
use mp4_extra_samples::sidx::SidxBox;
use mp4_flat::MvhdBox;
use mp4_frame::{ReadBox, codes};
use mp4_io::{Failure, or_read, read_failure};
use mp4_movie::{
    BoxError, BoxLocation, MoofFragments, Movie, MovieError, SampleBoxes, TrackFragment, first_in,
    has_box, inside, movie_in, tables_in,
};
use mp4_tables::SttsEntry;
use mp4_text::{FtypBox, HdlrBox};
use mp4_walk::{BoxWalk, Source, TreeBox};
use std::alloc::{AllocError, Global};

/// The samples of a track.
#[derive(Clone, Copy, Debug, PartialEq, Eq)]
pub struct SampleFacts {
    /// Their number, bytes and durations.
    pub totals: Totals,
    /// The frames of a second, unless there are fewer than two.
    pub frame_rate: Option<FrameRate>,
    /// The bits of a second, on average, rounded.
    pub bit_rate: Option<u128>,
}

/// A track. A value is `None` if its boxes are missing or have a fault.
#[derive(Debug, Drop)]
pub struct TrackFacts {
    /// Its headers.
    pub headers: Headers,
    /// Its first sample entry.
    pub entry: Option<Entry>,
    /// Its samples, unless its tables can't be read.
    pub samples: Option<SampleFacts>,
    /// Its duration: that of its edits, or of its media without edits.
    pub duration: Option<Duration>,
}

/// The time of the first fragment of a `moof`.
#[derive(Clone, Copy, Debug, PartialEq, Eq)]
pub struct FragmentTime {
    /// The position of the `moof` in the file, in bytes.
    pub position: u64,
    /// The track_ID of its first fragment, or 0 if it has none that can be read.
    pub track_id: u32,
    /// The sum of the durations of the samples of this fragment, in ticks of the timescale of the track's media.
    pub ticks: u64,
}

/// A file. A value is `None` if its boxes are missing or have a fault.
#[derive(Debug, Drop)]
pub struct FileFacts {
    /// The number of its bytes.
    pub length: u64,
    /// Its brands, `ftyp`.
    pub brands: Option<FtypBox>,
    /// The header of its movie, `mvhd`.
    pub movie: Option<MvhdBox>,
    /// True if its movie may have fragments, or the file has some.
    pub is_fragmented: bool,
    /// True if it has pictures or other items: a `meta` at the top level (8.11.1).
    pub has_items: bool,
    /// True if its `moov` is before the first `mdat`. `None` without one of them.
    pub movie_is_first: Option<bool>,
    /// Its first index of segments, `sidx`.
    pub index: Option<SidxBox>,
    /// The time of each `moof`, in the order of the file.
    pub fragments: Vec<FragmentTime>,
    /// Its tracks, in the order of the file.
    pub tracks: Vec<TrackFacts>,
    /// Its tags, in the order of the file.
    pub tags: Vec<Tag>,
}

/// For the prover: the readings of the declared boxes that are needed.
pub trait ReadsInfo {
    ghost readings: { InfoReadings };
}

/// The declared boxes that are needed.
#[derive(Clone, Copy, Debug)]
pub struct InfoBoxes;

impl ReadsInfo for InfoBoxes {
    ghost readings = { record {
      headers = ⟦<HeaderBoxes as ReadsHeaders>⟧.readings;
      entry = ⟦<EntryReading as ReadsEntry>⟧.readings;
      sidx = ⟦<SidxBox as ReadBox>⟧.reads;
      item = ⟦<ItemValue as ReadsValue>⟧.reads;
    } };
}

/// Returns the samples of a track with this timescale, by its tables, its fragments and the durations of their samples.
fn sample_facts(
    alloc: Global,
    tables: &Option<SampleBoxes>,
    timescale: u32,
    pieces: &[Piece],
    times: &[SttsEntry],
) -> Result<SampleFacts, AllocError>
    ensures { IfOk result (λ r. r ≡ sample_facts tables.now timescale pieces.now times.now) }
{
    let totals = totals_of(tables, pieces);
    let times = times_of(alloc, tables, times)?;
    Ok(SampleFacts {
        totals,
        frame_rate: frame_rate(timescale, &times, totals.time),
        bit_rate: bit_rate(timescale, totals.bytes, totals.time),
    })
}

/// Returns the value that was found, or `None` for a problem.
fn known<T: Drop>(answer: Result<T, MovieError>) -> Result<Option<T>, Failure>
    ensures { (r : Result T Problem) → Returns answer r → IfOk result (λ v. v ≡ known r) }
{
    match answer {
        Ok(value) => Ok(Some(value)),
        Err(MovieError::Box(_)) => Ok(None),
        Err(MovieError::Io(error)) => Err(read_failure(&error)),
    }
}

/// Returns the samples of a track with this timescale, if its tables can be read.
fn facts_if(
    alloc: Global,
    tables: &Option<Option<SampleBoxes>>,
    timescale: u32,
    pieces: &[Piece],
    times: &[SttsEntry],
) -> Result<Option<SampleFacts>, AllocError>
    ensures { IfOk result (λ r. r ≡ facts_if tables.now timescale pieces.now times.now) }
{
    match tables {
        Some(tables) => Ok(Some(sample_facts(alloc, tables, timescale, pieces, times)?)),
        None => Ok(None),
    }
}

/// Returns the tables of a track, if they can be read. `stbl` begins with the boxes inside its `stbl`.
fn known_tables<S: Source>(
    alloc: Global,
    walk: &mut BoxWalk<S>,
    stbl: &[TreeBox],
) -> Result<Option<Option<SampleBoxes>>, Failure>
    ensures value { IfSome walk.old.bytes
        (λ file. IfOk result (λ r. r ≡ known (tables_in file stbl.now))) }
    ensures kept { walk.new ≡ walk.old }
{
    known(tables_in(alloc, walk, stbl))
}

/// Returns the samples of the track with this track_ID, timescale and tables. `fragments` are those of all tracks.
fn facts_by(
    alloc: Global,
    tables: &Option<Option<SampleBoxes>>,
    id: u32,
    timescale: u32,
    fragments: &AllPieces,
) -> Result<Option<SampleFacts>, AllocError>
    ensures { IfOk result (λ r. r ≡ facts_if tables.now timescale
        (pieces_in (get nat_cmp fragments.now.by_track id)) (times_in (get nat_cmp fragments.now.by_track id))) }
{
    let own = fragments.by_track.get(&id);
    let pieces = pieces_in(own);
    let times = times_in(own);
    facts_if(alloc, tables, timescale, pieces, times)
}

/// Returns the samples of the track with this track_ID and timescale. `stbl` begins with the boxes inside its `stbl`.
/// `fragments` are those of all tracks.
fn samples_in<S: Source>(
    alloc: Global,
    walk: &mut BoxWalk<S>,
    stbl: &[TreeBox],
    id: u32,
    timescale: u32,
    fragments: &AllPieces,
) -> Result<Option<SampleFacts>, Failure>
    ensures value { IfSome walk.old.bytes
        (λ file. (moofs : List MoofFragments) → AreByTrack moofs fragments.now
        → IfOk result (λ r. r ≡ samples_in file stbl.now id timescale moofs)) }
    ensures kept { walk.new ≡ walk.old }
{
    let tables = known_tables(alloc, walk, stbl)?;
    let facts = facts_by(alloc, &tables, id, timescale, fragments)?;
    Ok(facts)
}

/// Returns the boxes inside the `stbl` of a track. `trak` begins with the boxes inside its `trak`.
fn stbl_in(trak: &[TreeBox]) -> &[TreeBox]
    ensures { result.now ≡ stbl_in trak.now }
{
    let minf = inside(media_in(trak), 3, codes::MINF);
    inside(minf, 4, codes::STBL)
}

/// Returns the handler of media, or 0 if it is not known.
fn handler_of(handler: &Option<HdlrBox>) -> u32
    ensures { result ≡ handler_of handler.now }
{
    match handler {
        Some(handler) => u32::from(handler.handler_type),
        None => 0,
    }
}

/// Returns the duration of a track with these headers and samples, in a movie with this timescale.
fn track_duration(
    headers: &Headers,
    samples: &Option<SampleFacts>,
    movie_timescale: u32,
) -> Option<Duration>
    ensures { result ≡ track_duration headers.now samples.now movie_timescale }
{
    let Some(samples) = samples else {
        return None;
    };
    let timescale = timescale_of(&headers.media);
    duration_of(
        &headers.edits,
        movie_timescale,
        timescale,
        samples.totals.end,
        shown_end(samples.totals),
    )
}

/// Returns what is known of a track, in a movie with this timescale and these fragments of all tracks. `trak` begins
/// with the boxes inside its `trak`.
fn track_facts<S: Source>(
    alloc: Global,
    walk: &mut BoxWalk<S>,
    trak: &[TreeBox],
    fragments: &AllPieces,
    movie_timescale: u32,
) -> Result<TrackFacts, Failure>
    ensures value { IfSome walk.old.bytes
        (λ file. (moofs : List MoofFragments) → AreByTrack moofs fragments.now → IfOk result
        (IsTrack ⟦<InfoBoxes as ReadsInfo>⟧.readings file moofs movie_timescale trak.now)) }
    ensures kept { walk.new ≡ walk.old }
{
    let headers = headers_in(alloc, walk, trak)?;
    let stbl = stbl_in(trak);
    let entry = first_entry(alloc, walk, handler_of(&headers.handler), stbl)?;
    let id = id_of(&headers.track);
    let samples = samples_in(
        alloc,
        walk,
        stbl,
        id,
        timescale_of(&headers.media),
        fragments,
    )?;
    let duration = track_duration(&headers, &samples, movie_timescale);
    Ok(TrackFacts {
        headers,
        entry,
        samples,
        duration,
    })
}

/// Appends `facts`.
fn push_track(facts: TrackFacts, tracks: &mut Vec<TrackFacts>) -> Result<(), AllocError>
    ensures { OnOk result (tracks.new.items ≡ tracks.old.items ++ facts ∷ []) }
{
    tracks.push(facts)?;
    Ok(())
}

/// Returns what is known of the tracks of a movie with this timescale and these fragments. `movie` begins with the
/// boxes inside its `moov`.
fn tracks_in<S: Source>(
    alloc: Global,
    walk: &mut BoxWalk<S>,
    movie: &[TreeBox],
    fragments: &AllPieces,
    movie_timescale: u32,
) -> Result<Vec<TrackFacts>, Failure>
    ensures value { IfSome walk.old.bytes
        (λ file. (moofs : List MoofFragments) → AreByTrack moofs fragments.now
        → IfOk result (λ tracks. AreTracks ⟦<InfoBoxes as ReadsInfo>⟧.readings file moofs movie_timescale
        (all_in 1 (four_cc_of names.TRAK) movie.now) tracks.items)) }
    ensures kept { walk.new ≡ walk.old }
{
    let mut tracks = Vec::new(alloc);
    let mut rest = movie;
    'tracks: while let Some(place) = first_in(rest, 1, codes::TRAK) {
        let facts = track_facts(alloc, walk, place.after, fragments, movie_timescale)?;
        push_track(facts, &mut tracks)?;
        rest = place.after;
    }
    Ok(tracks)
}

/// Returns the thousandths of a second of a duration, or 0 if it is not known.
fn thousandths_of(duration: Option<Duration>) -> u128
    ensures { result ≡ thousandths_of duration }
{
    match duration {
        Some(duration) => duration.thousandths,
        None => 0,
    }
}

/// Returns the longest duration of tracks, in thousandths of a second.
pub fn longest(tracks: &[TrackFacts]) -> u128
    ensures { result ≡ longest tracks.now }
{
    let mut most: u128 = 0;
    for index in 0..tracks.len() {
        most = most.max(thousandths_of(tracks[index].duration));
    }
    most
}

/// Returns whether the headers of a track, its first entry, its samples and its duration are known.
fn is_track_known(track: &TrackFacts) -> bool
    ensures { result ≡ is_track_known track.now }
{
    track.headers.track.is_some()
        && track.headers.media.is_some()
        && track.headers.handler.is_some()
        && track.entry.is_some()
        && track.duration.is_some()
}

/// Returns whether the main values of each of these tracks are known.
fn are_known(tracks: &[TrackFacts]) -> bool
    ensures { result ≡ are_known tracks.now }
{
    for index in 0..tracks.len() {
        if !is_track_known(&tracks[index]) {
            return false;
        }
    }
    true
}

/// Returns whether a file has a movie, fragments or items, and the main values of each of its tracks are known. If not,
/// its faults say why.
pub fn is_known(facts: &FileFacts) -> bool
    ensures { result ≡ is_known facts.now }
{
    (facts.movie.is_some() || !facts.fragments.is_empty() || facts.has_items)
        && are_known(&facts.tracks)
}

/// Returns whether a file with these boxes is fragmented.
fn is_fragmented(boxes: &[TreeBox]) -> bool
    ensures { result ≡ is_fragmented boxes.now }
{
    has_box(movie_in(boxes), 1, codes::MVEX) || has_box(boxes, 0, codes::MOOF)
}

/// Returns whether a `moov` at `movie` is before an `mdat` at `media`, if both are present.
fn order_of(movie: Option<BoxLocation<'_>>, media: Option<BoxLocation<'_>>) -> Option<bool>
    ensures { result ≡ order_of (found_of movie.entry) (found_of media.entry) }
{
    match (movie, media) {
        (Some(movie), Some(media)) => Some(movie.found.position < media.found.position),
        _ => None,
    }
}

/// Returns the timescale in the header of a movie, or 0 without one.
fn movie_timescale(movie: &Option<MvhdBox>) -> u32
    ensures { result ≡ movie_timescale movie.now }
{
    match movie {
        Some(movie) => movie.timescale,
        None => 0,
    }
}

/// Returns the sum of the durations of the samples of a fragment.
fn time_of(alloc: Global, fragment: &TrackFragment) -> Result<u64, AllocError>
    ensures { IfOk result (λ time. time ≡ sample_time (fragment_times fragment.now)) }
{
    let mut times = Vec::new(alloc);
    push_fragment(fragment, &mut times)?;
    Ok(sample_time(&times))
}

/// Returns the time of the first fragment of a `moof` at `position`.
fn first_time(
    alloc: Global,
    position: u64,
    answers: &[Result<TrackFragment, BoxError>],
) -> Result<FragmentTime, AllocError>
    ensures { IfOk result (λ r. r ≡ first_time position answers.now) }
{
    for index in 0..answers.len() {
        if let Ok(fragment) = &answers[index] {
            return Ok(FragmentTime {
                position,
                track_id: fragment.header.track_id,
                ticks: time_of(alloc, fragment)?,
            });
        }
    }
    Ok(FragmentTime {
        position,
        track_id: 0,
        ticks: 0,
    })
}

/// Returns the time of each `moof`.
fn fragment_times_of(
    alloc: Global,
    moofs: &[MoofFragments],
) -> Result<Vec<FragmentTime>, AllocError>
    ensures { IfOk result (λ r. r.items ≡ map fragment_time moofs.now) }
{
    let mut times = Vec::new(alloc);
    for index in 0..moofs.len() {
        let moof = &moofs[index];
        let time = first_time(alloc, moof.position, &moof.fragments)?;
        times.push(time)?;
    }
    Ok(times)
}

/// The first boxes of a file that say what it is. A value is `None` if its box is missing or has a fault.
#[derive(Drop)]
struct Heads {
    /// The brands, `ftyp`.
    brands: Option<FtypBox>,
    /// The header of the movie, `mvhd`.
    movie: Option<MvhdBox>,
    /// The index of segments, `sidx`.
    index: Option<SidxBox>,
}

/// Returns the first boxes that say what a file with these boxes is.
fn heads_in<S: Source>(
    alloc: Global,
    walk: &mut BoxWalk<S>,
    boxes: &[TreeBox],
) -> Result<Heads, Failure>
    ensures value { IfSome walk.old.bytes
        (λ file. IfOk result (λ r. r ≡ heads_in ⟦<InfoBoxes as ReadsInfo>⟧.readings file boxes.now)) }
    ensures kept { walk.new ≡ walk.old }
{
    let inside_movie = movie_in(boxes);
    Ok(Heads {
        brands: found::<FtypBox, S>(alloc, walk, boxes, 0, codes::FTYP)?,
        movie: found::<MvhdBox, S>(alloc, walk, inside_movie, 1, codes::MVHD)?,
        index: found::<SidxBox, S>(alloc, walk, boxes, 0, codes::SIDX)?,
    })
}

/// The tracks and the tags of a movie.
#[derive(Drop)]
struct Contents {
    /// The tracks.
    tracks: Vec<TrackFacts>,
    /// The tags.
    tags: Vec<Tag>,
}

/// Returns the tracks and the tags of the movie with this timescale in a file with these boxes and fragments.
fn contents_in<S: Source>(
    alloc: Global,
    walk: &mut BoxWalk<S>,
    boxes: &[TreeBox],
    moofs: &[MoofFragments],
    movie_timescale: u32,
) -> Result<Contents, Failure>
    ensures value { IfSome walk.old.bytes
        (λ file. IfOk result
        (HasContents ⟦<InfoBoxes as ReadsInfo>⟧.readings file boxes.now moofs.now movie_timescale)) }
    ensures kept { walk.new ≡ walk.old }
{
    let inside_movie = movie_in(boxes);
    let fragments = all_pieces(alloc, moofs)?;
    let tracks = tracks_in(alloc, walk, inside_movie, &fragments, movie_timescale)?;
    let tags = tags_in(alloc, walk, inside_movie)?;
    Ok(Contents { tracks, tags })
}

/// Returns what is known of a file with these boxes and fragments.
fn file_facts<S: Source>(
    alloc: Global,
    walk: &mut BoxWalk<S>,
    boxes: &[TreeBox],
    moofs: &[MoofFragments],
) -> Result<FileFacts, Failure>
    ensures value { IfSome walk.old.bytes
        (λ file. IfOk result (IsFileBy ⟦<InfoBoxes as ReadsInfo>⟧.readings file boxes.now moofs.now)) }
    ensures kept { walk.new ≡ walk.old }
{
    let Heads {
        brands,
        movie,
        index,
    } = heads_in(alloc, walk, boxes)?;
    let timescale = movie_timescale(&movie);
    let Contents { tracks, tags } = contents_in(alloc, walk, boxes, moofs, timescale)?;
    let times = fragment_times_of(alloc, moofs)?;
    Ok(FileFacts {
        length: walk.length(),
        brands,
        movie,
        is_fragmented: is_fragmented(boxes),
        has_items: has_box(boxes, 0, codes::META),
        movie_is_first: order_of(
            first_in(boxes, 0, codes::MOOV),
            first_in(boxes, 0, codes::MDAT),
        ),
        index,
        fragments: times,
        tracks,
        tags,
    })
}

/// Returns what is known of a file. Reads the headers of all boxes, and the boxes of its tracks and fragments. Needs
/// the memory of all runs of a fragmented file, and of the tables of one track at a time. Fails if reading fails or
/// memory is refused; a box with a fault counts as missing.
pub fn facts_of<S: Source>(alloc: Global, source: S) -> Result<FileFacts, Failure>
    ensures value { IfSome (S.all source)
        (λ file. IfOk result (IsFile ⟦<InfoBoxes as ReadsInfo>⟧.readings file)) }
{
    let mut movie = or_read(Movie::open(alloc, source))?;
    let moofs = or_read(movie.fragments(alloc))?;
    let (mut walk, boxes) = movie.into_parts();
    file_facts(alloc, &mut walk, &boxes, &moofs)
}
