//! The movie of a file.

ghost use Rattle.std.specs.Prelude.{◌≡◌, length, map, IfOk, IfSome};
ghost use Rattle.mp4_movie.specs.Defaults.{AreDefaults, trexes};
ghost use Rattle.mp4_movie.specs.Descriptions.{descriptions_of};
ghost use Rattle.mp4_movie.specs.Ends.{end_by, time_end_of};
ghost use Rattle.mp4_movie.specs.Fragments.{AreFragments};
ghost use Rattle.mp4_movie.specs.Infos.{AreInfos, IsInfo};
ghost use Rattle.mp4_movie.specs.Movies.{first_with, found_at, has_id, inside, of_track, sample_table, samples_of};
ghost use Rattle.mp4_movie.specs.Movies.{traks};
ghost use Rattle.mp4_movie.specs.Problems.{ReturnsFor, ReturnsBoxes};
ghost use Rattle.mp4_movie.specs.Reads.{IsReadAs, own_reading};
ghost use Rattle.mp4_movie.specs.Trafs.{ReturnsForAs};
ghost use Rattle.mp4_walk.specs.FileBoxes.{boxes_of};

use crate::defaults::{Defaults, defaults_of};
use crate::descriptions::descriptions_in;
use crate::error::{BoxError, MovieError};
use crate::info::{TrackInfo, handler, timescale, track_id};
use crate::level::{boxes_after, first_in};
use crate::moof::{MoofFragments, fragments_of};
use crate::places::{TrakPlace, places_of};
use crate::reading::read_at;
use crate::sample_boxes::SampleBoxes;
use crate::table::tables_in;
use mp4_frame::{FourCC, ReadBox, codes};
use mp4_walk::{BoxWalk, Source, TreeBox};
use std::alloc::Global;
use std::io;
use std::marker::Model;

/// A movie: a file with the list of its boxes, made once, and the places of its tracks in that list. Needs 80 bytes of
/// memory per box of the file and 88 per track.
#[derive(Drop)]
pub struct Movie<S: Source> {
    walk: BoxWalk<S>,
    boxes: Vec<TreeBox>,
    tracks: Vec<TrakPlace>,
}

impl<S: Source> Model for Movie<S> {
    ghost use Rattle.mp4_movie.specs.Movies.{MovieValue, IsMovie};

    ghost Value = { MovieValue };

    ghost view = { λ m. record { bytes = m.walk.bytes; boxes = m.boxes.items } };

    ghost invariant = { λ m. IsMovie m.walk.bytes m.boxes.items m.tracks.items };
}

/// Returns the boxes after the first box with `code` in a level. Fails if there is none.
fn inside<'a>(level: &'a [TreeBox], depth: u64, code: u32) -> Result<&'a [TreeBox], MovieError>
    ensures { ReturnsBoxes result (inside depth code level.now) }
{
    match first_in(level, depth, code) {
        Some(place) => Ok(place.after),
        None => Err(MovieError::Box(BoxError::Missing {
            code: FourCC::from(code),
        })),
    }
}

/// Returns the boxes after the header of the sample table of a track. `trak` begins with the boxes inside its `trak`.
fn sample_table(trak: &[TreeBox]) -> Result<&[TreeBox], MovieError>
    ensures { ReturnsBoxes result (sample_table trak.now) }
{
    let mdia = inside(trak, 2, codes::MDIA)?;
    let minf = inside(mdia, 3, codes::MINF)?;
    inside(minf, 4, codes::STBL)
}

/// Returns the sample tables of a track. `trak` begins with the boxes inside its `trak`.
fn samples_in<S: Source>(
    alloc: Global,
    walk: &mut BoxWalk<S>,
    trak: &[TreeBox],
) -> Result<Option<SampleBoxes>, MovieError>
    ensures value { ReturnsFor walk.old.bytes result (λ file. samples_of file trak.now) }
    ensures kept { walk.new ≡ walk.old }
{
    let stbl = sample_table(trak)?;
    tables_in(alloc, walk, stbl)
}

/// Returns the bytes of the sample descriptions of a track. `trak` begins with the boxes inside its `trak`.
fn descriptions_of<S: Source>(
    alloc: Global,
    walk: &mut BoxWalk<S>,
    trak: &[TreeBox],
) -> Result<Vec<u8>, MovieError>
    ensures value { ReturnsForAs (λ v. v.items) walk.old.bytes result (λ file. descriptions_of file trak.now) }
    ensures kept { walk.new ≡ walk.old }
{
    let stbl = sample_table(trak)?;
    descriptions_in(alloc, walk, stbl)
}

/// Returns the time at which the samples of `tables` end, and 0 if there are none.
fn end_by(tables: Option<SampleBoxes>) -> u64
    ensures { result ≡ end_by tables }
{
    match tables {
        Some(boxes) => boxes.time_end(),
        None => 0,
    }
}

/// Returns the headers of the track `number` at `place`.
fn info_of<S: Source>(
    alloc: Global,
    walk: &mut BoxWalk<S>,
    boxes: &[TreeBox],
    place: TrakPlace,
    number: usize,
) -> io::Result<TrackInfo>
    ensures value { IfSome walk.old.bytes
        (λ file. IfOk result (IsInfo file number (found_at boxes.now place))) }
    ensures kept { walk.new ≡ walk.old }
{
    let trak = boxes_after(boxes, place.first);
    Ok(TrackInfo {
        number,
        position: place.found.position,
        track_id: track_id(alloc, walk, trak)?,
        timescale: timescale(alloc, walk, trak)?,
        handler: handler(alloc, walk, trak)?,
    })
}

/// Returns the headers of the tracks at these places, in order.
fn infos_of<S: Source>(
    alloc: Global,
    walk: &mut BoxWalk<S>,
    boxes: &[TreeBox],
    places: &[TrakPlace],
) -> io::Result<Vec<TrackInfo>>
    ensures value { IfSome walk.old.bytes
        (λ file. IfOk result (λ tracks. AreInfos file 0 (map (found_at boxes.now) places.now) tracks.items)) }
    ensures kept { walk.new ≡ walk.old }
{
    let mut tracks = Vec::new(alloc);
    for number in 0..places.len() {
        let info = info_of(alloc, walk, boxes, places[number], number)?;
        tracks.push(info)?;
    }
    Ok(tracks)
}

/// Returns whether a track has this track_ID.
fn has_id<S: Source>(
    alloc: Global,
    walk: &mut BoxWalk<S>,
    trak: &[TreeBox],
    id: u32,
) -> io::Result<bool>
    ensures value { IfSome walk.old.bytes (λ file. IfOk result (λ has. has ≡ has_id file id trak.now)) }
    ensures kept { walk.new ≡ walk.old }
{
    match track_id(alloc, walk, trak)? {
        Ok(found) => Ok(found == id),
        Err(_) => Ok(false),
    }
}

/// Returns the number of the first track at these places that has this track_ID.
fn number_at<S: Source>(
    alloc: Global,
    walk: &mut BoxWalk<S>,
    boxes: &[TreeBox],
    places: &[TrakPlace],
    id: u32,
) -> io::Result<Option<usize>>
    ensures value { IfSome walk.old.bytes
        (λ file. IfOk result (λ number. number ≡ first_with file id 0 (map (found_at boxes.now) places.now))) }
    ensures kept { walk.new ≡ walk.old }
{
    for number in 0..places.len() {
        let place = places[number];
        if has_id(alloc, walk, boxes_after(boxes, place.first), id)? {
            return Ok(Some(number));
        }
    }
    Ok(None)
}

/// Returns the sample tables of track `number` at these places.
fn samples_at<S: Source>(
    alloc: Global,
    walk: &mut BoxWalk<S>,
    boxes: &[TreeBox],
    places: &[TrakPlace],
    number: usize,
) -> Result<Option<SampleBoxes>, MovieError>
    ensures value { ReturnsFor walk.old.bytes result
        (λ file. of_track (samples_of file) number (map (found_at boxes.now) places.now)) }
    ensures kept { walk.new ≡ walk.old }
{
    if number >= places.len() {
        return Err(MovieError::Box(BoxError::Missing {
            code: FourCC::from(codes::TRAK),
        }));
    }
    let place = places[number];
    samples_in(alloc, walk, boxes_after(boxes, place.first))
}

/// Returns the bytes of the sample descriptions of track `number` at these places.
fn descriptions_at<S: Source>(
    alloc: Global,
    walk: &mut BoxWalk<S>,
    boxes: &[TreeBox],
    places: &[TrakPlace],
    number: usize,
) -> Result<Vec<u8>, MovieError>
    ensures value { ReturnsForAs (λ v. v.items) walk.old.bytes result
        (λ file. of_track (descriptions_of file) number (map (found_at boxes.now) places.now)) }
    ensures kept { walk.new ≡ walk.old }
{
    if number >= places.len() {
        return Err(MovieError::Box(BoxError::Missing {
            code: FourCC::from(codes::TRAK),
        }));
    }
    let place = places[number];
    descriptions_of(alloc, walk, boxes_after(boxes, place.first))
}

impl<S: Source> Movie<S> {
    /// Makes the movie of `source` and lists its boxes once, reading only their headers.
    pub fn open(alloc: Global, source: S) -> io::Result<Movie<S>>
        ensures bytes { IfOk result (λ movie. movie.bytes ≡ S.all source) }
        ensures boxes { IfOk result (λ movie. IfSome movie.bytes (λ file. movie.boxes ≡ boxes_of file)) }
    {
        let mut walk = BoxWalk::new(alloc, source)?;
        let boxes = walk.rest(alloc)?;
        let tracks = places_of(alloc, &boxes)?;
        Ok(Movie {
            walk,
            boxes,
            tracks,
        })
    }

    /// Returns a walk over the file, which reads its boxes, and the list of these.
    pub fn into_parts(self) -> (BoxWalk<S>, Vec<TreeBox>)
        ensures bytes { result.0.bytes ≡ self.bytes }
        ensures boxes { result.1.items ≡ self.boxes }
    {
        let Movie {
            walk,
            boxes,
            tracks: _,
        } = self;
        (walk, boxes)
    }

    /// Returns the boxes of the file in order.
    pub fn boxes(&self) -> &[TreeBox]
        ensures { result.now ≡ self.now.boxes }
    {
        &self.boxes
    }

    /// Returns the number of tracks.
    pub fn track_count(&self) -> usize
        ensures { result ≡ length (traks self.now.boxes) }
    {
        self.tracks.len()
    }

    /// Returns the tracks in the order of the file.
    pub fn tracks(&mut self, alloc: Global) -> io::Result<Vec<TrackInfo>>
        ensures value { IfSome self.old.bytes
            (λ file. IfOk result (λ tracks. AreInfos file 0 (traks (boxes_of file)) tracks.items)) }
        ensures kept { self.new ≡ self.old }
    {
        infos_of(alloc, &mut self.walk, &self.boxes, &self.tracks)
    }

    /// Returns the number of the first track with this track_ID. Skips tracks whose header can't be read.
    pub fn number_of(&mut self, alloc: Global, track_id: u32) -> io::Result<Option<usize>>
        ensures value { IfSome self.old.bytes
            (λ file. IfOk result (λ number. number ≡ first_with file track_id 0 (traks (boxes_of file)))) }
        ensures kept { self.new ≡ self.old }
    {
        number_at(alloc, &mut self.walk, &self.boxes, &self.tracks, track_id)
    }

    /// Returns the sample tables of track `number`, or `None` if it has no sizes and no chunk: then it has no samples
    /// except those of fragments. Fails if a mandatory box is missing or a box has a fault.
    pub fn samples(
        &mut self,
        alloc: Global,
        number: usize,
    ) -> Result<Option<SampleBoxes>, MovieError>
        ensures value { ReturnsFor self.old.bytes result
            (λ file. of_track (samples_of file) number (traks (boxes_of file))) }
        ensures kept { self.new ≡ self.old }
    {
        samples_at(alloc, &mut self.walk, &self.boxes, &self.tracks, number)
    }

    /// Returns the bytes of the sample descriptions of track `number`: its first `stsd`, with the header. Fails if that
    /// is missing or not whole.
    pub fn descriptions(&mut self, alloc: Global, number: usize) -> Result<Vec<u8>, MovieError>
        ensures value { ReturnsForAs (λ v. v.items) self.old.bytes result
            (λ file. of_track (descriptions_of file) number (traks (boxes_of file))) }
        ensures kept { self.new ≡ self.old }
    {
        descriptions_at(alloc, &mut self.walk, &self.boxes, &self.tracks, number)
    }

    /// Returns the time at which the samples of the tables of track `number` end, in ticks of the timescale of its
    /// media: the sum of the durations in its `stts`, or the largest time if the sum is larger. Returns 0 if the track
    /// has no samples in its tables. The first fragment of the track starts at this time, unless it has a `tfdt`. Reads
    /// all tables, and fails as `samples` does.
    pub fn time_end(&mut self, alloc: Global, number: usize) -> Result<u64, MovieError>
        ensures value { ReturnsFor self.old.bytes result
            (λ file. of_track (time_end_of file) number (traks (boxes_of file))) }
        ensures kept { self.new ≡ self.old }
    {
        Ok(end_by(self.samples(alloc, number)?))
    }

    /// Returns the defaults of the tracks for their fragments.
    pub fn defaults(&mut self, alloc: Global) -> io::Result<Defaults>
        ensures value { IfSome self.old.bytes
            (λ file. IfOk result (λ defaults. AreDefaults file (trexes (boxes_of file)) defaults)) }
        ensures kept { self.new ≡ self.old }
    {
        defaults_of(alloc, &mut self.walk, &self.boxes)
    }

    /// Returns the fragments of all tracks, by `moof` in the order of the file. A `traf` that is no fragment gives the
    /// reason. Reads each `traf` once. Needs the memory of all runs.
    pub fn fragments(&mut self, alloc: Global) -> io::Result<Vec<MoofFragments>>
        ensures value { IfSome self.old.bytes
            (λ file. IfOk result (λ moofs. AreFragments file (boxes_of file) moofs.items)) }
        ensures kept { self.new ≡ self.old }
    {
        fragments_of(alloc, &mut self.walk, &self.boxes)
    }

    /// Returns the value or the first fault of `found`, a box of the file.
    pub fn read<B: ReadBox + Drop>(
        &mut self,
        alloc: Global,
        found: &TreeBox,
    ) -> io::Result<mp4_frame::Result<B>>
        ensures value { IfSome self.old.bytes
            (λ file. IfOk result (λ r. IsReadAs r (own_reading B.reads file found.now).outcome)) }
        ensures kept { self.new ≡ self.old }
    {
        read_at(alloc, &mut self.walk, found)
    }
}
