//! The edit list of a track.

ghost use Rattle.std.specs.Prelude.{◌≡◌, IfErr, IfOk, IfSome, Ok, Result, ℕ};
ghost use Rattle.std.specs.declared.option.Option.{Option};
ghost use Rattle.mp4_frame.specs.FourCC.{four_cc_of};
ghost use Rattle.mp4_frame.specs.Reading.{Fault};
ghost use Rattle.mp4_frame.specs.declared.codes.TheConstants as names;
ghost use Rattle.mp4_movie.specs.Problems.{Problem, Records};
ghost use Rattle.mp4_movie.specs.Reads.{IsReadAs, or_fault, some_of};
ghost use Rattle.mp4_samples.specs.Edits.{AreEdits, Faults};
ghost use Rattle.mp4_tables.specs.declared.elst.ElstBox.{ElstBox};
ghost use Rattle.mp4_inspect_samples.specs.EditParts.{AreEditParts, ArePartsBy, edit_list_of, edits_by};
ghost use Rattle.mp4_inspect_samples.specs.EditParts.{movie_timescale};

use mp4_flat::MvhdBox;
use mp4_frame::FourCC;
use mp4_frame::codes::{EDTS, ELST, MVHD};
use mp4_io::{Failure, or_read, read_failure};
use mp4_movie::{BoxError, first_in, read_at};
use mp4_samples::{EditFault, Edits};
use mp4_tables::ElstBox;
use mp4_walk::{BoxWalk, Source, TreeBox};
use std::alloc::Global;

/// The edit list of a track, and the timescales of its times.
#[derive(Debug, Drop)]
pub struct EditParts {
    /// The edit list, if the track has one.
    pub list: Option<ElstBox>,
    /// The timescale of the movie, in ticks a second.
    pub movie_timescale: u32,
    /// The timescale of the media, in ticks a second.
    pub media_timescale: u32,
}

/// Returns the timescale in `header`.
fn timescale_in(header: &MvhdBox) -> u32
    ensures { result ≡ header.now.timescale }
{
    header.timescale
}

/// Returns the timescale of a movie. `movie` begins with the boxes inside its `moov`.
fn movie_timescale<S: Source>(
    alloc: Global,
    walk: &mut BoxWalk<S>,
    movie: &[TreeBox],
) -> Result<Result<u32, BoxError>, Failure>
    ensures value { IfSome walk.old.bytes (λ file. IfOk result (λ r. Records r (movie_timescale file movie.now))) }
    ensures kept { walk.new ≡ walk.old }
{
    let Some(place) = first_in(movie, 1, MVHD) else {
        return Ok(Err(BoxError::Missing {
            code: FourCC::from(MVHD),
        }));
    };
    match read_at::<MvhdBox, S>(alloc, walk, &place.found) {
        Ok(Ok(header)) => Ok(Ok(timescale_in(&header))),
        Ok(Err(error)) => Ok(Err(BoxError::Fault {
            code: FourCC::from(MVHD),
            position: place.found.position,
            error,
        })),
        Err(error) => Err(read_failure(&error)),
    }
}

/// Returns the edit list `read`, which is at `position`, or its fault.
fn list_in(read: mp4_frame::Result<ElstBox>, position: u64) -> Result<Option<ElstBox>, BoxError>
    ensures { (r : Result ElstBox Fault) → IsReadAs read r
        → Records result (some_of (or_fault (four_cc_of names.ELST) position r)) }
{
    match read {
        Ok(list) => Ok(Some(list)),
        Err(error) => Err(BoxError::Fault {
            code: FourCC::from(ELST),
            position,
            error,
        }),
    }
}

/// Returns the edit list of a track, or `None` if it has none. `trak` begins with the boxes inside its `trak`.
fn edit_list_of<S: Source>(
    alloc: Global,
    walk: &mut BoxWalk<S>,
    trak: &[TreeBox],
) -> Result<Result<Option<ElstBox>, BoxError>, Failure>
    ensures value { IfSome walk.old.bytes (λ file. IfOk result (λ r. Records r (edit_list_of file trak.now))) }
    ensures kept { walk.new ≡ walk.old }
{
    let Some(edits) = first_in(trak, 2, EDTS) else {
        return Ok(Ok(None));
    };
    let Some(place) = first_in(edits.after, 3, ELST) else {
        return Ok(Ok(None));
    };
    let read = or_read(read_at::<ElstBox, S>(alloc, walk, &place.found))?;
    Ok(list_in(read, place.found.position))
}

/// Returns the parts of an edit list, or the first reason why one of them can't be read.
fn parts_by(
    movie: Result<u32, BoxError>,
    media: Result<u32, BoxError>,
    list: Result<Option<ElstBox>, BoxError>,
) -> Result<EditParts, BoxError>
    ensures { (m : Result ℕ Problem) (l : Result (Option ElstBox) Problem) → Records movie m → Records list l
        → ArePartsBy m media l result }
{
    let movie_timescale = movie?;
    let media_timescale = media?;
    let list = list?;
    Ok(EditParts {
        list,
        movie_timescale,
        media_timescale,
    })
}

/// Returns the edit list of a track with the timescales of the movie and of the media, or the first reason why one of
/// them can't be read. `movie` begins with the boxes inside the `moov`, and `trak` with those inside the `trak`.
/// `media` is the timescale of the media.
pub fn edit_parts<S: Source>(
    alloc: Global,
    walk: &mut BoxWalk<S>,
    movie: &[TreeBox],
    trak: &[TreeBox],
    media: Result<u32, BoxError>,
) -> Result<Result<EditParts, BoxError>, Failure>
    ensures value { IfSome walk.old.bytes
        (λ file. IfOk result (λ parts. AreEditParts file movie.now trak.now media parts)) }
    ensures kept { walk.new ≡ walk.old }
{
    let scale = movie_timescale(alloc, walk, movie)?;
    let list = edit_list_of(alloc, walk, trak)?;
    Ok(parts_by(scale, media, list))
}

/// Returns the edit list that has the parts `parts`. The error says what is wrong with it.
pub fn edits_by(parts: &EditParts) -> Result<Edits<'_>, EditFault>
    ensures ok { IfOk result (λ edits. edits ≡ edits_by parts.now) }
    ensures usable { IfOk result (λ _. AreEdits (edits_by parts.now)) }
    ensures err { IfErr result (Faults (edits_by parts.now)) }
{
    Edits::new(
        parts.list.as_ref(),
        parts.movie_timescale,
        parts.media_timescale,
    )
}
