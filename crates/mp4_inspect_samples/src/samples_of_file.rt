//! Writing the samples of a file.

ghost use Rattle.std.specs.Prelude.{◌≡◌, ◌++◌, map, IfOk, IfSome, OnOk, Some};
ghost use Rattle.mp4_walk.specs.FileBoxes.{boxes_of};
ghost use Rattle.mp4_inspect_samples.specs.Chosen.{WritesChosen};
ghost use Rattle.mp4_inspect_samples.specs.Samples.{AreParts, WritesSamples, box_fault, is_movie, limit_of};
ghost use Rattle.mp4_inspect_samples.specs.Samples.{movie_faults};

use crate::choice::Choice;
use crate::fault::{Fault, TrackFault};
use crate::fragments::fragments_of;
use crate::heading::{write_end, write_front};
use crate::limit::Limit;
use crate::lists::keep;
use crate::segments::write_segments;
use crate::tracks::{Ahead, keep_absent, write_tracks};
use mp4_frame::codes::{MOOF, MOOV};
use mp4_io::{Failure, Output, or_read};
use mp4_movie::{BoxError, Defaults, MoofFragments, Movie, TrackInfo, has_box, movie_in};
use mp4_walk::{BoxWalk, Source, TreeBox};
use std::alloc::{AllocError, Global};
use std::io::Write;

/// The parts of a movie that its samples need.
#[derive(Drop)]
pub struct MovieParts {
    /// The fault of each `trex` that can't be read.
    pub errors: Vec<BoxError>,
    /// The fragments of each `moof`.
    pub moofs: Vec<MoofFragments>,
    /// The headers of the tracks.
    pub infos: Vec<TrackInfo>,
}

/// Returns the parts of a movie that its samples need.
fn parts_of<S: Source>(alloc: Global, movie: &mut Movie<S>) -> Result<MovieParts, Failure>
    ensures value { IfSome movie.old.bytes (λ file. IfOk result (AreParts file)) }
    ensures kept { movie.new ≡ movie.old }
{
    let Defaults {
        by_track: _,
        faults: errors,
    } = or_read(movie.defaults(alloc))?;
    let moofs = or_read(movie.fragments(alloc))?;
    let infos = or_read(movie.tracks(alloc))?;
    Ok(MovieParts {
        errors,
        moofs,
        infos,
    })
}

/// Stores the fault of each `trex` that has one. The fragments of its track have no defaults then.
pub fn keep_errors(errors: Vec<BoxError>, faults: &mut Vec<TrackFault>) -> Result<(), AllocError>
    ensures { OnOk result (faults.new.items ≡ faults.old.items ++ map box_fault errors.items) }
{
    for error in errors {
        let fault = TrackFault {
            track: None,
            fault: Fault::Box(error),
        };
        keep(faults, fault)?;
    }
    Ok(())
}

/// Returns whether a file with the boxes `boxes` has a `moov` or a `moof`.
fn is_movie(boxes: &[TreeBox]) -> bool
    ensures { result ≡ is_movie boxes.now }
{
    has_box(boxes, 0, MOOV) || has_box(boxes, 0, MOOF)
}

/// Stores the fault of a file with the boxes `boxes` that has no `moov` and no `moof`.
pub fn keep_no_movie(boxes: &[TreeBox], faults: &mut Vec<TrackFault>) -> Result<(), AllocError>
    ensures { OnOk result (faults.new.items ≡ faults.old.items ++ movie_faults boxes.now) }
{
    if is_movie(boxes) {
        return Ok(());
    }
    let fault = TrackFault {
        track: None,
        fault: Fault::NoMovie,
    };
    keep(faults, fault)
}

/// Returns the rule by which the samples of the file that `walk` walks over are listed.
pub fn limit_of<S: Source>(walk: &BoxWalk<S>, choice: Choice) -> Limit
    ensures { IfSome walk.now.bytes (λ file. result ≡ limit_of choice file) }
{
    Limit {
        length: walk.length(),
        beyond: choice.beyond,
    }
}

/// Writes the samples of a file with the boxes `boxes`, by the parts of its movie.
fn write_parts<S: Source, W: Write>(
    alloc: Global,
    walk: &mut BoxWalk<S>,
    boxes: &[TreeBox],
    parts: MovieParts,
    choice: Choice,
    output: &mut Output<W>,
    faults: &mut Vec<TrackFault>,
) -> Result<(), Failure>
    ensures samples { IfSome walk.old.bytes
        (λ file. boxes.now ≡ boxes_of file → AreParts file parts
        → OnOk result (WritesSamples choice file (W.contents output.old.inner) (W.contents output.new.inner)
        faults.old.items faults.new.items)) }
{
    let limit = limit_of(walk, choice);
    let MovieParts {
        errors,
        moofs,
        infos,
    } = parts;
    keep_errors(errors, faults)?;
    let fragments = fragments_of(alloc, walk, boxes, moofs, faults)?;
    write_front(choice.form, output)?;
    let mut ahead = Ahead::new(alloc, fragments);
    let movie = movie_in(boxes);
    write_tracks(
        alloc, walk, movie, infos, choice, limit, &mut ahead, output, faults,
    )?;
    keep_absent(&ahead, choice.track, faults)?;
    keep_no_movie(boxes, faults)?;
    write_end(choice.form, output)
}

/// Writes the samples of a file, a row for each. The rows of one track follow those of another. In a track the rows of
/// its tables come first, then those of its fragments. The rows of a track end before the first sample that isn't
/// listed. Stores the faults of tracks, and writes the samples of the other tracks. Needs memory for the boxes of the
/// file and for the runs of all fragments. If `choice.segments` asks for it, writes a row for each `moof` instead.
pub fn write_samples<S: Source, W: Write>(
    alloc: Global,
    source: S,
    choice: Choice,
    output: &mut Output<W>,
    faults: &mut Vec<TrackFault>,
) -> Result<(), Failure>
    ensures samples { IfSome (S.all source)
        (λ file. OnOk result (WritesChosen choice.segments choice file (W.contents output.old.inner)
        (W.contents output.new.inner) faults.old.items faults.new.items)) }
{
    let mut movie = or_read(Movie::open(alloc, source))?;
    let parts = parts_of(alloc, &mut movie)?;
    let (mut walk, boxes) = movie.into_parts();
    if choice.segments {
        write_segments(alloc, &mut walk, &boxes, parts, choice, output, faults)
    } else {
        write_parts(alloc, &mut walk, &boxes, parts, choice, output, faults)
    }
}
