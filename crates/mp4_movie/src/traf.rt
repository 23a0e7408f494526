//! The boxes of a `traf`.

ghost use Rattle.std.specs.Prelude.{IfOk, ◌≡◌, [], ◌∷◌, ◌++◌, OnOk};
ghost use Rattle.mp4_frame.specs.FourCC.{four_cc_of};
ghost use Rattle.mp4_frame.specs.declared.codes.TheConstants as names;
ghost use Rattle.mp4_movie.specs.Levels.{all_in};
ghost use Rattle.mp4_movie.specs.Problems.{ReturnsFor};
ghost use Rattle.mp4_movie.specs.Reads.{value_at};
ghost use Rattle.mp4_movie.specs.Trafs.{ReturnsForAs, runs_of, traf_of, value_of};
ghost use Rattle.mp4_tables.specs.Boxes.{reads_trun};

use crate::error::MovieError;
use crate::found::{optional, required, value_at};
use crate::level::first_in;
use mp4_flat::TfdtBox;
use mp4_frame::codes;
use mp4_tables::{TfhdBox, TrunBox};
use mp4_walk::{BoxWalk, Source, TreeBox};
use std::alloc::Global;
use std::io;

/// The depth of the boxes of a `traf`, which are inside `moof` and `traf`.
const DEPTH: u64 = 2;

/// The values of the boxes of a `traf`.
#[derive(Debug, Drop)]
pub struct Traf {
    /// The header.
    pub header: TfhdBox,
    /// The decode time of its first sample, if it states one.
    pub time: Option<TfdtBox>,
    /// The runs, in the order of the file.
    pub runs: Vec<TrunBox>,
}

/// Appends `run` to `runs`.
fn keep(runs: &mut Vec<TrunBox>, run: TrunBox) -> io::Result<()>
    ensures { OnOk result (runs.new.items ≡ runs.old.items ++ run ∷ []) }
{
    runs.push(run)?;
    Ok(())
}

/// Returns the run in `found`.
fn run_at<S: Source>(
    alloc: Global,
    walk: &mut BoxWalk<S>,
    found: &TreeBox,
) -> Result<TrunBox, MovieError>
    ensures value { ReturnsFor walk.old.bytes result (λ file. value_at reads_trun names.TRUN file found.now) }
    ensures kept { walk.new ≡ walk.old }
{
    match value_at::<TrunBox, S>(alloc, walk, codes::TRUN, found)? {
        Ok(run) => Ok(run),
        Err(error) => Err(MovieError::Box(error)),
    }
}

/// Returns a list without runs, with room for one, which is what most `traf`s have.
fn room_for_one(alloc: Global) -> io::Result<Vec<TrunBox>>
    ensures { IfOk result (λ runs. runs.items ≡ []) }
{
    Ok(Vec::with_capacity(alloc, 1)?)
}

/// Returns the runs of a `traf`. `boxes` begins with the boxes inside it.
fn runs_in<S: Source>(
    alloc: Global,
    walk: &mut BoxWalk<S>,
    boxes: &[TreeBox],
) -> Result<Vec<TrunBox>, MovieError>
    ensures value { ReturnsForAs (λ v. v.items) walk.old.bytes result
        (λ file. runs_of file (all_in 2 (four_cc_of names.TRUN) boxes.now)) }
    ensures kept { walk.new ≡ walk.old }
{
    let mut runs = room_for_one(alloc)?;
    let mut rest = boxes;
    while let Some(place) = first_in(rest, DEPTH, codes::TRUN) {
        let run = run_at(alloc, walk, &place.found)?;
        keep(&mut runs, run)?;
        rest = place.after;
    }
    Ok(runs)
}

/// Returns the values of the boxes of a `traf`. `boxes` begins with the boxes inside it.
pub fn traf_in<S: Source>(
    alloc: Global,
    walk: &mut BoxWalk<S>,
    boxes: &[TreeBox],
) -> Result<Traf, MovieError>
    ensures value { ReturnsForAs value_of walk.old.bytes result (λ file. traf_of file boxes.now) }
    ensures kept { walk.new ≡ walk.old }
{
    let header = required(alloc, walk, boxes, DEPTH, codes::TFHD)?;
    let time = optional(alloc, walk, boxes, DEPTH, codes::TFDT)?;
    let runs = runs_in(alloc, walk, boxes)?;
    Ok(Traf { header, time, runs })
}
