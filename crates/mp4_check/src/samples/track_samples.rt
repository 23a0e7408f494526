//! A look at the samples of the tables of a track.

ghost use Rattle.std.specs.Prelude.{◌≡◌, IfOk, IfSome};
ghost use Rattle.mp4_movie.specs.Tables.{tables_in};
ghost use Rattle.mp4_check.specs.TrackSamples.{LooksBoxes, LooksRead, LooksTrack};

use crate::samples::kind::{Kind, are_known};
use crate::samples::looked::{Looked, nothing};
use crate::samples::sample_walk::look_at_tables;
use mp4_io::{Failure, read_failure};
use mp4_movie::{MovieError, SampleBoxes, tables_in};
use mp4_samples::SampleTables;
use mp4_walk::{BoxWalk, Source, TreeBox};
use std::alloc::Global;

/// Looks at the samples of the tables `boxes`, if these agree.
fn look_at_boxes<S: Source>(
    alloc: Global,
    walk: &mut BoxWalk<S>,
    boxes: &SampleBoxes,
    kinds: &[Kind],
    left: u64,
) -> Result<Looked, Failure>
    ensures value { IfSome walk.old.bytes
        (λ file. IfOk result (LooksBoxes file kinds.now left boxes.now)) }
    ensures kept { walk.new ≡ walk.old }
{
    match SampleTables::new(boxes.tables()) {
        Ok(tables) => look_at_tables(alloc, walk, &tables, kinds, left),
        Err(_) => Ok(nothing(left)),
    }
}

/// Looks at the samples of the tables in an `stbl`, if these can be read and agree. `stbl` begins with the boxes inside
/// the `stbl`.
fn look_at_read<S: Source>(
    alloc: Global,
    walk: &mut BoxWalk<S>,
    stbl: &[TreeBox],
    kinds: &[Kind],
    left: u64,
) -> Result<Looked, Failure>
    ensures value { IfSome walk.old.bytes
        (λ file. IfOk result (LooksRead file kinds.now left (tables_in file stbl.now))) }
    ensures kept { walk.new ≡ walk.old }
{
    match tables_in(alloc, walk, stbl) {
        Ok(Some(boxes)) => look_at_boxes(alloc, walk, &boxes, kinds, left),
        Ok(None) => Ok(nothing(left)),
        Err(MovieError::Box(_)) => Ok(nothing(left)),
        Err(MovieError::Io(error)) => Err(read_failure(&error)),
    }
}

/// Looks at the samples of the tables in an `stbl`, up to the first that the file doesn't have, if there is a rule
/// about samples of one of `kinds`, which has those of each entry. `stbl` begins with the boxes inside the `stbl`, and
/// samples may have `left` bytes.
pub fn look_at_track<S: Source>(
    alloc: Global,
    walk: &mut BoxWalk<S>,
    stbl: &[TreeBox],
    kinds: &[Kind],
    left: u64,
) -> Result<Looked, Failure>
    ensures value { IfSome walk.old.bytes
        (λ file. IfOk result (LooksTrack file stbl.now kinds.now left)) }
    ensures kept { walk.new ≡ walk.old }
{
    if are_known(kinds) {
        look_at_read(alloc, walk, stbl, kinds, left)
    } else {
        Ok(nothing(left))
    }
}
