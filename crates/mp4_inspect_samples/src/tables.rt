//! The samples of the tables of a track.

ghost use Rattle.std.specs.Prelude.{◌≡◌, IfOk, IfSome, Result};
ghost use Rattle.std.specs.declared.option.Option.{Option};
ghost use Rattle.mp4_movie.specs.Movies.{inside, sample_table, samples_of};
ghost use Rattle.mp4_movie.specs.Problems.{Problem, Records, ReturnsBoxes, ReturnsFor};
ghost use Rattle.mp4_movie.specs.declared.sample_boxes.SampleBoxes.{SampleBoxes};
ghost use Rattle.mp4_inspect_samples.specs.Row.{labels_of};
ghost use Rattle.mp4_inspect_samples.specs.Tracks.{WritesBoxes, WritesFirst, WritesHeadingOnly, WritesTables};

use crate::fault::Fault;
use crate::heading::{Heading, write_heading};
use crate::limit::{Limit, unlisted_of};
use crate::reached::Reached;
use crate::row::RowRule;
use crate::rows::{RowWriter, write_rows};
use mp4_frame::FourCC;
use mp4_frame::codes::{MDIA, MINF, STBL};
use mp4_io::{Failure, Output, read_failure};
use mp4_movie::{BoxError, MovieError, SampleBoxes, first_in, tables_in};
use mp4_samples::SampleTables;
use mp4_walk::{BoxWalk, Source, TreeBox};
use std::alloc::Global;
use std::io::Write;

/// Returns the boxes after the first box with `code` in a level. Fails if there is none.
fn inside<'a>(level: &'a [TreeBox], depth: u64, code: u32) -> Result<&'a [TreeBox], MovieError>
    ensures { ReturnsBoxes result (inside depth code level.now) }
{
    match first_in(level, depth, code) {
        Some(place) => Ok(place.after),
        None => Err(MovieError::Box(BoxError::Missing {
            code: FourCC::from(code),
        })),
    }
}

/// Returns the boxes after the header of the sample table of a track. `trak` begins with the boxes inside its `trak`.
fn sample_table(trak: &[TreeBox]) -> Result<&[TreeBox], MovieError>
    ensures { ReturnsBoxes result (sample_table trak.now) }
{
    let mdia = inside(trak, 2, MDIA)?;
    let minf = inside(mdia, 3, MINF)?;
    inside(minf, 4, STBL)
}

/// Returns the sample tables of a track, or `None` if it has no samples except those of fragments. `trak` begins with
/// the boxes inside its `trak`.
fn tables_or_stop<S: Source>(
    alloc: Global,
    walk: &mut BoxWalk<S>,
    trak: &[TreeBox],
) -> Result<Option<SampleBoxes>, MovieError>
    ensures value { ReturnsFor walk.old.bytes result (λ file. samples_of file trak.now) }
    ensures kept { walk.new ≡ walk.old }
{
    let stbl = sample_table(trak)?;
    tables_in(alloc, walk, stbl)
}

/// Returns the sample tables of a track, or `None` if it has no samples except those of fragments, or why they can't be
/// read. `trak` begins with the boxes inside its `trak`.
pub fn tables_of<S: Source>(
    alloc: Global,
    walk: &mut BoxWalk<S>,
    trak: &[TreeBox],
) -> Result<Result<Option<SampleBoxes>, BoxError>, Failure>
    ensures value { IfSome walk.old.bytes
        (λ file. IfOk result (λ tables. Records tables (samples_of file trak.now))) }
    ensures kept { walk.new ≡ walk.old }
{
    match tables_or_stop(alloc, walk, trak) {
        Ok(tables) => Ok(Ok(tables)),
        Err(MovieError::Box(error)) => Ok(Err(error)),
        Err(MovieError::Io(error)) => Err(read_failure(&error)),
    }
}

/// Writes the heading of a track and the samples of its tables, up to the first that isn't listed. A fragment without a
/// time begins at `time`.
fn write_agreed<W: Write>(
    tables: &SampleTables<'_>,
    heading: Heading,
    rule: &RowRule<'_>,
    time: u64,
    limit: Limit,
    writer: &mut RowWriter,
    output: &mut Output<W>,
) -> Result<Reached, Failure>
    ensures writes { IfOk result
        (WritesTables tables.now time limit writer.old.form (labels_of rule.now) writer.old.follows writer.new.follows
        (W.contents output.old.inner) (W.contents output.new.inner)) }
    ensures form { writer.new.form ≡ writer.old.form }
{
    write_heading(heading, writer, output)?;
    let end = write_rows(tables, rule, limit, writer, output)?;
    Ok(Reached {
        count: end.count,
        time,
        empty: end.empty,
        unlisted: unlisted_of(limit, end.count, u64::from(tables.len()), end.unlisted),
    })
}

/// Writes the heading of a track and the samples of its tables `boxes`, up to the first that isn't listed. Writes
/// nothing if the tables disagree.
fn write_tables<W: Write>(
    boxes: &SampleBoxes,
    heading: Heading,
    rule: &RowRule<'_>,
    limit: Limit,
    writer: &mut RowWriter,
    output: &mut Output<W>,
) -> Result<Result<Reached, Fault>, Failure>
    ensures writes { IfOk result
        (WritesBoxes boxes.now limit writer.old.form (labels_of rule.now) writer.old.follows writer.new.follows
        (W.contents output.old.inner) (W.contents output.new.inner)) }
    ensures form { writer.new.form ≡ writer.old.form }
{
    let time = boxes.time_end();
    match SampleTables::new(boxes.tables()) {
        Ok(tables) => {
            let reached = write_agreed(&tables, heading, rule, time, limit, writer, output)?;
            Ok(Ok(reached))
        }
        Err(disagreement) => Ok(Err(Fault::Tables(disagreement))),
    }
}

/// Writes the heading of a track without tables.
fn write_no_rows<W: Write>(
    heading: Heading,
    writer: &mut RowWriter,
    output: &mut Output<W>,
) -> Result<Result<Reached, Fault>, Failure>
    ensures writes { IfOk result
        (WritesHeadingOnly writer.old.form writer.old.follows writer.new.follows
        (W.contents output.old.inner) (W.contents output.new.inner)) }
    ensures form { writer.new.form ≡ writer.old.form }
{
    write_heading(heading, writer, output)?;
    Ok(Ok(Reached {
        count: 0,
        time: 0,
        empty: 0,
        unlisted: None,
    }))
}

/// Writes the heading of a track and the samples of its tables, up to the first that isn't listed. Writes nothing if
/// the tables can't be read or disagree.
pub fn write_first<W: Write>(
    tables: Result<Option<SampleBoxes>, BoxError>,
    heading: Heading,
    rule: &RowRule<'_>,
    limit: Limit,
    writer: &mut RowWriter,
    output: &mut Output<W>,
) -> Result<Result<Reached, Fault>, Failure>
    ensures writes { (r : Result (Option SampleBoxes) Problem) → Records tables r → IfOk result
        (WritesFirst limit writer.old.form (labels_of rule.now) r writer.old.follows writer.new.follows
        (W.contents output.old.inner) (W.contents output.new.inner)) }
    ensures form { writer.new.form ≡ writer.old.form }
{
    match tables {
        Ok(Some(boxes)) => write_tables(&boxes, heading, rule, limit, writer, output),
        Ok(None) => write_no_rows(heading, writer, output),
        Err(error) => Ok(Err(Fault::Box(error))),
    }
}
