//! The samples of a track.

ghost use Rattle.std.specs.Prelude.{◌≡◌, IfOk, IfSome};
ghost use Rattle.mp4_movie.specs.Movies.{samples_of};
ghost use Rattle.mp4_inspect_samples.specs.Row.{labels_of};
ghost use Rattle.mp4_inspect_samples.specs.Tracks.{WritesNext, WritesTraf, WritesTrack, WritesTrackFragment};
ghost use Rattle.mp4_inspect_samples.specs.Tracks.{WritesTrafs, fault_at_end, reached_after, with_more};

use crate::fault::Fault;
use crate::fragments::TrackTraf;
use crate::heading::Heading;
use crate::limit::{Limit, Unlisted, samples_in, unlisted_of};
use crate::reached::Reached;
use crate::row::RowRule;
use crate::rows::{FragmentEnd, RowWriter, write_fragment_rows};
use crate::tables::{tables_of, write_first};
use mp4_io::{Failure, Output};
use mp4_movie::TrackFragment;
use mp4_walk::{BoxWalk, Source, TreeBox};
use std::alloc::Global;
use std::io::Write;

/// Returns the progress of a track after `fragment`, whose rows end at `end`, or the fault of the sample after them.
/// `before` has the rows of the track before it.
fn reached_after(
    fragment: &TrackFragment,
    limit: Limit,
    before: Reached,
    end: FragmentEnd,
) -> Result<Reached, Fault>
    ensures { result ≡ reached_after fragment.now limit before end }
{
    let counted = before.count.saturating_add(samples_in(&fragment.runs));
    match end.fault {
        Some(fault) => Err(Fault::Fragment(fragment.moof, fault)),
        None => Ok(Reached {
            count: end.count,
            time: end.time,
            empty: end.empty,
            unlisted: unlisted_of(limit, end.count, counted, end.unlisted),
        }),
    }
}

/// Writes the samples of a fragment, up to the first that has a fault or isn't listed. `before` has the rows of the
/// track before it.
fn write_fragment<W: Write>(
    fragment: &TrackFragment,
    rule: &RowRule<'_>,
    limit: Limit,
    before: Reached,
    writer: &mut RowWriter,
    output: &mut Output<W>,
) -> Result<Result<Reached, Fault>, Failure>
    ensures writes { IfOk result
        (WritesTrackFragment fragment.now limit writer.old.form (labels_of rule.now) before writer.old.follows
        writer.new.follows
        (W.contents output.old.inner) (W.contents output.new.inner)) }
    ensures form { writer.new.form ≡ writer.old.form }
{
    let end = write_fragment_rows(
        &fragment.fragment(before.time),
        rule,
        limit,
        before.count,
        before.empty,
        writer,
        output,
    )?;
    Ok(reached_after(fragment, limit, before, end))
}

/// Returns `reached` with `count` more samples that are not listed, after `unlisted`.
fn with_more(reached: Reached, unlisted: Unlisted, count: u64) -> Reached
    ensures { result ≡ with_more reached unlisted count }
{
    Reached {
        unlisted: Some(unlisted.and_more(count)),
        ..reached
    }
}

/// Writes the samples of a `traf`, if it is a fragment, up to the first that has a fault or isn't listed. Counts them
/// only, if a sample before it isn't listed. `before` has the rows of the track before it.
fn write_next<W: Write>(
    traf: TrackTraf,
    rule: &RowRule<'_>,
    limit: Limit,
    before: Reached,
    writer: &mut RowWriter,
    output: &mut Output<W>,
) -> Result<Result<Reached, Fault>, Failure>
    ensures writes { IfOk result
        (WritesNext limit writer.old.form (labels_of rule.now) traf before.unlisted before writer.old.follows
        writer.new.follows
        (W.contents output.old.inner) (W.contents output.new.inner)) }
    ensures form { writer.new.form ≡ writer.old.form }
{
    let TrackTraf { samples, fragment } = traf;
    if let Some(unlisted) = before.unlisted {
        return Ok(Ok(with_more(before, unlisted, samples)));
    }
    match fragment {
        Ok(fragment) => write_fragment(&fragment, rule, limit, before, writer, output),
        Err(error) => Ok(Err(Fault::Box(error))),
    }
}

/// Writes the samples of a `traf`, unless its track has a fault before it.
fn write_traf<W: Write>(
    traf: TrackTraf,
    rule: &RowRule<'_>,
    limit: Limit,
    before: Result<Reached, Fault>,
    writer: &mut RowWriter,
    output: &mut Output<W>,
) -> Result<Result<Reached, Fault>, Failure>
    ensures writes { IfOk result
        (WritesTraf limit writer.old.form (labels_of rule.now) traf before writer.old.follows writer.new.follows
        (W.contents output.old.inner) (W.contents output.new.inner)) }
    ensures form { writer.new.form ≡ writer.old.form }
{
    match before {
        Ok(reached) => write_next(traf, rule, limit, reached, writer, output),
        Err(fault) => Ok(Err(fault)),
    }
}

/// Writes the samples of the `traf`s of a track, up to the first that has a fault or isn't listed. Counts those after
/// it. `first` has the rows of the track before them.
fn write_trafs<W: Write>(
    trafs: Vec<TrackTraf>,
    rule: &RowRule<'_>,
    limit: Limit,
    first: Result<Reached, Fault>,
    writer: &mut RowWriter,
    output: &mut Output<W>,
) -> Result<Result<Reached, Fault>, Failure>
    ensures writes { IfOk result
        (WritesTrafs limit writer.old.form (labels_of rule.now) trafs.items first writer.old.follows writer.new.follows
        (W.contents output.old.inner) (W.contents output.new.inner)) }
    ensures form { writer.new.form ≡ writer.old.form }
{
    let mut reached = first;
    for traf in trafs {
        let next = write_traf(traf, rule, limit, reached, writer, output)?;
        reached = next;
    }
    Ok(reached)
}

/// Returns the fault at the end of the rows of a track: a sample that isn't listed is one.
fn fault_at_end(end: Result<Reached, Fault>) -> Option<Fault>
    ensures { result ≡ fault_at_end end }
{
    match end {
        Ok(reached) => match reached.unlisted {
            Some(unlisted) => Some(Fault::Unlisted(unlisted)),
            None => None,
        },
        Err(fault) => Some(fault),
    }
}

/// Writes the samples of a track, up to the first that has a fault or isn't listed: those of its tables, and then those
/// of its fragments `trafs`. Returns the fault. `trak` begins with the boxes inside its `trak`.
pub fn write_track<S: Source, W: Write>(
    alloc: Global,
    walk: &mut BoxWalk<S>,
    trak: &[TreeBox],
    heading: Heading,
    rule: &RowRule<'_>,
    trafs: Vec<TrackTraf>,
    limit: Limit,
    writer: &mut RowWriter,
    output: &mut Output<W>,
) -> Result<Option<Fault>, Failure>
    ensures writes { IfSome walk.old.bytes
        (λ file. IfOk result (WritesTrack limit writer.old.form (labels_of rule.now) trafs.items (samples_of file
        trak.now)
        writer.old.follows writer.new.follows (W.contents output.old.inner) (W.contents output.new.inner))) }
    ensures form { writer.new.form ≡ writer.old.form }
    ensures kept { walk.new ≡ walk.old }
{
    let tables = tables_of(alloc, walk, trak)?;
    let first = write_first(tables, heading, rule, limit, writer, output)?;
    let last = write_trafs(trafs, rule, limit, first, writer, output)?;
    Ok(fault_at_end(last))
}
