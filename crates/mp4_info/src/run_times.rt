//! The durations of the samples of a track.

ghost use Rattle.std.specs.Prelude.{◌≡◌, ◌++◌, IfOk, OnOk, filter, map};
ghost use Rattle.mp4_info.specs.RunTimes.{counts, fragment_times, others, run_times, single, table_times, times_of};

use crate::totals::{default_duration, unlisted};
use mp4_movie::{SampleBoxes, TrackFragment};
use mp4_shown::Result;
use mp4_tables::{SttsEntry, TrunBox};
use std::alloc::Global;

/// Appends those of `entries` that count samples.
fn push_entries(entries: &[SttsEntry], out: &mut Vec<SttsEntry>) -> Result<()>
    ensures { OnOk result (out.new.items ≡ out.old.items ++ filter counts entries.now) }
{
    for index in 0..entries.len() {
        let entry = entries[index];
        if entry.sample_count > 0 {
            out.push(entry)?;
        }
    }
    Ok(())
}

/// Appends an entry of one sample for each of `durations`.
fn push_listed(durations: &[u32], out: &mut Vec<SttsEntry>) -> Result<()>
    ensures { OnOk result (out.new.items ≡ out.old.items ++ map single durations.now) }
{
    for index in 0..durations.len() {
        out.push(SttsEntry {
            sample_count: 1,
            sample_delta: durations[index],
        })?;
    }
    Ok(())
}

/// Appends an entry of `count` samples with the duration `default`, unless there are none.
fn push_others(count: u32, default: u32, out: &mut Vec<SttsEntry>) -> Result<()>
    ensures { OnOk result (out.new.items ≡ out.old.items ++ others count default) }
{
    if count == 0 {
        return Ok(());
    }
    out.push(SttsEntry {
        sample_count: count,
        sample_delta: default,
    })?;
    Ok(())
}

/// Appends the durations of the samples of `run`.
fn push_run(fragment: &TrackFragment, run: &TrunBox, out: &mut Vec<SttsEntry>) -> Result<()>
    ensures { OnOk result (out.new.items ≡ out.old.items ++ run_times fragment.now run.now) }
{
    let listed = run.sample_durations.as_slice();
    push_listed(listed, out)?;
    let count = unlisted(run.sample_count, listed.len());
    push_others(count, default_duration(fragment), out)
}

/// Appends the durations of the samples of `fragment`.
pub fn push_fragment(fragment: &TrackFragment, out: &mut Vec<SttsEntry>) -> Result<()>
    ensures { OnOk result (out.new.items ≡ out.old.items ++ fragment_times fragment.now) }
{
    let runs = fragment.runs.as_slice();
    for index in 0..runs.len() {
        push_run(fragment, &runs[index], out)?;
    }
    Ok(())
}

/// Returns the durations in the tables of a track, if it has some.
fn table_times(tables: &Option<SampleBoxes>) -> &[SttsEntry]
    ensures { result.now ≡ table_times tables.now }
{
    match tables {
        Some(tables) => &tables.stts.entries,
        None => &[],
    }
}

/// Returns the durations of the samples of a track, in the form of an `stts`: those of its tables, and `times`, those
/// of its fragments. Needs 8 bytes of memory for each entry.
pub fn times_of(
    alloc: Global,
    tables: &Option<SampleBoxes>,
    times: &[SttsEntry],
) -> Result<Vec<SttsEntry>>
    ensures { IfOk result (λ all. all.items ≡ times_of tables.now times.now) }
{
    let mut all = Vec::new(alloc);
    push_entries(table_times(tables), &mut all)?;
    all.extend_from_slice(times)?;
    Ok(all)
}
