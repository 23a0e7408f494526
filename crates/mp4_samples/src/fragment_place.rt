//! A cursor over the samples of a fragment.

ghost use Rattle.std.specs.Prelude.{◌≡◌, ◌+◌, ◌<◌, ◌≤◌, length, IfOk, IfErr, IfSome, IfNone, pos};
ghost use Rattle.mp4_samples.specs.Fragments.{run_at, runs_end, sample_offset, base_of, start_after, HasOffset};
ghost use Rattle.mp4_samples.specs.Fragments.{IsSampleOfRun, Faults};
ghost use Rattle.mp4_samples.specs.FragmentPlaces.{IsAt, number_at};

use crate::fragment::{
    Fragment, base_of, description_in, duration_in, is_sync_in, rendering_offset_in, size_in,
    start_of,
};
use crate::fragment_fault::FragmentFault;
use crate::sample::Sample;
use mp4_tables::TrunBox;

/// A place between two samples of a fragment.
#[derive(Clone, Copy)]
pub struct FragmentPlace {
    /// The run, counted from 0.
    pub run: usize,
    /// The number of samples of the run before the place.
    pub index: u32,
    /// The end of the sample before the place. At the first sample of a run it is the end of the run before it.
    pub offset: i128,
    /// The end time of the sample before the place.
    pub time: u64,
}

/// Returns run `run` of `fragment`.
pub fn run_of<'a>(fragment: &Fragment<'a>, run: usize) -> &'a TrunBox
    requires { run < length fragment.now.runs.now }
    ensures { result.now ≡ run_at fragment.now run }
{
    &fragment.runs[run]
}

/// Returns the offset of `trun`, a run after data that ends at `end`.
fn start_after(fragment: &Fragment<'_>, end: i128, trun: &TrunBox) -> i128
    ensures { result ≡ start_after (base_of fragment.now) end trun.now.data_offset }
{
    match trun.data_offset {
        Some(offset) => i128::from(base_of(fragment)) + i128::from(offset),
        None => end,
    }
}

/// Returns the offset of the sample at `place`, a place in `trun`.
fn begin_of(fragment: &Fragment<'_>, trun: &TrunBox, place: FragmentPlace) -> i128
    requires at { IsAt fragment.now place }
    requires run { trun.now ≡ run_at fragment.now place.run }
    ensures { result ≡ sample_offset fragment.now place.run place.index }
{
    if place.index == 0 {
        start_after(fragment, place.offset, trun)
    } else {
        place.offset
    }
}

/// Returns `begin` as an offset in a file, or `None` if it is below 0 or above 2^64 - 1.
pub fn offset_in_file(begin: i128) -> Option<u64>
    ensures some { IfSome result (λ offset. pos offset ≡ begin) }
    ensures none { IfNone result (¬ HasOffset begin 0) }
{
    if begin < 0 || begin >= 1 << 64 {
        return None;
    }
    Some(begin as u64)
}

/// Returns where `size` bytes at `begin` begin and end, or `None` if they begin below 0 or end above 2^64 - 1.
fn extent_of(begin: i128, size: u32) -> Option<(u64, u64)>
    ensures begin { IfSome result (λ r. pos r.0 ≡ begin) }
    ensures end { IfSome result (λ r. r.1 ≡ r.0 + size) }
    ensures none { IfNone result (¬ HasOffset begin size) }
{
    match offset_in_file(begin) {
        Some(offset) => match offset.checked_add(u64::from(size)) {
            Some(end) => Some((offset, end)),
            None => None,
        },
        None => None,
    }
}

/// Returns the place before the first sample.
pub fn first_place(fragment: &Fragment<'_>) -> FragmentPlace
    ensures at { IsAt fragment.now result }
    ensures run { result.run ≡ 0 }
    ensures index { result.index ≡ 0 }
{
    FragmentPlace {
        run: 0,
        index: 0,
        offset: i128::from(base_of(fragment)),
        time: start_of(fragment),
    }
}

/// Returns the place after `trun`, whose samples are all before `place`.
fn after_run(fragment: &Fragment<'_>, trun: &TrunBox, place: FragmentPlace) -> FragmentPlace
    requires at { IsAt fragment.now place }
    requires within { place.run < length fragment.now.runs.now }
    requires run { trun.now ≡ run_at fragment.now place.run }
    requires done { trun.now.sample_count ≤ place.index }
    ensures at { IsAt fragment.now result }
    ensures same { number_at fragment.now result ≡ number_at fragment.now place }
    ensures run { result.run ≡ place.run + 1 }
    ensures index { result.index ≡ 0 }
{
    FragmentPlace {
        run: place.run + 1,
        index: 0,
        offset: begin_of(fragment, trun, place),
        time: place.time,
    }
}

/// Returns `place`, moved to the next run that has a sample, or after the last run, if its run has no sample left. It
/// takes one step for each run that it passes.
pub fn in_run(fragment: &Fragment<'_>, place: FragmentPlace) -> FragmentPlace
    requires { IsAt fragment.now place }
    ensures at { IsAt fragment.now result }
    ensures same { number_at fragment.now result ≡ number_at fragment.now place }
    ensures left { result.run < length fragment.now.runs.now
        → result.index < (run_at fragment.now result.run).sample_count }
{
    let mut at = place;
    while at.run < fragment.runs.len() {
        let trun = run_of(fragment, at.run);
        if at.index < trun.sample_count {
            return at;
        }
        at = after_run(fragment, trun, at);
    }
    at
}

/// Returns the sample at `place`, and the place after it.
pub fn sample_at(
    fragment: &Fragment<'_>,
    place: FragmentPlace,
) -> Result<(Sample, FragmentPlace), FragmentFault>
    requires at { IsAt fragment.now place }
    requires within { place.run < length fragment.now.runs.now }
    requires left { place.index < (run_at fragment.now place.run).sample_count }
    ensures sample { IfOk result (λ r. IsSampleOfRun fragment.now place.run place.index r.0) }
    ensures at { IfOk result (λ r. IsAt fragment.now r.1) }
    ensures next { IfOk result (λ r. (r.1.run ≡ place.run) × (r.1.index ≡ place.index + 1)) }
    ensures err { IfErr result (Faults fragment.now (number_at fragment.now place)) }
{
    let run = place.run;
    let index = place.index;
    let trun = run_of(fragment, run);
    // For the prover: a value that was read has the range of its type.
    let _count = trun.sample_count;
    let size = size_in(fragment, trun, index);
    let duration = duration_in(fragment, trun, index);
    if run >= u32::MAX as usize {
        return Err(FragmentFault::Runs { run, index });
    }
    let Some((offset, end)) = extent_of(begin_of(fragment, trun, place), size) else {
        return Err(FragmentFault::Offset { run, index });
    };
    let Some(time) = place.time.checked_add(u64::from(duration)) else {
        return Err(FragmentFault::Time { run, index });
    };
    let sample = Sample {
        offset,
        size,
        start_time: place.time,
        duration,
        rendering_offset: rendering_offset_in(trun, index),
        is_sync: is_sync_in(fragment, trun, index),
        sample_description_index: description_in(fragment),
        chunk: run as u32 + 1,
    };
    let next = FragmentPlace {
        run,
        index: index + 1,
        offset: i128::from(end),
        time,
    };
    Ok((sample, next))
}
