//! The duration of a fragment.

ghost use Rattle.std.specs.Prelude.{◌≡◌, ◌-◌, ◌^◌, min};
ghost use Rattle.mp4_inspect_samples.specs.Segments.{default_duration, duration_before, duration_in, duration_of};
ghost use Rattle.mp4_inspect_samples.specs.Segments.{runs_duration};

use mp4_movie::TrackFragment;
use mp4_tables::TrunBox;

/// Returns the duration of a sample for which its run lists none.
fn default_duration(fragment: &TrackFragment) -> u32
    ensures { result ≡ default_duration fragment.now }
{
    fragment
        .header
        .default_sample_duration
        .unwrap_or(fragment.defaults.default_sample_duration)
}

/// Returns the duration of sample `index` of `run`, which is `default` if the run lists none.
fn duration_in(default: u32, run: &TrunBox, index: u32) -> u32
    ensures { result ≡ duration_in default run.now index }
{
    match run.sample_durations.as_slice().get(index as usize) {
        Some(duration) => *duration,
        None => default,
    }
}

/// Returns the duration of the samples of `run`. A sample for which it lists no duration has the duration `default`. It
/// takes one step for each duration that the run lists.
fn run_duration(default: u32, run: &TrunBox) -> u64
    ensures { result ≡ duration_before default run.now run.now.sample_count }
{
    let count = run.sample_count;
    let listed = run.sample_durations.as_slice().len().min(count as usize) as u32;
    let mut total: u64 = 0;
    for index in 0..listed {
        total += u64::from(duration_in(default, run, index));
    }
    total + u64::from(count - listed) * u64::from(default)
}

/// Returns the duration of the samples of `runs`, or 2^64 - 1 if it is longer.
fn runs_duration(default: u32, runs: &[TrunBox]) -> u64
    ensures { result ≡ min (runs_duration default runs.now) (2 ^ 64 - 1) }
{
    let mut total: u64 = 0;
    'runs: for index in 0..runs.len() {
        total = total.saturating_add(run_duration(default, &runs[index]));
    }
    total
}

/// Returns the duration of the samples of `fragment`, in the timescale of its media, or 2^64 - 1 if it is longer.
pub fn duration_of(fragment: &TrackFragment) -> u64
    ensures { result ≡ duration_of fragment.now }
{
    runs_duration(default_duration(fragment), &fragment.runs)
}
