//! The composition times at which the samples of fragments end.

ghost use Rattle.std.specs.Prelude.{◌≡◌, slice_index_or};
ghost use Rattle.mp4_info.specs.Composition.{later, listed_end, raised, run_end};

use mp4_tables::TrunBox;

/// The number that is added to composition offsets, and to the ends of samples, since offsets may be negative.
pub const RAISED: u64 = 0x8000_0000;

/// Returns the number in a run of this version for a composition offset, plus 2^31.
pub fn raised(version: u8, offset: u32) -> u64
    ensures { result ≡ raised version offset }
{
    let raised = u64::from(offset) + RAISED;
    if version == 0 {
        raised
    } else {
        raised % 0x1_0000_0000
    }
}

/// Returns the number at `index` in `numbers`, or `default` if there is none.
fn listed_or(numbers: &[u32], index: usize, default: u32) -> u32
    ensures { result ≡ slice_index_or numbers.now index default }
{
    if index < numbers.len() {
        numbers[index]
    } else {
        default
    }
}

/// Returns the largest time at which one of the samples ends for which a run lists a composition offset, plus 2^31. The
/// run has this version and starts at time 0. A sample for which it lists no duration has the default.
fn listed_end(version: u8, default: u32, durations: &[u32], offsets: &[u32]) -> u64
    ensures { result ≡ listed_end version default durations.now 0 0 0 offsets.now }
{
    let mut time: u64 = 0;
    let mut latest: u64 = 0;
    for index in 0..offsets.len() {
        time = time.saturating_add(u64::from(listed_or(durations, index, default)));
        latest = latest.max(time.saturating_add(raised(version, offsets[index])));
    }
    latest
}

/// Returns the largest time at which a sample of `run` ends, plus 2^31. The run starts at time 0 and lasts for `time`.
/// A sample for which it lists no duration has the default.
pub fn run_end(default: u32, time: u64, run: &TrunBox) -> u64
    ensures { result ≡ run_end default time run.now }
{
    let offsets = run.sample_cts.as_slice();
    let durations = run.sample_durations.as_slice();
    let listed = listed_end(run.version, default, durations, offsets);
    if (offsets.len() as u64) < u64::from(run.sample_count) {
        listed.max(time.saturating_add(RAISED))
    } else {
        listed
    }
}

/// Returns the larger one of `latest` and the time `end` after `start`, if there are samples that end then.
pub fn later(samples: u64, latest: u64, start: u64, end: u64) -> u64
    ensures { result ≡ later samples latest start end }
{
    if samples == 0 {
        latest
    } else {
        latest.max(start.saturating_add(end))
    }
}
