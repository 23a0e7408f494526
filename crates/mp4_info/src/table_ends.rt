//! The composition times at which the samples of tables end.

ghost use Rattle.std.specs.Prelude.{◌≡◌, ◌<◌, ◌≤◌, ◌+◌, length, min, slice_index_or};
ghost use Rattle.mp4_info.specs.TableEnds.{Counts, no_times};
ghost use Rattle.mp4_info.specs.Totals.{end_after, offset_end, tables_end};

use crate::composition::{RAISED, later, raised};
use crate::totals::{entry_time, sample_count, sample_time};
use mp4_tables::{CttsBox, CttsEntry, SttsEntry};

/// The first entries of an `stts`.
#[derive(Clone, Copy, Debug, PartialEq, Eq)]
struct Passed {
    /// The number of these entries.
    entries: usize,
    /// The number of their samples.
    samples: u64,
    /// The time at which the last one of these samples ends.
    time: u64,
}

/// No entries.
const NONE_PASSED: Passed = Passed {
    entries: 0,
    samples: 0,
    time: 0,
};

/// Returns the entries whose samples are all among the first `count` of `entries`. `passed` are some of them.
fn pass(entries: &[SttsEntry], passed: Passed, count: u64) -> Passed
    requires counts { Counts entries.now passed }
    requires few { passed.samples ≤ count }
    ensures counts { Counts entries.now result }
    ensures few { result.samples ≤ count }
    ensures rest { result.entries < length entries.now
        → count ≤ result.samples + (slice_index_or entries.now result.entries no_times).sample_count }
{
    let mut passed = passed;
    'entries: while passed.entries < entries.len() {
        let entry = entries[passed.entries];
        let samples = u64::from(entry.sample_count);
        if samples > count - passed.samples {
            return passed;
        }
        passed = Passed {
            entries: passed.entries + 1,
            samples: passed.samples + samples,
            time: passed.time.saturating_add(entry_time(entry)),
        };
    }
    passed
}

/// Returns an entry of the first `count` samples of `entry`, or of all if it has fewer.
fn first_samples(entry: SttsEntry, count: u64) -> SttsEntry
    ensures count { result.sample_count ≡ min count entry.sample_count }
    ensures delta { result.sample_delta ≡ entry.sample_delta }
{
    SttsEntry {
        sample_count: count.min(u64::from(entry.sample_count)) as u32,
        sample_delta: entry.sample_delta,
    }
}

/// Returns the time at which the first `count` samples of `entries` end. `passed` are the entries whose samples are all
/// among them.
fn end_after(entries: &[SttsEntry], passed: Passed, count: u64) -> u64
    requires counts { Counts entries.now passed }
    requires few { passed.samples ≤ count }
    requires rest { passed.entries < length entries.now
        → count ≤ passed.samples + (slice_index_or entries.now passed.entries no_times).sample_count }
    ensures { result ≡ end_after count entries.now }
{
    if passed.entries < entries.len() {
        let first = first_samples(entries[passed.entries], count - passed.samples);
        passed.time.saturating_add(entry_time(first))
    } else {
        passed.time
    }
}

/// Returns the largest composition time at which one of the samples of `entries` ends, plus 2^31. `offsets` have the
/// composition offsets of the first ones. The samples after these have the offset 0.
fn offset_end(entries: &[SttsEntry], offsets: &[CttsEntry]) -> u64
    ensures { result ≡ offset_end entries.now 0 0 offsets.now }
{
    let samples = sample_count(entries);
    let mut passed = NONE_PASSED;
    let mut count: u64 = 0;
    let mut latest: u64 = 0;
    for index in 0..offsets.len() {
        let listed = u64::from(offsets[index].sample_count);
        let offset = raised(1, offsets[index].sample_offset.cast_unsigned());
        let own = samples.saturating_sub(count).min(listed);
        count = count.saturating_add(listed);
        passed = pass(entries, passed, count);
        latest = later(own, latest, end_after(entries, passed, count), offset);
    }
    later(
        samples.saturating_sub(count),
        latest,
        sample_time(entries),
        RAISED,
    )
}

/// Returns the largest composition time at which one of the samples of tables ends, plus 2^31.
pub fn tables_end(entries: &[SttsEntry], ctts: &Option<CttsBox>) -> u64
    ensures { result ≡ tables_end entries.now ctts.now }
{
    match ctts {
        Some(ctts) => offset_end(entries, &ctts.entries),
        None => offset_end(entries, &[]),
    }
}
