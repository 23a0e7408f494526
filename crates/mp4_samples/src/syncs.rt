//! The last sync sample up to a sample or a time.

ghost use Rattle.std.specs.Prelude.{ℕ, ◌≡◌, ◌≤◌, true, false, IfSome, IfNone};
ghost use Rattle.mp4_samples.specs.Runs.{increases, is_listed, Covers, start_of};
ghost use Rattle.mp4_samples.specs.Samples.{AreConsistent, sample_count};
ghost use Rattle.mp4_samples.specs.Syncs.{IsLastSync, HasNoSync, IsLastSyncAt, HasNoSyncAt, IsLastListed};

use crate::search::count_at_most;
use crate::tables::Tables;

/// Returns the largest of `numbers` that is at most `limit`, or `None` if all are above it.
fn last_listed(numbers: &[u32], limit: u32) -> Option<u32>
    requires { increases 0 numbers.now ≡ true }
    ensures some { IfSome result (IsLastListed numbers.now limit) }
    ensures none { IfNone result ((y : ℕ) → y ≤ limit → is_listed y numbers.now ≡ false) }
{
    let count = count_at_most(numbers, limit);
    if count == 0 {
        return None;
    }
    Some(numbers[count - 1])
}

/// Returns the last sync sample among the samples up to `number`.
pub fn last_sync(tables: &Tables<'_>, number: u32) -> Option<u32>
    requires { AreConsistent tables.now }
    ensures some { IfSome result (IsLastSync tables.now number) }
    ensures none { IfNone result (HasNoSync tables.now number) }
{
    let count = tables.stsz.sample_count;
    if count == 0 {
        return None;
    }
    let last = number.min(count - 1);
    let Some(stss) = tables.stss else {
        return Some(last);
    };
    match last_listed(stss.entries.as_slice(), last + 1) {
        Some(listed) => Some(listed - 1),
        None => None,
    }
}

/// Returns the last sync sample that starts at `time` or before it, where `shown` is the sample that covers `time`.
pub fn last_sync_at(tables: &Tables<'_>, time: u64, shown: Option<u32>) -> Option<u32>
    requires consistent { AreConsistent tables.now }
    requires covers { IfSome shown (Covers tables.now.stts.now.entries time) }
    requires none { IfNone shown (start_of tables.now.stts.now.entries (sample_count tables.now) ≤ time) }
    ensures some { IfSome result (IsLastSyncAt tables.now time) }
    ensures none { IfNone result (HasNoSyncAt tables.now time) }
{
    match shown {
        Some(number) => last_sync(tables, number),
        None => last_sync(tables, tables.stsz.sample_count),
    }
}
