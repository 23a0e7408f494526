//! The checks that an edit list can be used.

ghost use Rattle.std.specs.Prelude.{◌≡◌, ◌+◌, ◌<◌, ◌≤◌, ◌^◌, ◌↔◌, ℕ, true, false, length, slice_index_or, take, sum_by};
ghost use Rattle.std.specs.Prelude.{IfSome, IsNone};
ghost use Rattle.mp4_samples.specs.Edits.{is_empty_edit, is_media_time, is_rate, minus_one, plays, durations_before};
ghost use Rattle.mp4_samples.specs.Edits.{AllPass, Fails};

use mp4_tables::ElstEntry;

/// Returns the media time of an empty edit: -1 in 64 bits if `is_long`, otherwise in 32 bits.
fn minus_one(is_long: bool) -> u64
    ensures { result ≡ minus_one is_long }
{
    if is_long { u64::MAX } else { 0xFFFF_FFFF }
}

/// Returns whether `entry` shows nothing.
pub fn is_empty_edit(is_long: bool, entry: ElstEntry) -> bool
    ensures { result ≡ is_empty_edit is_long entry }
{
    entry.media_time == minus_one(is_long)
}

/// Returns whether `entry` shows the media at its normal rate: it is neither empty nor a dwell.
pub fn plays(is_long: bool, entry: ElstEntry) -> bool
    ensures { result ≡ plays is_long entry }
{
    !is_empty_edit(is_long, entry) && entry.media_rate != 0
}

/// Returns whether the media time of `entry` is at least -1.
fn is_media_time(is_long: bool, entry: ElstEntry) -> bool
    ensures { result ≡ is_media_time is_long entry }
{
    entry.media_time < (if is_long { 1 << 63 } else { 1 << 31 }) || is_empty_edit(is_long, entry)
}

/// Returns whether the rate of `entry` is 0 or 1.
fn is_rate(entry: ElstEntry) -> bool
    ensures { result ≡ is_rate entry }
{
    entry.media_rate < 2 && entry.media_rate_fraction == 0
}

/// Returns the first edit whose media time is below -1.
pub fn wrong_media_time(is_long: bool, entries: &[ElstEntry]) -> Option<usize>
    ensures none { IsNone result ↔ AllPass (is_media_time is_long) entries.now }
    ensures some { IfSome result (Fails (is_media_time is_long) entries.now) }
{
    let mut index = 0;
    for entry in entries {
        if !is_media_time(is_long, *entry) {
            return Some(index);
        }
        index += 1;
    }
    None
}

/// Returns the first edit whose rate is neither 0 nor 1.
pub fn wrong_rate(entries: &[ElstEntry]) -> Option<usize>
    ensures none { IsNone result ↔ AllPass is_rate entries.now }
    ensures some { IfSome result (Fails is_rate entries.now) }
{
    let mut index = 0;
    for entry in entries {
        if !is_rate(*entry) {
            return Some(index);
        }
        index += 1;
    }
    None
}

/// Returns the first edit up to which the sum of the durations passes 2^64 - 1.
pub fn wrong_duration(entries: &[ElstEntry]) -> Option<usize>
    ensures none { IsNone result ↔ (durations_before entries.now (length entries.now) < 2 ^ 64) }
    ensures within { IfSome result (λ k. k < length entries.now) }
    ensures some { IfSome result (λ k. 2 ^ 64 ≤ durations_before entries.now (k + 1)) }
{
    let mut index = 0;
    let mut total: u64 = 0;
    for entry in entries {
        let Some(next) = total.checked_add(entry.segment_duration) else {
            return Some(index);
        };
        total = next;
        index += 1;
    }
    None
}
