//! The duration of a track.

ghost use Rattle.std.specs.Prelude.{◌≡◌, ◌<◌, ◌^◌, [], length};
ghost use Rattle.mp4_info.specs.Durations.{duration_of, edit_list, edited_ticks, edited_time, edits_of, endless_ticks};
ghost use Rattle.mp4_info.specs.Durations.{has_edits, has_long_times, is_endless, of_ticks};
ghost use Rattle.mp4_samples.specs.Edits.{minus_one};

use crate::rounding::{product, rounded};
use mp4_tables::{ElstBox, ElstEntry};

/// A duration, as an exact number of ticks and in thousandths of a second.
#[derive(Clone, Copy, Debug, PartialEq, Eq)]
pub struct Duration {
    /// The number of ticks.
    pub ticks: u128,
    /// The number of ticks in a second.
    pub ticks_per_second: u64,
    /// The number of thousandths of a second, rounded, and up from a half.
    pub thousandths: u128,
}

/// The one edit of a track without an edit list. It presents the media starting at time 0.
static WHOLE_MEDIA: [ElstEntry; 1] = [ElstEntry {
    segment_duration: 0,
    media_time: 0,
    media_rate: 1,
    media_rate_fraction: 0,
}];

/// Returns the edits of `elst`, or one edit for the whole media if there is no box or no edit in it.
fn entries_of(elst: &Option<ElstBox>) -> &[ElstEntry]
    ensures entries { result.now ≡ edits_of elst.now }
    ensures some { 0 < length result.now }
{
    match elst {
        Some(elst) if !elst.entries.is_empty() => elst.entries.as_slice(),
        _ => &WHOLE_MEDIA,
    }
}

/// Returns whether the times of `elst` have 64 bits.
fn has_long_times(elst: &Option<ElstBox>) -> bool
    ensures { result ≡ has_long_times elst.now }
{
    match elst {
        Some(elst) => elst.version == 1,
        None => false,
    }
}

/// Returns the sum of the durations of edits, in the timescale of the movie, or the largest time if the sum is larger.
fn edited_time(entries: &[ElstEntry]) -> u64
    ensures { result ≡ edited_time entries.now }
{
    let mut time: u64 = 0;
    for index in 0..entries.len() {
        time = time.saturating_add(entries[index].segment_duration);
    }
    time
}

/// Returns the media time of an empty edit: -1 in 64 bits if `is_long`, and otherwise in 32 bits.
fn minus_one(is_long: bool) -> u64
    ensures { result ≡ minus_one is_long }
{
    if is_long { u64::MAX } else { 0xFFFF_FFFF }
}

/// Returns whether `entry` plays and has no duration.
fn is_endless(is_long: bool, entry: ElstEntry) -> bool
    ensures { result ≡ is_endless is_long entry }
{
    entry.segment_duration == 0 && entry.media_time != minus_one(is_long) && entry.media_rate != 0
}

/// Returns the number of ticks for which `entry`, the last edit, shows the media beyond its duration: if it is endless,
/// up to `end`, where the media end in composition time.
fn endless_ticks(is_long: bool, entry: ElstEntry, movie_timescale: u32, end: u64) -> u128
    ensures value { result ≡ endless_ticks (record {
      entries = [];
      long = is_long;
      movie_timescale = movie_timescale;
      media_timescale = 0;
    }) entry end }
    ensures below { result < 2 ^ 96 }
{
    if is_endless(is_long, entry) {
        product(end.saturating_sub(entry.media_time), movie_timescale)
    } else {
        0
    }
}

/// Returns the duration of a track in ticks, of which a second has `movie_timescale` times `media_timescale`. `elst` is
/// its edit list, if it has one. `end` is the composition time at which its media end, in the timescale of the media.
fn edited_ticks(
    elst: &Option<ElstBox>,
    movie_timescale: u32,
    media_timescale: u32,
    end: u64,
) -> u128
    ensures value { result ≡ edited_ticks (edit_list elst.now movie_timescale media_timescale) end }
    ensures below { result < 2 ^ 97 }
{
    let entries = entries_of(elst);
    let last = entries[entries.len() - 1];
    product(edited_time(entries), media_timescale)
        + endless_ticks(has_long_times(elst), last, movie_timescale, end)
}

/// Returns a duration of `ticks` ticks, or `None` if a second has no tick.
fn of_ticks(ticks: u128, ticks_per_second: u64) -> Option<Duration>
    requires { ticks < 2 ^ 97 }
    ensures { result ≡ of_ticks ticks ticks_per_second }
{
    if ticks_per_second == 0 {
        return None;
    }
    Some(Duration {
        ticks,
        ticks_per_second,
        thousandths: rounded(1000 * ticks, ticks_per_second),
    })
}

/// Returns a duration of `ticks` ticks, or `None` if a second has no tick.
pub fn whole_duration(ticks: u64, ticks_per_second: u32) -> Option<Duration>
    ensures { result ≡ of_ticks ticks ticks_per_second }
{
    of_ticks(u128::from(ticks), u64::from(ticks_per_second))
}

/// Returns whether there is an edit.
fn has_edits(elst: &Option<ElstBox>) -> bool
    ensures { result ≡ has_edits elst.now }
{
    match elst {
        Some(elst) => !elst.entries.is_empty(),
        None => false,
    }
}

/// Returns the duration of a track, or `None` without a timescale that it needs. `elst` is its edit list, if it has
/// one. `end` is the time at which its media end, and `shown` their end in composition time, both in the timescale of
/// the media.
pub fn duration_of(
    elst: &Option<ElstBox>,
    movie_timescale: u32,
    media_timescale: u32,
    end: u64,
    shown: u64,
) -> Option<Duration>
    ensures { result ≡ duration_of elst.now movie_timescale media_timescale end shown }
{
    if has_edits(elst) {
        let ticks = edited_ticks(elst, movie_timescale, media_timescale, shown);
        of_ticks(
            ticks,
            u64::from(movie_timescale) * u64::from(media_timescale),
        )
    } else {
        whole_duration(end, media_timescale)
    }
}
