//! The edit list of a track, which maps times of its media to times of its presentation.

ghost use Rattle.std.specs.Prelude.{◌≡◌, ◌+◌, ◌*◌, ◌/◌, ◌<◌, ◌≤◌, ◌^◌, ◌↔◌, ℕ, length, pos, IfOk, IsOk, IfErr, IfSome};
ghost use Rattle.std.specs.Prelude.{IfNone, IsTrue};
ghost use Rattle.mp4_samples.specs.Edits.{EditList, AreEdits, Faults, edit_list, edit_at, begin_of, Lasts, is_dwell};
ghost use Rattle.mp4_samples.specs.Edits.{is_empty_edit, movie_ticks, media_ticks, Covers, MediaAt, EditAt};
ghost use Rattle.mp4_samples.specs.Edits.{FirstPresentation, PresentationIn, CompositionTime, edits_of, has_long_times};

use crate::edit_checks::{is_empty_edit, plays, wrong_duration, wrong_media_time, wrong_rate};
use crate::edit_fault::EditFault;
use crate::presentation::Presentation;
use crate::sample::Sample;
use mp4_tables::{ElstBox, ElstEntry};
use std::marker::Model;

/// The one edit of a track without an edit list. It presents the media starting at time 0.
static WHOLE_MEDIA: [ElstEntry; 1] = [ElstEntry {
    segment_duration: 0,
    media_time: 0,
    media_rate: 1,
    media_rate_fraction: 0,
}];

/// The edit list of a track, with the timescales of its times. Contracts see an `EditList`.
#[derive(Drop)]
pub struct Edits<'a> {
    entries: &'a [ElstEntry],
    is_long: bool,
    movie_timescale: u32,
    media_timescale: u32,
}

impl<'a> Model for Edits<'a> {
    ghost use Rattle.mp4_samples.specs.Edits.{EditList, AreEdits};

    ghost Value = { EditList };

    ghost view = { λ s. record {
      entries = s.entries.now;
      long = s.is_long;
      movie_timescale = s.movie_timescale;
      media_timescale = s.media_timescale;
    } };

    ghost invariant = { λ s. AreEdits (record {
      entries = s.entries.now;
      long = s.is_long;
      movie_timescale = s.movie_timescale;
      media_timescale = s.media_timescale;
    }) };
}

/// Returns the edits of `elst`, or one edit for the whole media if there is no box or no edit in it.
fn entries_of<'a>(elst: Option<&'a ElstBox>) -> &'a [ElstEntry]
    ensures { result.now ≡ edits_of elst.entry }
{
    match elst {
        Some(elst) if !elst.entries.is_empty() => elst.entries.as_slice(),
        _ => &WHOLE_MEDIA,
    }
}

/// Returns whether the times of `elst` have 64 bits.
fn has_long_times(elst: Option<&ElstBox>) -> bool
    ensures { result ≡ has_long_times elst.entry }
{
    match elst {
        Some(elst) => elst.version == 1,
        None => false,
    }
}

/// Checks that an edit list can be used. The error says what is wrong with it.
fn check(
    entries: &[ElstEntry],
    is_long: bool,
    movie_timescale: u32,
    media_timescale: u32,
) -> Result<(), EditFault>
    ensures exact { IsOk result ↔ AreEdits (record {
      entries = entries.now;
      long = is_long;
      movie_timescale = movie_timescale;
      media_timescale = media_timescale;
    }) }
    ensures err { IfErr result (Faults (record {
      entries = entries.now;
      long = is_long;
      movie_timescale = movie_timescale;
      media_timescale = media_timescale;
    })) }
{
    if movie_timescale == 0 {
        return Err(EditFault::MovieTimescale);
    }
    if media_timescale == 0 {
        return Err(EditFault::MediaTimescale);
    }
    if let Some(index) = wrong_media_time(is_long, entries) {
        return Err(EditFault::MediaTime {
            index,
            media_time: entries[index].media_time,
        });
    }
    if let Some(index) = wrong_rate(entries) {
        return Err(EditFault::Rate {
            index,
            rate: entries[index].media_rate,
            fraction: entries[index].media_rate_fraction,
        });
    }
    if let Some(index) = wrong_duration(entries) {
        return Err(EditFault::Durations { index });
    }
    Ok(())
}

/// Returns `time` in ticks, where `ticks` is the number of ticks in a unit of `time`.
fn ticks_of(time: u64, ticks: u32) -> u128
    ensures value { result ≡ time * ticks }
    ensures below { result < 2 ^ 96 }
{
    u128::from(time) * u128::from(ticks)
}

impl<'a> Edits<'a> {
    /// Makes the edit list of `elst` with the timescales of the movie (`mvhd`) and of the media (`mdhd`). Without a
    /// box, or without an edit in it, the media is presented unchanged. It takes no memory and one step for each edit.
    /// The error says what is wrong with the list or the timescales.
    pub fn new(
        elst: Option<&'a ElstBox>,
        movie_timescale: u32,
        media_timescale: u32,
    ) -> Result<Edits<'a>, EditFault>
        ensures ok { IfOk result (λ edits. edits ≡ edit_list elst.entry movie_timescale media_timescale) }
        ensures exact { IsOk result ↔ AreEdits (edit_list elst.entry movie_timescale media_timescale) }
        ensures err { IfErr result (Faults (edit_list elst.entry movie_timescale media_timescale)) }
    {
        let entries = entries_of(elst);
        let is_long = has_long_times(elst);
        check(entries, is_long, movie_timescale, media_timescale)?;
        Ok(Edits {
            entries,
            is_long,
            movie_timescale,
            media_timescale,
        })
    }

    /// Returns the number of ticks in a second. It is the product of both timescales, so a unit of either timescale is
    /// a whole number of ticks.
    pub fn ticks_per_second(&self) -> u64
        ensures { result ≡ self.now.movie_timescale * self.now.media_timescale }
    {
        u64::from(self.movie_timescale) * u64::from(self.media_timescale)
    }

    /// Returns `time`, in the timescale of the movie, in ticks.
    pub fn movie_ticks(&self, time: u64) -> u128
        ensures { result ≡ movie_ticks self.now time }
    {
        ticks_of(time, self.media_timescale)
    }

    /// Returns `time`, in the timescale of the media, in ticks.
    pub fn media_ticks(&self, time: u64) -> u128
        ensures { result ≡ media_ticks self.now time }
    {
        ticks_of(time, self.movie_timescale)
    }

    /// Returns `ticks` in whole units of the timescale of the movie, rounded down.
    pub fn movie_units(&self, ticks: u128) -> u128
        ensures { result ≡ ticks / self.now.media_timescale }
    {
        ticks / u128::from(self.media_timescale)
    }

    /// Returns `ticks` in whole units of the timescale of the media, rounded down. Samples start and end at whole
    /// units, so the sample that covers this unit covers `ticks`.
    pub fn media_units(&self, ticks: u128) -> u128
        ensures { result ≡ ticks / self.now.movie_timescale }
    {
        ticks / u128::from(self.movie_timescale)
    }

    /// Returns the number of edits, which is 1 without an edit list.
    pub fn len(&self) -> usize
        ensures { result ≡ length self.now.entries }
    {
        self.entries.len()
    }

    /// Returns whether edit `index` lasts for more than `ticks`. The last edit has no end if it plays and has no
    /// duration.
    fn lasts(&self, index: usize, ticks: u128) -> bool
        requires { index < length self.now.entries }
        ensures { IsTrue result ↔ Lasts self.now index ticks }
    {
        let entries = self.entries;
        let entry = entries[index];
        let is_last = index + 1 == entries.len();
        is_last && entry.segment_duration == 0 && plays(self.is_long, entry)
            || ticks < ticks_of(entry.segment_duration, self.media_timescale)
    }

    /// Returns the edit that covers `ticks`, and when it begins, in the timescale of the movie.
    fn found_at(&self, ticks: u128) -> Option<(usize, u64)>
        ensures covers { IfSome result (λ r. Covers self.now r.0 ticks) }
        ensures begin { IfSome result (λ r. r.1 ≡ begin_of self.now r.0) }
        ensures none { IfNone result ((k : ℕ) → ¬ Covers self.now k ticks) }
    {
        let mut begin: u64 = 0;
        let mut index = 0;
        for entry in self.entries {
            if self.lasts(index, ticks - ticks_of(begin, self.media_timescale)) {
                return Some((index, begin));
            }
            begin += entry.segment_duration;
            index += 1;
        }
        None
    }

    /// Returns the edit that covers `ticks`, a time of the presentation. Edits are counted from 0.
    pub fn edit_at(&self, ticks: u128) -> Option<usize>
        ensures { EditAt self.now ticks result }
    {
        match self.found_at(ticks) {
            Some((index, _)) => Some(index),
            None => None,
        }
    }

    /// Returns the time of the media, in ticks, that is shown at `ticks`, a time of the presentation. It is `None` in
    /// an empty edit and after the last edit. In a dwell the time of the media does not change.
    pub fn media_time_at(&self, ticks: u128) -> Option<u128>
        ensures { MediaAt self.now ticks result }
    {
        let (index, begin) = self.found_at(ticks)?;
        let entries = self.entries;
        let entry = entries[index];
        if is_empty_edit(self.is_long, entry) {
            return None;
        }
        let start = ticks_of(entry.media_time, self.movie_timescale);
        if entry.media_rate == 0 {
            return Some(start);
        }
        let passed = ticks - ticks_of(begin, self.media_timescale);
        let end = u128::from(self.movie_timescale) * (1 << 64);
        if passed < end - start {
            Some(start + passed)
        } else {
            None
        }
    }

    /// Returns when edit `index`, which begins at `begin` in the timescale of the movie, presents the time `time` of
    /// the media.
    fn presentation_in(&self, index: usize, begin: u64, time: u64) -> Option<u128>
        requires within { index < length self.now.entries }
        requires begin { begin ≡ begin_of self.now index }
        ensures { PresentationIn self.now index time result }
    {
        let entries = self.entries;
        let entry = entries[index];
        if is_empty_edit(self.is_long, entry) || time < entry.media_time {
            return None;
        }
        let start = ticks_of(begin, self.media_timescale);
        if entry.media_rate == 0 {
            return if time == entry.media_time && entry.segment_duration > 0 {
                Some(start)
            } else {
                None
            };
        }
        let passed = ticks_of(time - entry.media_time, self.movie_timescale);
        if self.lasts(index, passed) {
            Some(start + passed)
        } else {
            None
        }
    }

    /// Returns the first presentation of `time`, a time of the media, by edit `first` or a later edit.
    /// `presentation_of` gives the first presentation of all. Called with the edit after it, this function gives the
    /// next one.
    pub fn next_presentation(&self, time: u64, first: usize) -> Option<Presentation>
        ensures { FirstPresentation self.now first time result }
    {
        let mut begin: u64 = 0;
        let mut index = 0;
        for entry in self.entries {
            if index >= first {
                if let Some(ticks) = self.presentation_in(index, begin, time) {
                    return Some(Presentation { edit: index, ticks });
                }
            }
            begin += entry.segment_duration;
            index += 1;
        }
        None
    }

    /// Returns the first presentation of `time`, a composition time in the timescale of the media.
    pub fn presentation_of(&self, time: u64) -> Option<Presentation>
        ensures { FirstPresentation self.now 0 time result }
    {
        self.next_presentation(time, 0)
    }
}

impl Sample {
    /// Returns the composition time of the sample, in the timescale of the media: its start time plus its rendering
    /// offset. Edit lists map this time. It is `None` below 0, where no edit shows it, and above 2^64 - 1.
    pub fn composition_time(&self) -> Option<u64>
        ensures { CompositionTime self.now result }
    {
        let time = i128::from(self.start_time) + i128::from(self.rendering_offset);
        if time < 0 || time >= 1 << 64 {
            None
        } else {
            Some(time as u64)
        }
    }
}
