//! An index over the tables of a track.

ghost use Rattle.std.specs.Prelude.{◌≡◌, ◌<◌, ◌≤◌, ◌↔◌, IfSome, IfNone, IsSome, IsTrue};
ghost use Rattle.mp4_samples.specs.Runs.{Covers, start_of};
ghost use Rattle.mp4_samples.specs.Samples.{AreConsistent, IsSample, sample_count};
ghost use Rattle.mp4_samples.specs.Syncs.{IsLastSync, HasNoSync, IsLastSyncAt, HasNoSyncAt};
ghost use Rattle.mp4_samples.specs.Index.{IsSampleAt};
ghost use Rattle.mp4_samples.specs.Marks.{AreMarks, bytes_of_marks};

use crate::lookup::{number_at, sample_of};
use crate::marks::Marks;
use crate::sample::Sample;
use crate::syncs::{last_sync, last_sync_at};
use crate::tables::Tables;
use std::marker::Model;

/// The tables of a track, which agree with one another, with the first sample of each of their runs. So a binary search
/// finds the run of a sample by its number or by its time. `SampleTables::index` makes an index, and says what memory
/// it takes. Contracts see an `Indexed`.
#[derive(Drop)]
pub struct SampleIndex<'a> {
    tables: Tables<'a>,
    marks: Marks,
}

impl<'a> Model for SampleIndex<'a> {
    ghost use Rattle.mp4_samples.specs.Index.{Indexed};
    ghost use Rattle.mp4_samples.specs.Marks.{IsIndex, bytes_of_marks};

    ghost Value = { Indexed };

    ghost view = { λ s. record { tables = s.tables; bytes = bytes_of_marks s.marks } };

    ghost invariant = { λ s. IsIndex s.tables s.marks };
}

impl<'a> SampleIndex<'a> {
    /// Makes the index of `tables` and their `marks`.
    pub(crate) fn new(tables: Tables<'a>, marks: Marks) -> SampleIndex<'a>
        requires consistent { AreConsistent tables }
        requires marks { AreMarks tables marks }
        ensures tables { result.tables ≡ tables.entry }
        ensures bytes { result.bytes ≡ bytes_of_marks marks }
    {
        SampleIndex { tables, marks }
    }

    /// Returns the number of samples.
    pub fn len(&self) -> u32
        ensures { result ≡ sample_count self.now.tables }
    {
        self.tables.stsz.sample_count
    }

    /// Returns true if the track has no samples.
    pub fn is_empty(&self) -> bool
        ensures { IsTrue result ↔ (sample_count self.now.tables ≡ 0) }
    {
        self.tables.stsz.sample_count == 0
    }

    /// Returns sample `number`, counted from 0, or `None` if the track has no such sample. Where sizes are
    /// listed, it adds at most 126 of them.
    pub fn sample(&self, number: u32) -> Option<Sample>
        ensures sample { IfSome result (IsSample self.now.tables number) }
        ensures counted { IsSome result ↔ (number < sample_count self.now.tables) }
    {
        if number >= self.tables.stsz.sample_count {
            return None;
        }
        Some(sample_of(&self.tables, self.marks.hints(), number))
    }

    /// Returns the number of the sample that covers `time`, in the timescale of the media, or `None` if the last sample
    /// has ended. A sample without a duration covers no time.
    pub fn number_at(&self, time: u64) -> Option<u32>
        ensures within { IfSome result (λ number. number < sample_count self.now.tables) }
        ensures covers { IfSome result (Covers self.now.tables.stts.now.entries time) }
        ensures none { IfNone result (start_of self.now.tables.stts.now.entries (sample_count self.now.tables) ≤ time) }
    {
        number_at(&self.tables, self.marks.hints(), time)
    }

    /// Returns the sample that covers `time`, or `None` if the last sample has ended.
    pub fn sample_at(&self, time: u64) -> Option<Sample>
        ensures some { IfSome result (IsSampleAt self.now.tables time) }
        ensures none { IfNone result (start_of self.now.tables.stts.now.entries (sample_count self.now.tables) ≤ time) }
    {
        match self.number_at(time) {
            Some(number) => Some(sample_of(&self.tables, self.marks.hints(), number)),
            None => None,
        }
    }

    /// Returns the number of the last sync sample among the samples up to `number`, or `None` if there is none. If
    /// `number` is `len` or above, these are all samples.
    pub fn last_sync(&self, number: u32) -> Option<u32>
        ensures some { IfSome result (IsLastSync self.now.tables number) }
        ensures none { IfNone result (HasNoSync self.now.tables number) }
    {
        last_sync(&self.tables, number)
    }

    /// Returns the number of the last sync sample that starts at `time` or before it, in the timescale of the media, or
    /// `None` if there is none. A decoder can begin at this sample.
    pub fn last_sync_at(&self, time: u64) -> Option<u32>
        ensures some { IfSome result (IsLastSyncAt self.now.tables time) }
        ensures none { IfNone result (HasNoSyncAt self.now.tables time) }
    {
        last_sync_at(&self.tables, time, self.number_at(time))
    }
}
