//! The tables of a track, which agree with one another.

ghost use Rattle.std.specs.Prelude.{◌≡◌, ◌<◌, ◌≤◌, ◌↔◌, IfOk, IsOk, IfErr, IfSome, IfNone, IsSome, IsTrue};
ghost use Rattle.mp4_samples.specs.Runs.{Covers, start_of};
ghost use Rattle.mp4_samples.specs.Samples.{AreConsistent, IsSample, sample_count};
ghost use Rattle.mp4_samples.specs.ChunkExtents.{chunks_of};
ghost use Rattle.mp4_samples.specs.Disagreements.{Disagrees};
ghost use Rattle.mp4_samples.specs.Syncs.{IsLastSync, HasNoSync, IsLastSyncAt, HasNoSyncAt};
ghost use Rattle.mp4_frame.specs.declared.error.Error.TheVariants.{OutOfMemory};
ghost use Rattle.mp4_samples.specs.Index.{most_bytes, IsSampleAt};
ghost use Rattle.mp4_samples.specs.Gives.{begins};

use crate::checks::check;
use crate::chunks::{ChunkExtent, chunks_of};
use crate::disagreement::Disagreement;
use crate::lookup::{no_hints, number_at, sample_of};
use crate::marks::marks_of;
use crate::sample::Sample;
use crate::sample_index::SampleIndex;
use crate::samples::Samples;
use crate::syncs::{last_sync, last_sync_at};
use crate::tables::Tables;
use std::alloc::Global;
use std::marker::Model;

/// The tables of a track, which agree with one another. Contracts see a `Tables`.
#[derive(Drop)]
pub struct SampleTables<'a> {
    tables: Tables<'a>,
}

impl<'a> Model for SampleTables<'a> {
    ghost use Rattle.mp4_samples.specs.declared.tables.Tables.{Tables};
    ghost use Rattle.mp4_samples.specs.Samples.{AreConsistent};

    ghost Value = { Tables };

    ghost view = { λ s. s.tables };

    ghost invariant = { λ s. AreConsistent s.tables };
}

impl<'a> SampleTables<'a> {
    /// Checks that `tables` agree with one another. It takes no memory and one step for each entry of a table, however
    /// many samples the entries count. The error says how the tables disagree.
    pub fn new(tables: Tables<'a>) -> Result<SampleTables<'a>, Disagreement>
        ensures ok { IfOk result (λ t. t ≡ tables.entry) }
        ensures exact { IsOk result ↔ AreConsistent tables.entry }
        ensures err { IfErr result (Disagrees tables.entry) }
    {
        check(&tables)?;
        Ok(SampleTables { tables })
    }

    /// Returns the number of samples.
    pub fn len(&self) -> u32
        ensures { result ≡ sample_count self.now }
    {
        self.tables.stsz.sample_count
    }

    /// Returns true if the track has no samples.
    pub fn is_empty(&self) -> bool
        ensures { IsTrue result ↔ (sample_count self.now ≡ 0) }
    {
        self.tables.stsz.sample_count == 0
    }

    /// Returns sample `number`, counted from 0, or `None` if the track has no such sample. It takes one step
    /// for each run, one each time that the entries of `stss` can be halved, and, where sizes are listed, one for each
    /// earlier sample of the chunk.
    pub fn sample(&self, number: u32) -> Option<Sample>
        ensures sample { IfSome result (IsSample self.now number) }
        ensures counted { IsSome result ↔ (number < sample_count self.now) }
    {
        if number >= self.tables.stsz.sample_count {
            return None;
        }
        Some(sample_of(&self.tables, no_hints(&self.tables), number))
    }

    /// Returns the number of the sample that covers `time`, in the timescale of the media, or `None` if the last sample
    /// has ended. A sample without a duration covers no time. It takes one step for each run.
    pub fn number_at(&self, time: u64) -> Option<u32>
        ensures within { IfSome result (λ number. number < sample_count self.now) }
        ensures covers { IfSome result (Covers self.now.stts.now.entries time) }
        ensures none { IfNone result (start_of self.now.stts.now.entries (sample_count self.now) ≤ time) }
    {
        number_at(&self.tables, no_hints(&self.tables), time)
    }

    /// Returns the sample that covers `time`, or `None` if the last sample has ended. It takes the steps of `number_at`
    /// and of `sample`.
    pub fn sample_at(&self, time: u64) -> Option<Sample>
        ensures some { IfSome result (IsSampleAt self.now time) }
        ensures none { IfNone result (start_of self.now.stts.now.entries (sample_count self.now) ≤ time) }
    {
        match self.number_at(time) {
            Some(number) => Some(sample_of(&self.tables, no_hints(&self.tables), number)),
            None => None,
        }
    }

    /// Returns the number of the last sync sample among the samples up to `number`, or `None` if there is none. If
    /// `number` is `len` or above, these are all samples. It takes one step each time that the entries of `stss` can be
    /// halved.
    pub fn last_sync(&self, number: u32) -> Option<u32>
        ensures some { IfSome result (IsLastSync self.now number) }
        ensures none { IfNone result (HasNoSync self.now number) }
    {
        last_sync(&self.tables, number)
    }

    /// Returns the number of the last sync sample that starts at `time` or before it, in the timescale of the media, or
    /// `None` if there is none. A decoder can begin at this sample. It takes one step for each run.
    pub fn last_sync_at(&self, time: u64) -> Option<u32>
        ensures some { IfSome result (IsLastSyncAt self.now time) }
        ensures none { IfNone result (HasNoSyncAt self.now time) }
    {
        last_sync_at(&self.tables, time, self.number_at(time))
    }

    /// Makes an index over the tables, which finds a sample without a walk over the runs. It takes one step for each
    /// entry of a table and for each size that is listed. The index takes 8 bytes for each entry of `stsc`, 12 for each
    /// of `stts`, 4 for each of `ctts`, and 8 for every 64 sizes. The only error is out of memory.
    pub fn index(&self, alloc: Global) -> mp4_frame::Result<SampleIndex<'a>>
        ensures tables { IfOk result (λ x. x.tables ≡ self.now) }
        ensures memory { IfOk result (λ x. x.bytes ≤ most_bytes self.now) }
        ensures err { IfErr result (λ e. e ≡ OutOfMemory) }
    {
        let marks = marks_of(alloc, &self.tables)?;
        Ok(SampleIndex::new(self.tables, marks))
    }

    /// Returns the chunks in the order of their numbers. It takes one step for each chunk and for each size that is
    /// listed, and 16 bytes of memory for each chunk. The only error is out of memory.
    pub fn chunks(&self, alloc: Global) -> mp4_frame::Result<Vec<ChunkExtent>>
        ensures items { IfOk result (λ chunks. chunks.items ≡ chunks_of self.now) }
        ensures err { IfErr result (λ e. e ≡ OutOfMemory) }
    {
        chunks_of(alloc, &self.tables)
    }

    /// Returns an iterator over the samples, from the first to the last.
    pub fn samples(&self) -> Samples<'a>
        ensures { result ≡ begins self.now }
    {
        Samples::new(self.tables)
    }
}
