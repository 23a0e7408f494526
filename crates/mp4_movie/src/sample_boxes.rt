//! The boxes of a sample table.

ghost use Rattle.std.specs.Prelude.{◌≡◌, ◌*◌};
ghost use Rattle.mp4_movie.specs.Ends.{end_of};
ghost use Rattle.mp4_movie.specs.Tables.{AreTablesOf};

use mp4_samples::{ChunkOffsets, Tables};
use mp4_tables::{Co64Box, CttsBox, StcoBox, StscBox, StssBox, StszBox, SttsBox, SttsEntry};

/// The offsets of the chunks of a track (ISO/IEC 14496-12, 8.7.5).
#[derive(Debug, Drop)]
pub enum ChunkBox {
    /// Offsets of 32 bits.
    Stco(StcoBox),
    /// Offsets of 64 bits.
    Co64(Co64Box),
}

/// The boxes of an `stbl` that say where the samples of a track are, and when they play.
#[derive(Debug, Drop)]
pub struct SampleBoxes {
    /// The sizes of the samples: the `stsz`, or the sizes of the `stz2` as an `stsz` lists them.
    pub stsz: StszBox,
    /// The number of samples in each chunk.
    pub stsc: StscBox,
    /// The offsets of the chunks.
    pub chunk_offsets: ChunkBox,
    /// The durations of the samples.
    pub stts: SttsBox,
    /// The composition offsets, if the track has any.
    pub ctts: Option<CttsBox>,
    /// The sync samples, unless all samples are sync samples.
    pub stss: Option<StssBox>,
}

/// Returns the total duration of the samples that `entry` counts.
fn duration_of(entry: SttsEntry) -> u64
    ensures { result ≡ entry.sample_count * entry.sample_delta }
{
    u64::from(entry.sample_count) * u64::from(entry.sample_delta)
}

/// Returns the time at which the samples of these entries of an `stts` end, or the largest time if they end later.
pub fn end_of(entries: &[SttsEntry]) -> u64
    ensures { result ≡ end_of entries.now }
{
    let mut time: u64 = 0;
    'entries: for index in 0..entries.len() {
        time = time.saturating_add(duration_of(entries[index]));
    }
    time
}

impl SampleBoxes {
    /// Returns the time at which the last sample ends, in ticks of the timescale of the media, or the largest time if
    /// it ends later.
    pub fn time_end(&self) -> u64
        ensures { result ≡ end_of self.now.stts.entries }
    {
        end_of(&self.stts.entries)
    }

    /// Returns the tables as `mp4_samples` takes them.
    pub fn tables(&self) -> Tables<'_>
        ensures { AreTablesOf self.now result }
    {
        Tables {
            stsz: &self.stsz,
            stsc: &self.stsc,
            chunk_offsets: match &self.chunk_offsets {
                ChunkBox::Stco(stco) => ChunkOffsets::Stco(stco),
                ChunkBox::Co64(co64) => ChunkOffsets::Co64(co64),
            },
            stts: &self.stts,
            ctts: self.ctts.as_ref(),
            stss: self.stss.as_ref(),
        }
    }
}
