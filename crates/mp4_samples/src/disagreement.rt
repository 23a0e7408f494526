//! The ways in which the tables of a track can disagree.

use thiserror::Error;

/// A disagreement between the tables of a track. The checks run in the order of these kinds, and the first one that
/// fails is reported.
#[derive(Clone, Copy, Debug, PartialEq, Eq, Error)]
pub enum Disagreement {
    /// `stsz` has no common size, and the number of sizes that it lists differs from its sample count.
    #[error("stsz counts {count} samples and lists {listed} sizes")]
    SampleSizes { count: u32, listed: usize },
    /// The first entry of `stsc` does not begin at chunk 1.
    #[error("the first entry of stsc begins at chunk {first_chunk}")]
    FirstChunk { first_chunk: u32 },
    /// Entry `index` of `stsc`, counted from 0, begins no later than the entry before it.
    #[error("entry {index} of stsc begins no later than the one before it")]
    ChunkOrder { index: usize },
    /// There are 2^32 chunks or more, which `stsc` cannot count.
    #[error("there are {count} chunks")]
    ChunkCount { count: usize },
    /// The chunks hold fewer samples than `stsz` counts.
    #[error("the chunks hold {held} of {count} samples")]
    Chunks { count: u32, held: u32 },
    /// `stts` has a duration for fewer samples than `stsz` counts.
    #[error("stts has a duration for {timed} of {count} samples")]
    Durations { count: u32, timed: u32 },
    /// Entry `index` of `stss`, counted from 0, is not above the entry before it, or the first entry is 0.
    #[error("entry {index} of stss is not above the one before it")]
    SyncSamples { index: usize },
    /// The bytes of all samples would end past 2^64 - 1 if they began at `offset`, where a chunk begins.
    #[error("a chunk begins at {offset}, and the samples have {bytes} bytes")]
    Offset { offset: u64, bytes: u64 },
}
