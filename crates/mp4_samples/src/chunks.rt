//! The chunks of a track: the place of each, and its bytes.

ghost use Rattle.std.specs.Prelude.{◌≡◌, ◌+◌, ◌-◌, ◌<◌, ◌≤◌, min, true, drop, IfOk, IfErr};
ghost use Rattle.mp4_frame.specs.declared.error.Error.TheVariants.{OutOfMemory};
ghost use Rattle.mp4_samples.specs.ChunkExtents.{chunks_of};
ghost use Rattle.mp4_samples.specs.Chunks.{chunks_increase, entry_of};
ghost use Rattle.mp4_samples.specs.Places.{GoesBy};
ghost use Rattle.mp4_samples.specs.Samples.{AreConsistent};

use crate::access::bytes_between;
use crate::chunk_place::{ChunkPlace, before_chunks, next_entry};
use crate::state::{chunk_count, chunk_offset};
use crate::tables::Tables;
use mp4_frame::Result;
use mp4_tables::StscEntry;
use std::alloc::Global;

/// The bytes of a chunk.
#[derive(Clone, Copy, Debug, PartialEq, Eq)]
pub struct ChunkExtent {
    /// The offset of the first byte.
    pub offset: u64,
    /// The number of bytes of all samples in the chunk.
    pub size: u64,
}

/// Returns the place of the entry that describes chunk `number`. `place` describes the chunk before it.
fn place_at(runs: &[StscEntry], place: ChunkPlace, number: u32) -> ChunkPlace
    requires at { GoesBy runs.now place }
    requires before { place.chunk < number }
    requires later { chunks_increase (number - 1) (drop place.run runs.now) ≡ true }
    ensures at { GoesBy runs.now result }
    ensures begun { result.chunk ≤ number }
    ensures later { chunks_increase number (drop result.run runs.now) ≡ true }
    ensures entry { entry_of runs.now number ≡ result.entry }
{
    if place.run < runs.len() && runs[place.run].first_chunk <= number {
        next_entry(runs, place)
    } else {
        place
    }
}

/// Returns the number of samples through a chunk with room for `each` samples. `first` samples are before the chunk, of
/// `count` in all.
fn samples_through_next(first: u32, each: u32, count: u32) -> u32
    requires { first ≤ count }
    ensures { result ≡ min (first + each) count }
{
    (u64::from(first) + u64::from(each)).min(u64::from(count)) as u32
}

/// Returns the chunks of `tables`. It takes one step for each chunk, and for each size that is listed. The only error
/// is out of memory.
pub fn chunks_of(alloc: Global, tables: &Tables<'_>) -> Result<Vec<ChunkExtent>>
    requires { AreConsistent tables.now }
    ensures items { IfOk result (λ chunks. chunks.items ≡ chunks_of tables.now) }
    ensures err { IfErr result (λ e. e ≡ OutOfMemory) }
{
    let runs = tables.stsc.entries.as_slice();
    let count = chunk_count(tables.chunk_offsets) as u32;
    let mut chunks = Vec::with_capacity(alloc, count as usize)?;
    let mut place = before_chunks();
    let mut first = 0;
    'chunks: for index in 0..count {
        place = place_at(runs, place, index + 1);
        let end = samples_through_next(
            first,
            place.entry.samples_per_chunk,
            tables.stsz.sample_count,
        );
        chunks.push_reserved(ChunkExtent {
            offset: chunk_offset(tables.chunk_offsets, index as usize),
            size: bytes_between(tables.stsz, first, end),
        });
        first = end;
    }
    Ok(chunks)
}
