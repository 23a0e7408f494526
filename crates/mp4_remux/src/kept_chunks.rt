//! The comparison of two tracks by their chunks.

ghost use Rattle.std.specs.Prelude.{◌≡◌, [], Some, IfOk, IfSome, IsTrue, slice_index};
ghost use Rattle.mp4_samples.specs.Samples.{offsets_of};
ghost use Rattle.mp4_remux.specs.Carried.{CarriesSamples};
ghost use Rattle.mp4_remux.specs.KeptChunks.{CarriesChunks, HaveSameTables};

use crate::pieces::Plan;
use crate::refusal::Stop;
use mp4_io::Failure;
use mp4_movie::{SampleBoxes, TrackFragment};
use mp4_samples::{ChunkExtent, ChunkOffsets, SampleTables};
use std::alloc::Global;

/// Returns whether all sample tables are the same, except for the offsets of the chunks.
fn have_same_tables(were: &SampleBoxes, are: &SampleBoxes) -> bool
    ensures { IsTrue result → HaveSameTables were.now are.now }
{
    are.stsz == were.stsz
        && are.stsc == were.stsc
        && are.stts == were.stts
        && are.ctts == were.ctts
        && are.stss == were.stss
}

/// Returns the offset of chunk `index`, counted from 0, or `None` if there are fewer chunks.
fn offset_at(offsets: ChunkOffsets<'_>, index: usize) -> Option<u64>
    ensures { IfSome result (λ o. o ≡ slice_index (offsets_of offsets.entry) index) }
{
    match offsets {
        ChunkOffsets::Stco(stco) => {
            let entries = stco.entries.as_slice();
            if index < entries.len() {
                Some(u64::from(entries[index]))
            } else {
                None
            }
        }
        ChunkOffsets::Co64(co64) => {
            let entries = co64.entries.as_slice();
            if index < entries.len() {
                Some(entries[index])
            } else {
                None
            }
        }
    }
}

/// Returns whether the bytes of each of `chunks` of the old file are those of the chunk of the new file that is at the
/// same index of `offsets`.
fn carries_chunks(plan: &Plan, chunks: &[ChunkExtent], offsets: ChunkOffsets<'_>) -> bool
    ensures { IsTrue result → CarriesChunks plan.now chunks.now (offsets_of offsets.entry) }
{
    for index in 0..chunks.len() {
        let chunk = chunks[index];
        match offset_at(offsets, index) {
            Some(offset) => {
                if !plan.carries(offset, chunk.size, chunk.offset) {
                    return false;
                }
            }
            None => return false,
        }
    }
    true
}

/// Returns whether both tracks have the same sample tables, except for the offsets of the chunks, and the bytes of each
/// chunk come from the same chunk of the old file.
fn keeps_tables(
    alloc: Global,
    were: &SampleBoxes,
    are: &SampleBoxes,
    old: &[TrackFragment],
    new: &[TrackFragment],
    plan: &Plan,
) -> Result<bool, Stop>
    requires old { old.now ≡ [] }
    requires new { new.now ≡ [] }
    ensures { IfOk result (λ is. IsTrue is
        → CarriesSamples plan.now (Some were.now) (Some are.now) old.now new.now) }
{
    if !have_same_tables(were, are) {
        return Ok(false);
    }
    let before = were.tables();
    let after = are.tables();
    let Ok(agreeing) = SampleTables::new(before) else {
        return Ok(false);
    };
    if SampleTables::new(after).is_err() {
        return Ok(false);
    }
    match agreeing.chunks(alloc) {
        Ok(chunks) => Ok(carries_chunks(plan, &chunks, after.chunk_offsets)),
        Err(_) => Err(Stop::Failed(Failure::Memory)),
    }
}

/// Returns whether a track without fragments keeps its samples, by a comparison of its tables and chunks. This takes a
/// step for each entry of a table, and not for each sample. Returns `false` if that does not decide it, as when samples
/// are in other chunks. Takes 16 bytes of memory for each chunk.
pub fn keeps_chunks(
    alloc: Global,
    were: &Option<SampleBoxes>,
    are: &Option<SampleBoxes>,
    old: &[TrackFragment],
    new: &[TrackFragment],
    plan: &Plan,
) -> Result<bool, Stop>
    ensures { IfOk result (λ is. IsTrue is → CarriesSamples plan.now were.now are.now old.now new.now) }
{
    if !old.is_empty() || !new.is_empty() {
        return Ok(false);
    }
    match were {
        Some(before) => match are {
            Some(after) => keeps_tables(alloc, before, after, old, new, plan),
            None => Ok(false),
        },
        None => Ok(false),
    }
}
