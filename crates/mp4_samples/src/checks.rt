//! The checks that the tables of a track agree.

ghost use Rattle.std.specs.Prelude.{◌≡◌, ◌≢◌, ◌+◌, ◌<◌, ◌≤◌, ◌^◌, ◌↔◌, true, length, slice_get, All, Contains, Some};
ghost use Rattle.std.specs.Prelude.{IfSome, IfErr, IsNone, IsOk};
ghost use Rattle.mp4_samples.specs.Runs.{durations, increases};
ghost use Rattle.mp4_samples.specs.Chunks.{chunks_increase};
ghost use Rattle.mp4_samples.specs.Sizes.{bytes_of};
ghost use Rattle.mp4_samples.specs.Samples.{AreConsistent, begins_at_one, offsets_of, sample_count};
ghost use Rattle.mp4_samples.specs.Disagreements.{Disagrees, IsNotAbove, first_chunks};

use crate::access::bytes_between;
use crate::chunk_place::samples_through;
use crate::disagreement::Disagreement;
use crate::run_place::{RunPlace, run_of};
use crate::state::{chunk_count, stss_entries};
use crate::tables::{ChunkOffsets, Tables};
use mp4_tables::{StscEntry, StszBox, SttsEntry};

/// Returns the first chunk of the first entry, or `None` if it is 1 or there is no entry.
fn late_first_chunk(runs: &[StscEntry]) -> Option<u32>
    ensures none { IsNone result ↔ (begins_at_one runs.now ≡ true) }
    ensures some { IfSome result (λ c. (slice_get (first_chunks runs.now) 0 ≡ Some c) × (c ≢ 1)) }
{
    match runs.first() {
        Some(entry) if entry.first_chunk != 1 => Some(entry.first_chunk),
        _ => None,
    }
}

/// Returns the index of the first entry whose first chunk is not above that of the entry before it.
fn chunks_out_of_order(runs: &[StscEntry]) -> Option<usize>
    ensures none { IsNone result ↔ (chunks_increase 0 runs.now ≡ true) }
    ensures some { IfSome result (IsNotAbove (first_chunks runs.now)) }
{
    let mut last = 0;
    let mut index = 0;
    for entry in runs {
        if entry.first_chunk <= last {
            return Some(index);
        }
        last = entry.first_chunk;
        index += 1;
    }
    None
}

/// Returns the index of the first number that is not above the number before it. The first number has to be above 0.
fn numbers_out_of_order(numbers: &[u32]) -> Option<usize>
    ensures none { IsNone result ↔ (increases 0 numbers.now ≡ true) }
    ensures some { IfSome result (IsNotAbove numbers.now) }
{
    let mut last = 0;
    let mut index = 0;
    for number in numbers {
        if *number <= last {
            return Some(index);
        }
        last = *number;
        index += 1;
    }
    None
}

/// Returns the number of samples that have a duration, or `None` if it is at least `count`.
fn too_few_durations(entries: &[SttsEntry], count: u32) -> Option<u32>
    ensures none { IsNone result ↔ (count ≤ length (durations entries.now)) }
    ensures some { IfSome result (λ timed. (timed ≡ length (durations entries.now)) × (timed < count)) }
{
    if count == 0 {
        return None;
    }
    let run = run_of(entries, count - 1, RunPlace { index: 0, first: 0 });
    if run.index < entries.len() {
        None
    } else {
        Some(run.first)
    }
}

/// Returns the number of bytes of all samples. It takes one step for each size that is listed.
fn total_bytes(stsz: &StszBox) -> u64
    requires { stsz.now.sample_size ≡ 0 → length stsz.now.sample_sizes ≡ stsz.now.sample_count }
    ensures { result ≡ bytes_of stsz.now 0 stsz.now.sample_count }
{
    bytes_between(stsz, 0, stsz.sample_count)
}

/// Returns the offset of the first chunk from which `total` bytes would end past 2^64 - 1.
fn offset_too_far(offsets: ChunkOffsets<'_>, total: u64) -> Option<u64>
    ensures none { IsNone result ↔ All (λ offset. offset + total < 2 ^ 64) (offsets_of offsets.entry) }
    ensures some { IfSome result (λ offset. Contains (offsets_of offsets.entry) offset × (2 ^ 64 ≤ offset + total)) }
{
    match offsets {
        ChunkOffsets::Stco(stco) => {
            for offset in stco.entries.as_slice() {
                if u64::from(*offset) > u64::MAX - total {
                    return Some(u64::from(*offset));
                }
            }
            None
        }
        ChunkOffsets::Co64(co64) => {
            for offset in co64.entries.as_slice() {
                if *offset > u64::MAX - total {
                    return Some(*offset);
                }
            }
            None
        }
    }
}

/// Checks that `tables` agree with one another. The error says how they disagree.
pub fn check(tables: &Tables<'_>) -> Result<(), Disagreement>
    ensures exact { IsOk result ↔ AreConsistent tables.now }
    ensures err { IfErr result (Disagrees tables.now) }
{
    let stsz = tables.stsz;
    let count = stsz.sample_count;
    let listed = stsz.sample_sizes.len();
    if stsz.sample_size == 0 && listed != count as usize {
        return Err(Disagreement::SampleSizes { count, listed });
    }
    let runs = tables.stsc.entries.as_slice();
    if let Some(first_chunk) = late_first_chunk(runs) {
        return Err(Disagreement::FirstChunk { first_chunk });
    }
    if let Some(index) = chunks_out_of_order(runs) {
        return Err(Disagreement::ChunkOrder { index });
    }
    let chunks = chunk_count(tables.chunk_offsets);
    if chunks > u32::MAX as usize {
        return Err(Disagreement::ChunkCount { count: chunks });
    }
    let held = samples_through(runs, chunks as u32);
    if held < u64::from(count) {
        return Err(Disagreement::Chunks {
            count,
            held: held as u32,
        });
    }
    if let Some(timed) = too_few_durations(tables.stts.entries.as_slice(), count) {
        return Err(Disagreement::Durations { count, timed });
    }
    if let Some(index) = numbers_out_of_order(stss_entries(tables)) {
        return Err(Disagreement::SyncSamples { index });
    }
    let bytes = total_bytes(stsz);
    if let Some(offset) = offset_too_far(tables.chunk_offsets, bytes) {
        return Err(Disagreement::Offset { offset, bytes });
    }
    Ok(())
}
