//! The marks that an index keeps of each table, for binary search.

ghost use Rattle.std.specs.Prelude.{◌≡◌, ◌+◌, ◌-◌, ◌*◌, ◌/◌, ◌<◌, ◌≤◌, ◌^◌, ◌==◌, true, length, IfOk, IfErr};
ghost use Rattle.std.specs.Prelude.{if◌then◌else◌};
ghost use Rattle.std.specs.Vec.{vec_capacity};
ghost use Rattle.mp4_frame.specs.declared.error.Error.TheVariants.{OutOfMemory};
ghost use Rattle.mp4_samples.specs.Chunks.{chunks_increase};
ghost use Rattle.mp4_samples.specs.Sizes.{bytes_of};
ghost use Rattle.mp4_samples.specs.Samples.{AreConsistent};
ghost use Rattle.mp4_samples.specs.Index.{most_bytes};
ghost use Rattle.mp4_samples.specs.Marks.{AreBefores, AreAllBefores, AreFirsts, AreFirstsOfDurations, AreBelow};
ghost use Rattle.mp4_samples.specs.Marks.{AreAllFirsts, AreTimes, AreBytes, AreAllBytes, AreMarks, AreHints};
ghost use Rattle.mp4_samples.specs.Marks.{bytes_of_marks};
ghost use Rattle.mp4_samples.specs.declared.tables.Tables.{Tables};

use crate::access::{BLOCK, bytes_between};
use crate::chunk_place::{before_chunks, next_entry};
use crate::lookup::Hints;
use crate::run_place::time_of;
use crate::runs::Run;
use crate::state::{chunk_count, ctts_entries};
use crate::tables::Tables;
use mp4_frame::Result;
use mp4_tables::{StscEntry, StszBox, SttsEntry};
use std::alloc::Global;

/// The first sample of each run of a table, and the number of bytes before each block of sizes.
#[derive(Drop)]
pub struct Marks {
    /// The number of samples before the first chunk of each entry of `stsc`.
    pub befores: Vec<u64>,
    /// The first sample of each entry of `stts`.
    pub firsts: Vec<u32>,
    /// The start time of this sample.
    pub times: Vec<u64>,
    /// The first sample of each entry of `ctts`.
    pub shifts: Vec<u32>,
    /// The number of bytes before each block of sizes, where sizes are listed.
    pub bytes: Vec<u64>,
}

impl Marks {
    /// Returns the marks as slices.
    pub fn hints(&self) -> Hints<'_>
        ensures { (t : Tables) → AreMarks t self.now → AreHints t result }
    {
        Hints {
            befores: self.befores.as_slice(),
            firsts: self.firsts.as_slice(),
            times: self.times.as_slice(),
            shifts: self.shifts.as_slice(),
            bytes: self.bytes.as_slice(),
        }
    }
}

/// Returns the number of samples before the first chunk of each entry of `runs`, for the entries that begin in the
/// first `count` chunks. The only error is out of memory.
fn befores_of(alloc: Global, runs: &[StscEntry], count: u32) -> Result<Vec<u64>>
    requires { chunks_increase 0 runs.now ≡ true }
    ensures marks { IfOk result (λ v. AreBefores runs.now count v.items) }
    ensures all { IfOk result (λ v. AreAllBefores runs.now count v.items) }
    ensures memory { IfOk result (λ v. vec_capacity v ≡ length runs.now) }
    ensures err { IfErr result (λ e. e ≡ OutOfMemory) }
{
    let mut befores = Vec::with_capacity(alloc, runs.len())?;
    let mut place = before_chunks();
    while place.run < runs.len() && runs[place.run].first_chunk <= count {
        place = next_entry(runs, place);
        befores.push_reserved(place.before);
    }
    Ok(befores)
}

/// Returns the first sample of each run of `entries` that begins before sample `total`. The only error is out of
/// memory.
fn firsts_of<R: Run>(alloc: Global, entries: &[R], total: u32) -> Result<Vec<u32>>
    ensures marks { IfOk result (λ v. AreFirsts R.count entries.now v.items) }
    ensures below { IfOk result (λ v. AreBelow total v.items) }
    ensures all { IfOk result (λ v. AreAllFirsts R.count entries.now total v.items) }
    ensures memory { IfOk result (λ v. vec_capacity v ≡ length entries.now) }
    ensures err { IfErr result (λ e. e ≡ OutOfMemory) }
{
    let mut firsts = Vec::with_capacity(alloc, entries.len())?;
    let mut first = 0;
    let mut run = 0;
    while run < entries.len() && first < total {
        let samples = entries[run].count().min(total - first);
        firsts.push_reserved(first);
        first += samples;
        run += 1;
    }
    Ok(firsts)
}

/// Returns the start time of each sample of `firsts`. The only error is out of memory.
fn times_of(alloc: Global, entries: &[SttsEntry], firsts: &[u32], count: u32) -> Result<Vec<u64>>
    requires firsts { AreFirstsOfDurations entries.now firsts.now }
    requires below { AreBelow count firsts.now }
    ensures marks { IfOk result (λ v. AreTimes entries.now firsts.now v.items) }
    ensures memory { IfOk result (λ v. vec_capacity v ≡ length firsts.now) }
    ensures err { IfErr result (λ e. e ≡ OutOfMemory) }
{
    let mut times = Vec::with_capacity(alloc, firsts.len())?;
    let mut time = 0;
    for index in 0..firsts.len() {
        times.push_reserved(time);
        let entry = entries[index];
        let samples = entry.sample_count.min(count - firsts[index]);
        time += time_of(samples, entry.sample_delta);
    }
    Ok(times)
}

/// Returns the number of bytes before each block of sizes. It takes one step for each size that is listed. The only
/// error is out of memory.
fn blocks_of(alloc: Global, stsz: &StszBox) -> Result<Vec<u64>>
    requires listed { stsz.now.sample_size ≡ 0 → length stsz.now.sample_sizes ≡ stsz.now.sample_count }
    requires fits { bytes_of stsz.now 0 stsz.now.sample_count < 2 ^ 64 }
    ensures marks { IfOk result (λ v. AreBytes stsz.now v.items) }
    ensures all { IfOk result (λ v. AreAllBytes stsz.now v.items) }
    ensures memory { IfOk result
        (λ v. vec_capacity v ≡ (if stsz.now.sample_size == 0 then stsz.now.sample_count / 64 + 1 else 0)) }
    ensures err { IfErr result (λ e. e ≡ OutOfMemory) }
{
    if stsz.sample_size > 0 {
        return Ok(Vec::new(alloc));
    }
    let blocks = stsz.sample_count / BLOCK;
    let mut bytes = Vec::with_capacity(alloc, blocks as usize + 1)?;
    let mut total = 0;
    for block in 0..blocks {
        bytes.push_reserved(total);
        total += bytes_between(stsz, block * BLOCK, (block + 1) * BLOCK);
    }
    bytes.push_reserved(total);
    Ok(bytes)
}

/// Returns the marks of `tables`. The only error is out of memory.
pub fn marks_of(alloc: Global, tables: &Tables<'_>) -> Result<Marks>
    requires { AreConsistent tables.now }
    ensures marks { IfOk result (AreMarks tables.now) }
    ensures memory { IfOk result (λ m. bytes_of_marks m ≤ most_bytes tables.now) }
    ensures err { IfErr result (λ e. e ≡ OutOfMemory) }
{
    let count = tables.stsz.sample_count;
    let chunks = chunk_count(tables.chunk_offsets) as u32;
    let entries = tables.stts.entries.as_slice();
    let befores = befores_of(alloc, tables.stsc.entries.as_slice(), chunks)?;
    let firsts = firsts_of(alloc, entries, count)?;
    let times = times_of(alloc, entries, firsts.as_slice(), count)?;
    let shifts = firsts_of(alloc, ctts_entries(tables), count)?;
    let bytes = blocks_of(alloc, tables.stsz)?;
    Ok(Marks {
        befores,
        firsts,
        times,
        shifts,
        bytes,
    })
}
