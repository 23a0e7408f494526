//! A sample of a track, found by its number or its time.

ghost use Rattle.std.specs.Prelude.{ℕ, ◌≡◌, ◌-◌, ◌<◌, ◌≤◌, true, length, slice_index, IfSome, IfNone};
ghost use Rattle.mp4_samples.specs.Runs.{start_of, Covers};
ghost use Rattle.mp4_samples.specs.Chunks.{chunks_increase};
ghost use Rattle.mp4_samples.specs.Samples.{AreConsistent, IsSample, sample_count};
ghost use Rattle.mp4_samples.specs.Places.{GoesBy, IsAtRun, IsAtTime};
ghost use Rattle.mp4_samples.specs.Marks.{AreBefores, AreFirsts, AreFirstsOfDurations, AreTimes, AreHints};

use crate::chunk_place::{ChunkPlace, before_chunks};
use crate::run_place::{RunPlace, TimePlace, time_of};
use crate::runs::Run;
use crate::sample::Sample;
use crate::search::{count_at_most, long_count_at_most};
use crate::state::{ChunkState, State, chunk_count, ctts_entries, next_state, stss_entries};
use crate::tables::Tables;
use mp4_tables::{StscEntry, SttsEntry};

/// The marks of an index, from which the walks over the tables begin. Without an index there are none, and each walk
/// begins at the front of its table.
#[derive(Clone, Copy)]
pub struct Hints<'a> {
    /// The number of samples before the first chunk of each entry of `stsc`.
    pub befores: &'a [u64],
    /// The first sample of each entry of `stts`.
    pub firsts: &'a [u32],
    /// The start time of this sample.
    pub times: &'a [u64],
    /// The first sample of each entry of `ctts`.
    pub shifts: &'a [u32],
    /// The number of bytes before each block of sizes.
    pub bytes: &'a [u64],
}

/// Returns no marks of `tables`.
pub fn no_hints<'a>(tables: &Tables<'a>) -> Hints<'a>
    ensures { AreHints tables.now result }
{
    Hints {
        befores: &[],
        firsts: &[],
        times: &[],
        shifts: &[],
        bytes: &[],
    }
}

/// Returns the place of the last entry with a mark that begins at sample `number` or before it, or the front.
fn chunk_mark(runs: &[StscEntry], befores: &[u64], count: u32, number: u32) -> ChunkPlace
    requires increase { chunks_increase 0 runs.now ≡ true }
    requires marks { AreBefores runs.now count befores.now }
    ensures at { GoesBy runs.now result }
    ensures from { result.before ≤ number }
    ensures within { result.chunk ≤ count }
{
    let marked = long_count_at_most(befores, u64::from(number));
    if marked == 0 {
        return before_chunks();
    }
    let entry = runs[marked - 1];
    ChunkPlace {
        chunk: entry.first_chunk,
        entry,
        run: marked,
        before: befores[marked - 1],
    }
}

/// Returns the place of the last of the first `marked` runs with a mark, or the front.
fn run_mark<R: Run>(entries: &[R], firsts: &[u32], marked: usize) -> RunPlace
    requires firsts { AreFirsts R.count entries.now firsts.now }
    requires within { marked ≤ length firsts.now }
    ensures at { (k : ℕ) → (0 < marked → slice_index firsts.now (marked - 1) ≤ k)
        → IsAtRun R.count entries.now k result }
    ensures index { result.index ≡ marked - 1 }
{
    if marked == 0 {
        return RunPlace { index: 0, first: 0 };
    }
    RunPlace {
        index: marked - 1,
        first: firsts[marked - 1],
    }
}

/// Returns the place of the last of the first `marked` runs with a mark, or the front.
fn time_mark(entries: &[SttsEntry], firsts: &[u32], times: &[u64], marked: usize) -> TimePlace
    requires firsts { AreFirstsOfDurations entries.now firsts.now }
    requires times { AreTimes entries.now firsts.now times.now }
    requires within { marked ≤ length firsts.now }
    ensures at { (k : ℕ) → (0 < marked → slice_index firsts.now (marked - 1) ≤ k) → IsAtTime entries.now k result }
    ensures time { (t : ℕ) → (0 < marked → slice_index times.now (marked - 1) ≤ t) → result.time ≤ t }
{
    let run = run_mark(entries, firsts, marked);
    if marked == 0 {
        return TimePlace { run, time: 0 };
    }
    TimePlace {
        run,
        time: times[marked - 1],
    }
}

/// Returns sample `number`.
pub fn sample_of(tables: &Tables<'_>, hints: Hints<'_>, number: u32) -> Sample
    requires consistent { AreConsistent tables.now }
    requires hints { AreHints tables.now hints }
    requires counted { number < tables.now.stsz.now.sample_count }
    ensures { IsSample tables.now number result }
{
    let count = chunk_count(tables.chunk_offsets) as u32;
    let started = count_at_most(hints.firsts, number);
    let state = State {
        number,
        chunks: ChunkState {
            place: chunk_mark(tables.stsc.entries.as_slice(), hints.befores, count, number),
            chunk: 0,
            end: 0,
            position: 0,
        },
        times: time_mark(
            tables.stts.entries.as_slice(),
            hints.firsts,
            hints.times,
            started,
        ),
        rendering: run_mark(
            ctts_entries(tables),
            hints.shifts,
            count_at_most(hints.shifts, number),
        ),
        sync: count_at_most(stss_entries(tables), number),
    };
    let (sample, _) = next_state(tables, hints.bytes, state);
    sample
}

/// Returns the number of the sample that covers `time`, or `None` if the first `count` samples have ended then. The
/// walk begins at `place`.
fn number_from(entries: &[SttsEntry], count: u32, time: u64, place: TimePlace) -> Option<u32>
    requires at { IsAtTime entries.now count place }
    requires started { place.time ≤ time }
    ensures within { IfSome result (λ number. number < count) }
    ensures covers { IfSome result (Covers entries.now time) }
    ensures none { IfNone result (start_of entries.now count ≤ time) }
{
    let mut index = place.run.index;
    let mut first = place.run.first;
    let mut left = time - place.time;
    while index < entries.len() {
        let entry = entries[index];
        let samples = entry.sample_count.min(count - first);
        let each = u64::from(entry.sample_delta);
        let whole = time_of(samples, entry.sample_delta);
        if left < whole {
            return Some(first + (left / each) as u32);
        }
        left -= whole;
        first += samples;
        index += 1;
    }
    None
}

/// Returns the number of the sample that covers `time`, or `None` if the last sample has ended.
pub fn number_at(tables: &Tables<'_>, hints: Hints<'_>, time: u64) -> Option<u32>
    requires { AreHints tables.now hints }
    ensures within { IfSome result (λ number. number < sample_count tables.now) }
    ensures covers { IfSome result (Covers tables.now.stts.now.entries time) }
    ensures none { IfNone result (start_of tables.now.stts.now.entries (sample_count tables.now) ≤ time) }
{
    let entries = tables.stts.entries.as_slice();
    let started = long_count_at_most(hints.times, time);
    let place = time_mark(entries, hints.firsts, hints.times, started);
    number_from(entries, tables.stsz.sample_count, time, place)
}
