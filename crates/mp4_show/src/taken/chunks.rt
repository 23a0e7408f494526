//! The chunks of samples.

ghost use Rattle.std.specs.Prelude.{◌≡◌, Ok, option_map};
ghost use Rattle.json.specs.Value.{value_view};
ghost use Rattle.mp4_declared.specs.OwnBox.{no_context};
ghost use Rattle.mp4_show.specs.declared.taken.chunks.TheConstants.{STSC};
ghost use Rattle.mp4_shown.specs.Event.{Text as SeenText, seen_text};
ghost use Rattle.mp4_tables.specs.Chunks.{next_sample};
ghost use Rattle.mp4_show.specs.TakenTables.{agrees_with, chunk_members, chunk_taken, entries_of, make_stsc};
ghost use Rattle.mp4_show.specs.TakenTables.{first_taken, firsts_agree, numbered_runs, runs_taken};
ghost use Rattle.mp4_shown.specs.Object.{left};
ghost use Rattle.mp4_shown.specs.TakenShapes.{made_of};
ghost use Rattle.mp4_shown.specs.Taking.{TakesAs};

use crate::taken::take_box::TakeBox;
use json::Value;
use mp4_declared::{Context, Full, Last};
use mp4_frame::Entries;
use mp4_shown::taken::{
    NO_CONTEXT, Object, Reason, Result, TakeItem, TakeShape, end_object, object_in, refuse,
    take_each, take_list, take_number,
};
use mp4_shown::{FLAGS, ListAs, NumberName, VERSION, names_of, number};
use mp4_tables::{StscBox, StscEntry};
use std::alloc::Global;

/// The number of the first chunk of a run.
const FIRST_CHUNK: NumberName = number!("first_chunk");

/// The number of samples in each chunk of a run.
const SAMPLES_PER_CHUNK: NumberName = number!("samples_per_chunk");

/// The number of the description of the samples.
const DESCRIPTION_INDEX: NumberName = number!("sample_description_index");

/// The number of the first sample of a run, which follows from the runs before it.
const FIRST_SAMPLE: NumberName = number!("first_sample");

/// A run of chunks, and its first sample if that is present.
type ChunkRun = (StscEntry, Option<u32>);

/// Takes the first sample of a run out, if it is present.
fn take_first(alloc: Global, object: &mut Object<'_>) -> Result<Option<u32>>
    ensures { TakesAs (λ first. (first, left object.new)) result (first_taken (left object.old)) }
{
    if object.has(FIRST_SAMPLE.0) {
        Ok(Some(take_number(alloc, FIRST_SAMPLE, 32, object)? as u32))
    } else {
        Ok(None)
    }
}

/// Takes a run of chunks out.
fn take_chunks(alloc: Global, object: &mut Object<'_>) -> Result<ChunkRun>
    ensures { TakesAs (λ run. (run, left object.new)) result (chunk_members (left object.old)) }
{
    let first_chunk = take_number(alloc, FIRST_CHUNK, 32, object)? as u32;
    let samples_per_chunk = take_number(alloc, SAMPLES_PER_CHUNK, 32, object)? as u32;
    let sample_description_index = take_number(alloc, DESCRIPTION_INDEX, 32, object)? as u32;
    let given = take_first(alloc, object)?;
    let entry = StscEntry {
        first_chunk,
        samples_per_chunk,
        sample_description_index,
        first_sample: 0,
    };
    Ok((entry, given))
}

/// An entry that is a run of chunks.
#[derive(Drop)]
struct ChunkItem;

impl TakeItem<ChunkRun> for ChunkItem {
    ghost taken = { λ by j. chunk_taken j };

    fn take(&self, alloc: Global, value: Value<'_>) -> Result<ChunkRun> {
        let mut object = object_in(alloc, "", value)?;
        let run = take_chunks(alloc, &mut object)?;
        end_object(alloc, &object)?;
        Ok(run)
    }
}

/// Returns the first sample of a run that begins at chunk `first`. The run before it begins at chunk `chunk` with
/// sample `sample`, and has `samples` samples in each chunk. Returns `None` if `first` is below `chunk`, or if the
/// sample doesn't fit 32 bits.
fn next_sample(sample: u32, chunk: u32, samples: u32, first: u32) -> Option<u32>
    ensures { result ≡ next_sample sample chunk samples first }
{
    let skipped = first.checked_sub(chunk)?;
    let next = u64::from(sample) + u64::from(skipped) * u64::from(samples);
    if next < 1 << 32 {
        Some(next as u32)
    } else {
        None
    }
}

/// Returns whether the first sample `given` of a run, if it is present, is `sample`.
fn agrees_with(sample: u32, given: Option<u32>) -> bool
    ensures { result ≡ agrees_with sample given }
{
    match given {
        Some(given) => given == sample,
        None => true,
    }
}

/// Returns the entries of `runs` with their first samples, or `None` if one of these doesn't fit 32 bits, or if a first
/// chunk is below the one before it.
fn numbered_entries(alloc: Global, runs: &[ChunkRun]) -> Result<Option<Vec<StscEntry>>>
    ensures { TakesAs (λ entries. option_map (λ found. found.items) entries) result (Ok (entries_of runs.now)) }
{
    let mut entries = Vec::new(alloc);
    let mut sample = 1;
    let mut chunk = match runs.first() {
        Some(run) => run.0.first_chunk,
        None => 0,
    };
    let mut samples = 0;
    for run in runs {
        let mut entry = run.0;
        let Some(next) = next_sample(sample, chunk, samples, entry.first_chunk) else {
            return Ok(None);
        };
        entry.first_sample = next;
        entries.push(entry)?;
        sample = next;
        chunk = entry.first_chunk;
        samples = entry.samples_per_chunk;
    }
    Ok(Some(entries))
}

/// Refuses a first sample of `runs` that doesn't follow. The entries of the list `name` have those that follow.
fn check_firsts(alloc: Global, name: &str, entries: &[StscEntry], runs: &[ChunkRun]) -> Result<()>
    ensures { TakesAs (λ v. v) result (firsts_agree name.now 0 entries.now runs.now) }
{
    for index in 0..entries.len().min(runs.len()) {
        if !agrees_with(entries[index].first_sample, runs[index].1) {
            let error = refuse(alloc, FIRST_SAMPLE.0, Reason::Contradiction);
            return Err(error.in_entry(alloc, name, index));
        }
    }
    Ok(())
}

/// Returns the entries of `runs` of the list `name` with their first samples. Refuses a first sample that doesn't
/// follow from the runs, and runs whose first samples don't fit 32 bits.
fn numbered_runs(alloc: Global, name: &str, runs: &[ChunkRun]) -> Result<Entries<StscEntry>>
    ensures { TakesAs (λ entries. entries) result (numbered_runs name.now runs.now) }
{
    let Some(entries) = numbered_entries(alloc, runs)? else {
        return Err(refuse(alloc, name, Reason::OutOfRange));
    };
    check_firsts(alloc, name, entries.as_slice(), runs)?;
    Ok(entries.into())
}

/// The runs of chunks of a track.
struct ChunkRuns;

impl TakeShape for ChunkRuns {
    type Names = &'static str;

    type Taken = Entries<StscEntry>;

    ghost Known = { SeenText };

    ghost known = { seen_text };

    ghost taken = { λ name c ms. runs_taken name ms };

    fn take(
        alloc: Global,
        name: &&'static str,
        _context: Context,
        object: &mut Object<'_>,
    ) -> Result<Entries<StscEntry>> {
        let items = take_list(alloc, (*name, ListAs::Entries, *name), object)?;
        let runs: Vec<ChunkRun> = take_each(alloc, *name, &ChunkItem, items)?;
        numbered_runs(alloc, *name, runs.as_slice())
    }
}

/// The parts of the table of chunks.
type StscTaken = Full<256, Last<ChunkRuns>>;

/// The names of its fields.
const STSC: &<StscTaken as TakeShape>::Names = &names_of!(VERSION, FLAGS, "entries");

impl TakeBox for StscBox {
    ghost taken = { made_of make_stsc (⟦<StscTaken as TakeShape>⟧.taken STSC.now no_context) };

    fn take(alloc: Global, object: &mut Object<'_>) -> Result<StscBox> {
        let (version, (flags, rest)) = StscTaken::take(alloc, STSC, NO_CONTEXT, object)?;
        let (entries, ()) = rest;
        Ok(StscBox {
            version,
            flags,
            entries,
        })
    }
}
