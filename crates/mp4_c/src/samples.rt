//! Lists the samples of a track.

ghost use Rattle.std.specs.Prelude.{◌≡◌, ◌≤◌, length, IfSome, Some};
ghost use Rattle.mp4_samples.specs.Samples.{sample_count};
ghost use Rattle.mp4_c.specs.Samples.{ArePut, CopiesOf, CopiesSamples, CopiesTables, row_of, status_of_disagreement};

use crate::track::{find_track, status_of_box_error};
use mp4_c_boxes::status::{
    CHUNK_COUNT, CHUNK_ORDER, CHUNKS, DURATIONS, FIRST_CHUNK, NO_ROOM, OFFSET, OK, OUT_OF_MEMORY,
    SAMPLE_SIZES, SYNC_SAMPLES,
};
use mp4_movie::{Movie, MovieError, SampleBoxes};
use mp4_samples::{Disagreement, Sample, SampleTables};
use std::alloc::Global;

/// A sample of a track. Times are in the timescale of the media.
#[repr(C)]
#[derive(Clone, Copy)]
pub struct SampleRow {
    /// The position of the first byte, in bytes from the front of the file.
    pub offset: u64,
    /// The time at which the sample is decoded.
    pub decode_time: u64,
    /// The composition time minus the decode time; 0 if the track has no composition offsets.
    pub rendering_offset: i64,
    /// The number of bytes.
    pub size: u32,
    /// The duration.
    pub duration: u32,
    /// The index of the sample entry, counted from 1.
    pub description: u32,
    /// The number of the chunk, counted from 1.
    pub chunk: u32,
    /// 1 for a sync sample, else 0.
    pub is_sync: u8,
}

/// Returns the row of `sample`.
pub fn row_of(sample: Sample) -> SampleRow
    ensures { result ≡ row_of sample }
{
    SampleRow {
        offset: sample.offset,
        decode_time: sample.start_time,
        rendering_offset: sample.rendering_offset,
        size: sample.size,
        duration: sample.duration,
        description: sample.sample_description_index,
        chunk: sample.chunk,
        is_sync: u8::from(sample.is_sync),
    }
}

/// Returns the status of `disagreement`: one for each kind.
fn status_of_disagreement(disagreement: Disagreement) -> u32
    ensures { result ≡ status_of_disagreement disagreement }
{
    match disagreement {
        Disagreement::SampleSizes { .. } => SAMPLE_SIZES,
        Disagreement::FirstChunk { .. } => FIRST_CHUNK,
        Disagreement::ChunkOrder { .. } => CHUNK_ORDER,
        Disagreement::ChunkCount { .. } => CHUNK_COUNT,
        Disagreement::Chunks { .. } => CHUNKS,
        Disagreement::Durations { .. } => DURATIONS,
        Disagreement::SyncSamples { .. } => SYNC_SAMPLES,
        Disagreement::Offset { .. } => OFFSET,
    }
}

/// Copies the samples of `tables` to the front of `rows`, which is long enough for them.
fn put_samples(tables: &SampleTables<'_>, rows: &mut [SampleRow])
    requires { sample_count tables.now ≤ length rows.old }
    ensures { ArePut tables.now rows.old rows.new }
{
    let mut samples = tables.samples();
    let mut index = 0;
    'put: while let Some(sample) = samples.next() {
        rows[index] = row_of(sample);
        index += 1;
    }
}

/// Copies the samples of the tables in `boxes` to `rows`, and writes their number to `count`. Returns the status, which
/// is that of the disagreement if the tables disagree.
fn copy_tables(boxes: &SampleBoxes, rows: &mut [SampleRow], count: &mut usize) -> u32
    ensures { CopiesTables boxes.now result rows.old rows.new count.old count.new }
{
    match SampleTables::new(boxes.tables()) {
        Ok(tables) => {
            *count = tables.len() as usize;
            if rows.len() < *count {
                return NO_ROOM;
            }
            put_samples(&tables, rows);
            OK
        }
        Err(disagreement) => status_of_disagreement(disagreement),
    }
}

/// Copies the samples of track `number` of `movie` to `rows`, and writes their number to `count`. Returns the status.
fn copy_track(
    alloc: Global,
    movie: &mut Movie<&[u8]>,
    number: usize,
    rows: &mut [SampleRow],
    count: &mut usize,
) -> u32
    ensures { IfSome movie.old.bytes
        (λ file. CopiesOf file (Some number) result rows.old rows.new count.old count.new) }
{
    match movie.samples(alloc, number) {
        Ok(Some(boxes)) => copy_tables(&boxes, rows, count),
        Ok(None) => {
            *count = 0;
            OK
        }
        Err(MovieError::Box(error)) => status_of_box_error(&error),
        Err(MovieError::Io(_)) => OUT_OF_MEMORY,
    }
}

/// Copies the samples of the first track that has the track_ID `track_id` (ISO/IEC 14496-12, 8.3.2) to `rows`, by the
/// tables of its `stbl`, and writes their number to `count`. `bytes` is the whole file. Returns the status.
#[unsafe(no_mangle)]
pub extern "C" fn mp4_samples(
    alloc: Global,
    bytes: &[u8],
    track_id: u32,
    rows: &mut [SampleRow],
    count: &mut usize,
) -> u32
    ensures { CopiesSamples bytes.now track_id result rows.old rows.new count.old count.new }
{
    match find_track(alloc, bytes, track_id) {
        Ok(mut track) => {
            let number = track.number;
            copy_track(alloc, &mut track.movie, number, rows, count)
        }
        Err(status) => status,
    }
}
