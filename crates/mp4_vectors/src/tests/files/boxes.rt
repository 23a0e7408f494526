//! The tables of a track as constants, and their boxes. The worked tables are those of `worked`.

use mp4_frame::Entries;
use mp4_samples::{ChunkOffsets, Disagreement, Sample, SampleTables, Tables};
use mp4_tables::{
    Co64Box, CttsBox, CttsEntry, StcoBox, StscBox, StscEntry, StssBox, StszBox, SttsBox, SttsEntry,
};
use std::alloc::Global;

/// An entry of `stsc`, by its first chunk, the number of samples in a chunk, and their description. Its first sample is
/// wrong on purpose, because nothing reads it.
macro_rules! chunks {
    ($first_chunk:expr, $samples_per_chunk:expr, $description:expr) => {
        StscEntry {
            first_chunk: $first_chunk,
            samples_per_chunk: $samples_per_chunk,
            sample_description_index: $description,
            first_sample: 99,
        }
    };
}

/// An entry of `stts`, by the number of samples and the duration of each.
macro_rules! times {
    ($sample_count:expr, $sample_delta:expr) => {
        SttsEntry {
            sample_count: $sample_count,
            sample_delta: $sample_delta,
        }
    };
}

/// An entry of `ctts`, by the number of samples and the composition offset of each.
macro_rules! shifts {
    ($sample_count:expr, $sample_offset:expr) => {
        CttsEntry {
            sample_count: $sample_count,
            sample_offset: $sample_offset,
        }
    };
}

pub(crate) use chunks;
pub(crate) use shifts;
pub(crate) use times;

/// The numbers in the tables of a track.
#[derive(Clone, Copy)]
pub struct Listed {
    pub sample_size: u32,
    pub sample_count: u32,
    pub sizes: &'static [u32],
    pub chunks: &'static [StscEntry],
    pub offsets: &'static [u32],
    /// Offsets of 64 bits. If there are any, they are used instead of `offsets`.
    pub long_offsets: &'static [u64],
    pub times: &'static [SttsEntry],
    pub shifts: Option<&'static [CttsEntry]>,
    pub syncs: Option<&'static [u32]>,
}

/// The boxes of a track.
#[derive(Drop)]
pub struct Boxes {
    stsz: StszBox,
    stsc: StscBox,
    stco: StcoBox,
    co64: Co64Box,
    pub stts: SttsBox,
    ctts: CttsBox,
    stss: StssBox,
}

/// Returns the boxes of a track with empty tables.
pub fn no_boxes(alloc: Global) -> Boxes {
    Boxes {
        stsz: StszBox::default_in(alloc),
        stsc: StscBox::default_in(alloc),
        stco: StcoBox::default_in(alloc),
        co64: Co64Box::default_in(alloc),
        stts: SttsBox::default_in(alloc),
        ctts: CttsBox::default_in(alloc),
        stss: StssBox::default_in(alloc),
    }
}

/// Appends `entries` to `list`. Returns whether there is memory for them.
pub fn append<T: Copy>(list: &mut Entries<T>, entries: &[T]) -> bool {
    list.extend_from_slice(entries).is_ok()
}

/// Fills `stsz` with the sizes in `listed`. Returns whether there is memory for them.
fn fill_sizes(stsz: &mut StszBox, listed: &Listed) -> bool {
    stsz.sample_size = listed.sample_size;
    stsz.sample_count = listed.sample_count;
    append(&mut stsz.sample_sizes, listed.sizes)
}

/// Fills the boxes of chunks and chunk offsets. Returns whether there is memory for them.
fn fill_chunks(boxes: &mut Boxes, listed: &Listed) -> bool {
    append(&mut boxes.stsc.entries, listed.chunks)
        && append(&mut boxes.stco.entries, listed.offsets)
        && append(&mut boxes.co64.entries, listed.long_offsets)
}

/// Fills the boxes of times, composition offsets and sync samples. Returns whether there is memory for them.
fn fill_times(boxes: &mut Boxes, listed: &Listed) -> bool {
    append(&mut boxes.stts.entries, listed.times)
        && append(&mut boxes.ctts.entries, listed.shifts.unwrap_or(&[]))
        && append(&mut boxes.stss.entries, listed.syncs.unwrap_or(&[]))
}

/// Fills `boxes` with the numbers in `listed`. Returns whether there is memory for them.
pub fn fill(boxes: &mut Boxes, listed: &Listed) -> bool {
    fill_sizes(&mut boxes.stsz, listed) && fill_chunks(boxes, listed) && fill_times(boxes, listed)
}

/// Returns the tables of `boxes` that `listed` has.
pub fn tables_of<'a>(listed: &Listed, boxes: &'a Boxes) -> Tables<'a> {
    Tables {
        stsz: &boxes.stsz,
        stsc: &boxes.stsc,
        chunk_offsets: if listed.long_offsets.is_empty() {
            ChunkOffsets::Stco(&boxes.stco)
        } else {
            ChunkOffsets::Co64(&boxes.co64)
        },
        stts: &boxes.stts,
        ctts: match listed.shifts {
            Some(_) => Some(&boxes.ctts),
            None => None,
        },
        stss: match listed.syncs {
            Some(_) => Some(&boxes.stss),
            None => None,
        },
    }
}

/// Returns whether the tables of `listed` disagree as `wanted`, or agree if that is `None`.
pub fn is_told(alloc: Global, listed: &Listed, wanted: &Option<Disagreement>) -> bool {
    let mut boxes = no_boxes(alloc);
    fill(&mut boxes, listed) && SampleTables::new(tables_of(listed, &boxes)).err() == *wanted
}

/// An expected sample: offset, size, start time, duration, rendering offset, whether it is a sync sample, sample
/// description index, chunk.
pub type Row = (u64, u32, u64, u32, i64, bool, u32, u32);

/// Returns the sample with the fields of `row`.
pub fn sample_of(row: Row) -> Sample {
    let (offset, size, start_time, duration, rendering_offset, is_sync, description, chunk) = row;
    Sample {
        offset,
        size,
        start_time,
        duration,
        rendering_offset,
        is_sync,
        sample_description_index: description,
        chunk,
    }
}

/// The runs of chunks of the worked tables.
const CHUNKS: &[StscEntry] = &[chunks!(1, 2, 5), chunks!(2, 1, 6), chunks!(4, 2, 8)];

/// The durations of the worked tables.
const TIMES: &[SttsEntry] = &[times!(3, 100), times!(2, 40), times!(9, 7)];

/// The sync samples of the worked tables.
pub const SYNCS: Option<&[u32]> = Some(&[1, 4, 6]);

/// Seven samples in five chunks. The last chunk has room for one more sample. There are durations for fourteen samples,
/// and rendering offsets for four.
const SEVEN: Listed = Listed {
    sample_size: 0,
    sample_count: 7,
    sizes: &[11, 23, 37, 41, 53, 67, 79],
    chunks: CHUNKS,
    offsets: &[1000, 5000, 300, 20000, 7000],
    long_offsets: &[],
    times: TIMES,
    shifts: Some(&[shifts!(1, 30), shifts!(2, -20), shifts!(1, 50)]),
    syncs: SYNCS,
};

/// Returns the worked tables. A function that names the constant itself takes long to prove, because it builds the
/// whole value.
pub fn worked() -> Listed {
    SEVEN
}

pub const FIRST: Row = (1000, 11, 0, 100, 30, true, 5, 1);

pub const SECOND: Row = (1011, 23, 100, 100, -20, false, 5, 1);

pub const THIRD: Row = (5000, 37, 200, 100, -20, false, 6, 2);

pub const FOURTH: Row = (300, 41, 300, 40, 50, true, 6, 3);

pub const FIFTH: Row = (20000, 53, 340, 40, 0, false, 8, 4);

pub const SIXTH: Row = (20053, 67, 380, 7, 0, true, 8, 4);

pub const SEVENTH: Row = (7000, 79, 387, 7, 0, false, 8, 5);

/// The samples of the worked tables.
pub const SEVEN_SAMPLES: [Row; 7] = [FIRST, SECOND, THIRD, FOURTH, FIFTH, SIXTH, SEVENTH];
