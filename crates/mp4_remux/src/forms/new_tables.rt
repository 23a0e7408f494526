//! The sample tables of a track, made sample by sample.

use crate::forms::chunk_place::ChunkPlace;
use crate::forms::new_bytes::{begin_box, end_box, push_box, push_u32};
use crate::forms::refusal::{FormRefusal, FormStop};
use crate::forms::rendering::short_offset;
use crate::forms::sample_groups::Grouping;
use crate::refusal::TrackPlace;
use mp4_frame::{Entries, codes};
use mp4_samples::Sample;
use mp4_tables::{CttsBox, CttsEntry, StscBox, StscEntry, StssBox, StszBox, SttsBox, SttsEntry};
use std::alloc::Global;

/// A chunk that can have further samples.
#[derive(Clone, Copy, Debug, PartialEq, Eq)]
struct Chunk {
    begin: u64,
    end: u64,
    count: u32,
    description: u32,
}

/// The sample tables of a track, as far as samples were added.
#[derive(Drop)]
pub struct NewTables {
    /// The track, as refusals name it.
    place: TrackPlace,
    /// The index of the track.
    track: usize,
    /// The number of samples.
    pub count: u32,
    /// The time at which they end.
    pub end: u64,
    /// The runs of samples of one duration, except the last one.
    durations: Vec<SttsEntry>,
    duration: SttsEntry,
    /// The runs of samples of one rendering offset, except the last one.
    offsets: Vec<CttsEntry>,
    offset: CttsEntry,
    is_signed: bool,
    has_offsets: bool,
    /// The numbers of the sync samples.
    syncs: Vec<u32>,
    /// The sizes.
    sizes: Vec<u32>,
    has_sizes: bool,
    /// The runs of chunks of one number of samples.
    chunks: Vec<StscEntry>,
    /// The number of chunks that have ended.
    pub chunk_count: u32,
    chunk: Option<Chunk>,
}

impl NewTables {
    /// Returns tables without samples, of the track with this index.
    pub(crate) fn new(alloc: Global, place: TrackPlace, track: usize) -> NewTables {
        NewTables {
            place,
            track,
            count: 0,
            end: 0,
            durations: Vec::new(alloc),
            duration: SttsEntry {
                sample_count: 0,
                sample_delta: 0,
            },
            offsets: Vec::new(alloc),
            offset: CttsEntry {
                sample_count: 0,
                sample_offset: 0,
            },
            is_signed: false,
            has_offsets: false,
            syncs: Vec::new(alloc),
            sizes: Vec::new(alloc),
            has_sizes: false,
            chunks: Vec::new(alloc),
            chunk_count: 0,
            chunk: None,
        }
    }

    /// Refuses `sample`, sample `number`, unless it is decoded when the one before it ends.
    fn check_time(&self, sample: &Sample, number: u64) -> Result<(), FormRefusal> {
        if sample.start_time == self.end {
            return Ok(());
        }
        if self.count == 0 {
            return Err(FormRefusal::Start {
                track: self.place,
                time: sample.start_time,
            });
        }
        Err(FormRefusal::Gap {
            track: self.place,
            number,
            time: sample.start_time,
            end: self.end,
        })
    }

    /// Adds the duration of a sample.
    fn add_duration(&mut self, duration: u32) -> Result<(), FormStop> {
        if self.duration.sample_count > 0 && self.duration.sample_delta != duration {
            self.durations.push(self.duration)?;
            self.duration.sample_count = 0;
        }
        self.duration.sample_delta = duration;
        self.duration.sample_count = self.duration.sample_count.saturating_add(1);
        Ok(())
    }

    /// Adds the rendering offset of a sample.
    fn add_offset(&mut self, offset: i32) -> Result<(), FormStop> {
        if self.offset.sample_count > 0 && self.offset.sample_offset != offset {
            self.offsets.push(self.offset)?;
            self.offset.sample_count = 0;
        }
        self.offset.sample_offset = offset;
        self.offset.sample_count = self.offset.sample_count.saturating_add(1);
        self.has_offsets = self.has_offsets || offset != 0;
        self.is_signed = self.is_signed || offset < 0;
        Ok(())
    }

    /// Adds the size of a sample.
    fn add_size(&mut self, size: u32) -> Result<(), FormStop> {
        if let Some(first) = self.sizes.first() {
            self.has_sizes = self.has_sizes || *first != size;
        }
        self.sizes.push(size)?;
        Ok(())
    }

    /// Ends the last chunk, and adds its place to `places`.
    fn end_chunk(&mut self, places: &mut Vec<ChunkPlace>) -> Result<(), FormStop> {
        let Some(chunk) = self.chunk.take() else {
            return Ok(());
        };
        let index = self.chunk_count;
        let Some(number) = index.checked_add(1) else {
            return Err(FormStop::Refused(FormRefusal::Count(self.place)));
        };
        let is_like_last = match self.chunks.last() {
            Some(last) => {
                last.samples_per_chunk == chunk.count
                    && last.sample_description_index == chunk.description
            }
            None => false,
        };
        if !is_like_last {
            self.chunks.push(StscEntry {
                first_chunk: number,
                samples_per_chunk: chunk.count,
                sample_description_index: chunk.description,
                first_sample: 0,
            })?;
        }
        self.chunk_count = number;
        places.push(ChunkPlace {
            begin: chunk.begin,
            length: chunk.end.saturating_sub(chunk.begin),
            track: self.track,
            index,
        })?;
        Ok(())
    }

    /// Adds the bytes of a sample: to the last chunk if they follow it in the old file, or to a new one.
    fn add_bytes(&mut self, sample: &Sample, places: &mut Vec<ChunkPlace>) -> Result<(), FormStop> {
        let size = u64::from(sample.size);
        if let Some(chunk) = self.chunk.as_mut() {
            if chunk.description == sample.sample_description_index
                && (size == 0 || chunk.end == sample.offset)
            {
                chunk.end = chunk.end.saturating_add(size);
                chunk.count = chunk.count.saturating_add(1);
                return Ok(());
            }
        }
        self.end_chunk(places)?;
        self.chunk = Some(Chunk {
            begin: sample.offset,
            end: sample.offset.saturating_add(size),
            count: 1,
            description: sample.sample_description_index,
        });
        Ok(())
    }

    /// Adds `sample`. Adds the place of a chunk that ends to `places`.
    pub(crate) fn add(
        &mut self,
        sample: &Sample,
        places: &mut Vec<ChunkPlace>,
    ) -> Result<(), FormStop> {
        let Some(count) = self.count.checked_add(1) else {
            return Err(FormStop::Refused(FormRefusal::Count(self.place)));
        };
        let number = u64::from(count);
        self.check_time(sample, number)?;
        let offset = short_offset(sample, self.place, number)?;
        self.add_duration(sample.duration)?;
        self.add_offset(offset)?;
        self.add_size(sample.size)?;
        if sample.is_sync {
            self.syncs.push(count)?;
        }
        self.add_bytes(sample, places)?;
        self.count = count;
        self.end = sample.start_time.saturating_add(u64::from(sample.duration));
        Ok(())
    }

    /// Ends the last chunk and the last runs, after the last sample.
    pub(crate) fn finish(&mut self, places: &mut Vec<ChunkPlace>) -> Result<(), FormStop> {
        self.end_chunk(places)?;
        if self.duration.sample_count > 0 {
            self.durations.push(self.duration)?;
        }
        if self.offset.sample_count > 0 {
            self.offsets.push(self.offset)?;
        }
        Ok(())
    }

    /// Returns the bytes of the tables, which have ended, except those of chunk offsets: `stts`, `ctts` if a rendering
    /// offset is not 0, `stss` if a sample is not a sync sample, `sdtp` if `dependencies` are given, `stsc`, `stsz`,
    /// and an `sbgp` for each of `groups`.
    pub(crate) fn into_bytes(
        self,
        alloc: Global,
        dependencies: Option<&[u8]>,
        groups: Vec<Grouping>,
    ) -> Result<Vec<u8>, FormStop> {
        let NewTables {
            place: _,
            track: _,
            count,
            end: _,
            durations,
            duration: _,
            offsets,
            offset: _,
            is_signed,
            has_offsets,
            syncs,
            sizes,
            has_sizes,
            chunks,
            chunk_count: _,
            chunk: _,
        } = self;
        let mut out = Vec::new(alloc);
        push_durations(&mut out, durations)?;
        if has_offsets {
            push_offsets(&mut out, offsets, is_signed)?;
        }
        if syncs.len() < count as usize {
            push_syncs(&mut out, syncs)?;
        }
        if let Some(bytes) = dependencies {
            push_dependencies(&mut out, bytes)?;
        }
        push_chunks(&mut out, chunks)?;
        push_sizes(alloc, &mut out, sizes, has_sizes, count)?;
        for grouping in groups {
            if let Some(sbgp) = grouping.into_box() {
                push_box(&mut out, &sbgp, codes::SBGP)?;
            }
        }
        Ok(out)
    }
}

/// Appends an `stts`.
fn push_durations(out: &mut Vec<u8>, runs: Vec<SttsEntry>) -> Result<(), FormStop> {
    let stts = SttsBox {
        version: 0,
        flags: 0,
        entries: Entries::from_vec(runs),
    };
    push_box(out, &stts, codes::STTS)
}

/// Appends a `ctts`, of version 1 if an offset is negative.
fn push_offsets(out: &mut Vec<u8>, runs: Vec<CttsEntry>, is_signed: bool) -> Result<(), FormStop> {
    let ctts = CttsBox {
        version: if is_signed { 1 } else { 0 },
        flags: 0,
        entries: Entries::from_vec(runs),
    };
    push_box(out, &ctts, codes::CTTS)
}

/// Appends an `stss`.
fn push_syncs(out: &mut Vec<u8>, numbers: Vec<u32>) -> Result<(), FormStop> {
    let stss = StssBox {
        version: 0,
        flags: 0,
        entries: Entries::from_vec(numbers),
    };
    push_box(out, &stss, codes::STSS)
}

/// Appends an `sdtp` with these bytes.
fn push_dependencies(out: &mut Vec<u8>, bytes: &[u8]) -> Result<(), FormStop> {
    let at = begin_box(out, codes::SDTP)?;
    push_u32(out, 0)?;
    out.extend_from_slice(bytes)?;
    end_box(out, at, codes::SDTP)
}

/// Appends an `stsc`.
fn push_chunks(out: &mut Vec<u8>, runs: Vec<StscEntry>) -> Result<(), FormStop> {
    let stsc = StscBox {
        version: 0,
        flags: 0,
        entries: Entries::from_vec(runs),
    };
    push_box(out, &stsc, codes::STSC)
}

/// Appends an `stsz`, with one size for all samples if they have the same, which is not 0.
fn push_sizes(
    alloc: Global,
    out: &mut Vec<u8>,
    sizes: Vec<u32>,
    has_sizes: bool,
    count: u32,
) -> Result<(), FormStop> {
    let first = sizes.first().copied().unwrap_or(0);
    let is_listed = has_sizes || first == 0;
    let stsz = StszBox {
        version: 0,
        flags: 0,
        sample_size: if is_listed { 0 } else { first },
        sample_count: count,
        sample_sizes: if is_listed {
            Entries::from_vec(sizes)
        } else {
            Entries::new(alloc)
        },
    };
    push_box(out, &stsz, codes::STSZ)
}

/// Appends a table of chunk offsets, all 0, with 64 bits each if `is_wide`.
pub(crate) fn push_chunk_offsets(
    out: &mut Vec<u8>,
    count: u32,
    is_wide: bool,
) -> Result<(), FormStop> {
    let code = if is_wide { codes::CO64 } else { codes::STCO };
    let at = begin_box(out, code)?;
    push_u32(out, 0)?;
    push_u32(out, count)?;
    let width: usize = if is_wide { 8 } else { 4 };
    let length = out
        .len()
        .saturating_add(width.saturating_mul(count as usize));
    out.resize(length, 0)?;
    end_box(out, at, code)
}
