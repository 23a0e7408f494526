//! The samples of a track, which are visited in order or looked up, a number of times.

ghost use Rattle.std.specs.Prelude.{◌<◌};

use mp4_samples::{ChunkOffsets, Sample, SampleTables, Tables};
use mp4_stream::{
    AnyBox, ByteCursor, CttsBox, StcoBox, StscBox, StssBox, StszBox, SttsBox, read_boxes,
};
use std::alloc::Global;

/// The distance between two samples that are looked up one after the other. It is a prime, so that no sample is looked
/// up twice.
const STRIDE: u64 = 611_953;

/// The number of samples for each sample that a pass looks up.
const ONE_OF: u32 = 10;

/// The first box of a type in a list.
macro_rules! first {
    ($boxes:expr, $held:ident) => {{
        for held in $boxes {
            if let AnyBox::$held(found) = held {
                return Some(found);
            }
        }
        None
    }};
}

fn stsz_of(boxes: &[AnyBox]) -> Option<&StszBox> {
    first!(boxes, StszBox)
}

fn stsc_of(boxes: &[AnyBox]) -> Option<&StscBox> {
    first!(boxes, StscBox)
}

fn stco_of(boxes: &[AnyBox]) -> Option<&StcoBox> {
    first!(boxes, StcoBox)
}

fn stts_of(boxes: &[AnyBox]) -> Option<&SttsBox> {
    first!(boxes, SttsBox)
}

fn ctts_of(boxes: &[AnyBox]) -> Option<&CttsBox> {
    first!(boxes, CttsBox)
}

fn stss_of(boxes: &[AnyBox]) -> Option<&StssBox> {
    first!(boxes, StssBox)
}

fn tables_of(boxes: &[AnyBox]) -> Option<Tables<'_>> {
    Some(Tables {
        stsz: stsz_of(boxes)?,
        stsc: stsc_of(boxes)?,
        chunk_offsets: ChunkOffsets::Stco(stco_of(boxes)?),
        stts: stts_of(boxes)?,
        ctts: ctts_of(boxes),
        stss: stss_of(boxes),
    })
}

/// Returns the sum of all fields of `sample`, modulo 2^64.
fn sum_of(sample: &Sample) -> u64 {
    sample
        .offset
        .wrapping_add(u64::from(sample.size))
        .wrapping_add(sample.start_time)
        .wrapping_add(u64::from(sample.duration))
        .wrapping_add(sample.rendering_offset.unsigned_abs())
        .wrapping_add(u64::from(u8::from(sample.is_sync)))
        .wrapping_add(u64::from(sample.sample_description_index))
        .wrapping_add(u64::from(sample.chunk))
}

/// Visits all samples in order `times` times, and each time checks that the tables agree. Returns the sum of all their
/// fields.
fn sum_in_order(tables: Tables<'_>, times: u64) -> Option<u64> {
    let mut sum: u64 = 0;
    for _ in 0..times {
        let tables = SampleTables::new(tables).ok()?;
        for sample in tables.samples() {
            sum = sum.wrapping_add(sum_of(&sample));
        }
    }
    Some(sum)
}

/// Returns the number of the sample that is looked up after `number`.
fn next_number(number: u32, count: u32) -> u32
    requires { 0 < count }
{
    ((u64::from(number) + STRIDE) % u64::from(count)) as u32
}

/// Looks up one of every `ONE_OF` samples in an index, `times` times. Returns the sum of all their fields.
fn sum_by_number(alloc: Global, tables: Tables<'_>, times: u64) -> Option<u64> {
    let index = SampleTables::new(tables).ok()?.index(alloc).ok()?;
    let count = index.len();
    let mut sum: u64 = 0;
    let mut number = 0;
    for _ in 0..times {
        for _ in 0..count / ONE_OF {
            number = next_number(number, count);
            sum = sum.wrapping_add(sum_of(&index.sample(number)?));
        }
    }
    Some(sum)
}

/// Reads the boxes of an `stbl` and visits its samples in order `times` times. Returns the sum of all their fields.
pub fn samples_in_order(alloc: Global, bytes: &[u8], times: u64) -> Option<u64> {
    let boxes = read_boxes(alloc, &mut ByteCursor::new(bytes)).ok()?;
    sum_in_order(tables_of(&boxes)?, times)
}

/// Reads the boxes of an `stbl`, makes an index of its samples and looks up one of every `ONE_OF`, `times` times.
/// Returns the sum of all their fields.
pub fn samples_by_number(alloc: Global, bytes: &[u8], times: u64) -> Option<u64> {
    let boxes = read_boxes(alloc, &mut ByteCursor::new(bytes)).ok()?;
    sum_by_number(alloc, tables_of(&boxes)?, times)
}
