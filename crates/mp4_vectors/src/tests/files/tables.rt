//! Tests of tables that agree: samples by number and by time, and the last sync sample, from the tables and from an
//! index of them.

use super::boxes::{
    Boxes, FIFTH, FIRST, FOURTH, Listed, Row, SECOND, SEVEN_SAMPLES, SEVENTH, SIXTH, SYNCS, THIRD,
    chunks, fill, no_boxes, sample_of, tables_of, times, worked,
};
use crate::callers::key_frame;
use mp4_frame::Error;
use mp4_samples::{Sample, SampleIndex, SampleTables, Tables};
use mp4_tables::{StscEntry, SttsEntry};
use std::alloc::{AllocError, Global};

/// The expected answers of tables.
#[derive(Clone, Copy)]
struct Expected {
    /// Sample numbers, each with its sample.
    samples: &'static [(u32, Row)],
    /// Times, each with the number of the sample that covers it.
    lasting: &'static [(u64, Option<u32>)],
    /// Sample numbers, each with the number of the last sync sample up to it.
    syncs: &'static [(u32, Option<u32>)],
    /// Times, each with the number of the last sync sample that starts at or before it.
    syncs_at: &'static [(u64, Option<u32>)],
}

/// Returns whether `tables` and `index` have the sample `row` under `number`.
fn have(tables: &SampleTables<'_>, index: &SampleIndex<'_>, number: u32, row: Row) -> bool {
    let wanted = Some(sample_of(row));
    tables.sample(number) == wanted && index.sample(number) == wanted
}

/// Returns whether `tables` and `index` have no sample after the last one.
fn end(tables: &SampleTables<'_>, index: &SampleIndex<'_>) -> bool {
    tables.sample(tables.len()).is_none() && index.sample(index.len()).is_none()
}

/// Returns whether `tables` and `index` have the samples `rows`, and none after the last one.
fn have_samples(tables: &SampleTables<'_>, index: &SampleIndex<'_>, rows: &[(u32, Row)]) -> bool {
    for (number, row) in rows {
        if !have(tables, index, *number, *row) {
            return false;
        }
    }
    end(tables, index)
}

/// Returns whether the sample that covers each time in `at` has the number beside it.
fn last(tables: &SampleTables<'_>, index: &SampleIndex<'_>, at: &[(u64, Option<u32>)]) -> bool {
    for (time, number) in at {
        if tables.number_at(*time) != *number || index.number_at(*time) != *number {
            return false;
        }
    }
    true
}

/// Returns whether the last sync sample at or before each number in `to` has the number beside it.
fn sync(tables: &SampleTables<'_>, index: &SampleIndex<'_>, to: &[(u32, Option<u32>)]) -> bool {
    for (number, sync) in to {
        if tables.last_sync(*number) != *sync || index.last_sync(*number) != *sync {
            return false;
        }
    }
    true
}

/// Returns whether the last sync sample that starts at or before each time in `at` has the number beside it.
fn sync_at(tables: &SampleTables<'_>, index: &SampleIndex<'_>, at: &[(u64, Option<u32>)]) -> bool {
    for (time, sync) in at {
        if tables.last_sync_at(*time) != *sync || index.last_sync_at(*time) != *sync {
            return false;
        }
    }
    true
}

/// Returns whether `tables` and `index` give all the expected answers.
fn are(tables: &SampleTables<'_>, index: &SampleIndex<'_>, expected: &Expected) -> bool {
    have_samples(tables, index, expected.samples)
        && last(tables, index, expected.lasting)
        && sync(tables, index, expected.syncs)
        && sync_at(tables, index, expected.syncs_at)
}

/// Returns whether `tables` and an index of them give all the expected answers.
fn are_indexed(alloc: Global, tables: &SampleTables<'_>, expected: &Expected) -> bool {
    match tables.index(alloc) {
        Ok(index) => are(tables, &index, expected),
        Err(_) => false,
    }
}

/// Returns whether `tables` agree, and give all the expected answers.
fn agree(alloc: Global, tables: Tables<'_>, expected: &Expected) -> bool {
    match SampleTables::new(tables) {
        Ok(tables) => are_indexed(alloc, &tables, expected),
        Err(_) => false,
    }
}

/// Returns whether the tables of `listed` agree, and give all the expected answers.
fn is(alloc: Global, listed: &Listed, expected: &Expected) -> bool {
    let mut boxes = no_boxes(alloc);
    fill(&mut boxes, listed) && agree(alloc, tables_of(listed, &boxes), expected)
}

/// The answers of the worked tables. Their sync samples are the numbers 0, 3 and 5.
const WORKED: Expected = Expected {
    samples: &[
        (0, FIRST),
        (1, SECOND),
        (2, THIRD),
        (3, FOURTH),
        (4, FIFTH),
        (5, SIXTH),
        (6, SEVENTH),
    ],
    lasting: &[
        (0, Some(0)),
        (99, Some(0)),
        (339, Some(3)),
        (340, Some(4)),
        (393, Some(6)),
        (394, None),
    ],
    syncs: &[
        (0, Some(0)),
        (2, Some(0)),
        (3, Some(3)),
        (4, Some(3)),
        (6, Some(5)),
        (u32::MAX, Some(5)),
    ],
    syncs_at: &[
        (0, Some(0)),
        (299, Some(0)),
        (300, Some(3)),
        (379, Some(3)),
        (380, Some(5)),
        (394, Some(5)),
    ],
};

/// The answers if only number 3 is a sync sample.
const ONE_SYNC: Expected = Expected {
    samples: &[],
    lasting: &[(380, Some(5))],
    syncs: &[(0, None), (2, None), (3, Some(3)), (9, Some(3))],
    syncs_at: &[(0, None), (299, None), (300, Some(3)), (u64::MAX, Some(3))],
};

/// The answers without a table of sync samples: every sample is a sync sample.
const ALL_SYNC: Expected = Expected {
    samples: &[],
    lasting: &[(387, Some(6))],
    syncs: &[(0, Some(0)), (5, Some(5)), (6, Some(6)), (9, Some(6))],
    syncs_at: &[
        (0, Some(0)),
        (99, Some(0)),
        (100, Some(1)),
        (393, Some(6)),
        (500, Some(6)),
    ],
};

/// Returns whether the worked tables with the sync samples `syncs` give the expected answers.
fn is_seven(alloc: Global, syncs: Option<&'static [u32]>, expected: &Expected) -> bool {
    let listed = Listed { syncs, ..worked() };
    is(alloc, &listed, expected)
}

/// Returns whether the worked tables give the expected answers with their own sync samples, with one, and without a
/// table of them.
fn are_seven(alloc: Global) -> bool {
    is_seven(alloc, SYNCS, &WORKED)
        && is_seven(alloc, Some(&[4]), &ONE_SYNC)
        && is_seven(alloc, None, &ALL_SYNC)
}

#[test]
fn seven_samples(rt: HostRuntime) {
    assert!(rt; are_seven(rt.alloc()));
}

/// Four samples of nine bytes in a chunk past 2^32, without `ctts` and `stss`. Chunk 1 and two runs of `stts` have no
/// samples.
const FAR: Listed = Listed {
    sample_size: 9,
    sample_count: 4,
    sizes: &[],
    chunks: &[chunks!(1, 0, 1), chunks!(2, 4, 2)],
    offsets: &[],
    long_offsets: &[17, 8_589_934_599],
    times: &[times!(0, 8), times!(2, 3), times!(0, 9), times!(2, 5)],
    shifts: None,
    syncs: None,
};

/// The samples of `FAR`.
const FAR_OUT: Expected = Expected {
    samples: &[
        (0, (8_589_934_599, 9, 0, 3, 0, true, 2, 2)),
        (1, (8_589_934_608, 9, 3, 3, 0, true, 2, 2)),
        (2, (8_589_934_617, 9, 6, 5, 0, true, 2, 2)),
        (3, (8_589_934_626, 9, 11, 5, 0, true, 2, 2)),
    ],
    lasting: &[],
    syncs: &[],
    syncs_at: &[],
};

/// Samples of 1 to 200 bytes, 70 in a chunk, so that blocks of 64 sizes end within chunks. The first, second and fourth
/// of the five runs of `stts` take no time.
const LONG: Listed = Listed {
    sample_size: 0,
    sample_count: 200,
    sizes: &[
        1, 2, 3, 4, 5, 6, 7, 8, 9, 10, 11, 12, 13, 14, 15, 16, 17, 18, 19, 20, 21, 22, 23, 24, 25,
        26, 27, 28, 29, 30, 31, 32, 33, 34, 35, 36, 37, 38, 39, 40, 41, 42, 43, 44, 45, 46, 47, 48,
        49, 50, 51, 52, 53, 54, 55, 56, 57, 58, 59, 60, 61, 62, 63, 64, 65, 66, 67, 68, 69, 70, 71,
        72, 73, 74, 75, 76, 77, 78, 79, 80, 81, 82, 83, 84, 85, 86, 87, 88, 89, 90, 91, 92, 93, 94,
        95, 96, 97, 98, 99, 100, 101, 102, 103, 104, 105, 106, 107, 108, 109, 110, 111, 112, 113,
        114, 115, 116, 117, 118, 119, 120, 121, 122, 123, 124, 125, 126, 127, 128, 129, 130, 131,
        132, 133, 134, 135, 136, 137, 138, 139, 140, 141, 142, 143, 144, 145, 146, 147, 148, 149,
        150, 151, 152, 153, 154, 155, 156, 157, 158, 159, 160, 161, 162, 163, 164, 165, 166, 167,
        168, 169, 170, 171, 172, 173, 174, 175, 176, 177, 178, 179, 180, 181, 182, 183, 184, 185,
        186, 187, 188, 189, 190, 191, 192, 193, 194, 195, 196, 197, 198, 199, 200,
    ],
    chunks: &[chunks!(1, 70, 1)],
    offsets: &[1_000, 50_000, 9_000],
    long_offsets: &[],
    times: &[
        times!(3, 0),
        times!(0, 9),
        times!(100, 10),
        times!(2, 0),
        times!(95, 4),
    ],
    shifts: None,
    syncs: None,
};

/// Some samples of `LONG`, and the answers for some times.
const LONG_CHUNKS: Expected = Expected {
    samples: &[
        (0, (1_000, 1, 0, 0, 0, true, 1, 1)),
        // Samples of 1 to 69 bytes have 2,415 bytes together.
        (69, (3_415, 70, 660, 10, 0, true, 1, 1)),
        (70, (50_000, 71, 670, 10, 0, true, 1, 2)),
        // Samples of 71 to 138 bytes have 7,106 bytes together.
        (138, (57_106, 139, 1_132, 4, 0, true, 1, 2)),
        // Samples of 141 to 199 bytes have 10,030 bytes together.
        (199, (19_030, 200, 1_376, 4, 0, true, 1, 3)),
    ],
    lasting: &[
        (0, Some(3)),
        (9, Some(3)),
        (999, Some(102)),
        (1_000, Some(105)),
        (1_379, Some(199)),
        (1_380, None),
    ],
    syncs: &[(7, Some(7))],
    syncs_at: &[(0, Some(3)), (1_000, Some(105)), (9_999, Some(199))],
};

/// 2^32 - 1 samples of 2^32 - 1 bytes in one chunk. Two more runs of chunks begin past the last chunk.
const MOST: Listed = Listed {
    sample_size: u32::MAX,
    sample_count: u32::MAX,
    sizes: &[],
    chunks: &[
        chunks!(1, u32::MAX, 3),
        chunks!(u32::MAX - 1, 7, 4),
        chunks!(u32::MAX, 0, 9),
    ],
    offsets: &[u32::MAX],
    long_offsets: &[],
    times: &[times!(u32::MAX, u32::MAX), times!(u32::MAX, 1)],
    shifts: None,
    syncs: None,
};

/// The last sample. Its offset is (2^32 - 2) (2^32 - 1) + 2^32 - 1.
const MOST_SAMPLES: Expected = Expected {
    samples: &[(
        u32::MAX - 1,
        (
            18_446_744_065_119_617_025,
            u32::MAX,
            18_446_744_060_824_649_730,
            u32::MAX,
            0,
            true,
            3,
            1,
        ),
    )],
    lasting: &[],
    syncs: &[],
    syncs_at: &[],
};

#[test]
fn four_samples_far_out(rt: HostRuntime) {
    assert!(rt; is(rt.alloc(), &FAR, &FAR_OUT));
}

/// Returns whether the tables with long chunks, and those with the largest counts, give the expected answers.
fn are_long_and_large(alloc: Global) -> bool {
    is(alloc, &LONG, &LONG_CHUNKS) && is(alloc, &MOST, &MOST_SAMPLES)
}

#[test]
fn long_chunks_and_large_counts(rt: HostRuntime) {
    assert!(rt; are_long_and_large(rt.alloc()));
}

/// Tables of 2^32 - 1 samples in one chunk at offset 0. `list_runs` gives them their times.
const RUNS: Listed = Listed {
    chunks: &[chunks!(1, u32::MAX, 1)],
    offsets: &[0],
    ..MOST
};

/// Replaces the times by a million runs without samples.
fn list_empty_runs(alloc: Global, boxes: &mut Boxes) -> Result<(), AllocError> {
    boxes.stts.entries = vec![in alloc; times!(0, 6); 1_000_000]?.into();
    Ok(())
}

/// Replaces the times by a million runs without samples and then one run of all samples. Returns whether there is
/// memory for them.
fn list_runs(alloc: Global, boxes: &mut Boxes) -> bool {
    list_empty_runs(alloc, boxes).is_ok() && boxes.stts.entries.push(times!(u32::MAX, 2)).is_ok()
}

/// Returns sample 2^32 - 2 of `tables`, if they agree and have it.
fn last_of(tables: Tables<'_>) -> Option<Sample> {
    SampleTables::new(tables).ok()?.sample(u32::MAX - 1)
}

/// Returns whether the last of 2^32 - 1 samples starts at `time` if a million empty runs of times precede its run.
fn starts_at(alloc: Global, listed: &Listed, boxes: &mut Boxes, time: u64) -> bool {
    if !list_runs(alloc, boxes) {
        return false;
    }
    match last_of(tables_of(listed, boxes)) {
        Some(sample) => sample.start_time == time,
        None => false,
    }
}

/// Returns whether the last sample of the tables in `listed` starts at `time` after a million empty runs of times.
fn is_after_empty_runs(alloc: Global, listed: &Listed, time: u64) -> bool {
    let mut boxes = no_boxes(alloc);
    fill(&mut boxes, listed) && starts_at(alloc, listed, &mut boxes, time)
}

#[test]
fn a_million_empty_runs(rt: HostRuntime) {
    assert!(rt; is_after_empty_runs(rt.alloc(), &RUNS, 8_589_934_588));
}

/// Returns whether `samples` yields the seven worked samples in order, and then ends.
fn come(tables: &SampleTables<'_>) -> bool {
    let mut samples = tables.samples();
    for row in SEVEN_SAMPLES {
        if samples.next() != Some(sample_of(row)) {
            return false;
        }
    }
    samples.next().is_none()
}

/// Returns whether `tables` counts seven samples.
fn are_seven_samples(tables: &SampleTables<'_>) -> bool {
    tables.len() == 7 && !tables.is_empty()
}

/// Returns whether `key_frame` finds the fourth sample at the last time at which it is the key frame, and the sixth
/// sample at the next time.
fn are_key_frames(index: &SampleIndex<'_>) -> bool {
    key_frame(index, 379) == Some(sample_of(FOURTH))
        && key_frame(index, 380) == Some(sample_of(SIXTH))
}

/// Returns whether `sample_at` finds the sample of the worked tables at a time, and none at their end.
fn are_at_times(tables: &SampleTables<'_>, index: &SampleIndex<'_>) -> bool {
    tables.sample_at(379) == Some(sample_of(FIFTH))
        && index.sample_at(379) == Some(sample_of(FIFTH))
        && index.sample_at(394).is_none()
}

/// Returns whether the key frames and samples at times are found in an index of `tables`.
fn are_at_times_of(alloc: Global, tables: &SampleTables<'_>) -> bool {
    match tables.index(alloc) {
        Ok(index) => are_key_frames(&index) && are_at_times(tables, &index),
        Err(_) => false,
    }
}

/// Returns whether `tables` agree, yield the seven worked samples in order, and find samples by time.
fn come_and_are_at_times(alloc: Global, tables: Tables<'_>) -> bool {
    match SampleTables::new(tables) {
        Ok(tables) => come(&tables)
            && are_seven_samples(&tables)
            && are_at_times_of(alloc, &tables),
        Err(_) => false,
    }
}

/// Returns whether the tables of `listed` agree, yield the seven worked samples in order, and find samples by time.
fn are_worked(alloc: Global, listed: &Listed) -> bool {
    let mut boxes = no_boxes(alloc);
    fill(&mut boxes, listed) && come_and_are_at_times(alloc, tables_of(listed, &boxes))
}

#[test]
fn samples_come_and_key_frames_are_found(rt: HostRuntime) {
    assert!(rt; are_worked(rt.alloc(), &worked()));
}

/// A file of seven bytes.
const SHORT_FILE: [u8; 7] = [20, 21, 22, 23, 24, 25, 26];

/// Returns whether the sample of three bytes at `offset` has the bytes `wanted`.
fn are_at(offset: u64, wanted: &[u8]) -> bool {
    match sample_of((offset, 3, 0, 1, 0, true, 1, 1)).bytes_of(&SHORT_FILE) {
        Ok(bytes) => bytes == wanted,
        Err(_) => false,
    }
}

/// Returns whether the file ends before the sample of three bytes at `offset` does.
fn is_past_the_end(offset: u64) -> bool {
    matches!(
        sample_of((offset, 3, 0, 1, 0, true, 1, 1)).bytes_of(&SHORT_FILE),
        Err(Error::IoError)
    )
}

/// Returns whether samples up to the end of the file have their bytes, and samples that end past it are errors.
fn are_bytes_of_the_file() -> bool {
    are_at(2, &[22, 23, 24])
        && are_at(4, &[24, 25, 26])
        && is_past_the_end(5)
        && is_past_the_end(u64::MAX)
}

#[test]
fn bytes_of_a_sample(rt: HostRuntime) {
    assert!(rt; are_bytes_of_the_file());
}
