//! Tests of every way in which tables disagree, except more than 2^32 - 1 chunks. Each case is the worked tables with
//! one or two numbers changed.

use super::boxes::{Listed, chunks, is_told, times, worked};
use mp4_samples::Disagreement;
use mp4_tables::{StscEntry, SttsEntry};
use std::alloc::Global;

/// Durations of six samples, one fewer than the tables have.
const SIX_TIMES: &[SttsEntry] = &[times!(3, 100), times!(2, 40), times!(1, 7)];

/// Runs of chunks, the last two of which begin at the same chunk.
const EQUAL: &[StscEntry] = &[chunks!(1, 2, 5), chunks!(2, 1, 6), chunks!(2, 2, 8)];

/// Runs of chunks that begin at chunk 3.
const LATE: &[StscEntry] = &[chunks!(3, 2, 5), chunks!(2, 1, 6), chunks!(2, 2, 8)];

/// Runs of chunks that hold only four samples: chunks of the last run have none.
const FEW: &[StscEntry] = &[chunks!(1, 2, 5), chunks!(2, 1, 6), chunks!(4, 0, 8)];

/// The largest chunk offset that is accepted: it and the 311 bytes of all samples are 2^64 - 1.
const LAST: u64 = u64::MAX - 311;

/// The least chunk offset that is refused.
const PAST: u64 = u64::MAX - 310;

/// Returns whether a count of eight samples disagrees with seven listed sizes.
fn is_told_of_sizes(alloc: Global) -> bool {
    let listed = Listed {
        sample_count: 8,
        ..worked()
    };
    let wanted = Disagreement::SampleSizes {
        count: 8,
        listed: 7,
    };
    is_told(alloc, &listed, &Some(wanted))
}

/// Returns whether tables with these runs of `chunks` disagree as `wanted`.
fn is_told_of_chunks(alloc: Global, chunks: &'static [StscEntry], wanted: Disagreement) -> bool {
    let listed = Listed { chunks, ..worked() };
    is_told(alloc, &listed, &Some(wanted))
}

/// Returns whether runs of chunks that do not increase, and runs that begin after chunk 1, are reported.
fn are_told_of_chunks(alloc: Global) -> bool {
    is_told_of_chunks(alloc, EQUAL, Disagreement::ChunkOrder { index: 2 })
        && is_told_of_chunks(alloc, LATE, Disagreement::FirstChunk { first_chunk: 3 })
}

/// Returns whether tables with the sync samples `syncs` disagree as `wanted`.
fn is_told_of_syncs(alloc: Global, syncs: &'static [u32], wanted: Disagreement) -> bool {
    let listed = Listed {
        syncs: Some(syncs),
        ..worked()
    };
    is_told(alloc, &listed, &Some(wanted))
}

/// Returns whether sync samples that do not increase, or that begin at 0, are reported.
fn are_told_of_syncs(alloc: Global) -> bool {
    is_told_of_syncs(alloc, &[1, 4, 4], Disagreement::SyncSamples { index: 2 })
        && is_told_of_syncs(alloc, &[0, 4, 4], Disagreement::SyncSamples { index: 0 })
}

/// Returns whether `listed`, with durations of only six samples, disagrees as `wanted`.
fn is_told_of_six(alloc: Global, listed: Listed, wanted: Disagreement) -> bool {
    let six = Listed {
        times: SIX_TIMES,
        ..listed
    };
    is_told(alloc, &six, &Some(wanted))
}

/// Returns whether a missing duration is reported, and too few samples in chunks are reported before it.
fn are_told_of_six(alloc: Global) -> bool {
    let few = Listed {
        chunks: FEW,
        ..worked()
    };
    is_told_of_six(
        alloc,
        worked(),
        Disagreement::Durations { count: 7, timed: 6 },
    ) && is_told_of_six(alloc, few, Disagreement::Chunks { count: 7, held: 4 })
}

/// Returns whether tables with these offsets of 64 bits disagree as `wanted`, or agree if that is `None`.
fn is_told_of_offsets(
    alloc: Global,
    long_offsets: &'static [u64],
    wanted: &Option<Disagreement>,
) -> bool {
    let listed = Listed {
        long_offsets,
        ..worked()
    };
    is_told(alloc, &listed, wanted)
}

/// The disagreement of the chunk offset `PAST`.
const DOES_NOT_FIT: Option<Disagreement> = Some(Disagreement::Offset {
    offset: PAST,
    bytes: 311,
});

/// Returns whether the chunk offset `LAST` is accepted, and `PAST` is reported.
fn are_told_of_offsets(alloc: Global) -> bool {
    is_told_of_offsets(alloc, &[LAST; 5], &None)
        && is_told_of_offsets(alloc, &[PAST; 5], &DOES_NOT_FIT)
}

/// Sync samples, of which the second is not above the first.
const EQUAL_SYNCS: Option<&[u32]> = Some(&[4, 4]);

/// Returns whether `listed`, with sync samples that do not increase, disagrees as `wanted`.
fn is_told_of_equal_syncs(alloc: Global, listed: Listed, wanted: Disagreement) -> bool {
    let equal = Listed {
        syncs: EQUAL_SYNCS,
        ..listed
    };
    is_told(alloc, &equal, &Some(wanted))
}

/// Returns whether a wrong count of sizes is reported before sync samples, and a chunk offset after them.
fn are_told_in_order(alloc: Global) -> bool {
    let counted = Listed {
        sample_count: 8,
        ..worked()
    };
    let far = Listed {
        long_offsets: &[PAST; 5],
        ..worked()
    };
    let sizes = Disagreement::SampleSizes {
        count: 8,
        listed: 7,
    };
    is_told_of_equal_syncs(alloc, counted, sizes)
        && is_told_of_equal_syncs(alloc, far, Disagreement::SyncSamples { index: 1 })
}

#[test]
fn first_disagreement_is_told(rt: HostRuntime) {
    assert!(rt; are_told_in_order(rt.alloc()));
}

/// Returns whether each disagreement of counts is reported.
fn are_told_of_counts(alloc: Global) -> bool {
    is_told_of_sizes(alloc) && are_told_of_six(alloc)
}

/// Returns whether each disagreement inside a list is reported.
fn are_told_of_lists(alloc: Global) -> bool {
    are_told_of_chunks(alloc) && are_told_of_syncs(alloc) && are_told_of_offsets(alloc)
}

#[test]
fn each_disagreement_is_told(rt: HostRuntime) {
    assert!(rt; are_told_of_counts(rt.alloc()) && are_told_of_lists(rt.alloc()));
}
