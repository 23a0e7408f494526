//! The statuses that exported functions return.

ghost use Rattle.std.specs.Prelude.{◌≡◌};
ghost use Rattle.mp4_c_boxes.specs.Status.{status_of};

use mp4_frame::Error;

/// The call succeeded.
pub const OK: u32 = 0;
/// `Error::IoError`: the bytes end before everything that a box needs.
pub const END_OF_INPUT: u32 = 1;
/// `Error::InvalidData`: a check of the layout failed.
pub const INVALID_DATA: u32 = 2;
/// `Error::BoxNotFound`: a box lacks a child.
pub const BOX_NOT_FOUND: u32 = 3;
/// `Error::OutOfMemory`: memory was refused.
pub const OUT_OF_MEMORY: u32 = 12;
/// The caller's array is too short. No error has this number.
pub const NO_ROOM: u32 = 100;
/// No track has the track_ID. No error has this number or one of those below.
pub const NO_TRACK: u32 = 101;
/// `Disagreement::SampleSizes`: `stsz` lists a number of sizes that differs from its number of samples.
pub const SAMPLE_SIZES: u32 = 110;
/// `Disagreement::FirstChunk`: the first entry of `stsc` doesn't begin at chunk 1.
pub const FIRST_CHUNK: u32 = 111;
/// `Disagreement::ChunkOrder`: an entry of `stsc` begins no later than the one before it.
pub const CHUNK_ORDER: u32 = 112;
/// `Disagreement::ChunkCount`: there are 2^32 chunks or more. `FragmentFault::Runs`: a fragment has 2^32 runs or more.
pub const CHUNK_COUNT: u32 = 113;
/// `Disagreement::Chunks`: the chunks hold fewer samples than `stsz` counts.
pub const CHUNKS: u32 = 114;
/// `Disagreement::Durations`: `stts` has a duration for fewer samples than `stsz` counts. `FragmentFault::Time`: a
/// sample of a fragment ends past the time 2^64 - 1.
pub const DURATIONS: u32 = 115;
/// `Disagreement::SyncSamples`: an entry of `stss` is not above the one before it, or the first is 0.
pub const SYNC_SAMPLES: u32 = 116;
/// `Disagreement::Offset`: a chunk begins at an offset from which the bytes of all samples would end past 2^64 - 1.
/// `FragmentFault::Offset`: a sample of a fragment begins before the file or ends past 2^64 - 1. `BoxError::NoBase`:
/// the offsets of a fragment count from a position that isn't known.
pub const OFFSET: u32 = 117;

/// Returns the status of `error`: its position among the variants of `Error`, counted from 1.
pub fn status_of(error: &Error) -> u32
    ensures { result ≡ status_of error.now }
{
    match error {
        Error::IoError => END_OF_INPUT,
        Error::InvalidData(_) => INVALID_DATA,
        Error::BoxNotFound(_) => BOX_NOT_FOUND,
        Error::Box2NotFound(_, _) => 4,
        Error::TrakNotFound(_) => 5,
        Error::BoxInTrakNotFound(_, _) => 6,
        Error::BoxInTrafNotFound(_, _) => 7,
        Error::BoxInStblNotFound(_, _) => 8,
        Error::EntryInStblNotFound(_, _, _) => 9,
        Error::EntryInTrunNotFound(_, _, _) => 10,
        Error::UnsupportedBoxVersion(_, _) => 11,
        Error::OutOfMemory => OUT_OF_MEMORY,
    }
}
