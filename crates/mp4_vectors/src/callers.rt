//! Callers of `mp4_samples` and `mp4_movie`. The crate's CALLING.md and docs/SAMPLES.md quote them.

ghost use Rattle.std.specs.Prelude.{OnOk};
ghost use Rattle.mp4_samples.specs.Samples.{AreConsistent};

use mp4_movie::Movie;
use mp4_samples::{Disagreement, Sample, SampleIndex, SampleTables, Tables};
use std::alloc::Global;

/// Returns the total size of the sync samples in bytes, at most 2^64 - 1.
pub fn bytes_of_sync_samples(tables: Tables<'_>) -> Result<u64, Disagreement>
    ensures { OnOk result (AreConsistent tables.entry) }
{
    let tables = SampleTables::new(tables)?;
    let mut bytes: u64 = 0;
    for sample in tables.samples() {
        if sample.is_sync {
            bytes = bytes.saturating_add(u64::from(sample.size));
        }
    }
    Ok(bytes)
}

/// Returns the last sync sample that starts at or before `time`, which is in the timescale of the media.
pub fn key_frame(index: &SampleIndex<'_>, time: u64) -> Option<Sample> {
    let number = index.last_sync_at(time)?;
    index.sample(number)
}

/// Returns the bytes in `file` of the last sync sample that starts at or before `time`. Returns `None` if there is no
/// such sample, and an error if the file ends before the sample does.
pub fn key_frame_bytes<'a>(
    index: &SampleIndex<'_>,
    file: &'a [u8],
    time: u64,
) -> mp4_frame::Result<Option<&'a [u8]>> {
    match key_frame(index, time) {
        Some(sample) => Ok(Some(sample.bytes_of(file)?)),
        None => Ok(None),
    }
}

/// Returns the bytes of the key frame at `time` of the track with these `tables`. Returns `None` if there is none, if
/// the tables disagree, if the file ends before the sample does, or if memory is refused.
pub fn key_frame_in<'a>(
    alloc: Global,
    tables: Tables<'_>,
    file: &'a [u8],
    time: u64,
) -> Option<&'a [u8]> {
    let index = SampleTables::new(tables).ok()?.index(alloc).ok()?;
    key_frame_bytes(&index, file, time).ok()?
}

/// Returns the bytes of the key frame at `time` of the first track with this `track_id`. Returns `None` where
/// `key_frame_in` does, if there is no such track, and if the track has no sample tables that can be read.
pub fn key_frame_of_file(alloc: Global, file: &[u8], track_id: u32, time: u64) -> Option<&[u8]> {
    let mut movie = Movie::open(alloc, file).ok()?;
    let number = movie.number_of(alloc, track_id).ok()??;
    let boxes = movie.samples(alloc, number).ok()??;
    key_frame_in(alloc, boxes.tables(), file, time)
}

/// Returns whether the first track of the file in memory has sample tables that agree.
pub fn first_track_agrees(alloc: Global, file: &[u8]) -> bool {
    let Ok(mut movie) = Movie::open(alloc, file) else {
        return false;
    };
    match movie.samples(alloc, 0) {
        Ok(Some(boxes)) => SampleTables::new(boxes.tables()).is_ok(),
        _ => false,
    }
}
