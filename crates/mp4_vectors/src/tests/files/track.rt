//! Tests of the tracks in a hand-written file.

use crate::callers::{first_track_agrees, key_frame_of_file};
use mp4_frame::{Error, FourCC};
use mp4_movie::{BoxError, ChunkBox, Movie, MovieError, SampleBoxes, TrackInfo};
use mp4_samples::{SampleTables, Tables};
use std::alloc::Global;

/// A file with a movie of 429 bytes and the bytes of its samples. The movie has two tracks. The track of track_ID 5 has
/// no media. The track of track_ID 7 has 321 bytes: its header, and its media of 221 bytes, with a timescale of 1000
/// and a sample table of 140 bytes. The sample table has three samples of 3, 4 and 5 bytes, two in the first chunk and
/// one in the second. The first and the last sample are sync samples.
pub const FILE: [u8; 449] = *b"\0\0\x01\xADmoov\0\0\0\x64trak\
    \0\0\0\x5Ctkhd\0\0\0\x07\0\0\0\0\0\0\0\0\0\0\0\x05\
    \0\0\0\0\0\0\0\0\0\0\0\0\0\0\0\0\0\0\0\0\0\0\0\0\0\0\0\0\0\0\0\0\0\0\
    \0\0\0\0\0\0\0\0\0\0\0\0\0\0\0\0\0\0\0\0\0\0\0\0\0\0\0\0\0\0\0\0\0\0\
    \0\0\x01\x41trak\
    \0\0\0\x5Ctkhd\0\0\0\x07\0\0\0\0\0\0\0\0\0\0\0\x07\
    \0\0\0\0\0\0\0\0\0\0\0\0\0\0\0\0\0\0\0\0\0\0\0\0\0\0\0\0\0\0\0\0\0\0\
    \0\0\0\0\0\0\0\0\0\0\0\0\0\0\0\0\0\0\0\0\0\0\0\0\0\0\0\0\0\0\0\0\0\0\
    \0\0\0\xDDmdia\
    \0\0\0\x20mdhd\0\0\0\0\0\0\0\0\0\0\0\0\0\0\x03\xE8\0\0\0\x1E\x55\xC4\0\0\
    \0\0\0\x21hdlr\0\0\0\0\0\0\0\0vide\0\0\0\0\0\0\0\0\0\0\0\0\0\
    \0\0\0\x94minf\0\0\0\x8Cstbl\
    \0\0\0\x20stsz\0\0\0\0\0\0\0\0\0\0\0\x03\0\0\0\x03\0\0\0\x04\0\0\0\x05\
    \0\0\0\x1Cstsc\0\0\0\0\0\0\0\x01\0\0\0\x01\0\0\0\x02\0\0\0\x01\
    \0\0\0\x18stco\0\0\0\0\0\0\0\x02\0\0\x01\xB5\0\0\x01\xBC\
    \0\0\0\x18stts\0\0\0\0\0\0\0\x01\0\0\0\x03\0\0\0\x0A\
    \0\0\0\x18stss\0\0\0\0\0\0\0\x02\0\0\0\x01\0\0\0\x03\
    \0\0\0\x14mdatabcdefghijkl";

/// Returns whether the third sample of `tables` is a sync sample at offset 444.
fn has_the_third_sample(tables: Tables<'_>) -> bool {
    SampleTables::new(tables).is_ok_and(|tables| {
        tables
            .sample(2)
            .is_some_and(|sample| sample.offset == 444 && sample.is_sync)
    })
}

/// Returns whether the handler of `info` is that of video.
fn is_video(info: &TrackInfo) -> bool {
    match &info.handler {
        Ok(handler) => *handler == FourCC { value: *b"vide" },
        Err(_) => false,
    }
}

/// Returns whether `info` has the headers of the second track of `FILE`.
fn has_its_headers(info: &TrackInfo) -> bool {
    info.number == 1
        && info.position == 108
        && matches!(info.track_id, Ok(7))
        && matches!(info.timescale, Ok(1000))
        && is_video(info)
}

/// Returns whether `boxes` are the sample tables of the second track of `FILE`.
fn are_its_tables(boxes: &SampleBoxes) -> bool {
    matches!(boxes.chunk_offsets, ChunkBox::Stco(_))
        && boxes.ctts.is_none()
        && boxes.time_end() == 30
        && has_the_third_sample(boxes.tables())
}

/// Returns whether track `number` of `movie` has the sample tables of the second track of `FILE`.
fn has_its_tables(alloc: Global, movie: &mut Movie<&[u8]>, number: usize) -> bool {
    match movie.samples(alloc, number) {
        Ok(Some(boxes)) => are_its_tables(&boxes),
        _ => false,
    }
}

/// Returns whether the second of the tracks of `movie` has the headers of the second track of `FILE`.
fn lists_its_headers(alloc: Global, movie: &mut Movie<&[u8]>) -> bool {
    match movie.tracks(alloc) {
        Ok(tracks) => match tracks.as_slice() {
            [_, second] => has_its_headers(second),
            _ => false,
        },
        Err(_) => false,
    }
}

/// Returns whether the first track with this track_ID is the second track of `FILE`.
fn finds(alloc: Global, file: &[u8], track_id: u32) -> bool {
    let Ok(mut movie) = Movie::open(alloc, file) else {
        return false;
    };
    matches!(movie.number_of(alloc, track_id), Ok(Some(1)))
        && lists_its_headers(alloc, &mut movie)
        && has_its_tables(alloc, &mut movie, 1)
}

/// The reason for which a track has no tables or a `traf` is no fragment, without the text of a fault.
#[derive(Clone, Copy, PartialEq, Eq)]
pub enum Reason {
    /// No track has the track_ID.
    NoTrack,
    /// A box of this code is missing.
    Missing(FourCC),
    /// The data of a box of this code at this position are invalid.
    Invalid(FourCC, u64),
    /// A fragment of the track with this track_ID has no defaults.
    NoDefaults(u32),
    /// A fragment in the `moof` at this position, of the track with this track_ID, follows data whose end is unknown.
    NoBase(u64, u32),
    /// Any other reason.
    Other,
}

/// Returns the reason that `fault` has.
pub fn reason_of(fault: &BoxError) -> Reason {
    match fault {
        BoxError::Missing { code } => Reason::Missing(*code),
        BoxError::Fault {
            code,
            position,
            error: Error::InvalidData(_),
        } => Reason::Invalid(*code, *position),
        BoxError::Fault { .. } => Reason::Other,
        BoxError::NoDefaults { track_id } => Reason::NoDefaults(*track_id),
        BoxError::NoBase { position, track_id } => Reason::NoBase(*position, *track_id),
    }
}

/// Returns the reason for which track `number` of `movie` has no tables, if there is one.
fn fault_at(alloc: Global, movie: &mut Movie<&[u8]>, number: usize) -> Option<Reason> {
    match movie.samples(alloc, number) {
        Ok(_) => None,
        Err(MovieError::Box(fault)) => Some(reason_of(&fault)),
        Err(MovieError::Io(_)) => Some(Reason::Other),
    }
}

/// Returns the reason for which the track of this track_ID has no tables, if there is one.
pub fn fault_of(alloc: Global, file: &[u8], track_id: u32) -> Option<Reason> {
    let Ok(mut movie) = Movie::open(alloc, file) else {
        return Some(Reason::Other);
    };
    match movie.number_of(alloc, track_id) {
        Ok(Some(number)) => fault_at(alloc, &mut movie, number),
        Ok(None) => Some(Reason::NoTrack),
        Err(_) => Some(Reason::Other),
    }
}

#[test]
fn track_is_found_by_its_id(rt: HostRuntime) {
    assert!(rt; finds(rt.alloc(), &FILE, 7));
}

/// Returns whether the tables of track `number` of `FILE` end at `time`.
fn end_at(alloc: Global, number: usize, time: u64) -> bool {
    let Ok(mut movie) = Movie::open(alloc, FILE.as_slice()) else {
        return false;
    };
    matches!(movie.time_end(alloc, number), Ok(end) if end == time)
}

/// Returns whether the end of the tables of the first track of `FILE` is unknown, since it has no `mdia`.
fn has_no_end(alloc: Global) -> bool {
    let Ok(mut movie) = Movie::open(alloc, FILE.as_slice()) else {
        return false;
    };
    match movie.time_end(alloc, 0) {
        Err(MovieError::Box(error)) => Some(reason_of(&error)) == missing(b"mdia"),
        _ => false,
    }
}

/// The second track has three samples of 10 units.
#[test]
fn tables_of_a_track_end(rt: HostRuntime) {
    assert!(rt; end_at(rt.alloc(), 1, 30) && has_no_end(rt.alloc()));
}

/// Returns whether the key frame of track 7 at `time` has the bytes `wanted`.
fn is_shown(alloc: Global, time: u64, wanted: &[u8]) -> bool {
    key_frame_of_file(alloc, &FILE, 7, time) == Some(wanted)
}

/// Returns whether the two key frames of track 7 are found at their times, and none of a track that the file does not
/// have.
fn are_shown(alloc: Global) -> bool {
    is_shown(alloc, 19, b"abc")
        && is_shown(alloc, 20, b"hijkl")
        && key_frame_of_file(alloc, &FILE, 6, 20).is_none()
}

/// The first sample is the key frame up to time 19, and the third starting at time 20.
#[test]
fn key_frame_of_a_file(rt: HostRuntime) {
    assert!(rt; are_shown(rt.alloc()));
}

/// Returns the reason `Missing` with this code.
pub fn missing(code: &[u8; 4]) -> Option<Reason> {
    Some(Reason::Missing(FourCC { value: *code }))
}

/// Returns whether a track_ID that no track has, a track without media, and media data without a movie are reported.
fn are_not_found(alloc: Global) -> bool {
    fault_of(alloc, &FILE, 6) == Some(Reason::NoTrack)
        && fault_of(alloc, &FILE, 5) == missing(b"mdia")
        && fault_of(alloc, &FILE[429..], 7) == Some(Reason::NoTrack)
}

#[test]
fn track_is_not_found(rt: HostRuntime) {
    assert!(rt; are_not_found(rt.alloc()));
}

/// The reason of a fault in the `stsz` at offset 297.
const INVALID_SIZES: Option<Reason> = Some(Reason::Invalid(FourCC { value: *b"stsz" }, 297));

/// Returns whether an `stsz` that counts more sizes than it has bytes for is reported as invalid, and as missing if its
/// code is changed.
fn is_told(alloc: Global) -> bool {
    let mut file = FILE;
    file[316] = 9;
    let is_invalid = fault_of(alloc, &file, 7) == INVALID_SIZES;
    file[301] = b'x';
    is_invalid && fault_of(alloc, &file, 7) == missing(b"stsz")
}

#[test]
fn fault_has_a_position(rt: HostRuntime) {
    assert!(rt; is_told(rt.alloc()));
}

/// Returns whether `FILE` after an empty `moov` has no track, and `FILE` before one has its tracks.
fn only_the_first_counts(alloc: Global) -> bool {
    let mut after = [0; 457];
    after[..8].copy_from_slice(b"\0\0\0\x08moov");
    after[8..].copy_from_slice(&FILE);
    let mut before = [0; 457];
    before[..449].copy_from_slice(&FILE);
    before[449..].copy_from_slice(b"\0\0\0\x08moov");
    fault_of(alloc, &after, 7) == Some(Reason::NoTrack) && finds(alloc, &before, 7)
}

/// A file has one `moov` (ISO/IEC 14496-12, 8.2.1).
#[test]
fn track_in_a_second_moov(rt: HostRuntime) {
    assert!(rt; only_the_first_counts(rt.alloc()));
}

/// Returns whether track 1 of `file` has no samples outside fragments.
fn has_no_tables(alloc: Global, file: &[u8]) -> bool {
    let Ok(mut movie) = Movie::open(alloc, file) else {
        return false;
    };
    matches!(movie.samples(alloc, 1), Ok(None))
}

/// Returns whether the second track has no samples without `stsz` and `stco`, and without `stsz` but with an `stco` of
/// no chunk.
fn are_without_samples(alloc: Global) -> bool {
    let mut file = FILE;
    file[301] = b'x';
    file[372] = 0;
    let is_empty = has_no_tables(alloc, &file);
    file[361] = b'x';
    is_empty && has_no_tables(alloc, &file)
}

#[test]
fn track_without_sizes_and_chunks(rt: HostRuntime) {
    assert!(rt; are_without_samples(rt.alloc()));
}

/// Returns whether the `tkhd` of the second track is invalid.
fn has_no_id(info: &TrackInfo) -> bool {
    match &info.track_id {
        Ok(_) => false,
        Err(fault) => reason_of(fault) == Reason::Invalid(FourCC { value: *b"tkhd" }, 116),
    }
}

/// Returns whether the second track that `movie` lists has an invalid `tkhd`, and its other headers.
fn lists_a_fault(alloc: Global, movie: &mut Movie<&[u8]>) -> bool {
    match movie.tracks(alloc) {
        Ok(tracks) => match tracks.as_slice() {
            [_, second] => matches!(second.timescale, Ok(1000)) && has_no_id(second),
            _ => false,
        },
        Err(_) => false,
    }
}

/// Returns whether the second track is listed if its `tkhd` has version 2, and has samples by its number only.
fn is_listed_without_id(alloc: Global) -> bool {
    let mut file = FILE;
    file[124] = 2;
    let Ok(mut movie) = Movie::open(alloc, file.as_slice()) else {
        return false;
    };
    matches!(movie.number_of(alloc, 7), Ok(None))
        && lists_a_fault(alloc, &mut movie)
        && has_its_tables(alloc, &mut movie, 1)
}

#[test]
fn track_with_an_unknown_header(rt: HostRuntime) {
    assert!(rt; is_listed_without_id(rt.alloc()));
}

/// Returns whether the second track is found by its track_ID if the `tkhd` of the first has version 2.
fn is_found_after_a_fault(alloc: Global) -> bool {
    let mut file = FILE;
    file[24] = 2;
    finds(alloc, &file, 7)
}

#[test]
fn track_after_an_unknown_header(rt: HostRuntime) {
    assert!(rt; is_found_after_a_fault(rt.alloc()));
}

/// Returns whether `info` has the track_ID 7.
fn is_seven(info: &TrackInfo) -> bool {
    matches!(info.track_id, Ok(7))
}

/// Returns whether `movie` lists two tracks of track_ID 7.
fn lists_two(alloc: Global, movie: &mut Movie<&[u8]>) -> bool {
    match movie.tracks(alloc) {
        Ok(tracks) => match tracks.as_slice() {
            [first, second] => is_seven(first) && is_seven(second),
            _ => false,
        },
        Err(_) => false,
    }
}

/// Returns whether both tracks with the track_ID 7 are listed, and the first is found by this track_ID.
fn first_is_found(alloc: Global) -> bool {
    let mut file = FILE;
    file[39] = 7;
    let Ok(mut movie) = Movie::open(alloc, file.as_slice()) else {
        return false;
    };
    matches!(movie.number_of(alloc, 7), Ok(Some(0)))
        && lists_two(alloc, &mut movie)
        && has_its_tables(alloc, &mut movie, 1)
}

#[test]
fn tracks_of_one_id(rt: HostRuntime) {
    assert!(rt; first_is_found(rt.alloc()));
}

/// Returns whether the chunk offsets of the second track of `file` are those of a `co64`.
fn has_long_offsets(alloc: Global, file: &[u8]) -> bool {
    let Ok(mut movie) = Movie::open(alloc, file) else {
        return false;
    };
    match movie.samples(alloc, 1) {
        Ok(Some(boxes)) => matches!(boxes.chunk_offsets, ChunkBox::Co64(_)),
        _ => false,
    }
}

/// Returns whether the `stco` counts if the `stss` is changed into a `co64` of one chunk, and the `co64` counts without
/// the `stco`.
fn stco_is_first(alloc: Global) -> bool {
    let mut file = FILE;
    file[409..413].copy_from_slice(b"co64");
    file[420] = 1;
    let has_stco = finds(alloc, &file, 7);
    file[361] = b'x';
    has_stco && has_long_offsets(alloc, &file)
}

#[test]
fn chunk_offsets_of_both_lengths(rt: HostRuntime) {
    assert!(rt; stco_is_first(rt.alloc()));
}

/// Returns whether the first track of `FILE` has no tables that agree, and the track after it has, if the first is
/// changed into another box.
fn agree(alloc: Global) -> bool {
    let mut file = FILE;
    file[12] = b'x';
    first_track_agrees(alloc, &file) && !first_track_agrees(alloc, &FILE)
}

#[test]
fn tables_of_the_first_track(rt: HostRuntime) {
    assert!(rt; agree(rt.alloc()));
}
