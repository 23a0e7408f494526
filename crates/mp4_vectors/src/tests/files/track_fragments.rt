//! Tests of the fragments of the tracks in a hand-written file.

use super::boxes::Row;
use super::fragments::are;
use super::track::{Reason, reason_of};
use mp4_frame::FourCC;
use mp4_movie::{BoxError, MoofFragments, Movie, TrackFragment};
use mp4_samples::FragmentSamples;
use std::alloc::Global;

/// A file of fragments. The movie of 280 bytes has two tracks with only a header, and their defaults: a duration of 10
/// and 7, a size of 4 and 5, and no sync samples in the second. The first `moof`, of 132 bytes, is at 280 and its data
/// at 420. It has two samples of track 1, starting at time 1000, and three of track 2, whose data follow those of track
/// 1. The second `moof`, of 108 bytes, is at 444 and its data at 560. It has a sample of track 2, whose offset counts
/// from the `moof`, and then a sample of track 1, whose data follow those of track 2.
const FILE: [u8; 569] = *b"\0\0\x01\x18moov\
    \0\0\0\x64trak\0\0\0\x5Ctkhd\0\0\0\x07\0\0\0\0\0\0\0\0\0\0\0\x01\
    \0\0\0\0\0\0\0\0\0\0\0\0\0\0\0\0\0\0\0\0\0\0\0\0\0\0\0\0\0\0\0\0\0\0\
    \0\0\0\0\0\0\0\0\0\0\0\0\0\0\0\0\0\0\0\0\0\0\0\0\0\0\0\0\0\0\0\0\0\0\
    \0\0\0\x64trak\0\0\0\x5Ctkhd\0\0\0\x07\0\0\0\0\0\0\0\0\0\0\0\x02\
    \0\0\0\0\0\0\0\0\0\0\0\0\0\0\0\0\0\0\0\0\0\0\0\0\0\0\0\0\0\0\0\0\0\0\
    \0\0\0\0\0\0\0\0\0\0\0\0\0\0\0\0\0\0\0\0\0\0\0\0\0\0\0\0\0\0\0\0\0\0\
    \0\0\0\x48mvex\
    \0\0\0\x20trex\0\0\0\0\0\0\0\x01\0\0\0\x01\0\0\0\x0A\0\0\0\x04\0\0\0\0\
    \0\0\0\x20trex\0\0\0\0\0\0\0\x02\0\0\0\x01\0\0\0\x07\0\0\0\x05\0\x01\0\0\
    \0\0\0\x84moof\0\0\0\x10mfhd\0\0\0\0\0\0\0\x01\
    \0\0\0\x44traf\0\0\0\x10tfhd\0\0\0\0\0\0\0\x01\0\0\0\x10tfdt\0\0\0\0\0\0\x03\xE8\
    \0\0\0\x1Ctrun\0\0\x02\x01\0\0\0\x02\0\0\0\x8C\0\0\0\x03\0\0\0\x06\
    \0\0\0\x28traf\0\0\0\x10tfhd\0\0\0\0\0\0\0\x02\0\0\0\x10trun\0\0\0\0\0\0\0\x03\
    \0\0\0\x20mdatabcdefghijklmnopqrstuvwx\
    \0\0\0\x6Cmoof\0\0\0\x10mfhd\0\0\0\0\0\0\0\x02\
    \0\0\0\x2Ctraf\0\0\0\x10tfhd\0\x02\0\0\0\0\0\x02\0\0\0\x14trun\0\0\0\x01\0\0\0\x01\0\0\0\x74\
    \0\0\0\x28traf\0\0\0\x10tfhd\0\0\0\0\0\0\0\x01\0\0\0\x10trun\0\0\0\0\0\0\0\x01\
    \0\0\0\x11mdatabcdefghi";

/// The samples of track 1 in each of its two fragments.
const TRACK_1: [&[Row]; 2] = [
    &[
        (420, 3, 1000, 10, 0, true, 1, 1),
        (423, 6, 1010, 10, 0, true, 1, 1),
    ],
    &[(565, 4, 1020, 10, 0, true, 1, 1)],
];

/// The samples of track 2 in each of its two fragments.
const TRACK_2: [&[Row]; 2] = [
    &[
        (429, 5, 0, 7, 0, false, 1, 1),
        (434, 5, 7, 7, 0, false, 1, 1),
        (439, 5, 14, 7, 0, false, 1, 1),
    ],
    &[(560, 5, 21, 7, 0, false, 1, 1)],
];

/// Returns the time at which the samples of the fragment with the index `number` end. Returns `None` if they are not
/// `rows`. The samples of the track before it end at `time`.
fn end_of(
    fragments: &[Result<TrackFragment, BoxError>],
    number: usize,
    rows: &[Row],
    time: u64,
) -> Option<u64> {
    let Some(Ok(fragment)) = fragments.get(number) else {
        return None;
    };
    let mut samples: FragmentSamples<'_> = fragment.fragment(time).samples();
    if are(&mut samples, rows) {
        Some(samples.time())
    } else {
        None
    }
}

/// Returns whether the `traf` with the index `places[0]` in the first `moof`, and the one with the index `places[1]` in
/// the second, are fragments with the samples `rows`. The first starts at time 0, unless it says otherwise.
fn are_two(moofs: &[MoofFragments], places: [usize; 2], rows: &[&[Row]; 2]) -> bool {
    let [first, second] = moofs else {
        return false;
    };
    match end_of(&first.fragments, places[0], rows[0], 0) {
        Some(time) => end_of(&second.fragments, places[1], rows[1], time).is_some(),
        None => false,
    }
}

/// Returns the fragments of `file`.
fn fragments_of(alloc: Global, file: &[u8]) -> Option<Vec<MoofFragments>> {
    let mut movie = Movie::open(alloc, file).ok()?;
    movie.fragments(alloc).ok()
}

/// Returns whether `file` has the fragments with the samples `rows` at these places.
fn gives(alloc: Global, file: &[u8], places: [usize; 2], rows: &[&[Row]; 2]) -> bool {
    match fragments_of(alloc, file) {
        Some(moofs) => moofs.len() == 2 && are_two(&moofs, places, rows),
        None => false,
    }
}

#[test]
fn fragments_of_the_first_track(rt: HostRuntime) {
    assert!(rt; gives(rt.alloc(), &FILE, [0, 1], &TRACK_1));
}

#[test]
fn fragments_of_the_second_track(rt: HostRuntime) {
    assert!(rt; gives(rt.alloc(), &FILE, [1, 0], &TRACK_2));
}

/// Returns the reason for which a `traf` is no fragment, if there is one.
fn reason_in(answer: &Result<TrackFragment, BoxError>) -> Option<Reason> {
    match answer {
        Ok(_) => None,
        Err(fault) => Some(reason_of(fault)),
    }
}

/// Returns whether `moof` has two `traf`s, which are no fragments for these reasons.
fn has_reasons(moof: &MoofFragments, reasons: [Option<Reason>; 2]) -> bool {
    match moof.fragments.as_slice() {
        [first, second] => reason_in(first) == reasons[0] && reason_in(second) == reasons[1],
        _ => false,
    }
}

/// Returns whether `file` has two `moof`s, whose `traf`s are no fragments for these reasons.
fn fail(alloc: Global, file: &[u8], reasons: [[Option<Reason>; 2]; 2]) -> bool {
    match fragments_of(alloc, file) {
        Some(moofs) => match moofs.as_slice() {
            [first, second] => has_reasons(first, reasons[0]) && has_reasons(second, reasons[1]),
            _ => false,
        },
        None => false,
    }
}

/// Returns whether the fragments of the first `moof` of `FILE`, without its movie, have no defaults.
fn are_without_movie(alloc: Global) -> bool {
    match fragments_of(alloc, &FILE[280..444]) {
        Some(moofs) => match moofs.as_slice() {
            [moof] => has_reasons(
                moof,
                [Some(Reason::NoDefaults(1)), Some(Reason::NoDefaults(2))],
            ),
            _ => false,
        },
        None => false,
    }
}

#[test]
fn fragments_without_a_movie(rt: HostRuntime) {
    assert!(rt; are_without_movie(rt.alloc()));
}

/// Returns whether, in the file without defaults of track 2, its fragments are reported, and the data of track 1 in
/// the second `moof` as having no base.
fn are_without_defaults(alloc: Global) -> bool {
    let mut file = FILE;
    file[263] = 9;
    fail(
        alloc,
        &file,
        [
            [None, Some(Reason::NoDefaults(2))],
            [Some(Reason::NoDefaults(2)), Some(Reason::NoBase(444, 1))],
        ],
    )
}

/// The defaults of track 2 are changed into those of a track 9, so track 2 has none. In the second `moof` the data of
/// track 1 begin where those of track 2 end, and that offset is then unknown.
#[test]
fn fragments_without_defaults(rt: HostRuntime) {
    assert!(rt; are_without_defaults(rt.alloc()));
}

/// Returns whether a `trun` with a list of durations that it has no bytes for is reported, and the fragments before and
/// after it are found.
fn are_around_a_fault(alloc: Global) -> bool {
    let mut file = FILE;
    file[406] = 1;
    let reason = Some(Reason::Invalid(FourCC { value: *b"trun" }, 396));
    fail(alloc, &file, [[None, reason], [None, None]]) && gives(alloc, &file, [0, 1], &TRACK_1)
}

/// The second `traf` of the first `moof` can't be read.
#[test]
fn fragments_around_a_fault(rt: HostRuntime) {
    assert!(rt; are_around_a_fault(rt.alloc()));
}

/// The sample of track 2 in the second `moof` with the defaults of track 1, after samples that end at 30.
const WITH_OTHER_DEFAULTS: &[Row] = &[(560, 4, 30, 10, 0, true, 1, 1)];

/// Returns whether the first `trex` counts if both are of track 2.
fn first_defaults_count(alloc: Global) -> bool {
    let mut file = FILE;
    file[231] = 2;
    match fragments_of(alloc, &file) {
        Some(moofs) => match moofs.as_slice() {
            [first, second] => {
                has_reasons(
                    first,
                    [Some(Reason::NoDefaults(1)), Some(Reason::NoBase(280, 2))],
                ) && end_of(&second.fragments, 0, WITH_OTHER_DEFAULTS, 30).is_some()
            }
            _ => false,
        },
        None => false,
    }
}

#[test]
fn defaults_of_one_track_twice(rt: HostRuntime) {
    assert!(rt; first_defaults_count(rt.alloc()));
}
