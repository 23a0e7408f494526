//! Tests of edit lists with presentation times that were computed by hand from ISO/IEC 14496-12, 8.6.6.

use super::boxes::append;
use crate::edit_callers::{edits_of, media_time_after, presented_at};
use mp4_flat::{MdhdBox, MvhdBox};
use mp4_samples::{EditFault, Edits, Presentation, Sample};
use mp4_tables::{ElstBox, ElstEntry};
use std::alloc::Global;

/// An edit, by its duration, media time and rate.
macro_rules! edit {
    ($segment_duration:expr, $media_time:expr, $media_rate:expr) => {
        ElstEntry {
            segment_duration: $segment_duration,
            media_time: $media_time,
            media_rate: $media_rate,
            media_rate_fraction: 0,
        }
    };
}

/// An edit list and its expected presentation.
#[derive(Clone, Copy)]
struct Case {
    version: u8,
    edits: &'static [ElstEntry],
    movie_timescale: u32,
    media_timescale: u32,
    /// Media times. Each has the edits that present it, and for each edit the tick at which it does.
    presented: &'static [(u64, &'static [(usize, u128)])],
    /// Ticks. Each has the edit that covers that tick, and the media time that is presented, in ticks.
    shown: &'static [(u128, Option<usize>, Option<u128>)],
}

/// Sets `elst` to this version and these edits. Returns whether there is memory for them.
fn fill(elst: &mut ElstBox, version: u8, edits: &[ElstEntry]) -> bool {
    elst.version = version;
    append(&mut elst.entries, edits)
}

/// Returns whether the edits in `rows`, and no others, present the media time `time`, each at its tick.
fn is_presented(edits: &Edits<'_>, time: u64, rows: &[(usize, u128)]) -> bool {
    let mut first = 0;
    for (edit, ticks) in rows {
        let want = Presentation {
            edit: *edit,
            ticks: *ticks,
        };
        if edits.next_presentation(time, first) != Some(want) {
            return false;
        }
        first = edit.saturating_add(1);
    }
    edits.next_presentation(time, first).is_none()
}

/// Returns whether `edits` presents the media times, and shows the ticks, that `case` expects.
fn are(edits: &Edits<'_>, case: &Case) -> bool {
    for (time, rows) in case.presented {
        if !is_presented(edits, *time, rows) {
            return false;
        }
    }
    for (ticks, edit, time) in case.shown {
        if edits.edit_at(*ticks) != *edit || edits.media_time_at(*ticks) != *time {
            return false;
        }
    }
    true
}

/// Returns whether `elst` has no fault and has the edits and the presentation that `case` expects.
fn is_list(elst: &ElstBox, case: &Case) -> bool {
    match Edits::new(Some(elst), case.movie_timescale, case.media_timescale) {
        Ok(edits) => edits.len() == case.edits.len().max(1) && are(&edits, case),
        Err(_) => false,
    }
}

/// Returns whether the edit list of `case` has no fault and the expected presentation.
fn is(alloc: Global, case: &Case) -> bool {
    let mut elst = ElstBox::default_in(alloc);
    fill(&mut elst, case.version, case.edits) && is_list(&elst, case)
}

/// An empty edit of half a second, and two seconds of media starting at media time 2048, after two frames of 1024. A
/// second has 600 * 48000 = 28800000 ticks.
const DELAYED: Case = Case {
    version: 0,
    edits: &[edit!(300, 0xFFFF_FFFF, 1), edit!(1200, 2048, 1)],
    movie_timescale: 600,
    media_timescale: 48000,
    presented: &[
        (2047, &[]),
        (2048, &[(1, 14_400_000)]),
        (50_048, &[(1, 43_200_000)]),
        (98_047, &[(1, 71_999_400)]),
        (98_048, &[]),
    ],
    shown: &[
        (14_399_999, Some(0), None),
        (14_400_000, Some(1), Some(1_228_800)),
        (71_999_999, Some(1), Some(58_828_799)),
        (72_000_000, None, None),
    ],
};

/// Half a second starting at media time 90000, a quarter of a second that holds media time 134999, and a second
/// starting at media time 45000. A second has 1000 * 90000 = 90000000 ticks.
const STILL: Case = Case {
    version: 1,
    edits: &[
        edit!(500, 90_000, 1),
        edit!(250, 134_999, 0),
        edit!(1000, 45_000, 1),
    ],
    movie_timescale: 1000,
    media_timescale: 90_000,
    presented: &[
        (44_999, &[]),
        (45_000, &[(2, 67_500_000)]),
        (90_000, &[(0, 0), (2, 112_500_000)]),
        (
            134_999,
            &[(0, 44_999_000), (1, 45_000_000), (2, 157_499_000)],
        ),
        (135_000, &[]),
    ],
    shown: &[
        (45_000_000, Some(1), Some(134_999_000)),
        (67_499_999, Some(1), Some(134_999_000)),
        (67_500_000, Some(2), Some(45_000_000)),
    ],
};

/// Edits that have no duration. The last one plays without end, and the others present nothing.
const ENDLESS: Case = Case {
    version: 0,
    edits: &[edit!(0, 7, 1), edit!(0, 9, 0), edit!(0, 1024, 1)],
    movie_timescale: 10,
    media_timescale: 1000,
    presented: &[(9, &[]), (5024, &[(2, 40_000)])],
    shown: &[(40_000, Some(2), Some(50_240))],
};

/// A second of media, and then a last edit that is empty and has no duration. A second has 10 * 1000 = 10000 ticks.
const EMPTY_END: Case = Case {
    version: 0,
    edits: &[edit!(10, 0, 1), edit!(0, 0xFFFF_FFFF, 1)],
    movie_timescale: 10,
    media_timescale: 1000,
    presented: &[(999, &[(0, 9_990)]), (1000, &[])],
    shown: &[(9_999, Some(0), Some(9_999)), (10_000, None, None)],
};

/// A second of media, and then a last edit that holds media time 500 and has no duration.
const DWELL_END: Case = Case {
    version: 0,
    edits: &[edit!(10, 0, 1), edit!(0, 500, 0)],
    movie_timescale: 10,
    media_timescale: 1000,
    presented: &[(500, &[(0, 5_000)])],
    shown: &[(9_999, Some(0), Some(9_999)), (10_000, None, None)],
};

/// An edit list without entries: the media is presented unchanged.
const NO_EDITS: Case = Case {
    version: 0,
    edits: &[],
    movie_timescale: 600,
    media_timescale: 48000,
    presented: &[
        (1001, &[(0, 600_600)]),
        (u64::MAX, &[(0, 11_068_046_444_225_730_969_000)]),
    ],
    shown: &[
        (600_599, Some(0), Some(600_599)),
        (600 << 64, Some(0), None),
        (u128::MAX, Some(0), None),
    ],
};

/// The largest numbers that fit the fields. The last media time is presented at tick 2^63 (2^32 - 1).
const LATEST: Case = Case {
    version: 1,
    edits: &[edit!(u64::MAX, u64::MAX >> 1, 1)],
    movie_timescale: u32::MAX,
    media_timescale: u32::MAX,
    presented: &[(u64::MAX, &[(0, 0x8000_0000_0000_0000 * 0xFFFF_FFFF)])],
    shown: &[
        (
            0x8000_0000_0000_0000 * 0xFFFF_FFFF,
            Some(0),
            Some(0xFFFF_FFFF_FFFF_FFFF * 0xFFFF_FFFF),
        ),
        (0xFFFF_FFFF_FFFF_FFFF * 0xFFFF_FFFF, None, None),
    ],
};

/// Returns whether ticks, of which a second has 28800000, are converted to units of the media and of the movie.
fn are_units() -> bool {
    match Edits::new(None, 600, 48000) {
        Ok(edits) => {
            edits.ticks_per_second() == 28_800_000
                && edits.media_units(58_828_799) == 98_047
                && edits.movie_units(71_999_999) == 1499
        }
        Err(_) => false,
    }
}

#[test]
fn an_empty_edit_and_a_media_time(rt: HostRuntime) {
    assert!(rt; is(rt.alloc(), &DELAYED) && are_units());
}

#[test]
fn three_edits_with_a_dwell(rt: HostRuntime) {
    assert!(rt; is(rt.alloc(), &STILL));
}

/// Returns whether the media is presented unchanged if there is no `elst`.
fn are_without_a_box() -> bool {
    match Edits::new(None, 600, 48000) {
        Ok(edits) => are(&edits, &NO_EDITS),
        Err(_) => false,
    }
}

/// Returns whether the largest times of the media and of the movie are converted to ticks.
fn are_latest() -> bool {
    match Edits::new(None, u32::MAX, u32::MAX) {
        Ok(latest) => {
            latest.media_ticks(u64::MAX) == 0xFFFF_FFFF_FFFF_FFFF * 0xFFFF_FFFF
                && latest.movie_ticks(u64::MAX) == 0xFFFF_FFFF_FFFF_FFFF * 0xFFFF_FFFF
        }
        Err(_) => false,
    }
}

/// Returns whether the edit lists without durations, without entries and with the largest numbers are as expected.
fn are_three(alloc: Global) -> bool {
    is(alloc, &ENDLESS) && is(alloc, &NO_EDITS) && is(alloc, &LATEST)
}

#[test]
fn without_a_duration_or_without_edits(rt: HostRuntime) {
    assert!(rt; are_three(rt.alloc()) && are_without_a_box() && are_latest());
}

/// Returns whether a last edit without a duration ends at once if it is empty or holds one media time.
fn end_at_once(alloc: Global) -> bool {
    is(alloc, &EMPTY_END) && is(alloc, &DWELL_END)
}

#[test]
fn last_edits_that_do_not_play(rt: HostRuntime) {
    assert!(rt; end_at_once(rt.alloc()));
}

/// Returns whether an `elst` with this version and these edits has `fault`, or no fault if that is `None`.
fn is_told(alloc: Global, version: u8, edits: &[ElstEntry], fault: &Option<EditFault>) -> bool {
    let mut elst = ElstBox::default_in(alloc);
    fill(&mut elst, version, edits) && Edits::new(Some(&elst), 1, 1).err() == *fault
}

/// A rate of a half.
const HALF: ElstEntry = ElstEntry {
    segment_duration: 1,
    media_time: 0,
    media_rate: 0,
    media_rate_fraction: 0x8000,
};

/// Two media times. 0x80000000 is below -1 as a number of 32 bits, and a valid time as one of 64 bits.
const SHORT_TIMES: &[ElstEntry] = &[edit!(1, 0x7FFF_FFFF, 1), edit!(1, 0x8000_0000, 1)];

/// Three media times of 64 bits: -1, the largest number and the least number.
const LONG_TIMES: &[ElstEntry] = &[
    edit!(1, u64::MAX, 1),
    edit!(1, (1 << 63) - 1, 1),
    edit!(1, 1 << 63, 1),
];

/// Returns whether media times below -1 are faults, and others are not.
fn are_times_told(alloc: Global) -> bool {
    let short = EditFault::MediaTime {
        index: 1,
        media_time: 0x8000_0000,
    };
    let long = EditFault::MediaTime {
        index: 2,
        media_time: 1 << 63,
    };
    is_told(alloc, 0, SHORT_TIMES, &Some(short))
        && is_told(alloc, 1, SHORT_TIMES, &None)
        && is_told(alloc, 1, LONG_TIMES, &Some(long))
}

/// Returns whether rates other than 0 and 1 are faults.
fn are_rates_told(alloc: Global) -> bool {
    let double = EditFault::Rate {
        index: 1,
        rate: 2,
        fraction: 0,
    };
    let half = EditFault::Rate {
        index: 0,
        rate: 0,
        fraction: 0x8000,
    };
    is_told(alloc, 0, &[edit!(1, 0, 0), edit!(1, 0, 2)], &Some(double))
        && is_told(alloc, 0, &[HALF], &Some(half))
}

/// Returns whether durations whose sum exceeds 64 bits are a fault, and others are not.
fn are_durations_told(alloc: Global) -> bool {
    let past = EditFault::Durations { index: 1 };
    is_told(
        alloc,
        1,
        &[edit!(u64::MAX, 0, 1), edit!(1, 0, 1)],
        &Some(past),
    ) && is_told(
        alloc,
        1,
        &[edit!(u64::MAX - 1, 0, 1), edit!(1, 0, 1)],
        &None,
    )
}

/// Returns whether each fault of a time, a rate and a duration is reported.
fn are_told(alloc: Global) -> bool {
    are_times_told(alloc) && are_rates_told(alloc) && are_durations_told(alloc)
}

/// Returns whether timescales of 0 are faults, and the movie's is reported before the media's.
fn are_timescales_told() -> bool {
    Edits::new(None, 0, 0).err() == Some(EditFault::MovieTimescale)
        && Edits::new(None, 1, 0).err() == Some(EditFault::MediaTimescale)
}

#[test]
fn faults_of_edit_lists(rt: HostRuntime) {
    assert!(rt; are_told(rt.alloc()) && are_timescales_told());
}

/// Returns a sample that starts at `start_time` and is composed `rendering_offset` later.
fn sample(start_time: u64, rendering_offset: i64) -> Sample {
    Sample {
        offset: 0,
        size: 1,
        start_time,
        duration: 1024,
        rendering_offset,
        is_sync: true,
        sample_description_index: 1,
        chunk: 1,
    }
}

/// Returns whether composition times may be the least and the largest number of 64 bits, and none outside.
fn are_composed() -> bool {
    sample(5, -5).composition_time() == Some(0)
        && sample(5, -6).composition_time().is_none()
        && sample(u64::MAX, 0).composition_time() == Some(u64::MAX)
        && sample(u64::MAX, 1).composition_time().is_none()
}

#[test]
fn composition_times(rt: HostRuntime) {
    assert!(rt; are_composed());
}

/// Returns whether `edits` gives the times in milliseconds of the empty edit and of the media after it.
fn are_milliseconds(edits: &Edits<'_>) -> bool {
    presented_at(edits, &sample(1024, 2048)) == Some(521)
        && presented_at(edits, &sample(0, 1024)).is_none()
        && media_time_after(edits, 499).is_none()
        && media_time_after(edits, 1500) == Some(50_048)
}

/// Returns whether the edits of `elst`, a movie header and `mdhd` give these times. Sets the timescale of `mdhd`.
fn are_milliseconds_of_boxes(elst: &ElstBox, mdhd: &mut MdhdBox) -> bool {
    let mut mvhd = MvhdBox::default();
    mvhd.timescale = 600;
    mdhd.timescale = 48000;
    match edits_of(Some(elst), &mvhd, mdhd) {
        Ok(edits) => are_milliseconds(&edits),
        Err(_) => false,
    }
}

/// Returns whether the edits of `elst` and of default headers give these times.
fn are_milliseconds_of_list(alloc: Global, elst: &ElstBox) -> bool {
    match MdhdBox::default_in(alloc) {
        Ok(mut mdhd) => are_milliseconds_of_boxes(elst, &mut mdhd),
        Err(_) => false,
    }
}

/// Returns whether the edit list of `case` gives these times.
fn are_milliseconds_of_case(alloc: Global, case: &Case) -> bool {
    let mut elst = ElstBox::default_in(alloc);
    fill(&mut elst, case.version, case.edits) && are_milliseconds_of_list(alloc, &elst)
}

#[test]
fn milliseconds(rt: HostRuntime) {
    assert!(rt; are_milliseconds_of_case(rt.alloc(), &DELAYED));
}
