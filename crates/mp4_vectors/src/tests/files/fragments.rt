//! Tests of the samples of fragments.

use super::boxes::{Row, append, sample_of};
use mp4_flat::{TfdtBox, TrexBox};
use mp4_samples::{Fragment, FragmentFault, FragmentSamples};
use mp4_tables::{TfhdBox, TrunBox};
use std::alloc::Global;

/// The fields and lists of a `trun`.
#[derive(Clone, Copy)]
struct Run {
    version: u8,
    sample_count: u32,
    data_offset: Option<i32>,
    first_sample_flags: Option<u32>,
    durations: &'static [u32],
    sizes: &'static [u32],
    flags: &'static [u32],
    offsets: &'static [u32],
}

/// A fragment and its expected samples.
struct Case {
    tfhd: TfhdBox,
    /// The box of its decode time, if it has one.
    tfdt: Option<TfdtBox>,
    runs: &'static [Run],
    /// The offset at which the data of the previous fragment end, and the time at which its samples end.
    data_end: u64,
    time_end: u64,
    /// The samples, and what the iterator does after them.
    samples: &'static [Row],
    after: After,
}

/// The next result of the iterator after some samples.
#[derive(Clone, Copy)]
enum After {
    /// The end. Then the iterator has this time and this offset.
    Nothing(u64, Option<u64>),
    /// A fault, and then the end.
    Fault(FragmentFault),
    /// More samples, which are not compared.
    More,
}

/// A fragment header without defaults.
const TFHD: TfhdBox = TfhdBox {
    version: 0,
    flags: 0,
    track_id: 0,
    base_data_offset: None,
    sample_description_index: None,
    default_sample_duration: None,
    default_sample_size: None,
    default_sample_flags: None,
};

/// The defaults of the track. Its samples are not sync samples.
const TREX: TrexBox = TrexBox {
    version: 0,
    flags: 0,
    track_id: 3,
    default_sample_description_index: 2,
    default_sample_duration: 10,
    default_sample_size: 20,
    default_sample_flags: 0x0101_0000,
};

/// Sets the fields of `trun` that are not lists to those of `run`.
fn set_fields(trun: &mut TrunBox, run: &Run) {
    trun.version = run.version;
    trun.sample_count = run.sample_count;
    trun.data_offset = run.data_offset;
    trun.first_sample_flags = run.first_sample_flags;
}

/// Fills the lists of `trun` with those of `run`. Returns whether there is memory for them.
fn fill(trun: &mut TrunBox, run: &Run) -> bool {
    append(&mut trun.sample_durations, run.durations)
        && append(&mut trun.sample_sizes, run.sizes)
        && append(&mut trun.sample_flags, run.flags)
        && append(&mut trun.sample_cts, run.offsets)
}

/// Appends the box of `run` to `truns`. Returns whether there is memory for it.
fn append_run(alloc: Global, truns: &mut Vec<TrunBox>, run: &Run) -> bool {
    if truns.push(TrunBox::default_in(alloc)).is_err() {
        return false;
    }
    match truns.last_mut() {
        Some(trun) => {
            set_fields(trun, run);
            fill(trun, run)
        }
        None => false,
    }
}

/// Appends the boxes of `runs` to `truns`. Returns whether there is memory for them.
fn append_runs(alloc: Global, truns: &mut Vec<TrunBox>, runs: &[Run]) -> bool {
    for run in runs {
        if !append_run(alloc, truns, run) {
            return false;
        }
    }
    true
}

/// Returns whether the next samples are `rows`.
fn come(samples: &mut FragmentSamples<'_>, rows: &[Row]) -> bool {
    for row in rows {
        if samples.next() != Some(Ok(sample_of(*row))) {
            return false;
        }
    }
    true
}

/// Returns whether the next samples are `rows`, and then `samples` ends.
pub fn are(samples: &mut FragmentSamples<'_>, rows: &[Row]) -> bool {
    come(samples, rows) && samples.next().is_none()
}

/// Returns whether `samples` ends, at this time and this offset.
fn end(samples: &mut FragmentSamples<'_>, time: u64, offset: Option<u64>) -> bool {
    samples.next().is_none() && samples.time() == time && samples.offset() == offset
}

/// Returns whether the next item is this fault, and then `samples` ends.
fn fail(samples: &mut FragmentSamples<'_>, fault: FragmentFault) -> bool {
    samples.next() == Some(Err(fault)) && samples.next().is_none()
}

/// Returns whether `samples` goes on as `after` says.
fn comes(samples: &mut FragmentSamples<'_>, after: After) -> bool {
    match after {
        After::Nothing(time, offset) => end(samples, time, offset),
        After::Fault(fault) => fail(samples, fault),
        After::More => true,
    }
}

/// Returns whether the fragment of `case` with these runs, whose `moof` begins at 4096, has the expected samples.
fn gives<'a>(case: &'a Case, truns: &'a [TrunBox], trex: &'a TrexBox) -> bool {
    let fragment = Fragment {
        trex,
        tfhd: &case.tfhd,
        tfdt: case.tfdt.as_ref(),
        runs: truns,
        moof: 4096,
        data_end: case.data_end,
        time_end: case.time_end,
    };
    let mut samples = fragment.samples();
    come(&mut samples, case.samples) && comes(&mut samples, case.after)
}

/// Returns whether the fragment of `case`, with the defaults `TREX`, has the expected samples.
fn is(alloc: Global, case: &Case) -> bool {
    let mut truns = Vec::new(alloc);
    append_runs(alloc, &mut truns, case.runs) && gives(case, &truns, &TREX)
}

/// Three runs, starting at time 500. The first lists sizes and has flags of its first sample. The second lists
/// durations, flags and signed offsets. The third lists an unsigned offset.
const THREE_RUNS: Case = Case {
    tfhd: TfhdBox {
        version: 0,
        flags: 0x02_0008,
        track_id: 0,
        base_data_offset: None,
        sample_description_index: None,
        default_sample_duration: Some(13),
        default_sample_size: None,
        default_sample_flags: None,
    },
    tfdt: Some(TfdtBox {
        version: 0,
        flags: 0,
        base_media_decode_time: 500,
    }),
    runs: &[
        Run {
            version: 0,
            sample_count: 3,
            data_offset: Some(120),
            first_sample_flags: Some(0x0200_0000),
            durations: &[],
            sizes: &[31, 47, 59],
            flags: &[],
            offsets: &[],
        },
        Run {
            version: 1,
            sample_count: 2,
            data_offset: None,
            first_sample_flags: None,
            durations: &[5, 6],
            sizes: &[],
            flags: &[0x0001_0000, 0x0200_0000],
            offsets: &[0xFFFF_FFFE, 9],
        },
        Run {
            version: 0,
            sample_count: 1,
            data_offset: Some(-96),
            first_sample_flags: None,
            durations: &[],
            sizes: &[],
            flags: &[],
            offsets: &[0x8000_0001],
        },
    ],
    data_end: 9000,
    time_end: 77,
    samples: &[
        (4216, 31, 500, 13, 0, true, 2, 1),
        (4247, 47, 513, 13, 0, false, 2, 1),
        (4294, 59, 526, 13, 0, false, 2, 1),
        (4353, 20, 539, 5, -2, false, 2, 2),
        (4373, 20, 544, 6, 9, true, 2, 2),
        (4000, 20, 550, 13, 0x8000_0001, false, 2, 3),
    ],
    after: After::Nothing(563, Some(4020)),
};

/// One run without lists, of `sample_count` samples.
macro_rules! plain {
    ($sample_count:expr, $data_offset:expr) => {
        &[Run {
            version: 0,
            sample_count: $sample_count,
            data_offset: $data_offset,
            first_sample_flags: None,
            durations: &[],
            sizes: &[],
            flags: &[],
            offsets: &[],
        }]
    };
}

/// A fragment whose own defaults replace those of the track.
const DEFAULTS: Case = Case {
    tfhd: TfhdBox {
        version: 0,
        flags: 0x02_0033,
        track_id: 3,
        base_data_offset: Some(70_000),
        sample_description_index: Some(4),
        default_sample_duration: None,
        default_sample_size: Some(8),
        default_sample_flags: Some(0x0200_0000),
    },
    tfdt: None,
    runs: plain!(u32::MAX, Some(-5)),
    data_end: 9000,
    time_end: 77,
    samples: &[
        (69_995, 8, 77, 10, 0, true, 4, 1),
        (70_003, 8, 87, 10, 0, true, 4, 1),
    ],
    after: After::More,
};

/// A fragment whose data follow those of the previous fragment.
const FOLLOWING: Case = Case {
    tfhd: TFHD,
    tfdt: None,
    runs: plain!(1, None),
    data_end: 9000,
    time_end: 77,
    samples: &[(9000, 20, 77, 10, 0, false, 2, 1)],
    after: After::Nothing(87, Some(9020)),
};

/// A fragment whose first sample would begin before the file.
const BEFORE_THE_FILE: Case = Case {
    tfhd: TFHD,
    tfdt: None,
    runs: plain!(2, Some(-9001)),
    data_end: 9000,
    time_end: 77,
    samples: &[],
    after: After::Fault(FragmentFault::Offset { run: 0, index: 0 }),
};

/// A fragment whose second sample ends past 2^64 - 1.
const PAST_64_BITS: Case = Case {
    tfhd: TFHD,
    tfdt: None,
    runs: plain!(3, None),
    data_end: u64::MAX - 39,
    time_end: 77,
    samples: &[(u64::MAX - 39, 20, 77, 10, 0, false, 2, 1)],
    after: After::Fault(FragmentFault::Offset { run: 0, index: 1 }),
};

/// A fragment whose second sample would end past time 2^64 - 1.
const PAST_THE_END: Case = Case {
    tfhd: TFHD,
    tfdt: None,
    runs: plain!(3, None),
    data_end: 9000,
    time_end: u64::MAX - 19,
    samples: &[(9000, 20, u64::MAX - 19, 10, 0, false, 2, 1)],
    after: After::Fault(FragmentFault::Time { run: 0, index: 1 }),
};

#[test]
fn three_runs_of_a_moof(rt: HostRuntime) {
    assert!(rt; is(rt.alloc(), &THREE_RUNS));
}

/// Returns whether the fragments with defaults and with following data have the expected samples.
fn are_without_faults(alloc: Global) -> bool {
    is(alloc, &DEFAULTS) && is(alloc, &FOLLOWING)
}

/// Returns whether samples with an offset below 0, or with an end in bytes or in time past 2^64 - 1, are faults.
fn are_faults(alloc: Global) -> bool {
    is(alloc, &BEFORE_THE_FILE) && is(alloc, &PAST_64_BITS) && is(alloc, &PAST_THE_END)
}

#[test]
fn defaults_and_faults(rt: HostRuntime) {
    assert!(rt; are_without_faults(rt.alloc()) && are_faults(rt.alloc()));
}
