//! Which samples of a track are listed.

ghost use Rattle.std.specs.Prelude.{◌≡◌, ◌+◌, ◌-◌, ◌^◌, min};
ghost use Rattle.mp4_inspect_samples.specs.Listed.{is_listed, empty_after, samples_in, unlisted_of};

use mp4_samples::Sample;
use mp4_tables::TrunBox;
use std::fmt;

/// The largest number of samples without bytes that are listed in a row. They take no place in a file, so that its end
/// doesn't end them.
pub const MOST_EMPTY: u32 = 1 << 20;

/// The rule by which samples of a track are listed.
#[derive(Clone, Copy, Debug, PartialEq, Eq)]
pub struct Limit {
    /// The number of bytes of the file.
    pub length: u64,
    /// Asks for all samples: those past the end of the file too, and any number without bytes in a row.
    pub beyond: bool,
}

/// The first sample of a track that isn't listed.
#[derive(Clone, Copy, Debug, PartialEq, Eq)]
pub struct Unlisted {
    /// The sample.
    pub sample: Sample,
    /// The number of samples of the track that are listed before it.
    pub listed: u64,
    /// The number of bytes of the file.
    pub length: u64,
    /// The number of samples of the track that its tables and fragments count after it.
    pub more: u64,
}

/// Returns whether `sample` is listed, if `empty` samples without bytes come right before it.
pub fn is_listed(limit: Limit, empty: u32, sample: &Sample) -> bool
    ensures { result ≡ is_listed limit empty sample.now }
{
    if limit.beyond {
        return true;
    }
    if u128::from(sample.offset) + u128::from(sample.size) > u128::from(limit.length) {
        return false;
    }
    sample.size > 0 || empty < MOST_EMPTY
}

/// Returns how many samples without bytes are in a row up to `sample`, if `empty` of them come right before it. It
/// counts up to `MOST_EMPTY`.
pub fn empty_after(empty: u32, sample: &Sample) -> u32
    ensures { result ≡ empty_after empty sample.now }
{
    if sample.size > 0 {
        0
    } else {
        empty.saturating_add(1).min(MOST_EMPTY)
    }
}

/// Returns how many samples `runs` count, or 2^64 - 1 if they count more.
pub fn samples_in(runs: &[TrunBox]) -> u64
    ensures { result ≡ min (samples_in runs.now) (2 ^ 64 - 1) }
{
    let mut total: u64 = 0;
    'runs: for index in 0..runs.len() {
        total = total.saturating_add(u64::from(runs[index].sample_count));
    }
    total
}

/// Describes `sample`, if there is one that isn't listed, after `listed` of the `counted` samples of its track.
pub fn unlisted_of(
    limit: Limit,
    listed: u64,
    counted: u64,
    sample: Option<Sample>,
) -> Option<Unlisted>
    ensures { result ≡ unlisted_of limit listed counted sample }
{
    match sample {
        Some(sample) => Some(Unlisted {
            sample,
            listed,
            length: limit.length,
            more: counted.saturating_sub(listed).saturating_sub(1),
        }),
        None => None,
    }
}

impl Unlisted {
    /// Counts `count` samples more of the track.
    pub fn and_more(self, count: u64) -> Unlisted
        ensures { result ≡ record self { more = min (self.more + count) (2 ^ 64 - 1) } }
    {
        Unlisted {
            more: self.more.saturating_add(count),
            ..self
        }
    }
}

impl fmt::Display for Unlisted {
    fn fmt<W: fmt::Write>(&self, f: &mut fmt::Formatter<W>) -> fmt::Result {
        let number = self.listed.saturating_add(1);
        let end = self
            .sample
            .offset
            .saturating_add(u64::from(self.sample.size));
        if end > self.length {
            write!(
                f,
                "sample {number} ends at {end}, past the end of the file ({} bytes): ",
                self.length
            )?;
        } else {
            write!(
                f,
                "sample {number} has no bytes, like the {MOST_EMPTY} samples before it: "
            )?;
        }
        match self.more {
            0 => write!(f, "this sample is not listed (--beyond lists it)"),
            1 => write!(
                f,
                "this and 1 more sample are not listed (--beyond lists them)"
            ),
            more => write!(
                f,
                "this and {more} more samples are not listed (--beyond lists them)"
            ),
        }
    }
}
