//! The row of a sample.

ghost use Rattle.std.specs.Prelude.{◌≡◌, Some};
ghost use Rattle.mp4_inspect_samples.specs.Row.{IsShown, edits_in, labels_of, row_of};

use crate::clock::Clock;
use mp4_samples::{Edits, Sample};

/// The time at which a sample is presented.
#[derive(Clone, Copy, Debug, PartialEq, Eq)]
pub enum Shown {
    /// At this time in the timescale of the media, without edits.
    At(i128),
    /// At a time by the edit list of the track.
    Edited {
        /// The time, in ticks of which `per_second` are a second.
        ticks: u128,
        /// The number of ticks in a second: the product of the timescales of the movie and of the media.
        per_second: u64,
        /// The time in whole units of the timescale of the media, rounded down.
        units: u128,
    },
    /// Not at all: no edit presents it.
    Never,
}

/// The row of a sample, with a column for each field.
#[derive(Clone, Copy, Debug, PartialEq, Eq)]
pub struct Row {
    /// The track_ID of its track, if that can be read.
    pub track: Option<u32>,
    /// Its number in the track, starting at 1.
    pub number: u64,
    /// Its offset in the file, in bytes.
    pub offset: u64,
    /// The number of its bytes.
    pub size: u32,
    /// Its decode time, in the timescale of the media.
    pub decode_time: u64,
    /// Its presentation time.
    pub presentation: Shown,
    /// Its duration, in the timescale of the media.
    pub duration: u32,
    /// True if it is a sync sample.
    pub is_sync: bool,
    /// The index of its sample entry, starting at 1.
    pub description: u32,
    /// The timescale of the media, and the unit in which times are written.
    pub clock: Clock,
}

/// The rule by which the samples of a track become rows.
#[derive(Clone, Copy)]
pub struct RowRule<'a> {
    /// The track_ID, if it can be read.
    pub track: Option<u32>,
    /// The timescale of the media, and the unit in which times are written.
    pub clock: Clock,
    /// The edit list by which presentation times are written, or `None` for times without edits.
    pub edits: Option<&'a Edits<'a>>,
    /// Asks for rows of sync samples only.
    pub sync: bool,
}

/// Returns when the edit list `edits` first presents `sample`.
fn edited(edits: &Edits<'_>, sample: &Sample) -> Shown
    ensures { IsShown (Some edits.now) sample.now result }
{
    let Some(time) = sample.composition_time() else {
        return Shown::Never;
    };
    match edits.presentation_of(time) {
        Some(presentation) => Shown::Edited {
            ticks: presentation.ticks,
            per_second: edits.ticks_per_second(),
            units: edits.media_units(presentation.ticks),
        },
        None => Shown::Never,
    }
}

/// Returns when `sample` is presented: by the edit list `edits`, or without edits if that is `None`.
pub fn shown_of(edits: Option<&Edits<'_>>, sample: &Sample) -> Shown
    ensures { IsShown (edits_in edits.entry) sample.now result }
{
    match edits {
        Some(edits) => edited(edits, sample),
        None => Shown::At(i128::from(sample.start_time) + i128::from(sample.rendering_offset)),
    }
}

/// Returns the row of `sample`, which has the number `number` in its track and is presented at `shown`.
pub fn row_of(rule: &RowRule<'_>, number: u64, sample: &Sample, shown: Shown) -> Row
    ensures { result ≡ row_of (labels_of rule.now) number sample.now shown }
{
    Row {
        track: rule.track,
        number,
        offset: sample.offset,
        size: sample.size,
        decode_time: sample.start_time,
        presentation: shown,
        duration: sample.duration,
        is_sync: sample.is_sync,
        description: sample.sample_description_index,
        clock: rule.clock,
    }
}
