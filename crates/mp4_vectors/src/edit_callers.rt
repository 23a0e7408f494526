//! Callers of edit lists. docs/SAMPLES.md quotes them.

use mp4_flat::{MdhdBox, MvhdBox};
use mp4_samples::{EditFault, Edits, Sample};
use mp4_tables::ElstBox;

/// Returns the edits of a track. They come from its `elst`, if it has one, and from the timescales of `mvhd` and
/// `mdhd`.
pub fn edits_of<'a>(
    elst: Option<&'a ElstBox>,
    mvhd: &MvhdBox,
    mdhd: &MdhdBox,
) -> Result<Edits<'a>, EditFault> {
    Edits::new(elst, mvhd.timescale, mdhd.timescale)
}

/// Returns the time at which `sample` is first presented, in milliseconds. Returns `None` if no edit presents the
/// sample's composition time.
pub fn presented_at(edits: &Edits<'_>, sample: &Sample) -> Option<u128> {
    let presentation = edits.presentation_of(sample.composition_time()?)?;
    let thousandths = presentation.ticks.checked_mul(1000)?;
    thousandths.checked_div(u128::from(edits.ticks_per_second()))
}

/// Returns the media time, in the timescale of the media, that is presented after `milliseconds`, if there is one.
pub fn media_time_after(edits: &Edits<'_>, milliseconds: u64) -> Option<u128> {
    let ticks = u128::from(milliseconds) * u128::from(edits.ticks_per_second()) / 1000;
    Some(edits.media_units(edits.media_time_at(ticks)?))
}
