//! Rendering offsets, which have 32 bits in the boxes that list samples.

use crate::forms::refusal::FormRefusal;
use crate::refusal::TrackPlace;
use mp4_samples::Sample;

/// Returns the rendering offset of `sample`, sample `number` of `track`, in 32 bits.
pub(crate) fn short_offset(
    sample: &Sample,
    track: TrackPlace,
    number: u64,
) -> Result<i32, FormRefusal> {
    match i32::try_from(sample.rendering_offset) {
        Ok(offset) => Ok(offset),
        Err(_) => Err(FormRefusal::Rendering {
            track,
            number,
            offset: sample.rendering_offset,
        }),
    }
}

/// Returns the time at which `sample` is presented, or 0 if it is before that.
pub(crate) fn shown_at(sample: &Sample) -> u64 {
    let offset = sample.rendering_offset.unsigned_abs();
    if sample.rendering_offset < 0 {
        sample.start_time.saturating_sub(offset)
    } else {
        sample.start_time.saturating_add(offset)
    }
}
