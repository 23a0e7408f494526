//! The times of samples, which are compared as fractions of a second, so that nothing is lost by rounding.

ghost use Rattle.std.specs.Prelude.{◌≡◌, ◌*◌, ◌<◌, ◌≤◌, ◌^◌, ◌↔◌, ◌<ℤ◌, ◌-ℤ◌, pos, IsTrue};
ghost use Rattle.mp4_samples.specs.Edits.{composition_time};
ghost use Rattle.mp4_remux.specs.Parts.{Meets, at_least_zero, nanoseconds, time_on};

use mp4_samples::Sample;

/// A time of the presentation, as a fraction of a second.
#[derive(Clone, Copy, Debug, PartialEq, Eq)]
pub struct Moment {
    /// The number of ticks.
    pub ticks: u64,
    /// The number of ticks in a second.
    pub scale: u32,
}

/// The times of a track in the presentation.
#[derive(Clone, Copy, Debug, PartialEq, Eq)]
pub struct Line {
    /// The timescale of the media, in ticks a second.
    pub scale: u32,
    /// The time of the media that is presented at 0.
    pub origin: i64,
}

/// A bound on the samples of a run.
#[derive(Clone, Copy, Debug, PartialEq, Eq)]
pub enum Bound {
    /// Sync samples that are presented at a moment or before it. The run begins with the last of them.
    From(Moment),
    /// Samples that are presented before a moment. The run ends after the last of them.
    To(Moment),
}

/// Returns this many nanoseconds.
pub(crate) fn nanoseconds(number: u64) -> Moment
    ensures { result ≡ nanoseconds number }
{
    Moment {
        ticks: number,
        scale: 1_000_000_000,
    }
}

/// Returns the time at which `sample` is presented, in ticks of its track, which may be below 0.
fn shown_at(line: Line, sample: &Sample) -> i128
    ensures value { result ≡ composition_time sample.now -ℤ line.origin }
    ensures below { result <ℤ pos (2 ^ 66) }
{
    let composed = i128::from(sample.start_time) + i128::from(sample.rendering_offset);
    composed - i128::from(line.origin)
}

/// Returns `time`, or 0 if it is less.
#[tactic(auto, using(crate::proofs::Moments::zeros))]
fn or_zero(time: i128) -> u128
    ensures value { result ≡ at_least_zero time }
    ensures below { time <ℤ pos (2 ^ 66) → result < 2 ^ 66 }
{
    if time < 0 { 0 } else { time as u128 }
}

/// Returns the time at which `sample` is presented, in ticks of its track, or 0 if it is presented earlier.
pub(crate) fn time_on(line: Line, sample: &Sample) -> u128
    ensures value { result ≡ time_on line sample.now }
    ensures below { result < 2 ^ 66 }
{
    or_zero(shown_at(line, sample))
}

/// Returns the product of a time and a number of ticks in a second.
fn product(time: u128, scale: u32) -> u128
    requires below { time < 2 ^ 66 }
    ensures { result ≡ time * scale }
{
    time * u128::from(scale)
}

/// Returns whether the time `time` of a track of the timescale `scale` is at `moment` or before it.
fn is_by(time: u128, scale: u32, moment: Moment) -> bool
    requires below { time < 2 ^ 66 }
    ensures { IsTrue result ↔ (time * moment.scale ≤ moment.ticks * scale) }
{
    product(time, moment.scale) <= product(u128::from(moment.ticks), scale)
}

/// Returns whether the time `time` of a track of the timescale `scale` is before `moment`.
fn is_before(time: u128, scale: u32, moment: Moment) -> bool
    requires below { time < 2 ^ 66 }
    ensures { IsTrue result ↔ (time * moment.scale < moment.ticks * scale) }
{
    product(time, moment.scale) < product(u128::from(moment.ticks), scale)
}

/// Returns whether `sample` meets `bound`.
pub(crate) fn meets(line: Line, bound: Bound, sample: &Sample) -> bool
    ensures { IsTrue result ↔ Meets line bound sample.now }
{
    let time = time_on(line, sample);
    match bound {
        Bound::From(moment) => sample.is_sync && is_by(time, line.scale, moment),
        Bound::To(moment) => is_before(time, line.scale, moment),
    }
}
