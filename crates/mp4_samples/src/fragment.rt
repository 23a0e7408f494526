//! A track fragment and the properties of its samples.

ghost use Rattle.std.specs.Prelude.{◌≡◌, slice_index_or};
ghost use Rattle.mp4_samples.specs.FragmentGives.{begins};
ghost use Rattle.mp4_samples.specs.Fragments.{default_duration, default_size, default_flags, description_in};
ghost use Rattle.mp4_samples.specs.Fragments.{duration_in, size_in, flags_in, is_sync_in, rendering_offset_in, base_of};
ghost use Rattle.mp4_samples.specs.Fragments.{start_of};

use crate::fragment_samples::FragmentSamples;
use mp4_flat::{TfdtBox, TrexBox};
use mp4_tables::{TfhdBox, TrunBox};

/// The flag of `tfhd` for data offsets that count from the `moof` (8.8.7.1).
pub const DEFAULT_BASE_IS_MOOF: u32 = 0x02_0000;
/// The flag of a sample that is not a sync sample (8.8.3.1).
pub const SAMPLE_IS_NON_SYNC: u32 = 0x01_0000;

/// A track fragment (`traf`), with what its samples take from other boxes.
#[derive(Clone, Copy)]
pub struct Fragment<'a> {
    /// The defaults of the track.
    pub trex: &'a TrexBox,
    /// The header of the fragment.
    pub tfhd: &'a TfhdBox,
    /// The box with the decode time of its first sample, if present.
    pub tfdt: Option<&'a TfdtBox>,
    /// Its runs, in the order of the file.
    pub runs: &'a [TrunBox],
    /// The offset of its `moof` from the start of the file.
    pub moof: u64,
    /// The end of the data of the `traf` before it in the same `moof`, or the offset of the `moof` for the first
    /// `traf`. It is the base of data offsets if `tfhd` names none.
    pub data_end: u64,
    /// The end time of the samples of the track before it, in the timescale of the media. It is the start time if there
    /// is no `tfdt`.
    pub time_end: u64,
}

impl<'a> Fragment<'a> {
    /// Returns an iterator over the samples, from the first to the last.
    pub fn samples(&self) -> FragmentSamples<'a>
        ensures { result ≡ begins self.now }
    {
        FragmentSamples::new(*self)
    }
}

/// Returns the duration of a sample whose run lists no duration for it.
fn default_duration(fragment: &Fragment<'_>) -> u32
    ensures { result ≡ default_duration fragment.now }
{
    fragment
        .tfhd
        .default_sample_duration
        .unwrap_or(fragment.trex.default_sample_duration)
}

/// Returns the size of a sample whose run lists no size for it.
pub fn default_size(fragment: &Fragment<'_>) -> u32
    ensures { result ≡ default_size fragment.now }
{
    fragment
        .tfhd
        .default_sample_size
        .unwrap_or(fragment.trex.default_sample_size)
}

/// Returns the flags of a sample whose run has no flags for it.
fn default_flags(fragment: &Fragment<'_>) -> u32
    ensures { result ≡ default_flags fragment.now }
{
    fragment
        .tfhd
        .default_sample_flags
        .unwrap_or(fragment.trex.default_sample_flags)
}

/// Returns the index of the sample entry of all samples of `fragment`, counted from 1.
pub fn description_in(fragment: &Fragment<'_>) -> u32
    ensures { result ≡ description_in fragment.now }
{
    fragment
        .tfhd
        .sample_description_index
        .unwrap_or(fragment.trex.default_sample_description_index)
}

/// Returns the number at `index`, or `default` if `numbers` has none there.
fn listed_or(numbers: &[u32], index: u32, default: u32) -> u32
    ensures { result ≡ slice_index_or numbers.now index default }
{
    match numbers.get(index as usize) {
        Some(number) => *number,
        None => default,
    }
}

/// Returns the duration of sample `index` of `trun`.
pub fn duration_in(fragment: &Fragment<'_>, trun: &TrunBox, index: u32) -> u32
    ensures { result ≡ duration_in fragment.now trun.now index }
{
    listed_or(
        trun.sample_durations.as_slice(),
        index,
        default_duration(fragment),
    )
}

/// Returns the size of sample `index` of `trun`.
pub fn size_in(fragment: &Fragment<'_>, trun: &TrunBox, index: u32) -> u32
    ensures { result ≡ size_in fragment.now trun.now index }
{
    listed_or(trun.sample_sizes.as_slice(), index, default_size(fragment))
}

/// Returns the flags of sample `index` of `trun`.
fn flags_in(fragment: &Fragment<'_>, trun: &TrunBox, index: u32) -> u32
    ensures { result ≡ flags_in fragment.now trun.now index }
{
    let default = default_flags(fragment);
    let default = if index == 0 {
        trun.first_sample_flags.unwrap_or(default)
    } else {
        default
    };
    listed_or(trun.sample_flags.as_slice(), index, default)
}

/// Returns whether sample `index` of `trun` is a sync sample.
pub fn is_sync_in(fragment: &Fragment<'_>, trun: &TrunBox, index: u32) -> bool
    ensures { result ≡ is_sync_in fragment.now trun.now index }
{
    flags_in(fragment, trun, index) & SAMPLE_IS_NON_SYNC == 0
}

/// Returns the composition time of sample `index` of `trun`, minus its decode time. It is unsigned in version 0 of the
/// box and signed in later versions.
pub fn rendering_offset_in(trun: &TrunBox, index: u32) -> i64
    ensures { result ≡ rendering_offset_in trun.now index }
{
    let number = listed_or(trun.sample_cts.as_slice(), index, 0);
    if trun.version == 0 {
        i64::from(number)
    } else {
        i64::from(number.cast_signed())
    }
}

/// Returns the offset from which the data offsets of the runs count.
pub fn base_of(fragment: &Fragment<'_>) -> u64
    ensures { result ≡ base_of fragment.now }
{
    match fragment.tfhd.base_data_offset {
        Some(base) => base,
        None => {
            if fragment.tfhd.flags & DEFAULT_BASE_IS_MOOF > 0 {
                fragment.moof
            } else {
                fragment.data_end
            }
        }
    }
}

/// Returns the decode time of the first sample.
pub fn start_of(fragment: &Fragment<'_>) -> u64
    ensures { result ≡ start_of fragment.now }
{
    match fragment.tfdt {
        Some(tfdt) => tfdt.base_media_decode_time,
        None => fragment.time_end,
    }
}
