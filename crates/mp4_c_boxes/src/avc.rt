//! The structs for C of AVC video: its configuration and its sample entry.

ghost use Rattle.std.specs.Prelude.{◌≡◌, IsTrue, IfOk, IfErr};
ghost use Rattle.mp4_frame.specs.declared.error.Error.TheVariants.{OutOfMemory};
ghost use Rattle.mp4_c_boxes.specs.Avc.{avcc_of, fit_sets, fields_avcc, avc1_of, no_avc1, fields_avc1};
ghost use Rattle.mp4_c_boxes.specs.Visual.{visual_of_avc1};

use crate::sets::{HasSets, sets_of, size_of_both, sum_of};
use crate::to_struct::ToStruct;
use crate::visual::Visual;
use mp4_entries::{Avc1Box, AvcCBox, NalUnit};
use mp4_frame::Result;
use mp4_media::FixedPointU16;
use std::alloc::Global;

/// The fields of an `avcC` (ISO/IEC 14496-15, 5.3.3.1), without its parameter sets.
#[repr(C)]
#[derive(Clone, Copy, Default)]
pub struct Avcc {
    /// The number of sequence sets.
    pub sequence_count: usize,
    /// The number of picture sets, which follow the sequence sets.
    pub picture_count: usize,
    /// The number of bytes of all sets.
    pub set_bytes: usize,
    /// The version of the configuration: 1 in the standard.
    pub configuration_version: u8,
    /// The profile of the stream, such as 100 for High.
    pub avc_profile_indication: u8,
    /// The byte between the profile and the level in a sequence set.
    pub profile_compatibility: u8,
    /// The level of the stream, times 10.
    pub avc_level_indication: u8,
    /// The number of bytes of a unit's length in a sample, minus one: below 4.
    pub length_size_minus_one: u8,
}

impl ToStruct<Avcc> for AvcCBox {
    ghost to_struct = { fields_avcc };

    fn to_struct(&self) -> Avcc {
        let sequence = self.sequence_parameter_sets.as_slice();
        let picture = self.picture_parameter_sets.as_slice();
        Avcc {
            sequence_count: sequence.len(),
            picture_count: picture.len(),
            set_bytes: size_of_both(sequence, picture),
            configuration_version: self.configuration_version,
            avc_profile_indication: self.avc_profile_indication,
            profile_compatibility: self.profile_compatibility,
            avc_level_indication: self.avc_level_indication,
            length_size_minus_one: self.length_size_minus_one,
        }
    }
}

impl HasSets<Avcc> for AvcCBox {
    ghost sequence = { λ v. v.sequence_parameter_sets };

    ghost picture = { λ v. v.picture_parameter_sets };

    fn sequence(&self) -> &[NalUnit] {
        self.sequence_parameter_sets.as_slice()
    }

    fn picture(&self) -> &[NalUnit] {
        self.picture_parameter_sets.as_slice()
    }
}

/// Returns whether `fields` counts as many sets as `lengths` has, and `bytes` has as many bytes as `lengths` add up to.
pub(crate) fn fit_sets(fields: &Avcc, lengths: &[usize], bytes: &[u8]) -> bool
    ensures { result ≡ fit_sets fields.now lengths.now bytes.now }
{
    fields.sequence_count.checked_add(fields.picture_count) == Some(lengths.len())
        && sum_of(lengths) == bytes.len()
}

/// Returns the box with `fields` and the parameter sets of `lengths` and `bytes`. The only error is out of memory.
pub(crate) fn avcc_of(
    alloc: Global,
    fields: &Avcc,
    lengths: &[usize],
    bytes: &[u8],
) -> Result<AvcCBox>
    requires { IsTrue (fit_sets fields.now lengths.now bytes.now) }
    ensures value { IfOk result (λ v. v ≡ avcc_of fields.now lengths.now bytes.now) }
    ensures memory { IfErr result (λ e. e ≡ OutOfMemory) }
{
    let (sequence, picture) = lengths.split_at(fields.sequence_count);
    let sequence_bytes = sum_of(sequence);
    Ok(AvcCBox {
        configuration_version: fields.configuration_version,
        avc_profile_indication: fields.avc_profile_indication,
        profile_compatibility: fields.profile_compatibility,
        avc_level_indication: fields.avc_level_indication,
        length_size_minus_one: fields.length_size_minus_one,
        sequence_parameter_sets: sets_of(alloc, sequence, bytes)?,
        picture_parameter_sets: sets_of(alloc, picture, &bytes[sequence_bytes..])?,
    })
}

/// The fields of an `avc1` (ISO/IEC 14496-15, 5.4.2), without the parameter sets of its `avcC`.
#[repr(C)]
#[derive(Clone, Copy, Default)]
pub struct Avc1 {
    /// The configuration of the decoder.
    pub avcc: Avcc,
    /// The fields of the visual sample entry.
    pub visual: Visual,
}

/// Returns the fields that `found` has as a visual sample entry.
fn visual_of(found: &Avc1Box) -> Visual
    ensures { result ≡ visual_of_avc1 found.now }
{
    Visual {
        horizresolution: found.horizresolution.raw_value(),
        vertresolution: found.vertresolution.raw_value(),
        data_reference_index: found.data_reference_index,
        width: found.width,
        height: found.height,
        frame_count: found.frame_count,
        depth: found.depth,
    }
}

impl Avc1 {
    /// Returns zeros, for an `stsd` whose entry is of another type.
    pub(crate) fn none() -> Avc1
        ensures { result ≡ no_avc1 }
    {
        Avc1::default()
    }
}

impl ToStruct<Avc1> for Avc1Box {
    ghost to_struct = { fields_avc1 };

    fn to_struct(&self) -> Avc1 {
        Avc1 {
            avcc: self.avcc.to_struct(),
            visual: visual_of(self),
        }
    }
}

impl HasSets<Avc1> for Avc1Box {
    ghost sequence = { λ v. v.avcc.sequence_parameter_sets };

    ghost picture = { λ v. v.avcc.picture_parameter_sets };

    fn sequence(&self) -> &[NalUnit] {
        self.avcc.sequence_parameter_sets.as_slice()
    }

    fn picture(&self) -> &[NalUnit] {
        self.avcc.picture_parameter_sets.as_slice()
    }
}

/// Returns the box with `fields` and the parameter sets of `lengths` and `bytes`. The only error is out of memory.
pub(crate) fn avc1_of(
    alloc: Global,
    fields: &Avc1,
    lengths: &[usize],
    bytes: &[u8],
) -> Result<Avc1Box>
    requires { IsTrue (fit_sets fields.now.avcc lengths.now bytes.now) }
    ensures value { IfOk result (λ v. v ≡ avc1_of fields.now lengths.now bytes.now) }
    ensures memory { IfErr result (λ e. e ≡ OutOfMemory) }
{
    Ok(Avc1Box {
        data_reference_index: fields.visual.data_reference_index,
        width: fields.visual.width,
        height: fields.visual.height,
        horizresolution: FixedPointU16::new_raw(fields.visual.horizresolution),
        vertresolution: FixedPointU16::new_raw(fields.visual.vertresolution),
        frame_count: fields.visual.frame_count,
        depth: fields.visual.depth,
        avcc: avcc_of(alloc, &fields.avcc, lengths, bytes)?,
    })
}
