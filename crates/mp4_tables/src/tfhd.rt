//! The track fragment header box.

ghost use Rattle.std.specs.Prelude.{◌≡◌, ◌≤◌, ◌-◌, ◌^◌, ◌↔◌, min, IsTrue};
ghost use Rattle.mp4_frame.specs.declared.box_type.BoxType.TheVariants as names;
ghost use Rattle.mp4_frame.specs.Format.{write_laws};
ghost use Rattle.mp4_tables.specs.Tfhd.{end_at, size_tfhd, FlaggedTfhd, reads_tfhd, format_tfhd};
ghost use Rattle.mp4_tables.specs.TfhdLaws.{laws_tfhd, tfhd_takes_none};

use crate::flagged::{
    is_present_u32, is_present_u64, is_set, put_optional_u32, put_optional_u64, u32_if, u64_if,
    width_if,
};
use mp4_frame::{
    BoxLaws, BoxType, Mp4Box, ReadBox, ReadsWithoutMemory, Result, TryClone, WriteBox, codes,
    expect_bytes, put_full_box, put_u32, u8_at, u24_at, u32_at,
};
use std::alloc::Global;

/// The track fragment header: the track of a fragment, and the defaults for its samples (`tfhd`, ISO/IEC 14496-12,
/// 8.8.7). It can be written only if the optional fields that are present are those whose flags are set.
#[derive(Clone, Debug, Default, Drop, PartialEq, Eq)]
pub struct TfhdBox {
    /// The version, 0 in the standard. Every version is read and written in the same way.
    pub version: u8,
    /// Flags of 24 bits, which say which of the optional fields are present.
    pub flags: u32,
    /// The number of the track. It is not 0 in the standard.
    pub track_id: u32,
    /// The offset in the file, in bytes, to which the data offsets of the fragment are added.
    pub base_data_offset: Option<u64>,
    /// The index of the sample entry that the samples use, counted from 1.
    pub sample_description_index: Option<u32>,
    /// The duration of a sample, in the timescale of the media.
    pub default_sample_duration: Option<u32>,
    /// The size of a sample, in bytes.
    pub default_sample_size: Option<u32>,
    /// The flags of a sample: its dependencies, and whether it is a sync sample (8.8.3).
    pub default_sample_flags: Option<u32>,
}

impl TfhdBox {
    /// The flag of `base_data_offset`.
    pub const FLAG_BASE_DATA_OFFSET: u32 = 0x01;
    /// The flag of `sample_description_index`.
    pub const FLAG_SAMPLE_DESCRIPTION_INDEX: u32 = 0x02;
    /// The flag of `default_sample_duration`.
    pub const FLAG_DEFAULT_SAMPLE_DURATION: u32 = 0x08;
    /// The flag of `default_sample_size`.
    pub const FLAG_DEFAULT_SAMPLE_SIZE: u32 = 0x10;
    /// The flag of `default_sample_flags`.
    pub const FLAG_DEFAULT_SAMPLE_FLAGS: u32 = 0x20;

    /// Returns the type of the box, like `box_type`.
    pub fn get_type(&self) -> BoxType
        ensures { result ≡ names.TfhdBox }
    {
        self.box_type()
    }

    /// Returns the size of the box in bytes, like `box_size`.
    pub fn get_size(&self) -> u64
        ensures { result ≡ min (size_tfhd self.now) (2 ^ 64 - 1) }
    {
        self.box_size()
    }
}

/// Returns the offset after the optional fields.
fn end_at(flags: u32) -> usize
    ensures offset { result ≡ end_at flags }
    ensures bounded { result ≤ 40 }
{
    let index_at = 16 + width_if(is_set(flags, TfhdBox::FLAG_BASE_DATA_OFFSET), 8);
    let duration_at = index_at + width_if(is_set(flags, TfhdBox::FLAG_SAMPLE_DESCRIPTION_INDEX), 4);
    let size_at = duration_at + width_if(is_set(flags, TfhdBox::FLAG_DEFAULT_SAMPLE_DURATION), 4);
    let flags_at = size_at + width_if(is_set(flags, TfhdBox::FLAG_DEFAULT_SAMPLE_SIZE), 4);
    flags_at + width_if(is_set(flags, TfhdBox::FLAG_DEFAULT_SAMPLE_FLAGS), 4)
}

/// Returns whether the optional fields present in `tfhd` are those whose flags are set.
fn has_flagged_fields(tfhd: &TfhdBox) -> bool
    ensures { IsTrue result ↔ FlaggedTfhd tfhd.now }
{
    let flags = tfhd.flags;
    is_present_u64(
        is_set(flags, TfhdBox::FLAG_BASE_DATA_OFFSET),
        tfhd.base_data_offset,
    ) && is_present_u32(
        is_set(flags, TfhdBox::FLAG_SAMPLE_DESCRIPTION_INDEX),
        tfhd.sample_description_index,
    ) && is_present_u32(
        is_set(flags, TfhdBox::FLAG_DEFAULT_SAMPLE_DURATION),
        tfhd.default_sample_duration,
    ) && is_present_u32(
        is_set(flags, TfhdBox::FLAG_DEFAULT_SAMPLE_SIZE),
        tfhd.default_sample_size,
    ) && is_present_u32(
        is_set(flags, TfhdBox::FLAG_DEFAULT_SAMPLE_FLAGS),
        tfhd.default_sample_flags,
    )
}

impl TryClone for TfhdBox {
    fn try_clone(&self) -> Result<TfhdBox> {
        Ok(self.clone()?)
    }
}

impl Mp4Box for TfhdBox {
    ghost format = { format_tfhd };

    fn box_type(&self) -> BoxType {
        BoxType::TfhdBox
    }

    fn box_size(&self) -> u64 {
        end_at(self.flags) as u64
    }
}

impl ReadBox for TfhdBox {
    ghost reads = { reads_tfhd };

    const LEAST: u64 = 0;

    #[tactic(auto, unfolding(crate::specs::Tfhd::reads_tfhd))]
    fn read_content(_alloc: Global, bytes: &[u8], _start: u64, _size: u64) -> Result<TfhdBox> {
        expect_bytes(bytes, 8, 8)?;
        let flags = u24_at(bytes, 9);
        let has_base = is_set(flags, Self::FLAG_BASE_DATA_OFFSET);
        let has_index = is_set(flags, Self::FLAG_SAMPLE_DESCRIPTION_INDEX);
        let has_duration = is_set(flags, Self::FLAG_DEFAULT_SAMPLE_DURATION);
        let has_size = is_set(flags, Self::FLAG_DEFAULT_SAMPLE_SIZE);
        let has_flags = is_set(flags, Self::FLAG_DEFAULT_SAMPLE_FLAGS);
        let index_at = 16 + width_if(has_base, 8);
        let duration_at = index_at + width_if(has_index, 4);
        let size_at = duration_at + width_if(has_duration, 4);
        let flags_at = size_at + width_if(has_size, 4);
        let end = flags_at + width_if(has_flags, 4);
        expect_bytes(bytes, 16, end - 16)?;
        Ok(TfhdBox {
            version: u8_at(bytes, 8),
            flags,
            track_id: u32_at(bytes, 12),
            base_data_offset: u64_if(bytes, 16, has_base),
            sample_description_index: u32_if(bytes, index_at, has_index),
            default_sample_duration: u32_if(bytes, duration_at, has_duration),
            default_sample_size: u32_if(bytes, size_at, has_size),
            default_sample_flags: u32_if(bytes, flags_at, has_flags),
        })
    }
}

impl ReadsWithoutMemory for TfhdBox {
    ghost takes_none = { tfhd_takes_none };
}

impl WriteBox for TfhdBox {
    #[tactic(auto, using(crate::specs::TfhdLaws::tfhd_is_short))]
    fn is_writable(&self) -> bool {
        // For the prover: a value that was read has the range of its type.
        let _version = self.version;
        let _track_id = self.track_id;
        self.flags < 1 << 24 && has_flagged_fields(self)
    }

    #[tactic(auto, using(crate::specs::FlaggedLaws::length_optional), unfolding(crate::specs::Tfhd::bytes_tfhd, mp4_frame::specs::Bytes::bytes_of_fields, mp4_frame::specs::Bytes::bytes_of_fields_onto))]
    fn put_box(&self, out: &mut [u8]) {
        let size = self.box_size() as u32;
        let at = put_full_box(out, size, codes::TFHD, self.version, self.flags);
        let at = put_u32(out, at, self.track_id);
        let at = put_optional_u64(out, at, self.base_data_offset);
        let at = put_optional_u32(out, at, self.sample_description_index);
        let at = put_optional_u32(out, at, self.default_sample_duration);
        let at = put_optional_u32(out, at, self.default_sample_size);
        put_optional_u32(out, at, self.default_sample_flags);
    }

    ghost write_laws = { write_laws laws_tfhd };
}

impl BoxLaws for TfhdBox {
    ghost laws = { laws_tfhd };
}
