//! The track fragment run box.

mod lists;
mod row_flags;
mod rows;

ghost use Rattle.std.specs.Prelude.{◌≡◌, ◌≤◌, ◌-◌, ◌^◌, ◌↔◌, [], None, IsTrue, min};
ghost use Rattle.mp4_frame.specs.declared.box_type.BoxType.TheVariants as names;
ghost use Rattle.mp4_frame.specs.Format.{write_laws};
ghost use Rattle.mp4_tables.specs.Trun.{rows_at, signed_bits, unsigned_bits, FitsOptional, FlaggedTrun, size_trun};
ghost use Rattle.mp4_tables.specs.Trun.{ListedTrun, reads_trun, format_trun};
ghost use Rattle.mp4_tables.specs.TrunLaws.{laws_trun};

use crate::flagged::{is_present_u32, is_set, put_optional_u32, u32_if, width_if};
use crate::trun::lists::{is_listed, read_lists};
use crate::trun::row_flags::RowFlags;
use crate::trun::rows::put_rows;
use mp4_frame::{
    BoxLaws, BoxType, Entries, Error, Mp4Box, ReadBox, Result, TryClone, WriteBox, codes,
    expect_bytes, put_full_box, put_u32, u8_at, u24_at, u32_at,
};
use std::alloc::Global;

/// A run of samples of a track fragment (`trun`, ISO/IEC 14496-12, 8.8.8). It can be written only if its flags say what
/// it has: the optional fields whose flags are set, `sample_count` entries in each list whose flag is set, and none in
/// the other lists.
#[derive(Debug, Drop, PartialEq, Eq)]
pub struct TrunBox {
    /// The version, 0 or 1 in the standard. Every version is read and written in the same way.
    pub version: u8,
    /// Flags of 24 bits, which say which of the optional fields and of the lists are present.
    pub flags: u32,
    /// The number of samples in the run.
    pub sample_count: u32,
    /// The offset of the run's data, in bytes from the base data offset of the fragment.
    pub data_offset: Option<i32>,
    /// The flags of the first sample, instead of the default flags.
    pub first_sample_flags: Option<u32>,
    /// The duration of each sample, in the timescale of the media.
    pub sample_durations: Entries<u32>,
    /// The size of each sample, in bytes.
    pub sample_sizes: Entries<u32>,
    /// The flags of each sample: its dependencies, and whether it is a sync sample (8.8.3).
    pub sample_flags: Entries<u32>,
    /// The composition time of each sample minus its decoding time, in the timescale of the media. The numbers are
    /// unsigned: a negative offset of version 1 is read as its two's complement, which is 2^31 or above.
    pub sample_cts: Entries<u32>,
}

impl TrunBox {
    /// The flag of `data_offset`.
    pub const FLAG_DATA_OFFSET: u32 = 0x01;
    /// The flag of `first_sample_flags`.
    pub const FLAG_FIRST_SAMPLE_FLAGS: u32 = 0x04;
    /// The flag of `sample_durations`.
    pub const FLAG_SAMPLE_DURATION: u32 = 0x100;
    /// The flag of `sample_sizes`.
    pub const FLAG_SAMPLE_SIZE: u32 = 0x200;
    /// The flag of `sample_flags`.
    pub const FLAG_SAMPLE_FLAGS: u32 = 0x400;
    /// The flag of `sample_cts`.
    pub const FLAG_SAMPLE_CTS: u32 = 0x800;

    /// Returns a box of version 0 and flags 0 without samples. It takes no memory from `alloc`.
    pub fn default_in(alloc: Global) -> TrunBox
        ensures { result ≡ record {
          version = 0;
          flags = 0;
          sample_count = 0;
          data_offset = None;
          first_sample_flags =
              None;
          sample_durations = [];
          sample_sizes = [];
          sample_flags = [];
          sample_cts = [];
        } }
    {
        TrunBox {
            version: 0,
            flags: 0,
            sample_count: 0,
            data_offset: None,
            first_sample_flags: None,
            sample_durations: Entries::new(alloc),
            sample_sizes: Entries::new(alloc),
            sample_flags: Entries::new(alloc),
            sample_cts: Entries::new(alloc),
        }
    }

    /// Returns the type of the box, like `box_type`.
    pub fn get_type(&self) -> BoxType
        ensures { result ≡ names.TrunBox }
    {
        self.box_type()
    }

    /// Returns the size of the box in bytes, like `box_size`.
    pub fn get_size(&self) -> u64
        ensures { result ≡ min (size_trun self.now) (2 ^ 64 - 1) }
    {
        self.box_size()
    }
}

impl TryClone for TrunBox {
    fn try_clone(&self) -> Result<TrunBox> {
        Ok(TrunBox {
            version: self.version,
            flags: self.flags,
            sample_count: self.sample_count,
            data_offset: self.data_offset,
            first_sample_flags: self.first_sample_flags,
            sample_durations: self.sample_durations.try_clone()?,
            sample_sizes: self.sample_sizes.try_clone()?,
            sample_flags: self.sample_flags.try_clone()?,
            sample_cts: self.sample_cts.try_clone()?,
        })
    }
}

/// Returns the offset of the first row.
fn rows_at(flags: u32) -> usize
    ensures offset { result ≡ rows_at flags }
    ensures bounded { result ≤ 24 }
{
    16 + width_if(is_set(flags, TrunBox::FLAG_DATA_OFFSET), 4)
        + width_if(is_set(flags, TrunBox::FLAG_FIRST_SAMPLE_FLAGS), 4)
}

impl Mp4Box for TrunBox {
    ghost format = { format_trun };

    fn box_type(&self) -> BoxType {
        BoxType::TrunBox
    }

    fn box_size(&self) -> u64 {
        let row_length = RowFlags::of(self.flags).row_length();
        rows_at(self.flags) as u64 + row_length as u64 * u64::from(self.sample_count)
    }
}

impl ReadBox for TrunBox {
    ghost reads = { reads_trun };

    const LEAST: u64 = 0;

    #[tactic(auto, unfolding(crate::specs::Trun::reads_trun))]
    fn read_content(alloc: Global, bytes: &[u8], _start: u64, size: u64) -> Result<TrunBox> {
        expect_bytes(bytes, 8, 8)?;
        let flags = u24_at(bytes, 9);
        let sample_count = u32_at(bytes, 12);
        let has_data_offset = is_set(flags, Self::FLAG_DATA_OFFSET);
        let has_first_flags = is_set(flags, Self::FLAG_FIRST_SAMPLE_FLAGS);
        let first_flags_at = 16 + width_if(has_data_offset, 4);
        let rows_at = first_flags_at + width_if(has_first_flags, 4);
        expect_bytes(bytes, 16, rows_at - 16)?;
        let lists = read_lists(alloc, bytes, size, flags, rows_at, sample_count)?;
        Ok(TrunBox {
            version: u8_at(bytes, 8),
            flags,
            sample_count,
            data_offset: signed_bits(u32_if(bytes, 16, has_data_offset)),
            first_sample_flags: u32_if(bytes, first_flags_at, has_first_flags),
            sample_durations: lists.durations,
            sample_sizes: lists.sizes,
            sample_flags: lists.flags,
            sample_cts: lists.cts,
        })
    }
}

/// Returns the signed number with the same bits as `n`, if there is a number.
fn signed_bits(n: Option<u32>) -> Option<i32>
    ensures { result ≡ signed_bits n }
{
    match n {
        Some(bits) => Some(bits.cast_signed()),
        None => None,
    }
}

/// Returns the unsigned number with the same bits as `n`, if there is a number.
fn unsigned_bits(n: Option<i32>) -> Option<u32>
    ensures { result ≡ unsigned_bits n }
{
    match n {
        Some(n) => Some(n.cast_unsigned()),
        None => None,
    }
}

/// Returns true, always. For the prover: `n` has the range of its type.
fn fits_optional(n: Option<i32>) -> bool
    ensures { IsTrue result ↔ FitsOptional n }
{
    match n {
        // For the prover: a value that was read has the range of its type.
        Some(_n) => true,
        None => true,
    }
}

/// Returns whether each list of `trun` has `sample_count` entries if its flag is set, and none otherwise.
fn has_flagged_lists(trun: &TrunBox) -> bool
    ensures { IsTrue result ↔ ListedTrun trun.now }
{
    let has = RowFlags::of(trun.flags);
    let count = trun.sample_count;
    is_listed(has.duration, count, trun.sample_durations.as_slice())
        && is_listed(has.size, count, trun.sample_sizes.as_slice())
        && is_listed(has.flags, count, trun.sample_flags.as_slice())
        && is_listed(has.cts, count, trun.sample_cts.as_slice())
}

/// Returns whether each optional field is present if and only if its flag is set.
fn has_flagged_fields(flags: u32, data_offset: Option<i32>, first_sample_flags: Option<u32>) -> bool
    ensures { IsTrue result ↔ FlaggedTrun flags data_offset first_sample_flags }
{
    let has_data_offset = is_set(flags, TrunBox::FLAG_DATA_OFFSET);
    let has_first_flags = is_set(flags, TrunBox::FLAG_FIRST_SAMPLE_FLAGS);
    is_present_u32(has_data_offset, unsigned_bits(data_offset))
        && fits_optional(data_offset)
        && is_present_u32(has_first_flags, first_sample_flags)
}

impl WriteBox for TrunBox {
    fn is_writable(&self) -> bool {
        // For the prover: a value that was read has the range of its type.
        let _version = self.version;
        let _sample_count = self.sample_count;
        self.flags < 1 << 24
            && self.box_size() < 1 << 32
            && has_flagged_fields(self.flags, self.data_offset, self.first_sample_flags)
            && has_flagged_lists(self)
    }

    #[tactic(auto, using(crate::specs::FlaggedLaws::length_optional), unfolding(crate::specs::Trun::bytes_trun, mp4_frame::specs::Bytes::bytes_of_fields, mp4_frame::specs::Bytes::bytes_of_fields_onto))]
    fn put_box(&self, out: &mut [u8]) {
        let size = self.box_size() as u32;
        let at = put_full_box(out, size, codes::TRUN, self.version, self.flags);
        let at = put_u32(out, at, self.sample_count);
        let at = put_optional_u32(out, at, unsigned_bits(self.data_offset));
        let at = put_optional_u32(out, at, self.first_sample_flags);
        put_rows(out, at, self);
    }

    ghost write_laws = { write_laws laws_trun };
}

impl BoxLaws for TrunBox {
    ghost laws = { laws_trun };
}
