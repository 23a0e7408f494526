//! The configuration of an AVC decoder, `avcC`.

ghost use Rattle.std.specs.Prelude.{◌≡◌, ◌≤◌, ◌+◌, ◌%◌, ◌<◌, ◌-◌, ◌^◌, ◌++◌, All, [], IfOk, IfErr, min, length, take};
ghost use Rattle.mp4_frame.specs.declared.error.Error.TheVariants.{OutOfMemory};
ghost use Rattle.mp4_frame.specs.Format.{write_laws};
ghost use Rattle.mp4_entries.specs.Sets.{IsSet, size_sets};
ghost use Rattle.mp4_entries.specs.Avcc.{made_avcc, reads_avcc, lists_avcc, format_avcc};
ghost use Rattle.mp4_entries.specs.AvccLaws.{laws_avcc};

use crate::nal_unit::NalUnit;
use crate::sets::{are_sets, clone_sets, one_set, put_sets, read_sets, sets_size};
use mp4_frame::{
    BoxLaws, BoxType, Entries, Mp4Box, ReadBox, Result, TryClone, WriteBox, codes, expect_bytes,
    put_u8, put_u32, u8_at,
};
use std::alloc::Global;

/// The configuration of an AVC decoder (`avcC`, ISO/IEC 14496-15, 5.3.3.1). Bytes after the picture sets are neither
/// read nor written.
#[derive(Debug, Drop, PartialEq, Eq)]
pub struct AvcCBox {
    /// The version, 1 in the standard. All versions are read and written in the same way.
    pub configuration_version: u8,
    /// The profile of the stream, such as 100 for High.
    pub avc_profile_indication: u8,
    /// The byte between the profile and the level in a sequence set.
    pub profile_compatibility: u8,
    /// The level of the stream, times 10.
    pub avc_level_indication: u8,
    /// The number of bytes of a unit's length in a sample, minus one. Only its two low bits are written.
    pub length_size_minus_one: u8,
    /// The sequence sets. At most 31 can be written.
    pub sequence_parameter_sets: Entries<NalUnit>,
    /// The picture sets. At most 255 can be written.
    pub picture_parameter_sets: Entries<NalUnit>,
}

impl AvcCBox {
    /// Creates a configuration of zeros, without sets. This takes no memory.
    pub fn default_in(alloc: Global) -> AvcCBox
        ensures { result ≡ record {
          configuration_version = 0;
          avc_profile_indication = 0;
          profile_compatibility = 0;
          avc_level_indication =
              0;
          length_size_minus_one = 0;
          sequence_parameter_sets = [];
          picture_parameter_sets = [];
        } }
    {
        AvcCBox {
            configuration_version: 0,
            avc_profile_indication: 0,
            profile_compatibility: 0,
            avc_level_indication: 0,
            length_size_minus_one: 0,
            sequence_parameter_sets: Entries::new(alloc),
            picture_parameter_sets: Entries::new(alloc),
        }
    }

    /// Creates a configuration of version 1 with the sequence set `sps` and the picture set `pps`. The second, third
    /// and fourth byte of `sps` are the profile, the compatibility and the level; the caller ensures that it has four.
    /// Units have lengths of four bytes. The only error is out of memory.
    pub fn new(alloc: Global, sps: &[u8], pps: &[u8]) -> Result<AvcCBox>
        requires { 4 ≤ length sps.now }
        ensures made { IfOk result (λ v. v ≡ made_avcc sps.now pps.now) }
        ensures memory { IfErr result (λ e. e ≡ OutOfMemory) }
    {
        Ok(AvcCBox {
            configuration_version: 1,
            avc_profile_indication: sps[1],
            profile_compatibility: sps[2],
            avc_level_indication: sps[3],
            length_size_minus_one: 0xff,
            sequence_parameter_sets: one_set(alloc, sps)?,
            picture_parameter_sets: one_set(alloc, pps)?,
        })
    }
}

impl TryClone for AvcCBox {
    fn try_clone(&self) -> Result<AvcCBox> {
        let alloc = *self.sequence_parameter_sets.allocator();
        Ok(AvcCBox {
            configuration_version: self.configuration_version,
            avc_profile_indication: self.avc_profile_indication,
            profile_compatibility: self.profile_compatibility,
            avc_level_indication: self.avc_level_indication,
            length_size_minus_one: self.length_size_minus_one,
            sequence_parameter_sets: clone_sets(alloc, self.sequence_parameter_sets.as_slice())?,
            picture_parameter_sets: clone_sets(alloc, self.picture_parameter_sets.as_slice())?,
        })
    }
}

impl Mp4Box for AvcCBox {
    ghost format = { format_avcc };

    fn box_type(&self) -> BoxType {
        BoxType::AvcCBox
    }

    fn box_size(&self) -> u64 {
        sets_size(self.sequence_parameter_sets.as_slice())
            .saturating_add(sets_size(self.picture_parameter_sets.as_slice()))
            .saturating_add(15)
    }
}

/// Returns the two low bits of `byte`.
fn low_two(byte: u8) -> u8
    ensures { result ≡ byte % 4 }
{
    byte & 0x03
}

/// Returns the five low bits of `byte`.
fn low_five(byte: u8) -> u8
    ensures { result ≡ byte % 32 }
{
    byte & 0x1f
}

impl ReadBox for AvcCBox {
    ghost reads = { reads_avcc };

    const LEAST: u64 = 0;

    #[tactic(auto, unfolding(crate::specs::Avcc::reads_avcc))]
    fn read_content(alloc: Global, bytes: &[u8], _start: u64, _size: u64) -> Result<AvcCBox> {
        expect_bytes(bytes, 8, 6)?;
        let count = low_five(u8_at(bytes, 13));
        let (sequence_parameter_sets, at) = read_sets(alloc, bytes, 14, count)?;
        expect_bytes(bytes, at, 1)?;
        let (picture_parameter_sets, _) = read_sets(alloc, bytes, at + 1, u8_at(bytes, at))?;
        Ok(AvcCBox {
            configuration_version: u8_at(bytes, 8),
            avc_profile_indication: u8_at(bytes, 9),
            profile_compatibility: u8_at(bytes, 10),
            avc_level_indication: u8_at(bytes, 11),
            length_size_minus_one: low_two(u8_at(bytes, 12)),
            sequence_parameter_sets,
            picture_parameter_sets,
        })
    }
}

/// Returns a byte of six ones and the two low bits of `n`.
fn after_six_ones(n: u8) -> u8
    ensures { result ≡ 0xfc + n % 4 }
{
    n & 0x03 | 0xfc
}

/// Returns a byte of three ones and the five bits of `n`.
fn after_three_ones(n: u8) -> u8
    requires { n < 32 }
    ensures { result ≡ 0xe0 + n }
{
    n | 0xe0
}

/// Puts the two lists, with the count of the second between them, and returns the offset after them.
fn put_lists(out: &mut [u8], at: usize, sequence: &[NalUnit], picture: &[NalUnit]) -> usize
    requires sequence { All IsSet sequence.now }
    requires picture { All IsSet picture.now }
    requires count { length picture.now < 2 ^ 8 }
    requires room { at + size_sets sequence.now + 1 + size_sets picture.now ≤ length out.old }
    ensures next { result ≡ at + size_sets sequence.now + 1 + size_sets picture.now }
    ensures put { take result out.new ≡ take at out.old ++ lists_avcc sequence.now picture.now }
{
    let at = put_sets(out, at, sequence);
    let at = put_u8(out, at, picture.len() as u8);
    put_sets(out, at, picture)
}

impl WriteBox for AvcCBox {
    fn is_writable(&self) -> bool {
        // For the prover: a value that was read has the range of its type.
        let (_version, _profile) = (self.configuration_version, self.avc_profile_indication);
        let (_compatibility, _level) = (self.profile_compatibility, self.avc_level_indication);
        self.sequence_parameter_sets.len() <= 31
            && self.picture_parameter_sets.len() <= 255
            && self.box_size() < 1 << 32
            && are_sets(self.sequence_parameter_sets.as_slice())
            && are_sets(self.picture_parameter_sets.as_slice())
    }

    #[tactic(auto, unfolding(crate::specs::Avcc::bytes_avcc, mp4_frame::specs::Bytes::bytes_of_fields, mp4_frame::specs::Bytes::bytes_of_fields_onto))]
    fn put_box(&self, out: &mut [u8]) {
        let sequence = self.sequence_parameter_sets.as_slice();
        let picture = self.picture_parameter_sets.as_slice();
        let at = put_u32(out, 0, self.box_size() as u32);
        let at = put_u32(out, at, codes::AVCC);
        let at = put_u8(out, at, self.configuration_version);
        let at = put_u8(out, at, self.avc_profile_indication);
        let at = put_u8(out, at, self.profile_compatibility);
        let at = put_u8(out, at, self.avc_level_indication);
        let at = put_u8(out, at, after_six_ones(self.length_size_minus_one));
        let at = put_u8(out, at, after_three_ones(sequence.len() as u8));
        put_lists(out, at, sequence, picture);
    }

    ghost write_laws = { write_laws laws_avcc };
}

impl BoxLaws for AvcCBox {
    ghost laws = { laws_avcc };
}
