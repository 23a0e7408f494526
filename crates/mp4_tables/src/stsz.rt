//! The sample size box.

ghost use Rattle.std.specs.Prelude.{◌≡◌, ◌-◌, ◌^◌, [], min};
ghost use Rattle.mp4_frame.specs.Reading.{AnswersAs};
ghost use Rattle.mp4_frame.specs.declared.box_type.BoxType.TheVariants as names;
ghost use Rattle.mp4_frame.specs.Format.{write_laws};
ghost use Rattle.mp4_tables.specs.Stsz.{reads_sizes, count_of_sizes, size_stsz, reads_stsz, format_stsz};
ghost use Rattle.mp4_tables.specs.StszLaws.{laws_stsz};

use crate::rows::{entries_of, read_rows};
use mp4_frame::{
    BoxLaws, BoxType, Entries, Mp4Box, ReadBox, Result, TryClone, WriteBox, all_fit, codes,
    expect_bytes, is_whole, put_entries, put_full_box, put_u32, u8_at, u24_at, u32_at,
};
use std::alloc::Global;

/// The sizes of the samples of a track (`stsz`, ISO/IEC 14496-12, 8.7.3.2). If `sample_size` is 0, the box can be
/// written only with `sample_count` entries in `sample_sizes`, else only with none.
#[derive(Debug, Drop, PartialEq, Eq)]
pub struct StszBox {
    /// The version, 0 in the standard. Every version is read and written in the same way.
    pub version: u8,
    /// Flags of 24 bits, 0 in the standard.
    pub flags: u32,
    /// The size of every sample, in bytes, or 0 if the sizes are in `sample_sizes`.
    pub sample_size: u32,
    /// The number of samples of the track.
    pub sample_count: u32,
    /// The size of each sample, in bytes, if `sample_size` is 0.
    pub sample_sizes: Entries<u32>,
}

impl StszBox {
    /// Returns a box of version 0 and flags 0 with sample size 0 and without samples. It takes no memory from `alloc`.
    pub fn default_in(alloc: Global) -> StszBox
        ensures { result ≡ record { version = 0; flags = 0; sample_size = 0; sample_count = 0; sample_sizes = [] } }
    {
        StszBox {
            version: 0,
            flags: 0,
            sample_size: 0,
            sample_count: 0,
            sample_sizes: Entries::new(alloc),
        }
    }

    /// Returns the type of the box, like `box_type`.
    pub fn get_type(&self) -> BoxType
        ensures { result ≡ names.StszBox }
    {
        self.box_type()
    }

    /// Returns the size of the box in bytes, like `box_size`.
    pub fn get_size(&self) -> u64
        ensures { result ≡ min (size_stsz self.now) (2 ^ 64 - 1) }
    {
        self.box_size()
    }
}

impl TryClone for StszBox {
    fn try_clone(&self) -> Result<StszBox> {
        Ok(StszBox {
            version: self.version,
            flags: self.flags,
            sample_size: self.sample_size,
            sample_count: self.sample_count,
            sample_sizes: self.sample_sizes.try_clone()?,
        })
    }
}

/// Returns the number of sizes that the list must have: `sample_count` if `sample_size` is 0, else 0.
fn listed_count(sample_size: u32, sample_count: u32) -> usize
    ensures { result ≡ count_of_sizes sample_size sample_count }
{
    if sample_size == 0 {
        sample_count as usize
    } else {
        0
    }
}

impl Mp4Box for StszBox {
    ghost format = { format_stsz };

    fn box_type(&self) -> BoxType {
        BoxType::StszBox
    }

    fn box_size(&self) -> u64 {
        (self.sample_sizes.len() as u64)
            .saturating_mul(4)
            .saturating_add(20)
    }
}

/// Reads the `count` sizes of a box of `size` bytes. It asks for memory once all of them are present.
#[tactic(auto, unfolding(crate::specs::Stsz::reads_sizes))]
fn read_sizes(alloc: Global, bytes: &[u8], size: u64, count: u32) -> Result<Vec<u32>>
    ensures { AnswersAs (λ sizes. sizes.items) result (reads_sizes bytes.now size count) }
{
    let rows = read_rows::<4>(
        bytes,
        size,
        20,
        u64::from(count),
        "stsz sample_count indicates more values than could fit in the box",
    )?;
    entries_of(alloc, rows)
}

impl ReadBox for StszBox {
    ghost reads = { reads_stsz };

    const LEAST: u64 = 0;

    #[tactic(auto, unfolding(crate::specs::Stsz::reads_stsz))]
    fn read_content(alloc: Global, bytes: &[u8], _start: u64, size: u64) -> Result<StszBox> {
        expect_bytes(bytes, 8, 12)?;
        let sample_size = u32_at(bytes, 12);
        let sample_count = u32_at(bytes, 16);
        let sample_sizes = if sample_size == 0 {
            read_sizes(alloc, bytes, size, sample_count)?
        } else {
            Vec::new(alloc)
        };
        Ok(StszBox {
            version: u8_at(bytes, 8),
            flags: u24_at(bytes, 9),
            sample_size,
            sample_count,
            sample_sizes: sample_sizes.into(),
        })
    }
}

impl WriteBox for StszBox {
    fn is_writable(&self) -> bool {
        // For the prover: a value that was read has the range of its type.
        let _version = self.version;
        self.flags < 1 << 24
            && self.box_size() < 1 << 32
            && self.sample_sizes.len() == listed_count(self.sample_size, self.sample_count)
            && all_fit(self.sample_sizes.as_slice())
    }

    #[tactic(auto, unfolding(crate::specs::Stsz::bytes_stsz, mp4_frame::specs::Bytes::bytes_of_fields, mp4_frame::specs::Bytes::bytes_of_fields_onto))]
    fn put_box(&self, out: &mut [u8]) {
        let size = self.box_size() as u32;
        let at = put_full_box(out, size, codes::STSZ, self.version, self.flags);
        let at = put_u32(out, at, self.sample_size);
        let at = put_u32(out, at, self.sample_count);
        put_entries(out, at, self.sample_sizes.as_slice());
    }

    #[tactic(auto, using(crate::specs::StszLaws::normal_stsz))]
    fn is_normal_form(bytes: &[u8]) -> bool {
        if bytes.len() < 20 || !is_whole(bytes, codes::STSZ) {
            return false;
        }
        let listed = listed_count(u32_at(bytes, 12), u32_at(bytes, 16));
        bytes.len() - 20 == 4 * listed
    }

    ghost write_laws = { write_laws laws_stsz };
}

impl BoxLaws for StszBox {
    ghost laws = { laws_stsz };
}
