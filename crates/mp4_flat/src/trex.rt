//! The track extends box.

ghost use Rattle.std.specs.Prelude.{◌≡◌};
ghost use Rattle.mp4_frame.specs.declared.box_type.BoxType.TheVariants as names;
ghost use Rattle.mp4_frame.specs.Format.{write_laws};
ghost use Rattle.mp4_flat.specs.Trex.{size_trex, reads_trex, format_trex};
ghost use Rattle.mp4_flat.specs.TrexLaws.{laws_trex, trex_takes_none};

use mp4_frame::{
    BoxLaws, BoxType, Mp4Box, ReadBox, ReadsWithoutMemory, Result, TryClone, WriteBox, codes,
    expect_bytes, put_full_box, put_u32, u8_at, u24_at, u32_at,
};
use std::alloc::Global;

/// The track extends box: defaults for the samples of a track's fragments. A fragment can replace each of them (`trex`,
/// ISO/IEC 14496-12, 8.8.3).
#[derive(Clone, Debug, Default, Drop, PartialEq, Eq)]
pub struct TrexBox {
    /// The version, 0 in the standard. Every version is read and written in the same way.
    pub version: u8,
    /// Flags of 24 bits, 0 in the standard.
    pub flags: u32,
    /// The number of the track.
    pub track_id: u32,
    /// The index of the entry in the sample description box that describes a sample, counted from 1.
    pub default_sample_description_index: u32,
    /// The duration of a sample, in the timescale of the media.
    pub default_sample_duration: u32,
    /// The size of a sample, in bytes.
    pub default_sample_size: u32,
    /// The flags of a sample (8.8.3.1).
    pub default_sample_flags: u32,
}

impl TrexBox {
    /// Returns the type of the box, like `box_type`.
    pub fn get_type(&self) -> BoxType
        ensures { result ≡ names.TrexBox }
    {
        self.box_type()
    }

    /// Returns the size of the box in bytes, like `box_size`.
    pub fn get_size(&self) -> u64
        ensures { result ≡ size_trex self.now }
    {
        self.box_size()
    }
}

impl TryClone for TrexBox {
    fn try_clone(&self) -> Result<TrexBox> {
        Ok(self.clone()?)
    }
}

impl Mp4Box for TrexBox {
    ghost format = { format_trex };

    fn box_type(&self) -> BoxType {
        BoxType::TrexBox
    }

    fn box_size(&self) -> u64 {
        32
    }
}

impl ReadBox for TrexBox {
    ghost reads = { reads_trex };

    const LEAST: u64 = 0;

    #[tactic(auto, unfolding(crate::specs::Trex::reads_trex))]
    fn read_content(_alloc: Global, bytes: &[u8], _start: u64, _size: u64) -> Result<TrexBox> {
        expect_bytes(bytes, 8, 24)?;
        Ok(TrexBox {
            version: u8_at(bytes, 8),
            flags: u24_at(bytes, 9),
            track_id: u32_at(bytes, 12),
            default_sample_description_index: u32_at(bytes, 16),
            default_sample_duration: u32_at(bytes, 20),
            default_sample_size: u32_at(bytes, 24),
            default_sample_flags: u32_at(bytes, 28),
        })
    }
}

impl ReadsWithoutMemory for TrexBox {
    ghost takes_none = { trex_takes_none };
}

impl WriteBox for TrexBox {
    fn is_writable(&self) -> bool {
        // For the prover: a value that was read has the range of its type.
        let (_version, _track_id) = (self.version, self.track_id);
        let (_index, _duration) = (
            self.default_sample_description_index,
            self.default_sample_duration,
        );
        let (_size, _flags) = (self.default_sample_size, self.default_sample_flags);
        self.flags < 1 << 24
    }

    #[tactic(auto, unfolding(crate::specs::Trex::bytes_trex, mp4_frame::specs::Bytes::bytes_of_fields, mp4_frame::specs::Bytes::bytes_of_fields_onto))]
    fn put_box(&self, out: &mut [u8]) {
        let at = put_full_box(out, 32, codes::TREX, self.version, self.flags);
        let at = put_u32(out, at, self.track_id);
        let at = put_u32(out, at, self.default_sample_description_index);
        let at = put_u32(out, at, self.default_sample_duration);
        let at = put_u32(out, at, self.default_sample_size);
        put_u32(out, at, self.default_sample_flags);
    }

    ghost write_laws = { write_laws laws_trex };
}

impl BoxLaws for TrexBox {
    ghost laws = { laws_trex };
}
