//! The movie extends header box.

ghost use Rattle.std.specs.Prelude.{◌≡◌};
ghost use Rattle.mp4_frame.specs.declared.box_type.BoxType.TheVariants as names;
ghost use Rattle.mp4_frame.specs.Format.{write_laws};
ghost use Rattle.mp4_flat.specs.Mehd.{size_mehd, reads_mehd, format_mehd};
ghost use Rattle.mp4_flat.specs.MehdLaws.{laws_mehd, mehd_takes_none};

use crate::time::{put_time, time_at, time_fits, version_of_times, width_of_time};
use mp4_frame::{
    BoxLaws, BoxType, Mp4Box, ReadBox, ReadsWithoutMemory, Result, TryClone, WriteBox, codes,
    expect_bytes, put_full_box, u24_at,
};
use std::alloc::Global;

/// The movie extends header: the duration of a movie with fragments (`mehd`, ISO/IEC 14496-12, 8.8.2).
#[derive(Clone, Debug, Default, Drop, PartialEq, Eq)]
pub struct MehdBox {
    /// The version: 0, or 1 for a duration of 64 bits.
    pub version: u8,
    /// Flags of 24 bits, 0 in the standard.
    pub flags: u32,
    /// The duration of the whole movie, in the timescale of the movie header. 32 bits in version 0.
    pub fragment_duration: u64,
}

impl MehdBox {
    /// Returns the type of the box, like `box_type`.
    pub fn get_type(&self) -> BoxType
        ensures { result ≡ names.MehdBox }
    {
        self.box_type()
    }

    /// Returns the size of the box in bytes, like `box_size`.
    pub fn get_size(&self) -> u64
        ensures { result ≡ size_mehd self.now }
    {
        self.box_size()
    }
}

impl TryClone for MehdBox {
    fn try_clone(&self) -> Result<MehdBox> {
        Ok(self.clone()?)
    }
}

impl Mp4Box for MehdBox {
    ghost format = { format_mehd };

    fn box_type(&self) -> BoxType {
        BoxType::MehdBox
    }

    fn box_size(&self) -> u64 {
        match self.version {
            0 => 16,
            1 => 20,
            _ => 12,
        }
    }
}

impl ReadBox for MehdBox {
    ghost reads = { reads_mehd };

    const LEAST: u64 = 0;

    #[tactic(auto, unfolding(crate::specs::Mehd::reads_mehd))]
    fn read_content(_alloc: Global, bytes: &[u8], _start: u64, _size: u64) -> Result<MehdBox> {
        let version = version_of_times(bytes)?;
        expect_bytes(bytes, 12, width_of_time(version))?;
        Ok(MehdBox {
            version,
            flags: u24_at(bytes, 9),
            fragment_duration: time_at(bytes, 12, version),
        })
    }
}

impl ReadsWithoutMemory for MehdBox {
    ghost takes_none = { mehd_takes_none };
}

impl WriteBox for MehdBox {
    fn is_writable(&self) -> bool {
        self.version < 2 && self.flags < 1 << 24 && time_fits(self.version, self.fragment_duration)
    }

    #[tactic(auto, unfolding(crate::specs::Mehd::bytes_mehd, mp4_frame::specs::Bytes::bytes_of_fields, mp4_frame::specs::Bytes::bytes_of_fields_onto))]
    fn put_box(&self, out: &mut [u8]) {
        let size = self.box_size() as u32;
        let at = put_full_box(out, size, codes::MEHD, self.version, self.flags);
        put_time(out, at, self.version, self.fragment_duration);
    }

    ghost write_laws = { write_laws laws_mehd };
}

impl BoxLaws for MehdBox {
    ghost laws = { laws_mehd };
}
