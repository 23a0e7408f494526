//! The track fragment decode time box.

ghost use Rattle.std.specs.Prelude.{◌≡◌};
ghost use Rattle.mp4_frame.specs.declared.box_type.BoxType.TheVariants as names;
ghost use Rattle.mp4_frame.specs.Format.{write_laws};
ghost use Rattle.mp4_flat.specs.Tfdt.{size_tfdt, reads_tfdt, format_tfdt};
ghost use Rattle.mp4_flat.specs.TfdtLaws.{laws_tfdt, tfdt_takes_none};

use crate::time::{put_time, time_at, time_fits, version_of_times, width_of_time};
use mp4_frame::{
    BoxLaws, BoxType, Mp4Box, ReadBox, ReadsWithoutMemory, Result, TryClone, WriteBox, codes,
    expect_bytes, put_full_box, u24_at,
};
use std::alloc::Global;

/// The decode time of the first sample of a track fragment (`tfdt`, ISO/IEC 14496-12, 8.8.12).
#[derive(Clone, Debug, Default, Drop, PartialEq, Eq)]
pub struct TfdtBox {
    /// The version: 0, or 1 for a time of 64 bits.
    pub version: u8,
    /// Flags of 24 bits, 0 in the standard.
    pub flags: u32,
    /// The sum of the durations of all earlier samples of the track, in the timescale of the media. 32 bits in
    /// version 0.
    pub base_media_decode_time: u64,
}

impl TfdtBox {
    /// Returns the type of the box, like `box_type`.
    pub fn get_type(&self) -> BoxType
        ensures { result ≡ names.TfdtBox }
    {
        self.box_type()
    }

    /// Returns the size of the box in bytes, like `box_size`.
    pub fn get_size(&self) -> u64
        ensures { result ≡ size_tfdt self.now }
    {
        self.box_size()
    }
}

impl TryClone for TfdtBox {
    fn try_clone(&self) -> Result<TfdtBox> {
        Ok(self.clone()?)
    }
}

impl Mp4Box for TfdtBox {
    ghost format = { format_tfdt };

    fn box_type(&self) -> BoxType {
        BoxType::TfdtBox
    }

    fn box_size(&self) -> u64 {
        if self.version == 1 { 20 } else { 16 }
    }
}

impl ReadBox for TfdtBox {
    ghost reads = { reads_tfdt };

    const LEAST: u64 = 0;

    #[tactic(auto, unfolding(crate::specs::Tfdt::reads_tfdt))]
    fn read_content(_alloc: Global, bytes: &[u8], _start: u64, _size: u64) -> Result<TfdtBox> {
        let version = version_of_times(bytes)?;
        expect_bytes(bytes, 12, width_of_time(version))?;
        Ok(TfdtBox {
            version,
            flags: u24_at(bytes, 9),
            base_media_decode_time: time_at(bytes, 12, version),
        })
    }
}

impl ReadsWithoutMemory for TfdtBox {
    ghost takes_none = { tfdt_takes_none };
}

impl WriteBox for TfdtBox {
    fn is_writable(&self) -> bool {
        self.version < 2
            && self.flags < 1 << 24
            && time_fits(self.version, self.base_media_decode_time)
    }

    #[tactic(auto, unfolding(crate::specs::Tfdt::bytes_tfdt, mp4_frame::specs::Bytes::bytes_of_fields, mp4_frame::specs::Bytes::bytes_of_fields_onto))]
    fn put_box(&self, out: &mut [u8]) {
        let size = self.box_size() as u32;
        let at = put_full_box(out, size, codes::TFDT, self.version, self.flags);
        put_time(out, at, self.version, self.base_media_decode_time);
    }

    ghost write_laws = { write_laws laws_tfdt };
}

impl BoxLaws for TfdtBox {
    ghost laws = { laws_tfdt };
}
