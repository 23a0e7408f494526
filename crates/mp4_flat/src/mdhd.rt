//! The media header box.

ghost use Rattle.std.specs.Prelude.{◌≡◌, IfOk, IfErr};
ghost use Rattle.mp4_frame.specs.declared.box_type.BoxType.TheVariants as names;
ghost use Rattle.mp4_frame.specs.Format.{write_laws};
ghost use Rattle.mp4_flat.specs.Mdhd.{default_mdhd, size_mdhd, reads_mdhd, format_mdhd};
ghost use Rattle.mp4_flat.specs.MdhdLaws.{laws_mdhd};

use crate::language::{language_code, language_string};
use crate::time::{put_time, time_at, time_fits, version_of_times, width_of_time};
use mp4_frame::{
    BoxLaws, BoxType, Error, Mp4Box, ReadBox, Result, Text, TryClone, WriteBox, codes,
    expect_bytes, put_full_box, put_u16, put_u32, put_zeros, u16_at, u24_at, u32_at,
};
use std::alloc::Global;

/// The media header: properties of the media of a track (`mdhd`, ISO/IEC 14496-12, 8.4.2).
#[derive(Debug, Drop, PartialEq, Eq)]
pub struct MdhdBox {
    /// The version: 0, or 1 for times of 64 bits.
    pub version: u8,
    /// Flags of 24 bits, 0 in the standard.
    pub flags: u32,
    /// The creation time of the media, in seconds since the beginning of 1904, UTC. 32 bits in version 0.
    pub creation_time: u64,
    /// The time of the last change, in seconds since the beginning of 1904, UTC. 32 bits in version 0.
    pub modification_time: u64,
    /// The number of time units per second.
    pub timescale: u32,
    /// The duration of the media, in the timescale. 32 bits in version 0.
    pub duration: u64,
    /// The three letters of the language (ISO 639-2/T). They are written as their `language_code`.
    pub language: Text,
}

impl MdhdBox {
    /// Returns a box of version 0 with a timescale of 1000, the undetermined language `und`, and zeros in the other
    /// fields. The only error is out of memory.
    pub fn default_in(alloc: Global) -> Result<MdhdBox>
        ensures default { IfOk result (λ v. v ≡ default_mdhd) }
        ensures memory { IfErr result (λ e. e ≡ Error.OutOfMemory) }
    {
        Ok(MdhdBox {
            version: 0,
            flags: 0,
            creation_time: 0,
            modification_time: 0,
            timescale: 1000,
            duration: 0,
            language: Text::from_str(alloc, "und")?,
        })
    }

    /// Returns the type of the box, like `box_type`.
    pub fn get_type(&self) -> BoxType
        ensures { result ≡ names.MdhdBox }
    {
        self.box_type()
    }

    /// Returns the size of the box in bytes, like `box_size`.
    pub fn get_size(&self) -> u64
        ensures { result ≡ size_mdhd self.now }
    {
        self.box_size()
    }
}

impl TryClone for MdhdBox {
    fn try_clone(&self) -> Result<MdhdBox> {
        Ok(MdhdBox {
            version: self.version,
            flags: self.flags,
            creation_time: self.creation_time,
            modification_time: self.modification_time,
            timescale: self.timescale,
            duration: self.duration,
            language: self.language.try_clone()?,
        })
    }
}

impl Mp4Box for MdhdBox {
    ghost format = { format_mdhd };

    fn box_type(&self) -> BoxType {
        BoxType::MdhdBox
    }

    fn box_size(&self) -> u64 {
        match self.version {
            0 => 32,
            1 => 44,
            _ => 16,
        }
    }
}

impl ReadBox for MdhdBox {
    ghost reads = { reads_mdhd };

    const LEAST: u64 = 0;

    #[tactic(auto, unfolding(crate::specs::Mdhd::reads_mdhd))]
    fn read_content(alloc: Global, bytes: &[u8], _start: u64, _size: u64) -> Result<MdhdBox> {
        let version = version_of_times(bytes)?;
        let t = width_of_time(version);
        expect_bytes(bytes, 12, 6 + 3 * t)?;
        let language = language_string(alloc, u16_at(bytes, 16 + 3 * t))?;
        Ok(MdhdBox {
            version,
            flags: u24_at(bytes, 9),
            creation_time: time_at(bytes, 12, version),
            modification_time: time_at(bytes, 12 + t, version),
            timescale: u32_at(bytes, 12 + 2 * t),
            duration: time_at(bytes, 16 + 2 * t, version),
            language: language.into(),
        })
    }
}

impl WriteBox for MdhdBox {
    #[tactic(auto, using(crate::specs::LanguageLaws::language_fits))]
    fn is_writable(&self) -> bool {
        // For the prover: a value that was read has the range of its type.
        let _timescale = self.timescale;
        self.version < 2
            && self.flags < 1 << 24
            && time_fits(self.version, self.creation_time)
            && time_fits(self.version, self.modification_time)
            && time_fits(self.version, self.duration)
    }

    #[tactic(auto, unfolding(crate::specs::Mdhd::bytes_mdhd, mp4_frame::specs::Bytes::bytes_of_fields, mp4_frame::specs::Bytes::bytes_of_fields_onto))]
    fn put_box(&self, out: &mut [u8]) {
        let size = self.box_size() as u32;
        let at = put_full_box(out, size, codes::MDHD, self.version, self.flags);
        let at = put_time(out, at, self.version, self.creation_time);
        let at = put_time(out, at, self.version, self.modification_time);
        let at = put_u32(out, at, self.timescale);
        let at = put_time(out, at, self.version, self.duration);
        let at = put_u16(out, at, language_code(self.language.as_str()));
        put_zeros(out, at, 2);
    }

    ghost write_laws = { write_laws laws_mdhd };
}

impl BoxLaws for MdhdBox {
    ghost laws = { laws_mdhd };
}
