//! The movie header box.

ghost use Rattle.std.specs.Prelude.{◌≡◌, ◌↔◌, IsTrue};
ghost use Rattle.mp4_frame.specs.declared.box_type.BoxType.TheVariants as names;
ghost use Rattle.mp4_frame.specs.Format.{write_laws};
ghost use Rattle.mp4_flat.specs.Mvhd.{size_mvhd, WritableMvhd, reads_mvhd, format_mvhd};
ghost use Rattle.mp4_flat.specs.MvhdLaws.{laws_mvhd, mvhd_takes_none};

use crate::matrix::{Matrix, is_matrix, matrix_from, put_matrix};
use crate::time::{put_time, time_at, time_fits, version_of_times, width_of_time};
use mp4_frame::{
    BoxLaws, BoxType, Mp4Box, ReadBox, ReadsWithoutMemory, Result, TryClone, WriteBox, codes,
    expect_bytes, put_full_box, put_u16, put_u32, put_zeros, u16_at, u24_at, u32_at,
};
use mp4_media::{FixedPointU8, FixedPointU16};
use std::alloc::Global;

/// The movie header: properties of the whole movie (`mvhd`, ISO/IEC 14496-12, 8.2.2).
#[derive(Clone, Debug, Drop, PartialEq, Eq)]
pub struct MvhdBox {
    /// The version: 0, or 1 for times of 64 bits.
    pub version: u8,
    /// Flags of 24 bits, 0 in the standard.
    pub flags: u32,
    /// The creation time of the movie, in seconds since the beginning of 1904, UTC. 32 bits in version 0.
    pub creation_time: u64,
    /// The time of the last change, in seconds since the beginning of 1904, UTC. 32 bits in version 0.
    pub modification_time: u64,
    /// The number of time units per second.
    pub timescale: u32,
    /// The duration of the longest track, in the timescale. 32 bits in version 0.
    pub duration: u64,
    /// The preferred playback rate: 1 is normal speed.
    pub rate: FixedPointU16,
    /// The preferred volume: 1 is full volume.
    pub volume: FixedPointU8,
    /// The transformation of the video.
    pub matrix: Matrix,
    /// A number for the next track: no track of the movie has it.
    pub next_track_id: u32,
}

impl Default for MvhdBox {
    ghost use Rattle.mp4_flat.specs.Mvhd.{default_mvhd, format_mvhd};

    ghost is_default = { λ v. v ≡ default_mvhd };

    fn default() -> MvhdBox {
        MvhdBox {
            version: 0,
            flags: 0,
            creation_time: 0,
            modification_time: 0,
            timescale: 1000,
            duration: 0,
            rate: FixedPointU16::new(1),
            volume: FixedPointU8::new(1),
            matrix: Matrix::default(),
            next_track_id: 1,
        }
    }
}

impl MvhdBox {
    /// Returns the type of the box, like `box_type`.
    pub fn get_type(&self) -> BoxType
        ensures { result ≡ names.MvhdBox }
    {
        self.box_type()
    }

    /// Returns the size of the box in bytes, like `box_size`.
    pub fn get_size(&self) -> u64
        ensures { result ≡ size_mvhd self.now }
    {
        self.box_size()
    }
}

impl TryClone for MvhdBox {
    fn try_clone(&self) -> Result<MvhdBox> {
        Ok(self.clone()?)
    }
}

impl Mp4Box for MvhdBox {
    ghost format = { format_mvhd };

    fn box_type(&self) -> BoxType {
        BoxType::MvhdBox
    }

    fn box_size(&self) -> u64 {
        match self.version {
            0 => 108,
            1 => 120,
            _ => 92,
        }
    }
}

impl ReadBox for MvhdBox {
    ghost reads = { reads_mvhd };

    const LEAST: u64 = 0;

    #[tactic(auto, unfolding(crate::specs::Mvhd::reads_mvhd))]
    fn read_content(_alloc: Global, bytes: &[u8], _start: u64, _size: u64) -> Result<MvhdBox> {
        let version = version_of_times(bytes)?;
        let t = width_of_time(version);
        expect_bytes(bytes, 12, 84 + 3 * t)?;
        Ok(MvhdBox {
            version,
            flags: u24_at(bytes, 9),
            creation_time: time_at(bytes, 12, version),
            modification_time: time_at(bytes, 12 + t, version),
            timescale: u32_at(bytes, 12 + 2 * t),
            duration: time_at(bytes, 16 + 2 * t, version),
            rate: FixedPointU16::new_raw(u32_at(bytes, 16 + 3 * t)),
            volume: FixedPointU8::new_raw(u16_at(bytes, 20 + 3 * t)),
            matrix: matrix_from(bytes, 32 + 3 * t),
            next_track_id: u32_at(bytes, 92 + 3 * t),
        })
    }
}

/// Returns whether a box with these fields can be written. `times` are its creation time, modification time and
/// duration.
fn fits(
    version: u8,
    flags: u32,
    times: (u64, u64, u64),
    timescale: u32,
    rate: FixedPointU16,
    volume: FixedPointU8,
    matrix: &Matrix,
    next_track_id: u32,
) -> bool
    ensures { IsTrue result ↔ WritableMvhd
        (record {
          version = version;
          flags = flags;
          creation_time = times.0;
          modification_time = times.1;
          timescale =
              timescale;
          duration = times.2;
          rate = rate;
          volume = volume;
          matrix = matrix.now;
          next_track_id =
              next_track_id;
        }) }
{
    // For the prover: a value that was read has the range of its type.
    let (_rate, _volume) = (rate.raw_value(), volume.raw_value());
    version < 2
        && flags < 1 << 24
        && time_fits(version, times.0)
        && time_fits(version, times.1)
        && time_fits(version, times.2)
        && is_matrix(matrix)
}

impl ReadsWithoutMemory for MvhdBox {
    ghost takes_none = { mvhd_takes_none };
}

impl WriteBox for MvhdBox {
    fn is_writable(&self) -> bool {
        fits(
            self.version,
            self.flags,
            (self.creation_time, self.modification_time, self.duration),
            self.timescale,
            self.rate,
            self.volume,
            &self.matrix,
            self.next_track_id,
        )
    }

    #[tactic(auto, unfolding(crate::specs::Mvhd::bytes_mvhd, mp4_frame::specs::Bytes::bytes_of_fields, mp4_frame::specs::Bytes::bytes_of_fields_onto))]
    fn put_box(&self, out: &mut [u8]) {
        let size = self.box_size() as u32;
        let at = put_full_box(out, size, codes::MVHD, self.version, self.flags);
        let at = put_time(out, at, self.version, self.creation_time);
        let at = put_time(out, at, self.version, self.modification_time);
        let at = put_u32(out, at, self.timescale);
        let at = put_time(out, at, self.version, self.duration);
        let at = put_u32(out, at, self.rate.raw_value());
        let at = put_u16(out, at, self.volume.raw_value());
        let at = put_zeros(out, at, 10);
        let at = put_matrix(out, at, &self.matrix);
        let at = put_zeros(out, at, 24);
        put_u32(out, at, self.next_track_id);
    }

    ghost write_laws = { write_laws laws_mvhd };
}

impl BoxLaws for MvhdBox {
    ghost laws = { laws_mvhd };
}
