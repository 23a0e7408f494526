//! The track header box.

ghost use Rattle.std.specs.Prelude.{◌≡◌, ◌↔◌, IsTrue};
ghost use Rattle.mp4_frame.specs.declared.box_type.BoxType.TheVariants as names;
ghost use Rattle.mp4_media.specs.FixedPoint.{scaled};
ghost use Rattle.mp4_frame.specs.Format.{write_laws};
ghost use Rattle.mp4_flat.specs.Tkhd.{size_tkhd, WritableTkhd, reads_tkhd, format_tkhd};
ghost use Rattle.mp4_flat.specs.TkhdLaws.{laws_tkhd, tkhd_takes_none};

use crate::matrix::{Matrix, is_matrix, matrix_from, put_matrix};
use crate::time::{put_time, time_at, time_fits, version_of_times, width_of_time};
use crate::track_flag::TrackFlag;
use mp4_frame::{
    BoxLaws, BoxType, Mp4Box, ReadBox, ReadsWithoutMemory, Result, TryClone, WriteBox, codes,
    expect_bytes, put_full_box, put_u16, put_u32, put_zeros, u16_at, u24_at, u32_at,
};
use mp4_media::{FixedPointU8, FixedPointU16};
use std::alloc::Global;

/// The track header: properties of a track (`tkhd`, ISO/IEC 14496-12, 8.3.2).
#[derive(Clone, Debug, Drop, PartialEq, Eq)]
pub struct TkhdBox {
    /// The version: 0, or 1 for times of 64 bits.
    pub version: u8,
    /// Flags of 24 bits. `TrackFlag` has those that have a name.
    pub flags: u32,
    /// The creation time of the track, in seconds since the beginning of 1904, UTC. 32 bits in version 0.
    pub creation_time: u64,
    /// The time of the last change, in seconds since the beginning of 1904, UTC. 32 bits in version 0.
    pub modification_time: u64,
    /// The number of the track. It is not 0 in the standard.
    pub track_id: u32,
    /// The duration of the track, in the timescale of the movie header. 32 bits in version 0.
    pub duration: u64,
    /// The place in the front-to-back order, a two's complement number. Tracks with a lower layer cover this one.
    pub layer: u16,
    /// The group of alternate tracks, one of which is to be played, or 0 for no group.
    pub alternate_group: u16,
    /// The volume of the track: 1 is full volume.
    pub volume: FixedPointU8,
    /// The transformation of the video.
    pub matrix: Matrix,
    /// The width at which the video is shown, in pixels.
    pub width: FixedPointU16,
    /// The height at which the video is shown, in pixels.
    pub height: FixedPointU16,
}

impl Default for TkhdBox {
    ghost use Rattle.mp4_flat.specs.Tkhd.{default_tkhd, format_tkhd};

    ghost is_default = { λ v. v ≡ default_tkhd };

    fn default() -> TkhdBox {
        TkhdBox {
            version: 0,
            flags: TrackFlag::TrackEnabled as u32,
            creation_time: 0,
            modification_time: 0,
            track_id: 0,
            duration: 0,
            layer: 0,
            alternate_group: 0,
            volume: FixedPointU8::new(1),
            matrix: Matrix::default(),
            width: FixedPointU16::new(0),
            height: FixedPointU16::new(0),
        }
    }
}

impl TkhdBox {
    /// Returns the type of the box, like `box_type`.
    pub fn get_type(&self) -> BoxType
        ensures { result ≡ names.TkhdBox }
    {
        self.box_type()
    }

    /// Returns the size of the box in bytes, like `box_size`.
    pub fn get_size(&self) -> u64
        ensures { result ≡ size_tkhd self.now }
    {
        self.box_size()
    }

    /// Sets the width to `width` pixels.
    pub fn set_width(&mut self, width: u16)
        ensures { self.new ≡ record self.old { width = scaled 65536 width } }
    {
        self.width = FixedPointU16::new(width);
    }

    /// Sets the height to `height` pixels.
    pub fn set_height(&mut self, height: u16)
        ensures { self.new ≡ record self.old { height = scaled 65536 height } }
    {
        self.height = FixedPointU16::new(height);
    }
}

impl TryClone for TkhdBox {
    fn try_clone(&self) -> Result<TkhdBox> {
        Ok(self.clone()?)
    }
}

impl Mp4Box for TkhdBox {
    ghost format = { format_tkhd };

    fn box_type(&self) -> BoxType {
        BoxType::TkhdBox
    }

    fn box_size(&self) -> u64 {
        match self.version {
            0 => 92,
            1 => 104,
            _ => 72,
        }
    }
}

impl ReadBox for TkhdBox {
    ghost reads = { reads_tkhd };

    const LEAST: u64 = 0;

    #[tactic(auto, unfolding(crate::specs::Tkhd::reads_tkhd))]
    fn read_content(_alloc: Global, bytes: &[u8], _start: u64, _size: u64) -> Result<TkhdBox> {
        let version = version_of_times(bytes)?;
        let t = width_of_time(version);
        expect_bytes(bytes, 12, 68 + 3 * t)?;
        Ok(TkhdBox {
            version,
            flags: u24_at(bytes, 9),
            creation_time: time_at(bytes, 12, version),
            modification_time: time_at(bytes, 12 + t, version),
            track_id: u32_at(bytes, 12 + 2 * t),
            duration: time_at(bytes, 20 + 2 * t, version),
            layer: u16_at(bytes, 28 + 3 * t),
            alternate_group: u16_at(bytes, 30 + 3 * t),
            volume: FixedPointU8::new_raw(u16_at(bytes, 32 + 3 * t)),
            matrix: matrix_from(bytes, 36 + 3 * t),
            width: FixedPointU16::new_raw(u32_at(bytes, 72 + 3 * t)),
            height: FixedPointU16::new_raw(u32_at(bytes, 76 + 3 * t)),
        })
    }
}

/// Returns whether a box with these fields can be written. `times` are its creation time, modification time and
/// duration, `layers` its layer and alternate group, and `shown` its width and height.
fn fits(
    version: u8,
    flags: u32,
    times: (u64, u64, u64),
    track_id: u32,
    layers: (u16, u16),
    volume: FixedPointU8,
    matrix: &Matrix,
    shown: (FixedPointU16, FixedPointU16),
) -> bool
    ensures { IsTrue result ↔ WritableTkhd
        (record {
          version = version;
          flags = flags;
          creation_time = times.0;
          modification_time = times.1;
          track_id =
              track_id;
          duration = times.2;
          layer = layers.0;
          alternate_group = layers.1;
          volume = volume;
          matrix =
              matrix.now;
          width = shown.0;
          height = shown.1;
        }) }
{
    // For the prover: a value that was read has the range of its type.
    let (_width, _height) = (shown.0.raw_value(), shown.1.raw_value());
    let _volume = volume.raw_value();
    version < 2
        && flags < 1 << 24
        && time_fits(version, times.0)
        && time_fits(version, times.1)
        && time_fits(version, times.2)
        && is_matrix(matrix)
}

impl ReadsWithoutMemory for TkhdBox {
    ghost takes_none = { tkhd_takes_none };
}

impl WriteBox for TkhdBox {
    fn is_writable(&self) -> bool {
        fits(
            self.version,
            self.flags,
            (self.creation_time, self.modification_time, self.duration),
            self.track_id,
            (self.layer, self.alternate_group),
            self.volume,
            &self.matrix,
            (self.width, self.height),
        )
    }

    #[tactic(auto, unfolding(crate::specs::Tkhd::bytes_tkhd, mp4_frame::specs::Bytes::bytes_of_fields, mp4_frame::specs::Bytes::bytes_of_fields_onto))]
    fn put_box(&self, out: &mut [u8]) {
        let size = self.box_size() as u32;
        let at = put_full_box(out, size, codes::TKHD, self.version, self.flags);
        let at = put_time(out, at, self.version, self.creation_time);
        let at = put_time(out, at, self.version, self.modification_time);
        let at = put_u32(out, at, self.track_id);
        let at = put_zeros(out, at, 4);
        let at = put_time(out, at, self.version, self.duration);
        let at = put_zeros(out, at, 8);
        let at = put_u16(out, at, self.layer);
        let at = put_u16(out, at, self.alternate_group);
        let at = put_u16(out, at, self.volume.raw_value());
        let at = put_zeros(out, at, 2);
        let at = put_matrix(out, at, &self.matrix);
        let at = put_u32(out, at, self.width.raw_value());
        put_u32(out, at, self.height.raw_value());
    }

    ghost write_laws = { write_laws laws_tkhd };
}

impl BoxLaws for TkhdBox {
    ghost laws = { laws_tkhd };
}
