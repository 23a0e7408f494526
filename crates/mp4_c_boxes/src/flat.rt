//! The structs for C of the boxes of `mp4_flat`.

ghost use Rattle.std.specs.Prelude.{◌≡◌, IfOk, IfErr, slice_index};
ghost use Rattle.mp4_c_boxes.specs.FixedFields.{mvhd_of, fields_mvhd, tkhd_of, fields_tkhd, mdhd_of, fields_mdhd};
ghost use Rattle.mp4_c_boxes.specs.FixedFields.{mehd_of, fields_mehd, mfhd_of, fields_mfhd, smhd_of, fields_smhd};
ghost use Rattle.mp4_c_boxes.specs.FixedFields.{vmhd_of, fields_vmhd, trex_of, fields_trex, tfdt_of, fields_tfdt};
ghost use Rattle.mp4_c_boxes.specs.FixedFields.{matrix_of, language_of, language_letters};
ghost use Rattle.mp4_frame.specs.declared.error.Error.TheVariants.{OutOfMemory};
ghost use Rattle.mp4_flat.specs.Matrix.{numbers_matrix};

use crate::to_struct::ToStruct;
use mp4_flat::{
    Matrix, MdhdBox, MehdBox, MfhdBox, MvhdBox, RgbColor, SmhdBox, TfdtBox, TkhdBox, TrexBox,
    VmhdBox, language_string,
};
use mp4_frame::{Result, Text};
use mp4_media::{FixedPointI8, FixedPointU8, FixedPointU16};
use std::alloc::Global;

/// The movie header: properties of the whole movie (ISO/IEC 14496-12, 8.2.2).
#[repr(C)]
#[derive(Clone, Copy)]
pub struct Mvhd {
    /// The creation time of the movie, in seconds since the beginning of 1904, UTC. 32 bits in version 0.
    pub creation_time: u64,
    /// The time of the last change, in seconds since the beginning of 1904, UTC. 32 bits in version 0.
    pub modification_time: u64,
    /// The duration of the longest track, in the timescale. 32 bits in version 0.
    pub duration: u64,
    /// The flags of the box: 24 bits, 0 in the standard.
    pub flags: u32,
    /// The number of time units per second.
    pub timescale: u32,
    /// The preferred playback rate times 65536: 0x10000 is normal speed.
    pub rate: u32,
    /// The transformation of the video: a, b, u, c, d, v, x, y and w, times 65536, but u, v and w times 2^30.
    pub matrix: [i32; 9],
    /// A track number that no track of the movie has.
    pub next_track_id: u32,
    /// The preferred volume times 256: 0x100 is full volume.
    pub volume: u16,
    /// The version of the box: 0, or 1 for times of 64 bits.
    pub version: u8,
}

impl ToStruct<Mvhd> for MvhdBox {
    ghost to_struct = { fields_mvhd };

    fn to_struct(&self) -> Mvhd {
        Mvhd {
            creation_time: self.creation_time,
            modification_time: self.modification_time,
            duration: self.duration,
            flags: self.flags,
            timescale: self.timescale,
            rate: self.rate.raw_value(),
            matrix: numbers_of(&self.matrix),
            next_track_id: self.next_track_id,
            volume: self.volume.raw_value(),
            version: self.version,
        }
    }
}

/// Returns the box with `fields`.
pub fn mvhd_of(fields: &Mvhd) -> MvhdBox
    ensures { result ≡ mvhd_of fields.now }
{
    MvhdBox {
        version: fields.version,
        flags: fields.flags,
        creation_time: fields.creation_time,
        modification_time: fields.modification_time,
        timescale: fields.timescale,
        duration: fields.duration,
        rate: FixedPointU16::new_raw(fields.rate),
        volume: FixedPointU8::new_raw(fields.volume),
        matrix: matrix_of(&fields.matrix),
        next_track_id: fields.next_track_id,
    }
}

/// The track header: properties of a track (ISO/IEC 14496-12, 8.3.2).
#[repr(C)]
#[derive(Clone, Copy)]
pub struct Tkhd {
    /// The creation time of the track, in seconds since the beginning of 1904, UTC. 32 bits in version 0.
    pub creation_time: u64,
    /// The time of the last change, in seconds since the beginning of 1904, UTC. 32 bits in version 0.
    pub modification_time: u64,
    /// The duration of the track, in the timescale of the movie. 32 bits in version 0.
    pub duration: u64,
    /// The flags of the box, 24 bits: 0x1 if the track is enabled, 0x2 if it is in the movie, 0x4 if it is in the
    /// preview, 0x8 if its size is an aspect ratio.
    pub flags: u32,
    /// The number of the track. It is not 0 in the standard.
    pub track_id: u32,
    /// The transformation of the video: a, b, u, c, d, v, x, y and w, times 65536, but u, v and w times 2^30.
    pub matrix: [i32; 9],
    /// The width at which the video is shown, in pixels times 65536.
    pub width: u32,
    /// The height at which the video is shown, in pixels times 65536.
    pub height: u32,
    /// The front-to-back order of the track. Tracks with a lower layer cover this one.
    pub layer: i16,
    /// The number of the group of alternate tracks, of which a player plays one; 0 if there is no group.
    pub alternate_group: i16,
    /// The volume of the track times 256: 0x100 is full volume.
    pub volume: u16,
    /// The version of the box: 0, or 1 for times of 64 bits.
    pub version: u8,
}

impl ToStruct<Tkhd> for TkhdBox {
    ghost to_struct = { fields_tkhd };

    fn to_struct(&self) -> Tkhd {
        Tkhd {
            creation_time: self.creation_time,
            modification_time: self.modification_time,
            duration: self.duration,
            flags: self.flags,
            track_id: self.track_id,
            matrix: numbers_of(&self.matrix),
            width: self.width.raw_value(),
            height: self.height.raw_value(),
            layer: self.layer.cast_signed(),
            alternate_group: self.alternate_group.cast_signed(),
            volume: self.volume.raw_value(),
            version: self.version,
        }
    }
}

/// Returns the box with `fields`.
pub fn tkhd_of(fields: &Tkhd) -> TkhdBox
    ensures { result ≡ tkhd_of fields.now }
{
    TkhdBox {
        version: fields.version,
        flags: fields.flags,
        creation_time: fields.creation_time,
        modification_time: fields.modification_time,
        track_id: fields.track_id,
        duration: fields.duration,
        layer: fields.layer.cast_unsigned(),
        alternate_group: fields.alternate_group.cast_unsigned(),
        volume: FixedPointU8::new_raw(fields.volume),
        matrix: matrix_of(&fields.matrix),
        width: FixedPointU16::new_raw(fields.width),
        height: FixedPointU16::new_raw(fields.height),
    }
}

/// The media header: properties of the media of a track (ISO/IEC 14496-12, 8.4.2).
#[repr(C)]
#[derive(Clone, Copy)]
pub struct Mdhd {
    /// The creation time of the media, in seconds since the beginning of 1904, UTC. 32 bits in version 0.
    pub creation_time: u64,
    /// The time of the last change, in seconds since the beginning of 1904, UTC. 32 bits in version 0.
    pub modification_time: u64,
    /// The duration of the media, in the timescale. 32 bits in version 0.
    pub duration: u64,
    /// The flags of the box: 24 bits, 0 in the standard.
    pub flags: u32,
    /// The number of time units per second.
    pub timescale: u32,
    /// The language: three letters (ISO 639-2/T) and a zero. Only the five low bits of each letter are written.
    pub language: [u8; 4],
    /// The version of the box: 0, or 1 for times of 64 bits.
    pub version: u8,
}

impl ToStruct<Mdhd> for MdhdBox {
    ghost to_struct = { fields_mdhd };

    fn to_struct(&self) -> Mdhd {
        Mdhd {
            creation_time: self.creation_time,
            modification_time: self.modification_time,
            duration: self.duration,
            flags: self.flags,
            timescale: self.timescale,
            language: language_letters(self.language.as_bytes()),
            version: self.version,
        }
    }
}

/// Returns the box with `fields`. The only error is out of memory.
pub fn mdhd_of(alloc: Global, fields: &Mdhd) -> Result<MdhdBox>
    ensures value { IfOk result (λ v. v ≡ mdhd_of fields.now) }
    ensures memory { IfErr result (λ e. e ≡ OutOfMemory) }
{
    Ok(MdhdBox {
        version: fields.version,
        flags: fields.flags,
        creation_time: fields.creation_time,
        modification_time: fields.modification_time,
        timescale: fields.timescale,
        duration: fields.duration,
        language: language_of(alloc, &fields.language)?,
    })
}

/// The movie extends header: the duration of a movie with fragments (ISO/IEC 14496-12, 8.8.2).
#[repr(C)]
#[derive(Clone, Copy)]
pub struct Mehd {
    /// The duration of the whole movie, in the timescale of the movie. 32 bits in version 0.
    pub fragment_duration: u64,
    /// The flags of the box: 24 bits, 0 in the standard.
    pub flags: u32,
    /// The version of the box: 0, or 1 for a duration of 64 bits.
    pub version: u8,
}

impl ToStruct<Mehd> for MehdBox {
    ghost to_struct = { fields_mehd };

    fn to_struct(&self) -> Mehd {
        Mehd {
            fragment_duration: self.fragment_duration,
            flags: self.flags,
            version: self.version,
        }
    }
}

/// Returns the box with `fields`.
pub fn mehd_of(fields: &Mehd) -> MehdBox
    ensures { result ≡ mehd_of fields.now }
{
    MehdBox {
        version: fields.version,
        flags: fields.flags,
        fragment_duration: fields.fragment_duration,
    }
}

/// The movie fragment header: the number of a fragment (ISO/IEC 14496-12, 8.8.5).
#[repr(C)]
#[derive(Clone, Copy)]
pub struct Mfhd {
    /// The flags of the box: 24 bits, 0 in the standard.
    pub flags: u32,
    /// The number of the fragment. It increases from fragment to fragment.
    pub sequence_number: u32,
    /// The version of the box: 0 in the standard.
    pub version: u8,
}

impl ToStruct<Mfhd> for MfhdBox {
    ghost to_struct = { fields_mfhd };

    fn to_struct(&self) -> Mfhd {
        Mfhd {
            flags: self.flags,
            sequence_number: self.sequence_number,
            version: self.version,
        }
    }
}

/// Returns the box with `fields`.
pub fn mfhd_of(fields: &Mfhd) -> MfhdBox
    ensures { result ≡ mfhd_of fields.now }
{
    MfhdBox {
        version: fields.version,
        flags: fields.flags,
        sequence_number: fields.sequence_number,
    }
}

/// The sound media header: the balance between left and right (ISO/IEC 14496-12, 12.2.2).
#[repr(C)]
#[derive(Clone, Copy)]
pub struct Smhd {
    /// The flags of the box: 24 bits, 0 in the standard.
    pub flags: u32,
    /// The balance times 256: 0 is the centre, -0x100 full left and 0x100 full right.
    pub balance: i16,
    /// The version of the box: 0 in the standard.
    pub version: u8,
}

impl ToStruct<Smhd> for SmhdBox {
    ghost to_struct = { fields_smhd };

    fn to_struct(&self) -> Smhd {
        Smhd {
            flags: self.flags,
            balance: self.balance.raw_value(),
            version: self.version,
        }
    }
}

/// Returns the box with `fields`.
pub fn smhd_of(fields: &Smhd) -> SmhdBox
    ensures { result ≡ smhd_of fields.now }
{
    SmhdBox {
        version: fields.version,
        flags: fields.flags,
        balance: FixedPointI8::new_raw(fields.balance),
    }
}

/// The video media header: how the video is composed with the existing image (ISO/IEC 14496-12, 12.1.2).
#[repr(C)]
#[derive(Clone, Copy)]
pub struct Vmhd {
    /// The flags of the box: 24 bits, 1 in the standard.
    pub flags: u32,
    /// The composition mode: 0 copies the video over the existing image.
    pub graphics_mode: u16,
    /// The red component of the colour that the other modes use.
    pub red: u16,
    /// The green component of that colour.
    pub green: u16,
    /// The blue component of that colour.
    pub blue: u16,
    /// The version of the box: 0 in the standard.
    pub version: u8,
}

impl ToStruct<Vmhd> for VmhdBox {
    ghost to_struct = { fields_vmhd };

    fn to_struct(&self) -> Vmhd {
        Vmhd {
            flags: self.flags,
            graphics_mode: self.graphics_mode,
            red: self.op_color.red,
            green: self.op_color.green,
            blue: self.op_color.blue,
            version: self.version,
        }
    }
}

/// Returns the box with `fields`.
pub fn vmhd_of(fields: &Vmhd) -> VmhdBox
    ensures { result ≡ vmhd_of fields.now }
{
    VmhdBox {
        version: fields.version,
        flags: fields.flags,
        graphics_mode: fields.graphics_mode,
        op_color: RgbColor {
            red: fields.red,
            green: fields.green,
            blue: fields.blue,
        },
    }
}

/// The defaults for the samples of a track's fragments, where a fragment has no other value (ISO/IEC 14496-12, 8.8.3).
#[repr(C)]
#[derive(Clone, Copy)]
pub struct Trex {
    /// The flags of the box: 24 bits, 0 in the standard.
    pub flags: u32,
    /// The number of the track.
    pub track_id: u32,
    /// The index of the sample entry that a sample uses, counted from 1.
    pub default_sample_description_index: u32,
    /// The duration of a sample, in the timescale of the media.
    pub default_sample_duration: u32,
    /// The size of a sample, in bytes.
    pub default_sample_size: u32,
    /// The flags of a sample: what it depends on, and whether it is a sync sample (8.8.3.1).
    pub default_sample_flags: u32,
    /// The version of the box: 0 in the standard.
    pub version: u8,
}

impl ToStruct<Trex> for TrexBox {
    ghost to_struct = { fields_trex };

    fn to_struct(&self) -> Trex {
        Trex {
            flags: self.flags,
            track_id: self.track_id,
            default_sample_description_index: self.default_sample_description_index,
            default_sample_duration: self.default_sample_duration,
            default_sample_size: self.default_sample_size,
            default_sample_flags: self.default_sample_flags,
            version: self.version,
        }
    }
}

/// Returns the box with `fields`.
pub fn trex_of(fields: &Trex) -> TrexBox
    ensures { result ≡ trex_of fields.now }
{
    TrexBox {
        version: fields.version,
        flags: fields.flags,
        track_id: fields.track_id,
        default_sample_description_index: fields.default_sample_description_index,
        default_sample_duration: fields.default_sample_duration,
        default_sample_size: fields.default_sample_size,
        default_sample_flags: fields.default_sample_flags,
    }
}

/// The decoding time of the first sample of a track fragment (ISO/IEC 14496-12, 8.8.12).
#[repr(C)]
#[derive(Clone, Copy)]
pub struct Tfdt {
    /// The sum of the durations of all samples before this one, in the timescale of the media. 32 bits in version 0.
    pub base_media_decode_time: u64,
    /// The flags of the box: 24 bits, 0 in the standard.
    pub flags: u32,
    /// The version of the box: 0, or 1 for a time of 64 bits.
    pub version: u8,
}

impl ToStruct<Tfdt> for TfdtBox {
    ghost to_struct = { fields_tfdt };

    fn to_struct(&self) -> Tfdt {
        Tfdt {
            base_media_decode_time: self.base_media_decode_time,
            flags: self.flags,
            version: self.version,
        }
    }
}

/// Returns the box with `fields`.
pub fn tfdt_of(fields: &Tfdt) -> TfdtBox
    ensures { result ≡ tfdt_of fields.now }
{
    TfdtBox {
        version: fields.version,
        flags: fields.flags,
        base_media_decode_time: fields.base_media_decode_time,
    }
}

/// Returns the numbers of `matrix`: a, b, u, c, d, v, x, y and w.
pub(crate) fn numbers_of(matrix: &Matrix) -> [i32; 9]
    ensures { result ≡ numbers_matrix matrix.now }
{
    [
        matrix.a, matrix.b, matrix.u, matrix.c, matrix.d, matrix.v, matrix.x, matrix.y, matrix.w,
    ]
}

/// Returns the matrix whose numbers, in the order of the file, are `numbers`.
pub(crate) fn matrix_of(numbers: &[i32; 9]) -> Matrix
    ensures { result ≡ matrix_of numbers.now }
{
    Matrix {
        a: numbers[0],
        b: numbers[1],
        u: numbers[2],
        c: numbers[3],
        d: numbers[4],
        v: numbers[5],
        x: numbers[6],
        y: numbers[7],
        w: numbers[8],
    }
}

/// Returns the byte of `text` at `index`, or 0 if `index` is past the end.
fn byte_at(text: &[u8], index: usize) -> u8
    ensures { result ≡ slice_index text.now index }
{
    if index < text.len() { text[index] } else { 0 }
}

/// Returns the first three bytes of `text` and a zero.
pub(crate) fn language_letters(text: &[u8]) -> [u8; 4]
    ensures { result ≡ language_letters text.now }
{
    [byte_at(text, 0), byte_at(text, 1), byte_at(text, 2), 0]
}

/// Returns the language with the five low bits of each of the first three letters of `text`. The only error is out of
/// memory.
pub(crate) fn language_of(alloc: Global, text: &[u8; 4]) -> Result<Text>
    ensures value { IfOk result (λ language. language ≡ language_of text.now) }
    ensures memory { IfErr result (λ e. e ≡ OutOfMemory) }
{
    let first = u16::from(text[0] % 32);
    let second = u16::from(text[1] % 32);
    let third = u16::from(text[2] % 32);
    let letters = language_string(alloc, first * 1024 + second * 32 + third)?;
    Ok(letters.into())
}
