//! Boxes of fixed fields, with their bytes.

use mp4_stream::{
    FixedPointI8, FixedPointU8, FixedPointU16, Matrix, MdhdBox, MehdBox, MfhdBox, MvhdBox, Result,
    RgbColor, SmhdBox, Text, TfdtBox, TkhdBox, TrexBox, VmhdBox,
};
use std::alloc::Global;

/// `mvhd`, version 0: times of 32 bits.
pub const MVHD: [u8; 108] =
    *b"\0\0\0lmvhd\0\0\0\0\0\0\0d\0\0\0\xc8\0\0\x03\xe8\0\x09\xaf\x0a\0\x01\0\0\x01\0\0\0\0\0\0\0\0\0\0\0\0\
\x01\0\0\0\0\0\0\0\0\0\0\0\0\0\0\0\x01\0\0\0\0\0\0\0\0\0\0\0\0\0\0@\0\0\0\0\0\0\0\0\0\0\0\0\0\0\0\0\
\0\0\0\0\0\0\0\0\0\0\0\0\0\0\x01";

/// `mvhd`, version 1: the header of `MVHD` with times of 64 bits.
pub const MVHD_LONG: [u8; 120] =
    *b"\0\0\0xmvhd\x01\0\0\0\0\0\0\0\0\0\0d\0\0\0\0\0\0\0\xc8\0\0\x03\xe8\0\0\0\0\0\x09\xaf\x0a\0\x01\0\0\
\x01\0\0\0\0\0\0\0\0\0\0\0\0\x01\0\0\0\0\0\0\0\0\0\0\0\0\0\0\0\x01\0\0\0\0\0\0\0\0\0\0\0\0\0\0@\0\0\
\0\0\0\0\0\0\0\0\0\0\0\0\0\0\0\0\0\0\0\0\0\0\0\0\0\0\0\0\x01";

/// `tkhd`, version 1: times of 64 bits, and a picture that is rotated by 90 degrees.
pub const TKHD: [u8; 104] =
    *b"\0\0\0htkhd\x01\0\0\x01\0\0\0\0\0\0\0d\0\0\0\0\0\0\0\xc8\0\0\0\x01\0\0\0\0\0\0\0\0\0\x09\xaf\x0a\0\0\
\0\0\0\0\0\0\0\0\0\0\x01\0\0\0\0\0\0\0\0\x01\0\0\0\0\0\0\xff\xff\0\0\0\0\0\0\0\0\0\0\0\0\0\0\0\0\0\0\
@\0\0\0\x02\0\0\0\x01 \0\0";

/// `tkhd`, version 0: times of 32 bits.
pub const TKHD_SHORT: [u8; 92] =
    *b"\0\0\0\\tkhd\0\0\0\x01\0\0\0d\0\0\0\xc8\0\0\0\x01\0\0\0\0\0\x09\xaf\x0a\0\0\0\0\0\0\0\0\0\0\0\0\x01\
\0\0\0\0\x01\0\0\0\0\0\0\0\0\0\0\0\0\0\0\0\x01\0\0\0\0\0\0\0\0\0\0\0\0\0\0@\0\0\0\x02\0\0\0\x01\x20\
\0\0";

/// `tkhd`, version 1: the header of `TKHD_SHORT` with times of 64 bits.
pub const TKHD_LONG: [u8; 104] =
    *b"\0\0\0htkhd\x01\0\0\x01\0\0\0\0\0\0\0d\0\0\0\0\0\0\0\xc8\0\0\0\x01\0\0\0\0\0\0\0\0\0\x09\xaf\x0a\0\
\0\0\0\0\0\0\0\0\0\0\0\x01\0\0\0\0\x01\0\0\0\0\0\0\0\0\0\0\0\0\0\0\0\x01\0\0\0\0\0\0\0\0\0\0\0\0\0\
\0@\0\0\0\x02\0\0\0\x01\x20\0\0";

/// `mdhd`, version 0: times of 32 bits, and an undetermined language.
pub const MDHD: [u8; 32] = *b"\0\0\0 mdhd\0\0\0\0\0\0\0d\0\0\0\xc8\0\0\xbb\x80\x01\xd0z\0U\xc4\0\0";

/// `mdhd`, version 0: times of 32 bits, and English.
pub const MDHD_ENGLISH: [u8; 32] =
    *b"\0\0\0\x20mdhd\0\0\0\0\0\0\0d\0\0\0\xc8\0\0\xbb\x80\x01\xd0z\0\x15\xc7\0\0";

/// `mehd`, version 1: a duration of 2^32, in 64 bits.
pub const MEHD: [u8; 20] = *b"\0\0\0\x14mehd\x01\0\0\0\0\0\0\x01\0\0\0\0";

/// `mfhd`, version 0: the first fragment.
pub const MFHD: [u8; 16] = *b"\0\0\0\x10mfhd\0\0\0\0\0\0\0\x01";

/// `smhd`, version 0: a balance below 0.
pub const SMHD: [u8; 16] = *b"\0\0\0\x10smhd\0\0\0\0\xff\xff\0\0";

/// `vmhd`, version 0: a color with 0, a low byte of 0, and the largest number.
pub const VMHD: [u8; 20] = *b"\0\0\0\x14vmhd\0\0\0\x01\0\0\0\0\x01\0\xff\xff";

/// `trex`, version 0: defaults for the samples of a track.
pub const TREX: [u8; 32] =
    *b"\0\0\0 trex\0\0\0\0\0\0\0\x01\0\0\0\x01\0\0\x03\xe8\0\0\0\0\0\x01\0\0";

/// `tfdt`, version 0: a time of 32 bits.
pub const TFDT: [u8; 16] = *b"\0\0\0\x10tfdt\0\0\0\0\0\0\x04\xd2";

/// `tfdt`, version 1: a time of 0, in 64 bits.
pub const TFDT_LONG: [u8; 20] = *b"\0\0\0\x14tfdt\x01\0\0\0\0\0\0\0\0\0\0\0";

/// `mehd`, version 0: a duration of 32, in 32 bits.
pub const MEHD_SHORT: [u8; 16] = *b"\0\0\0\x10mehd\0\0\0\0\0\0\0\x20";

/// `vmhd`, version 0: black.
pub const VMHD_BLACK: [u8; 20] = *b"\0\0\0\x14vmhd\0\0\0\x01\0\0\0\0\0\0\0\0";

/// `tfdt`, version 0: a time of 0, in 32 bits.
pub const TFDT_OF_ZERO: [u8; 16] = *b"\0\0\0\x10tfdt\0\0\0\0\0\0\0\0";

/// Returns an `mvhd` of version 0: a movie header with times of 32 bits.
pub fn mvhd() -> MvhdBox {
    MvhdBox {
        creation_time: 100,
        modification_time: 200,
        duration: 634_634,
        ..MvhdBox::default()
    }
}

/// Returns an `mvhd` of version 1: the header of `mvhd` with times of 64 bits.
pub fn mvhd_long() -> MvhdBox {
    MvhdBox {
        version: 1,
        ..mvhd()
    }
}

/// Returns a `tkhd` of version 1: a track header with times of 64 bits, for a picture that is rotated by 90 degrees.
pub fn tkhd() -> TkhdBox {
    TkhdBox {
        version: 1,
        flags: 1,
        creation_time: 100,
        modification_time: 200,
        track_id: 1,
        duration: 634_634,
        layer: 0,
        alternate_group: 0,
        volume: FixedPointU8::new(1),
        matrix: Matrix {
            a: 0,
            b: 0x10000,
            c: -0x10000,
            d: 0,
            ..Matrix::default()
        },
        width: FixedPointU16::new(512),
        height: FixedPointU16::new(288),
    }
}

/// Returns a `tkhd` of version 0: a track header with times of 32 bits.
pub fn tkhd_short() -> TkhdBox {
    let mut header = TkhdBox::default();
    header.creation_time = 100;
    header.modification_time = 200;
    header.track_id = 1;
    header.duration = 634_634;
    header.set_width(512);
    header.set_height(288);
    header
}

/// Returns a `tkhd` of version 1: the header of `tkhd_short` with times of 64 bits.
pub fn tkhd_long() -> TkhdBox {
    TkhdBox {
        version: 1,
        ..tkhd_short()
    }
}

/// Returns a `tkhd` of version 0: a track header whose fields all have different values.
pub fn tkhd_full() -> TkhdBox {
    TkhdBox {
        version: 0,
        flags: 7,
        creation_time: 0x0102_0304,
        modification_time: 0x0506_0708,
        track_id: 0x090a_0b0c,
        duration: 0x0d0e_0f10,
        layer: 0x1112,
        alternate_group: 0x1314,
        volume: FixedPointU8::new_raw(0x1516),
        matrix: Matrix {
            a: 1,
            b: -1,
            u: 2,
            c: -2,
            d: 3,
            v: -3,
            x: 0x7fff_ffff,
            y: -0x8000_0000,
            w: 4,
        },
        width: FixedPointU16::new_raw(0x1718_1920),
        height: FixedPointU16::new_raw(0x2122_2324),
    }
}

/// Returns the media header of a track in `language`, with times of 32 bits.
fn mdhd_in(alloc: Global, language: &str) -> Result<MdhdBox> {
    Ok(MdhdBox {
        version: 0,
        flags: 0,
        creation_time: 100,
        modification_time: 200,
        timescale: 48000,
        duration: 30_439_936,
        language: Text::from_str(alloc, language)?,
    })
}

/// Returns an `mdhd` of version 0: the media header of a track of undetermined language, with times of 32 bits.
pub fn mdhd(alloc: Global) -> Result<MdhdBox> {
    mdhd_in(alloc, "und")
}

/// Returns an `mdhd` of version 0: the media header of a track in English, with times of 32 bits.
pub fn mdhd_english(alloc: Global) -> Result<MdhdBox> {
    mdhd_in(alloc, "eng")
}

/// Returns an `mdhd` of version 1: the media header of a track in English, with times of 64 bits.
pub fn mdhd_long(alloc: Global) -> Result<MdhdBox> {
    let mut header = mdhd_in(alloc, "eng")?;
    header.version = 1;
    Ok(header)
}

/// Returns an `mehd` of version 1: a movie of a duration that needs more than 32 bits.
pub fn mehd() -> MehdBox {
    MehdBox {
        version: 1,
        flags: 0,
        fragment_duration: 1 << 32,
    }
}

/// Returns an `mehd` of version 0: a movie of duration `fragment_duration`, in 32 bits.
pub fn mehd_short(fragment_duration: u64) -> MehdBox {
    MehdBox {
        version: 0,
        flags: 0,
        fragment_duration,
    }
}

/// Returns an `mfhd` of version 0: the first fragment of a movie.
pub fn mfhd() -> MfhdBox {
    MfhdBox {
        version: 0,
        flags: 0,
        sequence_number: 1,
    }
}

/// Returns an `smhd` of version 0: sound whose balance is a little to the left.
pub fn smhd() -> SmhdBox {
    SmhdBox {
        version: 0,
        flags: 0,
        balance: FixedPointI8::new_raw(-1),
    }
}

fn vmhd_of(red: u16, green: u16, blue: u16) -> VmhdBox {
    VmhdBox {
        version: 0,
        flags: 1,
        graphics_mode: 0,
        op_color: RgbColor { red, green, blue },
    }
}

/// Returns a `vmhd` of version 0: a color of 0, 0x100 and the largest number.
pub fn vmhd() -> VmhdBox {
    vmhd_of(0, 0x100, 0xffff)
}

/// Returns a `vmhd` of version 0: a dark color of three different numbers.
pub fn vmhd_colors() -> VmhdBox {
    vmhd_of(1, 2, 3)
}

/// Returns a `vmhd` of version 0: black.
pub fn vmhd_black() -> VmhdBox {
    vmhd_of(0, 0, 0)
}

/// Returns a `trex` of version 0: defaults for the samples of a track.
pub fn trex() -> TrexBox {
    TrexBox {
        version: 0,
        flags: 0,
        track_id: 1,
        default_sample_description_index: 1,
        default_sample_duration: 1000,
        default_sample_size: 0,
        default_sample_flags: 65536,
    }
}

/// Returns a `tfdt` of version 0: a decode time, in 32 bits.
pub fn tfdt() -> TfdtBox {
    TfdtBox {
        version: 0,
        flags: 0,
        base_media_decode_time: 1234,
    }
}

/// Returns a `tfdt` of this `version`: a decode time of 0.
pub fn tfdt_of_zero(version: u8) -> TfdtBox {
    TfdtBox {
        version,
        flags: 0,
        base_media_decode_time: 0,
    }
}
