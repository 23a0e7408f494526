//! Boxes of fixed fields.

ghost use Rattle.mp4_declared.specs.OwnBox.{no_context};
ghost use Rattle.mp4_show.specs.declared.taken.flat.TheConstants.{MDHD, MEHD, MFHD, MVHD, SMHD, TFDT, TKHD};
ghost use Rattle.mp4_show.specs.declared.taken.flat.TheConstants.{TKHD_REST, TREX, VMHD};
ghost use Rattle.mp4_show.specs.TakenFlat.{make_mdhd, make_mehd, make_mfhd, make_mvhd, make_smhd, make_tfdt};
ghost use Rattle.mp4_show.specs.TakenFlat.{make_tkhd, make_trex, make_vmhd};
ghost use Rattle.mp4_shown.specs.TakenShapes.{made_of, pair_taken};

use crate::taken::language::Language;
use crate::taken::shapes::Transformation;
use crate::taken::take_box::TakeBox;
use mp4_declared::{Full, I16, I32, Last, Time, U16, U32};
use mp4_flat::{
    MdhdBox, MehdBox, MfhdBox, MvhdBox, RgbColor, SmhdBox, TfdtBox, TkhdBox, TrexBox, VmhdBox,
};
use mp4_media::FixedPoint;
use mp4_shown::taken::{NO_CONTEXT, Object, Result, TakeShape};
use mp4_shown::{FLAGS, VERSION, names_of, number};
use std::alloc::Global;

/// The parts of a movie header. A time has 32 bits in version 0, and 64 in version 1.
type MvhdTaken = Full<2, (Time, Time, U32, Time, (I32, I16, Transformation, Last<U32>))>;

/// The names of its fields.
const MVHD: &<MvhdTaken as TakeShape>::Names = &names_of!(
    VERSION,
    FLAGS,
    number!("creation_time", Date),
    number!("modification_time", Date),
    number!("timescale"),
    number!("duration"),
    number!("rate", Fixed(16)),
    number!("volume", Fixed(8)),
    "matrix",
    number!("next_track_ID")
);

impl TakeBox for MvhdBox {
    ghost taken = { made_of make_mvhd (⟦<MvhdTaken as TakeShape>⟧.taken MVHD.now no_context) };

    fn take(alloc: Global, object: &mut Object<'_>) -> Result<MvhdBox> {
        let (version, (flags, rest)) = MvhdTaken::take(alloc, MVHD, NO_CONTEXT, object)?;
        let (creation_time, (modification_time, (timescale, (duration, rest)))) = rest;
        let (rate, (volume, (matrix, (next_track_id, ())))) = rest;
        Ok(MvhdBox {
            version,
            flags,
            creation_time,
            modification_time,
            timescale,
            duration,
            rate: FixedPoint::new_raw(rate.cast_unsigned()),
            volume: FixedPoint::new_raw(volume.cast_unsigned()),
            matrix,
            next_track_id,
        })
    }
}

/// The parts of a track header up to its duration.
type TkhdFront = Full<2, (Time, Time, U32, Last<Time>)>;

/// The names of its fields.
const TKHD: &<TkhdFront as TakeShape>::Names = &names_of!(
    VERSION,
    FLAGS,
    number!("creation_time", Date),
    number!("modification_time", Date),
    number!("track_ID"),
    number!("duration")
);

/// The parts after the duration.
type TkhdRest = (I16, I16, I16, Transformation, (U32, Last<U32>));

/// The names of its fields.
const TKHD_REST: &<TkhdRest as TakeShape>::Names = &names_of!(
    number!("layer"),
    number!("alternate_group"),
    number!("volume", Fixed(8)),
    "matrix",
    number!("width", Fixed(16)),
    number!("height", Fixed(16))
);

impl TakeBox for TkhdBox {
    ghost taken = { made_of make_tkhd (pair_taken (⟦<TkhdFront as TakeShape>⟧.taken TKHD.now no_context)
        (⟦<TkhdRest as TakeShape>⟧.taken TKHD_REST.now no_context)) };

    fn take(alloc: Global, object: &mut Object<'_>) -> Result<TkhdBox> {
        let front = TkhdFront::take(alloc, TKHD, NO_CONTEXT, object)?;
        let after = TkhdRest::take(alloc, TKHD_REST, NO_CONTEXT, object)?;
        let (version, (flags, rest)) = front;
        let (creation_time, (modification_time, (track_id, (duration, ())))) = rest;
        let (layer, (alternate_group, (volume, (matrix, rest)))) = after;
        let (width, (height, ())) = rest;
        Ok(TkhdBox {
            version,
            flags,
            creation_time,
            modification_time,
            track_id,
            duration,
            layer: layer.cast_unsigned(),
            alternate_group: alternate_group.cast_unsigned(),
            volume: FixedPoint::new_raw(volume.cast_unsigned()),
            matrix,
            width: FixedPoint::new_raw(width),
            height: FixedPoint::new_raw(height),
        })
    }
}

/// The parts of a media header.
type MdhdTaken = Full<2, (Time, Time, U32, Time, Last<Language>)>;

/// The names of its fields.
const MDHD: &<MdhdTaken as TakeShape>::Names = &names_of!(
    VERSION,
    FLAGS,
    number!("creation_time", Date),
    number!("modification_time", Date),
    number!("timescale"),
    number!("duration"),
    "language"
);

impl TakeBox for MdhdBox {
    ghost taken = { made_of make_mdhd (⟦<MdhdTaken as TakeShape>⟧.taken MDHD.now no_context) };

    fn take(alloc: Global, object: &mut Object<'_>) -> Result<MdhdBox> {
        let (version, (flags, rest)) = MdhdTaken::take(alloc, MDHD, NO_CONTEXT, object)?;
        let (creation_time, (modification_time, (timescale, (duration, rest)))) = rest;
        let (language, ()) = rest;
        Ok(MdhdBox {
            version,
            flags,
            creation_time,
            modification_time,
            timescale,
            duration,
            language,
        })
    }
}

/// The parts of a movie extends header.
type MehdTaken = Full<2, Last<Time>>;

/// The names of its fields.
const MEHD: &<MehdTaken as TakeShape>::Names = &names_of!(
    VERSION,
    FLAGS,
    number!("fragment_duration")
);

impl TakeBox for MehdBox {
    ghost taken = { made_of make_mehd (⟦<MehdTaken as TakeShape>⟧.taken MEHD.now no_context) };

    fn take(alloc: Global, object: &mut Object<'_>) -> Result<MehdBox> {
        let (version, (flags, rest)) = MehdTaken::take(alloc, MEHD, NO_CONTEXT, object)?;
        let (fragment_duration, ()) = rest;
        Ok(MehdBox {
            version,
            flags,
            fragment_duration,
        })
    }
}

/// The parts of a movie fragment header.
type MfhdTaken = Full<256, Last<U32>>;

/// The names of its fields.
const MFHD: &<MfhdTaken as TakeShape>::Names = &names_of!(
    VERSION,
    FLAGS,
    number!("sequence_number")
);

impl TakeBox for MfhdBox {
    ghost taken = { made_of make_mfhd (⟦<MfhdTaken as TakeShape>⟧.taken MFHD.now no_context) };

    fn take(alloc: Global, object: &mut Object<'_>) -> Result<MfhdBox> {
        let (version, (flags, rest)) = MfhdTaken::take(alloc, MFHD, NO_CONTEXT, object)?;
        let (sequence_number, ()) = rest;
        Ok(MfhdBox {
            version,
            flags,
            sequence_number,
        })
    }
}

/// The parts of a sound media header.
type SmhdTaken = Full<256, Last<I16>>;

/// The names of its fields.
const SMHD: &<SmhdTaken as TakeShape>::Names = &names_of!(
    VERSION,
    FLAGS,
    number!("balance", Fixed(8))
);

impl TakeBox for SmhdBox {
    ghost taken = { made_of make_smhd (⟦<SmhdTaken as TakeShape>⟧.taken SMHD.now no_context) };

    fn take(alloc: Global, object: &mut Object<'_>) -> Result<SmhdBox> {
        let (version, (flags, rest)) = SmhdTaken::take(alloc, SMHD, NO_CONTEXT, object)?;
        let (balance, ()) = rest;
        Ok(SmhdBox {
            version,
            flags,
            balance: FixedPoint::new_raw(balance),
        })
    }
}

/// The parts of a video media header.
type VmhdTaken = Full<256, (U16, U16, U16, Last<U16>)>;

/// The names of its fields.
const VMHD: &<VmhdTaken as TakeShape>::Names = &names_of!(
    VERSION,
    FLAGS,
    number!("graphicsmode"),
    number!("opcolor_red"),
    number!("opcolor_green"),
    number!("opcolor_blue")
);

impl TakeBox for VmhdBox {
    ghost taken = { made_of make_vmhd (⟦<VmhdTaken as TakeShape>⟧.taken VMHD.now no_context) };

    fn take(alloc: Global, object: &mut Object<'_>) -> Result<VmhdBox> {
        let (version, (flags, rest)) = VmhdTaken::take(alloc, VMHD, NO_CONTEXT, object)?;
        let (graphics_mode, (red, (green, (blue, ())))) = rest;
        Ok(VmhdBox {
            version,
            flags,
            graphics_mode,
            op_color: RgbColor { red, green, blue },
        })
    }
}

/// The parts of what the samples of fragments have by default.
type TrexTaken = Full<256, (U32, U32, U32, U32, Last<U32>)>;

/// The names of its fields.
const TREX: &<TrexTaken as TakeShape>::Names = &names_of!(
    VERSION,
    FLAGS,
    number!("track_ID"),
    number!("default_sample_description_index"),
    number!("default_sample_duration"),
    number!("default_sample_size"),
    number!("default_sample_flags")
);

impl TakeBox for TrexBox {
    ghost taken = { made_of make_trex (⟦<TrexTaken as TakeShape>⟧.taken TREX.now no_context) };

    fn take(alloc: Global, object: &mut Object<'_>) -> Result<TrexBox> {
        let (version, (flags, rest)) = TrexTaken::take(alloc, TREX, NO_CONTEXT, object)?;
        let (
            track_id,
            (
                default_sample_description_index,
                (default_sample_duration, (default_sample_size, rest)),
            ),
        ) = rest;
        let (default_sample_flags, ()) = rest;
        Ok(TrexBox {
            version,
            flags,
            track_id,
            default_sample_description_index,
            default_sample_duration,
            default_sample_size,
            default_sample_flags,
        })
    }
}

/// The parts of a fragment's decoding time.
type TfdtTaken = Full<2, Last<Time>>;

/// The names of its fields.
const TFDT: &<TfdtTaken as TakeShape>::Names = &names_of!(
    VERSION,
    FLAGS,
    number!("baseMediaDecodeTime")
);

impl TakeBox for TfdtBox {
    ghost taken = { made_of make_tfdt (⟦<TfdtTaken as TakeShape>⟧.taken TFDT.now no_context) };

    fn take(alloc: Global, object: &mut Object<'_>) -> Result<TfdtBox> {
        let (version, (flags, rest)) = TfdtTaken::take(alloc, TFDT, NO_CONTEXT, object)?;
        let (base_media_decode_time, ()) = rest;
        Ok(TfdtBox {
            version,
            flags,
            base_media_decode_time,
        })
    }
}
