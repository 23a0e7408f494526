//! Sample entries of video and subtitles, and what configures their decoders.

ghost use Rattle.mp4_declared.specs.OwnBox.{no_context};
ghost use Rattle.mp4_show.specs.declared.taken.entries.TheConstants.{AVC1, AVCC, COLOR, HEV1, HVCC, TX3G, VP09};
ghost use Rattle.mp4_show.specs.declared.taken.entries.TheConstants.{VP09_REST, VPCC, VPCC_REST};
ghost use Rattle.mp4_show.specs.TakenEntries.{avcc_taken, make_avc1, make_color, make_hev1, make_hvcc, make_tx3g};
ghost use Rattle.mp4_show.specs.TakenEntries.{make_vp09, make_vpcc, nal_taken};
ghost use Rattle.mp4_shown.specs.TakenShapes.{made_of, pair_taken};

use crate::taken::shapes::{EntriesIn, FieldsOf, FlagBit, Rectangle, Resolution};
use crate::taken::small::Small;
use crate::taken::take_box::{TakeBox, TakeCodecEntry};
use json::Value;
use mp4_declared::{Array, Context, Full, I8, Last, U8, U16, U32};
use mp4_entries::{
    Avc1Box, AvcCBox, Hev1Box, HvcCBox, NalUnit, RgbaColor, Tx3gBox, Vp09Box, VpccBox,
};
use mp4_media::FixedPoint;
use mp4_shown::taken::{NO_CONTEXT, Object, Reason, Result, TakeShape, hex_in, refuse};
use mp4_shown::{FLAGS, Group, VERSION, names_of, number, run};
use std::alloc::Global;

/// The entry is the bytes of the unit.
impl TakeCodecEntry for NalUnit {
    ghost taken = { λ c j. nal_taken j };

    fn take(alloc: Global, _context: Context, value: Value<'_>) -> Result<NalUnit> {
        let bytes = hex_in(alloc, "", &value)?;
        if bytes.len() >= 1 << 16 {
            return Err(refuse(alloc, "", Reason::WrongLength));
        }
        Ok(NalUnit {
            bytes: bytes.into(),
        })
    }
}

/// The parts of how AVC video is decoded.
type AvccTaken = (
    U8,
    U8,
    U8,
    U8,
    (Small<2>, EntriesIn<NalUnit>, Last<EntriesIn<NalUnit>>),
);

/// The names of its fields.
const AVCC: &<AvccTaken as TakeShape>::Names = &names_of!(
    number!("configurationVersion"),
    number!("AVCProfileIndication"),
    number!("profile_compatibility"),
    number!("AVCLevelIndication"),
    number!("lengthSizeMinusOne"),
    "sequenceParameterSetNALUnit",
    "pictureParameterSetNALUnit"
);

/// The box has at most 31 sequence sets and 255 picture sets.
impl TakeBox for AvcCBox {
    ghost taken = { avcc_taken (⟦<AvccTaken as TakeShape>⟧.taken AVCC.now no_context) };

    fn take(alloc: Global, object: &mut Object<'_>) -> Result<AvcCBox> {
        let parts = AvccTaken::take(alloc, AVCC, NO_CONTEXT, object)?;
        let (configuration_version, (avc_profile_indication, (profile_compatibility, rest))) =
            parts;
        let (avc_level_indication, (length_size_minus_one, sets)) = rest;
        let (sequence_parameter_sets, (picture_parameter_sets, ())) = sets;
        if sequence_parameter_sets.len() >= 32 {
            return Err(refuse(alloc, AVCC.1.1.1.1.1.0, Reason::TooMany));
        }
        if picture_parameter_sets.len() >= 256 {
            return Err(refuse(alloc, AVCC.1.1.1.1.1.1.0, Reason::TooMany));
        }
        Ok(AvcCBox {
            configuration_version,
            avc_profile_indication,
            profile_compatibility,
            avc_level_indication,
            length_size_minus_one,
            sequence_parameter_sets,
            picture_parameter_sets,
        })
    }
}

/// The part of how HEVC video is decoded that the codec has.
type HvcCTaken = Last<U8>;

/// The names of its fields.
const HVCC: &<HvcCTaken as TakeShape>::Names = &names_of!(number!("configurationVersion"));

impl TakeBox for HvcCBox {
    ghost taken = { made_of make_hvcc (⟦<HvcCTaken as TakeShape>⟧.taken HVCC.now no_context) };

    fn take(alloc: Global, object: &mut Object<'_>) -> Result<HvcCBox> {
        let (configuration_version, ()) = HvcCTaken::take(alloc, HVCC, NO_CONTEXT, object)?;
        Ok(HvcCBox {
            configuration_version,
        })
    }
}

/// The parts of a sample entry of AVC video.
type Avc1Taken = (
    U16,
    U16,
    U16,
    U32,
    (U32, U16, U16, Last<Group<FieldsOf<AvcCBox>>>),
);

/// The names of its fields.
const AVC1: &<Avc1Taken as TakeShape>::Names = &names_of!(
    number!("data_reference_index"),
    number!("width"),
    number!("height"),
    number!("horizresolution", Fixed(16)),
    number!("vertresolution", Fixed(16)),
    number!("frame_count"),
    number!("depth"),
    ("avcC", ())
);

impl TakeBox for Avc1Box {
    ghost taken = { made_of make_avc1 (⟦<Avc1Taken as TakeShape>⟧.taken AVC1.now no_context) };

    fn take(alloc: Global, object: &mut Object<'_>) -> Result<Avc1Box> {
        let (data_reference_index, (width, (height, (horizresolution, rest)))) = Avc1Taken::take(
            alloc, AVC1, NO_CONTEXT, object,
        )?;
        let (vertresolution, (frame_count, (depth, (avcc, ())))) = rest;
        Ok(Avc1Box {
            data_reference_index,
            width,
            height,
            horizresolution: FixedPoint::new_raw(horizresolution),
            vertresolution: FixedPoint::new_raw(vertresolution),
            frame_count,
            depth,
            avcc,
        })
    }
}

/// The parts of a sample entry of HEVC video.
type Hev1Taken = (
    U16,
    U16,
    U16,
    U32,
    (U32, U16, U16, Last<Group<FieldsOf<HvcCBox>>>),
);

/// The names of its fields.
const HEV1: &<Hev1Taken as TakeShape>::Names = &names_of!(
    number!("data_reference_index"),
    number!("width"),
    number!("height"),
    number!("horizresolution", Fixed(16)),
    number!("vertresolution", Fixed(16)),
    number!("frame_count"),
    number!("depth"),
    ("hvcC", ())
);

impl TakeBox for Hev1Box {
    ghost taken = { made_of make_hev1 (⟦<Hev1Taken as TakeShape>⟧.taken HEV1.now no_context) };

    fn take(alloc: Global, object: &mut Object<'_>) -> Result<Hev1Box> {
        let (data_reference_index, (width, (height, (horizresolution, rest)))) = Hev1Taken::take(
            alloc, HEV1, NO_CONTEXT, object,
        )?;
        let (vertresolution, (frame_count, (depth, (hvcc, ())))) = rest;
        Ok(Hev1Box {
            data_reference_index,
            width,
            height,
            horizresolution: FixedPoint::new_raw(horizresolution),
            vertresolution: FixedPoint::new_raw(vertresolution),
            frame_count,
            depth,
            hvcc,
        })
    }
}

/// The parts of how VP9 video is decoded, up to the subsampling.
type VpccFront = Full<256, (U8, U8, Small<4>, Last<Small<3>>)>;

/// The names of its fields.
const VPCC: &<VpccFront as TakeShape>::Names = &names_of!(
    VERSION,
    FLAGS,
    number!("profile"),
    number!("level"),
    number!("bitDepth"),
    number!("chromaSubsampling")
);

/// The parts after the subsampling.
type VpccRest = (FlagBit, U8, U8, U8, Last<U16>);

/// The names of its fields.
const VPCC_REST: &<VpccRest as TakeShape>::Names = &names_of!(
    number!("videoFullRangeFlag"),
    number!("colourPrimaries"),
    number!("transferCharacteristics"),
    number!("matrixCoefficients"),
    number!("codecInitializationDataSize")
);

impl TakeBox for VpccBox {
    ghost taken = { made_of make_vpcc (pair_taken (⟦<VpccFront as TakeShape>⟧.taken VPCC.now no_context)
        (⟦<VpccRest as TakeShape>⟧.taken VPCC_REST.now no_context)) };

    fn take(alloc: Global, object: &mut Object<'_>) -> Result<VpccBox> {
        let front = VpccFront::take(alloc, VPCC, NO_CONTEXT, object)?;
        let after = VpccRest::take(alloc, VPCC_REST, NO_CONTEXT, object)?;
        let (version, (flags, rest)) = front;
        let (profile, (level, (bit_depth, (chroma_subsampling, ())))) = rest;
        let (
            video_full_range_flag,
            (color_primaries, (transfer_characteristics, (matrix_coefficients, rest))),
        ) = after;
        let (codec_initialization_data_size, ()) = rest;
        Ok(VpccBox {
            version,
            flags,
            profile,
            level,
            bit_depth,
            chroma_subsampling,
            video_full_range_flag,
            color_primaries,
            transfer_characteristics,
            matrix_coefficients,
            codec_initialization_data_size,
        })
    }
}

/// The parts of a sample entry of VP9 video, up to the height.
type Vp09Front = Full<256, (U16, U16, Array<16>, U16, Last<U16>)>;

/// The names of its fields.
const VP09: &<Vp09Front as TakeShape>::Names = &names_of!(
    VERSION,
    FLAGS,
    number!("start_code"),
    number!("data_reference_index"),
    run!("reserved0", Bytes),
    number!("width"),
    number!("height")
);

/// The parts after the height.
type Vp09Rest = (
    Resolution,
    Resolution,
    Array<4>,
    U16,
    (Array<32>, U16, U16, Last<Group<FieldsOf<VpccBox>>>),
);

/// The names of its fields.
const VP09_REST: &<Vp09Rest as TakeShape>::Names = &names_of!(
    "horizresolution",
    "vertresolution",
    run!("reserved1", Bytes),
    number!("frame_count"),
    run!("compressorname", Bytes),
    number!("depth"),
    number!("end_code"),
    ("vpcC", ())
);

impl TakeBox for Vp09Box {
    ghost taken = { made_of make_vp09 (pair_taken (⟦<Vp09Front as TakeShape>⟧.taken VP09.now no_context)
        (⟦<Vp09Rest as TakeShape>⟧.taken VP09_REST.now no_context)) };

    fn take(alloc: Global, object: &mut Object<'_>) -> Result<Vp09Box> {
        let front = Vp09Front::take(alloc, VP09, NO_CONTEXT, object)?;
        let after = Vp09Rest::take(alloc, VP09_REST, NO_CONTEXT, object)?;
        let (version, (flags, rest)) = front;
        let (start_code, (data_reference_index, (reserved0, (width, rest)))) = rest;
        let (height, ()) = rest;
        let (horizresolution, (vertresolution, (reserved1, (frame_count, rest)))) = after;
        let (compressorname, (depth, (end_code, (vpcc, ())))) = rest;
        Ok(Vp09Box {
            version,
            flags,
            start_code,
            data_reference_index,
            reserved0,
            width,
            height,
            horizresolution,
            vertresolution,
            reserved1,
            frame_count,
            compressorname,
            depth,
            end_code,
            vpcc,
        })
    }
}

/// The parts of a colour.
type RgbaColorTaken = (U8, U8, U8, Last<U8>);

/// The names of its fields.
const COLOR: &<RgbaColorTaken as TakeShape>::Names = &names_of!(
    number!("red"),
    number!("green"),
    number!("blue"),
    number!("alpha")
);

impl TakeBox for RgbaColor {
    ghost taken = { made_of make_color (⟦<RgbaColorTaken as TakeShape>⟧.taken COLOR.now no_context) };

    fn take(alloc: Global, object: &mut Object<'_>) -> Result<RgbaColor> {
        let (red, (green, (blue, (alpha, ())))) = RgbaColorTaken::take(
            alloc, COLOR, NO_CONTEXT, object,
        )?;
        Ok(RgbaColor {
            red,
            green,
            blue,
            alpha,
        })
    }
}

/// The parts of a sample entry of timed text.
type Tx3gTaken = (
    U16,
    U32,
    I8,
    I8,
    (Group<FieldsOf<RgbaColor>>, Rectangle, Last<Array<12>>),
);

/// The names of its fields.
const TX3G: &<Tx3gTaken as TakeShape>::Names = &names_of!(
    number!("data_reference_index"),
    number!("displayFlags", Flags(8)),
    number!("horizontal-justification"),
    number!("vertical-justification"),
    ("background-color-rgba", ()),
    "default-text-box",
    run!("default-style", Bytes)
);

impl TakeBox for Tx3gBox {
    ghost taken = { made_of make_tx3g (⟦<Tx3gTaken as TakeShape>⟧.taken TX3G.now no_context) };

    fn take(alloc: Global, object: &mut Object<'_>) -> Result<Tx3gBox> {
        let (
            data_reference_index,
            (display_flags, (horizontal_justification, (vertical_justification, rest))),
        ) = Tx3gTaken::take(alloc, TX3G, NO_CONTEXT, object)?;
        let (bg_color_rgba, (box_record, (style_record, ()))) = rest;
        Ok(Tx3gBox {
            data_reference_index,
            display_flags,
            horizontal_justification,
            vertical_justification,
            bg_color_rgba,
            box_record,
            style_record,
        })
    }
}
