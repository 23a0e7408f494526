//! Boxes that describe how pictures are coded and shown.

ghost use Rattle.mp4_declared.specs.OwnBox.{no_context};
ghost use Rattle.mp4_read_back.specs.StructLaws.{struct_entry_comes};
ghost use Rattle.mp4_read_back.specs.Structs.{struct_entry};
ghost use Rattle.mp4_read_back.specs.Text.{declared_back};
ghost use Rattle.mp4_read_back.specs.UnitLaws.{hevc_comes};
ghost use Rattle.mp4_read_back.specs.Units.{hevc_entry};
ghost use Rattle.mp4_read_back.specs.declared.pictures.TheConstants.{AUXC, BTRT, CLAP, CLLI, DVCC, DVVC, FIEL, HVCC};
ghost use Rattle.mp4_read_back.specs.declared.pictures.TheConstants.{HVCC_ARRAY, IMIR, IROT, ISPE, MDCV, PASP, PIXI};
ghost use Rattle.mp4_read_back.specs.declared.pictures.TheConstants.{VPCC, VVCC};
ghost use Rattle.std.proofs.Common.{refl};

use crate::exclusive::VersionThen;
use crate::{ComesBack, EntryComesBack, ReadBack};
use mp4_declared::{Bits, Bytes, DeclaredBox, DeclaredEntry, Full, Last, U8, U16};
use mp4_extra_pictures::auxc::{Auxc, AuxcShape};
use mp4_extra_pictures::btrt::{Btrt, BtrtShape};
use mp4_extra_pictures::clap::{Clap, ClapShape};
use mp4_extra_pictures::clli::{Clli, ClliShape};
use mp4_extra_pictures::dvcc::{Dvcc, DvccShape};
use mp4_extra_pictures::dvvc::{Dvvc, DvvcShape};
use mp4_extra_pictures::fiel::{Fiel, FielShape};
use mp4_extra_pictures::hvcc::{HevcArray, HevcArrayShape, HevcNalUnit, Hvcc, HvccShape};
use mp4_extra_pictures::imir::{Imir, ImirShape};
use mp4_extra_pictures::irot::{Irot, IrotShape};
use mp4_extra_pictures::ispe::{Ispe, IspeShape};
use mp4_extra_pictures::mdcv::{Mdcv, MdcvShape};
use mp4_extra_pictures::pasp::{Pasp, PaspShape};
use mp4_extra_pictures::pixi::{Pixi, PixiShape};
use mp4_extra_pictures::vpcc::{VpDraftFormat, VpFormat, Vpcc, VpccShape};
use mp4_extra_pictures::vvcc::{Vvcc, VvccShape};
use mp4_shown::{FLAGS, Meaning, NamedShape, NumberName, VERSION, list, names_of, number, run};

impl EntryComesBack for HevcNalUnit {
    ghost part = { hevc_entry };

    ghost comes = { hevc_comes };
}

/// The meanings of numbers.
const COLR_COLOUR_PRIMARIES: &[Meaning] = &[
    (1, "BT.709"),
    (2, "unspecified"),
    (4, "BT.470 System M"),
    (5, "BT.470 System B, G"),
    (6, "BT.601"),
    (7, "SMPTE ST 240"),
    (8, "generic film"),
    (9, "BT.2020"),
    (10, "SMPTE ST 428-1"),
    (11, "SMPTE RP 431-2"),
    (12, "SMPTE EG 432-1"),
    (22, "EBU Tech. 3213-E"),
];

/// The meanings of numbers.
const COLR_MATRIX_COEFFICIENTS: &[Meaning] = &[
    (0, "identity"),
    (1, "BT.709"),
    (2, "unspecified"),
    (4, "FCC Title 47"),
    (5, "BT.470 System B, G"),
    (6, "BT.601"),
    (7, "SMPTE ST 240"),
    (8, "YCgCo"),
    (9, "BT.2020 non-constant luminance"),
    (10, "BT.2020 constant luminance"),
    (11, "SMPTE ST 2085"),
    (12, "chromaticity-derived non-constant luminance"),
    (13, "chromaticity-derived constant luminance"),
    (14, "ICtCp"),
];

/// The meanings of numbers.
const COLR_TRANSFER_CHARACTERISTICS: &[Meaning] = &[
    (1, "BT.709"),
    (2, "unspecified"),
    (4, "BT.470 System M"),
    (5, "BT.470 System B, G"),
    (6, "BT.601"),
    (7, "SMPTE ST 240"),
    (8, "linear"),
    (9, "logarithmic, 100:1"),
    (10, "logarithmic, 316.22777:1"),
    (11, "IEC 61966-2-4"),
    (12, "BT.1361"),
    (13, "IEC 61966-2-1"),
    (14, "BT.2020, 10 bits"),
    (15, "BT.2020, 12 bits"),
    (16, "SMPTE ST 2084"),
    (17, "SMPTE ST 428-1"),
    (18, "ARIB STD-B67"),
];

/// The names of the fields of a `auxc`.
const AUXC: &<AuxcShape as NamedShape>::Names = &names_of!(
    VERSION,
    FLAGS,
    run!("aux_type", Text),
    run!("aux_subtype", SomeBytes)
);

impl ReadBack for Auxc {
    ghost Fits = { λ b. ⟦<AuxcShape as ComesBack>⟧.part.Fits no_context (⟦<Auxc as DeclaredBox>⟧.layout.content b) };

    ghost normal = { λ b. ⟦<Auxc as DeclaredBox>⟧.layout.value (⟦<Auxc as DeclaredBox>⟧.layout.content b) };

    ghost back = { declared_back ⟦<Auxc as DeclaredBox>⟧.layout ⟦<AuxcShape as ComesBack>⟧.part AUXC.now
        ⟦<AuxcShape as ComesBack>⟧.comes refl };
}

/// The names of the fields of a `btrt`.
const BTRT: &<BtrtShape as NamedShape>::Names = &names_of!(
    number!("bufferSizeDB"),
    number!("maxBitrate"),
    number!("avgBitrate")
);

impl ReadBack for Btrt {
    ghost Fits = { λ b. ⟦<BtrtShape as ComesBack>⟧.part.Fits no_context (⟦<Btrt as DeclaredBox>⟧.layout.content b) };

    ghost normal = { λ b. ⟦<Btrt as DeclaredBox>⟧.layout.value (⟦<Btrt as DeclaredBox>⟧.layout.content b) };

    ghost back = { declared_back ⟦<Btrt as DeclaredBox>⟧.layout ⟦<BtrtShape as ComesBack>⟧.part BTRT.now
        ⟦<BtrtShape as ComesBack>⟧.comes refl };
}

/// The names of the fields of a `clap`.
const CLAP: &<ClapShape as NamedShape>::Names = &names_of!(
    number!("cleanApertureWidthN"),
    number!("cleanApertureWidthD"),
    number!("cleanApertureHeightN"),
    number!("cleanApertureHeightD"),
    number!("horizOffN"),
    number!("horizOffD"),
    number!("vertOffN"),
    number!("vertOffD")
);

impl ReadBack for Clap {
    ghost Fits = { λ b. ⟦<ClapShape as ComesBack>⟧.part.Fits no_context (⟦<Clap as DeclaredBox>⟧.layout.content b) };

    ghost normal = { λ b. ⟦<Clap as DeclaredBox>⟧.layout.value (⟦<Clap as DeclaredBox>⟧.layout.content b) };

    ghost back = { declared_back ⟦<Clap as DeclaredBox>⟧.layout ⟦<ClapShape as ComesBack>⟧.part CLAP.now
        ⟦<ClapShape as ComesBack>⟧.comes refl };
}

/// The names of the fields of a `clli`.
const CLLI: &<ClliShape as NamedShape>::Names = &names_of!(
    number!("max_content_light_level"),
    number!("max_pic_average_light_level")
);

impl ReadBack for Clli {
    ghost Fits = { λ b. ⟦<ClliShape as ComesBack>⟧.part.Fits no_context (⟦<Clli as DeclaredBox>⟧.layout.content b) };

    ghost normal = { λ b. ⟦<Clli as DeclaredBox>⟧.layout.value (⟦<Clli as DeclaredBox>⟧.layout.content b) };

    ghost back = { declared_back ⟦<Clli as DeclaredBox>⟧.layout ⟦<ClliShape as ComesBack>⟧.part CLLI.now
        ⟦<ClliShape as ComesBack>⟧.comes refl };
}

/// The meanings of numbers.
const DVCC_BASE_LAYERS: &[Meaning] = &[
    (0, "none"),
    (1, "HDR10"),
    (2, "SDR"),
    (4, "HLG"),
    (6, "Ultra HD Blu-ray HDR10"),
];

/// The names of a part of a `dvcc`.
const DVCC_CONFIG: &[NumberName] = &[
    number!("dv_version_major"),
    number!("dv_version_minor"),
    number!("dv_profile"),
    number!("dv_level"),
    number!("rpu_present_flag"),
    number!("el_present_flag"),
    number!("bl_present_flag"),
    number!("dv_bl_signal_compatibility_id", Named, DVCC_BASE_LAYERS),
    number!("reserved", Reserved(0)),
];

/// The names of the fields of a `dvcc`.
const DVCC: &<DvccShape as NamedShape>::Names = &names_of!(DVCC_CONFIG);

impl ReadBack for Dvcc {
    ghost Fits = { λ b. ⟦<DvccShape as ComesBack>⟧.part.Fits no_context (⟦<Dvcc as DeclaredBox>⟧.layout.content b) };

    ghost normal = { λ b. ⟦<Dvcc as DeclaredBox>⟧.layout.value (⟦<Dvcc as DeclaredBox>⟧.layout.content b) };

    ghost back = { declared_back ⟦<Dvcc as DeclaredBox>⟧.layout ⟦<DvccShape as ComesBack>⟧.part DVCC.now
        ⟦<DvccShape as ComesBack>⟧.comes refl };
}

/// The names of the fields of a `dvvc`.
const DVVC: &<DvvcShape as NamedShape>::Names = &names_of!(DVCC_CONFIG);

impl ReadBack for Dvvc {
    ghost Fits = { λ b. ⟦<DvvcShape as ComesBack>⟧.part.Fits no_context (⟦<Dvvc as DeclaredBox>⟧.layout.content b) };

    ghost normal = { λ b. ⟦<Dvvc as DeclaredBox>⟧.layout.value (⟦<Dvvc as DeclaredBox>⟧.layout.content b) };

    ghost back = { declared_back ⟦<Dvvc as DeclaredBox>⟧.layout ⟦<DvvcShape as ComesBack>⟧.part DVVC.now
        ⟦<DvvcShape as ComesBack>⟧.comes refl };
}

/// The meanings of numbers.
const FIEL_FIELDS: &[Meaning] = &[(1, "progressive"), (2, "interlaced")];

/// The meanings of numbers.
const FIEL_ORDERS: &[Meaning] = &[
    (1, "top field first"),
    (6, "bottom field first"),
    (9, "bottom field shown first, top field stored first"),
    (14, "top field shown first, bottom field stored first"),
];

/// The names of the fields of a `fiel`.
const FIEL: &<FielShape as NamedShape>::Names = &names_of!(
    number!("fields", Named, FIEL_FIELDS),
    number!("detail", Named, FIEL_ORDERS)
);

impl ReadBack for Fiel {
    ghost Fits = { λ b. ⟦<FielShape as ComesBack>⟧.part.Fits no_context (⟦<Fiel as DeclaredBox>⟧.layout.content b) };

    ghost normal = { λ b. ⟦<Fiel as DeclaredBox>⟧.layout.value (⟦<Fiel as DeclaredBox>⟧.layout.content b) };

    ghost back = { declared_back ⟦<Fiel as DeclaredBox>⟧.layout ⟦<FielShape as ComesBack>⟧.part FIEL.now
        ⟦<FielShape as ComesBack>⟧.comes refl };
}

/// The meanings of numbers.
const HVCC_NAL_UNIT_TYPES: &[Meaning] = &[
    (32, "VPS"),
    (33, "SPS"),
    (34, "PPS"),
    (39, "prefix SEI"),
    (40, "suffix SEI"),
];

/// The names of a part of a `hvcc`.
const HVCC_KIND: &[NumberName] = &[
    number!("array_completeness"),
    number!("reserved", Reserved(0)),
    number!("NAL_unit_type", Named, HVCC_NAL_UNIT_TYPES),
];

/// The names of a part of a `hvcc`.
const HVCC_ARRAY: &<HevcArrayShape as NamedShape>::Names = &names_of!(HVCC_KIND, list!("nalUnit"));

/// The names of a part of a `hvcc`.
const HVCC_FORMAT: &[NumberName] = &[
    number!("reserved_before_segmentation", Reserved(0xF)),
    number!("min_spatial_segmentation_idc"),
    number!("reserved_before_parallelism", Reserved(0x3F)),
    number!("parallelismType"),
    number!("reserved_before_chroma_format", Reserved(0x3F)),
    number!("chroma_format_idc"),
    number!("reserved_before_luma", Reserved(0x1F)),
    number!("bit_depth_luma_minus8"),
    number!("reserved_before_chroma", Reserved(0x1F)),
    number!("bit_depth_chroma_minus8"),
];

/// The names of a part of a `hvcc`.
const HVCC_PROFILE: &[NumberName] = &[
    number!("general_profile_space"),
    number!("general_tier_flag"),
    number!("general_profile_idc"),
    number!("general_profile_compatibility_flags", Flags(8)),
    number!("general_constraint_indicator_flags", Hex(6)),
    number!("general_level_idc"),
];

/// The names of a part of a `hvcc`.
const HVCC_RATE: &[NumberName] = &[
    number!("constantFrameRate"),
    number!("numTemporalLayers"),
    number!("temporalIdNested"),
    number!("lengthSizeMinusOne"),
];

/// The names of the fields of a `hvcc`.
const HVCC: &<HvccShape as NamedShape>::Names = &names_of!(
    number!("configurationVersion"),
    HVCC_PROFILE,
    HVCC_FORMAT,
    number!("avgFrameRate"),
    HVCC_RATE,
    list!("arrays")
);

impl EntryComesBack for HevcArray {
    ghost part = { struct_entry ⟦<HevcArray as DeclaredEntry>⟧.layout ⟦<HevcArrayShape as ComesBack>⟧.part
        HVCC_ARRAY.now };

    ghost comes = { struct_entry_comes ⟦<HevcArray as DeclaredEntry>⟧.layout ⟦<HevcArrayShape as ComesBack>⟧.part
        HVCC_ARRAY.now ⟦<HevcArrayShape as ComesBack>⟧.comes };
}

impl ReadBack for Hvcc {
    ghost Fits = { λ b. ⟦<HvccShape as ComesBack>⟧.part.Fits no_context (⟦<Hvcc as DeclaredBox>⟧.layout.content b) };

    ghost normal = { λ b. ⟦<Hvcc as DeclaredBox>⟧.layout.value (⟦<Hvcc as DeclaredBox>⟧.layout.content b) };

    ghost back = { declared_back ⟦<Hvcc as DeclaredBox>⟧.layout ⟦<HvccShape as ComesBack>⟧.part HVCC.now
        ⟦<HvccShape as ComesBack>⟧.comes refl };
}

/// The names of a part of a `imir`.
const IMIR_MIRROR: &[NumberName] = &[number!("reserved", Reserved(0)), number!("axis")];

/// The names of the fields of a `imir`.
const IMIR: &<ImirShape as NamedShape>::Names = &names_of!(IMIR_MIRROR);

impl ReadBack for Imir {
    ghost Fits = { λ b. ⟦<ImirShape as ComesBack>⟧.part.Fits no_context (⟦<Imir as DeclaredBox>⟧.layout.content b) };

    ghost normal = { λ b. ⟦<Imir as DeclaredBox>⟧.layout.value (⟦<Imir as DeclaredBox>⟧.layout.content b) };

    ghost back = { declared_back ⟦<Imir as DeclaredBox>⟧.layout ⟦<ImirShape as ComesBack>⟧.part IMIR.now
        ⟦<ImirShape as ComesBack>⟧.comes refl };
}

/// The meanings of numbers.
const IROT_ANGLES: &[Meaning] = &[
    (0, "none"),
    (1, "90 degrees anticlockwise"),
    (2, "180 degrees"),
    (3, "270 degrees anticlockwise"),
];

/// The names of a part of a `irot`.
const IROT_ROTATION: &[NumberName] = &[
    number!("reserved", Reserved(0)),
    number!("angle", Named, IROT_ANGLES),
];

/// The names of the fields of a `irot`.
const IROT: &<IrotShape as NamedShape>::Names = &names_of!(IROT_ROTATION);

impl ReadBack for Irot {
    ghost Fits = { λ b. ⟦<IrotShape as ComesBack>⟧.part.Fits no_context (⟦<Irot as DeclaredBox>⟧.layout.content b) };

    ghost normal = { λ b. ⟦<Irot as DeclaredBox>⟧.layout.value (⟦<Irot as DeclaredBox>⟧.layout.content b) };

    ghost back = { declared_back ⟦<Irot as DeclaredBox>⟧.layout ⟦<IrotShape as ComesBack>⟧.part IROT.now
        ⟦<IrotShape as ComesBack>⟧.comes refl };
}

/// The names of the fields of a `ispe`.
const ISPE: &<IspeShape as NamedShape>::Names = &names_of!(
    VERSION,
    FLAGS,
    number!("image_width"),
    number!("image_height")
);

impl ReadBack for Ispe {
    ghost Fits = { λ b. ⟦<IspeShape as ComesBack>⟧.part.Fits no_context (⟦<Ispe as DeclaredBox>⟧.layout.content b) };

    ghost normal = { λ b. ⟦<Ispe as DeclaredBox>⟧.layout.value (⟦<Ispe as DeclaredBox>⟧.layout.content b) };

    ghost back = { declared_back ⟦<Ispe as DeclaredBox>⟧.layout ⟦<IspeShape as ComesBack>⟧.part ISPE.now
        ⟦<IspeShape as ComesBack>⟧.comes refl };
}

/// The names of a part of a `mdcv`.
const MDCV_BLUE: &[NumberName] = &[
    number!("display_primaries_x_1"),
    number!("display_primaries_y_1"),
];

/// The names of a part of a `mdcv`.
const MDCV_GREEN: &[NumberName] = &[
    number!("display_primaries_x_0"),
    number!("display_primaries_y_0"),
];

/// The names of a part of a `mdcv`.
const MDCV_RED: &[NumberName] = &[
    number!("display_primaries_x_2"),
    number!("display_primaries_y_2"),
];

/// The names of a part of a `mdcv`.
const MDCV_WHITE: &[NumberName] = &[number!("white_point_x"), number!("white_point_y")];

/// The names of the fields of a `mdcv`.
const MDCV: &<MdcvShape as NamedShape>::Names = &names_of!(
    MDCV_GREEN,
    MDCV_BLUE,
    MDCV_RED,
    MDCV_WHITE,
    number!("max_display_mastering_luminance"),
    number!("min_display_mastering_luminance")
);

impl ReadBack for Mdcv {
    ghost Fits = { λ b. ⟦<MdcvShape as ComesBack>⟧.part.Fits no_context (⟦<Mdcv as DeclaredBox>⟧.layout.content b) };

    ghost normal = { λ b. ⟦<Mdcv as DeclaredBox>⟧.layout.value (⟦<Mdcv as DeclaredBox>⟧.layout.content b) };

    ghost back = { declared_back ⟦<Mdcv as DeclaredBox>⟧.layout ⟦<MdcvShape as ComesBack>⟧.part MDCV.now
        ⟦<MdcvShape as ComesBack>⟧.comes refl };
}

/// The names of the fields of a `pasp`.
const PASP: &<PaspShape as NamedShape>::Names = &names_of!(
    number!("hSpacing"),
    number!("vSpacing")
);

impl ReadBack for Pasp {
    ghost Fits = { λ b. ⟦<PaspShape as ComesBack>⟧.part.Fits no_context (⟦<Pasp as DeclaredBox>⟧.layout.content b) };

    ghost normal = { λ b. ⟦<Pasp as DeclaredBox>⟧.layout.value (⟦<Pasp as DeclaredBox>⟧.layout.content b) };

    ghost back = { declared_back ⟦<Pasp as DeclaredBox>⟧.layout ⟦<PaspShape as ComesBack>⟧.part PASP.now
        ⟦<PaspShape as ComesBack>⟧.comes refl };
}

/// The names of the fields of a `pixi`.
const PIXI: &<PixiShape as NamedShape>::Names = &names_of!(
    VERSION,
    FLAGS,
    run!("bits_per_channel", Numbers)
);

impl ReadBack for Pixi {
    ghost Fits = { λ b. ⟦<PixiShape as ComesBack>⟧.part.Fits no_context (⟦<Pixi as DeclaredBox>⟧.layout.content b) };

    ghost normal = { λ b. ⟦<Pixi as DeclaredBox>⟧.layout.value (⟦<Pixi as DeclaredBox>⟧.layout.content b) };

    ghost back = { declared_back ⟦<Pixi as DeclaredBox>⟧.layout ⟦<PixiShape as ComesBack>⟧.part PIXI.now
        ⟦<PixiShape as ComesBack>⟧.comes refl };
}

/// The meanings of numbers.
const VPCC_CHROMA_SUBSAMPLINGS: &[Meaning] = &[
    (0, "4:2:0 vertical"),
    (1, "4:2:0 colocated"),
    (2, "4:2:2"),
    (3, "4:4:4"),
];

/// The names of a part of a `vpcc`.
const VPCC_DRAFT_FORMAT: &[NumberName] = &[
    number!("bitDepth"),
    number!("colorSpace"),
    number!("chromaSubsampling", Named, VPCC_CHROMA_SUBSAMPLINGS),
    number!("transferFunction"),
    number!("videoFullRangeFlag"),
];

/// The names of a part of a `vpcc`.
const VPCC_FORMAT: &[NumberName] = &[
    number!("bitDepth"),
    number!("chromaSubsampling", Named, VPCC_CHROMA_SUBSAMPLINGS),
    number!("videoFullRangeFlag"),
    number!("colourPrimaries", Named, COLR_COLOUR_PRIMARIES),
    number!(
        "transferCharacteristics",
        Named,
        COLR_TRANSFER_CHARACTERISTICS
    ),
    number!("matrixCoefficients", Named, COLR_MATRIX_COEFFICIENTS),
];

/// The names of the fields of a `vpcc`.
const VPCC: &<VpccShape as NamedShape>::Names = &names_of!(
    VERSION,
    FLAGS,
    number!("profile"),
    number!("level"),
    VPCC_DRAFT_FORMAT,
    VPCC_FORMAT,
    run!("codecInitializationData", SomeBytes)
);

/// The shape of Vpcc for its law.
type VpccLaw = Full<
    2,
    (
        U8,
        (
            U8,
            VersionThen<Bits<VpDraftFormat, 5, 2>, Bits<VpFormat, 6, 4>, Last<Bytes<U16>>>,
        ),
    ),
>;

impl ReadBack for Vpcc {
    ghost Fits = { λ b. ⟦<VpccLaw as ComesBack>⟧.part.Fits no_context (⟦<Vpcc as DeclaredBox>⟧.layout.content b) };

    ghost normal = { λ b. ⟦<Vpcc as DeclaredBox>⟧.layout.value (⟦<Vpcc as DeclaredBox>⟧.layout.content b) };

    ghost back = { declared_back ⟦<Vpcc as DeclaredBox>⟧.layout ⟦<VpccLaw as ComesBack>⟧.part VPCC.now
        ⟦<VpccLaw as ComesBack>⟧.comes refl };
}

/// The names of a part of a `vvcc`.
const VVCC_FRONT: &[NumberName] = &[
    number!("reserved", Reserved(0x1F)),
    number!("LengthSizeMinusOne"),
    number!("ptl_present_flag"),
];

/// The names of the fields of a `vvcc`.
const VVCC: &<VvccShape as NamedShape>::Names = &names_of!(
    VERSION,
    FLAGS,
    VVCC_FRONT,
    run!("data_bytes", SomeBytes)
);

impl ReadBack for Vvcc {
    ghost Fits = { λ b. ⟦<VvccShape as ComesBack>⟧.part.Fits no_context (⟦<Vvcc as DeclaredBox>⟧.layout.content b) };

    ghost normal = { λ b. ⟦<Vvcc as DeclaredBox>⟧.layout.value (⟦<Vvcc as DeclaredBox>⟧.layout.content b) };

    ghost back = { declared_back ⟦<Vvcc as DeclaredBox>⟧.layout ⟦<VvccShape as ComesBack>⟧.part VVCC.now
        ⟦<VvccShape as ComesBack>⟧.comes refl };
}
