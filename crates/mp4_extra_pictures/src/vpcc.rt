//! The VP codec configuration box.

ghost use Rattle.mp4_shown.specs.TakenShapes.{declared_taken};
ghost use Rattle.mp4_extra_pictures.specs.declared.vpcc.TheConstants.{DRAFT_WIDTHS, FORMAT_WIDTHS, NAMES};
ghost use Rattle.mp4_frame.specs.declared.codes.TheConstants as codes;
ghost use Rattle.std.proofs.Common.{refl, lit<};
ghost use Rattle.mp4_declared.specs.OwnBox.{layout_of};
ghost use Rattle.mp4_declared.specs.Layout.{packed, fields_of};

use crate::colr::{COLOUR_PRIMARIES, MATRIX_COEFFICIENTS, TRANSFER_CHARACTERISTICS};
use mp4_declared::{
    Bits, Bytes, Declared, DeclaredBox, EntryLayout, FromVersion, Full, If, Last, Shape,
    ShapeVisitor, U8, U16, VersionZero, box_of, entry_of, numbers_of, parts_of,
};
use mp4_frame::{Entries, Result, TryClone, codes};
use mp4_shown::taken::{self, Object, TakeFields, TakeShape, take_declared};
use mp4_shown::{
    FLAGS, FieldSink, HasFields, Meaning, NamedShape, NumberName, ShowShape, VERSION, View,
    names_of, number, run,
};
use std::alloc::Global;

/// The format of pictures in version 0, which drafts of the binding had.
#[derive(Clone, Copy, Debug, Default, PartialEq, Eq)]
pub struct VpDraftFormat {
    /// The number of bits of a sample. 4 bits.
    pub bit_depth: u8,
    /// The colour space; 0 if unspecified. 4 bits.
    pub color_space: u8,
    /// The sampling of colour: 0 and 1 for 4:2:0, 2 for 4:2:2, 3 for 4:4:4, 4 for 4:4:0. 4 bits.
    pub chroma_subsampling: u8,
    /// The transfer function. 3 bits.
    pub transfer_function: u8,
    /// True if samples use the full range of numbers, false if they leave the ends free.
    pub video_full_range_flag: bool,
}

/// The widths of the fields in version 0, in bits. A field of one bit is a flag.
const DRAFT_WIDTHS: [u8; 5] = [4, 4, 4, 3, 1];

impl EntryLayout<5, 2> for VpDraftFormat {
    ghost use Rattle.mp4_extra_pictures.specs.contracts.vpcc.VpDraftFormat.{struct};

    ghost layout = { packed (fields_of DRAFT_WIDTHS) struct.as_values (λ v. struct.make v tt) (λ _. refl)
        (λ _. refl) refl };

    fn widths() -> [u8; 5] {
        DRAFT_WIDTHS
    }

    fn numbers(&self) -> [u64; 5] {
        numbers_of!(self => bit_depth, color_space, chroma_subsampling, transfer_function, video_full_range_flag)
    }

    fn from_numbers(n: &[u64; 5]) -> VpDraftFormat {
        entry_of!(n => VpDraftFormat { bit_depth: u8, color_space: u8, chroma_subsampling: u8,
            transfer_function: u8, video_full_range_flag: bool })
    }

    ghost few = { lit< tt };
}

/// The format of pictures.
#[derive(Clone, Copy, Debug, Default, PartialEq, Eq)]
pub struct VpFormat {
    /// The number of bits of a sample: 8, 10 or 12. 4 bits.
    pub bit_depth: u8,
    /// The sampling of colour: 0 and 1 for 4:2:0, 2 for 4:2:2, 3 for 4:4:4. 3 bits.
    pub chroma_subsampling: u8,
    /// True if samples use the full range of numbers, false if they leave the ends free.
    pub video_full_range_flag: bool,
    /// The colour primaries (ISO/IEC 23091-2, 8.1).
    pub colour_primaries: u8,
    /// The transfer characteristics (ISO/IEC 23091-2, 8.2).
    pub transfer_characteristics: u8,
    /// The matrix coefficients (ISO/IEC 23091-2, 8.3).
    pub matrix_coefficients: u8,
}

/// The widths of the fields, in bits. A field of one bit is a flag.
const FORMAT_WIDTHS: [u8; 6] = [4, 3, 1, 8, 8, 8];

impl EntryLayout<6, 4> for VpFormat {
    ghost use Rattle.mp4_extra_pictures.specs.contracts.vpcc.VpFormat.{struct};

    ghost layout = { packed (fields_of FORMAT_WIDTHS) struct.as_values (λ v. struct.make v tt) (λ _. refl)
        (λ _. refl) refl };

    fn widths() -> [u8; 6] {
        FORMAT_WIDTHS
    }

    fn numbers(&self) -> [u64; 6] {
        numbers_of!(self => bit_depth, chroma_subsampling, video_full_range_flag, colour_primaries,
            transfer_characteristics, matrix_coefficients)
    }

    fn from_numbers(n: &[u64; 6]) -> VpFormat {
        entry_of!(n => VpFormat { bit_depth: u8, chroma_subsampling: u8, video_full_range_flag: bool,
            colour_primaries: u8, transfer_characteristics: u8, matrix_coefficients: u8 })
    }

    ghost few = { lit< tt };
}

/// The configuration of a VP decoder (`vpcC`, VP Codec ISO Media File Format Binding, VP Codec Configuration Box).
#[derive(Debug, Drop, PartialEq, Eq)]
pub struct Vpcc {
    /// 1 in the binding. 0 in its drafts, which have other fields.
    pub version: u8,
    /// 24 bits, 0 in the binding.
    pub flags: u32,
    /// The profile of the codec, 0 to 3.
    pub profile: u8,
    /// The level, times 10: 31 is level 3.1. 0 if it is unknown.
    pub level: u8,
    /// The format of pictures in version 0. `None` in version 1.
    pub draft_format: Option<VpDraftFormat>,
    /// The format of pictures. `None` in version 0.
    pub format: Option<VpFormat>,
    /// Further bytes for the decoder, at most 65,535. VP8 and VP9 have none.
    pub codec_initialization_data: Entries<u8>,
}

/// The content of the box: version, flags, two numbers, two bytes of bits in version 0, four bytes of bits since
/// version 1, a count of 16 bits, and that many bytes.
pub type VpccShape = Full<
    2,
    (
        U8,
        U8,
        If<VersionZero, Bits<VpDraftFormat, 5, 2>>,
        If<FromVersion<1>, Bits<VpFormat, 6, 4>>,
        Last<Bytes<U16>>,
    ),
>;

impl DeclaredBox for Vpcc {
    ghost use Rattle.mp4_extra_pictures.specs.contracts.vpcc.Vpcc.{struct};

    type Shape = VpccShape;

    ghost CODE = { codes.VPCC };

    ghost layout = { layout_of struct (λ _. tt) (λ _. refl) (lit< tt) };

    const CODE: u32 = codes::VPCC;

    fn from_content(found: <VpccShape as Shape>::Value) -> Vpcc {
        box_of!(found => Vpcc { version, flags, profile, level, draft_format, format, codec_initialization_data })
    }

    fn visit<Q: ShapeVisitor<Self::Shape>>(&self, out: &mut [u8]) -> Q::Answer {
        let parts = parts_of!(self => version, flags, profile, level, draft_format, format,
            codec_initialization_data.as_slice());
        Q::visit(parts, out)
    }

    ghost valid = { refl };
}

/// The meanings of `chromaSubsampling`.
const CHROMA_SUBSAMPLINGS: &[Meaning] = &[
    (0, "4:2:0 vertical"),
    (1, "4:2:0 colocated"),
    (2, "4:2:2"),
    (3, "4:4:4"),
];

/// The names of the format of pictures in version 0.
const DRAFT_FORMAT: &[NumberName] = &[
    number!("bitDepth"),
    number!("colorSpace"),
    number!("chromaSubsampling", Named, CHROMA_SUBSAMPLINGS),
    number!("transferFunction"),
    number!("videoFullRangeFlag"),
];

/// The names of the format of pictures.
const FORMAT: &[NumberName] = &[
    number!("bitDepth"),
    number!("chromaSubsampling", Named, CHROMA_SUBSAMPLINGS),
    number!("videoFullRangeFlag"),
    number!("colourPrimaries", Named, COLOUR_PRIMARIES),
    number!("transferCharacteristics", Named, TRANSFER_CHARACTERISTICS),
    number!("matrixCoefficients", Named, MATRIX_COEFFICIENTS),
];

/// The names of the fields.
const NAMES: &<VpccShape as NamedShape>::Names = &names_of!(
    VERSION,
    FLAGS,
    number!("profile"),
    number!("level"),
    DRAFT_FORMAT,
    FORMAT,
    run!("codecInitializationData", SomeBytes)
);

impl HasFields for Vpcc {
    ghost shown = { λ view b. ⟦<VpccShape as NamedShape>⟧.shown NAMES.now view
        (⟦<Vpcc as DeclaredBox>⟧.layout.content b) };

    ghost whole = { λ view b. ⟦<VpccShape as NamedShape>⟧.whole NAMES.now view
        (⟦<Vpcc as DeclaredBox>⟧.layout.content b) };

    fn show<K: FieldSink>(&self, view: View, sink: &mut K) -> mp4_shown::Result<()> {
        let parts = parts_of!(self => version, flags, profile, level, draft_format, format,
            codec_initialization_data.as_slice());
        VpccShape::show(NAMES, view, &parts, sink)
    }
}

impl TakeFields for Vpcc {
    ghost taken = { declared_taken ⟦<Vpcc as DeclaredBox>⟧.layout (⟦<VpccShape as TakeShape>⟧.taken NAMES.now) };

    fn take(alloc: Global, object: &mut Object<'_>) -> taken::Result<Vpcc> {
        take_declared::<Vpcc, VpccShape>(alloc, NAMES, object)
    }
}

impl TryClone for Vpcc {
    fn try_clone(&self) -> Result<Vpcc> {
        let codec_initialization_data = self.codec_initialization_data.try_clone()?;
        Ok(Vpcc {
            codec_initialization_data,
            ..*self
        })
    }
}

/// The VP codec configuration box.
pub type VpccBox = Declared<Vpcc>;
