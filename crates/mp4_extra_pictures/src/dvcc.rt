//! The Dolby Vision configuration box of profiles up to 7.

ghost use Rattle.mp4_shown.specs.TakenShapes.{declared_taken};
ghost use Rattle.mp4_extra_pictures.specs.declared.dvcc.TheConstants.{NAMES, WIDTHS};
ghost use Rattle.mp4_frame.specs.declared.codes.TheConstants as codes;
ghost use Rattle.mp4_declared.specs.OwnBox.{layout_of};
ghost use Rattle.mp4_declared.specs.Layout.{packed, fields_of};
ghost use Rattle.std.proofs.Common.{refl, lit<};

use mp4_declared::Zeros;
use mp4_declared::declaring::*;
use mp4_frame::{Result, codes};
use mp4_shown::taken::{self, Object, TakeFields, TakeShape, take_declared};
use mp4_shown::{
    FieldSink, HasFields, Meaning, NamedShape, NumberName, ShowShape, View, names_of, number,
};
use std::alloc::Global;

/// The fields of a `dvcC` or a `dvvC`.
#[derive(Clone, Copy, Debug, Default, PartialEq, Eq)]
pub struct DolbyVisionConfig {
    /// The version of the specification that the stream follows.
    pub dv_version_major: u8,
    /// The second number of that version.
    pub dv_version_minor: u8,
    /// The profile. 7 bits.
    pub dv_profile: u8,
    /// The level, which bounds the size and the rate of pictures. 6 bits.
    pub dv_level: u8,
    /// True if the track has metadata of Dolby Vision (RPU).
    pub rpu_present_flag: bool,
    /// True if the track has the enhancement layer.
    pub el_present_flag: bool,
    /// True if the track has the base layer.
    pub bl_present_flag: bool,
    /// The format of the base layer for decoders without Dolby Vision: 0 for none, 1 for HDR10, 2 for SDR, 4 for HLG. 4
    /// bits.
    pub dv_bl_signal_compatibility_id: u8,
    /// 0 in the standard. 28 bits.
    pub reserved: u32,
}

/// The widths of the fields, in bits. A field of one bit is a flag.
const WIDTHS: [u8; 9] = [8, 8, 7, 6, 1, 1, 1, 4, 28];

impl EntryLayout<9, 8> for DolbyVisionConfig {
    ghost use Rattle.mp4_extra_pictures.specs.contracts.dvcc.DolbyVisionConfig.{struct};

    ghost layout = { packed (fields_of WIDTHS) struct.as_values (λ v. struct.make v tt) (λ _. refl) (λ _. refl) refl };

    fn widths() -> [u8; 9] {
        WIDTHS
    }

    fn numbers(&self) -> [u64; 9] {
        numbers_of!(self => dv_version_major, dv_version_minor, dv_profile, dv_level, rpu_present_flag,
            el_present_flag, bl_present_flag, dv_bl_signal_compatibility_id, reserved)
    }

    fn from_numbers(n: &[u64; 9]) -> DolbyVisionConfig {
        entry_of!(n => DolbyVisionConfig { dv_version_major: u8, dv_version_minor: u8, dv_profile: u8, dv_level: u8,
            rpu_present_flag: bool, el_present_flag: bool, bl_present_flag: bool, dv_bl_signal_compatibility_id: u8,
            reserved: u32 })
    }

    ghost few = { lit< tt };
}

/// The configuration of Dolby Vision in profiles up to 7 (`dvcC`, Dolby Vision Streams Within the ISO Base
/// Media File Format, "Configuration boxes").
#[derive(Clone, Copy, Debug, Drop, PartialEq, Eq)]
pub struct Dvcc {
    /// The fields of the box.
    pub config: DolbyVisionConfig,
}

/// The content of the box: eight bytes of bits, and 16 reserved bytes.
pub type DvccShape = (Bits<DolbyVisionConfig, 9, 8>, Zeros<16>);

impl DeclaredBox for Dvcc {
    ghost use Rattle.mp4_extra_pictures.specs.contracts.dvcc.Dvcc.{struct};

    type Shape = DvccShape;

    ghost CODE = { codes.DVCC };

    ghost layout = { layout_of struct (λ _. tt) (λ _. refl) (lit< tt) };

    const CODE: u32 = codes::DVCC;

    fn from_content(found: <DvccShape as Shape>::Value) -> Dvcc {
        box_of!(found => Dvcc { config })
    }

    fn visit<Q: ShapeVisitor<Self::Shape>>(&self, out: &mut [u8]) -> Q::Answer {
        let parts = parts_of!(self => config);
        Q::visit(parts, out)
    }

    ghost valid = { refl };
}

/// The meanings of `dv_bl_signal_compatibility_id`.
const BASE_LAYERS: &[Meaning] = &[
    (0, "none"),
    (1, "HDR10"),
    (2, "SDR"),
    (4, "HLG"),
    (6, "Ultra HD Blu-ray HDR10"),
];

/// The names of the configuration.
pub const CONFIG: &[NumberName] = &[
    number!("dv_version_major"),
    number!("dv_version_minor"),
    number!("dv_profile"),
    number!("dv_level"),
    number!("rpu_present_flag"),
    number!("el_present_flag"),
    number!("bl_present_flag"),
    number!("dv_bl_signal_compatibility_id", Named, BASE_LAYERS),
    number!("reserved", Reserved(0)),
];

/// The names of the fields.
const NAMES: &<DvccShape as NamedShape>::Names = &names_of!(CONFIG);

impl HasFields for Dvcc {
    ghost shown = { λ view b. ⟦<DvccShape as NamedShape>⟧.shown NAMES.now view
        (⟦<Dvcc as DeclaredBox>⟧.layout.content b) };

    ghost whole = { λ view b. ⟦<DvccShape as NamedShape>⟧.whole NAMES.now view
        (⟦<Dvcc as DeclaredBox>⟧.layout.content b) };

    fn show<K: FieldSink>(&self, view: View, sink: &mut K) -> mp4_shown::Result<()> {
        let parts = parts_of!(self => config);
        DvccShape::show(NAMES, view, &parts, sink)
    }
}

impl TakeFields for Dvcc {
    ghost taken = { declared_taken ⟦<Dvcc as DeclaredBox>⟧.layout (⟦<DvccShape as TakeShape>⟧.taken NAMES.now) };

    fn take(alloc: Global, object: &mut Object<'_>) -> taken::Result<Dvcc> {
        take_declared::<Dvcc, DvccShape>(alloc, NAMES, object)
    }
}

impl TryClone for Dvcc {
    fn try_clone(&self) -> Result<Dvcc> {
        Ok(*self)
    }
}

/// The Dolby Vision configuration box of profiles up to 7.
pub type DvccBox = Declared<Dvcc>;
