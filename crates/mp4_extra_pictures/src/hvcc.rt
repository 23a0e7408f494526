//! The HEVC configuration box.

ghost use Rattle.mp4_shown.specs.TakenShapes.{entry_made};
ghost use Rattle.mp4_shown.specs.TakenShapes.{declared_taken};
ghost use Rattle.mp4_extra_pictures.specs.declared.hvcc.TheConstants.{PROFILE_WIDTHS, FORMAT_WIDTHS, RATE_WIDTHS};
ghost use Rattle.mp4_extra_pictures.specs.declared.hvcc.TheConstants.{NAMES};
ghost use Rattle.mp4_frame.specs.declared.codes.TheConstants as codes;
ghost use Rattle.mp4_extra_pictures.specs.declared.hvcc.TheConstants.{ARRAY, KIND_WIDTHS};
ghost use Rattle.mp4_shown.specs.Lists.{bytes_item, entry_of};
ghost use Rattle.mp4_shown.specs.Members.{whole_bytes_item, whole_entry};
ghost use Rattle.std.proofs.Common.{refl, lit<};
ghost use Rattle.mp4_declared.specs.OwnBox.{layout_of};
ghost use Rattle.mp4_declared.specs.DeclaredEntry.{exact_layout_of};
ghost use Rattle.mp4_declared.specs.Layout.{packed, fields_of};

use mp4_declared::{
    Bits, Bytes, Context, Declared, DeclaredBox, DeclaredEntry, Each, EntryLayout, EntryVisitor,
    Last, Shape, ShapeVisitor, U8, U16, box_of, clone_each, entry_of, numbers_of, parts_of,
};
use mp4_frame::{Entries, Result, TryClone, codes};
use mp4_shown::taken::{self, Object, TakeEntry, TakeFields, TakeShape, take_declared, take_entry};
use mp4_shown::{
    FieldSink, HasFields, Meaning, NamedShape, NumberName, ShowShape, ShownEntry, Value, View,
    list, names_of, number,
};
use std::alloc::Global;

/// The requirements on a decoder. The names are those of HEVC (ISO/IEC 23008-2, 7.4.4).
#[derive(Clone, Copy, Debug, Default, PartialEq, Eq)]
pub struct HevcProfile {
    /// The space of `general_profile_idc`: 0 for the profiles of the standard. 2 bits.
    pub general_profile_space: u8,
    /// The tier of the level: true for the High tier.
    pub general_tier_flag: bool,
    /// The profile: 1 for Main, 2 for Main 10, and so on. 5 bits.
    pub general_profile_idc: u8,
    /// The profiles that the stream conforms to, one bit each. Profile 0 has the highest bit.
    pub general_profile_compatibility_flags: u32,
    /// Further constraints that the stream meets, one bit each, such as progressive pictures. 48 bits.
    pub general_constraint_indicator_flags: u64,
    /// The level, times 30: 93 is level 3.1.
    pub general_level_idc: u8,
}

/// The widths of the fields, in bits. A field of one bit is a flag.
const PROFILE_WIDTHS: [u8; 6] = [2, 1, 5, 32, 48, 8];

impl EntryLayout<6, 12> for HevcProfile {
    ghost use Rattle.mp4_extra_pictures.specs.contracts.hvcc.HevcProfile.{struct};

    ghost layout = { packed (fields_of PROFILE_WIDTHS) struct.as_values (λ v. struct.make v tt) (λ _. refl)
        (λ _. refl) refl };

    fn widths() -> [u8; 6] {
        PROFILE_WIDTHS
    }

    fn numbers(&self) -> [u64; 6] {
        numbers_of!(self => general_profile_space, general_tier_flag, general_profile_idc,
            general_profile_compatibility_flags, general_constraint_indicator_flags, general_level_idc)
    }

    fn from_numbers(n: &[u64; 6]) -> HevcProfile {
        entry_of!(n => HevcProfile { general_profile_space: u8, general_tier_flag: bool, general_profile_idc: u8,
            general_profile_compatibility_flags: u32, general_constraint_indicator_flags: u64,
            general_level_idc: u8 })
    }

    ghost few = { lit< tt };
}

/// The division of pictures and the format of their samples. The names are those of HEVC (ISO/IEC 23008-2, 7.4.3.2 and
/// E.3.1). Reserved bits are set in the standard.
#[derive(Clone, Copy, Debug, Default, PartialEq, Eq)]
pub struct HevcFormat {
    /// 4 reserved bits.
    pub reserved_before_segmentation: u8,
    /// A bound on the size of the parts of a picture that can be decoded separately; 0 if unspecified. 12 bits.
    pub min_spatial_segmentation_idc: u16,
    /// 6 reserved bits.
    pub reserved_before_parallelism: u8,
    /// The way to decode a picture in parallel: 1 by slices, 2 by tiles, 3 by rows of blocks, 0 if mixed or unknown. 2
    /// bits.
    pub parallelism_type: u8,
    /// 6 reserved bits.
    pub reserved_before_chroma_format: u8,
    /// The sampling of colour: 0 for no colour, 1 for 4:2:0, 2 for 4:2:2, 3 for 4:4:4. 2 bits.
    pub chroma_format_idc: u8,
    /// 5 reserved bits.
    pub reserved_before_luma: u8,
    /// The number of bits of a luma sample, minus 8. 3 bits.
    pub bit_depth_luma_minus8: u8,
    /// 5 reserved bits.
    pub reserved_before_chroma: u8,
    /// The number of bits of a chroma sample, minus 8. 3 bits.
    pub bit_depth_chroma_minus8: u8,
}

/// The widths of the fields, in bits.
const FORMAT_WIDTHS: [u8; 10] = [4, 12, 6, 2, 6, 2, 5, 3, 5, 3];

impl EntryLayout<10, 6> for HevcFormat {
    ghost use Rattle.mp4_extra_pictures.specs.contracts.hvcc.HevcFormat.{struct};

    ghost layout = { packed (fields_of FORMAT_WIDTHS) struct.as_values (λ v. struct.make v tt) (λ _. refl)
        (λ _. refl) refl };

    fn widths() -> [u8; 10] {
        FORMAT_WIDTHS
    }

    fn numbers(&self) -> [u64; 10] {
        numbers_of!(self => reserved_before_segmentation, min_spatial_segmentation_idc,
            reserved_before_parallelism, parallelism_type, reserved_before_chroma_format, chroma_format_idc,
            reserved_before_luma, bit_depth_luma_minus8, reserved_before_chroma, bit_depth_chroma_minus8)
    }

    fn from_numbers(n: &[u64; 10]) -> HevcFormat {
        entry_of!(n => HevcFormat { reserved_before_segmentation: u8, min_spatial_segmentation_idc: u16,
            reserved_before_parallelism: u8, parallelism_type: u8, reserved_before_chroma_format: u8,
            chroma_format_idc: u8, reserved_before_luma: u8, bit_depth_luma_minus8: u8,
            reserved_before_chroma: u8, bit_depth_chroma_minus8: u8 })
    }

    ghost few = { lit< tt };
}

/// The frame rate of the track, its temporal layers, and the size of NAL unit lengths.
#[derive(Clone, Copy, Debug, Default, PartialEq, Eq)]
pub struct HevcRate {
    /// 1 if the frame rate is constant, 2 if it is constant in each temporal layer, 0 if it may vary. 2 bits.
    pub constant_frame_rate: u8,
    /// The number of temporal layers; 0 if it is unknown. 3 bits.
    pub num_temporal_layers: u8,
    /// True if a decoder can switch up to a higher temporal layer at any picture of that layer.
    pub temporal_id_nested: bool,
    /// The number of bytes of the length before each NAL unit in a sample, minus one: 0, 1 or 3. 2 bits.
    pub length_size_minus_one: u8,
}

/// The widths of the fields, in bits. A field of one bit is a flag.
const RATE_WIDTHS: [u8; 4] = [2, 3, 1, 2];

impl EntryLayout<4, 1> for HevcRate {
    ghost use Rattle.mp4_extra_pictures.specs.contracts.hvcc.HevcRate.{struct};

    ghost layout = { packed (fields_of RATE_WIDTHS) struct.as_values (λ v. struct.make v tt) (λ _. refl)
        (λ _. refl) refl };

    fn widths() -> [u8; 4] {
        RATE_WIDTHS
    }

    fn numbers(&self) -> [u64; 4] {
        numbers_of!(self => constant_frame_rate, num_temporal_layers, temporal_id_nested, length_size_minus_one)
    }

    fn from_numbers(n: &[u64; 4]) -> HevcRate {
        entry_of!(n => HevcRate { constant_frame_rate: u8, num_temporal_layers: u8, temporal_id_nested: bool,
            length_size_minus_one: u8 })
    }

    ghost few = { lit< tt };
}

/// A NAL unit (ISO/IEC 23008-2, 7.3.1).
#[derive(Debug, Drop, PartialEq, Eq)]
pub struct HevcNalUnit {
    /// The bytes of the unit, at most 65,535 (`nalUnit`).
    pub bytes: Entries<u8>,
}

/// The layout of a NAL unit: a count of 16 bits, and that many bytes.
pub type HevcNalUnitShape = Last<Bytes<U16>>;

impl DeclaredEntry for HevcNalUnit {
    ghost use Rattle.mp4_extra_pictures.specs.contracts.hvcc.HevcNalUnit.{struct};

    type Shape = HevcNalUnitShape;

    ghost layout = { exact_layout_of struct (λ _. tt) (λ _. refl) };

    fn from_content(found: <HevcNalUnitShape as Shape>::Value) -> HevcNalUnit {
        box_of!(found => HevcNalUnit { bytes })
    }

    fn visit<Q: EntryVisitor<Self::Shape>>(&self, question: Q, out: &mut [u8]) -> Q::Answer {
        question.visit(parts_of!(self => bytes.as_slice()), out)
    }

    ghost begins = { λ _. lit< tt };
}

impl TryClone for HevcNalUnit {
    fn try_clone(&self) -> Result<HevcNalUnit> {
        Ok(HevcNalUnit {
            bytes: self.bytes.try_clone()?,
        })
    }
}

/// A NAL unit is shown as its bytes.
impl ShownEntry for HevcNalUnit {
    ghost shown = { λ view unit. bytes_item unit.bytes };

    ghost whole = { λ view unit. whole_bytes_item unit.bytes };

    fn show<K: FieldSink>(&self, _view: View, sink: &mut K) -> mp4_shown::Result<()> {
        sink.item(Value::Bytes(self.bytes.as_slice()))
    }
}

/// The kind of the NAL units in an array.
#[derive(Clone, Copy, Debug, Default, PartialEq, Eq)]
pub struct HevcArrayKind {
    /// True if all NAL units of this type are in the array and none are in the samples.
    pub array_completeness: bool,
    /// False in the standard.
    pub reserved: bool,
    /// The type of the NAL units: 32 for video parameter sets (VPS), 33 for sequence parameter sets (SPS), 34 for
    /// picture parameter sets (PPS), 39 and 40 for messages before and after pictures (SEI). 6 bits.
    pub nal_unit_type: u8,
}

/// The widths of the fields, in bits. A field of one bit is a flag.
const KIND_WIDTHS: [u8; 3] = [1, 1, 6];

impl EntryLayout<3, 1> for HevcArrayKind {
    ghost use Rattle.mp4_extra_pictures.specs.contracts.hvcc.HevcArrayKind.{struct};

    ghost layout = { packed (fields_of KIND_WIDTHS) struct.as_values (λ v. struct.make v tt) (λ _. refl)
        (λ _. refl) refl };

    fn widths() -> [u8; 3] {
        KIND_WIDTHS
    }

    fn numbers(&self) -> [u64; 3] {
        numbers_of!(self => array_completeness, reserved, nal_unit_type)
    }

    fn from_numbers(n: &[u64; 3]) -> HevcArrayKind {
        entry_of!(n => HevcArrayKind { array_completeness: bool, reserved: bool, nal_unit_type: u8 })
    }

    ghost few = { lit< tt };
}

/// NAL units of one type.
#[derive(Debug, Drop, PartialEq, Eq)]
pub struct HevcArray {
    /// The kind of the NAL units.
    pub kind: HevcArrayKind,
    /// The NAL units, at most 65,535.
    pub nal_units: Entries<HevcNalUnit>,
}

/// The layout of an array: a byte of bits, a count of 16 bits, and that many NAL units.
pub type HevcArrayShape = (Bits<HevcArrayKind, 3, 1>, Last<Each<U16, HevcNalUnit>>);

impl DeclaredEntry for HevcArray {
    ghost use Rattle.mp4_extra_pictures.specs.contracts.hvcc.HevcArray.{struct};

    type Shape = HevcArrayShape;

    ghost layout = { exact_layout_of struct (λ _. tt) (λ _. refl) };

    fn from_content(found: <HevcArrayShape as Shape>::Value) -> HevcArray {
        box_of!(found => HevcArray { kind, nal_units })
    }

    fn visit<Q: EntryVisitor<Self::Shape>>(&self, question: Q, out: &mut [u8]) -> Q::Answer {
        question.visit(parts_of!(self => kind, nal_units.as_slice()), out)
    }

    ghost begins = { λ _. lit< tt };
}

impl TryClone for HevcArray {
    fn try_clone(&self) -> Result<HevcArray> {
        let alloc = *self.nal_units.allocator();
        Ok(HevcArray {
            kind: self.kind,
            nal_units: clone_each(alloc, self.nal_units.as_slice())?,
        })
    }
}

/// The types of the NAL units that an array may have (ISO/IEC 23008-2, Table 7-1).
const NAL_UNIT_TYPES: &[Meaning] = &[
    (32, "VPS"),
    (33, "SPS"),
    (34, "PPS"),
    (39, "prefix SEI"),
    (40, "suffix SEI"),
];

/// The names of the kind of an array.
const KIND: &[NumberName] = &[
    number!("array_completeness"),
    number!("reserved", Reserved(0)),
    number!("NAL_unit_type", Named, NAL_UNIT_TYPES),
];

/// The names of the fields of an array.
const ARRAY: &<HevcArrayShape as NamedShape>::Names = &names_of!(KIND, list!("nalUnit"));

impl ShownEntry for HevcArray {
    ghost shown = { λ view a. entry_of (⟦<HevcArrayShape as NamedShape>⟧.shown ARRAY.now view
        (⟦<HevcArray as DeclaredEntry>⟧.layout.content a)) };

    ghost whole = { λ view a. whole_entry (⟦<HevcArrayShape as NamedShape>⟧.shown ARRAY.now view
        (⟦<HevcArray as DeclaredEntry>⟧.layout.content a))
        (⟦<HevcArrayShape as NamedShape>⟧.whole ARRAY.now view (⟦<HevcArray as DeclaredEntry>⟧.layout.content a)) };

    fn show<K: FieldSink>(&self, view: View, sink: &mut K) -> mp4_shown::Result<()> {
        sink.begin_entry()?;
        HevcArrayShape::show(
            ARRAY,
            view,
            &parts_of!(self => kind, nal_units.as_slice()),
            sink,
        )?;
        sink.end_entry()
    }
}

impl TakeEntry for HevcArray {
    ghost taken = { λ c j. entry_made ⟦<HevcArray as DeclaredEntry>⟧.layout.value
        (⟦<HevcArrayShape as TakeShape>⟧.taken ARRAY.now c) j };

    fn take(alloc: Global, context: Context, value: json::Value<'_>) -> taken::Result<HevcArray> {
        take_entry::<HevcArray, HevcArrayShape>(alloc, ARRAY, context, value)
    }
}

/// The configuration of an HEVC decoder (`hvcC`, ISO/IEC 14496-15, 8.3.3.1).
#[derive(Debug, Drop, PartialEq, Eq)]
pub struct Hvcc {
    /// 1 in the standard.
    pub configuration_version: u8,
    /// The requirements on a decoder.
    pub profile: HevcProfile,
    /// The division of pictures and the format of their samples.
    pub format: HevcFormat,
    /// The average frame rate, in frames per 256 seconds; 0 if unspecified.
    pub avg_frame_rate: u16,
    /// The frame rate, the temporal layers, and the size of NAL unit lengths.
    pub rate: HevcRate,
    /// The NAL units that a decoder needs before those of the samples, at most 255 arrays.
    pub arrays: Entries<HevcArray>,
}

/// The content of the box: a number, 12 and 6 bytes of bits, a number, a byte of bits, a count of 8 bits, and that many
/// arrays.
pub type HvccShape = (
    U8,
    Bits<HevcProfile, 6, 12>,
    Bits<HevcFormat, 10, 6>,
    U16,
    (Bits<HevcRate, 4, 1>, Last<Each<U8, HevcArray>>),
);

impl DeclaredBox for Hvcc {
    ghost use Rattle.mp4_extra_pictures.specs.contracts.hvcc.Hvcc.{struct};

    type Shape = HvccShape;

    ghost CODE = { codes.HVCC };

    ghost layout = { layout_of struct (λ _. tt) (λ _. refl) (lit< tt) };

    const CODE: u32 = codes::HVCC;

    fn from_content(found: <HvccShape as Shape>::Value) -> Hvcc {
        box_of!(found => Hvcc { configuration_version, profile, format, avg_frame_rate, rate, arrays })
    }

    fn visit<Q: ShapeVisitor<Self::Shape>>(&self, out: &mut [u8]) -> Q::Answer {
        let parts = parts_of!(self => configuration_version, profile, format, avg_frame_rate, rate,
            arrays.as_slice());
        Q::visit(parts, out)
    }

    ghost valid = { refl };
}

/// The names of the requirements on a decoder.
const PROFILE: &[NumberName] = &[
    number!("general_profile_space"),
    number!("general_tier_flag"),
    number!("general_profile_idc"),
    number!("general_profile_compatibility_flags", Flags(8)),
    number!("general_constraint_indicator_flags", Hex(6)),
    number!("general_level_idc"),
];

/// The names of the format of pictures. The standard sets all reserved bits.
const FORMAT: &[NumberName] = &[
    number!("reserved_before_segmentation", Reserved(0xF)),
    number!("min_spatial_segmentation_idc"),
    number!("reserved_before_parallelism", Reserved(0x3F)),
    number!("parallelismType"),
    number!("reserved_before_chroma_format", Reserved(0x3F)),
    number!("chroma_format_idc"),
    number!("reserved_before_luma", Reserved(0x1F)),
    number!("bit_depth_luma_minus8"),
    number!("reserved_before_chroma", Reserved(0x1F)),
    number!("bit_depth_chroma_minus8"),
];

/// The names of the frame rate and of what follows it.
const RATE: &[NumberName] = &[
    number!("constantFrameRate"),
    number!("numTemporalLayers"),
    number!("temporalIdNested"),
    number!("lengthSizeMinusOne"),
];

/// The names of the fields.
const NAMES: &<HvccShape as NamedShape>::Names = &names_of!(
    number!("configurationVersion"),
    PROFILE,
    FORMAT,
    number!("avgFrameRate"),
    RATE,
    list!("arrays")
);

impl HasFields for Hvcc {
    ghost shown = { λ view b. ⟦<HvccShape as NamedShape>⟧.shown NAMES.now view
        (⟦<Hvcc as DeclaredBox>⟧.layout.content b) };

    ghost whole = { λ view b. ⟦<HvccShape as NamedShape>⟧.whole NAMES.now view
        (⟦<Hvcc as DeclaredBox>⟧.layout.content b) };

    fn show<K: FieldSink>(&self, view: View, sink: &mut K) -> mp4_shown::Result<()> {
        let parts = parts_of!(self => configuration_version, profile, format, avg_frame_rate, rate,
            arrays.as_slice());
        HvccShape::show(NAMES, view, &parts, sink)
    }
}

impl TakeFields for Hvcc {
    ghost taken = { declared_taken ⟦<Hvcc as DeclaredBox>⟧.layout (⟦<HvccShape as TakeShape>⟧.taken NAMES.now) };

    fn take(alloc: Global, object: &mut Object<'_>) -> taken::Result<Hvcc> {
        take_declared::<Hvcc, HvccShape>(alloc, NAMES, object)
    }
}

impl TryClone for Hvcc {
    fn try_clone(&self) -> Result<Hvcc> {
        let alloc = *self.arrays.allocator();
        let arrays = clone_each(alloc, self.arrays.as_slice())?;
        Ok(Hvcc { arrays, ..*self })
    }
}

/// The HEVC configuration box.
pub type HvccBox = Declared<Hvcc>;
