//! The AVC configuration box.

ghost use Rattle.mp4_extra_pictures.specs.AvcLeast.{avc_least};
ghost use Rattle.mp4_extra_pictures.specs.AvcProfile.{has_format};
ghost use Rattle.mp4_extra_pictures.specs.ShownTail.{shown_end, whole_end};
ghost use Rattle.mp4_extra_pictures.specs.Tail.{map_end, tail_shape};
ghost use Rattle.mp4_extra_pictures.specs.TailLaws.{tail_laws};
ghost use Rattle.mp4_extra_pictures.specs.declared.avcc.TheConstants.{CONFIG_WIDTHS, EXTENSION, FORMAT_WIDTHS, NAMES};
ghost use Rattle.mp4_frame.specs.declared.codes.TheConstants as codes;
ghost use Rattle.mp4_shown.specs.Lists.{bytes_item};
ghost use Rattle.mp4_shown.specs.Members.{whole_bytes_item};
ghost use Rattle.mp4_shown.specs.Runs.{BytesName as SeenName, seen_bytes};
ghost use Rattle.std.proofs.Common.{refl, lit<};
ghost use Rattle.std.specs.Prelude.{◌≡◌};
ghost use Rattle.mp4_declared.specs.OwnBox.{layout_of};
ghost use Rattle.mp4_declared.specs.DeclaredEntry.{exact_layout_of};
ghost use Rattle.mp4_declared.specs.Layout.{packed, fields_of};

mod taken;

use crate::counted::Counted;
use crate::tail::AtEnd;
use mp4_declared::{
    Bits, Bytes, Context, Declared, DeclaredBox, DeclaredEntry, Dependent, Each, EntryLayout,
    EntryVisitor, HasContext, Last, PutShape, Rest, Shape, ShapeVisitor, U8, U16, box_of,
    clone_each, entry_of, numbers_of, parts_of, read_after,
};
use mp4_frame::{Entries, Result, TryClone, codes};
use mp4_shown::{
    BytesName, FieldSink, HasFields, Meaning, NamedShape, Nested, NumberName, ShowShape,
    ShownEntry, Value, View, list, names_of, number, put_bytes, run, show_shape,
};
use std::alloc::Global;

/// A NAL unit (ISO/IEC 14496-10, 7.3.1).
#[derive(Debug, Drop, PartialEq, Eq)]
pub struct AvcNalUnit {
    /// The bytes of the unit, at most 65,535.
    pub bytes: Entries<u8>,
}

/// The layout of a NAL unit: a count of 16 bits, and that many bytes.
pub type AvcNalUnitShape = Last<Bytes<U16>>;

impl DeclaredEntry for AvcNalUnit {
    ghost use Rattle.mp4_extra_pictures.specs.contracts.avcc.AvcNalUnit.{struct};

    type Shape = AvcNalUnitShape;

    ghost layout = { exact_layout_of struct (λ _. tt) (λ _. refl) };

    fn from_content(found: <AvcNalUnitShape as Shape>::Value) -> AvcNalUnit {
        box_of!(found => AvcNalUnit { bytes })
    }

    fn visit<Q: EntryVisitor<Self::Shape>>(&self, question: Q, out: &mut [u8]) -> Q::Answer {
        question.visit(parts_of!(self => bytes.as_slice()), out)
    }

    ghost begins = { λ _. lit< tt };
}

impl TryClone for AvcNalUnit {
    fn try_clone(&self) -> Result<AvcNalUnit> {
        Ok(AvcNalUnit {
            bytes: self.bytes.try_clone()?,
        })
    }
}

/// A NAL unit is shown as its bytes.
impl ShownEntry for AvcNalUnit {
    ghost shown = { λ view unit. bytes_item unit.bytes };

    ghost whole = { λ view unit. whole_bytes_item unit.bytes };

    fn show<K: FieldSink>(&self, _view: View, sink: &mut K) -> mp4_shown::Result<()> {
        sink.item(Value::Bytes(self.bytes.as_slice()))
    }
}

/// The profile and level of a stream, the size of NAL unit lengths, and a count. Reserved bits are set in the standard.
#[derive(Clone, Copy, Debug, Default, PartialEq, Eq)]
pub struct AvcConfig {
    /// 1 in the standard.
    pub configuration_version: u8,
    /// The profile: 66 for Baseline, 77 for Main, 100 for High, and others.
    pub avc_profile_indication: u8,
    /// The constraints of the profile, one bit each, as between profile and level in a sequence parameter set.
    pub profile_compatibility: u8,
    /// The level, times 10: 31 is level 3.1.
    pub avc_level_indication: u8,
    /// 6 reserved bits.
    pub reserved_before_length: u8,
    /// The number of bytes of the length before each NAL unit in a sample, minus one: 0, 1 or 3. 2 bits.
    pub length_size_minus_one: u8,
    /// 3 reserved bits.
    pub reserved_before_sets: u8,
    /// The number of sequence parameter sets, which you must set to match them. 5 bits.
    pub num_of_sequence_parameter_sets: u8,
}

/// The widths of the fields, in bits.
const CONFIG_WIDTHS: [u8; 8] = [8, 8, 8, 8, 6, 2, 3, 5];

impl EntryLayout<8, 6> for AvcConfig {
    ghost use Rattle.mp4_extra_pictures.specs.contracts.avcc.AvcConfig.{struct};

    ghost layout = { packed (fields_of CONFIG_WIDTHS) struct.as_values (λ v. struct.make v tt) (λ _. refl)
        (λ _. refl) refl };

    fn widths() -> [u8; 8] {
        CONFIG_WIDTHS
    }

    fn numbers(&self) -> [u64; 8] {
        numbers_of!(self => configuration_version, avc_profile_indication, profile_compatibility,
            avc_level_indication, reserved_before_length, length_size_minus_one, reserved_before_sets,
            num_of_sequence_parameter_sets)
    }

    fn from_numbers(n: &[u64; 8]) -> AvcConfig {
        entry_of!(n => AvcConfig { configuration_version: u8, avc_profile_indication: u8,
            profile_compatibility: u8, avc_level_indication: u8, reserved_before_length: u8,
            length_size_minus_one: u8, reserved_before_sets: u8, num_of_sequence_parameter_sets: u8 })
    }

    ghost few = { lit< tt };
}

/// The parts after these bits see the profile as their version, and the number of sequence parameter sets as their
/// flags.
impl HasContext for AvcConfig {
    ghost context_of = { λ c. record {
      version = c.avc_profile_indication;
      flags = c.num_of_sequence_parameter_sets;
    } };

    fn context(&self) -> Context {
        Context {
            version: self.avc_profile_indication,
            flags: u32::from(self.num_of_sequence_parameter_sets),
        }
    }
}

/// The format of samples. Reserved bits are set in the standard.
#[derive(Clone, Copy, Debug, Default, PartialEq, Eq)]
pub struct AvcFormat {
    /// 6 reserved bits.
    pub reserved_before_chroma_format: u8,
    /// The sampling of colour: 0 for no colour, 1 for 4:2:0, 2 for 4:2:2, 3 for 4:4:4. 2 bits.
    pub chroma_format: u8,
    /// 5 reserved bits.
    pub reserved_before_luma: u8,
    /// The number of bits of a luma sample, minus 8. 3 bits.
    pub bit_depth_luma_minus8: u8,
    /// 5 reserved bits.
    pub reserved_before_chroma: u8,
    /// The number of bits of a chroma sample, minus 8. 3 bits.
    pub bit_depth_chroma_minus8: u8,
}

/// The widths of the fields, in bits.
const FORMAT_WIDTHS: [u8; 6] = [6, 2, 5, 3, 5, 3];

impl EntryLayout<6, 3> for AvcFormat {
    ghost use Rattle.mp4_extra_pictures.specs.contracts.avcc.AvcFormat.{struct};

    ghost layout = { packed (fields_of FORMAT_WIDTHS) struct.as_values (λ v. struct.make v tt) (λ _. refl)
        (λ _. refl) refl };

    fn widths() -> [u8; 6] {
        FORMAT_WIDTHS
    }

    fn numbers(&self) -> [u64; 6] {
        numbers_of!(self => reserved_before_chroma_format, chroma_format, reserved_before_luma,
            bit_depth_luma_minus8, reserved_before_chroma, bit_depth_chroma_minus8)
    }

    fn from_numbers(n: &[u64; 6]) -> AvcFormat {
        entry_of!(n => AvcFormat { reserved_before_chroma_format: u8, chroma_format: u8, reserved_before_luma: u8,
            bit_depth_luma_minus8: u8, reserved_before_chroma: u8, bit_depth_chroma_minus8: u8 })
    }

    ghost few = { lit< tt };
}

/// The part of the configuration that has the format of samples.
#[derive(Debug, Drop, PartialEq, Eq)]
pub struct AvcExtension {
    /// The format of samples.
    pub format: AvcFormat,
    /// The extensions of sequence parameter sets, at most 255.
    pub sequence_parameter_set_exts: Entries<AvcNalUnit>,
    /// The bytes after them, up to the end of the box. The standard has none.
    pub rest: Entries<u8>,
}

/// The layout of the part: three bytes of bits, a count of 8 bits, that many NAL units, and bytes up to the end.
pub type AvcExtensionShape = (Bits<AvcFormat, 6, 3>, Each<U8, AvcNalUnit>, Last<Rest>);

impl DeclaredEntry for AvcExtension {
    ghost use Rattle.mp4_extra_pictures.specs.contracts.avcc.AvcExtension.{struct};

    type Shape = AvcExtensionShape;

    ghost layout = { exact_layout_of struct (λ _. tt) (λ _. refl) };

    fn from_content(found: <AvcExtensionShape as Shape>::Value) -> AvcExtension {
        box_of!(found => AvcExtension { format, sequence_parameter_set_exts, rest })
    }

    fn visit<Q: EntryVisitor<Self::Shape>>(&self, question: Q, out: &mut [u8]) -> Q::Answer {
        let parts =
            parts_of!(self => format, sequence_parameter_set_exts.as_slice(), rest.as_slice());
        question.visit(parts, out)
    }

    ghost begins = { λ _. lit< tt };
}

impl TryClone for AvcExtension {
    fn try_clone(&self) -> Result<AvcExtension> {
        let alloc = *self.rest.allocator();
        let sequence_parameter_set_exts = clone_each(
            alloc,
            self.sequence_parameter_set_exts.as_slice(),
        )?;
        Ok(AvcExtension {
            format: self.format,
            sequence_parameter_set_exts,
            rest: self.rest.try_clone()?,
        })
    }
}

/// The names of the format of samples. The standard sets all reserved bits.
const FORMAT: &[NumberName] = &[
    number!("reserved_before_chroma_format", Reserved(0x3F)),
    number!("chroma_format"),
    number!("reserved_before_luma", Reserved(0x1F)),
    number!("bit_depth_luma_minus8"),
    number!("reserved_before_chroma", Reserved(0x1F)),
    number!("bit_depth_chroma_minus8"),
];

/// The names of the fields of the part with the format of samples.
const EXTENSION: &<AvcExtensionShape as NamedShape>::Names = &names_of!(
    FORMAT,
    list!(
        "sequenceParameterSetExtNALUnit",
        Counted,
        "numOfSequenceParameterSetExt"
    ),
    run!("data_bytes", SomeBytes)
);

impl HasFields for AvcExtension {
    ghost shown = { λ view d. ⟦<AvcExtensionShape as NamedShape>⟧.shown EXTENSION.now view
        (⟦<AvcExtension as DeclaredEntry>⟧.layout.content d) };

    ghost whole = { λ view d. ⟦<AvcExtensionShape as NamedShape>⟧.whole EXTENSION.now view
        (⟦<AvcExtension as DeclaredEntry>⟧.layout.content d) };

    fn show<K: FieldSink>(&self, view: View, sink: &mut K) -> mp4_shown::Result<()> {
        let parts =
            parts_of!(self => format, sequence_parameter_set_exts.as_slice(), rest.as_slice());
        show_shape::<AvcExtensionShape, _, K>(EXTENSION, view, &parts, sink)
    }
}

/// Returns whether a configuration of this `profile` has the format of samples.
fn has_format(profile: u8) -> bool
    ensures { result ≡ has_format profile }
{
    !(profile == 66 || (profile == 77 || profile == 88))
}

/// The end of a configuration. It is an `AvcExtension` if the profile, which is the version that it sees, has the
/// format of samples, and the box has at least four more bytes. Otherwise it is all bytes up to the end of the box.
pub struct AvcTail;

impl Shape for AvcTail {
    type Value = AtEnd<AvcExtension, Entries<u8>>;

    ghost shape = { tail_shape (λ c. has_format c.version) 4 ⟦<Nested<AvcExtension> as Shape>⟧.shape };

    ghost shape_laws = { tail_laws (λ c. has_format c.version) 4 ⟦<Nested<AvcExtension> as Shape>⟧.shape
        ⟦<Nested<AvcExtension> as Shape>⟧.shape_laws (λ c x. avc_least _ _) };

    fn is_fixed() -> bool {
        false
    }

    fn front(_context: Context) -> usize {
        0
    }

    fn read(
        alloc: Global,
        bytes: &[u8],
        at: usize,
        end: u64,
        context: Context,
    ) -> Result<(AtEnd<AvcExtension, Entries<u8>>, usize)> {
        let left = end.saturating_sub(at as u64);
        if has_format(context.version) && 4 <= left {
            let (extension, next) = read_after::<Nested<AvcExtension>>(
                alloc, bytes, at, end, context,
            )?;
            Ok((AtEnd::Known(extension), next))
        } else {
            let (rest, next) = Rest::read(alloc, bytes, at, end, context)?;
            Ok((AtEnd::Other(rest), next))
        }
    }
}

impl<'a> PutShape<AtEnd<&'a AvcExtension, &'a [u8]>> for AvcTail {
    ghost content = { map_end (λ extension. extension.now) (λ rest. rest.now) };

    fn size(context: Context, value: AtEnd<&'a AvcExtension, &'a [u8]>) -> u64 {
        match value {
            AtEnd::Known(extension) => Nested::<AvcExtension>::size(context, extension),
            AtEnd::Other(rest) => rest.len() as u64,
        }
    }

    fn fits(context: Context, value: AtEnd<&'a AvcExtension, &'a [u8]>) -> bool {
        match value {
            AtEnd::Known(extension) => {
                has_format(context.version) && Nested::<AvcExtension>::fits(context, extension)
            }
            AtEnd::Other(rest) => !(has_format(context.version) && 4 <= rest.len() as u64),
        }
    }

    fn put(
        out: &mut [u8],
        at: usize,
        context: Context,
        value: AtEnd<&'a AvcExtension, &'a [u8]>,
    ) -> usize {
        match value {
            AtEnd::Known(extension) => Nested::<AvcExtension>::put(out, at, context, extension),
            AtEnd::Other(rest) => mp4_frame::put_bytes(out, at, rest),
        }
    }
}

/// The name is that of other bytes. The fields of an extension have their own.
impl NamedShape for AvcTail {
    type Value = AtEnd<AvcExtension, Entries<u8>>;

    type Names = BytesName;

    ghost Seen = { SeenName };

    ghost seen = { seen_bytes };

    ghost shown = { λ name view v. shown_end ⟦<AvcExtension as HasFields>⟧.shown name view v };

    ghost whole = { λ name view v. whole_end ⟦<AvcExtension as HasFields>⟧.shown ⟦<AvcExtension as HasFields>⟧.whole
        name view v };
}

impl<'a> ShowShape<AtEnd<&'a AvcExtension, &'a [u8]>> for AvcTail {
    ghost content = { map_end (λ extension. extension.now) (λ rest. rest.now) };

    fn show<K: FieldSink>(
        name: &BytesName,
        view: View,
        value: &AtEnd<&'a AvcExtension, &'a [u8]>,
        sink: &mut K,
    ) -> mp4_shown::Result<()> {
        match *value {
            AtEnd::Known(extension) => extension.show(view, sink),
            AtEnd::Other(rest) => put_bytes(*name, view.rows, rest, sink),
        }
    }
}

/// The configuration of an AVC decoder (`avcC`, ISO/IEC 14496-15, 5.3.3.1).
#[derive(Debug, Drop, PartialEq, Eq)]
pub struct Avcc {
    /// The profile and level, the size of NAL unit lengths, and the number of sequence parameter sets.
    pub config: AvcConfig,
    /// The sequence parameter sets, as many as `config` says, at most 31.
    pub sequence_parameter_sets: Entries<AvcNalUnit>,
    /// The picture parameter sets, at most 255.
    pub picture_parameter_sets: Entries<AvcNalUnit>,
    /// `Known` for profiles other than Baseline, Main and Extended, if the box has at least four more bytes. Otherwise
    /// `Other`, with the bytes up to the end of the box: none, also in old files of High profile, which leave the part
    /// out.
    pub extension: AtEnd<AvcExtension, Entries<u8>>,
}

/// The content of the box: six bytes of bits, the NAL units that they count, a count of 8 bits and that many NAL units,
/// and the format of samples or other bytes.
pub type AvccShape = Dependent<
    AvcConfig,
    (Counted<AvcNalUnit>, Each<U8, AvcNalUnit>, Last<AvcTail>),
    8,
    6,
>;

impl DeclaredBox for Avcc {
    ghost use Rattle.mp4_extra_pictures.specs.contracts.avcc.Avcc.{struct};

    type Shape = AvccShape;

    ghost CODE = { codes.AVCC };

    ghost layout = { layout_of struct (λ _. tt) (λ _. refl) (lit< tt) };

    const CODE: u32 = codes::AVCC;

    fn from_content(found: <AvccShape as Shape>::Value) -> Avcc {
        box_of!(found => Avcc { config, sequence_parameter_sets, picture_parameter_sets, extension })
    }

    fn visit<Q: ShapeVisitor<Self::Shape>>(&self, out: &mut [u8]) -> Q::Answer {
        let extension = match &self.extension {
            AtEnd::Known(extension) => AtEnd::Known(extension),
            AtEnd::Other(bytes) => AtEnd::Other(bytes.as_slice()),
        };
        let parts = parts_of!(self => config, sequence_parameter_sets.as_slice(),
            picture_parameter_sets.as_slice(), = extension);
        Q::visit(parts, out)
    }

    ghost valid = { refl };
}

/// The names of profiles (ISO/IEC 14496-10, A.2).
const PROFILES: &[Meaning] = &[
    (44, "CAVLC 4:4:4 Intra"),
    (66, "Baseline"),
    (77, "Main"),
    (88, "Extended"),
    (100, "High"),
    (110, "High 10"),
    (122, "High 4:2:2"),
    (244, "High 4:4:4 Predictive"),
];

/// The names of the profile and of what follows it. The standard sets all reserved bits.
const SETS: &[NumberName] = &[
    number!("configurationVersion"),
    number!("AVCProfileIndication", Named, PROFILES),
    number!("profile_compatibility"),
    number!("AVCLevelIndication"),
    number!("reserved_before_length", Reserved(0x3F)),
    number!("lengthSizeMinusOne"),
    number!("reserved_before_sets", Reserved(7)),
    number!("numOfSequenceParameterSets"),
];

/// The content of the box, for showing only.
type AvccShown = (
    Bits<AvcConfig, 8, 6>,
    Each<U8, AvcNalUnit>,
    Each<U8, AvcNalUnit>,
    Last<AvcTail>,
);

/// The names of the fields.
const NAMES: &<AvccShown as NamedShape>::Names = &names_of!(
    SETS,
    list!("sequenceParameterSetNALUnit"),
    list!(
        "pictureParameterSetNALUnit",
        Counted,
        "numOfPictureParameterSets"
    ),
    run!("data_bytes", SomeBytes)
);

impl HasFields for Avcc {
    ghost shown = { λ view b. ⟦<AvccShown as NamedShape>⟧.shown NAMES.now view
        (⟦<Avcc as DeclaredBox>⟧.layout.content b) };

    ghost whole = { λ view b. ⟦<AvccShown as NamedShape>⟧.whole NAMES.now view
        (⟦<Avcc as DeclaredBox>⟧.layout.content b) };

    fn show<K: FieldSink>(&self, view: View, sink: &mut K) -> mp4_shown::Result<()> {
        let extension = match &self.extension {
            AtEnd::Known(extension) => AtEnd::Known(extension),
            AtEnd::Other(bytes) => AtEnd::Other(bytes.as_slice()),
        };
        let parts = parts_of!(self => config, sequence_parameter_sets.as_slice(),
            picture_parameter_sets.as_slice(), = extension);
        show_shape::<AvccShown, _, K>(NAMES, view, &parts, sink)
    }
}

impl TryClone for Avcc {
    fn try_clone(&self) -> Result<Avcc> {
        let extension = match &self.extension {
            AtEnd::Known(extension) => AtEnd::Known(extension.try_clone()?),
            AtEnd::Other(bytes) => AtEnd::Other(bytes.try_clone()?),
        };
        let alloc = *self.sequence_parameter_sets.allocator();
        let sequence_parameter_sets = clone_each(alloc, self.sequence_parameter_sets.as_slice())?;
        let picture_parameter_sets = clone_each(alloc, self.picture_parameter_sets.as_slice())?;
        Ok(Avcc {
            config: self.config,
            sequence_parameter_sets,
            picture_parameter_sets,
            extension,
        })
    }
}

/// The AVC configuration box.
pub type AvccBox = Declared<Avcc>;
