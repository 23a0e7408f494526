//! The AV1 codec configuration box.

ghost use Rattle.mp4_extra_pictures.specs.declared.av1c.TheConstants.{NAMES, WIDTHS};
ghost use Rattle.mp4_frame.specs.declared.codes.TheConstants as codes;
ghost use Rattle.std.proofs.Common.{refl, lit<};
ghost use Rattle.mp4_declared.specs.OwnBox.{layout_of};
ghost use Rattle.mp4_declared.specs.Layout.{packed, fields_of};

mod taken;

use mp4_declared::{
    Bits, Declared, DeclaredBox, EntryLayout, Last, Rest, Shape, ShapeVisitor, box_of, entry_of,
    numbers_of, parts_of,
};
use mp4_frame::{Entries, Result, TryClone, codes};
use mp4_shown::{
    FieldSink, HasFields, NamedBy, NamedShape, NumberName, ShowShape, View, names_of, number, run,
};

/// The first four bytes of an `av1C`. The names are those of AV1's sequence header.
#[derive(Clone, Copy, Debug, Default, PartialEq, Eq)]
pub struct Av1Config {
    /// True in the binding.
    pub marker: bool,
    /// 1 in the binding. 7 bits.
    pub version: u8,
    /// The profile. 3 bits.
    pub seq_profile: u8,
    /// The level of operating point 0. 5 bits.
    pub seq_level_idx_0: u8,
    /// The tier of operating point 0: true for the High tier.
    pub seq_tier_0: bool,
    /// True if a sample of a picture has more than 8 bits: 10, or 12 if `twelve_bit` is set too.
    pub high_bitdepth: bool,
    /// True if a sample of a picture has 12 bits.
    pub twelve_bit: bool,
    /// True if pictures have no colour.
    pub monochrome: bool,
    /// True if the colour planes have half the width.
    pub chroma_subsampling_x: bool,
    /// True if the colour planes have half the height.
    pub chroma_subsampling_y: bool,
    /// The position of the colour samples; 0 if it is unknown. 2 bits.
    pub chroma_sample_position: u8,
    /// 0 in the binding. 3 bits.
    pub reserved: u8,
    /// True if the presentation delay is known.
    pub initial_presentation_delay_present: bool,
    /// If the presentation delay is known, the number of samples to decode before the first is shown, minus one. Else
    /// reserved. 4 bits.
    pub initial_presentation_delay_minus_one: u8,
}

/// The widths of the fields, in bits. A field of one bit is a flag.
const WIDTHS: [u8; 14] = [1, 7, 3, 5, 1, 1, 1, 1, 1, 1, 2, 3, 1, 4];

impl EntryLayout<14, 4> for Av1Config {
    ghost use Rattle.mp4_extra_pictures.specs.contracts.av1c.Av1Config.{struct};

    ghost layout = { packed (fields_of WIDTHS) struct.as_values (λ v. struct.make v tt) (λ _. refl) (λ _. refl) refl };

    fn widths() -> [u8; 14] {
        WIDTHS
    }

    fn numbers(&self) -> [u64; 14] {
        numbers_of!(self => marker, version, seq_profile, seq_level_idx_0, seq_tier_0, high_bitdepth,
            twelve_bit, monochrome, chroma_subsampling_x, chroma_subsampling_y, chroma_sample_position,
            reserved, initial_presentation_delay_present, initial_presentation_delay_minus_one)
    }

    fn from_numbers(n: &[u64; 14]) -> Av1Config {
        entry_of!(n => Av1Config { marker: bool, version: u8, seq_profile: u8, seq_level_idx_0: u8,
            seq_tier_0: bool, high_bitdepth: bool, twelve_bit: bool, monochrome: bool,
            chroma_subsampling_x: bool, chroma_subsampling_y: bool, chroma_sample_position: u8, reserved: u8,
            initial_presentation_delay_present: bool, initial_presentation_delay_minus_one: u8 })
    }

    ghost few = { lit< tt };
}

/// The configuration of an AV1 decoder (`av1C`, AV1 Codec ISO Media File Format Binding, 2.3).
#[derive(Debug, Drop, PartialEq, Eq)]
pub struct Av1c {
    /// The values that a reader needs before it reads a sequence header.
    pub config: Av1Config,
    /// The OBUs that a decoder needs before those of the samples (`configOBUs`): a sequence header, and metadata.
    pub config_obus: Entries<u8>,
}

/// The content of the box: four bytes of bits, and bytes.
pub type Av1cShape = (Bits<Av1Config, 14, 4>, Last<Rest>);

impl DeclaredBox for Av1c {
    ghost use Rattle.mp4_extra_pictures.specs.contracts.av1c.Av1c.{struct};

    type Shape = Av1cShape;

    ghost CODE = { codes.AV1C };

    ghost layout = { layout_of struct (λ _. tt) (λ _. refl) (lit< tt) };

    const CODE: u32 = codes::AV1C;

    fn from_content(found: <Av1cShape as Shape>::Value) -> Av1c {
        box_of!(found => Av1c { config, config_obus })
    }

    fn visit<Q: ShapeVisitor<Self::Shape>>(&self, out: &mut [u8]) -> Q::Answer {
        Q::visit(parts_of!(self => config, config_obus.as_slice()), out)
    }

    ghost valid = { refl };
}

/// The names of the first four bytes. A delay is present.
const CONFIG: &[NumberName] = &[
    number!("marker"),
    number!("version"),
    number!("seq_profile"),
    number!("seq_level_idx_0"),
    number!("seq_tier_0"),
    number!("high_bitdepth"),
    number!("twelve_bit"),
    number!("monochrome"),
    number!("chroma_subsampling_x"),
    number!("chroma_subsampling_y"),
    number!("chroma_sample_position"),
    number!("reserved", Reserved(0)),
    number!("initial_presentation_delay_present"),
    number!("initial_presentation_delay_minus_one"),
];

/// The names of the first four bytes if no delay is present. Its bits are reserved then.
const CONFIG_WITHOUT_DELAY: &[NumberName] = &[
    number!("marker"),
    number!("version"),
    number!("seq_profile"),
    number!("seq_level_idx_0"),
    number!("seq_tier_0"),
    number!("high_bitdepth"),
    number!("twelve_bit"),
    number!("monochrome"),
    number!("chroma_subsampling_x"),
    number!("chroma_subsampling_y"),
    number!("chroma_sample_position"),
    number!("reserved", Reserved(0)),
    number!("initial_presentation_delay_present"),
    number!("reserved_without_delay", Reserved(0)),
];

/// The content of the box, for showing only.
type Av1cShown = (NamedBy<Bits<Av1Config, 14, 4>>, Last<Rest>);

/// The names of the fields.
const NAMES: &<Av1cShown as NamedShape>::Names = &names_of!(
    (CONFIG, CONFIG_WITHOUT_DELAY),
    run!("configOBUs", Bytes)
);

impl HasFields for Av1c {
    ghost shown = { λ view b. ⟦<Av1cShown as NamedShape>⟧.shown NAMES.now view
        ((b.config.initial_presentation_delay_present, b.config), (b.config_obus, tt)) };

    ghost whole = { λ view b. ⟦<Av1cShown as NamedShape>⟧.whole NAMES.now view
        ((b.config.initial_presentation_delay_present, b.config), (b.config_obus, tt)) };

    fn show<K: FieldSink>(&self, view: View, sink: &mut K) -> mp4_shown::Result<()> {
        let config = (self.config.initial_presentation_delay_present, self.config);
        Av1cShown::show(
            NAMES,
            view,
            &(config, (self.config_obus.as_slice(), ())),
            sink,
        )
    }
}

impl TryClone for Av1c {
    fn try_clone(&self) -> Result<Av1c> {
        let config_obus = self.config_obus.try_clone()?;
        Ok(Av1c {
            config_obus,
            ..*self
        })
    }
}

/// The AV1 codec configuration box.
pub type Av1cBox = Declared<Av1c>;
