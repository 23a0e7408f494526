//! The Apple Lossless specific box.

ghost use Rattle.mp4_shown.specs.TakenShapes.{declared_taken};
ghost use Rattle.mp4_extra_sound.specs.declared.alac.TheConstants.{NAMES, WIDTHS};
ghost use Rattle.mp4_frame.specs.declared.codes.TheConstants as codes;
ghost use Rattle.mp4_declared.specs.OwnBox.{layout_of};
ghost use Rattle.mp4_declared.specs.Layout.{packed, fields_of};
ghost use Rattle.std.proofs.Common.{refl, lit<};

use mp4_declared::declaring::*;
use mp4_frame::{Result, codes};
use mp4_shown::taken::{self, Object, TakeFields, TakeShape, take_declared};
use mp4_shown::{
    FLAGS, FieldSink, HasFields, NamedShape, NumberName, ShowShape, VERSION, View, names_of,
    number, run,
};
use std::alloc::Global;

/// The configuration of an Apple Lossless decoder.
#[derive(Clone, Copy, Debug, Default, PartialEq, Eq)]
pub struct AlacConfig {
    /// The number of samples of each channel in a packet, except in the last one (`frameLength`).
    pub frame_length: u32,
    /// The version of the format that a decoder needs, 0 (`compatibleVersion`).
    pub compatible_version: u8,
    /// The number of bits of a sample (`bitDepth`): 16, 20, 24 or 32.
    pub bit_depth: u8,
    /// A parameter of the Rice code: 40.
    pub pb: u8,
    /// A parameter of the Rice code: 10.
    pub mb: u8,
    /// A parameter of the Rice code: 14.
    pub kb: u8,
    /// The number of channels (`numChannels`).
    pub num_channels: u8,
    /// 255, and unused (`maxRun`).
    pub max_run: u16,
    /// The number of bytes of the largest packet; 0 if unknown (`maxFrameBytes`).
    pub max_frame_bytes: u32,
    /// The average bit rate, in bits per second; 0 if unknown (`avgBitRate`).
    pub avg_bit_rate: u32,
    /// The number of samples in a second (`sampleRate`).
    pub sample_rate: u32,
}

/// The widths of the fields, in bits.
const WIDTHS: [u8; 11] = [32, 8, 8, 8, 8, 8, 8, 16, 32, 32, 32];

impl EntryLayout<11, 24> for AlacConfig {
    ghost use Rattle.mp4_extra_sound.specs.contracts.alac.AlacConfig.{struct};

    ghost layout = { packed (fields_of WIDTHS) struct.as_values (λ v. struct.make v tt) (λ _. refl) (λ _. refl) refl };

    fn widths() -> [u8; 11] {
        WIDTHS
    }

    fn numbers(&self) -> [u64; 11] {
        numbers_of!(self => frame_length, compatible_version, bit_depth, pb, mb, kb, num_channels,
            max_run, max_frame_bytes, avg_bit_rate, sample_rate)
    }

    fn from_numbers(n: &[u64; 11]) -> AlacConfig {
        entry_of!(n => AlacConfig { frame_length: u32, compatible_version: u8, bit_depth: u8, pb: u8, mb: u8, kb: u8,
            num_channels: u8, max_run: u16, max_frame_bytes: u32, avg_bit_rate: u32, sample_rate: u32 })
    }

    ghost few = { lit< tt };
}

/// The configuration of an Apple Lossless decoder (`alac`, ALAC, "Magic cookie description"). It is in the sample entry
/// of the same code, or in its `wave`.
#[derive(Debug, Drop, PartialEq, Eq)]
pub struct Alac {
    /// 0 in the standard.
    pub version: u8,
    /// 24 bits, 0 in the standard.
    pub flags: u32,
    /// The configuration.
    pub config: AlacConfig,
    /// The layout of the channels (`ALACChannelLayoutInfo`), if there are more than two: 24 bytes, or none.
    pub channel_layout_info: Entries<u8>,
}

/// The content of the box: version, flags, 24 bytes of numbers, and bytes up to its end.
pub type AlacShape = Full<1, (Bits<AlacConfig, 11, 24>, Last<Rest>)>;

impl DeclaredBox for Alac {
    ghost use Rattle.mp4_extra_sound.specs.contracts.alac.Alac.{struct};

    type Shape = AlacShape;

    ghost CODE = { codes.ALAC };

    ghost layout = { layout_of struct (λ _. tt) (λ _. refl) (lit< tt) };

    const CODE: u32 = codes::ALAC;

    fn from_content(found: <AlacShape as Shape>::Value) -> Alac {
        box_of!(found => Alac { version, flags, config, channel_layout_info })
    }

    fn visit<Q: ShapeVisitor<Self::Shape>>(&self, out: &mut [u8]) -> Q::Answer {
        let parts = parts_of!(self => version, flags, config, channel_layout_info.as_slice());
        Q::visit(parts, out)
    }

    ghost valid = { refl };
}

/// The names of the configuration.
const CONFIG: &[NumberName] = &[
    number!("frameLength"),
    number!("compatibleVersion"),
    number!("bitDepth"),
    number!("pb"),
    number!("mb"),
    number!("kb"),
    number!("numChannels"),
    number!("maxRun"),
    number!("maxFrameBytes"),
    number!("avgBitRate"),
    number!("sampleRate"),
];

/// The names of the fields.
const NAMES: &<AlacShape as NamedShape>::Names = &names_of!(
    VERSION,
    FLAGS,
    CONFIG,
    run!("ALACChannelLayoutInfo", SomeBytes)
);

impl HasFields for Alac {
    ghost shown = { λ view b. ⟦<AlacShape as NamedShape>⟧.shown NAMES.now view
        (⟦<Alac as DeclaredBox>⟧.layout.content b) };

    ghost whole = { λ view b. ⟦<AlacShape as NamedShape>⟧.whole NAMES.now view
        (⟦<Alac as DeclaredBox>⟧.layout.content b) };

    fn show<K: FieldSink>(&self, view: View, sink: &mut K) -> mp4_shown::Result<()> {
        let parts = parts_of!(self => version, flags, config, channel_layout_info.as_slice());
        AlacShape::show(NAMES, view, &parts, sink)
    }
}

impl TakeFields for Alac {
    ghost taken = { declared_taken ⟦<Alac as DeclaredBox>⟧.layout (⟦<AlacShape as TakeShape>⟧.taken NAMES.now) };

    fn take(alloc: Global, object: &mut Object<'_>) -> taken::Result<Alac> {
        take_declared::<Alac, AlacShape>(alloc, NAMES, object)
    }
}

impl TryClone for Alac {
    fn try_clone(&self) -> Result<Alac> {
        let channel_layout_info = self.channel_layout_info.try_clone()?;
        Ok(Alac {
            channel_layout_info,
            ..*self
        })
    }
}

/// The Apple Lossless specific box.
pub type AlacBox = Declared<Alac>;
