//! The channel layout box.

ghost use Rattle.mp4_shown.specs.TakenShapes.{declared_taken};
ghost use Rattle.mp4_extra_sound.specs.declared.chnl.TheConstants.{NAMES, WIDTHS};
ghost use Rattle.mp4_frame.specs.declared.codes.TheConstants as codes;
ghost use Rattle.mp4_declared.specs.OwnBox.{layout_of};
ghost use Rattle.mp4_declared.specs.Layout.{packed, fields_of};
ghost use Rattle.std.proofs.Common.{refl, lit<};

use mp4_declared::VersionZero;
use mp4_declared::declaring::*;
use mp4_frame::{Result, codes};
use mp4_shown::taken::{self, Object, TakeFields, TakeShape, take_declared};
use mp4_shown::{
    FLAGS, FieldSink, HasFields, Meaning, NamedShape, NumberName, ShowShape, VERSION, View,
    names_of, number, run,
};
use std::alloc::Global;

/// The structure of a sound in version 1.
#[derive(Clone, Copy, Debug, Default, PartialEq, Eq)]
pub struct ChannelStructure {
    /// The parts of the sound: 1 for channels, 2 for objects, 3 for both. 4 bits.
    pub stream_structure: u8,
    /// The order of channels and objects. 4 bits.
    pub format_ordering: u8,
    /// The number of channels and objects (`baseChannelCount`).
    pub base_channel_count: u8,
}

/// The widths of the fields, in bits.
const WIDTHS: [u8; 3] = [4, 4, 8];

impl EntryLayout<3, 2> for ChannelStructure {
    ghost use Rattle.mp4_extra_sound.specs.contracts.chnl.ChannelStructure.{struct};

    ghost layout = { packed (fields_of WIDTHS) struct.as_values (λ v. struct.make v tt) (λ _. refl) (λ _. refl) refl };

    fn widths() -> [u8; 3] {
        WIDTHS
    }

    fn numbers(&self) -> [u64; 3] {
        numbers_of!(self => stream_structure, format_ordering, base_channel_count)
    }

    fn from_numbers(n: &[u64; 3]) -> ChannelStructure {
        entry_of!(n => ChannelStructure { stream_structure: u8, format_ordering: u8, base_channel_count: u8 })
    }

    ghost few = { lit< tt };
}

/// The channels of a sound (`chnl`, ISO/IEC 14496-12, 12.2.4).
#[derive(Debug, Drop, PartialEq, Eq)]
pub struct Chnl {
    /// 0, or 1 for the layout of later editions.
    pub version: u8,
    /// 24 bits, 0 in the standard.
    pub flags: u32,
    /// The parts of the sound: 1 for channels, 2 for objects, 3 for both. `None` in version 1.
    pub stream_structure: Option<u8>,
    /// The structure of the sound. `None` in version 0.
    pub structure: Option<ChannelStructure>,
    /// The bytes of the layout. If the sound has channels, it begins with the number of a layout of ISO/IEC 23001-8
    /// (`definedLayout`). In version 0 the 64 bits of the channels that are left out follow (`omittedChannelsMap`), or
    /// if the number is 0, the position of each channel: a byte, and if that is 126, an azimuth of 16 bits and an
    /// elevation of 8 bits. If the sound has objects, their number is the last byte (`object_count`).
    pub layout: Entries<u8>,
}

/// The content of the box: version, flags, a number in version 0, two bytes of bits since version 1, and bytes up to
/// its end.
pub type ChnlShape = Full<
    2,
    (
        If<VersionZero, U8>,
        If<FromVersion<1>, Bits<ChannelStructure, 3, 2>>,
        Last<Rest>,
    ),
>;

impl DeclaredBox for Chnl {
    ghost use Rattle.mp4_extra_sound.specs.contracts.chnl.Chnl.{struct};

    type Shape = ChnlShape;

    ghost CODE = { codes.CHNL };

    ghost layout = { layout_of struct (λ _. tt) (λ _. refl) (lit< tt) };

    const CODE: u32 = codes::CHNL;

    fn from_content(found: <ChnlShape as Shape>::Value) -> Chnl {
        box_of!(found => Chnl { version, flags, stream_structure, structure, layout })
    }

    fn visit<Q: ShapeVisitor<Self::Shape>>(&self, out: &mut [u8]) -> Q::Answer {
        let parts =
            parts_of!(self => version, flags, stream_structure, structure, layout.as_slice());
        Q::visit(parts, out)
    }

    ghost valid = { refl };
}

/// The meanings of `stream_structure`.
const STRUCTURES: &[Meaning] = &[(1, "channels"), (2, "objects"), (3, "channels and objects")];

/// The names of the structure in version 1.
const STRUCTURE: &[NumberName] = &[
    number!("stream_structure", Named, STRUCTURES),
    number!("format_ordering"),
    number!("baseChannelCount"),
];

/// The names of the fields.
const NAMES: &<ChnlShape as NamedShape>::Names = &names_of!(
    VERSION,
    FLAGS,
    number!("stream_structure", Named, STRUCTURES),
    STRUCTURE,
    run!("data_bytes", SomeBytes)
);

impl HasFields for Chnl {
    ghost shown = { λ view b. ⟦<ChnlShape as NamedShape>⟧.shown NAMES.now view
        (⟦<Chnl as DeclaredBox>⟧.layout.content b) };

    ghost whole = { λ view b. ⟦<ChnlShape as NamedShape>⟧.whole NAMES.now view
        (⟦<Chnl as DeclaredBox>⟧.layout.content b) };

    fn show<K: FieldSink>(&self, view: View, sink: &mut K) -> mp4_shown::Result<()> {
        let parts =
            parts_of!(self => version, flags, stream_structure, structure, layout.as_slice());
        ChnlShape::show(NAMES, view, &parts, sink)
    }
}

impl TakeFields for Chnl {
    ghost taken = { declared_taken ⟦<Chnl as DeclaredBox>⟧.layout (⟦<ChnlShape as TakeShape>⟧.taken NAMES.now) };

    fn take(alloc: Global, object: &mut Object<'_>) -> taken::Result<Chnl> {
        take_declared::<Chnl, ChnlShape>(alloc, NAMES, object)
    }
}

impl TryClone for Chnl {
    fn try_clone(&self) -> Result<Chnl> {
        let layout = self.layout.try_clone()?;
        Ok(Chnl { layout, ..*self })
    }
}

/// The channel layout box.
pub type ChnlBox = Declared<Chnl>;
