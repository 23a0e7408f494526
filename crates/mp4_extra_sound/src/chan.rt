//! The audio channel layout box.

ghost use Rattle.mp4_shown.specs.TakenShapes.{declared_taken};
ghost use Rattle.mp4_extra_sound.specs.ShownChannels.{shown_by, whole_by};
ghost use Rattle.mp4_extra_sound.specs.declared.chan.TheConstants.{NAMES, WIDTHS};
ghost use Rattle.mp4_frame.specs.declared.codes.TheConstants as codes;
ghost use Rattle.mp4_declared.specs.OwnBox.{layout_of};
ghost use Rattle.mp4_declared.specs.Layout.{packed, fields_of};
ghost use Rattle.mp4_shown.specs.Hands.{Hands};
ghost use Rattle.std.proofs.Common.{refl, lit<};
ghost use Rattle.std.specs.Prelude.{OnOk};

use mp4_declared::declaring::*;
use mp4_frame::{Result, codes};
use mp4_shown::taken::{self, Object, TakeFields, TakeShape, take_declared};
use mp4_shown::{
    FLAGS, FieldSink, HasFields, Meaning, NamedShape, NumberName, ShowShape, VERSION, View, list,
    names_of, number,
};
use std::alloc::Global;

/// A channel of a sound.
#[derive(Clone, Copy, Debug, Default, PartialEq, Eq)]
pub struct ChannelDescription {
    /// The place or the role of the channel, such as 1 for left and 2 for right (`mChannelLabel`).
    pub channel_label: u32,
    /// The meaning of the coordinates (`mChannelFlags`): flag 1 for rectangular and flag 2 for spherical ones, and flag
    /// 4 for metres. 0 if the coordinates are unused.
    pub channel_flags: u32,
    /// The first coordinate, as the bits of a 32-bit float (`mCoordinates`): left and right, or the azimuth.
    pub coordinates_0: u32,
    /// The second coordinate, as the bits of a 32-bit float: back and front, or the elevation.
    pub coordinates_1: u32,
    /// The third coordinate, as the bits of a 32-bit float: down and up, or the distance.
    pub coordinates_2: u32,
}

/// The widths of the fields, in bits.
const WIDTHS: [u8; 5] = [32, 32, 32, 32, 32];

impl EntryLayout<5, 20> for ChannelDescription {
    ghost use Rattle.mp4_extra_sound.specs.contracts.chan.ChannelDescription.{struct};

    ghost layout = { packed (fields_of WIDTHS) struct.as_values (λ v. struct.make v tt) (λ _. refl) (λ _. refl) refl };

    fn widths() -> [u8; 5] {
        WIDTHS
    }

    fn numbers(&self) -> [u64; 5] {
        numbers_of!(self => channel_label, channel_flags, coordinates_0, coordinates_1, coordinates_2)
    }

    fn from_numbers(n: &[u64; 5]) -> ChannelDescription {
        entry_of!(n => ChannelDescription { channel_label: u32, channel_flags: u32, coordinates_0: u32,
            coordinates_1: u32, coordinates_2: u32 })
    }

    ghost few = { lit< tt };
}

/// The channels of a sound (`chan`, QuickTime File Format, "Audio channel layout atom").
#[derive(Debug, Drop, PartialEq, Eq)]
pub struct Chan {
    /// 0 in the standard.
    pub version: u8,
    /// 24 bits, 0 in the standard.
    pub flags: u32,
    /// The layout (`mChannelLayoutTag`): a number of 16 bits, and the number of channels in 16 bits. 0 for a layout by
    /// `channel_descriptions`, and 0x10000 for one by `channel_bitmap`.
    pub channel_layout_tag: u32,
    /// The channels that are present, a flag for each (`mChannelBitmap`). 0 unless the layout is by these flags.
    pub channel_bitmap: u32,
    /// The channels, in their order. The standard has none unless the layout is by descriptions.
    pub channel_descriptions: Entries<ChannelDescription>,
}

/// The content of the box: version, flags, two numbers, a count of 32 bits, and that many channels.
pub type ChanShape = Full<1, (U32, U32, Last<List<U32, ChannelDescription, 5, 20>>)>;

impl DeclaredBox for Chan {
    ghost use Rattle.mp4_extra_sound.specs.contracts.chan.Chan.{struct};

    type Shape = ChanShape;

    ghost CODE = { codes.CHAN };

    ghost layout = { layout_of struct (λ _. tt) (λ _. refl) (lit< tt) };

    const CODE: u32 = codes::CHAN;

    fn from_content(found: <ChanShape as Shape>::Value) -> Chan {
        box_of!(found => Chan { version, flags, channel_layout_tag, channel_bitmap,
            channel_descriptions })
    }

    fn visit<Q: ShapeVisitor<Self::Shape>>(&self, out: &mut [u8]) -> Q::Answer {
        let parts = parts_of!(self => version, flags, channel_layout_tag, channel_bitmap,
            channel_descriptions.as_slice());
        Q::visit(parts, out)
    }

    ghost valid = { refl };
}

/// The meanings of `mChannelLayoutTag`. Letters are those of Core Audio: L, R and C are left, right and centre, Ls, Rs
/// and Cs the surround channels, Lc, Rc, Rls and Rrs those beside the centre and at the back.
const LAYOUTS: &[Meaning] = &[
    (0x0, "channel descriptions"),
    (0x1_0000, "channel bitmap"),
    (0x64_0001, "mono"),
    (0x65_0002, "stereo"),
    (0x66_0002, "stereo headphones"),
    (0x67_0002, "matrix stereo"),
    (0x68_0002, "mid-side"),
    (0x69_0002, "XY"),
    (0x6a_0002, "binaural"),
    (0x6b_0004, "Ambisonic B-format"),
    (0x6c_0004, "quadraphonic"),
    (0x71_0003, "L R C"),
    (0x72_0003, "C L R"),
    (0x73_0004, "L R C Cs"),
    (0x74_0004, "C L R Cs"),
    (0x75_0005, "L R C Ls Rs"),
    (0x76_0005, "L R Ls Rs C"),
    (0x77_0005, "L C R Ls Rs"),
    (0x78_0005, "C L R Ls Rs"),
    (0x79_0006, "L R C LFE Ls Rs"),
    (0x7a_0006, "L R Ls Rs C LFE"),
    (0x7b_0006, "L C R Ls Rs LFE"),
    (0x7c_0006, "C L R Ls Rs LFE"),
    (0x7d_0007, "L R C LFE Ls Rs Cs"),
    (0x7e_0008, "L R C LFE Ls Rs Lc Rc"),
    (0x7f_0008, "C Lc Rc L R Ls Rs LFE"),
    (0x80_0008, "L R C LFE Ls Rs Rls Rrs"),
];

/// The meanings of the flags of `mChannelBitmap`.
const CHANNELS: &[Meaning] = &[
    (0x1, "left"),
    (0x2, "right"),
    (0x4, "centre"),
    (0x8, "LFE"),
    (0x10, "left surround"),
    (0x20, "right surround"),
    (0x40, "left centre"),
    (0x80, "right centre"),
    (0x100, "centre surround"),
    (0x200, "left surround direct"),
    (0x400, "right surround direct"),
    (0x800, "top centre surround"),
    (0x1000, "vertical height left"),
    (0x2000, "vertical height centre"),
    (0x4000, "vertical height right"),
    (0x8000, "top back left"),
    (0x1_0000, "top back centre"),
    (0x2_0000, "top back right"),
];

/// The meanings of `mChannelLabel`.
const LABELS: &[Meaning] = &[
    (0, "unused"),
    (1, "left"),
    (2, "right"),
    (3, "centre"),
    (4, "LFE"),
    (5, "left surround"),
    (6, "right surround"),
    (7, "left centre"),
    (8, "right centre"),
    (9, "centre surround"),
    (10, "left surround direct"),
    (11, "right surround direct"),
    (12, "top centre surround"),
    (13, "vertical height left"),
    (14, "vertical height centre"),
    (15, "vertical height right"),
    (16, "top back left"),
    (17, "top back centre"),
    (18, "top back right"),
    (33, "rear surround left"),
    (34, "rear surround right"),
    (42, "mono"),
    (100, "by coordinates"),
    (0xFFFF_FFFF, "unknown"),
];

/// The meanings of the flags of `mChannelFlags`.
const COORDINATES: &[Meaning] = &[(0x1, "rectangular"), (0x2, "spherical"), (0x4, "metres")];

/// The names of the fields of a channel.
const CHANNEL: &[NumberName] = &[
    number!("mChannelLabel", Named, LABELS),
    number!("mChannelFlags", Flags(8), COORDINATES),
    number!("mCoordinates_0", Hex(4)),
    number!("mCoordinates_1", Hex(4)),
    number!("mCoordinates_2", Hex(4)),
];

/// The names of the fields.
const NAMES: &<ChanShape as NamedShape>::Names = &names_of!(
    VERSION,
    FLAGS,
    number!("mChannelLayoutTag", Named, LAYOUTS),
    number!("mChannelBitmap", Flags(8), CHANNELS),
    (
        list!(
            "mChannelDescriptions",
            Counted,
            "mNumberChannelDescriptions"
        ),
        CHANNEL
    )
);

/// The type of the names.
type ChanNames = <ChanShape as NamedShape>::Names;

/// Hands the fields of a box to a sink, under these names. They are a parameter, since the prover would compute with
/// the names of all layouts and channels.
#[tactic(auto, unfolding(crate::specs::ShownChannels::shown_by))]
fn show_by<K: FieldSink>(
    names: &ChanNames,
    view: View,
    chan: &Chan,
    sink: &mut K,
) -> mp4_shown::Result<()>
    ensures { OnOk result (Hands K.trace K.after sink.old (shown_by ⟦<ChanShape as NamedShape>⟧.shown
        (⟦<ChanShape as NamedShape>⟧.seen names.now) view (⟦<Chan as DeclaredBox>⟧.layout.content chan.now))
        sink.new) }
{
    let parts = parts_of!(chan => version, flags, channel_layout_tag, channel_bitmap,
        channel_descriptions.as_slice());
    ChanShape::show(names, view, &parts, sink)
}

impl HasFields for Chan {
    ghost shown = { λ view b. shown_by ⟦<ChanShape as NamedShape>⟧.shown NAMES.now view
        (⟦<Chan as DeclaredBox>⟧.layout.content b) };

    ghost whole = { λ view b. whole_by ⟦<ChanShape as NamedShape>⟧.shown ⟦<ChanShape as NamedShape>⟧.whole NAMES.now
        view (⟦<Chan as DeclaredBox>⟧.layout.content b) };

    fn show<K: FieldSink>(&self, view: View, sink: &mut K) -> mp4_shown::Result<()> {
        show_by(NAMES, view, self, sink)
    }
}

impl TakeFields for Chan {
    ghost taken = { declared_taken ⟦<Chan as DeclaredBox>⟧.layout (⟦<ChanShape as TakeShape>⟧.taken NAMES.now) };

    fn take(alloc: Global, object: &mut Object<'_>) -> taken::Result<Chan> {
        take_declared::<Chan, ChanShape>(alloc, NAMES, object)
    }
}

impl TryClone for Chan {
    fn try_clone(&self) -> Result<Chan> {
        let channel_descriptions = self.channel_descriptions.try_clone()?;
        Ok(Chan {
            channel_descriptions,
            ..*self
        })
    }
}

/// The audio channel layout box.
pub type ChanBox = Declared<Chan>;
