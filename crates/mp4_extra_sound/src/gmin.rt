//! The base media information box.

ghost use Rattle.mp4_shown.specs.TakenShapes.{declared_taken};
ghost use Rattle.mp4_extra_sound.specs.declared.gmin.TheConstants.{NAMES, WIDTHS};
ghost use Rattle.mp4_frame.specs.declared.codes.TheConstants as codes;
ghost use Rattle.mp4_declared.specs.OwnBox.{layout_of};
ghost use Rattle.mp4_declared.specs.Layout.{packed, fields_of};
ghost use Rattle.std.proofs.Common.{refl, lit<};

use mp4_declared::Zeros;
use mp4_declared::declaring::*;
use mp4_frame::{Result, codes};
use mp4_shown::taken::{self, Object, TakeFields, TakeShape, take_declared};
use mp4_shown::{
    FLAGS, FieldSink, HasFields, NamedShape, NumberName, ShowShape, VERSION, View, names_of, number,
};
use std::alloc::Global;

/// The way in which media are drawn.
#[derive(Clone, Copy, Debug, Default, PartialEq, Eq)]
pub struct GraphicsMode {
    /// The transfer mode: 0 to copy, 0x40 for a dithered copy, and others.
    pub graphics_mode: u16,
    /// The red part of the colour that the mode uses.
    pub opcolor_red: u16,
    /// The green part of the colour that the mode uses.
    pub opcolor_green: u16,
    /// The blue part of the colour that the mode uses.
    pub opcolor_blue: u16,
}

/// The widths of the fields, in bits.
const WIDTHS: [u8; 4] = [16, 16, 16, 16];

impl EntryLayout<4, 8> for GraphicsMode {
    ghost use Rattle.mp4_extra_sound.specs.contracts.gmin.GraphicsMode.{struct};

    ghost layout = { packed (fields_of WIDTHS) struct.as_values (λ v. struct.make v tt) (λ _. refl) (λ _. refl) refl };

    fn widths() -> [u8; 4] {
        WIDTHS
    }

    fn numbers(&self) -> [u64; 4] {
        numbers_of!(self => graphics_mode, opcolor_red, opcolor_green, opcolor_blue)
    }

    fn from_numbers(n: &[u64; 4]) -> GraphicsMode {
        entry_of!(n => GraphicsMode { graphics_mode: u16, opcolor_red: u16, opcolor_green: u16,
            opcolor_blue: u16 })
    }

    ghost few = { lit< tt };
}

/// The media information of tracks other than video and sound (`gmin`, QuickTime File Format, "Base media info atom").
#[derive(Clone, Copy, Debug, Drop, PartialEq, Eq)]
pub struct Gmin {
    /// 0 in the standard.
    pub version: u8,
    /// 24 bits, 0 in the standard.
    pub flags: u32,
    /// The way in which the media are drawn.
    pub graphics: GraphicsMode,
    /// The place of sound, in units of 1/256: 0 for the centre, negative to the left.
    pub balance: i16,
}

/// The content of the box: version, flags, eight bytes of numbers, a signed number, and two reserved bytes.
pub type GminShape = Full<1, (Bits<GraphicsMode, 4, 8>, I16, Zeros<2>)>;

impl DeclaredBox for Gmin {
    ghost use Rattle.mp4_extra_sound.specs.contracts.gmin.Gmin.{struct};

    type Shape = GminShape;

    ghost CODE = { codes.GMIN };

    ghost layout = { layout_of struct (λ _. tt) (λ _. refl) (lit< tt) };

    const CODE: u32 = codes::GMIN;

    fn from_content(found: <GminShape as Shape>::Value) -> Gmin {
        box_of!(found => Gmin { version, flags, graphics, balance })
    }

    fn visit<Q: ShapeVisitor<Self::Shape>>(&self, out: &mut [u8]) -> Q::Answer {
        let parts = parts_of!(self => version, flags, graphics, balance);
        Q::visit(parts, out)
    }

    ghost valid = { refl };
}

/// The names of the way in which media are drawn.
const GRAPHICS: &[NumberName] = &[
    number!("graphicsmode"),
    number!("opcolor_red"),
    number!("opcolor_green"),
    number!("opcolor_blue"),
];

/// The names of the fields.
const NAMES: &<GminShape as NamedShape>::Names = &names_of!(
    VERSION,
    FLAGS,
    GRAPHICS,
    number!("balance", Fixed(8))
);

impl HasFields for Gmin {
    ghost shown = { λ view b. ⟦<GminShape as NamedShape>⟧.shown NAMES.now view
        (⟦<Gmin as DeclaredBox>⟧.layout.content b) };

    ghost whole = { λ view b. ⟦<GminShape as NamedShape>⟧.whole NAMES.now view
        (⟦<Gmin as DeclaredBox>⟧.layout.content b) };

    fn show<K: FieldSink>(&self, view: View, sink: &mut K) -> mp4_shown::Result<()> {
        let parts = parts_of!(self => version, flags, graphics, balance);
        GminShape::show(NAMES, view, &parts, sink)
    }
}

impl TakeFields for Gmin {
    ghost taken = { declared_taken ⟦<Gmin as DeclaredBox>⟧.layout (⟦<GminShape as TakeShape>⟧.taken NAMES.now) };

    fn take(alloc: Global, object: &mut Object<'_>) -> taken::Result<Gmin> {
        take_declared::<Gmin, GminShape>(alloc, NAMES, object)
    }
}

impl TryClone for Gmin {
    fn try_clone(&self) -> Result<Gmin> {
        Ok(*self)
    }
}

/// The base media information box.
pub type GminBox = Declared<Gmin>;
