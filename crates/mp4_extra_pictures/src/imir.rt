//! The image mirror box.

ghost use Rattle.mp4_shown.specs.TakenShapes.{declared_taken};
ghost use Rattle.mp4_extra_pictures.specs.declared.imir.TheConstants.{NAMES, WIDTHS};
ghost use Rattle.mp4_frame.specs.declared.codes.TheConstants as codes;
ghost use Rattle.mp4_declared.specs.OwnBox.{layout_of};
ghost use Rattle.mp4_declared.specs.Layout.{packed, fields_of};
ghost use Rattle.std.proofs.Common.{refl, lit<};

use mp4_declared::declaring::*;
use mp4_frame::{Result, codes};
use mp4_shown::taken::{self, Object, TakeFields, TakeShape, take_declared};
use mp4_shown::{FieldSink, HasFields, NamedShape, NumberName, ShowShape, View, names_of, number};
use std::alloc::Global;

/// The bits of an `imir`.
#[derive(Clone, Copy, Debug, Default, PartialEq, Eq)]
pub struct ImageMirror {
    /// 0 in the standard. 7 bits.
    pub reserved: u8,
    /// The axis at which the image is mirrored: false for a vertical and true for a horizontal one.
    pub axis: bool,
}

/// The widths of the fields, in bits. A field of one bit is a flag.
const WIDTHS: [u8; 2] = [7, 1];

impl EntryLayout<2, 1> for ImageMirror {
    ghost use Rattle.mp4_extra_pictures.specs.contracts.imir.ImageMirror.{struct};

    ghost layout = { packed (fields_of WIDTHS) struct.as_values (λ v. struct.make v tt) (λ _. refl) (λ _. refl) refl };

    fn widths() -> [u8; 2] {
        WIDTHS
    }

    fn numbers(&self) -> [u64; 2] {
        numbers_of!(self => reserved, axis)
    }

    fn from_numbers(n: &[u64; 2]) -> ImageMirror {
        entry_of!(n => ImageMirror { reserved: u8, axis: bool })
    }

    ghost few = { lit< tt };
}

/// The mirroring of an image (`imir`, ISO/IEC 23008-12, 6.5.12).
#[derive(Clone, Copy, Debug, Drop, PartialEq, Eq)]
pub struct Imir {
    /// The bits of the box.
    pub mirror: ImageMirror,
}

/// The content of the box: a byte of bits.
pub type ImirShape = Last<Bits<ImageMirror, 2, 1>>;

impl DeclaredBox for Imir {
    ghost use Rattle.mp4_extra_pictures.specs.contracts.imir.Imir.{struct};

    type Shape = ImirShape;

    ghost CODE = { codes.IMIR };

    ghost layout = { layout_of struct (λ _. tt) (λ _. refl) (lit< tt) };

    const CODE: u32 = codes::IMIR;

    fn from_content(found: <ImirShape as Shape>::Value) -> Imir {
        box_of!(found => Imir { mirror })
    }

    fn visit<Q: ShapeVisitor<Self::Shape>>(&self, out: &mut [u8]) -> Q::Answer {
        let parts = parts_of!(self => mirror);
        Q::visit(parts, out)
    }

    ghost valid = { refl };
}

/// The names of the bits.
const MIRROR: &[NumberName] = &[number!("reserved", Reserved(0)), number!("axis")];

/// The names of the fields.
const NAMES: &<ImirShape as NamedShape>::Names = &names_of!(MIRROR);

impl HasFields for Imir {
    ghost shown = { λ view b. ⟦<ImirShape as NamedShape>⟧.shown NAMES.now view
        (⟦<Imir as DeclaredBox>⟧.layout.content b) };

    ghost whole = { λ view b. ⟦<ImirShape as NamedShape>⟧.whole NAMES.now view
        (⟦<Imir as DeclaredBox>⟧.layout.content b) };

    fn show<K: FieldSink>(&self, view: View, sink: &mut K) -> mp4_shown::Result<()> {
        let parts = parts_of!(self => mirror);
        ImirShape::show(NAMES, view, &parts, sink)
    }
}

impl TakeFields for Imir {
    ghost taken = { declared_taken ⟦<Imir as DeclaredBox>⟧.layout (⟦<ImirShape as TakeShape>⟧.taken NAMES.now) };

    fn take(alloc: Global, object: &mut Object<'_>) -> taken::Result<Imir> {
        take_declared::<Imir, ImirShape>(alloc, NAMES, object)
    }
}

impl TryClone for Imir {
    fn try_clone(&self) -> Result<Imir> {
        Ok(*self)
    }
}

/// The image mirror box.
pub type ImirBox = Declared<Imir>;
