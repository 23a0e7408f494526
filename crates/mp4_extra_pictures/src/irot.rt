//! The image rotation box.

ghost use Rattle.mp4_shown.specs.TakenShapes.{declared_taken};
ghost use Rattle.mp4_extra_pictures.specs.declared.irot.TheConstants.{NAMES, WIDTHS};
ghost use Rattle.mp4_frame.specs.declared.codes.TheConstants as codes;
ghost use Rattle.mp4_declared.specs.OwnBox.{layout_of};
ghost use Rattle.mp4_declared.specs.Layout.{packed, fields_of};
ghost use Rattle.std.proofs.Common.{refl, lit<};

use mp4_declared::declaring::*;
use mp4_frame::{Result, codes};
use mp4_shown::taken::{self, Object, TakeFields, TakeShape, take_declared};
use mp4_shown::{
    FieldSink, HasFields, Meaning, NamedShape, NumberName, ShowShape, View, names_of, number,
};
use std::alloc::Global;

/// The bits of an `irot`.
#[derive(Clone, Copy, Debug, Default, PartialEq, Eq)]
pub struct ImageRotation {
    /// 0 in the standard. 6 bits.
    pub reserved: u8,
    /// The angle, anticlockwise, in units of 90 degrees. 2 bits.
    pub angle: u8,
}

/// The widths of the fields, in bits.
const WIDTHS: [u8; 2] = [6, 2];

impl EntryLayout<2, 1> for ImageRotation {
    ghost use Rattle.mp4_extra_pictures.specs.contracts.irot.ImageRotation.{struct};

    ghost layout = { packed (fields_of WIDTHS) struct.as_values (λ v. struct.make v tt) (λ _. refl) (λ _. refl) refl };

    fn widths() -> [u8; 2] {
        WIDTHS
    }

    fn numbers(&self) -> [u64; 2] {
        numbers_of!(self => reserved, angle)
    }

    fn from_numbers(n: &[u64; 2]) -> ImageRotation {
        entry_of!(n => ImageRotation { reserved: u8, angle: u8 })
    }

    ghost few = { lit< tt };
}

/// The rotation of an image (`irot`, ISO/IEC 23008-12, 6.5.10).
#[derive(Clone, Copy, Debug, Drop, PartialEq, Eq)]
pub struct Irot {
    /// The bits of the box.
    pub rotation: ImageRotation,
}

/// The content of the box: a byte of bits.
pub type IrotShape = Last<Bits<ImageRotation, 2, 1>>;

impl DeclaredBox for Irot {
    ghost use Rattle.mp4_extra_pictures.specs.contracts.irot.Irot.{struct};

    type Shape = IrotShape;

    ghost CODE = { codes.IROT };

    ghost layout = { layout_of struct (λ _. tt) (λ _. refl) (lit< tt) };

    const CODE: u32 = codes::IROT;

    fn from_content(found: <IrotShape as Shape>::Value) -> Irot {
        box_of!(found => Irot { rotation })
    }

    fn visit<Q: ShapeVisitor<Self::Shape>>(&self, out: &mut [u8]) -> Q::Answer {
        let parts = parts_of!(self => rotation);
        Q::visit(parts, out)
    }

    ghost valid = { refl };
}

/// The meanings of `angle`.
const ANGLES: &[Meaning] = &[
    (0, "none"),
    (1, "90 degrees anticlockwise"),
    (2, "180 degrees"),
    (3, "270 degrees anticlockwise"),
];

/// The names of the bits.
const ROTATION: &[NumberName] = &[
    number!("reserved", Reserved(0)),
    number!("angle", Named, ANGLES),
];

/// The names of the fields.
const NAMES: &<IrotShape as NamedShape>::Names = &names_of!(ROTATION);

impl HasFields for Irot {
    ghost shown = { λ view b. ⟦<IrotShape as NamedShape>⟧.shown NAMES.now view
        (⟦<Irot as DeclaredBox>⟧.layout.content b) };

    ghost whole = { λ view b. ⟦<IrotShape as NamedShape>⟧.whole NAMES.now view
        (⟦<Irot as DeclaredBox>⟧.layout.content b) };

    fn show<K: FieldSink>(&self, view: View, sink: &mut K) -> mp4_shown::Result<()> {
        let parts = parts_of!(self => rotation);
        IrotShape::show(NAMES, view, &parts, sink)
    }
}

impl TakeFields for Irot {
    ghost taken = { declared_taken ⟦<Irot as DeclaredBox>⟧.layout (⟦<IrotShape as TakeShape>⟧.taken NAMES.now) };

    fn take(alloc: Global, object: &mut Object<'_>) -> taken::Result<Irot> {
        take_declared::<Irot, IrotShape>(alloc, NAMES, object)
    }
}

impl TryClone for Irot {
    fn try_clone(&self) -> Result<Irot> {
        Ok(*self)
    }
}

/// The image rotation box.
pub type IrotBox = Declared<Irot>;
