//! The original format box.

ghost use Rattle.mp4_shown.specs.TakenShapes.{declared_taken};
ghost use Rattle.mp4_extra_tracks.specs.declared.frma.TheConstants.{NAMES};
ghost use Rattle.mp4_frame.specs.declared.codes.TheConstants as codes;
ghost use Rattle.std.proofs.Common.{refl, lit<};
ghost use Rattle.mp4_declared.specs.OwnBox.{layout_of};

use mp4_declared::{Code, Declared, DeclaredBox, Last, Shape, ShapeVisitor, box_of, parts_of};
use mp4_frame::{FourCC, Result, TryClone, codes};
use mp4_shown::taken::{self, Object, TakeFields, TakeShape, take_declared};
use mp4_shown::{FieldSink, HasFields, NamedShape, ShowShape, View, names_of};
use std::alloc::Global;

/// The format of media before a transformation such as encryption (`frma`, ISO/IEC 14496-12, 8.12.2).
#[derive(Clone, Copy, Debug, Drop, PartialEq, Eq)]
pub struct Frma {
    /// The code of the sample entry without the transformation, such as `avc1`.
    pub data_format: FourCC,
}

/// The content of the box: a code.
pub type FrmaShape = Last<Code>;

impl DeclaredBox for Frma {
    ghost use Rattle.mp4_extra_tracks.specs.contracts.frma.Frma.{struct};

    type Shape = FrmaShape;

    ghost CODE = { codes.FRMA };

    ghost layout = { layout_of struct (λ _. tt) (λ _. refl) (lit< tt) };

    const CODE: u32 = codes::FRMA;

    fn from_content(found: <FrmaShape as Shape>::Value) -> Frma {
        box_of!(found => Frma { data_format })
    }

    fn visit<Q: ShapeVisitor<Self::Shape>>(&self, out: &mut [u8]) -> Q::Answer {
        Q::visit(parts_of!(self => data_format), out)
    }

    ghost valid = { refl };
}

/// The names of the fields.
const NAMES: &<FrmaShape as NamedShape>::Names = &names_of!("data_format");

impl HasFields for Frma {
    ghost shown = { λ view b. ⟦<FrmaShape as NamedShape>⟧.shown NAMES.now view
        (⟦<Frma as DeclaredBox>⟧.layout.content b) };

    ghost whole = { λ view b. ⟦<FrmaShape as NamedShape>⟧.whole NAMES.now view
        (⟦<Frma as DeclaredBox>⟧.layout.content b) };

    fn show<K: FieldSink>(&self, view: View, sink: &mut K) -> mp4_shown::Result<()> {
        FrmaShape::show(NAMES, view, &parts_of!(self => data_format), sink)
    }
}

impl TakeFields for Frma {
    ghost taken = { declared_taken ⟦<Frma as DeclaredBox>⟧.layout (⟦<FrmaShape as TakeShape>⟧.taken NAMES.now) };

    fn take(alloc: Global, object: &mut Object<'_>) -> taken::Result<Frma> {
        take_declared::<Frma, FrmaShape>(alloc, NAMES, object)
    }
}

impl TryClone for Frma {
    fn try_clone(&self) -> Result<Frma> {
        Ok(*self)
    }
}

/// The original format box.
pub type FrmaBox = Declared<Frma>;
