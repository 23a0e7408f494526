//! The pixel aspect ratio box.

ghost use Rattle.mp4_shown.specs.TakenShapes.{declared_taken};
ghost use Rattle.mp4_extra_pictures.specs.declared.pasp.TheConstants.{NAMES};
ghost use Rattle.mp4_frame.specs.declared.codes.TheConstants as codes;
ghost use Rattle.std.proofs.Common.{refl, lit<};
ghost use Rattle.mp4_declared.specs.OwnBox.{layout_of};

use mp4_declared::{Declared, DeclaredBox, Last, Shape, ShapeVisitor, U32, box_of, parts_of};
use mp4_frame::{Result, TryClone, codes};
use mp4_shown::taken::{self, Object, TakeFields, TakeShape, take_declared};
use mp4_shown::{FieldSink, HasFields, NamedShape, ShowShape, View, names_of, number};
use std::alloc::Global;

/// The aspect ratio of a video's pixels (`pasp`, ISO/IEC 14496-12, 12.1.4): width to height is `h_spacing` to
/// `v_spacing`.
#[derive(Clone, Copy, Debug, Drop, PartialEq, Eq)]
pub struct Pasp {
    /// The relative width of a pixel (`hSpacing`).
    pub h_spacing: u32,
    /// The relative height of a pixel (`vSpacing`).
    pub v_spacing: u32,
}

/// The content of the box: two numbers.
pub type PaspShape = (U32, Last<U32>);

impl DeclaredBox for Pasp {
    ghost use Rattle.mp4_extra_pictures.specs.contracts.pasp.Pasp.{struct};

    type Shape = PaspShape;

    ghost CODE = { codes.PASP };

    ghost layout = { layout_of struct (λ _. tt) (λ _. refl) (lit< tt) };

    const CODE: u32 = codes::PASP;

    fn from_content(found: <PaspShape as Shape>::Value) -> Pasp {
        box_of!(found => Pasp { h_spacing, v_spacing })
    }

    fn visit<Q: ShapeVisitor<Self::Shape>>(&self, out: &mut [u8]) -> Q::Answer {
        Q::visit(parts_of!(self => h_spacing, v_spacing), out)
    }

    ghost valid = { refl };
}

/// The names of the fields.
const NAMES: &<PaspShape as NamedShape>::Names = &names_of!(
    number!("hSpacing"),
    number!("vSpacing")
);

impl HasFields for Pasp {
    ghost shown = { λ view b. ⟦<PaspShape as NamedShape>⟧.shown NAMES.now view
        (⟦<Pasp as DeclaredBox>⟧.layout.content b) };

    ghost whole = { λ view b. ⟦<PaspShape as NamedShape>⟧.whole NAMES.now view
        (⟦<Pasp as DeclaredBox>⟧.layout.content b) };

    fn show<K: FieldSink>(&self, view: View, sink: &mut K) -> mp4_shown::Result<()> {
        PaspShape::show(NAMES, view, &parts_of!(self => h_spacing, v_spacing), sink)
    }
}

impl TakeFields for Pasp {
    ghost taken = { declared_taken ⟦<Pasp as DeclaredBox>⟧.layout (⟦<PaspShape as TakeShape>⟧.taken NAMES.now) };

    fn take(alloc: Global, object: &mut Object<'_>) -> taken::Result<Pasp> {
        take_declared::<Pasp, PaspShape>(alloc, NAMES, object)
    }
}

impl TryClone for Pasp {
    fn try_clone(&self) -> Result<Pasp> {
        Ok(*self)
    }
}

/// The pixel aspect ratio box.
pub type PaspBox = Declared<Pasp>;
