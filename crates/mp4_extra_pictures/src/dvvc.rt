//! The Dolby Vision configuration box of profiles 8 to 10.

ghost use Rattle.mp4_shown.specs.TakenShapes.{declared_taken};
ghost use Rattle.mp4_extra_pictures.specs.declared.dvvc.TheConstants.{NAMES};
ghost use Rattle.mp4_frame.specs.declared.codes.TheConstants as codes;
ghost use Rattle.mp4_declared.specs.OwnBox.{layout_of};
ghost use Rattle.std.proofs.Common.{refl, lit<};

use crate::dvcc::{CONFIG, DolbyVisionConfig};
use mp4_declared::Zeros;
use mp4_declared::declaring::*;
use mp4_frame::{Result, codes};
use mp4_shown::taken::{self, Object, TakeFields, TakeShape, take_declared};
use mp4_shown::{FieldSink, HasFields, NamedShape, ShowShape, View, names_of};
use std::alloc::Global;

/// The configuration of Dolby Vision in profiles 8 to 10 (`dvvC`, Dolby Vision Streams Within the ISO Base
/// Media File Format, "Configuration boxes").
#[derive(Clone, Copy, Debug, Drop, PartialEq, Eq)]
pub struct Dvvc {
    /// The fields of the box.
    pub config: DolbyVisionConfig,
}

/// The content of the box: eight bytes of bits, and 16 reserved bytes.
pub type DvvcShape = (Bits<DolbyVisionConfig, 9, 8>, Zeros<16>);

impl DeclaredBox for Dvvc {
    ghost use Rattle.mp4_extra_pictures.specs.contracts.dvvc.Dvvc.{struct};

    type Shape = DvvcShape;

    ghost CODE = { codes.DVVC };

    ghost layout = { layout_of struct (λ _. tt) (λ _. refl) (lit< tt) };

    const CODE: u32 = codes::DVVC;

    fn from_content(found: <DvvcShape as Shape>::Value) -> Dvvc {
        box_of!(found => Dvvc { config })
    }

    fn visit<Q: ShapeVisitor<Self::Shape>>(&self, out: &mut [u8]) -> Q::Answer {
        let parts = parts_of!(self => config);
        Q::visit(parts, out)
    }

    ghost valid = { refl };
}

/// The names of the fields.
const NAMES: &<DvvcShape as NamedShape>::Names = &names_of!(CONFIG);

impl HasFields for Dvvc {
    ghost shown = { λ view b. ⟦<DvvcShape as NamedShape>⟧.shown NAMES.now view
        (⟦<Dvvc as DeclaredBox>⟧.layout.content b) };

    ghost whole = { λ view b. ⟦<DvvcShape as NamedShape>⟧.whole NAMES.now view
        (⟦<Dvvc as DeclaredBox>⟧.layout.content b) };

    fn show<K: FieldSink>(&self, view: View, sink: &mut K) -> mp4_shown::Result<()> {
        let parts = parts_of!(self => config);
        DvvcShape::show(NAMES, view, &parts, sink)
    }
}

impl TakeFields for Dvvc {
    ghost taken = { declared_taken ⟦<Dvvc as DeclaredBox>⟧.layout (⟦<DvvcShape as TakeShape>⟧.taken NAMES.now) };

    fn take(alloc: Global, object: &mut Object<'_>) -> taken::Result<Dvvc> {
        take_declared::<Dvvc, DvvcShape>(alloc, NAMES, object)
    }
}

impl TryClone for Dvvc {
    fn try_clone(&self) -> Result<Dvvc> {
        Ok(*self)
    }
}

/// The Dolby Vision configuration box of profiles 8 to 10.
pub type DvvcBox = Declared<Dvvc>;
