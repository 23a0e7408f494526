//! The null media header box.

ghost use Rattle.mp4_shown.specs.TakenShapes.{declared_taken};
ghost use Rattle.mp4_extra_sound.specs.declared.nmhd.TheConstants.{NAMES};
ghost use Rattle.mp4_frame.specs.declared.codes.TheConstants as codes;
ghost use Rattle.std.proofs.Common.{refl, lit<};
ghost use Rattle.mp4_declared.specs.OwnBox.{layout_of};

use mp4_declared::{Declared, DeclaredBox, Full, Shape, ShapeVisitor, Zeros, box_of, parts_of};
use mp4_frame::{Result, TryClone, codes};
use mp4_shown::taken::{self, Object, TakeFields, TakeShape, take_declared};
use mp4_shown::{FLAGS, FieldSink, HasFields, NamedShape, ShowShape, VERSION, View, names_of};
use std::alloc::Global;

/// The media header of tracks whose type of media defines no other (`nmhd`, ISO/IEC 14496-12, 8.4.5.2).
#[derive(Clone, Copy, Debug, Drop, PartialEq, Eq)]
pub struct Nmhd {
    /// 0 in the standard.
    pub version: u8,
    /// 24 bits, 0 in the standard.
    pub flags: u32,
}

/// The content of the box: version and flags.
pub type NmhdShape = Full<1, Zeros<0>>;

impl DeclaredBox for Nmhd {
    ghost use Rattle.mp4_extra_sound.specs.contracts.nmhd.Nmhd.{struct};

    type Shape = NmhdShape;

    ghost CODE = { codes.NMHD };

    ghost layout = { layout_of struct (λ _. tt) (λ _. refl) (lit< tt) };

    const CODE: u32 = codes::NMHD;

    fn from_content(found: <NmhdShape as Shape>::Value) -> Nmhd {
        box_of!(found => Nmhd { version, flags })
    }

    fn visit<Q: ShapeVisitor<Self::Shape>>(&self, out: &mut [u8]) -> Q::Answer {
        Q::visit(parts_of!(self => version, flags), out)
    }

    ghost valid = { refl };
}

/// The names of the fields.
const NAMES: &<NmhdShape as NamedShape>::Names = &names_of!(VERSION, FLAGS);

impl HasFields for Nmhd {
    ghost shown = { λ view b. ⟦<NmhdShape as NamedShape>⟧.shown NAMES.now view
        (⟦<Nmhd as DeclaredBox>⟧.layout.content b) };

    ghost whole = { λ view b. ⟦<NmhdShape as NamedShape>⟧.whole NAMES.now view
        (⟦<Nmhd as DeclaredBox>⟧.layout.content b) };

    fn show<K: FieldSink>(&self, view: View, sink: &mut K) -> mp4_shown::Result<()> {
        NmhdShape::show(NAMES, view, &parts_of!(self => version, flags), sink)
    }
}

impl TakeFields for Nmhd {
    ghost taken = { declared_taken ⟦<Nmhd as DeclaredBox>⟧.layout (⟦<NmhdShape as TakeShape>⟧.taken NAMES.now) };

    fn take(alloc: Global, object: &mut Object<'_>) -> taken::Result<Nmhd> {
        take_declared::<Nmhd, NmhdShape>(alloc, NAMES, object)
    }
}

impl TryClone for Nmhd {
    fn try_clone(&self) -> Result<Nmhd> {
        Ok(*self)
    }
}

/// The null media header box.
pub type NmhdBox = Declared<Nmhd>;
