//! The subtitle media header box.

ghost use Rattle.mp4_shown.specs.TakenShapes.{declared_taken};
ghost use Rattle.mp4_extra_sound.specs.declared.sthd.TheConstants.{NAMES};
ghost use Rattle.mp4_frame.specs.declared.codes.TheConstants as codes;
ghost use Rattle.std.proofs.Common.{refl, lit<};
ghost use Rattle.mp4_declared.specs.OwnBox.{layout_of};

use mp4_declared::{Declared, DeclaredBox, Full, Shape, ShapeVisitor, Zeros, box_of, parts_of};
use mp4_frame::{Result, TryClone, codes};
use mp4_shown::taken::{self, Object, TakeFields, TakeShape, take_declared};
use mp4_shown::{FLAGS, FieldSink, HasFields, NamedShape, ShowShape, VERSION, View, names_of};
use std::alloc::Global;

/// The media header of subtitles (`sthd`, ISO/IEC 14496-12, 12.6.2).
#[derive(Clone, Copy, Debug, Drop, PartialEq, Eq)]
pub struct Sthd {
    /// 0 in the standard.
    pub version: u8,
    /// 24 bits, 0 in the standard.
    pub flags: u32,
}

/// The content of the box: version and flags.
pub type SthdShape = Full<1, Zeros<0>>;

impl DeclaredBox for Sthd {
    ghost use Rattle.mp4_extra_sound.specs.contracts.sthd.Sthd.{struct};

    type Shape = SthdShape;

    ghost CODE = { codes.STHD };

    ghost layout = { layout_of struct (λ _. tt) (λ _. refl) (lit< tt) };

    const CODE: u32 = codes::STHD;

    fn from_content(found: <SthdShape as Shape>::Value) -> Sthd {
        box_of!(found => Sthd { version, flags })
    }

    fn visit<Q: ShapeVisitor<Self::Shape>>(&self, out: &mut [u8]) -> Q::Answer {
        Q::visit(parts_of!(self => version, flags), out)
    }

    ghost valid = { refl };
}

/// The names of the fields.
const NAMES: &<SthdShape as NamedShape>::Names = &names_of!(VERSION, FLAGS);

impl HasFields for Sthd {
    ghost shown = { λ view b. ⟦<SthdShape as NamedShape>⟧.shown NAMES.now view
        (⟦<Sthd as DeclaredBox>⟧.layout.content b) };

    ghost whole = { λ view b. ⟦<SthdShape as NamedShape>⟧.whole NAMES.now view
        (⟦<Sthd as DeclaredBox>⟧.layout.content b) };

    fn show<K: FieldSink>(&self, view: View, sink: &mut K) -> mp4_shown::Result<()> {
        SthdShape::show(NAMES, view, &parts_of!(self => version, flags), sink)
    }
}

impl TakeFields for Sthd {
    ghost taken = { declared_taken ⟦<Sthd as DeclaredBox>⟧.layout (⟦<SthdShape as TakeShape>⟧.taken NAMES.now) };

    fn take(alloc: Global, object: &mut Object<'_>) -> taken::Result<Sthd> {
        take_declared::<Sthd, SthdShape>(alloc, NAMES, object)
    }
}

impl TryClone for Sthd {
    fn try_clone(&self) -> Result<Sthd> {
        Ok(*self)
    }
}

/// The subtitle media header box.
pub type SthdBox = Declared<Sthd>;
