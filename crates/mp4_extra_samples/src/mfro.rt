//! The movie fragment random access offset box.

ghost use Rattle.mp4_shown.specs.TakenShapes.{declared_taken};
ghost use Rattle.mp4_extra_samples.specs.declared.mfro.TheConstants.{NAMES};
ghost use Rattle.mp4_frame.specs.declared.codes.TheConstants as codes;
ghost use Rattle.std.proofs.Common.{refl, lit<};
ghost use Rattle.mp4_declared.specs.OwnBox.{layout_of};

use mp4_declared::{Declared, DeclaredBox, Full, Last, Shape, ShapeVisitor, U32, box_of, parts_of};
use mp4_frame::{Result, TryClone, codes};
use mp4_shown::taken::{self, Object, TakeFields, TakeShape, take_declared};
use mp4_shown::{
    FLAGS, FieldSink, HasFields, NamedShape, ShowShape, VERSION, View, names_of, number,
};
use std::alloc::Global;

/// The size of the enclosing `mfra` (`mfro`, ISO/IEC 14496-12, 8.8.11). The box is the last of the `mfra`, which is the
/// last of the file, so that a reader finds the `mfra` from the end of the file.
#[derive(Clone, Copy, Debug, Drop, PartialEq, Eq)]
pub struct Mfro {
    /// 0 in the standard.
    pub version: u8,
    /// 24 bits, 0 in the standard.
    pub flags: u32,
    /// The number of bytes of the enclosing `mfra` (`parent_size`, in older editions `size`).
    pub parent_size: u32,
}

/// The content of the box: version, flags and a number.
pub type MfroShape = Full<1, Last<U32>>;

impl DeclaredBox for Mfro {
    ghost use Rattle.mp4_extra_samples.specs.contracts.mfro.Mfro.{struct};

    type Shape = MfroShape;

    ghost CODE = { codes.MFRO };

    ghost layout = { layout_of struct (λ _. tt) (λ _. refl) (lit< tt) };

    const CODE: u32 = codes::MFRO;

    fn from_content(found: <MfroShape as Shape>::Value) -> Mfro {
        box_of!(found => Mfro { version, flags, parent_size })
    }

    fn visit<Q: ShapeVisitor<Self::Shape>>(&self, out: &mut [u8]) -> Q::Answer {
        Q::visit(parts_of!(self => version, flags, parent_size), out)
    }

    ghost valid = { refl };
}

/// The names of the fields.
const NAMES: &<MfroShape as NamedShape>::Names = &names_of!(VERSION, FLAGS, number!("parent_size"));

impl HasFields for Mfro {
    ghost shown = { λ view b. ⟦<MfroShape as NamedShape>⟧.shown NAMES.now view
        (⟦<Mfro as DeclaredBox>⟧.layout.content b) };

    ghost whole = { λ view b. ⟦<MfroShape as NamedShape>⟧.whole NAMES.now view
        (⟦<Mfro as DeclaredBox>⟧.layout.content b) };

    fn show<K: FieldSink>(&self, view: View, sink: &mut K) -> mp4_shown::Result<()> {
        let parts = parts_of!(self => version, flags, parent_size);
        MfroShape::show(NAMES, view, &parts, sink)
    }
}

impl TakeFields for Mfro {
    ghost taken = { declared_taken ⟦<Mfro as DeclaredBox>⟧.layout (⟦<MfroShape as TakeShape>⟧.taken NAMES.now) };

    fn take(alloc: Global, object: &mut Object<'_>) -> taken::Result<Mfro> {
        take_declared::<Mfro, MfroShape>(alloc, NAMES, object)
    }
}

impl TryClone for Mfro {
    fn try_clone(&self) -> Result<Mfro> {
        Ok(*self)
    }
}

/// The movie fragment random access offset box.
pub type MfroBox = Declared<Mfro>;
