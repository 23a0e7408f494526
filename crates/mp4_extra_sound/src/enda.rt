//! The endian box.

ghost use Rattle.mp4_shown.specs.TakenShapes.{declared_taken};
ghost use Rattle.mp4_extra_sound.specs.declared.enda.TheConstants.{NAMES};
ghost use Rattle.mp4_frame.specs.declared.codes.TheConstants as codes;
ghost use Rattle.mp4_declared.specs.OwnBox.{layout_of};
ghost use Rattle.std.proofs.Common.{refl, lit<};

use mp4_declared::declaring::*;
use mp4_frame::{Result, codes};
use mp4_shown::taken::{self, Object, TakeFields, TakeShape, take_declared};
use mp4_shown::{FieldSink, HasFields, Meaning, NamedShape, ShowShape, View, names_of, number};
use std::alloc::Global;

/// The order of the bytes of a sound's samples (`enda`, QuickTime File Format, "Endian atom").
#[derive(Clone, Copy, Debug, Drop, PartialEq, Eq)]
pub struct Enda {
    /// 1 if samples are little-endian, 0 if they are big-endian (`littleEndian`).
    pub little_endian: u16,
}

/// The content of the box: a number.
pub type EndaShape = Last<U16>;

impl DeclaredBox for Enda {
    ghost use Rattle.mp4_extra_sound.specs.contracts.enda.Enda.{struct};

    type Shape = EndaShape;

    ghost CODE = { codes.ENDA };

    ghost layout = { layout_of struct (λ _. tt) (λ _. refl) (lit< tt) };

    const CODE: u32 = codes::ENDA;

    fn from_content(found: <EndaShape as Shape>::Value) -> Enda {
        box_of!(found => Enda { little_endian })
    }

    fn visit<Q: ShapeVisitor<Self::Shape>>(&self, out: &mut [u8]) -> Q::Answer {
        let parts = parts_of!(self => little_endian);
        Q::visit(parts, out)
    }

    ghost valid = { refl };
}

/// The meanings of `littleEndian`.
const ENDIANNESS: &[Meaning] = &[(0, "big-endian"), (1, "little-endian")];

/// The names of the fields.
const NAMES: &<EndaShape as NamedShape>::Names = &names_of!(number!(
    "littleEndian",
    Named,
    ENDIANNESS
));

impl HasFields for Enda {
    ghost shown = { λ view b. ⟦<EndaShape as NamedShape>⟧.shown NAMES.now view
        (⟦<Enda as DeclaredBox>⟧.layout.content b) };

    ghost whole = { λ view b. ⟦<EndaShape as NamedShape>⟧.whole NAMES.now view
        (⟦<Enda as DeclaredBox>⟧.layout.content b) };

    fn show<K: FieldSink>(&self, view: View, sink: &mut K) -> mp4_shown::Result<()> {
        let parts = parts_of!(self => little_endian);
        EndaShape::show(NAMES, view, &parts, sink)
    }
}

impl TakeFields for Enda {
    ghost taken = { declared_taken ⟦<Enda as DeclaredBox>⟧.layout (⟦<EndaShape as TakeShape>⟧.taken NAMES.now) };

    fn take(alloc: Global, object: &mut Object<'_>) -> taken::Result<Enda> {
        take_declared::<Enda, EndaShape>(alloc, NAMES, object)
    }
}

impl TryClone for Enda {
    fn try_clone(&self) -> Result<Enda> {
        Ok(*self)
    }
}

/// The endian box.
pub type EndaBox = Declared<Enda>;
