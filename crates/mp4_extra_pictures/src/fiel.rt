//! The field handling box.

ghost use Rattle.mp4_shown.specs.TakenShapes.{declared_taken};
ghost use Rattle.mp4_extra_pictures.specs.declared.fiel.TheConstants.{NAMES};
ghost use Rattle.mp4_frame.specs.declared.codes.TheConstants as codes;
ghost use Rattle.mp4_declared.specs.OwnBox.{layout_of};
ghost use Rattle.std.proofs.Common.{refl, lit<};

use mp4_declared::declaring::*;
use mp4_frame::{Result, codes};
use mp4_shown::taken::{self, Object, TakeFields, TakeShape, take_declared};
use mp4_shown::{FieldSink, HasFields, Meaning, NamedShape, ShowShape, View, names_of, number};
use std::alloc::Global;

/// The fields of a video (`fiel`, QuickTime File Format, "Video sample description extensions").
#[derive(Clone, Copy, Debug, Drop, PartialEq, Eq)]
pub struct Fiel {
    /// The number of fields of a picture: 1 for progressive video, 2 for interlaced video.
    pub fields: u8,
    /// The order of two fields: 1 if the top field is first, 6 if the bottom field is. In order 9 the bottom field is
    /// shown first and the top field is stored first, and in order 14 it is the other way round. 0 if there is one
    /// field, or the order is unknown.
    pub detail: u8,
}

/// The content of the box: two numbers.
pub type FielShape = (U8, Last<U8>);

impl DeclaredBox for Fiel {
    ghost use Rattle.mp4_extra_pictures.specs.contracts.fiel.Fiel.{struct};

    type Shape = FielShape;

    ghost CODE = { codes.FIEL };

    ghost layout = { layout_of struct (λ _. tt) (λ _. refl) (lit< tt) };

    const CODE: u32 = codes::FIEL;

    fn from_content(found: <FielShape as Shape>::Value) -> Fiel {
        box_of!(found => Fiel { fields, detail })
    }

    fn visit<Q: ShapeVisitor<Self::Shape>>(&self, out: &mut [u8]) -> Q::Answer {
        let parts = parts_of!(self => fields, detail);
        Q::visit(parts, out)
    }

    ghost valid = { refl };
}

/// The meanings of `fields`.
const FIELDS: &[Meaning] = &[(1, "progressive"), (2, "interlaced")];

/// The meanings of `detail`.
const ORDERS: &[Meaning] = &[
    (1, "top field first"),
    (6, "bottom field first"),
    (9, "bottom field shown first, top field stored first"),
    (14, "top field shown first, bottom field stored first"),
];

/// The names of the fields.
const NAMES: &<FielShape as NamedShape>::Names = &names_of!(
    number!("fields", Named, FIELDS),
    number!("detail", Named, ORDERS)
);

impl HasFields for Fiel {
    ghost shown = { λ view b. ⟦<FielShape as NamedShape>⟧.shown NAMES.now view
        (⟦<Fiel as DeclaredBox>⟧.layout.content b) };

    ghost whole = { λ view b. ⟦<FielShape as NamedShape>⟧.whole NAMES.now view
        (⟦<Fiel as DeclaredBox>⟧.layout.content b) };

    fn show<K: FieldSink>(&self, view: View, sink: &mut K) -> mp4_shown::Result<()> {
        let parts = parts_of!(self => fields, detail);
        FielShape::show(NAMES, view, &parts, sink)
    }
}

impl TakeFields for Fiel {
    ghost taken = { declared_taken ⟦<Fiel as DeclaredBox>⟧.layout (⟦<FielShape as TakeShape>⟧.taken NAMES.now) };

    fn take(alloc: Global, object: &mut Object<'_>) -> taken::Result<Fiel> {
        take_declared::<Fiel, FielShape>(alloc, NAMES, object)
    }
}

impl TryClone for Fiel {
    fn try_clone(&self) -> Result<Fiel> {
        Ok(*self)
    }
}

/// The field handling box.
pub type FielBox = Declared<Fiel>;
