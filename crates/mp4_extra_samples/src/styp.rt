//! The segment type box.

ghost use Rattle.mp4_shown.specs.TakenShapes.{declared_taken};
ghost use Rattle.mp4_extra_samples.specs.declared.styp.TheConstants.{NAMES};
ghost use Rattle.mp4_frame.specs.declared.codes.TheConstants as codes;
ghost use Rattle.std.proofs.Common.{refl, lit<};
ghost use Rattle.mp4_declared.specs.OwnBox.{layout_of};

use mp4_declared::{
    Code, Codes, Declared, DeclaredBox, Last, Shape, ShapeVisitor, U32, box_of, parts_of,
};
use mp4_frame::{Entries, FourCC, Result, TryClone, codes};
use mp4_shown::taken::{self, Object, TakeFields, TakeShape, take_declared};
use mp4_shown::{FieldSink, HasFields, NamedShape, ShowShape, View, names_of, number};
use std::alloc::Global;

/// The specifications that a segment conforms to (`styp`, ISO/IEC 14496-12, 8.16.2). The fields are those of an `ftyp`.
#[derive(Debug, Drop, PartialEq, Eq)]
pub struct Styp {
    /// The brand of the best suited specification.
    pub major_brand: FourCC,
    /// The version of that specification, for information only.
    pub minor_version: u32,
    /// The brands of all specifications that the segment conforms to.
    pub compatible_brands: Entries<FourCC>,
}

/// The content of the box: a code, a number, and codes up to its end.
pub type StypShape = (Code, U32, Last<Codes>);

impl DeclaredBox for Styp {
    ghost use Rattle.mp4_extra_samples.specs.contracts.styp.Styp.{struct};

    type Shape = StypShape;

    ghost CODE = { codes.STYP };

    ghost layout = { layout_of struct (λ _. tt) (λ _. refl) (lit< tt) };

    const CODE: u32 = codes::STYP;

    fn from_content(found: <StypShape as Shape>::Value) -> Styp {
        box_of!(found => Styp { major_brand, minor_version, compatible_brands })
    }

    fn visit<Q: ShapeVisitor<Self::Shape>>(&self, out: &mut [u8]) -> Q::Answer {
        let parts = parts_of!(self => major_brand, minor_version, compatible_brands.as_slice());
        Q::visit(parts, out)
    }

    ghost valid = { refl };
}

/// The names of the fields.
const NAMES: &<StypShape as NamedShape>::Names = &names_of!(
    "major_brand",
    number!("minor_version"),
    "compatible_brands"
);

impl HasFields for Styp {
    ghost shown = { λ view b. ⟦<StypShape as NamedShape>⟧.shown NAMES.now view
        (⟦<Styp as DeclaredBox>⟧.layout.content b) };

    ghost whole = { λ view b. ⟦<StypShape as NamedShape>⟧.whole NAMES.now view
        (⟦<Styp as DeclaredBox>⟧.layout.content b) };

    fn show<K: FieldSink>(&self, view: View, sink: &mut K) -> mp4_shown::Result<()> {
        let parts = parts_of!(self => major_brand, minor_version, compatible_brands.as_slice());
        StypShape::show(NAMES, view, &parts, sink)
    }
}

impl TakeFields for Styp {
    ghost taken = { declared_taken ⟦<Styp as DeclaredBox>⟧.layout (⟦<StypShape as TakeShape>⟧.taken NAMES.now) };

    fn take(alloc: Global, object: &mut Object<'_>) -> taken::Result<Styp> {
        take_declared::<Styp, StypShape>(alloc, NAMES, object)
    }
}

impl TryClone for Styp {
    fn try_clone(&self) -> Result<Styp> {
        let compatible_brands = self.compatible_brands.try_clone()?;
        Ok(Styp {
            compatible_brands,
            ..*self
        })
    }
}

/// The segment type box.
pub type StypBox = Declared<Styp>;
