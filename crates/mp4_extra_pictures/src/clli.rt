//! The content light level box.

ghost use Rattle.mp4_shown.specs.TakenShapes.{declared_taken};
ghost use Rattle.mp4_extra_pictures.specs.declared.clli.TheConstants.{NAMES};
ghost use Rattle.mp4_frame.specs.declared.codes.TheConstants as codes;
ghost use Rattle.std.proofs.Common.{refl, lit<};
ghost use Rattle.mp4_declared.specs.OwnBox.{layout_of};

use mp4_declared::{Declared, DeclaredBox, Last, Shape, ShapeVisitor, U16, box_of, parts_of};
use mp4_frame::{Result, TryClone, codes};
use mp4_shown::taken::{self, Object, TakeFields, TakeShape, take_declared};
use mp4_shown::{FieldSink, HasFields, NamedShape, ShowShape, View, names_of, number};
use std::alloc::Global;

/// The brightness of a video's pictures (`clli`, ISO/IEC 14496-12, 12.1.6).
#[derive(Clone, Copy, Debug, Drop, PartialEq, Eq)]
pub struct Clli {
    /// The upper bound of the brightness of any pixel, in candelas per square metre; 0 if unknown.
    pub max_content_light_level: u16,
    /// The upper bound of the average brightness of any picture, in candelas per square metre; 0 if unknown.
    pub max_pic_average_light_level: u16,
}

/// The content of the box: two numbers.
pub type ClliShape = (U16, Last<U16>);

impl DeclaredBox for Clli {
    ghost use Rattle.mp4_extra_pictures.specs.contracts.clli.Clli.{struct};

    type Shape = ClliShape;

    ghost CODE = { codes.CLLI };

    ghost layout = { layout_of struct (λ _. tt) (λ _. refl) (lit< tt) };

    const CODE: u32 = codes::CLLI;

    fn from_content(found: <ClliShape as Shape>::Value) -> Clli {
        box_of!(found => Clli { max_content_light_level, max_pic_average_light_level })
    }

    fn visit<Q: ShapeVisitor<Self::Shape>>(&self, out: &mut [u8]) -> Q::Answer {
        let parts = parts_of!(self => max_content_light_level, max_pic_average_light_level);
        Q::visit(parts, out)
    }

    ghost valid = { refl };
}

/// The names of the fields.
const NAMES: &<ClliShape as NamedShape>::Names = &names_of!(
    number!("max_content_light_level"),
    number!("max_pic_average_light_level")
);

impl HasFields for Clli {
    ghost shown = { λ view b. ⟦<ClliShape as NamedShape>⟧.shown NAMES.now view
        (⟦<Clli as DeclaredBox>⟧.layout.content b) };

    ghost whole = { λ view b. ⟦<ClliShape as NamedShape>⟧.whole NAMES.now view
        (⟦<Clli as DeclaredBox>⟧.layout.content b) };

    fn show<K: FieldSink>(&self, view: View, sink: &mut K) -> mp4_shown::Result<()> {
        let parts = parts_of!(self => max_content_light_level, max_pic_average_light_level);
        ClliShape::show(NAMES, view, &parts, sink)
    }
}

impl TakeFields for Clli {
    ghost taken = { declared_taken ⟦<Clli as DeclaredBox>⟧.layout (⟦<ClliShape as TakeShape>⟧.taken NAMES.now) };

    fn take(alloc: Global, object: &mut Object<'_>) -> taken::Result<Clli> {
        take_declared::<Clli, ClliShape>(alloc, NAMES, object)
    }
}

impl TryClone for Clli {
    fn try_clone(&self) -> Result<Clli> {
        Ok(*self)
    }
}

/// The content light level box.
pub type ClliBox = Declared<Clli>;
