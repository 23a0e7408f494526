//! The image spatial extents box.

ghost use Rattle.mp4_shown.specs.TakenShapes.{declared_taken};
ghost use Rattle.mp4_extra_pictures.specs.declared.ispe.TheConstants.{NAMES};
ghost use Rattle.mp4_frame.specs.declared.codes.TheConstants as codes;
ghost use Rattle.mp4_declared.specs.OwnBox.{layout_of};
ghost use Rattle.std.proofs.Common.{refl, lit<};

use mp4_declared::declaring::*;
use mp4_frame::{Result, codes};
use mp4_shown::taken::{self, Object, TakeFields, TakeShape, take_declared};
use mp4_shown::{
    FLAGS, FieldSink, HasFields, NamedShape, ShowShape, VERSION, View, names_of, number,
};
use std::alloc::Global;

/// The size of an image (`ispe`, ISO/IEC 23008-12, 6.5.3).
#[derive(Clone, Copy, Debug, Drop, PartialEq, Eq)]
pub struct Ispe {
    /// 0 in the standard.
    pub version: u8,
    /// 24 bits, 0 in the standard.
    pub flags: u32,
    /// The width of the image, in pixels.
    pub image_width: u32,
    /// The height of the image, in pixels.
    pub image_height: u32,
}

/// The content of the box: version, flags and two numbers.
pub type IspeShape = Full<1, (U32, Last<U32>)>;

impl DeclaredBox for Ispe {
    ghost use Rattle.mp4_extra_pictures.specs.contracts.ispe.Ispe.{struct};

    type Shape = IspeShape;

    ghost CODE = { codes.ISPE };

    ghost layout = { layout_of struct (λ _. tt) (λ _. refl) (lit< tt) };

    const CODE: u32 = codes::ISPE;

    fn from_content(found: <IspeShape as Shape>::Value) -> Ispe {
        box_of!(found => Ispe { version, flags, image_width, image_height })
    }

    fn visit<Q: ShapeVisitor<Self::Shape>>(&self, out: &mut [u8]) -> Q::Answer {
        let parts = parts_of!(self => version, flags, image_width, image_height);
        Q::visit(parts, out)
    }

    ghost valid = { refl };
}

/// The names of the fields.
const NAMES: &<IspeShape as NamedShape>::Names = &names_of!(
    VERSION,
    FLAGS,
    number!("image_width"),
    number!("image_height")
);

impl HasFields for Ispe {
    ghost shown = { λ view b. ⟦<IspeShape as NamedShape>⟧.shown NAMES.now view
        (⟦<Ispe as DeclaredBox>⟧.layout.content b) };

    ghost whole = { λ view b. ⟦<IspeShape as NamedShape>⟧.whole NAMES.now view
        (⟦<Ispe as DeclaredBox>⟧.layout.content b) };

    fn show<K: FieldSink>(&self, view: View, sink: &mut K) -> mp4_shown::Result<()> {
        let parts = parts_of!(self => version, flags, image_width, image_height);
        IspeShape::show(NAMES, view, &parts, sink)
    }
}

impl TakeFields for Ispe {
    ghost taken = { declared_taken ⟦<Ispe as DeclaredBox>⟧.layout (⟦<IspeShape as TakeShape>⟧.taken NAMES.now) };

    fn take(alloc: Global, object: &mut Object<'_>) -> taken::Result<Ispe> {
        take_declared::<Ispe, IspeShape>(alloc, NAMES, object)
    }
}

impl TryClone for Ispe {
    fn try_clone(&self) -> Result<Ispe> {
        Ok(*self)
    }
}

/// The image spatial extents box.
pub type IspeBox = Declared<Ispe>;
