//! The clean aperture box.

ghost use Rattle.mp4_shown.specs.TakenShapes.{declared_taken};
ghost use Rattle.mp4_extra_pictures.specs.declared.clap.TheConstants.{NAMES};
ghost use Rattle.mp4_frame.specs.declared.codes.TheConstants as codes;
ghost use Rattle.std.proofs.Common.{refl, lit<};
ghost use Rattle.mp4_declared.specs.OwnBox.{layout_of};

use mp4_declared::{Declared, DeclaredBox, I32, Last, Shape, ShapeVisitor, U32, box_of, parts_of};
use mp4_frame::{Result, TryClone, codes};
use mp4_shown::taken::{self, Object, TakeFields, TakeShape, take_declared};
use mp4_shown::{FieldSink, HasFields, NamedShape, ShowShape, View, names_of, number};
use std::alloc::Global;

/// The part of a video's pictures to show (`clap`, ISO/IEC 14496-12, 12.1.4). Width, height and offsets are fractions,
/// in pixels. Each has a numerator (`_n`) and a positive denominator (`_d`).
#[derive(Clone, Copy, Debug, Drop, PartialEq, Eq)]
pub struct Clap {
    /// The numerator of the width (`cleanApertureWidthN`). Positive.
    pub clean_aperture_width_n: u32,
    /// The denominator of the width (`cleanApertureWidthD`).
    pub clean_aperture_width_d: u32,
    /// The numerator of the height (`cleanApertureHeightN`). Positive.
    pub clean_aperture_height_n: u32,
    /// The denominator of the height (`cleanApertureHeightD`).
    pub clean_aperture_height_d: u32,
    /// The numerator of the horizontal offset (`horizOffN`): the distance from the centre of the picture to the centre
    /// of the part. Positive to the right, negative to the left.
    pub horiz_off_n: i32,
    /// The denominator of the horizontal offset (`horizOffD`).
    pub horiz_off_d: u32,
    /// The numerator of the vertical offset (`vertOffN`): the distance from the centre of the picture to the centre of
    /// the part. Positive downwards, negative upwards.
    pub vert_off_n: i32,
    /// The denominator of the vertical offset (`vertOffD`).
    pub vert_off_d: u32,
}

/// The content of the box: four fractions. The numerators of the offsets are signed.
pub type ClapShape = (U32, U32, U32, U32, (I32, U32, I32, Last<U32>));

impl DeclaredBox for Clap {
    ghost use Rattle.mp4_extra_pictures.specs.contracts.clap.Clap.{struct};

    type Shape = ClapShape;

    ghost CODE = { codes.CLAP };

    ghost layout = { layout_of struct (λ _. tt) (λ _. refl) (lit< tt) };

    const CODE: u32 = codes::CLAP;

    fn from_content(found: <ClapShape as Shape>::Value) -> Clap {
        box_of!(found => Clap { clean_aperture_width_n, clean_aperture_width_d,
            clean_aperture_height_n, clean_aperture_height_d, horiz_off_n, horiz_off_d, vert_off_n,
            vert_off_d })
    }

    fn visit<Q: ShapeVisitor<Self::Shape>>(&self, out: &mut [u8]) -> Q::Answer {
        let parts = parts_of!(self => clean_aperture_width_n, clean_aperture_width_d,
            clean_aperture_height_n, clean_aperture_height_d, horiz_off_n, horiz_off_d, vert_off_n,
            vert_off_d);
        Q::visit(parts, out)
    }

    ghost valid = { refl };
}

/// The names of the fields.
const NAMES: &<ClapShape as NamedShape>::Names = &names_of!(
    number!("cleanApertureWidthN"),
    number!("cleanApertureWidthD"),
    number!("cleanApertureHeightN"),
    number!("cleanApertureHeightD"),
    number!("horizOffN"),
    number!("horizOffD"),
    number!("vertOffN"),
    number!("vertOffD")
);

impl HasFields for Clap {
    ghost shown = { λ view b. ⟦<ClapShape as NamedShape>⟧.shown NAMES.now view
        (⟦<Clap as DeclaredBox>⟧.layout.content b) };

    ghost whole = { λ view b. ⟦<ClapShape as NamedShape>⟧.whole NAMES.now view
        (⟦<Clap as DeclaredBox>⟧.layout.content b) };

    fn show<K: FieldSink>(&self, view: View, sink: &mut K) -> mp4_shown::Result<()> {
        let parts = parts_of!(self => clean_aperture_width_n, clean_aperture_width_d,
            clean_aperture_height_n, clean_aperture_height_d, horiz_off_n, horiz_off_d, vert_off_n,
            vert_off_d);
        ClapShape::show(NAMES, view, &parts, sink)
    }
}

impl TakeFields for Clap {
    ghost taken = { declared_taken ⟦<Clap as DeclaredBox>⟧.layout (⟦<ClapShape as TakeShape>⟧.taken NAMES.now) };

    fn take(alloc: Global, object: &mut Object<'_>) -> taken::Result<Clap> {
        take_declared::<Clap, ClapShape>(alloc, NAMES, object)
    }
}

impl TryClone for Clap {
    fn try_clone(&self) -> Result<Clap> {
        Ok(*self)
    }
}

/// The clean aperture box.
pub type ClapBox = Declared<Clap>;
