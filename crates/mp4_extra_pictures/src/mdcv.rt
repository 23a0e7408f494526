//! The mastering display colour volume box.

ghost use Rattle.mp4_shown.specs.TakenShapes.{declared_taken};
ghost use Rattle.mp4_extra_pictures.specs.declared.mdcv.TheConstants.{WIDTHS, NAMES};
ghost use Rattle.mp4_frame.specs.declared.codes.TheConstants as codes;
ghost use Rattle.std.proofs.Common.{refl, lit<};
ghost use Rattle.mp4_declared.specs.OwnBox.{layout_of};
ghost use Rattle.mp4_declared.specs.Layout.{packed, fields_of};

use mp4_declared::{
    Bits, Declared, DeclaredBox, EntryLayout, Last, Shape, ShapeVisitor, U32, box_of, entry_of,
    numbers_of, parts_of,
};
use mp4_frame::{Result, TryClone, codes};
use mp4_shown::taken::{self, Object, TakeFields, TakeShape, take_declared};
use mp4_shown::{FieldSink, HasFields, NamedShape, NumberName, ShowShape, View, names_of, number};
use std::alloc::Global;

/// A chromaticity, as a point in the CIE 1931 diagram. Coordinates are in units of 0.00002 and at most 50,000.
#[derive(Clone, Copy, Debug, Default, PartialEq, Eq)]
pub struct Chromaticity {
    /// The x coordinate.
    pub x: u16,
    /// The y coordinate.
    pub y: u16,
}

/// The widths of the fields, in bits.
const WIDTHS: [u8; 2] = [16, 16];

impl EntryLayout<2, 4> for Chromaticity {
    ghost use Rattle.mp4_extra_pictures.specs.contracts.mdcv.Chromaticity.{struct};

    ghost layout = { packed (fields_of WIDTHS) struct.as_values (λ v. struct.make v tt) (λ _. refl) (λ _. refl) refl };

    fn widths() -> [u8; 2] {
        WIDTHS
    }

    fn numbers(&self) -> [u64; 2] {
        numbers_of!(self => x, y)
    }

    fn from_numbers(n: &[u64; 2]) -> Chromaticity {
        entry_of!(n => Chromaticity { x: u16, y: u16 })
    }

    ghost few = { lit< tt };
}

/// The display on which a video was mastered (`mdcv`, ISO/IEC 14496-12, 12.1.7).
#[derive(Clone, Copy, Debug, Drop, PartialEq, Eq)]
pub struct Mdcv {
    /// The first primary of the display. It should be green.
    pub display_primaries_0: Chromaticity,
    /// The second primary of the display. It should be blue.
    pub display_primaries_1: Chromaticity,
    /// The third primary of the display. It should be red.
    pub display_primaries_2: Chromaticity,
    /// The white point of the display.
    pub white_point: Chromaticity,
    /// The largest luminance of the display, in units of 0.0001 candelas per square metre.
    pub max_display_mastering_luminance: u32,
    /// The smallest luminance of the display, in units of 0.0001 candelas per square metre.
    pub min_display_mastering_luminance: u32,
}

/// The content of the box: four points of four bytes each, and two numbers.
pub type MdcvShape = (
    Bits<Chromaticity, 2, 4>,
    Bits<Chromaticity, 2, 4>,
    Bits<Chromaticity, 2, 4>,
    Bits<Chromaticity, 2, 4>,
    (U32, Last<U32>),
);

impl DeclaredBox for Mdcv {
    ghost use Rattle.mp4_extra_pictures.specs.contracts.mdcv.Mdcv.{struct};

    type Shape = MdcvShape;

    ghost CODE = { codes.MDCV };

    ghost layout = { layout_of struct (λ _. tt) (λ _. refl) (lit< tt) };

    const CODE: u32 = codes::MDCV;

    fn from_content(found: <MdcvShape as Shape>::Value) -> Mdcv {
        box_of!(found => Mdcv { display_primaries_0, display_primaries_1, display_primaries_2,
            white_point, max_display_mastering_luminance, min_display_mastering_luminance })
    }

    fn visit<Q: ShapeVisitor<Self::Shape>>(&self, out: &mut [u8]) -> Q::Answer {
        let parts = parts_of!(self => display_primaries_0, display_primaries_1,
            display_primaries_2, white_point, max_display_mastering_luminance,
            min_display_mastering_luminance);
        Q::visit(parts, out)
    }

    ghost valid = { refl };
}

/// The names of the first primary.
const GREEN: &[NumberName] = &[
    number!("display_primaries_x_0"),
    number!("display_primaries_y_0"),
];

/// The names of the second primary.
const BLUE: &[NumberName] = &[
    number!("display_primaries_x_1"),
    number!("display_primaries_y_1"),
];

/// The names of the third primary.
const RED: &[NumberName] = &[
    number!("display_primaries_x_2"),
    number!("display_primaries_y_2"),
];

/// The names of the white point.
const WHITE: &[NumberName] = &[number!("white_point_x"), number!("white_point_y")];

/// The names of the fields.
const NAMES: &<MdcvShape as NamedShape>::Names = &names_of!(
    GREEN,
    BLUE,
    RED,
    WHITE,
    number!("max_display_mastering_luminance"),
    number!("min_display_mastering_luminance")
);

impl HasFields for Mdcv {
    ghost shown = { λ view b. ⟦<MdcvShape as NamedShape>⟧.shown NAMES.now view
        (⟦<Mdcv as DeclaredBox>⟧.layout.content b) };

    ghost whole = { λ view b. ⟦<MdcvShape as NamedShape>⟧.whole NAMES.now view
        (⟦<Mdcv as DeclaredBox>⟧.layout.content b) };

    fn show<K: FieldSink>(&self, view: View, sink: &mut K) -> mp4_shown::Result<()> {
        let parts = parts_of!(self => display_primaries_0, display_primaries_1,
            display_primaries_2, white_point, max_display_mastering_luminance,
            min_display_mastering_luminance);
        MdcvShape::show(NAMES, view, &parts, sink)
    }
}

impl TakeFields for Mdcv {
    ghost taken = { declared_taken ⟦<Mdcv as DeclaredBox>⟧.layout (⟦<MdcvShape as TakeShape>⟧.taken NAMES.now) };

    fn take(alloc: Global, object: &mut Object<'_>) -> taken::Result<Mdcv> {
        take_declared::<Mdcv, MdcvShape>(alloc, NAMES, object)
    }
}

impl TryClone for Mdcv {
    fn try_clone(&self) -> Result<Mdcv> {
        Ok(*self)
    }
}

/// The mastering display colour volume box.
pub type MdcvBox = Declared<Mdcv>;
