//! The text media information box.

ghost use Rattle.mp4_shown.specs.TakenShapes.{declared_taken};
ghost use Rattle.mp4_extra_sound.specs.declared.text.TheConstants.{NAMES};
ghost use Rattle.mp4_frame.specs.declared.codes.TheConstants as codes;
ghost use Rattle.std.proofs.Common.{refl, lit<};

use mp4_declared::declaring::*;
use mp4_frame::{Result, codes};
use mp4_shown::taken::{self, Object, TakeFields, TakeShape, take_declared};
use mp4_shown::{FieldSink, HasFields, NamedShape, ShowShape, View, names_of, number};
use std::alloc::Global;

/// The place of text (`text`, QuickTime File Format, "Text media information atom"): a matrix. `u`, `v` and `w` have 30
/// bits after the point, the others 16. A `text` in an `stsd` is another box.
#[derive(Clone, Copy, Debug, Drop, PartialEq, Eq)]
pub struct Text {
    /// The factor of p in m.
    pub a: i32,
    /// The factor of p in n.
    pub b: i32,
    /// The factor of p in z.
    pub u: i32,
    /// The factor of q in m.
    pub c: i32,
    /// The factor of q in n.
    pub d: i32,
    /// The factor of q in z.
    pub v: i32,
    /// The constant term of m.
    pub x: i32,
    /// The constant term of n.
    pub y: i32,
    /// The constant term of z.
    pub w: i32,
}

/// A row of the matrix: three signed numbers.
pub type TextRow = (I32, I32, Last<I32>);

/// The content of the box: three rows.
pub type TextShape = (TextRow, TextRow, Last<TextRow>);

/// Nine numbers one after the other would be nested nine deep, which takes the prover too long. So the layout has a
/// part for each row.
impl DeclaredBox for Text {
    ghost use Rattle.mp4_extra_sound.specs.declared.text.Text.{Text};

    type Shape = TextShape;

    ghost CODE = { codes.TEXT };

    ghost layout = { record {
      content = λ t. ((t.a, (t.b, (t.u, tt))), ((t.c, (t.d, (t.v, tt))), ((t.x, (t.y, (t.w, tt))), tt)));
      value = λ r. record {
        a = r.0.0;
        b = r.0.1.0;
        u = r.0.1.1.0;
        c = r.1.0.0;
        d = r.1.0.1.0;
        v = r.1.0.1.1.0;
        x = r.1.1.0.0;
        y = r.1.1.0.1.0;
        w = r.1.1.0.1.1.0;
      };
      again = λ _. refl;
      coded = lit< tt;
    } };

    const CODE: u32 = codes::TEXT;

    fn from_content(found: <TextShape as Shape>::Value) -> Text {
        let (first, (second, (third, ()))) = found;
        let (a, (b, (u, ()))) = first;
        let (c, (d, (v, ()))) = second;
        let (x, (y, (w, ()))) = third;
        Text {
            a,
            b,
            u,
            c,
            d,
            v,
            x,
            y,
            w,
        }
    }

    fn visit<Q: ShapeVisitor<Self::Shape>>(&self, out: &mut [u8]) -> Q::Answer {
        let first = parts_of!(self => a, b, u);
        let second = parts_of!(self => c, d, v);
        let third = parts_of!(self => x, y, w);
        Q::visit((first, (second, (third, ()))), out)
    }

    ghost valid = { refl };
}

/// The names of the fields.
const NAMES: &<TextShape as NamedShape>::Names = &names_of!(
    names_of!(
        number!("a", Fixed(16)),
        number!("b", Fixed(16)),
        number!("u", Fixed(30))
    ),
    names_of!(
        number!("c", Fixed(16)),
        number!("d", Fixed(16)),
        number!("v", Fixed(30))
    ),
    names_of!(
        number!("x", Fixed(16)),
        number!("y", Fixed(16)),
        number!("w", Fixed(30))
    )
);

impl HasFields for Text {
    ghost shown = { λ view b. ⟦<TextShape as NamedShape>⟧.shown NAMES.now view
        (⟦<Text as DeclaredBox>⟧.layout.content b) };

    ghost whole = { λ view b. ⟦<TextShape as NamedShape>⟧.whole NAMES.now view
        (⟦<Text as DeclaredBox>⟧.layout.content b) };

    fn show<K: FieldSink>(&self, view: View, sink: &mut K) -> mp4_shown::Result<()> {
        let first = parts_of!(self => a, b, u);
        let second = parts_of!(self => c, d, v);
        let third = parts_of!(self => x, y, w);
        TextShape::show(NAMES, view, &(first, (second, (third, ()))), sink)
    }
}

impl TakeFields for Text {
    ghost taken = { declared_taken ⟦<Text as DeclaredBox>⟧.layout (⟦<TextShape as TakeShape>⟧.taken NAMES.now) };

    fn take(alloc: Global, object: &mut Object<'_>) -> taken::Result<Text> {
        take_declared::<Text, TextShape>(alloc, NAMES, object)
    }
}

impl TryClone for Text {
    fn try_clone(&self) -> Result<Text> {
        Ok(*self)
    }
}

/// The text media information box.
pub type TextBox = Declared<Text>;
