//! A box with a `Check` and a field that is not written. No standard defines it.

ghost use Rattle.example_boxes.specs.declared.shapes.checked.TheConstants.{RANG};
ghost use Rattle.std.specs.Prelude.{nat_le};
ghost use Rattle.mp4_stream.specs.Author.{refl, lit<};

use mp4_stream::declaring::*;

/// The code: `rang`.
pub const RANG: u32 = 0x7261_6e67;

/// The fields of the box.
#[derive(Clone, Copy, Debug, Drop, PartialEq, Eq)]
pub struct Range {
    /// The least value, at most `most`.
    pub least: u16,
    /// The largest value, at least `least`.
    pub most: u16,
    /// A mark that is not written, and is read as 0.
    pub mark: u8,
}

impl DeclaredBox for Range {
    ghost use Rattle.example_boxes.specs.declared.shapes.checked.Range.{Range};

    type Shape = (U16, Last<U16>);

    ghost CODE = { RANG };

    ghost layout = { record {
      content = λ v. (v.least, (v.most, tt));
      value = λ x. record { least = x.0; most = x.1.0; mark = 0 };
      again = λ _. refl;
      coded = lit< tt;
    } };

    const CODE: u32 = RANG;

    fn from_content(found: (u16, (u16, ()))) -> Range {
        let (least, (most, ())) = found;
        Range {
            least,
            most,
            mark: 0,
        }
    }

    fn visit<Q: ShapeVisitor<Self::Shape>>(&self, out: &mut [u8]) -> Q::Answer {
        Q::visit(parts_of!(self => least, most), out)
    }

    ghost valid = { refl };
}

impl Check for Range {
    ghost passes = { λ v. nat_le v.least v.most };

    const REFUSED: &'static str = "range is empty";

    fn passes(&self) -> bool {
        self.least <= self.most
    }

    ghost kept = { λ _ is. is };
}

/// The box of a range.
pub type RangeBox = Checked<Range>;
