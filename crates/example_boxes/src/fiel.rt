//! The field information box, which has no version.

ghost use Rattle.example_boxes.specs.declared.fiel.TheConstants.{FIEL};
ghost use Rattle.std.specs.Prelude.{◌≡◌};
ghost use Rattle.mp4_stream.specs.Author.{layout_of, refl, lit<};

use mp4_stream::declaring::*;

/// The code: `fiel`.
pub const FIEL: u32 = 0x6669_656c;

/// The fields of a sample of video (`fiel`, QuickTime File Format, "Video sample description extensions").
#[derive(Clone, Copy, Debug, Drop, PartialEq, Eq)]
pub struct Fiel {
    /// The number of fields: 1 for progressive video, 2 for interlaced video.
    pub count: u8,
    /// The order of the two fields; 0 for progressive video.
    pub detail: u8,
}

/// Progressive video.
impl Default for Fiel {
    ghost is_default = { λ v. v ≡ record { count = 1; detail = 0 } };

    fn default() -> Fiel {
        Fiel {
            count: 1,
            detail: 0,
        }
    }
}

impl DeclaredBox for Fiel {
    ghost use Rattle.example_boxes.specs.contracts.fiel.Fiel.{struct};

    type Shape = (U8, Last<U8>);

    ghost CODE = { FIEL };

    ghost layout = { layout_of struct (λ _. tt) (λ _. refl) (lit< tt) };

    const CODE: u32 = FIEL;

    fn from_content(found: (u8, (u8, ()))) -> Fiel {
        box_of!(found => Fiel { count, detail })
    }

    fn visit<Q: ShapeVisitor<Self::Shape>>(&self, out: &mut [u8]) -> Q::Answer {
        Q::visit(parts_of!(self => count, detail), out)
    }

    ghost valid = { refl };
}

/// The field information box.
pub type FielBox = Declared<Fiel>;
