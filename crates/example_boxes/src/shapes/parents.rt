//! A box with boxes after its fields: the track extension properties box.

ghost use Rattle.example_boxes.specs.declared.shapes.parents.TheConstants.{TREP};
ghost use Rattle.std.proofs.Common.{refl, lit<};
ghost use Rattle.mp4_stream.specs.Author.{layout_of};

use mp4_box_tree::{ContainerFields, DeclaredContainer};
use mp4_stream::KeptBox;
use mp4_stream::declaring::*;

/// The code: `trep`.
pub const TREP: u32 = 0x7472_6570;

/// The track that the boxes inside describe (`trep`, ISO/IEC 14496-12, 8.8.15).
#[derive(Clone, Copy, Debug, Drop, PartialEq, Eq)]
pub struct Trep {
    /// 0 in the standard.
    pub version: u8,
    /// 24 bits, 0 in the standard.
    pub flags: u32,
    /// The track (`track_ID`).
    pub track_id: u32,
}

impl DeclaredBox for Trep {
    ghost use Rattle.example_boxes.specs.contracts.shapes.parents.Trep.{struct};

    type Shape = Full<1, Last<U32>>;

    ghost CODE = { TREP };

    ghost layout = { layout_of struct (λ _. tt) (λ _. refl) (lit< tt) };

    const CODE: u32 = TREP;

    fn from_content(found: (u8, (u32, (u32, ())))) -> Trep {
        box_of!(found => Trep { version, flags, track_id })
    }

    fn visit<Q: ShapeVisitor<Self::Shape>>(&self, out: &mut [u8]) -> Q::Answer {
        Q::visit(parts_of!(self => version, flags, track_id), out)
    }

    ghost valid = { refl };
}

impl ContainerFields for Trep {
    ghost has_end = { refl };
}

/// The track extension properties box, with the boxes inside kept as bytes.
pub type TrepBox = DeclaredContainer<Trep, KeptBox>;
