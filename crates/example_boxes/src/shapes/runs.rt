//! A box of bytes, rows, entries and further bytes up to its end. No standard defines it.

ghost use Rattle.example_boxes.specs.declared.shapes.runs.TheConstants.{RUNS};
ghost use Rattle.std.proofs.Common.{refl, lit<};
ghost use Rattle.mp4_stream.specs.Author.{layout_of};

use crate::shapes::numbers::Packed;
use mp4_stream::author::{
    Bytes, Declared, DeclaredBox, Last, List, Rest, Rows, Shape, ShapeVisitor, U8, U16,
};
use mp4_stream::{Entries, box_of, parts_of};

/// The code: `runs`.
pub const RUNS: u32 = 0x7275_6e73;

/// The fields of the box.
#[derive(Debug, Drop, PartialEq, Eq)]
pub struct Runs {
    /// At most 255.
    pub name: Entries<u8>,
    /// Rows of three bytes, at most 65,535.
    pub colors: Entries<[u8; 3]>,
    /// At most 255.
    pub entries: Entries<Packed>,
    /// The bytes up to the end of the box.
    pub rest: Entries<u8>,
}

/// The content of the box: bytes, rows and entries, each after their count, and bytes up to its end.
pub type RunsShape = (Bytes<U8>, Rows<U16, 3>, List<U8, Packed, 3, 2>, Last<Rest>);

impl DeclaredBox for Runs {
    ghost use Rattle.example_boxes.specs.contracts.shapes.runs.Runs.{struct};

    type Shape = RunsShape;

    ghost CODE = { RUNS };

    ghost layout = { layout_of struct (λ _. tt) (λ _. refl) (lit< tt) };

    const CODE: u32 = RUNS;

    fn from_content(found: <RunsShape as Shape>::Value) -> Runs {
        box_of!(found => Runs { name, colors, entries, rest })
    }

    fn visit<Q: ShapeVisitor<Self::Shape>>(&self, out: &mut [u8]) -> Q::Answer {
        let parts =
            parts_of!(self => name.as_slice(), colors.as_slice(), entries.as_slice(), rest.as_slice());
        Q::visit(parts, out)
    }

    ghost valid = { refl };
}

/// The box of runs.
pub type RunsBox = Declared<Runs>;
