//! A box of strings. No standard defines it.

ghost use Rattle.example_boxes.specs.declared.shapes.strings.TheConstants.{STRS};
ghost use Rattle.mp4_stream.specs.Author.{layout_of, refl, lit<};

use mp4_stream::declaring::*;

/// The code: `strs`.
pub const STRS: u32 = 0x7374_7273;

/// The fields of the box.
#[derive(Debug, Drop, PartialEq, Eq)]
pub struct Strings {
    /// Any bytes except 0.
    pub scheme: Entries<u8>,
    /// Any bytes, at most 3.
    pub name: Entries<u8>,
    /// Any bytes except 0.
    pub value: Entries<u8>,
}

/// The content of the box: a string, a name in a field of fixed size, and a string.
pub type StringsShape = (Terminated, Pascal<4>, Last<Terminated>);

impl DeclaredBox for Strings {
    ghost use Rattle.example_boxes.specs.contracts.shapes.strings.Strings.{struct};

    type Shape = StringsShape;

    ghost CODE = { STRS };

    ghost layout = { layout_of struct (λ _. tt) (λ _. refl) (lit< tt) };

    const CODE: u32 = STRS;

    fn from_content(found: <StringsShape as Shape>::Value) -> Strings {
        box_of!(found => Strings { scheme, name, value })
    }

    fn visit<Q: ShapeVisitor<Self::Shape>>(&self, out: &mut [u8]) -> Q::Answer {
        let parts = parts_of!(self => scheme.as_slice(), name.as_slice(), value.as_slice());
        Q::visit(parts, out)
    }

    ghost valid = { refl };
}

/// The box of strings.
pub type StringsBox = Declared<Strings>;
