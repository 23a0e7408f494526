//! A box with a box among its fields. No standard defines it.

ghost use Rattle.example_boxes.specs.declared.shapes.children.TheConstants.{INNR, OUTR};
ghost use Rattle.std.proofs.Common.{refl, lit<};
ghost use Rattle.mp4_stream.specs.Author.{layout_of};

use mp4_box_tree::{Child, ExactFields};
use mp4_stream::declaring::*;

/// The code of the inner box: `innr`.
pub const INNR: u32 = 0x696e_6e72;

/// The code of the outer box: `outr`.
pub const OUTR: u32 = 0x6f75_7472;

/// The fields of the inner box.
#[derive(Debug, Drop, PartialEq, Eq)]
pub struct Inner {
    /// Any bytes, at most 255.
    pub name: Entries<u8>,
    /// Any number.
    pub number: u16,
}

impl DeclaredBox for Inner {
    ghost use Rattle.example_boxes.specs.contracts.shapes.children.Inner.{struct};

    type Shape = (Bytes<U8>, Last<U16>);

    ghost CODE = { INNR };

    ghost layout = { layout_of struct (λ _. tt) (λ _. refl) (lit< tt) };

    const CODE: u32 = INNR;

    fn from_content(found: (Entries<u8>, (u16, ()))) -> Inner {
        box_of!(found => Inner { name, number })
    }

    fn visit<Q: ShapeVisitor<Self::Shape>>(&self, out: &mut [u8]) -> Q::Answer {
        Q::visit(parts_of!(self => name.as_slice(), number), out)
    }

    ghost valid = { refl };
}

impl ExactFields for Inner {
    ghost exact = { λ _. refl };
}

/// The fields of the outer box.
#[derive(Debug, Drop, PartialEq, Eq)]
pub struct Outer {
    /// Any number.
    pub first: u8,
    /// The inner box.
    pub inner: Declared<Inner>,
    /// Any number.
    pub last: u16,
}

impl DeclaredBox for Outer {
    ghost use Rattle.example_boxes.specs.contracts.shapes.children.Outer.{struct};

    type Shape = (U8, Child<Inner>, Last<U16>);

    ghost CODE = { OUTR };

    ghost layout = { layout_of struct (λ _. tt) (λ _. refl) (lit< tt) };

    const CODE: u32 = OUTR;

    fn from_content(found: (u8, (Declared<Inner>, (u16, ())))) -> Outer {
        box_of!(found => Outer { first, inner, last })
    }

    fn visit<Q: ShapeVisitor<Self::Shape>>(&self, out: &mut [u8]) -> Q::Answer {
        let inner = &self.inner;
        Q::visit(parts_of!(self => first, = inner, last), out)
    }

    ghost valid = { refl };
}

/// The outer box.
pub type OuterBox = Declared<Outer>;
