//! Boxes of entries with different lengths, which have such entries inside. No standard defines them.

ghost use Rattle.example_boxes.specs.declared.shapes.nested.TheConstants.{NEST, LINS};
ghost use Rattle.mp4_stream.specs.Author.{layout_of, exact_layout_of, some_first, refl, lit<};

use mp4_stream::declaring::*;

/// The code of the box of groups: `nest`.
pub const NEST: u32 = 0x6e65_7374;

/// The code of the box of lines: `lins`.
pub const LINS: u32 = 0x6c69_6e73;

/// A kind and a time.
#[derive(Debug, Drop, PartialEq, Eq)]
pub struct Moment {
    /// Any number.
    pub kind: u8,
    /// 32 bits in version 0.
    pub time: u64,
}

impl DeclaredEntry for Moment {
    ghost use Rattle.example_boxes.specs.contracts.shapes.nested.Moment.{struct};

    type Shape = (U8, Last<Time>);

    ghost layout = { exact_layout_of struct (λ _. tt) (λ _. refl) };

    fn from_content(found: (u8, (u64, ()))) -> Moment {
        box_of!(found => Moment { kind, time })
    }

    fn visit<Q: EntryVisitor<Self::Shape>>(&self, question: Q, out: &mut [u8]) -> Q::Answer {
        question.visit(parts_of!(self => kind, time), out)
    }

    ghost begins = { λ _. some_first 1 _ (lit< tt) };
}

/// Moments with a name.
#[derive(Debug, Drop, PartialEq, Eq)]
pub struct Group {
    /// Any bytes, at most 255.
    pub name: Entries<u8>,
    /// The moments, at most 65,535.
    pub moments: Entries<Moment>,
}

impl DeclaredEntry for Group {
    ghost use Rattle.example_boxes.specs.contracts.shapes.nested.Group.{struct};

    type Shape = (Bytes<U8>, Last<Each<U16, Moment>>);

    ghost layout = { exact_layout_of struct (λ _. tt) (λ _. refl) };

    fn from_content(found: (Entries<u8>, (Entries<Moment>, ()))) -> Group {
        box_of!(found => Group { name, moments })
    }

    fn visit<Q: EntryVisitor<Self::Shape>>(&self, question: Q, out: &mut [u8]) -> Q::Answer {
        question.visit(parts_of!(self => name.as_slice(), moments.as_slice()), out)
    }

    ghost begins = { λ _. lit< tt };
}

/// The fields of the box of groups.
#[derive(Debug, Drop, PartialEq, Eq)]
pub struct Nested {
    /// 0, or 1 for times of 64 bits.
    pub version: u8,
    /// 24 bits.
    pub flags: u32,
    /// The groups, at most 2^32 - 1.
    pub groups: Entries<Group>,
    /// Any number.
    pub last: u8,
}

impl DeclaredBox for Nested {
    ghost use Rattle.example_boxes.specs.contracts.shapes.nested.Nested.{struct};

    type Shape = Full<2, (Each<U32, Group>, Last<U8>)>;

    ghost CODE = { NEST };

    ghost layout = { layout_of struct (λ _. tt) (λ _. refl) (lit< tt) };

    const CODE: u32 = NEST;

    fn from_content(found: (u8, (u32, (Entries<Group>, (u8, ()))))) -> Nested {
        box_of!(found => Nested { version, flags, groups, last })
    }

    fn visit<Q: ShapeVisitor<Self::Shape>>(&self, out: &mut [u8]) -> Q::Answer {
        Q::visit(
            parts_of!(self => version, flags, groups.as_slice(), last),
            out,
        )
    }

    ghost valid = { refl };
}

/// The box of groups.
pub type NestedBox = Declared<Nested>;

/// Moments, a text and a number.
#[derive(Debug, Drop, PartialEq, Eq)]
pub struct Line {
    /// The moments, at most 255.
    pub moments: Entries<Moment>,
    /// Any bytes except 0.
    pub text: Entries<u8>,
    /// Any number.
    pub number: u16,
}

impl DeclaredEntry for Line {
    ghost use Rattle.example_boxes.specs.contracts.shapes.nested.Line.{struct};

    type Shape = (Each<U8, Moment>, (Terminated, Last<U16>));

    ghost layout = { exact_layout_of struct (λ _. tt) (λ _. refl) };

    fn from_content(found: (Entries<Moment>, (Entries<u8>, (u16, ())))) -> Line {
        box_of!(found => Line { moments, text, number })
    }

    fn visit<Q: EntryVisitor<Self::Shape>>(&self, question: Q, out: &mut [u8]) -> Q::Answer {
        question.visit(
            parts_of!(self => moments.as_slice(), text.as_slice(), number),
            out,
        )
    }

    ghost begins = { λ _. lit< tt };
}

/// The fields of the box of lines.
#[derive(Debug, Drop, PartialEq, Eq)]
pub struct Lines {
    /// 0, or 1 for times of 64 bits.
    pub version: u8,
    /// 24 bits.
    pub flags: u32,
    /// The lines, up to the end of the box.
    pub lines: Entries<Line>,
}

impl DeclaredBox for Lines {
    ghost use Rattle.example_boxes.specs.contracts.shapes.nested.Lines.{struct};

    type Shape = Full<2, Last<EachToEnd<Line>>>;

    ghost CODE = { LINS };

    ghost layout = { layout_of struct (λ _. tt) (λ _. refl) (lit< tt) };

    const CODE: u32 = LINS;

    fn from_content(found: (u8, (u32, (Entries<Line>, ())))) -> Lines {
        box_of!(found => Lines { version, flags, lines })
    }

    fn visit<Q: ShapeVisitor<Self::Shape>>(&self, out: &mut [u8]) -> Q::Answer {
        Q::visit(parts_of!(self => version, flags, lines.as_slice()), out)
    }

    ghost valid = { refl };
}

/// The box of lines.
pub type LinesBox = Declared<Lines>;
