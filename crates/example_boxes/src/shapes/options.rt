//! A box with fields that depend on flags. No standard defines it.

ghost use Rattle.example_boxes.specs.declared.shapes.options.TheConstants.{OPTS};
ghost use Rattle.std.proofs.Common.{refl, lit<};
ghost use Rattle.mp4_stream.specs.Author.{layout_of};

use mp4_stream::author::{
    Declared, DeclaredBox, Full, If, IfFlags, Last, Shape, ShapeVisitor, U8, U16, U32,
};
use mp4_stream::{box_of, parts_of};

/// The code: `opts`.
pub const OPTS: u32 = 0x6f70_7473;

/// The fields of the box.
#[derive(Clone, Copy, Debug, Drop, PartialEq, Eq)]
pub struct Options {
    /// Always 0.
    pub version: u8,
    /// 24 bits.
    pub flags: u32,
    /// Present if flag 0x000001 is set.
    pub size: Option<u32>,
    /// Present if one of the flags 0x000002 and 0x800000 is set.
    pub kind: Option<u16>,
    /// Always present.
    pub last: u8,
}

/// The content of the box: version, flags, a number that depends on one flag, a number that depends on two, and a byte.
pub type OptionsShape = Full<1, (If<IfFlags<1>, U32>, If<IfFlags<0x80_0002>, U16>, Last<U8>)>;

impl DeclaredBox for Options {
    ghost use Rattle.example_boxes.specs.contracts.shapes.options.Options.{struct};

    type Shape = OptionsShape;

    ghost CODE = { OPTS };

    ghost layout = { layout_of struct (λ _. tt) (λ _. refl) (lit< tt) };

    const CODE: u32 = OPTS;

    fn from_content(found: <OptionsShape as Shape>::Value) -> Options {
        box_of!(found => Options { version, flags, size, kind, last })
    }

    fn visit<Q: ShapeVisitor<Self::Shape>>(&self, out: &mut [u8]) -> Q::Answer {
        Q::visit(parts_of!(self => version, flags, size, kind, last), out)
    }

    ghost valid = { refl };
}

/// The box of optional fields.
pub type OptionsBox = Declared<Options>;
