//! A box of numbers of each kind, without version and flags. No standard defines it.

ghost use Rattle.example_boxes.specs.declared.shapes.numbers.TheConstants.{NUMB, WIDTHS};
ghost use Rattle.std.proofs.Common.{refl, lit<};
ghost use Rattle.mp4_stream.specs.Author.{layout_of, packed, fields_of};

use mp4_stream::author::{
    Bits, Declared, DeclaredBox, EntryLayout, I8, I16, I32, Last, Shape, ShapeVisitor, U8, U16, U24,
};
use mp4_stream::{box_of, entry_of, numbers_of, parts_of};

/// The code: `numb`.
pub const NUMB: u32 = 0x6e75_6d62;

/// Three numbers in two bytes. The last number has bits of both bytes.
#[derive(Clone, Copy, Debug, PartialEq, Eq)]
pub struct Packed {
    /// A flag.
    pub is_first: bool,
    /// 5 bits.
    pub kind: u8,
    /// 10 bits.
    pub level: u16,
}

/// The widths of the fields, in bits. A field of one bit is a flag.
const WIDTHS: [u8; 3] = [1, 5, 10];

impl EntryLayout<3, 2> for Packed {
    ghost use Rattle.example_boxes.specs.contracts.shapes.numbers.Packed.{struct};

    ghost layout = { packed (fields_of WIDTHS) struct.as_values (λ v. struct.make v tt) (λ _. refl) (λ _. refl) refl };

    fn widths() -> [u8; 3] {
        WIDTHS
    }

    fn numbers(&self) -> [u64; 3] {
        numbers_of!(self => is_first, kind, level)
    }

    fn from_numbers(n: &[u64; 3]) -> Packed {
        entry_of!(n => Packed { is_first: bool, kind: u8, level: u16 })
    }

    ghost few = { lit< tt };
}

/// The numbers of the box.
#[derive(Clone, Copy, Debug, Drop, PartialEq, Eq)]
pub struct Numbers {
    /// 8 bits.
    pub byte: u8,
    /// 16 bits.
    pub short: u16,
    /// 24 bits.
    pub medium: u32,
    /// 8 bits, signed.
    pub signed_byte: i8,
    /// 16 bits, signed.
    pub signed_short: i16,
    /// 32 bits, signed.
    pub signed_long: i32,
    /// 16 bits.
    pub packed: Packed,
}

/// The last parts: signed numbers, and bits.
pub type Signed = (I8, I16, I32, Last<Bits<Packed, 3, 2>>);

/// The content of the box: a number of each width, and bits.
pub type NumbersShape = (U8, U16, U24, Signed);

impl DeclaredBox for Numbers {
    ghost use Rattle.example_boxes.specs.contracts.shapes.numbers.Numbers.{struct};

    type Shape = NumbersShape;

    ghost CODE = { NUMB };

    ghost layout = { layout_of struct (λ _. tt) (λ _. refl) (lit< tt) };

    const CODE: u32 = NUMB;

    fn from_content(found: <NumbersShape as Shape>::Value) -> Numbers {
        box_of!(found => Numbers { byte, short, medium, signed_byte, signed_short, signed_long, packed })
    }

    fn visit<Q: ShapeVisitor<Self::Shape>>(&self, out: &mut [u8]) -> Q::Answer {
        let parts =
            parts_of!(self => byte, short, medium, signed_byte, signed_short, signed_long, packed);
        Q::visit(parts, out)
    }

    ghost valid = { refl };
}

/// The box of numbers.
pub type NumbersBox = Declared<Numbers>;
