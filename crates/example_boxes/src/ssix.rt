//! The subsegment index box, whose entries have different lengths.

ghost use Rattle.example_boxes.specs.declared.ssix.TheConstants.{SSIX, WIDTHS};
ghost use Rattle.mp4_stream.specs.Author.{layout_of, exact_layout_of, packed, fields_of, refl, lit<};

use mp4_declared::clone_each;
use mp4_stream::declaring::*;

/// The code: `ssix`.
pub const SSIX: u32 = 0x7373_6978;

/// A range of a subsegment: consecutive bytes of one level.
#[derive(Clone, Copy, Debug, Default, PartialEq, Eq)]
pub struct SsixRange {
    /// The level of the bytes. A `leva` defines the levels.
    pub level: u8,
    /// The number of bytes. 24 bits.
    pub range_size: u32,
}

/// The widths of the fields, in bits.
const WIDTHS: [u8; 2] = [8, 24];

impl EntryLayout<2, 4> for SsixRange {
    ghost use Rattle.example_boxes.specs.contracts.ssix.SsixRange.{struct};

    ghost layout = { packed (fields_of WIDTHS) struct.as_values (λ v. struct.make v tt) (λ _. refl) (λ _. refl) refl };

    fn widths() -> [u8; 2] {
        WIDTHS
    }

    fn numbers(&self) -> [u64; 2] {
        numbers_of!(self => level, range_size)
    }

    fn from_numbers(n: &[u64; 2]) -> SsixRange {
        entry_of!(n => SsixRange { level: u8, range_size: u32 })
    }

    ghost few = { lit< tt };
}

/// A subsegment.
#[derive(Debug, Drop, PartialEq, Eq)]
pub struct Subsegment {
    /// The ranges, in the order of their bytes, at most 2^32 - 1.
    pub ranges: Entries<SsixRange>,
}

/// The layout of a subsegment: a count of 32 bits, and that many ranges.
pub type SubsegmentShape = Last<List<U32, SsixRange, 2, 4>>;

impl DeclaredEntry for Subsegment {
    ghost use Rattle.example_boxes.specs.contracts.ssix.Subsegment.{struct};

    type Shape = SubsegmentShape;

    ghost layout = { exact_layout_of struct (λ _. tt) (λ _. refl) };

    fn from_content(found: <SubsegmentShape as Shape>::Value) -> Subsegment {
        box_of!(found => Subsegment { ranges })
    }

    fn visit<Q: EntryVisitor<Self::Shape>>(&self, question: Q, out: &mut [u8]) -> Q::Answer {
        question.visit(parts_of!(self => ranges.as_slice()), out)
    }

    ghost begins = { λ _. lit< tt };
}

impl TryClone for Subsegment {
    fn try_clone(&self) -> mp4_stream::Result<Subsegment> {
        Ok(Subsegment {
            ranges: self.ranges.try_clone()?,
        })
    }
}

/// The ranges of the subsegments that a `sidx` before it indexes (`ssix`, ISO/IEC 14496-12, 8.16.4).
#[derive(Debug, Drop, PartialEq, Eq)]
pub struct Ssix {
    /// 0.
    pub version: u8,
    /// 24 bits, 0 in the standard.
    pub flags: u32,
    /// The subsegments, in the order of the `sidx`, at most 2^32 - 1.
    pub subsegments: Entries<Subsegment>,
}

/// The content of the box: version, flags, a count of 32 bits, and that many subsegments.
pub type SsixShape = Full<1, Last<Each<U32, Subsegment>>>;

impl DeclaredBox for Ssix {
    ghost use Rattle.example_boxes.specs.contracts.ssix.Ssix.{struct};

    type Shape = SsixShape;

    ghost CODE = { SSIX };

    ghost layout = { layout_of struct (λ _. tt) (λ _. refl) (lit< tt) };

    const CODE: u32 = SSIX;

    fn from_content(found: <SsixShape as Shape>::Value) -> Ssix {
        box_of!(found => Ssix { version, flags, subsegments })
    }

    fn visit<Q: ShapeVisitor<Self::Shape>>(&self, out: &mut [u8]) -> Q::Answer {
        Q::visit(
            parts_of!(self => version, flags, subsegments.as_slice()),
            out,
        )
    }

    ghost valid = { refl };
}

impl TryClone for Ssix {
    fn try_clone(&self) -> mp4_stream::Result<Ssix> {
        let alloc = *self.subsegments.allocator();
        let subsegments = clone_each(alloc, self.subsegments.as_slice())?;
        Ok(Ssix {
            subsegments,
            ..*self
        })
    }
}

/// The subsegment index box.
pub type SsixBox = Declared<Ssix>;
