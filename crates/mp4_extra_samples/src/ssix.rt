//! The subsegment index box.

ghost use Rattle.mp4_shown.specs.TakenShapes.{entry_made};
ghost use Rattle.mp4_shown.specs.TakenShapes.{declared_taken};
ghost use Rattle.mp4_extra_samples.specs.declared.ssix.TheConstants.{NAMES, SUBSEGMENT, WIDTHS};
ghost use Rattle.mp4_frame.specs.declared.codes.TheConstants as codes;
ghost use Rattle.mp4_declared.specs.DeclaredEntry.{exact_layout_of};
ghost use Rattle.mp4_declared.specs.OwnBox.{layout_of};
ghost use Rattle.mp4_declared.specs.Layout.{packed, fields_of};
ghost use Rattle.mp4_shown.specs.Lists.{entry_of};
ghost use Rattle.mp4_shown.specs.Members.{whole_entry};
ghost use Rattle.std.proofs.Common.{refl, lit<};

use mp4_declared::declaring::*;
use mp4_declared::{Context, clone_each};
use mp4_frame::{Result, codes};
use mp4_shown::taken::{self, Object, TakeEntry, TakeFields, TakeShape, take_declared, take_entry};
use mp4_shown::{
    FLAGS, FieldSink, HasFields, NamedShape, NumberName, ShowShape, ShownEntry, VERSION, View,
    list, names_of, number,
};
use std::alloc::Global;

/// A range of the bytes of a subsegment, which follows the range before it.
#[derive(Clone, Copy, Debug, Default, PartialEq, Eq)]
pub struct SsixRange {
    /// The level of the bytes, which a `leva` describes.
    pub level: u8,
    /// The number of bytes. 24 bits.
    pub range_size: u32,
}

/// The widths of the fields, in bits.
const WIDTHS: [u8; 2] = [8, 24];

impl EntryLayout<2, 4> for SsixRange {
    ghost use Rattle.mp4_extra_samples.specs.contracts.ssix.SsixRange.{struct};

    ghost layout = { packed (fields_of WIDTHS) struct.as_values (λ v. struct.make v tt) (λ _. refl) (λ _. refl) refl };

    fn widths() -> [u8; 2] {
        WIDTHS
    }

    fn numbers(&self) -> [u64; 2] {
        numbers_of!(self => level, range_size)
    }

    fn from_numbers(n: &[u64; 2]) -> SsixRange {
        entry_of!(n => SsixRange { level: u8, range_size: u32 })
    }

    ghost few = { lit< tt };
}

/// A subsegment, divided into ranges.
#[derive(Debug, Drop, PartialEq, Eq)]
pub struct SsixSubsegment {
    /// The ranges, at most 2^32 - 1.
    pub ranges: Entries<SsixRange>,
}

/// The layout of a subsegment: a count of 32 bits, and that many ranges.
pub type SsixSubsegmentShape = Last<List<U32, SsixRange, 2, 4>>;

impl DeclaredEntry for SsixSubsegment {
    ghost use Rattle.mp4_extra_samples.specs.contracts.ssix.SsixSubsegment.{struct};

    type Shape = SsixSubsegmentShape;

    ghost layout = { exact_layout_of struct (λ _. tt) (λ _. refl) };

    fn from_content(found: <SsixSubsegmentShape as Shape>::Value) -> SsixSubsegment {
        box_of!(found => SsixSubsegment { ranges })
    }

    fn visit<Q: EntryVisitor<Self::Shape>>(&self, question: Q, out: &mut [u8]) -> Q::Answer {
        question.visit(parts_of!(self => ranges.as_slice()), out)
    }

    ghost begins = { λ _. lit< tt };
}

/// The names of the fields of a range.
const RANGE: &[NumberName] = &[number!("level"), number!("range_size")];

/// The names of the fields of a subsegment.
const SUBSEGMENT: &<SsixSubsegmentShape as NamedShape>::Names = &names_of!((
    list!("ranges", Counted, "range_count"),
    RANGE
));

impl ShownEntry for SsixSubsegment {
    ghost shown = { λ view x. entry_of (⟦<SsixSubsegmentShape as NamedShape>⟧.shown SUBSEGMENT.now view
        (⟦<SsixSubsegment as DeclaredEntry>⟧.layout.content x)) };

    ghost whole = { λ view x. whole_entry (⟦<SsixSubsegmentShape as NamedShape>⟧.shown SUBSEGMENT.now view
        (⟦<SsixSubsegment as DeclaredEntry>⟧.layout.content x))
        (⟦<SsixSubsegmentShape as NamedShape>⟧.whole SUBSEGMENT.now view
        (⟦<SsixSubsegment as DeclaredEntry>⟧.layout.content x)) };

    fn show<K: FieldSink>(&self, view: View, sink: &mut K) -> mp4_shown::Result<()> {
        sink.begin_entry()?;
        SsixSubsegmentShape::show(
            SUBSEGMENT,
            view,
            &parts_of!(self => ranges.as_slice()),
            sink,
        )?;
        sink.end_entry()
    }
}

impl TakeEntry for SsixSubsegment {
    ghost taken = { λ c j. entry_made ⟦<SsixSubsegment as DeclaredEntry>⟧.layout.value
        (⟦<SsixSubsegmentShape as TakeShape>⟧.taken SUBSEGMENT.now c) j };

    fn take(
        alloc: Global,
        context: Context,
        value: json::Value<'_>,
    ) -> taken::Result<SsixSubsegment> {
        take_entry::<SsixSubsegment, SsixSubsegmentShape>(alloc, SUBSEGMENT, context, value)
    }
}

impl TryClone for SsixSubsegment {
    fn try_clone(&self) -> Result<SsixSubsegment> {
        Ok(SsixSubsegment {
            ranges: self.ranges.try_clone()?,
        })
    }
}

/// The levels of the bytes of subsegments (`ssix`, ISO/IEC 14496-12, 8.16.4).
#[derive(Debug, Drop, PartialEq, Eq)]
pub struct Ssix {
    /// 0 in the standard.
    pub version: u8,
    /// 24 bits, 0 in the standard.
    pub flags: u32,
    /// The subsegments, in the order of the `sidx` before this box, at most 2^32 - 1.
    pub subsegments: Entries<SsixSubsegment>,
}

/// The content of the box: version, flags, a count of 32 bits, and that many subsegments.
pub type SsixShape = Full<1, Last<Each<U32, SsixSubsegment>>>;

impl DeclaredBox for Ssix {
    ghost use Rattle.mp4_extra_samples.specs.contracts.ssix.Ssix.{struct};

    type Shape = SsixShape;

    ghost CODE = { codes.SSIX };

    ghost layout = { layout_of struct (λ _. tt) (λ _. refl) (lit< tt) };

    const CODE: u32 = codes::SSIX;

    fn from_content(found: <SsixShape as Shape>::Value) -> Ssix {
        box_of!(found => Ssix { version, flags, subsegments })
    }

    fn visit<Q: ShapeVisitor<Self::Shape>>(&self, out: &mut [u8]) -> Q::Answer {
        let parts = parts_of!(self => version, flags, subsegments.as_slice());
        Q::visit(parts, out)
    }

    ghost valid = { refl };
}

/// The names of the fields.
const NAMES: &<SsixShape as NamedShape>::Names = &names_of!(
    VERSION,
    FLAGS,
    list!("subsegments", Counted, "subsegment_count")
);

impl HasFields for Ssix {
    ghost shown = { λ view b. ⟦<SsixShape as NamedShape>⟧.shown NAMES.now view
        (⟦<Ssix as DeclaredBox>⟧.layout.content b) };

    ghost whole = { λ view b. ⟦<SsixShape as NamedShape>⟧.whole NAMES.now view
        (⟦<Ssix as DeclaredBox>⟧.layout.content b) };

    fn show<K: FieldSink>(&self, view: View, sink: &mut K) -> mp4_shown::Result<()> {
        let parts = parts_of!(self => version, flags, subsegments.as_slice());
        SsixShape::show(NAMES, view, &parts, sink)
    }
}

impl TakeFields for Ssix {
    ghost taken = { declared_taken ⟦<Ssix as DeclaredBox>⟧.layout (⟦<SsixShape as TakeShape>⟧.taken NAMES.now) };

    fn take(alloc: Global, object: &mut Object<'_>) -> taken::Result<Ssix> {
        take_declared::<Ssix, SsixShape>(alloc, NAMES, object)
    }
}

impl TryClone for Ssix {
    fn try_clone(&self) -> Result<Ssix> {
        let alloc = *self.subsegments.allocator();
        let subsegments = clone_each(alloc, self.subsegments.as_slice())?;
        Ok(Ssix {
            subsegments,
            ..*self
        })
    }
}

/// The subsegment index box.
pub type SsixBox = Declared<Ssix>;
