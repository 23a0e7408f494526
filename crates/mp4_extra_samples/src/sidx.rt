//! The segment index box.

ghost use Rattle.mp4_shown.specs.TakenShapes.{declared_taken};
ghost use Rattle.mp4_extra_samples.specs.declared.sidx.TheConstants.{NAMES, WIDTHS};
ghost use Rattle.mp4_frame.specs.declared.codes.TheConstants as codes;
ghost use Rattle.mp4_declared.specs.OwnBox.{layout_of};
ghost use Rattle.mp4_declared.specs.Layout.{packed, fields_of};
ghost use Rattle.std.proofs.Common.{refl, lit<};

use mp4_declared::declaring::*;
use mp4_frame::{Result, codes};
use mp4_shown::taken::{self, Object, TakeFields, TakeShape, take_declared};
use mp4_shown::{
    FLAGS, FieldSink, HasFields, NamedShape, NumberName, ShowShape, VERSION, View, list, names_of,
    number,
};
use std::alloc::Global;

/// A reference of a segment index to a part of the media or to another index.
#[derive(Clone, Copy, Debug, Default, PartialEq, Eq)]
pub struct SidxEntry {
    /// True for a reference to another `sidx`, false for one to media.
    pub reference_type: bool,
    /// The number of bytes from the start of the referenced material to the start of the next reference's material; in
    /// the last reference, to the end of its material. 31 bits.
    pub referenced_size: u32,
    /// The duration of the referenced material, in the timescale of the index.
    pub subsegment_duration: u32,
    /// True if the referenced material starts with a stream access point.
    pub starts_with_sap: bool,
    /// The type of the first stream access point in the material; 0 if it is unknown. 3 bits.
    pub sap_type: u8,
    /// The time from the start of the material to that access point, in the timescale of the index. 28 bits.
    pub sap_delta_time: u32,
}

/// The widths of the fields, in bits. A field of one bit is a flag.
const WIDTHS: [u8; 6] = [1, 31, 32, 1, 3, 28];

impl EntryLayout<6, 12> for SidxEntry {
    ghost use Rattle.mp4_extra_samples.specs.contracts.sidx.SidxEntry.{struct};

    ghost layout = { packed (fields_of WIDTHS) struct.as_values (λ v. struct.make v tt) (λ _. refl) (λ _. refl) refl };

    fn widths() -> [u8; 6] {
        WIDTHS
    }

    fn numbers(&self) -> [u64; 6] {
        numbers_of!(self => reference_type, referenced_size, subsegment_duration, starts_with_sap, sap_type,
            sap_delta_time)
    }

    fn from_numbers(n: &[u64; 6]) -> SidxEntry {
        entry_of!(n => SidxEntry { reference_type: bool, referenced_size: u32, subsegment_duration: u32,
            starts_with_sap: bool, sap_type: u8, sap_delta_time: u32 })
    }

    ghost few = { lit< tt };
}

/// The sizes and durations of the parts of a segment (`sidx`, ISO/IEC 14496-12, 8.16.3).
#[derive(Debug, Drop, PartialEq, Eq)]
pub struct Sidx {
    /// 0, or 1 for `earliest_presentation_time` and `first_offset` of 64 bits.
    pub version: u8,
    /// 24 bits, 0 in the standard.
    pub flags: u32,
    /// The track that the index describes (`reference_ID`).
    pub reference_id: u32,
    /// The number of time units per second, for all times in the box.
    pub timescale: u32,
    /// The earliest presentation time of the first reference's material. 32 bits in version 0.
    pub earliest_presentation_time: u64,
    /// The number of bytes from the end of the box to the first reference's material. 32 bits in version 0.
    pub first_offset: u64,
    /// The references, in the order of their material. At most 65,535.
    pub entries: Entries<SidxEntry>,
}

type References = Reserved<2, Last<List<U16, SidxEntry, 6, 12>>>;

/// The content of the box: version, flags, four numbers, two reserved bytes, a count of 16 bits, and that many
/// references.
pub type SidxShape = Full<2, (U32, U32, Time, Time, References)>;

impl DeclaredBox for Sidx {
    ghost use Rattle.mp4_extra_samples.specs.contracts.sidx.Sidx.{struct};

    type Shape = SidxShape;

    ghost CODE = { codes.SIDX };

    ghost layout = { layout_of struct (λ _. tt) (λ _. refl) (lit< tt) };

    const CODE: u32 = codes::SIDX;

    fn from_content(found: <SidxShape as Shape>::Value) -> Sidx {
        box_of!(found => Sidx { version, flags, reference_id, timescale, earliest_presentation_time,
            first_offset, entries })
    }

    fn visit<Q: ShapeVisitor<Self::Shape>>(&self, out: &mut [u8]) -> Q::Answer {
        let parts = parts_of!(self => version, flags, reference_id, timescale,
            earliest_presentation_time, first_offset, entries.as_slice());
        Q::visit(parts, out)
    }

    ghost valid = { refl };
}

/// The names of the fields of a reference.
const REFERENCE: &[NumberName] = &[
    number!("reference_type"),
    number!("referenced_size"),
    number!("subsegment_duration"),
    number!("starts_with_SAP"),
    number!("SAP_type"),
    number!("SAP_delta_time"),
];

/// The names of the fields.
const NAMES: &<SidxShape as NamedShape>::Names = &names_of!(
    VERSION,
    FLAGS,
    number!("reference_ID"),
    number!("timescale"),
    number!("earliest_presentation_time"),
    number!("first_offset"),
    (list!("references"), REFERENCE)
);

impl HasFields for Sidx {
    ghost shown = { λ view b. ⟦<SidxShape as NamedShape>⟧.shown NAMES.now view
        (⟦<Sidx as DeclaredBox>⟧.layout.content b) };

    ghost whole = { λ view b. ⟦<SidxShape as NamedShape>⟧.whole NAMES.now view
        (⟦<Sidx as DeclaredBox>⟧.layout.content b) };

    fn show<K: FieldSink>(&self, view: View, sink: &mut K) -> mp4_shown::Result<()> {
        let parts = parts_of!(self => version, flags, reference_id, timescale,
            earliest_presentation_time, first_offset, entries.as_slice());
        SidxShape::show(NAMES, view, &parts, sink)
    }
}

impl TakeFields for Sidx {
    ghost taken = { declared_taken ⟦<Sidx as DeclaredBox>⟧.layout (⟦<SidxShape as TakeShape>⟧.taken NAMES.now) };

    fn take(alloc: Global, object: &mut Object<'_>) -> taken::Result<Sidx> {
        take_declared::<Sidx, SidxShape>(alloc, NAMES, object)
    }
}

impl TryClone for Sidx {
    fn try_clone(&self) -> Result<Sidx> {
        let entries = self.entries.try_clone()?;
        Ok(Sidx { entries, ..*self })
    }
}

/// The segment index box.
pub type SidxBox = Declared<Sidx>;
