//! The sample to group box.

ghost use Rattle.mp4_shown.specs.TakenShapes.{declared_taken};
ghost use Rattle.mp4_extra_samples.specs.declared.sbgp.TheConstants.{NAMES, WIDTHS};
ghost use Rattle.mp4_frame.specs.declared.codes.TheConstants as codes;
ghost use Rattle.std.proofs.Common.{refl, lit<};
ghost use Rattle.mp4_declared.specs.OwnBox.{layout_of};
ghost use Rattle.mp4_declared.specs.Layout.{packed, fields_of};

use mp4_declared::{
    Code, Declared, DeclaredBox, EntryLayout, FromVersion, Full, If, Last, List, Shape,
    ShapeVisitor, U32, box_of, entry_of, numbers_of, parts_of,
};
use mp4_frame::{Entries, FourCC, Result, TryClone, codes};
use mp4_shown::taken::{self, Object, TakeFields, TakeShape, take_declared};
use mp4_shown::{
    FLAGS, FieldSink, HasFields, NamedShape, NumberName, ShowShape, VERSION, View, list, names_of,
    number,
};
use std::alloc::Global;

/// A run of consecutive samples of one group.
#[derive(Clone, Copy, Debug, Default, PartialEq, Eq)]
pub struct SbgpEntry {
    /// The number of samples in the run.
    pub sample_count: u32,
    /// The number of the group's description in the `sgpd`, starting at 1; 0 if the samples are in no group. Numbers
    /// starting at 0x10001 are those of the `sgpd` in the same fragment.
    pub group_description_index: u32,
}

/// The widths of the fields, in bits.
const WIDTHS: [u8; 2] = [32, 32];

impl EntryLayout<2, 8> for SbgpEntry {
    ghost use Rattle.mp4_extra_samples.specs.contracts.sbgp.SbgpEntry.{struct};

    ghost layout = { packed (fields_of WIDTHS) struct.as_values (λ v. struct.make v tt) (λ _. refl) (λ _. refl) refl };

    fn widths() -> [u8; 2] {
        WIDTHS
    }

    fn numbers(&self) -> [u64; 2] {
        numbers_of!(self => sample_count, group_description_index)
    }

    fn from_numbers(n: &[u64; 2]) -> SbgpEntry {
        entry_of!(n => SbgpEntry { sample_count: u32, group_description_index: u32 })
    }

    ghost few = { lit< tt };
}

/// The assignment of samples to groups, for one kind of grouping (`sbgp`, ISO/IEC 14496-12, 8.9.2).
#[derive(Debug, Drop, PartialEq, Eq)]
pub struct Sbgp {
    /// 0, or 1 for a box with a `grouping_type_parameter`.
    pub version: u8,
    /// 24 bits, 0 in the standard.
    pub flags: u32,
    /// The kind of grouping, such as `roll`. An `sgpd` of the same kind describes the groups.
    pub grouping_type: FourCC,
    /// A number that distinguishes groupings of this kind. `None` in version 0.
    pub grouping_type_parameter: Option<u32>,
    /// The runs, in the order of the samples. Samples after the last run are in no group.
    pub entries: Entries<SbgpEntry>,
}

/// The content of the box: version, flags, a code, a number in version 1, a count of 32 bits, and that many runs.
pub type SbgpShape = Full<
    2,
    (
        Code,
        If<FromVersion<1>, U32>,
        Last<List<U32, SbgpEntry, 2, 8>>,
    ),
>;

impl DeclaredBox for Sbgp {
    ghost use Rattle.mp4_extra_samples.specs.contracts.sbgp.Sbgp.{struct};

    type Shape = SbgpShape;

    ghost CODE = { codes.SBGP };

    ghost layout = { layout_of struct (λ _. tt) (λ _. refl) (lit< tt) };

    const CODE: u32 = codes::SBGP;

    fn from_content(found: <SbgpShape as Shape>::Value) -> Sbgp {
        box_of!(found => Sbgp { version, flags, grouping_type, grouping_type_parameter, entries })
    }

    fn visit<Q: ShapeVisitor<Self::Shape>>(&self, out: &mut [u8]) -> Q::Answer {
        let parts = parts_of!(self => version, flags, grouping_type, grouping_type_parameter,
            entries.as_slice());
        Q::visit(parts, out)
    }

    ghost valid = { refl };
}

/// The names of the fields of a run of samples.
const RUN: &[NumberName] = &[number!("sample_count"), number!("group_description_index")];

/// The names of the fields.
const NAMES: &<SbgpShape as NamedShape>::Names = &names_of!(
    VERSION,
    FLAGS,
    "grouping_type",
    number!("grouping_type_parameter"),
    (list!("entries"), RUN)
);

impl HasFields for Sbgp {
    ghost shown = { λ view b. ⟦<SbgpShape as NamedShape>⟧.shown NAMES.now view
        (⟦<Sbgp as DeclaredBox>⟧.layout.content b) };

    ghost whole = { λ view b. ⟦<SbgpShape as NamedShape>⟧.whole NAMES.now view
        (⟦<Sbgp as DeclaredBox>⟧.layout.content b) };

    fn show<K: FieldSink>(&self, view: View, sink: &mut K) -> mp4_shown::Result<()> {
        let parts = parts_of!(self => version, flags, grouping_type, grouping_type_parameter,
            entries.as_slice());
        SbgpShape::show(NAMES, view, &parts, sink)
    }
}

impl TakeFields for Sbgp {
    ghost taken = { declared_taken ⟦<Sbgp as DeclaredBox>⟧.layout (⟦<SbgpShape as TakeShape>⟧.taken NAMES.now) };

    fn take(alloc: Global, object: &mut Object<'_>) -> taken::Result<Sbgp> {
        take_declared::<Sbgp, SbgpShape>(alloc, NAMES, object)
    }
}

impl TryClone for Sbgp {
    fn try_clone(&self) -> Result<Sbgp> {
        let entries = self.entries.try_clone()?;
        Ok(Sbgp { entries, ..*self })
    }
}

/// The sample to group box.
pub type SbgpBox = Declared<Sbgp>;
