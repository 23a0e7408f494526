//! The sample auxiliary information offsets box.

ghost use Rattle.mp4_shown.specs.TakenShapes.{declared_taken};
ghost use Rattle.mp4_extra_samples.specs.declared.saio.TheConstants.{LONG, NAMES, SHORT};
ghost use Rattle.mp4_frame.specs.declared.codes.TheConstants as codes;
ghost use Rattle.std.proofs.Common.{refl, lit<};
ghost use Rattle.mp4_declared.specs.OwnBox.{layout_of};
ghost use Rattle.mp4_declared.specs.Layout.{packed, fields_of};

use mp4_declared::{
    Code, Declared, DeclaredBox, EntryLayout, Full, If, IfFlags, Last, ListByVersion, Shape,
    ShapeVisitor, U32, box_of, entry_of, numbers_of, parts_of,
};
use mp4_frame::{Entries, FourCC, Result, TryClone, codes};
use mp4_shown::taken::{self, Object, TakeFields, TakeShape, take_declared};
use mp4_shown::{
    FieldSink, HasFields, Meaning, NamedShape, NumberName, ShowShape, VERSION, View, list,
    names_of, number,
};
use std::alloc::Global;

/// The start of a piece of auxiliary information.
#[derive(Clone, Copy, Debug, Default, PartialEq, Eq)]
pub struct SaioOffset {
    /// The offset in the file, or for a fragment from the base of its data offsets. 32 bits in version 0.
    pub offset: u64,
}

/// The width of an offset in version 0, in bits.
const SHORT: [u8; 1] = [32];

impl EntryLayout<1, 4> for SaioOffset {
    ghost use Rattle.mp4_extra_samples.specs.contracts.saio.SaioOffset.{struct};

    ghost layout = { packed (fields_of SHORT) struct.as_values (λ v. struct.make v tt) (λ _. refl) (λ _. refl) refl };

    fn widths() -> [u8; 1] {
        SHORT
    }

    fn numbers(&self) -> [u64; 1] {
        numbers_of!(self => offset)
    }

    fn from_numbers(n: &[u64; 1]) -> SaioOffset {
        entry_of!(n => SaioOffset { offset: u64 })
    }

    ghost few = { lit< tt };
}

/// The width of an offset in version 1, in bits.
const LONG: [u8; 1] = [64];

impl EntryLayout<1, 8> for SaioOffset {
    ghost use Rattle.mp4_extra_samples.specs.contracts.saio.SaioOffset.{struct};

    ghost layout = { packed (fields_of LONG) struct.as_values (λ v. struct.make v tt) (λ _. refl) (λ _. refl) refl };

    fn widths() -> [u8; 1] {
        LONG
    }

    fn numbers(&self) -> [u64; 1] {
        numbers_of!(self => offset)
    }

    fn from_numbers(n: &[u64; 1]) -> SaioOffset {
        entry_of!(n => SaioOffset { offset: u64 })
    }

    ghost few = { lit< tt };
}

/// A count of 32 bits and that many offsets, of 32 bits in version 0 and of 64 in version 1.
pub type SaioOffsets = ListByVersion<U32, SaioOffset, 1, 4, 8>;

/// The offsets of the samples' auxiliary information (`saio`, ISO/IEC 14496-12, 8.7.9). A `saiz` has its sizes.
#[derive(Debug, Drop, PartialEq, Eq)]
pub struct Saio {
    /// 0, or 1 for offsets of 64 bits.
    pub version: u8,
    /// 24 bits. Flag 1 means that `aux_info_type` and `aux_info_type_parameter` are present.
    pub flags: u32,
    /// The type of the information, as in the `saiz`. `None` unless flag 1 is set.
    pub aux_info_type: Option<FourCC>,
    /// A number that distinguishes information of the same type; the type defines it. `None` unless flag 1 is set.
    pub aux_info_type_parameter: Option<u32>,
    /// The offsets of the information of each chunk, or of each run of a fragment. Only one if all of it is contiguous.
    pub offsets: Entries<SaioOffset>,
}

/// The content of the box: version, flags, a code and a number if flag 1 is set, a count of 32 bits, and that many
/// offsets. Offsets are longer in version 1.
pub type SaioShape = Full<2, (If<IfFlags<1>, Code>, If<IfFlags<1>, U32>, Last<SaioOffsets>)>;

impl DeclaredBox for Saio {
    ghost use Rattle.mp4_extra_samples.specs.contracts.saio.Saio.{struct};

    type Shape = SaioShape;

    ghost CODE = { codes.SAIO };

    ghost layout = { layout_of struct (λ _. tt) (λ _. refl) (lit< tt) };

    const CODE: u32 = codes::SAIO;

    fn from_content(found: <SaioShape as Shape>::Value) -> Saio {
        box_of!(found => Saio { version, flags, aux_info_type, aux_info_type_parameter, offsets })
    }

    fn visit<Q: ShapeVisitor<Self::Shape>>(&self, out: &mut [u8]) -> Q::Answer {
        let parts = parts_of!(self => version, flags, aux_info_type, aux_info_type_parameter,
            offsets.as_slice());
        Q::visit(parts, out)
    }

    ghost valid = { refl };
}

/// The flags of the box.
const AUXILIARY_FLAGS: &[Meaning] = &[(0x1, "aux_info_type")];

/// The name of an offset, which isn't shown.
const OFFSET: &[NumberName] = &[number!("offset")];

/// The names of the fields.
const NAMES: &<SaioShape as NamedShape>::Names = &names_of!(
    VERSION,
    number!("flags", Flags(6), AUXILIARY_FLAGS),
    "aux_info_type",
    number!("aux_info_type_parameter"),
    (list!("offset", Items), OFFSET)
);

impl HasFields for Saio {
    ghost shown = { λ view b. ⟦<SaioShape as NamedShape>⟧.shown NAMES.now view
        (⟦<Saio as DeclaredBox>⟧.layout.content b) };

    ghost whole = { λ view b. ⟦<SaioShape as NamedShape>⟧.whole NAMES.now view
        (⟦<Saio as DeclaredBox>⟧.layout.content b) };

    fn show<K: FieldSink>(&self, view: View, sink: &mut K) -> mp4_shown::Result<()> {
        let parts = parts_of!(self => version, flags, aux_info_type, aux_info_type_parameter,
            offsets.as_slice());
        SaioShape::show(NAMES, view, &parts, sink)
    }
}

impl TakeFields for Saio {
    ghost taken = { declared_taken ⟦<Saio as DeclaredBox>⟧.layout (⟦<SaioShape as TakeShape>⟧.taken NAMES.now) };

    fn take(alloc: Global, object: &mut Object<'_>) -> taken::Result<Saio> {
        take_declared::<Saio, SaioShape>(alloc, NAMES, object)
    }
}

impl TryClone for Saio {
    fn try_clone(&self) -> Result<Saio> {
        let offsets = self.offsets.try_clone()?;
        Ok(Saio { offsets, ..*self })
    }
}

/// The sample auxiliary information offsets box.
pub type SaioBox = Declared<Saio>;
