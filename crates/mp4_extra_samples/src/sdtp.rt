//! The independent and disposable samples box.

ghost use Rattle.mp4_shown.specs.TakenShapes.{declared_taken};
ghost use Rattle.mp4_extra_samples.specs.declared.sdtp.TheConstants.{NAMES, WIDTHS};
ghost use Rattle.mp4_frame.specs.declared.codes.TheConstants as codes;
ghost use Rattle.std.proofs.Common.{refl, lit<};
ghost use Rattle.mp4_declared.specs.OwnBox.{layout_of};
ghost use Rattle.mp4_declared.specs.Layout.{packed, fields_of};

use mp4_declared::{
    Declared, DeclaredBox, EntryLayout, Full, Last, Shape, ShapeVisitor, ToEnd, box_of, entry_of,
    numbers_of, parts_of,
};
use mp4_frame::{Entries, Result, TryClone, codes};
use mp4_shown::taken::{self, Object, TakeFields, TakeShape, take_declared};
use mp4_shown::{
    FLAGS, FieldSink, HasFields, NamedShape, NumberName, ShowShape, VERSION, View, list, names_of,
    number,
};
use std::alloc::Global;

/// The dependencies of a sample on others. Every field is 0 if the answer is unknown.
#[derive(Clone, Copy, Debug, Default, PartialEq, Eq)]
pub struct SdtpEntry {
    /// 1 if the sample is shown before the access point that it follows and cannot be decoded starting there, 2 if it
    /// is not shown before that point, 3 if it is and can be decoded. 2 bits.
    pub is_leading: u8,
    /// 1 if decoding the sample needs other samples, 2 if not. 2 bits.
    pub sample_depends_on: u8,
    /// 1 if decoding other samples needs the sample, 2 if not. 2 bits.
    pub sample_is_depended_on: u8,
    /// 1 if the sample has redundant coding, 2 if not. 2 bits.
    pub sample_has_redundancy: u8,
}

/// The widths of the fields, in bits.
const WIDTHS: [u8; 4] = [2, 2, 2, 2];

impl EntryLayout<4, 1> for SdtpEntry {
    ghost use Rattle.mp4_extra_samples.specs.contracts.sdtp.SdtpEntry.{struct};

    ghost layout = { packed (fields_of WIDTHS) struct.as_values (λ v. struct.make v tt) (λ _. refl) (λ _. refl) refl };

    fn widths() -> [u8; 4] {
        WIDTHS
    }

    fn numbers(&self) -> [u64; 4] {
        numbers_of!(self => is_leading, sample_depends_on, sample_is_depended_on, sample_has_redundancy)
    }

    fn from_numbers(n: &[u64; 4]) -> SdtpEntry {
        entry_of!(n => SdtpEntry { is_leading: u8, sample_depends_on: u8, sample_is_depended_on: u8,
            sample_has_redundancy: u8 })
    }

    ghost few = { lit< tt };
}

/// The dependencies between the samples of a track (`sdtp`, ISO/IEC 14496-12, 8.6.4.3).
#[derive(Debug, Drop, PartialEq, Eq)]
pub struct Sdtp {
    /// 0 in the standard.
    pub version: u8,
    /// 24 bits, 0 in the standard.
    pub flags: u32,
    /// An entry for each sample of the track or fragment, in order.
    pub entries: Entries<SdtpEntry>,
}

/// The content of the box: version, flags, and a byte for each sample, up to its end.
pub type SdtpShape = Full<1, Last<ToEnd<SdtpEntry, 4, 1>>>;

impl DeclaredBox for Sdtp {
    ghost use Rattle.mp4_extra_samples.specs.contracts.sdtp.Sdtp.{struct};

    type Shape = SdtpShape;

    ghost CODE = { codes.SDTP };

    ghost layout = { layout_of struct (λ _. tt) (λ _. refl) (lit< tt) };

    const CODE: u32 = codes::SDTP;

    fn from_content(found: <SdtpShape as Shape>::Value) -> Sdtp {
        box_of!(found => Sdtp { version, flags, entries })
    }

    fn visit<Q: ShapeVisitor<Self::Shape>>(&self, out: &mut [u8]) -> Q::Answer {
        Q::visit(parts_of!(self => version, flags, entries.as_slice()), out)
    }

    ghost valid = { refl };
}

/// The names of the fields of a sample.
const SAMPLE: &[NumberName] = &[
    number!("is_leading"),
    number!("sample_depends_on"),
    number!("sample_is_depended_on"),
    number!("sample_has_redundancy"),
];

/// The names of the fields.
const NAMES: &<SdtpShape as NamedShape>::Names = &names_of!(
    VERSION,
    FLAGS,
    (list!("entries"), SAMPLE)
);

impl HasFields for Sdtp {
    ghost shown = { λ view b. ⟦<SdtpShape as NamedShape>⟧.shown NAMES.now view
        (⟦<Sdtp as DeclaredBox>⟧.layout.content b) };

    ghost whole = { λ view b. ⟦<SdtpShape as NamedShape>⟧.whole NAMES.now view
        (⟦<Sdtp as DeclaredBox>⟧.layout.content b) };

    fn show<K: FieldSink>(&self, view: View, sink: &mut K) -> mp4_shown::Result<()> {
        let parts = parts_of!(self => version, flags, entries.as_slice());
        SdtpShape::show(NAMES, view, &parts, sink)
    }
}

impl TakeFields for Sdtp {
    ghost taken = { declared_taken ⟦<Sdtp as DeclaredBox>⟧.layout (⟦<SdtpShape as TakeShape>⟧.taken NAMES.now) };

    fn take(alloc: Global, object: &mut Object<'_>) -> taken::Result<Sdtp> {
        take_declared::<Sdtp, SdtpShape>(alloc, NAMES, object)
    }
}

impl TryClone for Sdtp {
    fn try_clone(&self) -> Result<Sdtp> {
        let entries = self.entries.try_clone()?;
        Ok(Sdtp { entries, ..*self })
    }
}

/// The independent and disposable samples box.
pub type SdtpBox = Declared<Sdtp>;
