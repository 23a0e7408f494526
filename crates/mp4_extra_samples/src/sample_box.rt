//! The box types of samples, fragments and segments as one enum.

ghost use Rattle.std.specs.Prelude.{◌≡◌, ◌+◌, ◌-◌, ◌≤◌, OnOk, OnErr, max};
ghost use Rattle.std.proofs.Common.{refl};
ghost use Rattle.mp4_frame.specs.Reading.{Answers};
ghost use Rattle.mp4_frame.specs.Members.{reading_known, Is};
ghost use Rattle.mp4_shown.specs.Catalogue.{code_document, inside, kind_of, kinds, shown, type_document, valid_as};
ghost use Rattle.mp4_shown.specs.Catalogue.{whole};
ghost use Rattle.json.specs.Json.{document};
ghost use Rattle.mp4_shown.specs.Taking.{TakesAs};
ghost use Rattle.mp4_shown.specs.CatalogueLaws.{by_code, members, named};
ghost use Rattle.mp4_extra_samples.specs.SampleBox.{sample_types, sample_of_code};
ghost use Rattle.mp4_extra_samples.specs.SampleBoxLaws.{sample_laws};
ghost use Rattle.mp4_extra_samples.specs.declared.sample_box.SampleType.TheVariants as types;
ghost use Rattle.mp4_extra_samples.specs.declared.sample_box.SampleBox.TheVariants as boxes;

use crate::cslg::{Cslg, CslgBox};
use crate::leva::{Leva, LevaBox};
use crate::mfro::{Mfro, MfroBox};
use crate::prft::{Prft, PrftBox};
use crate::saio::{Saio, SaioBox};
use crate::saiz::{Saiz, SaizBox};
use crate::sbgp::{Sbgp, SbgpBox};
use crate::sdtp::{Sdtp, SdtpBox};
use crate::senc::{Senc, SencBox};
use crate::sgpd::{Sgpd, SgpdBox};
use crate::sidx::{Sidx, SidxBox};
use crate::ssix::{Ssix, SsixBox};
use crate::styp::{Styp, StypBox};
use crate::stz2::{Stz2, Stz2Box};
use crate::subs::{Subs, SubsBox};
use crate::tfra::{Tfra, TfraBox};
use mp4_compose::CodedEnum;
use mp4_frame::{
    BoxEnum, BoxType, BoxVisitor, ByteCursor, Holds, Result, TryClone, clone_as, codes,
};
use mp4_shown::{
    Catalogued, Described, FieldSink, HasFields, View, each_held, print_held, read_declared,
    show_each, take_by_type, taken, type_by_code, types_held, visit_each,
};
use std::alloc::Global;
use std::fmt;

/// Calls a macro with the list of all box types in brackets, followed by the other arguments. Each has its fields, its
/// variant and its code.
macro_rules! of_boxes {
    ($go:ident, $($rest:tt)*) => {
        $go! {
            [
                Cslg CslgBox codes::CSLG,
                Leva LevaBox codes::LEVA,
                Mfro MfroBox codes::MFRO,
                Prft PrftBox codes::PRFT,
                Saio SaioBox codes::SAIO,
                Saiz SaizBox codes::SAIZ,
                Sbgp SbgpBox codes::SBGP,
                Sdtp SdtpBox codes::SDTP,
                Senc SencBox codes::SENC,
                Sgpd SgpdBox codes::SGPD,
                Sidx SidxBox codes::SIDX,
                Ssix SsixBox codes::SSIX,
                Styp StypBox codes::STYP,
                Stz2 Stz2Box codes::STZ2,
                Subs SubsBox codes::SUBS,
                Tfra TfraBox codes::TFRA
            ]
            $($rest)*
        }
    };
}

/// Matches on a type with an arm for each type, which reads a box of this type as a value of `$enum`.
macro_rules! read_by_type {
    ([$($fields:ident $held:ident $($code:ident)::+),*] $types:ident, $enum:ident, $of:expr, $values:tt) => {
        match $of {
            $($types::$held => read_declared::<$fields, $enum> $values,)*
        }
    };
}

/// A box of samples, fragments and segments.
#[derive(Drop, PartialEq, Eq)]
pub enum SampleBox {
    CslgBox(CslgBox),
    LevaBox(LevaBox),
    MfroBox(MfroBox),
    PrftBox(PrftBox),
    SaioBox(SaioBox),
    SaizBox(SaizBox),
    SbgpBox(SbgpBox),
    SdtpBox(SdtpBox),
    SencBox(SencBox),
    SgpdBox(SgpdBox),
    SidxBox(SidxBox),
    SsixBox(SsixBox),
    StypBox(StypBox),
    Stz2Box(Stz2Box),
    SubsBox(SubsBox),
    TfraBox(TfraBox),
}

/// A type of boxes that a `SampleBox` holds.
#[derive(Clone, Copy)]
pub enum SampleType {
    CslgBox,
    LevaBox,
    MfroBox,
    PrftBox,
    SaioBox,
    SaizBox,
    SbgpBox,
    SdtpBox,
    SencBox,
    SgpdBox,
    SidxBox,
    SsixBox,
    StypBox,
    Stz2Box,
    SubsBox,
    TfraBox,
}

/// For the prover: all types.
const TYPES: &[SampleType] = of_boxes!(types_held, SampleType);

/// Returns the type of the boxes with the code `code`, if there is one.
#[tactic(auto, unfolding(crate::specs::SampleBox::sample_of_code))]
fn type_of(code: u32) -> Option<SampleType>
    ensures { result ≡ sample_of_code code }
{
    of_boxes!(type_by_code, SampleType, code)
}

impl fmt::Debug for SampleBox {
    fn fmt<W: fmt::Write>(&self, f: &mut fmt::Formatter<W>) -> fmt::Result {
        of_boxes!(print_held, SampleBox, self, f)
    }
}

impl TryClone for SampleBox {
    fn try_clone(&self) -> Result<SampleBox> {
        of_boxes!(each_held, SampleBox, self, b => clone_as(b))
    }
}

impl Catalogued for SampleBox {
    type Of = SampleType;

    ghost catalogue = { sample_types };

    ghost declared = { elim [
      | types.CslgBox ↦ valid_as ⟦<Cslg as Described>⟧.declaration refl
      | types.LevaBox ↦ valid_as ⟦<Leva as Described>⟧.declaration refl
      | types.MfroBox ↦ valid_as ⟦<Mfro as Described>⟧.declaration refl
      | types.PrftBox ↦ valid_as ⟦<Prft as Described>⟧.declaration refl
      | types.SaioBox ↦ valid_as ⟦<Saio as Described>⟧.declaration refl
      | types.SaizBox ↦ valid_as ⟦<Saiz as Described>⟧.declaration refl
      | types.SbgpBox ↦ valid_as ⟦<Sbgp as Described>⟧.declaration refl
      | types.SdtpBox ↦ valid_as ⟦<Sdtp as Described>⟧.declaration refl
      | types.SencBox ↦ valid_as ⟦<Senc as Described>⟧.declaration refl
      | types.SgpdBox ↦ valid_as ⟦<Sgpd as Described>⟧.declaration refl
      | types.SidxBox ↦ valid_as ⟦<Sidx as Described>⟧.declaration refl
      | types.SsixBox ↦ valid_as ⟦<Ssix as Described>⟧.declaration refl
      | types.StypBox ↦ valid_as ⟦<Styp as Described>⟧.declaration refl
      | types.Stz2Box ↦ valid_as ⟦<Stz2 as Described>⟧.declaration refl
      | types.SubsBox ↦ valid_as ⟦<Subs as Described>⟧.declaration refl
      | types.TfraBox ↦ valid_as ⟦<Tfra as Described>⟧.declaration refl
    ] };
}

/// Reads a box of type `of` after its header, like `BoxEnum::read`. The header has this `size`.
fn read_of(of: SampleType, alloc: Global, reader: &mut ByteCursor, size: u64) -> Result<SampleBox>
    requires after_header { 8 ≤ reader.old.position }
    ensures answer { Answers result
        (reading_known (Is (kind_of sample_types ⟦<SampleBox as Catalogued>⟧.declared of))
        reader.old.bytes.now (reader.old.position - 8) size) }
    ensures moved { OnOk result (reader.new.position ≡ reader.old.position - 8 + max 0 size) }
    ensures kept { OnErr result (reader.new.position ≡ reader.old.position) }
    ensures bytes { reader.new.bytes ≡ reader.old.bytes }
{
    of_boxes!(
        read_by_type,
        SampleType,
        SampleBox,
        of,
        (alloc, reader, size)
    )
}

/// Returns the box of the type `of` whose JSON is `text`.
fn take_of(of: SampleType, alloc: Global, text: &str) -> taken::Result<SampleBox>
    ensures { TakesAs (λ b. b) result
        (type_document sample_types ⟦<SampleBox as Catalogued>⟧.declared of (document text.now)) }
{
    of_boxes!(take_by_type, SampleType, SampleBox, of, alloc, text)
}

impl SampleBox {
    /// Returns the box with the code `code` whose JSON is `text`: an object with its fields, in any order. Returns
    /// `None` if no type has this code.
    pub fn from_json(alloc: Global, code: u32, text: &str) -> taken::Result<Option<SampleBox>>
        ensures { TakesAs (λ b. b) result
            (code_document sample_types ⟦<SampleBox as Catalogued>⟧.declared code (document text.now)) }
    {
        match type_of(code) {
            Some(of) => Ok(Some(take_of(of, alloc, text)?)),
            None => Ok(None),
        }
    }
}

impl BoxEnum for SampleBox {
    ghost kinds = { kinds sample_types ⟦<SampleBox as Catalogued>⟧.declared };

    ghost inside = { inside sample_types ⟦<SampleBox as Catalogued>⟧.declared };

    ghost members = { members sample_types sample_laws ⟦<SampleBox as Catalogued>⟧.declared };

    fn holds(name: BoxType) -> bool {
        type_of(u32::from(name)).is_some()
    }

    fn read(alloc: Global, name: BoxType, reader: &mut ByteCursor, size: u64) -> Result<Self> {
        match type_of(u32::from(name)) {
            Some(of) => read_of(of, alloc, reader, size),
            None => unreachable!(),
        }
    }

    fn visit<Q: BoxVisitor>(&self, out: &mut [u8]) -> Q::Answer {
        of_boxes!(visit_each, Q, SampleBox, self, out)
    }

    ghost named = { named sample_types sample_laws ⟦<SampleBox as Catalogued>⟧.declared };
}

/// The code identifies the type of a box.
impl CodedEnum for SampleBox {
    ghost coded = { by_code sample_types sample_laws ⟦<SampleBox as Catalogued>⟧.declared };
}

/// Shows the fields of the box inside.
impl HasFields for SampleBox {
    ghost shown = { shown sample_types ⟦<SampleBox as Catalogued>⟧.declared };

    ghost whole = { whole sample_types ⟦<SampleBox as Catalogued>⟧.declared };

    fn show<K: FieldSink>(&self, view: View, sink: &mut K) -> mp4_shown::Result<()> {
        of_boxes!(show_each, K, SampleBox, self, view, sink)
    }
}

impl Holds<CslgBox> for SampleBox {
    ghost wrapped = { boxes.CslgBox };

    fn wrap(value: CslgBox) -> SampleBox {
        SampleBox::CslgBox(value)
    }
}

impl Holds<LevaBox> for SampleBox {
    ghost wrapped = { boxes.LevaBox };

    fn wrap(value: LevaBox) -> SampleBox {
        SampleBox::LevaBox(value)
    }
}

impl Holds<MfroBox> for SampleBox {
    ghost wrapped = { boxes.MfroBox };

    fn wrap(value: MfroBox) -> SampleBox {
        SampleBox::MfroBox(value)
    }
}

impl Holds<PrftBox> for SampleBox {
    ghost wrapped = { boxes.PrftBox };

    fn wrap(value: PrftBox) -> SampleBox {
        SampleBox::PrftBox(value)
    }
}

impl Holds<SaioBox> for SampleBox {
    ghost wrapped = { boxes.SaioBox };

    fn wrap(value: SaioBox) -> SampleBox {
        SampleBox::SaioBox(value)
    }
}

impl Holds<SaizBox> for SampleBox {
    ghost wrapped = { boxes.SaizBox };

    fn wrap(value: SaizBox) -> SampleBox {
        SampleBox::SaizBox(value)
    }
}

impl Holds<SbgpBox> for SampleBox {
    ghost wrapped = { boxes.SbgpBox };

    fn wrap(value: SbgpBox) -> SampleBox {
        SampleBox::SbgpBox(value)
    }
}

impl Holds<SdtpBox> for SampleBox {
    ghost wrapped = { boxes.SdtpBox };

    fn wrap(value: SdtpBox) -> SampleBox {
        SampleBox::SdtpBox(value)
    }
}

impl Holds<SencBox> for SampleBox {
    ghost wrapped = { boxes.SencBox };

    fn wrap(value: SencBox) -> SampleBox {
        SampleBox::SencBox(value)
    }
}

impl Holds<SgpdBox> for SampleBox {
    ghost wrapped = { boxes.SgpdBox };

    fn wrap(value: SgpdBox) -> SampleBox {
        SampleBox::SgpdBox(value)
    }
}

impl Holds<SidxBox> for SampleBox {
    ghost wrapped = { boxes.SidxBox };

    fn wrap(value: SidxBox) -> SampleBox {
        SampleBox::SidxBox(value)
    }
}

impl Holds<SsixBox> for SampleBox {
    ghost wrapped = { boxes.SsixBox };

    fn wrap(value: SsixBox) -> SampleBox {
        SampleBox::SsixBox(value)
    }
}

impl Holds<StypBox> for SampleBox {
    ghost wrapped = { boxes.StypBox };

    fn wrap(value: StypBox) -> SampleBox {
        SampleBox::StypBox(value)
    }
}

impl Holds<Stz2Box> for SampleBox {
    ghost wrapped = { boxes.Stz2Box };

    fn wrap(value: Stz2Box) -> SampleBox {
        SampleBox::Stz2Box(value)
    }
}

impl Holds<SubsBox> for SampleBox {
    ghost wrapped = { boxes.SubsBox };

    fn wrap(value: SubsBox) -> SampleBox {
        SampleBox::SubsBox(value)
    }
}

impl Holds<TfraBox> for SampleBox {
    ghost wrapped = { boxes.TfraBox };

    fn wrap(value: TfraBox) -> SampleBox {
        SampleBox::TfraBox(value)
    }
}
