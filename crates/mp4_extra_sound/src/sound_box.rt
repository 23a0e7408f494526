//! The box types of sound, text and hints as one enum.

ghost use Rattle.std.specs.Prelude.{◌≡◌, ◌+◌, ◌-◌, ◌≤◌, OnOk, OnErr, max};
ghost use Rattle.std.proofs.Common.{refl};
ghost use Rattle.mp4_frame.specs.Reading.{Answers};
ghost use Rattle.mp4_frame.specs.Members.{reading_known, Is};
ghost use Rattle.mp4_shown.specs.Catalogue.{code_document, inside, kind_of, kinds, shown, type_document, valid_as};
ghost use Rattle.mp4_shown.specs.Catalogue.{whole};
ghost use Rattle.json.specs.Json.{document};
ghost use Rattle.mp4_shown.specs.Taking.{TakesAs};
ghost use Rattle.mp4_shown.specs.CatalogueLaws.{by_code, members, named};
ghost use Rattle.mp4_extra_sound.specs.SoundBox.{sound_types, sound_of_code};
ghost use Rattle.mp4_extra_sound.specs.SoundBoxLaws.{sound_laws};
ghost use Rattle.mp4_extra_sound.specs.declared.sound_box.SoundType.TheVariants as types;
ghost use Rattle.mp4_extra_sound.specs.declared.sound_box.SoundBox.TheVariants as boxes;

use crate::alac::{Alac, AlacBox};
use crate::chan::{Chan, ChanBox};
use crate::chnl::{Chnl, ChnlBox};
use crate::dac3::{Dac3, Dac3Box};
use crate::dec3::{Dec3, Dec3Box};
use crate::dfla::{Dfla, DflaBox};
use crate::dops::{Dops, DopsBox};
use crate::enda::{Enda, EndaBox};
use crate::esds::{Esds, EsdsBox};
use crate::ftab;
use crate::ftab::{Ftab, FtabBox};
use crate::gmin::{Gmin, GminBox};
use crate::hmhd::{Hmhd, HmhdBox};
use crate::nmhd::{Nmhd, NmhdBox};
use crate::srat::{Srat, SratBox};
use crate::sthd::{Sthd, SthdBox};
use crate::stpp::{Stpp, StppBox};
use crate::tcmi::{Tcmi, TcmiBox};
use crate::text::{Text, TextBox};
use crate::tx3g::{Tx3g, Tx3gBox};
use crate::wvtt::{Wvtt, WvttBox};
use mp4_compose::CodedEnum;
use mp4_frame::{
    BoxEnum, BoxType, BoxVisitor, ByteCursor, Holds, Result, TryClone, clone_as, codes,
};
use mp4_shown::{
    Catalogued, Described, FieldSink, HasFields, View, each_held, print_held, read_declared,
    show_each, take_by_type, taken, type_by_code, types_held, visit_each,
};
use std::alloc::Global;
use std::fmt;

/// Calls a macro with the list of all box types in brackets, followed by the other arguments. Each has its fields, its
/// variant and its code.
macro_rules! of_boxes {
    ($go:ident, $($rest:tt)*) => {
        $go! {
            [
                Alac AlacBox codes::ALAC,
                Chan ChanBox codes::CHAN,
                Chnl ChnlBox codes::CHNL,
                Dac3 Dac3Box codes::DAC3,
                Dec3 Dec3Box codes::DEC3,
                Dfla DflaBox codes::DFLA,
                Dops DopsBox codes::DOPS,
                Enda EndaBox codes::ENDA,
                Esds EsdsBox codes::ESDS,
                Ftab FtabBox ftab::FTAB,
                Gmin GminBox codes::GMIN,
                Hmhd HmhdBox codes::HMHD,
                Nmhd NmhdBox codes::NMHD,
                Srat SratBox codes::SRAT,
                Sthd SthdBox codes::STHD,
                Stpp StppBox codes::STPP,
                Tcmi TcmiBox codes::TCMI,
                Text TextBox codes::TEXT,
                Tx3g Tx3gBox codes::TX3G,
                Wvtt WvttBox codes::WVTT
            ]
            $($rest)*
        }
    };
}

/// Matches on a type with an arm for each type, which reads a box of this type as a value of `$enum`.
macro_rules! read_by_type {
    ([$($fields:ident $held:ident $($code:ident)::+),*] $types:ident, $enum:ident, $of:expr, $values:tt) => {
        match $of {
            $($types::$held => read_declared::<$fields, $enum> $values,)*
        }
    };
}

/// A box of sound, text and hints: how they are coded, and the headers of their media.
#[derive(Drop, PartialEq, Eq)]
pub enum SoundBox {
    AlacBox(AlacBox),
    ChanBox(ChanBox),
    ChnlBox(ChnlBox),
    Dac3Box(Dac3Box),
    Dec3Box(Dec3Box),
    DflaBox(DflaBox),
    DopsBox(DopsBox),
    EndaBox(EndaBox),
    EsdsBox(EsdsBox),
    FtabBox(FtabBox),
    GminBox(GminBox),
    HmhdBox(HmhdBox),
    NmhdBox(NmhdBox),
    SratBox(SratBox),
    SthdBox(SthdBox),
    StppBox(StppBox),
    TcmiBox(TcmiBox),
    TextBox(TextBox),
    Tx3gBox(Tx3gBox),
    WvttBox(WvttBox),
}

/// A type of boxes that a `SoundBox` holds.
#[derive(Clone, Copy)]
pub enum SoundType {
    AlacBox,
    ChanBox,
    ChnlBox,
    Dac3Box,
    Dec3Box,
    DflaBox,
    DopsBox,
    EndaBox,
    EsdsBox,
    FtabBox,
    GminBox,
    HmhdBox,
    NmhdBox,
    SratBox,
    SthdBox,
    StppBox,
    TcmiBox,
    TextBox,
    Tx3gBox,
    WvttBox,
}

/// For the prover: all types.
const TYPES: &[SoundType] = of_boxes!(types_held, SoundType);

/// Returns the type of the boxes with the code `code`, if there is one.
#[tactic(auto, unfolding(crate::specs::SoundBox::sound_of_code))]
fn type_of(code: u32) -> Option<SoundType>
    ensures { result ≡ sound_of_code code }
{
    of_boxes!(type_by_code, SoundType, code)
}

impl fmt::Debug for SoundBox {
    fn fmt<W: fmt::Write>(&self, f: &mut fmt::Formatter<W>) -> fmt::Result {
        of_boxes!(print_held, SoundBox, self, f)
    }
}

impl TryClone for SoundBox {
    fn try_clone(&self) -> Result<SoundBox> {
        of_boxes!(each_held, SoundBox, self, b => clone_as(b))
    }
}

impl Catalogued for SoundBox {
    type Of = SoundType;

    ghost catalogue = { sound_types };

    ghost declared = { elim [
      | types.AlacBox ↦ valid_as ⟦<Alac as Described>⟧.declaration refl
      | types.ChanBox ↦ valid_as ⟦<Chan as Described>⟧.declaration refl
      | types.ChnlBox ↦ valid_as ⟦<Chnl as Described>⟧.declaration refl
      | types.Dac3Box ↦ valid_as ⟦<Dac3 as Described>⟧.declaration refl
      | types.Dec3Box ↦ valid_as ⟦<Dec3 as Described>⟧.declaration refl
      | types.DflaBox ↦ valid_as ⟦<Dfla as Described>⟧.declaration refl
      | types.DopsBox ↦ valid_as ⟦<Dops as Described>⟧.declaration refl
      | types.EndaBox ↦ valid_as ⟦<Enda as Described>⟧.declaration refl
      | types.EsdsBox ↦ valid_as ⟦<Esds as Described>⟧.declaration refl
      | types.FtabBox ↦ valid_as ⟦<Ftab as Described>⟧.declaration refl
      | types.GminBox ↦ valid_as ⟦<Gmin as Described>⟧.declaration refl
      | types.HmhdBox ↦ valid_as ⟦<Hmhd as Described>⟧.declaration refl
      | types.NmhdBox ↦ valid_as ⟦<Nmhd as Described>⟧.declaration refl
      | types.SratBox ↦ valid_as ⟦<Srat as Described>⟧.declaration refl
      | types.SthdBox ↦ valid_as ⟦<Sthd as Described>⟧.declaration refl
      | types.StppBox ↦ valid_as ⟦<Stpp as Described>⟧.declaration refl
      | types.TcmiBox ↦ valid_as ⟦<Tcmi as Described>⟧.declaration refl
      | types.TextBox ↦ valid_as ⟦<Text as Described>⟧.declaration refl
      | types.Tx3gBox ↦ valid_as ⟦<Tx3g as Described>⟧.declaration refl
      | types.WvttBox ↦ valid_as ⟦<Wvtt as Described>⟧.declaration refl
    ] };
}

/// Reads a box of type `of` after its header, like `BoxEnum::read`. The header has this `size`.
fn read_of(of: SoundType, alloc: Global, reader: &mut ByteCursor, size: u64) -> Result<SoundBox>
    requires after_header { 8 ≤ reader.old.position }
    ensures answer { Answers result
        (reading_known (Is (kind_of sound_types ⟦<SoundBox as Catalogued>⟧.declared of))
        reader.old.bytes.now (reader.old.position - 8) size) }
    ensures moved { OnOk result (reader.new.position ≡ reader.old.position - 8 + max 0 size) }
    ensures kept { OnErr result (reader.new.position ≡ reader.old.position) }
    ensures bytes { reader.new.bytes ≡ reader.old.bytes }
{
    of_boxes!(read_by_type, SoundType, SoundBox, of, (alloc, reader, size))
}

/// Returns the box of the type `of` whose JSON is `text`.
fn take_of(of: SoundType, alloc: Global, text: &str) -> taken::Result<SoundBox>
    ensures { TakesAs (λ b. b) result
        (type_document sound_types ⟦<SoundBox as Catalogued>⟧.declared of (document text.now)) }
{
    of_boxes!(take_by_type, SoundType, SoundBox, of, alloc, text)
}

impl SoundBox {
    /// Returns the box with the code `code` whose JSON is `text`: an object with its fields, in any order. Returns
    /// `None` if no type has this code.
    pub fn from_json(alloc: Global, code: u32, text: &str) -> taken::Result<Option<SoundBox>>
        ensures { TakesAs (λ b. b) result
            (code_document sound_types ⟦<SoundBox as Catalogued>⟧.declared code (document text.now)) }
    {
        match type_of(code) {
            Some(of) => Ok(Some(take_of(of, alloc, text)?)),
            None => Ok(None),
        }
    }
}

impl BoxEnum for SoundBox {
    ghost kinds = { kinds sound_types ⟦<SoundBox as Catalogued>⟧.declared };

    ghost inside = { inside sound_types ⟦<SoundBox as Catalogued>⟧.declared };

    ghost members = { members sound_types sound_laws ⟦<SoundBox as Catalogued>⟧.declared };

    fn holds(name: BoxType) -> bool {
        type_of(u32::from(name)).is_some()
    }

    fn read(alloc: Global, name: BoxType, reader: &mut ByteCursor, size: u64) -> Result<Self> {
        match type_of(u32::from(name)) {
            Some(of) => read_of(of, alloc, reader, size),
            None => unreachable!(),
        }
    }

    fn visit<Q: BoxVisitor>(&self, out: &mut [u8]) -> Q::Answer {
        of_boxes!(visit_each, Q, SoundBox, self, out)
    }

    ghost named = { named sound_types sound_laws ⟦<SoundBox as Catalogued>⟧.declared };
}

/// The code identifies the type of a box.
impl CodedEnum for SoundBox {
    ghost coded = { by_code sound_types sound_laws ⟦<SoundBox as Catalogued>⟧.declared };
}

/// Shows the fields of the box inside.
impl HasFields for SoundBox {
    ghost shown = { shown sound_types ⟦<SoundBox as Catalogued>⟧.declared };

    ghost whole = { whole sound_types ⟦<SoundBox as Catalogued>⟧.declared };

    fn show<K: FieldSink>(&self, view: View, sink: &mut K) -> mp4_shown::Result<()> {
        of_boxes!(show_each, K, SoundBox, self, view, sink)
    }
}

impl Holds<AlacBox> for SoundBox {
    ghost wrapped = { boxes.AlacBox };

    fn wrap(value: AlacBox) -> SoundBox {
        SoundBox::AlacBox(value)
    }
}

impl Holds<ChanBox> for SoundBox {
    ghost wrapped = { boxes.ChanBox };

    fn wrap(value: ChanBox) -> SoundBox {
        SoundBox::ChanBox(value)
    }
}

impl Holds<ChnlBox> for SoundBox {
    ghost wrapped = { boxes.ChnlBox };

    fn wrap(value: ChnlBox) -> SoundBox {
        SoundBox::ChnlBox(value)
    }
}

impl Holds<Dac3Box> for SoundBox {
    ghost wrapped = { boxes.Dac3Box };

    fn wrap(value: Dac3Box) -> SoundBox {
        SoundBox::Dac3Box(value)
    }
}

impl Holds<Dec3Box> for SoundBox {
    ghost wrapped = { boxes.Dec3Box };

    fn wrap(value: Dec3Box) -> SoundBox {
        SoundBox::Dec3Box(value)
    }
}

impl Holds<DflaBox> for SoundBox {
    ghost wrapped = { boxes.DflaBox };

    fn wrap(value: DflaBox) -> SoundBox {
        SoundBox::DflaBox(value)
    }
}

impl Holds<DopsBox> for SoundBox {
    ghost wrapped = { boxes.DopsBox };

    fn wrap(value: DopsBox) -> SoundBox {
        SoundBox::DopsBox(value)
    }
}

impl Holds<EndaBox> for SoundBox {
    ghost wrapped = { boxes.EndaBox };

    fn wrap(value: EndaBox) -> SoundBox {
        SoundBox::EndaBox(value)
    }
}

impl Holds<EsdsBox> for SoundBox {
    ghost wrapped = { boxes.EsdsBox };

    fn wrap(value: EsdsBox) -> SoundBox {
        SoundBox::EsdsBox(value)
    }
}

impl Holds<FtabBox> for SoundBox {
    ghost wrapped = { boxes.FtabBox };

    fn wrap(value: FtabBox) -> SoundBox {
        SoundBox::FtabBox(value)
    }
}

impl Holds<GminBox> for SoundBox {
    ghost wrapped = { boxes.GminBox };

    fn wrap(value: GminBox) -> SoundBox {
        SoundBox::GminBox(value)
    }
}

impl Holds<HmhdBox> for SoundBox {
    ghost wrapped = { boxes.HmhdBox };

    fn wrap(value: HmhdBox) -> SoundBox {
        SoundBox::HmhdBox(value)
    }
}

impl Holds<NmhdBox> for SoundBox {
    ghost wrapped = { boxes.NmhdBox };

    fn wrap(value: NmhdBox) -> SoundBox {
        SoundBox::NmhdBox(value)
    }
}

impl Holds<SratBox> for SoundBox {
    ghost wrapped = { boxes.SratBox };

    fn wrap(value: SratBox) -> SoundBox {
        SoundBox::SratBox(value)
    }
}

impl Holds<SthdBox> for SoundBox {
    ghost wrapped = { boxes.SthdBox };

    fn wrap(value: SthdBox) -> SoundBox {
        SoundBox::SthdBox(value)
    }
}

impl Holds<StppBox> for SoundBox {
    ghost wrapped = { boxes.StppBox };

    fn wrap(value: StppBox) -> SoundBox {
        SoundBox::StppBox(value)
    }
}

impl Holds<TcmiBox> for SoundBox {
    ghost wrapped = { boxes.TcmiBox };

    fn wrap(value: TcmiBox) -> SoundBox {
        SoundBox::TcmiBox(value)
    }
}

impl Holds<TextBox> for SoundBox {
    ghost wrapped = { boxes.TextBox };

    fn wrap(value: TextBox) -> SoundBox {
        SoundBox::TextBox(value)
    }
}

impl Holds<Tx3gBox> for SoundBox {
    ghost wrapped = { boxes.Tx3gBox };

    fn wrap(value: Tx3gBox) -> SoundBox {
        SoundBox::Tx3gBox(value)
    }
}

impl Holds<WvttBox> for SoundBox {
    ghost wrapped = { boxes.WvttBox };

    fn wrap(value: WvttBox) -> SoundBox {
        SoundBox::WvttBox(value)
    }
}
