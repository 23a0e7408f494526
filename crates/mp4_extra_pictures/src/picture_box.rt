//! The box types of pictures as one enum.

ghost use Rattle.std.specs.Prelude.{◌≡◌, ◌+◌, ◌-◌, ◌≤◌, OnOk, OnErr, max};
ghost use Rattle.std.proofs.Common.{refl};
ghost use Rattle.mp4_frame.specs.Reading.{Answers};
ghost use Rattle.mp4_frame.specs.Members.{reading_known, Is};
ghost use Rattle.mp4_shown.specs.Catalogue.{code_document, inside, kind_of, kinds, shown, type_document, valid_as};
ghost use Rattle.mp4_shown.specs.Catalogue.{whole};
ghost use Rattle.json.specs.Json.{document};
ghost use Rattle.mp4_shown.specs.Taking.{TakesAs};
ghost use Rattle.mp4_shown.specs.CatalogueLaws.{by_code, members, named};
ghost use Rattle.mp4_extra_pictures.specs.PictureBox.{picture_types, picture_of_code};
ghost use Rattle.mp4_extra_pictures.specs.PictureBoxLaws.{picture_laws};
ghost use Rattle.mp4_extra_pictures.specs.declared.picture_box.PictureType.TheVariants as types;
ghost use Rattle.mp4_extra_pictures.specs.declared.picture_box.PictureBox.TheVariants as boxes;

use crate::auxc::{Auxc, AuxcBox};
use crate::av1c::{Av1c, Av1cBox};
use crate::avcc::{Avcc, AvccBox};
use crate::btrt::{Btrt, BtrtBox};
use crate::clap::{Clap, ClapBox};
use crate::clli::{Clli, ClliBox};
use crate::colr::{Colr, ColrBox};
use crate::dvcc::{Dvcc, DvccBox};
use crate::dvvc::{Dvvc, DvvcBox};
use crate::fiel::{Fiel, FielBox};
use crate::hvcc::{Hvcc, HvccBox};
use crate::imir::{Imir, ImirBox};
use crate::irot::{Irot, IrotBox};
use crate::ispe::{Ispe, IspeBox};
use crate::mdcv::{Mdcv, MdcvBox};
use crate::pasp::{Pasp, PaspBox};
use crate::pixi::{Pixi, PixiBox};
use crate::vpcc::{Vpcc, VpccBox};
use crate::vvcc::{Vvcc, VvccBox};
use mp4_compose::CodedEnum;
use mp4_frame::{
    BoxEnum, BoxType, BoxVisitor, ByteCursor, Holds, Result, TryClone, clone_as, codes,
};
use mp4_shown::{
    Catalogued, Described, FieldSink, HasFields, View, each_held, print_held, read_declared,
    show_each, take_by_type, taken, type_by_code, types_held, visit_each,
};
use std::alloc::Global;
use std::fmt;

/// Calls a macro with the list of all box types in brackets, followed by the other arguments. Each has its fields, its
/// variant and its code.
macro_rules! of_boxes {
    ($go:ident, $($rest:tt)*) => {
        $go! {
            [
                Auxc AuxcBox codes::AUXC,
                Av1c Av1cBox codes::AV1C,
                Avcc AvccBox codes::AVCC,
                Btrt BtrtBox codes::BTRT,
                Clap ClapBox codes::CLAP,
                Clli ClliBox codes::CLLI,
                Colr ColrBox codes::COLR,
                Dvcc DvccBox codes::DVCC,
                Dvvc DvvcBox codes::DVVC,
                Fiel FielBox codes::FIEL,
                Hvcc HvccBox codes::HVCC,
                Imir ImirBox codes::IMIR,
                Irot IrotBox codes::IROT,
                Ispe IspeBox codes::ISPE,
                Mdcv MdcvBox codes::MDCV,
                Pasp PaspBox codes::PASP,
                Pixi PixiBox codes::PIXI,
                Vpcc VpccBox codes::VPCC,
                Vvcc VvccBox codes::VVCC
            ]
            $($rest)*
        }
    };
}

/// Matches on a type with an arm for each type, which reads a box of this type as a value of `$enum`.
macro_rules! read_by_type {
    ([$($fields:ident $held:ident $($code:ident)::+),*] $types:ident, $enum:ident, $of:expr, $values:tt) => {
        match $of {
            $($types::$held => read_declared::<$fields, $enum> $values,)*
        }
    };
}

/// A box of pictures: how video and images are coded and shown.
#[derive(Drop, PartialEq, Eq)]
pub enum PictureBox {
    AuxcBox(AuxcBox),
    Av1cBox(Av1cBox),
    AvccBox(AvccBox),
    BtrtBox(BtrtBox),
    ClapBox(ClapBox),
    ClliBox(ClliBox),
    ColrBox(ColrBox),
    DvccBox(DvccBox),
    DvvcBox(DvvcBox),
    FielBox(FielBox),
    HvccBox(HvccBox),
    ImirBox(ImirBox),
    IrotBox(IrotBox),
    IspeBox(IspeBox),
    MdcvBox(MdcvBox),
    PaspBox(PaspBox),
    PixiBox(PixiBox),
    VpccBox(VpccBox),
    VvccBox(VvccBox),
}

/// A type of boxes that a `PictureBox` holds.
#[derive(Clone, Copy)]
pub enum PictureType {
    AuxcBox,
    Av1cBox,
    AvccBox,
    BtrtBox,
    ClapBox,
    ClliBox,
    ColrBox,
    DvccBox,
    DvvcBox,
    FielBox,
    HvccBox,
    ImirBox,
    IrotBox,
    IspeBox,
    MdcvBox,
    PaspBox,
    PixiBox,
    VpccBox,
    VvccBox,
}

/// For the prover: all types.
const TYPES: &[PictureType] = of_boxes!(types_held, PictureType);

/// Returns the type of the boxes with the code `code`, if there is one.
#[tactic(auto, unfolding(crate::specs::PictureBox::picture_of_code))]
fn type_of(code: u32) -> Option<PictureType>
    ensures { result ≡ picture_of_code code }
{
    of_boxes!(type_by_code, PictureType, code)
}

impl fmt::Debug for PictureBox {
    fn fmt<W: fmt::Write>(&self, f: &mut fmt::Formatter<W>) -> fmt::Result {
        of_boxes!(print_held, PictureBox, self, f)
    }
}

impl TryClone for PictureBox {
    fn try_clone(&self) -> Result<PictureBox> {
        of_boxes!(each_held, PictureBox, self, b => clone_as(b))
    }
}

impl Catalogued for PictureBox {
    type Of = PictureType;

    ghost catalogue = { picture_types };

    ghost declared = { elim [
      | types.AuxcBox ↦ valid_as ⟦<Auxc as Described>⟧.declaration refl
      | types.Av1cBox ↦ valid_as ⟦<Av1c as Described>⟧.declaration refl
      | types.AvccBox ↦ valid_as ⟦<Avcc as Described>⟧.declaration refl
      | types.BtrtBox ↦ valid_as ⟦<Btrt as Described>⟧.declaration refl
      | types.ClapBox ↦ valid_as ⟦<Clap as Described>⟧.declaration refl
      | types.ClliBox ↦ valid_as ⟦<Clli as Described>⟧.declaration refl
      | types.ColrBox ↦ valid_as ⟦<Colr as Described>⟧.declaration refl
      | types.DvccBox ↦ valid_as ⟦<Dvcc as Described>⟧.declaration refl
      | types.DvvcBox ↦ valid_as ⟦<Dvvc as Described>⟧.declaration refl
      | types.FielBox ↦ valid_as ⟦<Fiel as Described>⟧.declaration refl
      | types.HvccBox ↦ valid_as ⟦<Hvcc as Described>⟧.declaration refl
      | types.ImirBox ↦ valid_as ⟦<Imir as Described>⟧.declaration refl
      | types.IrotBox ↦ valid_as ⟦<Irot as Described>⟧.declaration refl
      | types.IspeBox ↦ valid_as ⟦<Ispe as Described>⟧.declaration refl
      | types.MdcvBox ↦ valid_as ⟦<Mdcv as Described>⟧.declaration refl
      | types.PaspBox ↦ valid_as ⟦<Pasp as Described>⟧.declaration refl
      | types.PixiBox ↦ valid_as ⟦<Pixi as Described>⟧.declaration refl
      | types.VpccBox ↦ valid_as ⟦<Vpcc as Described>⟧.declaration refl
      | types.VvccBox ↦ valid_as ⟦<Vvcc as Described>⟧.declaration refl
    ] };
}

/// Reads a box of type `of` after its header, like `BoxEnum::read`. The header has this `size`.
fn read_of(of: PictureType, alloc: Global, reader: &mut ByteCursor, size: u64) -> Result<PictureBox>
    requires after_header { 8 ≤ reader.old.position }
    ensures answer { Answers result
        (reading_known (Is (kind_of picture_types ⟦<PictureBox as Catalogued>⟧.declared of))
        reader.old.bytes.now (reader.old.position - 8) size) }
    ensures moved { OnOk result (reader.new.position ≡ reader.old.position - 8 + max 0 size) }
    ensures kept { OnErr result (reader.new.position ≡ reader.old.position) }
    ensures bytes { reader.new.bytes ≡ reader.old.bytes }
{
    of_boxes!(
        read_by_type,
        PictureType,
        PictureBox,
        of,
        (alloc, reader, size)
    )
}

/// Returns the box of the type `of` whose JSON is `text`.
fn take_of(of: PictureType, alloc: Global, text: &str) -> taken::Result<PictureBox>
    ensures { TakesAs (λ b. b) result
        (type_document picture_types ⟦<PictureBox as Catalogued>⟧.declared of (document text.now)) }
{
    of_boxes!(take_by_type, PictureType, PictureBox, of, alloc, text)
}

impl PictureBox {
    /// Returns the box with the code `code` whose JSON is `text`: an object with its fields, in any order. Returns
    /// `None` if no type has this code.
    pub fn from_json(alloc: Global, code: u32, text: &str) -> taken::Result<Option<PictureBox>>
        ensures { TakesAs (λ b. b) result
            (code_document picture_types ⟦<PictureBox as Catalogued>⟧.declared code (document text.now)) }
    {
        match type_of(code) {
            Some(of) => Ok(Some(take_of(of, alloc, text)?)),
            None => Ok(None),
        }
    }
}

impl BoxEnum for PictureBox {
    ghost kinds = { kinds picture_types ⟦<PictureBox as Catalogued>⟧.declared };

    ghost inside = { inside picture_types ⟦<PictureBox as Catalogued>⟧.declared };

    ghost members = { members picture_types picture_laws ⟦<PictureBox as Catalogued>⟧.declared };

    fn holds(name: BoxType) -> bool {
        type_of(u32::from(name)).is_some()
    }

    fn read(alloc: Global, name: BoxType, reader: &mut ByteCursor, size: u64) -> Result<Self> {
        match type_of(u32::from(name)) {
            Some(of) => read_of(of, alloc, reader, size),
            None => unreachable!(),
        }
    }

    fn visit<Q: BoxVisitor>(&self, out: &mut [u8]) -> Q::Answer {
        of_boxes!(visit_each, Q, PictureBox, self, out)
    }

    ghost named = { named picture_types picture_laws ⟦<PictureBox as Catalogued>⟧.declared };
}

/// The code identifies the type of a box.
impl CodedEnum for PictureBox {
    ghost coded = { by_code picture_types picture_laws ⟦<PictureBox as Catalogued>⟧.declared };
}

/// Shows the fields of the box inside.
impl HasFields for PictureBox {
    ghost shown = { shown picture_types ⟦<PictureBox as Catalogued>⟧.declared };

    ghost whole = { whole picture_types ⟦<PictureBox as Catalogued>⟧.declared };

    fn show<K: FieldSink>(&self, view: View, sink: &mut K) -> mp4_shown::Result<()> {
        of_boxes!(show_each, K, PictureBox, self, view, sink)
    }
}

impl Holds<AuxcBox> for PictureBox {
    ghost wrapped = { boxes.AuxcBox };

    fn wrap(value: AuxcBox) -> PictureBox {
        PictureBox::AuxcBox(value)
    }
}

impl Holds<Av1cBox> for PictureBox {
    ghost wrapped = { boxes.Av1cBox };

    fn wrap(value: Av1cBox) -> PictureBox {
        PictureBox::Av1cBox(value)
    }
}

impl Holds<AvccBox> for PictureBox {
    ghost wrapped = { boxes.AvccBox };

    fn wrap(value: AvccBox) -> PictureBox {
        PictureBox::AvccBox(value)
    }
}

impl Holds<BtrtBox> for PictureBox {
    ghost wrapped = { boxes.BtrtBox };

    fn wrap(value: BtrtBox) -> PictureBox {
        PictureBox::BtrtBox(value)
    }
}

impl Holds<ClapBox> for PictureBox {
    ghost wrapped = { boxes.ClapBox };

    fn wrap(value: ClapBox) -> PictureBox {
        PictureBox::ClapBox(value)
    }
}

impl Holds<ClliBox> for PictureBox {
    ghost wrapped = { boxes.ClliBox };

    fn wrap(value: ClliBox) -> PictureBox {
        PictureBox::ClliBox(value)
    }
}

impl Holds<ColrBox> for PictureBox {
    ghost wrapped = { boxes.ColrBox };

    fn wrap(value: ColrBox) -> PictureBox {
        PictureBox::ColrBox(value)
    }
}

impl Holds<DvccBox> for PictureBox {
    ghost wrapped = { boxes.DvccBox };

    fn wrap(value: DvccBox) -> PictureBox {
        PictureBox::DvccBox(value)
    }
}

impl Holds<DvvcBox> for PictureBox {
    ghost wrapped = { boxes.DvvcBox };

    fn wrap(value: DvvcBox) -> PictureBox {
        PictureBox::DvvcBox(value)
    }
}

impl Holds<FielBox> for PictureBox {
    ghost wrapped = { boxes.FielBox };

    fn wrap(value: FielBox) -> PictureBox {
        PictureBox::FielBox(value)
    }
}

impl Holds<HvccBox> for PictureBox {
    ghost wrapped = { boxes.HvccBox };

    fn wrap(value: HvccBox) -> PictureBox {
        PictureBox::HvccBox(value)
    }
}

impl Holds<ImirBox> for PictureBox {
    ghost wrapped = { boxes.ImirBox };

    fn wrap(value: ImirBox) -> PictureBox {
        PictureBox::ImirBox(value)
    }
}

impl Holds<IrotBox> for PictureBox {
    ghost wrapped = { boxes.IrotBox };

    fn wrap(value: IrotBox) -> PictureBox {
        PictureBox::IrotBox(value)
    }
}

impl Holds<IspeBox> for PictureBox {
    ghost wrapped = { boxes.IspeBox };

    fn wrap(value: IspeBox) -> PictureBox {
        PictureBox::IspeBox(value)
    }
}

impl Holds<MdcvBox> for PictureBox {
    ghost wrapped = { boxes.MdcvBox };

    fn wrap(value: MdcvBox) -> PictureBox {
        PictureBox::MdcvBox(value)
    }
}

impl Holds<PaspBox> for PictureBox {
    ghost wrapped = { boxes.PaspBox };

    fn wrap(value: PaspBox) -> PictureBox {
        PictureBox::PaspBox(value)
    }
}

impl Holds<PixiBox> for PictureBox {
    ghost wrapped = { boxes.PixiBox };

    fn wrap(value: PixiBox) -> PictureBox {
        PictureBox::PixiBox(value)
    }
}

impl Holds<VpccBox> for PictureBox {
    ghost wrapped = { boxes.VpccBox };

    fn wrap(value: VpccBox) -> PictureBox {
        PictureBox::VpccBox(value)
    }
}

impl Holds<VvccBox> for PictureBox {
    ghost wrapped = { boxes.VvccBox };

    fn wrap(value: VvccBox) -> PictureBox {
        PictureBox::VvccBox(value)
    }
}
