//! The box types of tracks, their protection, items and metadata as one enum.

ghost use Rattle.std.specs.Prelude.{◌≡◌, ◌+◌, ◌-◌, ◌≤◌, OnOk, OnErr, max};
ghost use Rattle.std.proofs.Common.{refl};
ghost use Rattle.mp4_frame.specs.Reading.{Answers};
ghost use Rattle.mp4_frame.specs.Members.{reading_known, Is};
ghost use Rattle.mp4_shown.specs.Catalogue.{code_document, inside, kind_of, kinds, shown, type_document, valid_as};
ghost use Rattle.mp4_shown.specs.Catalogue.{whole};
ghost use Rattle.json.specs.Json.{document};
ghost use Rattle.mp4_shown.specs.Taking.{TakesAs};
ghost use Rattle.mp4_shown.specs.CatalogueLaws.{by_code, members, named};
ghost use Rattle.mp4_extra_tracks.specs.TrackBox.{track_types, track_of_code};
ghost use Rattle.mp4_extra_tracks.specs.TrackBoxLaws.{track_laws};
ghost use Rattle.mp4_extra_tracks.specs.declared.track_box.TrackType.TheVariants as types;
ghost use Rattle.mp4_extra_tracks.specs.declared.track_box.TrackBox.TheVariants as boxes;

use crate::alis::{Alis, AlisBox};
use crate::data::{Data, DataBox};
use crate::elng::{Elng, ElngBox};
use crate::frma::{Frma, FrmaBox};
use crate::hdlr::{Hdlr, HdlrBox};
use crate::iloc::{Iloc, IlocBox};
use crate::infe::{Infe, InfeBox};
use crate::iods::{Iods, IodsBox};
use crate::ipma::{Ipma, IpmaBox};
use crate::keys::{Keys, KeysBox};
use crate::kind::{Kind, KindBox};
use crate::mean::{Mean, MeanBox};
use crate::name::{Name, NameBox};
use crate::pitm::{Pitm, PitmBox};
use crate::pssh::{Pssh, PsshBox};
use crate::schm::{Schm, SchmBox};
use crate::tenc::{Tenc, TencBox};
use crate::tref::{Tref, TrefBox};
use crate::urn::{Urn, UrnBox};
use mp4_compose::CodedEnum;
use mp4_frame::{
    BoxEnum, BoxType, BoxVisitor, ByteCursor, Holds, Result, TryClone, clone_as, codes,
};
use mp4_shown::{
    Catalogued, Described, FieldSink, HasFields, View, each_held, print_held, read_declared,
    show_each, take_by_type, taken, type_by_code, types_held, visit_each,
};
use std::alloc::Global;
use std::fmt;

/// Calls a macro with the list of all box types in brackets, followed by the other arguments. Each has its fields, its
/// variant and its code.
macro_rules! of_boxes {
    ($go:ident, $($rest:tt)*) => {
        $go! {
            [
                Alis AlisBox codes::ALIS,
                Data DataBox codes::DATA,
                Elng ElngBox codes::ELNG,
                Frma FrmaBox codes::FRMA,
                Hdlr HdlrBox codes::HDLR,
                Iloc IlocBox codes::ILOC,
                Infe InfeBox codes::INFE,
                Iods IodsBox codes::IODS,
                Ipma IpmaBox codes::IPMA,
                Keys KeysBox codes::KEYS,
                Kind KindBox codes::KIND,
                Mean MeanBox codes::MEAN,
                Name NameBox codes::TAG_NAME,
                Pitm PitmBox codes::PITM,
                Pssh PsshBox codes::PSSH,
                Schm SchmBox codes::SCHM,
                Tenc TencBox codes::TENC,
                Tref TrefBox codes::TREF,
                Urn UrnBox codes::URN
            ]
            $($rest)*
        }
    };
}

/// Matches on a type with an arm for each type, which reads a box of this type as a value of `$enum`.
macro_rules! read_by_type {
    ([$($fields:ident $held:ident $($code:ident)::+),*] $types:ident, $enum:ident, $of:expr, $values:tt) => {
        match $of {
            $($types::$held => read_declared::<$fields, $enum> $values,)*
        }
    };
}

/// A box of tracks, their protection, items and metadata.
#[derive(Drop, PartialEq, Eq)]
pub enum TrackBox {
    AlisBox(AlisBox),
    DataBox(DataBox),
    ElngBox(ElngBox),
    FrmaBox(FrmaBox),
    HdlrBox(HdlrBox),
    IlocBox(IlocBox),
    InfeBox(InfeBox),
    IodsBox(IodsBox),
    IpmaBox(IpmaBox),
    KeysBox(KeysBox),
    KindBox(KindBox),
    MeanBox(MeanBox),
    NameBox(NameBox),
    PitmBox(PitmBox),
    PsshBox(PsshBox),
    SchmBox(SchmBox),
    TencBox(TencBox),
    TrefBox(TrefBox),
    UrnBox(UrnBox),
}

/// A type of boxes that a `TrackBox` holds.
#[derive(Clone, Copy)]
pub enum TrackType {
    AlisBox,
    DataBox,
    ElngBox,
    FrmaBox,
    HdlrBox,
    IlocBox,
    InfeBox,
    IodsBox,
    IpmaBox,
    KeysBox,
    KindBox,
    MeanBox,
    NameBox,
    PitmBox,
    PsshBox,
    SchmBox,
    TencBox,
    TrefBox,
    UrnBox,
}

/// For the prover: all types.
const TYPES: &[TrackType] = of_boxes!(types_held, TrackType);

/// Returns the type of the boxes with the code `code`, if there is one.
#[tactic(auto, unfolding(crate::specs::TrackBox::track_of_code))]
fn type_of(code: u32) -> Option<TrackType>
    ensures { result ≡ track_of_code code }
{
    of_boxes!(type_by_code, TrackType, code)
}

impl fmt::Debug for TrackBox {
    fn fmt<W: fmt::Write>(&self, f: &mut fmt::Formatter<W>) -> fmt::Result {
        of_boxes!(print_held, TrackBox, self, f)
    }
}

impl TryClone for TrackBox {
    fn try_clone(&self) -> Result<TrackBox> {
        of_boxes!(each_held, TrackBox, self, b => clone_as(b))
    }
}

impl Catalogued for TrackBox {
    type Of = TrackType;

    ghost catalogue = { track_types };

    ghost declared = { elim [
      | types.AlisBox ↦ valid_as ⟦<Alis as Described>⟧.declaration refl
      | types.DataBox ↦ valid_as ⟦<Data as Described>⟧.declaration refl
      | types.ElngBox ↦ valid_as ⟦<Elng as Described>⟧.declaration refl
      | types.FrmaBox ↦ valid_as ⟦<Frma as Described>⟧.declaration refl
      | types.HdlrBox ↦ valid_as ⟦<Hdlr as Described>⟧.declaration refl
      | types.IlocBox ↦ valid_as ⟦<Iloc as Described>⟧.declaration refl
      | types.InfeBox ↦ valid_as ⟦<Infe as Described>⟧.declaration refl
      | types.IodsBox ↦ valid_as ⟦<Iods as Described>⟧.declaration refl
      | types.IpmaBox ↦ valid_as ⟦<Ipma as Described>⟧.declaration refl
      | types.KeysBox ↦ valid_as ⟦<Keys as Described>⟧.declaration refl
      | types.KindBox ↦ valid_as ⟦<Kind as Described>⟧.declaration refl
      | types.MeanBox ↦ valid_as ⟦<Mean as Described>⟧.declaration refl
      | types.NameBox ↦ valid_as ⟦<Name as Described>⟧.declaration refl
      | types.PitmBox ↦ valid_as ⟦<Pitm as Described>⟧.declaration refl
      | types.PsshBox ↦ valid_as ⟦<Pssh as Described>⟧.declaration refl
      | types.SchmBox ↦ valid_as ⟦<Schm as Described>⟧.declaration refl
      | types.TencBox ↦ valid_as ⟦<Tenc as Described>⟧.declaration refl
      | types.TrefBox ↦ valid_as ⟦<Tref as Described>⟧.declaration refl
      | types.UrnBox ↦ valid_as ⟦<Urn as Described>⟧.declaration refl
    ] };
}

/// Reads a box of type `of` after its header, like `BoxEnum::read`. The header has this `size`.
fn read_of(of: TrackType, alloc: Global, reader: &mut ByteCursor, size: u64) -> Result<TrackBox>
    requires after_header { 8 ≤ reader.old.position }
    ensures answer { Answers result
        (reading_known (Is (kind_of track_types ⟦<TrackBox as Catalogued>⟧.declared of))
        reader.old.bytes.now (reader.old.position - 8) size) }
    ensures moved { OnOk result (reader.new.position ≡ reader.old.position - 8 + max 0 size) }
    ensures kept { OnErr result (reader.new.position ≡ reader.old.position) }
    ensures bytes { reader.new.bytes ≡ reader.old.bytes }
{
    of_boxes!(read_by_type, TrackType, TrackBox, of, (alloc, reader, size))
}

/// Returns the box of the type `of` whose JSON is `text`.
fn take_of(of: TrackType, alloc: Global, text: &str) -> taken::Result<TrackBox>
    ensures { TakesAs (λ b. b) result
        (type_document track_types ⟦<TrackBox as Catalogued>⟧.declared of (document text.now)) }
{
    of_boxes!(take_by_type, TrackType, TrackBox, of, alloc, text)
}

impl TrackBox {
    /// Returns the box with the code `code` whose JSON is `text`: an object with its fields, in any order. Returns
    /// `None` if no type has this code.
    pub fn from_json(alloc: Global, code: u32, text: &str) -> taken::Result<Option<TrackBox>>
        ensures { TakesAs (λ b. b) result
            (code_document track_types ⟦<TrackBox as Catalogued>⟧.declared code (document text.now)) }
    {
        match type_of(code) {
            Some(of) => Ok(Some(take_of(of, alloc, text)?)),
            None => Ok(None),
        }
    }
}

impl BoxEnum for TrackBox {
    ghost kinds = { kinds track_types ⟦<TrackBox as Catalogued>⟧.declared };

    ghost inside = { inside track_types ⟦<TrackBox as Catalogued>⟧.declared };

    ghost members = { members track_types track_laws ⟦<TrackBox as Catalogued>⟧.declared };

    fn holds(name: BoxType) -> bool {
        type_of(u32::from(name)).is_some()
    }

    fn read(alloc: Global, name: BoxType, reader: &mut ByteCursor, size: u64) -> Result<Self> {
        match type_of(u32::from(name)) {
            Some(of) => read_of(of, alloc, reader, size),
            None => unreachable!(),
        }
    }

    fn visit<Q: BoxVisitor>(&self, out: &mut [u8]) -> Q::Answer {
        of_boxes!(visit_each, Q, TrackBox, self, out)
    }

    ghost named = { named track_types track_laws ⟦<TrackBox as Catalogued>⟧.declared };
}

/// The code identifies the type of a box.
impl CodedEnum for TrackBox {
    ghost coded = { by_code track_types track_laws ⟦<TrackBox as Catalogued>⟧.declared };
}

/// Shows the fields of the box inside.
impl HasFields for TrackBox {
    ghost shown = { shown track_types ⟦<TrackBox as Catalogued>⟧.declared };

    ghost whole = { whole track_types ⟦<TrackBox as Catalogued>⟧.declared };

    fn show<K: FieldSink>(&self, view: View, sink: &mut K) -> mp4_shown::Result<()> {
        of_boxes!(show_each, K, TrackBox, self, view, sink)
    }
}

impl Holds<AlisBox> for TrackBox {
    ghost wrapped = { boxes.AlisBox };

    fn wrap(value: AlisBox) -> TrackBox {
        TrackBox::AlisBox(value)
    }
}

impl Holds<DataBox> for TrackBox {
    ghost wrapped = { boxes.DataBox };

    fn wrap(value: DataBox) -> TrackBox {
        TrackBox::DataBox(value)
    }
}

impl Holds<ElngBox> for TrackBox {
    ghost wrapped = { boxes.ElngBox };

    fn wrap(value: ElngBox) -> TrackBox {
        TrackBox::ElngBox(value)
    }
}

impl Holds<FrmaBox> for TrackBox {
    ghost wrapped = { boxes.FrmaBox };

    fn wrap(value: FrmaBox) -> TrackBox {
        TrackBox::FrmaBox(value)
    }
}

impl Holds<HdlrBox> for TrackBox {
    ghost wrapped = { boxes.HdlrBox };

    fn wrap(value: HdlrBox) -> TrackBox {
        TrackBox::HdlrBox(value)
    }
}

impl Holds<IlocBox> for TrackBox {
    ghost wrapped = { boxes.IlocBox };

    fn wrap(value: IlocBox) -> TrackBox {
        TrackBox::IlocBox(value)
    }
}

impl Holds<InfeBox> for TrackBox {
    ghost wrapped = { boxes.InfeBox };

    fn wrap(value: InfeBox) -> TrackBox {
        TrackBox::InfeBox(value)
    }
}

impl Holds<IodsBox> for TrackBox {
    ghost wrapped = { boxes.IodsBox };

    fn wrap(value: IodsBox) -> TrackBox {
        TrackBox::IodsBox(value)
    }
}

impl Holds<IpmaBox> for TrackBox {
    ghost wrapped = { boxes.IpmaBox };

    fn wrap(value: IpmaBox) -> TrackBox {
        TrackBox::IpmaBox(value)
    }
}

impl Holds<KeysBox> for TrackBox {
    ghost wrapped = { boxes.KeysBox };

    fn wrap(value: KeysBox) -> TrackBox {
        TrackBox::KeysBox(value)
    }
}

impl Holds<KindBox> for TrackBox {
    ghost wrapped = { boxes.KindBox };

    fn wrap(value: KindBox) -> TrackBox {
        TrackBox::KindBox(value)
    }
}

impl Holds<MeanBox> for TrackBox {
    ghost wrapped = { boxes.MeanBox };

    fn wrap(value: MeanBox) -> TrackBox {
        TrackBox::MeanBox(value)
    }
}

impl Holds<NameBox> for TrackBox {
    ghost wrapped = { boxes.NameBox };

    fn wrap(value: NameBox) -> TrackBox {
        TrackBox::NameBox(value)
    }
}

impl Holds<PitmBox> for TrackBox {
    ghost wrapped = { boxes.PitmBox };

    fn wrap(value: PitmBox) -> TrackBox {
        TrackBox::PitmBox(value)
    }
}

impl Holds<PsshBox> for TrackBox {
    ghost wrapped = { boxes.PsshBox };

    fn wrap(value: PsshBox) -> TrackBox {
        TrackBox::PsshBox(value)
    }
}

impl Holds<SchmBox> for TrackBox {
    ghost wrapped = { boxes.SchmBox };

    fn wrap(value: SchmBox) -> TrackBox {
        TrackBox::SchmBox(value)
    }
}

impl Holds<TencBox> for TrackBox {
    ghost wrapped = { boxes.TencBox };

    fn wrap(value: TencBox) -> TrackBox {
        TrackBox::TencBox(value)
    }
}

impl Holds<TrefBox> for TrackBox {
    ghost wrapped = { boxes.TrefBox };

    fn wrap(value: TrefBox) -> TrackBox {
        TrackBox::TrefBox(value)
    }
}

impl Holds<UrnBox> for TrackBox {
    ghost wrapped = { boxes.UrnBox };

    fn wrap(value: UrnBox) -> TrackBox {
        TrackBox::UrnBox(value)
    }
}
