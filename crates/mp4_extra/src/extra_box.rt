//! The box types of this crate as one enum.

ghost use Rattle.std.specs.Prelude.{ℕ, Option, ◌≡◌, ◌+◌, ◌-◌, ◌≤◌, IsTrue, OnOk, OnErr, max};
ghost use Rattle.mp4_frame.specs.Members.{is_known, reading_known};
ghost use Rattle.mp4_frame.specs.Reading.{Answers, map_reading};
ghost use Rattle.mp4_shown.specs.Catalogue.{Declarations, inside, kinds, shown, whole};
ghost use Rattle.mp4_shown.specs.CatalogueLaws.{by_code, members, named};
ghost use Rattle.mp4_extra.specs.ExtraBox.{declarations, extra_document, extra_types, known_any, reading_any};
ghost use Rattle.json.specs.Json.{Json, document};
ghost use Rattle.mp4_shown.specs.Taking.{Taking, TakesAs};
ghost use Rattle.mp4_extra.specs.ExtraBoxLaws.{extra_laws};
ghost use Rattle.mp4_extra.specs.declared.extra_box.ExtraBox.TheVariants as boxes;

use mp4_compose::CodedEnum;
use mp4_extra_pictures::picture_box::PictureBox;
use mp4_extra_samples::sample_box::SampleBox;
use mp4_extra_sound::sound_box::SoundBox;
use mp4_extra_tracks::track_box::TrackBox;
use mp4_frame::{BoxEnum, BoxType, BoxVisitor, ByteCursor, Holds, Result, TryClone, clone_as};
use mp4_shown::{Catalogued, FieldSink, HasFields, View, taken};
use std::alloc::Global;
use std::fmt;

/// A box of any type of this crate, by its subject.
#[derive(Drop, PartialEq, Eq)]
pub enum ExtraBox {
    /// A box of pictures.
    Picture(PictureBox),
    /// A box of sound, text and hints.
    Sound(SoundBox),
    /// A box of samples, fragments and segments.
    Sample(SampleBox),
    /// A box of tracks, their protection, items and metadata.
    Track(TrackBox),
}

/// Prints the box inside.
impl fmt::Debug for ExtraBox {
    fn fmt<W: fmt::Write>(&self, f: &mut fmt::Formatter<W>) -> fmt::Result {
        match self {
            ExtraBox::Picture(b) => fmt::Debug::fmt(b, f),
            ExtraBox::Sound(b) => fmt::Debug::fmt(b, f),
            ExtraBox::Sample(b) => fmt::Debug::fmt(b, f),
            ExtraBox::Track(b) => fmt::Debug::fmt(b, f),
        }
    }
}

impl TryClone for ExtraBox {
    fn try_clone(&self) -> Result<ExtraBox> {
        match self {
            ExtraBox::Picture(b) => clone_as(b),
            ExtraBox::Sound(b) => clone_as(b),
            ExtraBox::Sample(b) => clone_as(b),
            ExtraBox::Track(b) => clone_as(b),
        }
    }
}

/// For the prover: the declarations of all types.
trait ExtraDeclarations {
    ghost declared: { Declarations extra_types };
}

impl ExtraDeclarations for ExtraBox {
    ghost declared = { declarations ⟦<PictureBox as Catalogued>⟧.declared
        ⟦<SoundBox as Catalogued>⟧.declared ⟦<SampleBox as Catalogued>⟧.declared
        ⟦<TrackBox as Catalogued>⟧.declared };
}

/// For the prover: the box with a code that a JSON value is, if a type has the code.
pub trait TakenByCode {
    ghost taken: { ℕ → Option Json → Taking (Option Self) };
}

impl TakenByCode for ExtraBox {
    ghost taken = { extra_document ⟦<PictureBox as Catalogued>⟧.declared ⟦<SoundBox as Catalogued>⟧.declared
        ⟦<SampleBox as Catalogued>⟧.declared ⟦<TrackBox as Catalogued>⟧.declared };
}

impl ExtraBox {
    /// Returns the box with the code `code` whose JSON is `text`: an object with its fields, in any order. Returns
    /// `None` if no type has this code.
    pub fn from_json(alloc: Global, code: u32, text: &str) -> taken::Result<Option<ExtraBox>>
        ensures { TakesAs (λ b. b) result (extra_document ⟦<PictureBox as Catalogued>⟧.declared
            ⟦<SoundBox as Catalogued>⟧.declared ⟦<SampleBox as Catalogued>⟧.declared
            ⟦<TrackBox as Catalogued>⟧.declared code (document text.now)) }
    {
        if let Some(b) = PictureBox::from_json(alloc, code, text)? {
            return Ok(Some(ExtraBox::Picture(b)));
        }
        if let Some(b) = SoundBox::from_json(alloc, code, text)? {
            return Ok(Some(ExtraBox::Sound(b)));
        }
        if let Some(b) = SampleBox::from_json(alloc, code, text)? {
            return Ok(Some(ExtraBox::Sample(b)));
        }
        match TrackBox::from_json(alloc, code, text)? {
            Some(b) => Ok(Some(ExtraBox::Track(b))),
            None => Ok(None),
        }
    }
}

/// Returns whether one of the four enums holds boxes with the name `name`.
fn any_holds(name: BoxType) -> bool
    ensures { result ≡ known_any ⟦<PictureBox as BoxEnum>⟧.kinds ⟦<SoundBox as BoxEnum>⟧.kinds
        ⟦<SampleBox as BoxEnum>⟧.kinds ⟦<TrackBox as BoxEnum>⟧.kinds name }
{
    PictureBox::holds(name)
        || SoundBox::holds(name)
        || SampleBox::holds(name)
        || TrackBox::holds(name)
}

/// Reads a box of the enum `A`, like `BoxEnum::read`, and returns it as an `E`.
fn read_inside<A: BoxEnum, E: Holds<A>>(
    alloc: Global,
    name: BoxType,
    reader: &mut ByteCursor,
    size: u64,
) -> Result<E>
    requires known { IsTrue (is_known (A.kinds name)) }
    requires after_header { 8 ≤ reader.old.position }
    ensures answer { Answers result
        (map_reading E.wrapped (reading_known (A.kinds name) reader.old.bytes.now (reader.old.position - 8) size)) }
    ensures moved { OnOk result (reader.new.position ≡ reader.old.position - 8 + max (A.least name) size) }
    ensures kept { OnErr result (reader.new.position ≡ reader.old.position) }
    ensures bytes { reader.new.bytes ≡ reader.old.bytes }
{
    Ok(E::wrap(A::read(alloc, name, reader, size)?))
}

/// Reads a box by the first of the four enums that holds boxes with its name, like `BoxEnum::read`.
fn read_any(alloc: Global, name: BoxType, reader: &mut ByteCursor, size: u64) -> Result<ExtraBox>
    requires known { IsTrue (known_any ⟦<PictureBox as BoxEnum>⟧.kinds ⟦<SoundBox as BoxEnum>⟧.kinds
        ⟦<SampleBox as BoxEnum>⟧.kinds ⟦<TrackBox as BoxEnum>⟧.kinds name) }
    requires after_header { 8 ≤ reader.old.position }
    ensures answer { Answers result (reading_any ⟦<PictureBox as BoxEnum>⟧.kinds ⟦<SoundBox as BoxEnum>⟧.kinds
        ⟦<SampleBox as BoxEnum>⟧.kinds ⟦<TrackBox as BoxEnum>⟧.kinds name
        reader.old.bytes.now (reader.old.position - 8) size) }
    ensures moved { OnOk result (reader.new.position ≡ reader.old.position - 8 + max 0 size) }
    ensures kept { OnErr result (reader.new.position ≡ reader.old.position) }
    ensures bytes { reader.new.bytes ≡ reader.old.bytes }
{
    if PictureBox::holds(name) {
        read_inside::<PictureBox, ExtraBox>(alloc, name, reader, size)
    } else if SoundBox::holds(name) {
        read_inside::<SoundBox, ExtraBox>(alloc, name, reader, size)
    } else if SampleBox::holds(name) {
        read_inside::<SampleBox, ExtraBox>(alloc, name, reader, size)
    } else {
        read_inside::<TrackBox, ExtraBox>(alloc, name, reader, size)
    }
}

impl BoxEnum for ExtraBox {
    ghost kinds = { kinds extra_types ⟦<ExtraBox as ExtraDeclarations>⟧.declared };

    ghost inside = { inside extra_types ⟦<ExtraBox as ExtraDeclarations>⟧.declared };

    ghost members = { members extra_types extra_laws ⟦<ExtraBox as ExtraDeclarations>⟧.declared };

    fn holds(name: BoxType) -> bool {
        any_holds(name)
    }

    fn read(alloc: Global, name: BoxType, reader: &mut ByteCursor, size: u64) -> Result<Self> {
        read_any(alloc, name, reader, size)
    }

    fn visit<Q: BoxVisitor>(&self, out: &mut [u8]) -> Q::Answer {
        match self {
            ExtraBox::Picture(b) => b.visit::<Q>(out),
            ExtraBox::Sound(b) => b.visit::<Q>(out),
            ExtraBox::Sample(b) => b.visit::<Q>(out),
            ExtraBox::Track(b) => b.visit::<Q>(out),
        }
    }

    ghost named = { named extra_types extra_laws ⟦<ExtraBox as ExtraDeclarations>⟧.declared };
}

/// The code identifies the type of a box.
impl CodedEnum for ExtraBox {
    ghost coded = { by_code extra_types extra_laws ⟦<ExtraBox as ExtraDeclarations>⟧.declared };
}

/// Shows the fields of the box inside.
impl HasFields for ExtraBox {
    ghost shown = { shown extra_types ⟦<ExtraBox as ExtraDeclarations>⟧.declared };

    ghost whole = { whole extra_types ⟦<ExtraBox as ExtraDeclarations>⟧.declared };

    fn show<K: FieldSink>(&self, view: View, sink: &mut K) -> mp4_shown::Result<()> {
        match self {
            ExtraBox::Picture(b) => b.show(view, sink),
            ExtraBox::Sound(b) => b.show(view, sink),
            ExtraBox::Sample(b) => b.show(view, sink),
            ExtraBox::Track(b) => b.show(view, sink),
        }
    }
}

impl Holds<PictureBox> for ExtraBox {
    ghost wrapped = { boxes.Picture };

    fn wrap(value: PictureBox) -> ExtraBox {
        ExtraBox::Picture(value)
    }
}

impl Holds<SoundBox> for ExtraBox {
    ghost wrapped = { boxes.Sound };

    fn wrap(value: SoundBox) -> ExtraBox {
        ExtraBox::Sound(value)
    }
}

impl Holds<SampleBox> for ExtraBox {
    ghost wrapped = { boxes.Sample };

    fn wrap(value: SampleBox) -> ExtraBox {
        ExtraBox::Sample(value)
    }
}

impl Holds<TrackBox> for ExtraBox {
    ghost wrapped = { boxes.Track };

    fn wrap(value: TrackBox) -> ExtraBox {
        ExtraBox::Track(value)
    }
}
