//! The track reference box.

ghost use Rattle.mp4_shown.specs.TakenShapes.{entry_made};
ghost use Rattle.mp4_shown.specs.TakenShapes.{declared_taken};
ghost use Rattle.mp4_extra_tracks.specs.declared.tref.TheConstants.{NAMES, REFERENCE};
ghost use Rattle.mp4_frame.specs.declared.codes.TheConstants as codes;
ghost use Rattle.mp4_shown.specs.Lists.{entry_of};
ghost use Rattle.mp4_shown.specs.Members.{whole_entry};
ghost use Rattle.std.proofs.Common.{refl, lit<};
ghost use Rattle.mp4_declared.specs.OwnBox.{layout_of};
ghost use Rattle.mp4_declared.specs.DeclaredEntry.{exact_layout_of};

use mp4_declared::{
    Code, Context, Declared, DeclaredBox, DeclaredEntry, EachToEnd, EntryVisitor, Last, Numbers,
    Shape, ShapeVisitor, WithSize, box_of, clone_each, parts_of,
};
use mp4_frame::{Entries, FourCC, Result, TryClone, codes};
use mp4_shown::taken::{self, Object, TakeEntry, TakeFields, TakeShape, take_declared, take_entry};
use mp4_shown::{FieldSink, HasFields, NamedShape, ShowShape, ShownEntry, View, list, names_of};
use std::alloc::Global;

/// The tracks that a track refers to by one type of reference. In the file it is a box whose code is the type.
#[derive(Debug, Drop, PartialEq, Eq)]
pub struct TrackReference {
    /// The role of the referenced tracks. Known codes are below; any other code is possible.
    ///
    /// - ISO/IEC 14496-12: `hint` for the media of a hint track, `cdsc` for the tracks that this one describes, `font`
    ///   for fonts, `hind` for media that may be hinted, `vdep` for the depth and `vplx` for the parallax of a video,
    ///   `subt` for subtitles.
    /// - QuickTime: `chap` for chapters, `sync` for a timecode, `scpt` for a transcript, `ssrc` for a source of another
    ///   media type.
    /// - ISO/IEC 14496-14: `mpod`, `dpnd`, `ipir` and `sync` for elementary streams.
    /// - iTunes: `folw` for the track to show next.
    pub reference_type: FourCC,
    /// The `track_ID`s of the referenced tracks, none of which is 0 in the standard.
    pub track_ids: Entries<u32>,
}

/// The layout of a reference: a size, a code, and numbers of 32 bits up to the end that the size gives.
pub type TrackReferenceShape = WithSize<(Code, Last<Numbers>)>;

impl DeclaredEntry for TrackReference {
    ghost use Rattle.mp4_extra_tracks.specs.contracts.tref.TrackReference.{struct};

    type Shape = TrackReferenceShape;

    ghost layout = { exact_layout_of struct (λ _. tt) (λ _. refl) };

    fn from_content(found: <TrackReferenceShape as Shape>::Value) -> TrackReference {
        box_of!(found => TrackReference { reference_type, track_ids })
    }

    fn visit<Q: EntryVisitor<Self::Shape>>(&self, question: Q, out: &mut [u8]) -> Q::Answer {
        question.visit(parts_of!(self => reference_type, track_ids.as_slice()), out)
    }

    ghost begins = { λ _. lit< tt };
}

/// The names of the fields of a reference.
const REFERENCE: &<TrackReferenceShape as NamedShape>::Names = &names_of!(
    "reference_type",
    "track_IDs"
);

impl ShownEntry for TrackReference {
    ghost shown = { λ view x. entry_of (⟦<TrackReferenceShape as NamedShape>⟧.shown REFERENCE.now view
        (⟦<TrackReference as DeclaredEntry>⟧.layout.content x)) };

    ghost whole = { λ view x. whole_entry (⟦<TrackReferenceShape as NamedShape>⟧.shown REFERENCE.now view
        (⟦<TrackReference as DeclaredEntry>⟧.layout.content x))
        (⟦<TrackReferenceShape as NamedShape>⟧.whole REFERENCE.now view
        (⟦<TrackReference as DeclaredEntry>⟧.layout.content x)) };

    fn show<K: FieldSink>(&self, view: View, sink: &mut K) -> mp4_shown::Result<()> {
        sink.begin_entry()?;
        TrackReferenceShape::show(
            REFERENCE,
            view,
            &parts_of!(self => reference_type, track_ids.as_slice()),
            sink,
        )?;
        sink.end_entry()
    }
}

impl TakeEntry for TrackReference {
    ghost taken = { λ c j. entry_made ⟦<TrackReference as DeclaredEntry>⟧.layout.value
        (⟦<TrackReferenceShape as TakeShape>⟧.taken REFERENCE.now c) j };

    fn take(
        alloc: Global,
        context: Context,
        value: json::Value<'_>,
    ) -> taken::Result<TrackReference> {
        take_entry::<TrackReference, TrackReferenceShape>(alloc, REFERENCE, context, value)
    }
}

impl TryClone for TrackReference {
    fn try_clone(&self) -> Result<TrackReference> {
        Ok(TrackReference {
            reference_type: self.reference_type,
            track_ids: self.track_ids.try_clone()?,
        })
    }
}

/// The references of a track to other tracks (`tref`, ISO/IEC 14496-12, 8.3.3).
#[derive(Debug, Drop, PartialEq, Eq)]
pub struct Tref {
    /// The references. The standard allows at most one of each type.
    pub references: Entries<TrackReference>,
}

/// The content of the box: references up to its end.
pub type TrefShape = Last<EachToEnd<TrackReference>>;

impl DeclaredBox for Tref {
    ghost use Rattle.mp4_extra_tracks.specs.contracts.tref.Tref.{struct};

    type Shape = TrefShape;

    ghost CODE = { codes.TREF };

    ghost layout = { layout_of struct (λ _. tt) (λ _. refl) (lit< tt) };

    const CODE: u32 = codes::TREF;

    fn from_content(found: <TrefShape as Shape>::Value) -> Tref {
        box_of!(found => Tref { references })
    }

    fn visit<Q: ShapeVisitor<Self::Shape>>(&self, out: &mut [u8]) -> Q::Answer {
        Q::visit(parts_of!(self => references.as_slice()), out)
    }

    ghost valid = { refl };
}

/// The names of the fields.
const NAMES: &<TrefShape as NamedShape>::Names = &names_of!(list!("references"));

impl HasFields for Tref {
    ghost shown = { λ view b. ⟦<TrefShape as NamedShape>⟧.shown NAMES.now view
        (⟦<Tref as DeclaredBox>⟧.layout.content b) };

    ghost whole = { λ view b. ⟦<TrefShape as NamedShape>⟧.whole NAMES.now view
        (⟦<Tref as DeclaredBox>⟧.layout.content b) };

    fn show<K: FieldSink>(&self, view: View, sink: &mut K) -> mp4_shown::Result<()> {
        TrefShape::show(NAMES, view, &parts_of!(self => references.as_slice()), sink)
    }
}

impl TakeFields for Tref {
    ghost taken = { declared_taken ⟦<Tref as DeclaredBox>⟧.layout (⟦<TrefShape as TakeShape>⟧.taken NAMES.now) };

    fn take(alloc: Global, object: &mut Object<'_>) -> taken::Result<Tref> {
        take_declared::<Tref, TrefShape>(alloc, NAMES, object)
    }
}

impl TryClone for Tref {
    fn try_clone(&self) -> Result<Tref> {
        let alloc = *self.references.allocator();
        let references = clone_each(alloc, self.references.as_slice())?;
        Ok(Tref { references })
    }
}

/// The track reference box.
pub type TrefBox = Declared<Tref>;
