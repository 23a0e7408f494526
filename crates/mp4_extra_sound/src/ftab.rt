//! The font table box.

ghost use Rattle.mp4_shown.specs.TakenShapes.{entry_made};
ghost use Rattle.mp4_shown.specs.TakenShapes.{declared_taken};
ghost use Rattle.mp4_extra_sound.specs.declared.ftab.TheConstants.{FONT, FTAB, NAMES};
ghost use Rattle.mp4_shown.specs.Lists.{entry_of};
ghost use Rattle.mp4_shown.specs.Members.{whole_entry};
ghost use Rattle.std.proofs.Common.{refl, lit<};
ghost use Rattle.mp4_declared.specs.OwnBox.{layout_of};
ghost use Rattle.mp4_declared.specs.DeclaredEntry.{exact_layout_of};

use mp4_declared::{
    Bytes, Context, Declared, DeclaredBox, DeclaredEntry, Each, EntryVisitor, Last, Shape,
    ShapeVisitor, U8, U16, box_of, clone_each, parts_of,
};
use mp4_frame::{Entries, Result, TryClone};
use mp4_shown::taken::{self, Object, TakeEntry, TakeFields, TakeShape, take_declared, take_entry};
use mp4_shown::{
    FieldSink, HasFields, NamedShape, ShowShape, ShownEntry, View, list, names_of, number, run,
};
use std::alloc::Global;

/// The code: `ftab`.
pub const FTAB: u32 = 0x6674_6162;

/// A font of a timed text (FontRecord).
#[derive(Debug, Drop, PartialEq, Eq)]
pub struct FontRecord {
    /// The number of the font, by which styles refer to it (`font-ID`).
    pub font_id: u16,
    /// The names of the font, at most 255 bytes, separated by commas: the first that a player has is used. UTF-8, or
    /// UTF-16 if it begins with a byte order mark.
    pub font: Entries<u8>,
}

/// The layout of a font: a number, a count of 8 bits, and that many bytes.
pub type FontRecordShape = (U16, Last<Bytes<U8>>);

impl DeclaredEntry for FontRecord {
    ghost use Rattle.mp4_extra_sound.specs.contracts.ftab.FontRecord.{struct};

    type Shape = FontRecordShape;

    ghost layout = { exact_layout_of struct (λ _. tt) (λ _. refl) };

    fn from_content(found: <FontRecordShape as Shape>::Value) -> FontRecord {
        box_of!(found => FontRecord { font_id, font })
    }

    fn visit<Q: EntryVisitor<Self::Shape>>(&self, question: Q, out: &mut [u8]) -> Q::Answer {
        question.visit(parts_of!(self => font_id, font.as_slice()), out)
    }

    ghost begins = { λ _. lit< tt };
}

/// The names of the fields of a font.
const FONT: &<FontRecordShape as NamedShape>::Names = &names_of!(
    number!("font-ID"),
    run!("font", Text)
);

impl ShownEntry for FontRecord {
    ghost shown = { λ view x. entry_of (⟦<FontRecordShape as NamedShape>⟧.shown FONT.now view
        (⟦<FontRecord as DeclaredEntry>⟧.layout.content x)) };

    ghost whole = { λ view x. whole_entry (⟦<FontRecordShape as NamedShape>⟧.shown FONT.now view
        (⟦<FontRecord as DeclaredEntry>⟧.layout.content x))
        (⟦<FontRecordShape as NamedShape>⟧.whole FONT.now view (⟦<FontRecord as DeclaredEntry>⟧.layout.content x)) };

    fn show<K: FieldSink>(&self, view: View, sink: &mut K) -> mp4_shown::Result<()> {
        sink.begin_entry()?;
        FontRecordShape::show(
            FONT,
            view,
            &parts_of!(self => font_id, font.as_slice()),
            sink,
        )?;
        sink.end_entry()
    }
}

impl TakeEntry for FontRecord {
    ghost taken = { λ c j. entry_made ⟦<FontRecord as DeclaredEntry>⟧.layout.value
        (⟦<FontRecordShape as TakeShape>⟧.taken FONT.now c) j };

    fn take(alloc: Global, context: Context, value: json::Value<'_>) -> taken::Result<FontRecord> {
        take_entry::<FontRecord, FontRecordShape>(alloc, FONT, context, value)
    }
}

impl TryClone for FontRecord {
    fn try_clone(&self) -> Result<FontRecord> {
        Ok(FontRecord {
            font_id: self.font_id,
            font: self.font.try_clone()?,
        })
    }
}

/// The fonts of a timed text (`ftab`, 3GPP TS 26.245, 5.16). It is a box in a `tx3g`.
#[derive(Debug, Drop, PartialEq, Eq)]
pub struct Ftab {
    /// The fonts, at most 65,535.
    pub entries: Entries<FontRecord>,
}

/// The content of the box: a count of 16 bits, and that many fonts.
pub type FtabShape = Last<Each<U16, FontRecord>>;

impl DeclaredBox for Ftab {
    ghost use Rattle.mp4_extra_sound.specs.contracts.ftab.Ftab.{struct};

    type Shape = FtabShape;

    ghost CODE = { FTAB };

    ghost layout = { layout_of struct (λ _. tt) (λ _. refl) (lit< tt) };

    const CODE: u32 = FTAB;

    fn from_content(found: <FtabShape as Shape>::Value) -> Ftab {
        box_of!(found => Ftab { entries })
    }

    fn visit<Q: ShapeVisitor<Self::Shape>>(&self, out: &mut [u8]) -> Q::Answer {
        Q::visit(parts_of!(self => entries.as_slice()), out)
    }

    ghost valid = { refl };
}

/// The names of the fields.
const NAMES: &<FtabShape as NamedShape>::Names = &names_of!(list!(
    "font-entry",
    Counted,
    "entry-count"
));

impl HasFields for Ftab {
    ghost shown = { λ view b. ⟦<FtabShape as NamedShape>⟧.shown NAMES.now view
        (⟦<Ftab as DeclaredBox>⟧.layout.content b) };

    ghost whole = { λ view b. ⟦<FtabShape as NamedShape>⟧.whole NAMES.now view
        (⟦<Ftab as DeclaredBox>⟧.layout.content b) };

    fn show<K: FieldSink>(&self, view: View, sink: &mut K) -> mp4_shown::Result<()> {
        FtabShape::show(NAMES, view, &parts_of!(self => entries.as_slice()), sink)
    }
}

impl TakeFields for Ftab {
    ghost taken = { declared_taken ⟦<Ftab as DeclaredBox>⟧.layout (⟦<FtabShape as TakeShape>⟧.taken NAMES.now) };

    fn take(alloc: Global, object: &mut Object<'_>) -> taken::Result<Ftab> {
        take_declared::<Ftab, FtabShape>(alloc, NAMES, object)
    }
}

impl TryClone for Ftab {
    fn try_clone(&self) -> Result<Ftab> {
        let alloc = *self.entries.allocator();
        let entries = clone_each(alloc, self.entries.as_slice())?;
        Ok(Ftab { entries })
    }
}

/// The font table box.
pub type FtabBox = Declared<Ftab>;
