//! The alias of a file with media data.

ghost use Rattle.mp4_shown.specs.TakenShapes.{declared_taken};
ghost use Rattle.mp4_extra_tracks.specs.declared.alis.TheConstants.{NAMES};
ghost use Rattle.mp4_frame.specs.declared.codes.TheConstants as codes;
ghost use Rattle.std.proofs.Common.{refl, lit<};
ghost use Rattle.mp4_declared.specs.OwnBox.{layout_of};

use mp4_declared::{
    Declared, DeclaredBox, Full, Last, Rest, Shape, ShapeVisitor, box_of, parts_of,
};
use mp4_frame::{Entries, Result, TryClone, codes};
use mp4_shown::taken::{self, Object, TakeFields, TakeShape, take_declared};
use mp4_shown::{
    FieldSink, HasFields, Meaning, NamedShape, ShowShape, VERSION, View, names_of, number, run,
};
use std::alloc::Global;

/// A reference to media data by a Macintosh alias (`alis`, QuickTime File Format, "Data reference atoms").
#[derive(Debug, Drop, PartialEq, Eq)]
pub struct Alis {
    /// 0 in QuickTime.
    pub version: u8,
    /// 24 bits. Flag 1 means that the media data are in the same file.
    pub flags: u32,
    /// The bytes of the alias record of the file. Files whose media data are in the same file often have none.
    pub alias: Entries<u8>,
}

/// The content of the box: version, flags, and bytes up to its end.
pub type AlisShape = Full<1, Last<Rest>>;

impl DeclaredBox for Alis {
    ghost use Rattle.mp4_extra_tracks.specs.contracts.alis.Alis.{struct};

    type Shape = AlisShape;

    ghost CODE = { codes.ALIS };

    ghost layout = { layout_of struct (λ _. tt) (λ _. refl) (lit< tt) };

    const CODE: u32 = codes::ALIS;

    fn from_content(found: <AlisShape as Shape>::Value) -> Alis {
        box_of!(found => Alis { version, flags, alias })
    }

    fn visit<Q: ShapeVisitor<Self::Shape>>(&self, out: &mut [u8]) -> Q::Answer {
        Q::visit(parts_of!(self => version, flags, alias.as_slice()), out)
    }

    ghost valid = { refl };
}

/// The flags of a reference to media data (ISO/IEC 14496-12, 8.7.2.1, and QuickTime File Format, "Data reference
/// atoms").
pub const REFERENCE: &[Meaning] = &[(0x1, "same_file")];

/// The names of the fields.
const NAMES: &<AlisShape as NamedShape>::Names = &names_of!(
    VERSION,
    number!("flags", Flags(6), REFERENCE),
    run!("data_bytes", SomeBytes)
);

impl HasFields for Alis {
    ghost shown = { λ view b. ⟦<AlisShape as NamedShape>⟧.shown NAMES.now view
        (⟦<Alis as DeclaredBox>⟧.layout.content b) };

    ghost whole = { λ view b. ⟦<AlisShape as NamedShape>⟧.whole NAMES.now view
        (⟦<Alis as DeclaredBox>⟧.layout.content b) };

    fn show<K: FieldSink>(&self, view: View, sink: &mut K) -> mp4_shown::Result<()> {
        let parts = parts_of!(self => version, flags, alias.as_slice());
        AlisShape::show(NAMES, view, &parts, sink)
    }
}

impl TakeFields for Alis {
    ghost taken = { declared_taken ⟦<Alis as DeclaredBox>⟧.layout (⟦<AlisShape as TakeShape>⟧.taken NAMES.now) };

    fn take(alloc: Global, object: &mut Object<'_>) -> taken::Result<Alis> {
        take_declared::<Alis, AlisShape>(alloc, NAMES, object)
    }
}

impl TryClone for Alis {
    fn try_clone(&self) -> Result<Alis> {
        let alias = self.alias.try_clone()?;
        Ok(Alis { alias, ..*self })
    }
}

/// The alias of a file with media data.
pub type AlisBox = Declared<Alis>;
