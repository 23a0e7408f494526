//! The extended language box.

ghost use Rattle.mp4_shown.specs.TakenShapes.{declared_taken};
ghost use Rattle.mp4_extra_tracks.specs.declared.elng.TheConstants.{NAMES};
ghost use Rattle.mp4_frame.specs.declared.codes.TheConstants as codes;
ghost use Rattle.std.proofs.Common.{refl, lit<};
ghost use Rattle.mp4_declared.specs.OwnBox.{layout_of};

use mp4_declared::{
    Declared, DeclaredBox, Full, Last, Rest, Shape, ShapeVisitor, box_of, parts_of,
};
use mp4_frame::{Entries, Result, TryClone, codes};
use mp4_shown::taken::{self, Object, TakeFields, TakeShape, take_declared};
use mp4_shown::{FLAGS, FieldSink, HasFields, NamedShape, ShowShape, VERSION, View, names_of, run};
use std::alloc::Global;

/// The language of a track's media (`elng`, ISO/IEC 14496-12, 8.4.6).
#[derive(Debug, Drop, PartialEq, Eq)]
pub struct Elng {
    /// 0 in the standard.
    pub version: u8,
    /// 24 bits, 0 in the standard.
    pub flags: u32,
    /// A BCP 47 tag such as `en-US`, in UTF-8, including the zero byte that ends it.
    pub extended_language: Entries<u8>,
}

/// The content of the box: version, flags, and bytes up to its end.
pub type ElngShape = Full<1, Last<Rest>>;

impl DeclaredBox for Elng {
    ghost use Rattle.mp4_extra_tracks.specs.contracts.elng.Elng.{struct};

    type Shape = ElngShape;

    ghost CODE = { codes.ELNG };

    ghost layout = { layout_of struct (λ _. tt) (λ _. refl) (lit< tt) };

    const CODE: u32 = codes::ELNG;

    fn from_content(found: <ElngShape as Shape>::Value) -> Elng {
        box_of!(found => Elng { version, flags, extended_language })
    }

    fn visit<Q: ShapeVisitor<Self::Shape>>(&self, out: &mut [u8]) -> Q::Answer {
        Q::visit(
            parts_of!(self => version, flags, extended_language.as_slice()),
            out,
        )
    }

    ghost valid = { refl };
}

/// The names of the fields.
const NAMES: &<ElngShape as NamedShape>::Names = &names_of!(
    VERSION,
    FLAGS,
    run!("extended_language", Ended)
);

impl HasFields for Elng {
    ghost shown = { λ view b. ⟦<ElngShape as NamedShape>⟧.shown NAMES.now view
        (⟦<Elng as DeclaredBox>⟧.layout.content b) };

    ghost whole = { λ view b. ⟦<ElngShape as NamedShape>⟧.whole NAMES.now view
        (⟦<Elng as DeclaredBox>⟧.layout.content b) };

    fn show<K: FieldSink>(&self, view: View, sink: &mut K) -> mp4_shown::Result<()> {
        let parts = parts_of!(self => version, flags, extended_language.as_slice());
        ElngShape::show(NAMES, view, &parts, sink)
    }
}

impl TakeFields for Elng {
    ghost taken = { declared_taken ⟦<Elng as DeclaredBox>⟧.layout (⟦<ElngShape as TakeShape>⟧.taken NAMES.now) };

    fn take(alloc: Global, object: &mut Object<'_>) -> taken::Result<Elng> {
        take_declared::<Elng, ElngShape>(alloc, NAMES, object)
    }
}

impl TryClone for Elng {
    fn try_clone(&self) -> Result<Elng> {
        let extended_language = self.extended_language.try_clone()?;
        Ok(Elng {
            extended_language,
            ..*self
        })
    }
}

/// The extended language box.
pub type ElngBox = Declared<Elng>;
