//! The object descriptor box.

ghost use Rattle.mp4_shown.specs.TakenShapes.{declared_taken};
ghost use Rattle.mp4_extra_tracks.specs.declared.iods.TheConstants.{NAMES};
ghost use Rattle.mp4_frame.specs.declared.codes.TheConstants as codes;
ghost use Rattle.mp4_declared.specs.OwnBox.{layout_of};
ghost use Rattle.std.proofs.Common.{refl, lit<};

use mp4_declared::declaring::*;
use mp4_frame::{Result, codes};
use mp4_shown::taken::{self, Object, TakeFields, TakeShape, take_declared};
use mp4_shown::{FLAGS, FieldSink, HasFields, NamedShape, ShowShape, VERSION, View, names_of, run};
use std::alloc::Global;

/// The description of an MPEG-4 presentation (`iods`, ISO/IEC 14496-14, 5.1).
#[derive(Debug, Drop, PartialEq, Eq)]
pub struct Iods {
    /// 0 in the standard.
    pub version: u8,
    /// 24 bits, 0 in the standard.
    pub flags: u32,
    /// The bytes of the object descriptor (`OD`, ISO/IEC 14496-1, 7.2.6).
    pub descriptor: Entries<u8>,
}

/// The content of the box: version, flags, and bytes up to its end.
pub type IodsShape = Full<1, Last<Rest>>;

impl DeclaredBox for Iods {
    ghost use Rattle.mp4_extra_tracks.specs.contracts.iods.Iods.{struct};

    type Shape = IodsShape;

    ghost CODE = { codes.IODS };

    ghost layout = { layout_of struct (λ _. tt) (λ _. refl) (lit< tt) };

    const CODE: u32 = codes::IODS;

    fn from_content(found: <IodsShape as Shape>::Value) -> Iods {
        box_of!(found => Iods { version, flags, descriptor })
    }

    fn visit<Q: ShapeVisitor<Self::Shape>>(&self, out: &mut [u8]) -> Q::Answer {
        let parts = parts_of!(self => version, flags, descriptor.as_slice());
        Q::visit(parts, out)
    }

    ghost valid = { refl };
}

/// The names of the fields.
const NAMES: &<IodsShape as NamedShape>::Names = &names_of!(VERSION, FLAGS, run!("OD", Bytes));

impl HasFields for Iods {
    ghost shown = { λ view b. ⟦<IodsShape as NamedShape>⟧.shown NAMES.now view
        (⟦<Iods as DeclaredBox>⟧.layout.content b) };

    ghost whole = { λ view b. ⟦<IodsShape as NamedShape>⟧.whole NAMES.now view
        (⟦<Iods as DeclaredBox>⟧.layout.content b) };

    fn show<K: FieldSink>(&self, view: View, sink: &mut K) -> mp4_shown::Result<()> {
        let parts = parts_of!(self => version, flags, descriptor.as_slice());
        IodsShape::show(NAMES, view, &parts, sink)
    }
}

impl TakeFields for Iods {
    ghost taken = { declared_taken ⟦<Iods as DeclaredBox>⟧.layout (⟦<IodsShape as TakeShape>⟧.taken NAMES.now) };

    fn take(alloc: Global, object: &mut Object<'_>) -> taken::Result<Iods> {
        take_declared::<Iods, IodsShape>(alloc, NAMES, object)
    }
}

impl TryClone for Iods {
    fn try_clone(&self) -> Result<Iods> {
        let descriptor = self.descriptor.try_clone()?;
        Ok(Iods {
            descriptor,
            ..*self
        })
    }
}

/// The object descriptor box.
pub type IodsBox = Declared<Iods>;
