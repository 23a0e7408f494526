//! The domain box of a metadata item.

ghost use Rattle.mp4_shown.specs.TakenShapes.{declared_taken};
ghost use Rattle.mp4_extra_tracks.specs.declared.mean.TheConstants.{NAMES};
ghost use Rattle.mp4_frame.specs.declared.codes.TheConstants as codes;
ghost use Rattle.mp4_declared.specs.OwnBox.{layout_of};
ghost use Rattle.std.proofs.Common.{refl, lit<};

use mp4_declared::declaring::*;
use mp4_frame::{Result, codes};
use mp4_shown::taken::{self, Object, TakeFields, TakeShape, take_declared};
use mp4_shown::{FLAGS, FieldSink, HasFields, NamedShape, ShowShape, VERSION, View, names_of, run};
use std::alloc::Global;

/// The domain of the name of a metadata item (`mean`, iTunes, metadata). The item has the code `----`, and a `name`
/// beside this box.
#[derive(Debug, Drop, PartialEq, Eq)]
pub struct Mean {
    /// 0 in iTunes.
    pub version: u8,
    /// 24 bits, 0 in iTunes.
    pub flags: u32,
    /// The domain, such as `com.apple.iTunes`, in UTF-8 without a terminator.
    pub value: Entries<u8>,
}

/// The content of the box: version, flags, and bytes up to its end.
pub type MeanShape = Full<1, Last<Rest>>;

impl DeclaredBox for Mean {
    ghost use Rattle.mp4_extra_tracks.specs.contracts.mean.Mean.{struct};

    type Shape = MeanShape;

    ghost CODE = { codes.MEAN };

    ghost layout = { layout_of struct (λ _. tt) (λ _. refl) (lit< tt) };

    const CODE: u32 = codes::MEAN;

    fn from_content(found: <MeanShape as Shape>::Value) -> Mean {
        box_of!(found => Mean { version, flags, value })
    }

    fn visit<Q: ShapeVisitor<Self::Shape>>(&self, out: &mut [u8]) -> Q::Answer {
        let parts = parts_of!(self => version, flags, value.as_slice());
        Q::visit(parts, out)
    }

    ghost valid = { refl };
}

/// The names of the fields.
const NAMES: &<MeanShape as NamedShape>::Names = &names_of!(VERSION, FLAGS, run!("value", Text));

impl HasFields for Mean {
    ghost shown = { λ view b. ⟦<MeanShape as NamedShape>⟧.shown NAMES.now view
        (⟦<Mean as DeclaredBox>⟧.layout.content b) };

    ghost whole = { λ view b. ⟦<MeanShape as NamedShape>⟧.whole NAMES.now view
        (⟦<Mean as DeclaredBox>⟧.layout.content b) };

    fn show<K: FieldSink>(&self, view: View, sink: &mut K) -> mp4_shown::Result<()> {
        let parts = parts_of!(self => version, flags, value.as_slice());
        MeanShape::show(NAMES, view, &parts, sink)
    }
}

impl TakeFields for Mean {
    ghost taken = { declared_taken ⟦<Mean as DeclaredBox>⟧.layout (⟦<MeanShape as TakeShape>⟧.taken NAMES.now) };

    fn take(alloc: Global, object: &mut Object<'_>) -> taken::Result<Mean> {
        take_declared::<Mean, MeanShape>(alloc, NAMES, object)
    }
}

impl TryClone for Mean {
    fn try_clone(&self) -> Result<Mean> {
        let value = self.value.try_clone()?;
        Ok(Mean { value, ..*self })
    }
}

/// The domain box of a metadata item.
pub type MeanBox = Declared<Mean>;
