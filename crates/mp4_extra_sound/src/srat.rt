//! The sampling rate box.

ghost use Rattle.mp4_shown.specs.TakenShapes.{declared_taken};
ghost use Rattle.mp4_extra_sound.specs.declared.srat.TheConstants.{NAMES};
ghost use Rattle.mp4_frame.specs.declared.codes.TheConstants as codes;
ghost use Rattle.mp4_declared.specs.OwnBox.{layout_of};
ghost use Rattle.std.proofs.Common.{refl, lit<};

use mp4_declared::declaring::*;
use mp4_frame::{Result, codes};
use mp4_shown::taken::{self, Object, TakeFields, TakeShape, take_declared};
use mp4_shown::{
    FLAGS, FieldSink, HasFields, NamedShape, ShowShape, VERSION, View, names_of, number,
};
use std::alloc::Global;

/// The sample rate of a sound, if the 16 bits of its sample entry can't hold it (`srat`, ISO/IEC 14496-12, 12.2.3).
#[derive(Clone, Copy, Debug, Drop, PartialEq, Eq)]
pub struct Srat {
    /// 0 in the standard.
    pub version: u8,
    /// 24 bits, 0 in the standard.
    pub flags: u32,
    /// The number of samples in a second.
    pub sampling_rate: u32,
}

/// The content of the box: version, flags and a number.
pub type SratShape = Full<1, Last<U32>>;

impl DeclaredBox for Srat {
    ghost use Rattle.mp4_extra_sound.specs.contracts.srat.Srat.{struct};

    type Shape = SratShape;

    ghost CODE = { codes.SRAT };

    ghost layout = { layout_of struct (λ _. tt) (λ _. refl) (lit< tt) };

    const CODE: u32 = codes::SRAT;

    fn from_content(found: <SratShape as Shape>::Value) -> Srat {
        box_of!(found => Srat { version, flags, sampling_rate })
    }

    fn visit<Q: ShapeVisitor<Self::Shape>>(&self, out: &mut [u8]) -> Q::Answer {
        let parts = parts_of!(self => version, flags, sampling_rate);
        Q::visit(parts, out)
    }

    ghost valid = { refl };
}

/// The names of the fields.
const NAMES: &<SratShape as NamedShape>::Names = &names_of!(
    VERSION,
    FLAGS,
    number!("sampling_rate")
);

impl HasFields for Srat {
    ghost shown = { λ view b. ⟦<SratShape as NamedShape>⟧.shown NAMES.now view
        (⟦<Srat as DeclaredBox>⟧.layout.content b) };

    ghost whole = { λ view b. ⟦<SratShape as NamedShape>⟧.whole NAMES.now view
        (⟦<Srat as DeclaredBox>⟧.layout.content b) };

    fn show<K: FieldSink>(&self, view: View, sink: &mut K) -> mp4_shown::Result<()> {
        let parts = parts_of!(self => version, flags, sampling_rate);
        SratShape::show(NAMES, view, &parts, sink)
    }
}

impl TakeFields for Srat {
    ghost taken = { declared_taken ⟦<Srat as DeclaredBox>⟧.layout (⟦<SratShape as TakeShape>⟧.taken NAMES.now) };

    fn take(alloc: Global, object: &mut Object<'_>) -> taken::Result<Srat> {
        take_declared::<Srat, SratShape>(alloc, NAMES, object)
    }
}

impl TryClone for Srat {
    fn try_clone(&self) -> Result<Srat> {
        Ok(*self)
    }
}

/// The sampling rate box.
pub type SratBox = Declared<Srat>;
