//! The level assignment box.

ghost use Rattle.mp4_shown.specs.TakenShapes.{declared_taken};
ghost use Rattle.mp4_extra_samples.specs.declared.leva.TheConstants.{NAMES};
ghost use Rattle.mp4_frame.specs.declared.codes.TheConstants as codes;
ghost use Rattle.mp4_declared.specs.OwnBox.{layout_of};
ghost use Rattle.std.proofs.Common.{refl, lit<};

use mp4_declared::declaring::*;
use mp4_frame::{Result, codes};
use mp4_shown::taken::{self, Object, TakeFields, TakeShape, take_declared};
use mp4_shown::{
    FLAGS, FieldSink, HasFields, NamedShape, ShowShape, VERSION, View, names_of, number, run,
};
use std::alloc::Global;

/// The levels into which fragments are divided (`leva`, ISO/IEC 14496-12, 8.8.13).
#[derive(Debug, Drop, PartialEq, Eq)]
pub struct Leva {
    /// 0 in the standard.
    pub version: u8,
    /// 24 bits, 0 in the standard.
    pub flags: u32,
    /// The number of levels, at least 2 in the standard.
    pub level_count: u8,
    /// The bytes of the levels. Each level has the `track_ID` of a track, a bit that is set if its data may be padded
    /// (`padding_flag`), and 7 bits for what makes a level (`assignment_type`): 0 for a sample group, whose
    /// `grouping_type` follows; 1 for a sample group with a parameter, whose `grouping_type` and
    /// `grouping_type_parameter` follow; 2 and 3 for tracks; 4 for a sub-track, whose `sub_track_ID` follows.
    pub levels: Entries<u8>,
}

/// The content of the box: version, flags, a number, and bytes up to its end.
pub type LevaShape = Full<1, (U8, Last<Rest>)>;

impl DeclaredBox for Leva {
    ghost use Rattle.mp4_extra_samples.specs.contracts.leva.Leva.{struct};

    type Shape = LevaShape;

    ghost CODE = { codes.LEVA };

    ghost layout = { layout_of struct (λ _. tt) (λ _. refl) (lit< tt) };

    const CODE: u32 = codes::LEVA;

    fn from_content(found: <LevaShape as Shape>::Value) -> Leva {
        box_of!(found => Leva { version, flags, level_count, levels })
    }

    fn visit<Q: ShapeVisitor<Self::Shape>>(&self, out: &mut [u8]) -> Q::Answer {
        let parts = parts_of!(self => version, flags, level_count, levels.as_slice());
        Q::visit(parts, out)
    }

    ghost valid = { refl };
}

/// The names of the fields.
const NAMES: &<LevaShape as NamedShape>::Names = &names_of!(
    VERSION,
    FLAGS,
    number!("level_count"),
    run!("data_bytes", SomeBytes)
);

impl HasFields for Leva {
    ghost shown = { λ view b. ⟦<LevaShape as NamedShape>⟧.shown NAMES.now view
        (⟦<Leva as DeclaredBox>⟧.layout.content b) };

    ghost whole = { λ view b. ⟦<LevaShape as NamedShape>⟧.whole NAMES.now view
        (⟦<Leva as DeclaredBox>⟧.layout.content b) };

    fn show<K: FieldSink>(&self, view: View, sink: &mut K) -> mp4_shown::Result<()> {
        let parts = parts_of!(self => version, flags, level_count, levels.as_slice());
        LevaShape::show(NAMES, view, &parts, sink)
    }
}

impl TakeFields for Leva {
    ghost taken = { declared_taken ⟦<Leva as DeclaredBox>⟧.layout (⟦<LevaShape as TakeShape>⟧.taken NAMES.now) };

    fn take(alloc: Global, object: &mut Object<'_>) -> taken::Result<Leva> {
        take_declared::<Leva, LevaShape>(alloc, NAMES, object)
    }
}

impl TryClone for Leva {
    fn try_clone(&self) -> Result<Leva> {
        let levels = self.levels.try_clone()?;
        Ok(Leva { levels, ..*self })
    }
}

/// The level assignment box.
pub type LevaBox = Declared<Leva>;
