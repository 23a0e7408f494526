//! The primary item box.

ghost use Rattle.mp4_shown.specs.TakenShapes.{declared_taken};
ghost use Rattle.mp4_extra_tracks.specs.declared.pitm.TheConstants.{NAMES};
ghost use Rattle.mp4_frame.specs.declared.codes.TheConstants as codes;
ghost use Rattle.mp4_declared.specs.OwnBox.{layout_of};
ghost use Rattle.std.proofs.Common.{refl, lit<};

use crate::item_id::ItemId;
use mp4_declared::declaring::*;
use mp4_frame::{Result, codes};
use mp4_shown::taken::{self, Object, TakeFields, TakeShape, take_declared};
use mp4_shown::{
    FLAGS, FieldSink, HasFields, NamedShape, ShowShape, VERSION, View, names_of, number,
};
use std::alloc::Global;

/// The item to show first, such as the main image of a file (`pitm`, ISO/IEC 14496-12, 8.11.4).
#[derive(Clone, Copy, Debug, Drop, PartialEq, Eq)]
pub struct Pitm {
    /// 0, or 1 for an `item_id` of 32 bits.
    pub version: u8,
    /// 24 bits, 0 in the standard.
    pub flags: u32,
    /// The number of the item (`item_ID`). 16 bits in version 0.
    pub item_id: u32,
}

/// The content of the box: version, flags and the number of an item.
pub type PitmShape = Full<2, Last<ItemId<1>>>;

impl DeclaredBox for Pitm {
    ghost use Rattle.mp4_extra_tracks.specs.contracts.pitm.Pitm.{struct};

    type Shape = PitmShape;

    ghost CODE = { codes.PITM };

    ghost layout = { layout_of struct (λ _. tt) (λ _. refl) (lit< tt) };

    const CODE: u32 = codes::PITM;

    fn from_content(found: <PitmShape as Shape>::Value) -> Pitm {
        box_of!(found => Pitm { version, flags, item_id })
    }

    fn visit<Q: ShapeVisitor<Self::Shape>>(&self, out: &mut [u8]) -> Q::Answer {
        let parts = parts_of!(self => version, flags, item_id);
        Q::visit(parts, out)
    }

    ghost valid = { refl };
}

/// The names of the fields.
const NAMES: &<PitmShape as NamedShape>::Names = &names_of!(VERSION, FLAGS, number!("item_ID"));

impl HasFields for Pitm {
    ghost shown = { λ view b. ⟦<PitmShape as NamedShape>⟧.shown NAMES.now view
        (⟦<Pitm as DeclaredBox>⟧.layout.content b) };

    ghost whole = { λ view b. ⟦<PitmShape as NamedShape>⟧.whole NAMES.now view
        (⟦<Pitm as DeclaredBox>⟧.layout.content b) };

    fn show<K: FieldSink>(&self, view: View, sink: &mut K) -> mp4_shown::Result<()> {
        let parts = parts_of!(self => version, flags, item_id);
        PitmShape::show(NAMES, view, &parts, sink)
    }
}

impl TakeFields for Pitm {
    ghost taken = { declared_taken ⟦<Pitm as DeclaredBox>⟧.layout (⟦<PitmShape as TakeShape>⟧.taken NAMES.now) };

    fn take(alloc: Global, object: &mut Object<'_>) -> taken::Result<Pitm> {
        take_declared::<Pitm, PitmShape>(alloc, NAMES, object)
    }
}

impl TryClone for Pitm {
    fn try_clone(&self) -> Result<Pitm> {
        Ok(*self)
    }
}

/// The primary item box.
pub type PitmBox = Declared<Pitm>;
