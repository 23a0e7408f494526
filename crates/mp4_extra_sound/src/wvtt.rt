//! The sample entry of WebVTT.

ghost use Rattle.mp4_shown.specs.TakenShapes.{declared_taken};
ghost use Rattle.mp4_extra_sound.specs.declared.wvtt.TheConstants.{NAMES};
ghost use Rattle.mp4_frame.specs.declared.codes.TheConstants as codes;
ghost use Rattle.mp4_declared.specs.OwnBox.{layout_of};
ghost use Rattle.std.proofs.Common.{refl, lit<};

use mp4_declared::declaring::*;
use mp4_frame::{Result, codes};
use mp4_shown::taken::{self, Object, TakeFields, TakeShape, take_declared};
use mp4_shown::{FieldSink, HasFields, NamedShape, ShowShape, View, names_of, number, run};
use std::alloc::Global;

/// The sample entry of WebVTT (`wvtt`, ISO/IEC 14496-30, 7.5).
#[derive(Debug, Drop, PartialEq, Eq)]
pub struct Wvtt {
    /// The number of the data reference that holds the samples, starting at 1.
    pub data_reference_index: u16,
    /// The bytes of the boxes inside: the text before the first cue (`vttC`), and optionally the source of the text
    /// (`vlab`) and its bit rates (`btrt`).
    pub boxes: Entries<u8>,
}

/// The content of the box: six reserved bytes, a number, and bytes up to its end.
pub type WvttShape = Reserved<6, (U16, Last<Rest>)>;

impl DeclaredBox for Wvtt {
    ghost use Rattle.mp4_extra_sound.specs.contracts.wvtt.Wvtt.{struct};

    type Shape = WvttShape;

    ghost CODE = { codes.WVTT };

    ghost layout = { layout_of struct (λ _. tt) (λ _. refl) (lit< tt) };

    const CODE: u32 = codes::WVTT;

    fn from_content(found: <WvttShape as Shape>::Value) -> Wvtt {
        box_of!(found => Wvtt { data_reference_index, boxes })
    }

    fn visit<Q: ShapeVisitor<Self::Shape>>(&self, out: &mut [u8]) -> Q::Answer {
        let parts = parts_of!(self => data_reference_index, boxes.as_slice());
        Q::visit(parts, out)
    }

    ghost valid = { refl };
}

/// The names of the fields.
const NAMES: &<WvttShape as NamedShape>::Names = &names_of!(
    number!("data_reference_index"),
    run!("data_bytes", SomeBytes)
);

impl HasFields for Wvtt {
    ghost shown = { λ view b. ⟦<WvttShape as NamedShape>⟧.shown NAMES.now view
        (⟦<Wvtt as DeclaredBox>⟧.layout.content b) };

    ghost whole = { λ view b. ⟦<WvttShape as NamedShape>⟧.whole NAMES.now view
        (⟦<Wvtt as DeclaredBox>⟧.layout.content b) };

    fn show<K: FieldSink>(&self, view: View, sink: &mut K) -> mp4_shown::Result<()> {
        let parts = parts_of!(self => data_reference_index, boxes.as_slice());
        WvttShape::show(NAMES, view, &parts, sink)
    }
}

impl TakeFields for Wvtt {
    ghost taken = { declared_taken ⟦<Wvtt as DeclaredBox>⟧.layout (⟦<WvttShape as TakeShape>⟧.taken NAMES.now) };

    fn take(alloc: Global, object: &mut Object<'_>) -> taken::Result<Wvtt> {
        take_declared::<Wvtt, WvttShape>(alloc, NAMES, object)
    }
}

impl TryClone for Wvtt {
    fn try_clone(&self) -> Result<Wvtt> {
        let boxes = self.boxes.try_clone()?;
        Ok(Wvtt { boxes, ..*self })
    }
}

/// The sample entry of WebVTT.
pub type WvttBox = Declared<Wvtt>;
