//! The bit rate box.

ghost use Rattle.mp4_shown.specs.TakenShapes.{declared_taken};
ghost use Rattle.mp4_extra_pictures.specs.declared.btrt.TheConstants.{NAMES};
ghost use Rattle.mp4_frame.specs.declared.codes.TheConstants as codes;
ghost use Rattle.std.proofs.Common.{refl, lit<};
ghost use Rattle.mp4_declared.specs.OwnBox.{layout_of};

use mp4_declared::{Declared, DeclaredBox, Last, Shape, ShapeVisitor, U32, box_of, parts_of};
use mp4_frame::{Result, TryClone, codes};
use mp4_shown::taken::{self, Object, TakeFields, TakeShape, take_declared};
use mp4_shown::{FieldSink, HasFields, NamedShape, ShowShape, View, names_of, number};
use std::alloc::Global;

/// The bit rates of the media of a sample entry (`btrt`, ISO/IEC 14496-12, 8.5.2.2).
#[derive(Clone, Copy, Debug, Drop, PartialEq, Eq)]
pub struct Btrt {
    /// The size of the decoding buffer for the elementary stream (`bufferSizeDB`), in bytes.
    pub buffer_size_db: u32,
    /// The largest rate over any window of one second (`maxBitrate`), in bits per second.
    pub max_bitrate: u32,
    /// The average rate over the whole presentation (`avgBitrate`), in bits per second.
    pub avg_bitrate: u32,
}

/// The content of the box: three numbers.
pub type BtrtShape = (U32, U32, Last<U32>);

impl DeclaredBox for Btrt {
    ghost use Rattle.mp4_extra_pictures.specs.contracts.btrt.Btrt.{struct};

    type Shape = BtrtShape;

    ghost CODE = { codes.BTRT };

    ghost layout = { layout_of struct (λ _. tt) (λ _. refl) (lit< tt) };

    const CODE: u32 = codes::BTRT;

    fn from_content(found: <BtrtShape as Shape>::Value) -> Btrt {
        box_of!(found => Btrt { buffer_size_db, max_bitrate, avg_bitrate })
    }

    fn visit<Q: ShapeVisitor<Self::Shape>>(&self, out: &mut [u8]) -> Q::Answer {
        Q::visit(
            parts_of!(self => buffer_size_db, max_bitrate, avg_bitrate),
            out,
        )
    }

    ghost valid = { refl };
}

/// The names of the fields.
const NAMES: &<BtrtShape as NamedShape>::Names = &names_of!(
    number!("bufferSizeDB"),
    number!("maxBitrate"),
    number!("avgBitrate")
);

impl HasFields for Btrt {
    ghost shown = { λ view b. ⟦<BtrtShape as NamedShape>⟧.shown NAMES.now view
        (⟦<Btrt as DeclaredBox>⟧.layout.content b) };

    ghost whole = { λ view b. ⟦<BtrtShape as NamedShape>⟧.whole NAMES.now view
        (⟦<Btrt as DeclaredBox>⟧.layout.content b) };

    fn show<K: FieldSink>(&self, view: View, sink: &mut K) -> mp4_shown::Result<()> {
        let parts = parts_of!(self => buffer_size_db, max_bitrate, avg_bitrate);
        BtrtShape::show(NAMES, view, &parts, sink)
    }
}

impl TakeFields for Btrt {
    ghost taken = { declared_taken ⟦<Btrt as DeclaredBox>⟧.layout (⟦<BtrtShape as TakeShape>⟧.taken NAMES.now) };

    fn take(alloc: Global, object: &mut Object<'_>) -> taken::Result<Btrt> {
        take_declared::<Btrt, BtrtShape>(alloc, NAMES, object)
    }
}

impl TryClone for Btrt {
    fn try_clone(&self) -> Result<Btrt> {
        Ok(*self)
    }
}

/// The bit rate box.
pub type BtrtBox = Declared<Btrt>;
