//! The producer reference time box.

ghost use Rattle.mp4_shown.specs.TakenShapes.{declared_taken};
ghost use Rattle.mp4_extra_samples.specs.declared.prft.TheConstants.{NAMES};
ghost use Rattle.mp4_frame.specs.declared.codes.TheConstants as codes;
ghost use Rattle.std.proofs.Common.{refl, lit<};
ghost use Rattle.mp4_declared.specs.OwnBox.{layout_of};

use mp4_declared::{
    Declared, DeclaredBox, Full, Last, Shape, ShapeVisitor, Time, U32, U64, box_of, parts_of,
};
use mp4_frame::{Result, TryClone, codes};
use mp4_shown::taken::{self, Object, TakeFields, TakeShape, take_declared};
use mp4_shown::{
    FLAGS, FieldSink, HasFields, NamedShape, ShowShape, VERSION, View, names_of, number,
};
use std::alloc::Global;

/// The time at which a producer made a part of the media (`prft`, ISO/IEC 14496-12, 8.16.5).
#[derive(Clone, Copy, Debug, Drop, PartialEq, Eq)]
pub struct Prft {
    /// 0, or 1 for a media time of 64 bits.
    pub version: u8,
    /// 24 bits. They identify the step of production at which the time was taken.
    pub flags: u32,
    /// The track that the times belong to (`reference_track_ID`).
    pub reference_track_id: u32,
    /// The time of the clock, in the format of the Network Time Protocol.
    pub ntp_timestamp: u64,
    /// The media time that corresponds to `ntp_timestamp`, in the timescale of the track. 32 bits in version 0.
    pub media_time: u64,
}

/// The content of the box: version, flags and three numbers.
pub type PrftShape = Full<2, (U32, U64, Last<Time>)>;

impl DeclaredBox for Prft {
    ghost use Rattle.mp4_extra_samples.specs.contracts.prft.Prft.{struct};

    type Shape = PrftShape;

    ghost CODE = { codes.PRFT };

    ghost layout = { layout_of struct (λ _. tt) (λ _. refl) (lit< tt) };

    const CODE: u32 = codes::PRFT;

    fn from_content(found: <PrftShape as Shape>::Value) -> Prft {
        box_of!(found => Prft { version, flags, reference_track_id, ntp_timestamp, media_time })
    }

    fn visit<Q: ShapeVisitor<Self::Shape>>(&self, out: &mut [u8]) -> Q::Answer {
        let parts = parts_of!(self => version, flags, reference_track_id, ntp_timestamp,
            media_time);
        Q::visit(parts, out)
    }

    ghost valid = { refl };
}

/// The names of the fields.
const NAMES: &<PrftShape as NamedShape>::Names = &names_of!(
    VERSION,
    FLAGS,
    number!("reference_track_ID"),
    number!("ntp_timestamp"),
    number!("media_time")
);

impl HasFields for Prft {
    ghost shown = { λ view b. ⟦<PrftShape as NamedShape>⟧.shown NAMES.now view
        (⟦<Prft as DeclaredBox>⟧.layout.content b) };

    ghost whole = { λ view b. ⟦<PrftShape as NamedShape>⟧.whole NAMES.now view
        (⟦<Prft as DeclaredBox>⟧.layout.content b) };

    fn show<K: FieldSink>(&self, view: View, sink: &mut K) -> mp4_shown::Result<()> {
        let parts = parts_of!(self => version, flags, reference_track_id, ntp_timestamp,
            media_time);
        PrftShape::show(NAMES, view, &parts, sink)
    }
}

impl TakeFields for Prft {
    ghost taken = { declared_taken ⟦<Prft as DeclaredBox>⟧.layout (⟦<PrftShape as TakeShape>⟧.taken NAMES.now) };

    fn take(alloc: Global, object: &mut Object<'_>) -> taken::Result<Prft> {
        take_declared::<Prft, PrftShape>(alloc, NAMES, object)
    }
}

impl TryClone for Prft {
    fn try_clone(&self) -> Result<Prft> {
        Ok(*self)
    }
}

/// The producer reference time box.
pub type PrftBox = Declared<Prft>;
