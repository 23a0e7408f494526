//! The hint media header box.

ghost use Rattle.mp4_shown.specs.TakenShapes.{declared_taken};
ghost use Rattle.mp4_extra_sound.specs.declared.hmhd.TheConstants.{NAMES};
ghost use Rattle.mp4_frame.specs.declared.codes.TheConstants as codes;
ghost use Rattle.mp4_declared.specs.OwnBox.{layout_of};
ghost use Rattle.std.proofs.Common.{refl, lit<};

use mp4_declared::Zeros;
use mp4_declared::declaring::*;
use mp4_frame::{Result, codes};
use mp4_shown::taken::{self, Object, TakeFields, TakeShape, take_declared};
use mp4_shown::{
    FLAGS, FieldSink, HasFields, NamedShape, ShowShape, VERSION, View, names_of, number,
};
use std::alloc::Global;

/// The media header of hints (`hmhd`, ISO/IEC 14496-12, 12.4.2). A PDU is a packet of the protocol.
#[derive(Clone, Copy, Debug, Drop, PartialEq, Eq)]
pub struct Hmhd {
    /// 0 in the standard.
    pub version: u8,
    /// 24 bits, 0 in the standard.
    pub flags: u32,
    /// The number of bytes of the largest PDU (`maxPDUsize`).
    pub max_pdu_size: u16,
    /// The average number of bytes of a PDU (`avgPDUsize`).
    pub avg_pdu_size: u16,
    /// The largest rate over any window of one second (`maxbitrate`), in bits per second.
    pub max_bitrate: u32,
    /// The average rate (`avgbitrate`), in bits per second.
    pub avg_bitrate: u32,
}

/// The content of the box: version, flags, four numbers, and four reserved bytes.
pub type HmhdShape = Full<1, (U16, U16, U32, U32, Zeros<4>)>;

impl DeclaredBox for Hmhd {
    ghost use Rattle.mp4_extra_sound.specs.contracts.hmhd.Hmhd.{struct};

    type Shape = HmhdShape;

    ghost CODE = { codes.HMHD };

    ghost layout = { layout_of struct (λ _. tt) (λ _. refl) (lit< tt) };

    const CODE: u32 = codes::HMHD;

    fn from_content(found: <HmhdShape as Shape>::Value) -> Hmhd {
        box_of!(found => Hmhd { version, flags, max_pdu_size, avg_pdu_size, max_bitrate,
            avg_bitrate })
    }

    fn visit<Q: ShapeVisitor<Self::Shape>>(&self, out: &mut [u8]) -> Q::Answer {
        let parts = parts_of!(self => version, flags, max_pdu_size, avg_pdu_size, max_bitrate,
            avg_bitrate);
        Q::visit(parts, out)
    }

    ghost valid = { refl };
}

/// The names of the fields.
const NAMES: &<HmhdShape as NamedShape>::Names = &names_of!(
    VERSION,
    FLAGS,
    number!("maxPDUsize"),
    number!("avgPDUsize"),
    number!("maxbitrate"),
    number!("avgbitrate")
);

impl HasFields for Hmhd {
    ghost shown = { λ view b. ⟦<HmhdShape as NamedShape>⟧.shown NAMES.now view
        (⟦<Hmhd as DeclaredBox>⟧.layout.content b) };

    ghost whole = { λ view b. ⟦<HmhdShape as NamedShape>⟧.whole NAMES.now view
        (⟦<Hmhd as DeclaredBox>⟧.layout.content b) };

    fn show<K: FieldSink>(&self, view: View, sink: &mut K) -> mp4_shown::Result<()> {
        let parts = parts_of!(self => version, flags, max_pdu_size, avg_pdu_size, max_bitrate,
            avg_bitrate);
        HmhdShape::show(NAMES, view, &parts, sink)
    }
}

impl TakeFields for Hmhd {
    ghost taken = { declared_taken ⟦<Hmhd as DeclaredBox>⟧.layout (⟦<HmhdShape as TakeShape>⟧.taken NAMES.now) };

    fn take(alloc: Global, object: &mut Object<'_>) -> taken::Result<Hmhd> {
        take_declared::<Hmhd, HmhdShape>(alloc, NAMES, object)
    }
}

impl TryClone for Hmhd {
    fn try_clone(&self) -> Result<Hmhd> {
        Ok(*self)
    }
}

/// The hint media header box.
pub type HmhdBox = Declared<Hmhd>;
