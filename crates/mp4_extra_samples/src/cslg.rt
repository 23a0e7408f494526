//! The composition to decode box.

ghost use Rattle.mp4_shown.specs.TakenShapes.{declared_taken};
ghost use Rattle.mp4_extra_samples.specs.declared.cslg.TheConstants.{NAMES};
ghost use Rattle.mp4_frame.specs.declared.codes.TheConstants as codes;
ghost use Rattle.mp4_declared.specs.OwnBox.{layout_of};
ghost use Rattle.std.proofs.Common.{refl, lit<};

use mp4_declared::SignedTime;
use mp4_declared::declaring::*;
use mp4_frame::{Result, codes};
use mp4_shown::taken::{self, Object, TakeFields, TakeShape, take_declared};
use mp4_shown::{
    FLAGS, FieldSink, HasFields, NamedShape, ShowShape, VERSION, View, names_of, number,
};
use std::alloc::Global;

/// The relation of a track's composition times to its decoding times (`cslg`, ISO/IEC 14496-12, 8.6.1.4). Times are in
/// the timescale of the media. They have 32 bits in version 0, 64 in version 1.
#[derive(Clone, Copy, Debug, Drop, PartialEq, Eq)]
pub struct Cslg {
    /// 0, or 1 for times of 64 bits.
    pub version: u8,
    /// 24 bits, 0 in the standard.
    pub flags: u32,
    /// The time to add to composition times so that none is before its sample's decoding time
    /// (`compositionToDTSShift`).
    pub composition_to_dts_shift: i64,
    /// The smallest offset in the track's `ctts` (`leastDecodeToDisplayDelta`).
    pub least_decode_to_display_delta: i64,
    /// The largest offset in the track's `ctts` (`greatestDecodeToDisplayDelta`).
    pub greatest_decode_to_display_delta: i64,
    /// The smallest composition time of any sample (`compositionStartTime`).
    pub composition_start_time: i64,
    /// The end of the sample with the largest composition time (`compositionEndTime`); 0 if it is unknown.
    pub composition_end_time: i64,
}

/// The content of the box: version, flags and five signed times.
pub type CslgShape = Full<
    2,
    (
        SignedTime,
        SignedTime,
        SignedTime,
        SignedTime,
        Last<SignedTime>,
    ),
>;

impl DeclaredBox for Cslg {
    ghost use Rattle.mp4_extra_samples.specs.contracts.cslg.Cslg.{struct};

    type Shape = CslgShape;

    ghost CODE = { codes.CSLG };

    ghost layout = { layout_of struct (λ _. tt) (λ _. refl) (lit< tt) };

    const CODE: u32 = codes::CSLG;

    fn from_content(found: <CslgShape as Shape>::Value) -> Cslg {
        box_of!(found => Cslg { version, flags, composition_to_dts_shift, least_decode_to_display_delta,
            greatest_decode_to_display_delta, composition_start_time, composition_end_time })
    }

    fn visit<Q: ShapeVisitor<Self::Shape>>(&self, out: &mut [u8]) -> Q::Answer {
        let parts =
            parts_of!(self => version, flags, composition_to_dts_shift, least_decode_to_display_delta,
            greatest_decode_to_display_delta, composition_start_time, composition_end_time);
        Q::visit(parts, out)
    }

    ghost valid = { refl };
}

/// The names of the fields.
const NAMES: &<CslgShape as NamedShape>::Names = &names_of!(
    VERSION,
    FLAGS,
    number!("compositionToDTSShift"),
    number!("leastDecodeToDisplayDelta"),
    number!("greatestDecodeToDisplayDelta"),
    number!("compositionStartTime"),
    number!("compositionEndTime")
);

impl HasFields for Cslg {
    ghost shown = { λ view b. ⟦<CslgShape as NamedShape>⟧.shown NAMES.now view
        (⟦<Cslg as DeclaredBox>⟧.layout.content b) };

    ghost whole = { λ view b. ⟦<CslgShape as NamedShape>⟧.whole NAMES.now view
        (⟦<Cslg as DeclaredBox>⟧.layout.content b) };

    fn show<K: FieldSink>(&self, view: View, sink: &mut K) -> mp4_shown::Result<()> {
        let parts =
            parts_of!(self => version, flags, composition_to_dts_shift, least_decode_to_display_delta,
            greatest_decode_to_display_delta, composition_start_time, composition_end_time);
        CslgShape::show(NAMES, view, &parts, sink)
    }
}

impl TakeFields for Cslg {
    ghost taken = { declared_taken ⟦<Cslg as DeclaredBox>⟧.layout (⟦<CslgShape as TakeShape>⟧.taken NAMES.now) };

    fn take(alloc: Global, object: &mut Object<'_>) -> taken::Result<Cslg> {
        take_declared::<Cslg, CslgShape>(alloc, NAMES, object)
    }
}

impl TryClone for Cslg {
    fn try_clone(&self) -> Result<Cslg> {
        Ok(*self)
    }
}

/// The composition to decode box.
pub type CslgBox = Declared<Cslg>;
