//! The laws of equality of sample entries and of their parts. No function of this module calls another.

ghost use Rattle.mp4_frame.specs.Equality.{IsEquality};

use crate::{Avc1Box, AvcCBox, Hev1Box, HvcCBox, NalUnit, RgbaColor, Tx3gBox, Vp09Box, VpccBox};

/// Shows that `==` of two values compares all of their fields.
pub fn equality_is_of_all_fields()
    ensures avcc { IsEquality ⟦<AvcCBox as PartialEq>⟧.eq }
    ensures avc1 { IsEquality ⟦<Avc1Box as PartialEq>⟧.eq }
    ensures hvcc { IsEquality ⟦<HvcCBox as PartialEq>⟧.eq }
    ensures hev1 { IsEquality ⟦<Hev1Box as PartialEq>⟧.eq }
    ensures vpcc { IsEquality ⟦<VpccBox as PartialEq>⟧.eq }
    ensures vp09 { IsEquality ⟦<Vp09Box as PartialEq>⟧.eq }
    ensures tx3g { IsEquality ⟦<Tx3gBox as PartialEq>⟧.eq }
    ensures nal_unit { IsEquality ⟦<NalUnit as PartialEq>⟧.eq }
    ensures rgba_color { IsEquality ⟦<RgbaColor as PartialEq>⟧.eq }
{}
