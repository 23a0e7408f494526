//! The laws of equality of the boxes here, and the numbers of flags. You can call each of these functions to use its
//! law in a proof.

ghost use Rattle.std.specs.Prelude.{◌≡◌};
ghost use Rattle.mp4_frame.specs.Equality.{IsEquality};
ghost use Rattle.mp4_flat.specs.TrackFlag.{number_track_flag};

use crate::{
    Matrix, MdhdBox, MehdBox, MfhdBox, MvhdBox, RgbColor, SmhdBox, TfdtBox, TkhdBox, TrackFlag,
    TrexBox, VmhdBox,
};

/// States that `==` compares all fields, for each type here that derives `PartialEq`.
pub fn equality_is_of_all_fields()
    ensures mvhd { IsEquality ⟦<MvhdBox as PartialEq>⟧.eq }
    ensures tkhd { IsEquality ⟦<TkhdBox as PartialEq>⟧.eq }
    ensures mdhd { IsEquality ⟦<MdhdBox as PartialEq>⟧.eq }
    ensures mehd { IsEquality ⟦<MehdBox as PartialEq>⟧.eq }
    ensures mfhd { IsEquality ⟦<MfhdBox as PartialEq>⟧.eq }
    ensures smhd { IsEquality ⟦<SmhdBox as PartialEq>⟧.eq }
    ensures vmhd { IsEquality ⟦<VmhdBox as PartialEq>⟧.eq }
    ensures trex { IsEquality ⟦<TrexBox as PartialEq>⟧.eq }
    ensures tfdt { IsEquality ⟦<TfdtBox as PartialEq>⟧.eq }
    ensures matrix { IsEquality ⟦<Matrix as PartialEq>⟧.eq }
    ensures rgb_color { IsEquality ⟦<RgbColor as PartialEq>⟧.eq }
{}

/// Returns the discriminant of `flag`, which is its bit.
pub fn discriminant_of_track_flag(flag: TrackFlag) -> u32
    ensures { result ≡ number_track_flag flag }
{
    flag as u32
}
