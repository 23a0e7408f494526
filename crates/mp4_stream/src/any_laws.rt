//! The laws of `AnyBox`, `OtherBox` and `KeptBox`, in addition to those of every box.

ghost use Rattle.mp4_frame.specs.Equality.{IsEquality};

use crate::any_box::AnyBox;
use crate::kept_box::KeptBox;
use crate::other_box::OtherBox;

/// Shows that `==` of two boxes compares their types and all of their fields.
pub fn equality_is_of_all_fields()
    ensures any { IsEquality ⟦<AnyBox as PartialEq>⟧.eq }
    ensures other { IsEquality ⟦<OtherBox as PartialEq>⟧.eq }
    ensures kept { IsEquality ⟦<KeptBox as PartialEq>⟧.eq }
{
    mp4_flat::laws::equality_is_of_all_fields();
    mp4_tables::laws::equality_is_of_all_fields();
    mp4_text::laws::equality_is_of_all_fields();
    mp4_entries::laws::equality_is_of_all_fields();
    mp4_sound::laws::equality_is_of_all_fields();
}
