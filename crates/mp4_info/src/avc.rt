//! The string of AVC video.

ghost use Rattle.std.specs.Prelude.{◌≡◌, ◌++◌, OnOk, string_bytes};
ghost use Rattle.mp4_info.specs.Avc.{avc_string};

use mp4_entries::AvcCBox;
use mp4_frame::FourCC;
use mp4_shown::Result;
use mp4_shown_json::push_latin;
use std::alloc::Global;

/// Appends the string of AVC video, such as `avc1.64001f`. `code` is that of its sample entry, such as `avc1`.
#[tactic(auto, unfolding(crate::specs::Avc::avc_string))]
pub fn push_avc(alloc: Global, code: FourCC, config: &AvcCBox, out: &mut String) -> Result<()>
    ensures text { OnOk result (string_bytes out.new ≡ string_bytes out.old ++ avc_string code config.now) }
{
    let bytes = [
        config.avc_profile_indication,
        config.profile_compatibility,
        config.avc_level_indication,
    ];
    let digits = hex::encode(alloc, bytes)?;
    push_latin(code, out)?;
    out.push_str(".")?;
    out.push_str(digits.as_str())
}
