//! The string of Dolby Vision video.

ghost use Rattle.std.specs.Prelude.{◌≡◌, ◌++◌, OnOk, string_bytes};
ghost use Rattle.mp4_info.specs.Dolby.{dolby_string};

use crate::digits::push_wide_element;
use mp4_extra_pictures::dvcc::DolbyVisionConfig;
use mp4_frame::FourCC;
use mp4_shown::Result;
use mp4_shown_json::push_latin;

/// Appends the string of Dolby Vision video, such as `dvh1.05.06`. `code` is that of its sample entry, such as `dvh1`.
/// `config` is that of the `dvcC` or the `dvvC` in the entry.
#[tactic(auto, unfolding(crate::specs::Dolby::dolby_string))]
pub fn push_dolby(code: FourCC, config: DolbyVisionConfig, out: &mut String) -> Result<()>
    ensures text { OnOk result (string_bytes out.new ≡ string_bytes out.old ++ dolby_string code config) }
{
    push_latin(code, out)?;
    push_wide_element(u64::from(config.dv_profile), out)?;
    push_wide_element(u64::from(config.dv_level), out)
}
