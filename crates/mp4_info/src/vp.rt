//! The string of VP8 and VP9 video.

ghost use Rattle.std.specs.Prelude.{◌≡◌, ◌++◌, OnOk, string_bytes};
ghost use Rattle.mp4_info.specs.Vp.{all_elements, colour_elements, has_defaults, mandatory_elements};
ghost use Rattle.mp4_info.specs.Vp.{optional_elements, vp_string};

use crate::digits::{bit, push_wide_element};
use mp4_entries::VpccBox;
use mp4_frame::FourCC;
use mp4_shown::Result;
use mp4_shown_json::push_latin;

/// Appends the elements that every string has.
#[tactic(auto, unfolding(crate::specs::Vp::mandatory_elements))]
fn push_mandatory(config: &VpccBox, out: &mut String) -> Result<()>
    ensures text { OnOk result (string_bytes out.new ≡ string_bytes out.old ++ mandatory_elements config.now) }
{
    push_wide_element(u64::from(config.profile), out)?;
    push_wide_element(u64::from(config.level), out)?;
    push_wide_element(u64::from(config.bit_depth), out)
}

/// Appends the elements with the colours.
#[tactic(auto, unfolding(crate::specs::Vp::colour_elements))]
fn push_colours(config: &VpccBox, out: &mut String) -> Result<()>
    ensures text { OnOk result (string_bytes out.new ≡ string_bytes out.old ++ colour_elements config.now) }
{
    push_wide_element(u64::from(config.color_primaries), out)?;
    push_wide_element(u64::from(config.transfer_characteristics), out)?;
    push_wide_element(u64::from(config.matrix_coefficients), out)?;
    push_wide_element(bit(config.video_full_range_flag), out)
}

/// Appends all optional elements.
#[tactic(auto, unfolding(crate::specs::Vp::all_elements))]
fn push_all(config: &VpccBox, out: &mut String) -> Result<()>
    ensures text { OnOk result (string_bytes out.new ≡ string_bytes out.old ++ all_elements config.now) }
{
    push_wide_element(u64::from(config.chroma_subsampling), out)?;
    push_colours(config, out)
}

/// Returns whether `config` has the values of a string without the optional elements.
fn has_defaults(config: &VpccBox) -> bool
    ensures { result ≡ has_defaults config.now }
{
    config.chroma_subsampling == 1
        && config.color_primaries == 1
        && config.transfer_characteristics == 1
        && config.matrix_coefficients == 1
        && !config.video_full_range_flag
}

/// Appends the optional elements, unless all of them have their defaults.
#[tactic(auto, unfolding(crate::specs::Vp::optional_elements))]
fn push_optional(config: &VpccBox, out: &mut String) -> Result<()>
    ensures text { OnOk result (string_bytes out.new ≡ string_bytes out.old ++ optional_elements config.now) }
{
    if has_defaults(config) {
        return Ok(());
    }
    push_all(config, out)
}

/// Appends the string of VP8 or VP9 video, such as `vp09.00.10.08`. `code` is that of its sample entry, `vp08` or
/// `vp09`.
#[tactic(auto, unfolding(crate::specs::Vp::vp_string))]
pub fn push_vp(code: FourCC, config: &VpccBox, out: &mut String) -> Result<()>
    ensures text { OnOk result (string_bytes out.new ≡ string_bytes out.old ++ vp_string code config.now) }
{
    push_latin(code, out)?;
    push_mandatory(config, out)?;
    push_optional(config, out)
}
