//! The string of AV1 video.

ghost use Rattle.std.specs.Prelude.{◌≡◌, ◌++◌, OnOk, string_bytes};
ghost use Rattle.mp4_info.specs.Av1.{all_elements, av1_string, bit_depth, colour_elements, has_default_colours};
ghost use Rattle.mp4_info.specs.Av1.{has_default_sampling, mandatory_elements, optional_elements, sample_position};
ghost use Rattle.mp4_info.specs.Av1.{subsampling_element, tier_letter};

use crate::digits::{bit, push_element, push_number, push_wide_element};
use mp4_extra_pictures::av1c::Av1Config;
use mp4_extra_pictures::colr::Nclx;
use mp4_frame::FourCC;
use mp4_shown::Result;
use mp4_shown_json::push_latin;

/// Returns the number of bits of a sample of a picture.
fn bit_depth(config: Av1Config) -> u64
    ensures { result ≡ bit_depth config }
{
    if !config.high_bitdepth {
        8
    } else if config.seq_profile == 2 && config.twelve_bit {
        12
    } else {
        10
    }
}

/// Returns the letter of a tier.
fn tier_letter(is_high: bool) -> &'static str
    ensures { result.now ≡ tier_letter is_high }
{
    if is_high { "H" } else { "M" }
}

/// Appends the elements that every string has.
#[tactic(auto, unfolding(crate::specs::Av1::mandatory_elements))]
fn push_mandatory(config: Av1Config, out: &mut String) -> Result<()>
    ensures text { OnOk result (string_bytes out.new ≡ string_bytes out.old ++ mandatory_elements config) }
{
    push_element(u64::from(config.seq_profile), out)?;
    push_wide_element(u64::from(config.seq_level_idx_0), out)?;
    out.push_str(tier_letter(config.seq_tier_0))?;
    push_wide_element(bit_depth(config), out)
}

/// Returns the position of colour samples, or 0 if the subsampling has none.
fn sample_position(config: Av1Config) -> u64
    ensures { result ≡ sample_position config }
{
    if config.chroma_subsampling_x && config.chroma_subsampling_y {
        u64::from(config.chroma_sample_position)
    } else {
        0
    }
}

/// Appends the element with the subsampling.
#[tactic(auto, unfolding(crate::specs::Av1::subsampling_element))]
fn push_subsampling(config: Av1Config, out: &mut String) -> Result<()>
    ensures text { OnOk result (string_bytes out.new ≡ string_bytes out.old ++ subsampling_element config) }
{
    push_element(bit(config.chroma_subsampling_x), out)?;
    push_number(bit(config.chroma_subsampling_y), out)?;
    push_number(sample_position(config), out)
}

/// Appends the elements with the colours.
#[tactic(auto, unfolding(crate::specs::Av1::colour_elements))]
fn push_colours(colours: Nclx, out: &mut String) -> Result<()>
    ensures text { OnOk result (string_bytes out.new ≡ string_bytes out.old ++ colour_elements colours) }
{
    push_wide_element(u64::from(colours.colour_primaries), out)?;
    push_wide_element(u64::from(colours.transfer_characteristics), out)?;
    push_wide_element(u64::from(colours.matrix_coefficients), out)?;
    push_element(bit(colours.full_range_flag), out)
}

/// Returns whether the sampling is that of a string without the optional elements.
fn has_default_sampling(config: Av1Config) -> bool
    ensures { result ≡ has_default_sampling config }
{
    !config.monochrome
        && config.chroma_subsampling_x
        && config.chroma_subsampling_y
        && config.chroma_sample_position == 0
}

/// Returns whether the colours are those of a string without the optional elements.
fn has_default_colours(colours: Nclx) -> bool
    ensures { result ≡ has_default_colours colours }
{
    colours.colour_primaries == 1
        && colours.transfer_characteristics == 1
        && colours.matrix_coefficients == 1
        && !colours.full_range_flag
}

/// Appends all optional elements.
#[tactic(auto, unfolding(crate::specs::Av1::all_elements))]
fn push_all(config: Av1Config, colours: Nclx, out: &mut String) -> Result<()>
    ensures text { OnOk result (string_bytes out.new ≡ string_bytes out.old ++ all_elements config colours) }
{
    push_element(bit(config.monochrome), out)?;
    push_subsampling(config, out)?;
    push_colours(colours, out)
}

/// Appends the optional elements, unless the colours are unknown or all elements have their defaults.
#[tactic(auto, unfolding(crate::specs::Av1::optional_elements))]
fn push_optional(config: Av1Config, colours: Option<Nclx>, out: &mut String) -> Result<()>
    ensures text { OnOk result (string_bytes out.new ≡ string_bytes out.old ++ optional_elements config colours) }
{
    match colours {
        None => Ok(()),
        Some(colours) if has_default_sampling(config) && has_default_colours(colours) => Ok(()),
        Some(colours) => push_all(config, colours, out),
    }
}

/// Appends the string of AV1 video, such as `av01.0.04M.10`. `code` is that of its sample entry. `colours` are those of
/// the `colr` in the entry, if it has numbers.
#[tactic(auto, unfolding(crate::specs::Av1::av1_string))]
pub fn push_av1(
    code: FourCC,
    config: Av1Config,
    colours: Option<Nclx>,
    out: &mut String,
) -> Result<()>
    ensures text { OnOk result (string_bytes out.new ≡ string_bytes out.old ++ av1_string code config colours) }
{
    push_latin(code, out)?;
    push_mandatory(config, out)?;
    push_optional(config, colours, out)
}
