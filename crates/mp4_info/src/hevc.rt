//! The string of HEVC video.

ghost use Rattle.std.specs.Prelude.{◌≡◌, ◌≤◌, ◌<◌, ◌++◌, ◌^◌, OnOk, string_bytes};
ghost use Rattle.mp4_info.specs.Hevc.{compatibility_element, constraint_element, constraint_elements, hevc_string};
ghost use Rattle.mp4_info.specs.Hevc.{level_element, profile_element, space_letter, tier_letter};

use crate::digits::{push_hexadecimal, push_number};
use mp4_extra_pictures::hvcc::HevcProfile;
use mp4_frame::FourCC;
use mp4_shown::Result;
use mp4_shown_json::push_latin;

/// Returns the letter of a profile space, or nothing for space 0, which has none.
fn space_letter(space: u8) -> &'static str
    ensures { result.now ≡ space_letter space }
{
    match space {
        0 => "",
        1 => "A",
        2 => "B",
        _ => "C",
    }
}

/// Returns the letter of a tier.
fn tier_letter(is_high: bool) -> &'static str
    ensures { result.now ≡ tier_letter is_high }
{
    if is_high { "H" } else { "L" }
}

/// Appends the element with the profile.
#[tactic(auto, unfolding(crate::specs::Hevc::profile_element))]
fn push_profile(profile: HevcProfile, out: &mut String) -> Result<()>
    ensures text { OnOk result (string_bytes out.new ≡ string_bytes out.old ++ profile_element profile) }
{
    out.push_str(".")?;
    out.push_str(space_letter(profile.general_profile_space))?;
    push_number(u64::from(profile.general_profile_idc), out)
}

/// Appends the element with the compatibility flags.
#[tactic(auto, unfolding(crate::specs::Hevc::compatibility_element))]
fn push_compatibility(profile: HevcProfile, out: &mut String) -> Result<()>
    ensures text { OnOk result (string_bytes out.new ≡ string_bytes out.old ++ compatibility_element profile) }
{
    let flags = profile.general_profile_compatibility_flags.reverse_bits();
    out.push_str(".")?;
    push_hexadecimal(u64::from(flags), out)
}

/// Appends the element with the tier and the level.
#[tactic(auto, unfolding(crate::specs::Hevc::level_element))]
fn push_level(profile: HevcProfile, out: &mut String) -> Result<()>
    ensures text { OnOk result (string_bytes out.new ≡ string_bytes out.old ++ level_element profile) }
{
    out.push_str(".")?;
    out.push_str(tier_letter(profile.general_tier_flag))?;
    push_number(u64::from(profile.general_level_idc), out)
}

/// Appends the element with the byte of the constraint flags at `place`, a power of 256, unless this byte and all after
/// it are 0.
#[tactic(auto, unfolding(crate::specs::Hevc::constraint_element))]
fn push_constraint(place: u64, flags: u64, out: &mut String) -> Result<()>
    requires positive { 0 < place }
    requires six_bytes { place ≤ 2 ^ 40 }
    ensures text { OnOk result (string_bytes out.new ≡ string_bytes out.old ++ constraint_element place flags) }
{
    if flags % (256 * place) == 0 {
        return Ok(());
    }
    out.push_str(".")?;
    push_hexadecimal(flags / place % 256, out)
}

/// Appends the elements with the bytes of the constraint flags, without zero bytes at the end.
#[tactic(auto, unfolding(crate::specs::Hevc::constraint_elements))]
fn push_constraints(flags: u64, out: &mut String) -> Result<()>
    ensures text { OnOk result (string_bytes out.new ≡ string_bytes out.old ++ constraint_elements flags) }
{
    push_constraint(1 << 40, flags, out)?;
    push_constraint(1 << 32, flags, out)?;
    push_constraint(1 << 24, flags, out)?;
    push_constraint(1 << 16, flags, out)?;
    push_constraint(1 << 8, flags, out)?;
    push_constraint(1, flags, out)
}

/// Appends the string of HEVC video, such as `hvc1.1.6.L93.B0`. `code` is that of its sample entry, such as `hvc1`.
#[tactic(auto, unfolding(crate::specs::Hevc::hevc_string))]
pub fn push_hevc(code: FourCC, profile: HevcProfile, out: &mut String) -> Result<()>
    ensures text { OnOk result (string_bytes out.new ≡ string_bytes out.old ++ hevc_string code profile) }
{
    push_latin(code, out)?;
    push_profile(profile, out)?;
    push_compatibility(profile, out)?;
    push_level(profile, out)?;
    push_constraints(profile.general_constraint_indicator_flags, out)
}
