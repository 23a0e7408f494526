//! The fragment in which a box is.

ghost use Rattle.std.specs.Prelude.{◌≡◌, IfOk, IfSome};
ghost use Rattle.mp4_remux_files.specs.Shifted.{base_of, based, fragment_after, implied_base, no_fragment};
ghost use Rattle.mp4_remux_files.specs.Shifted.{part_after, top_after};
ghost use Rattle.mp4_walk.specs.Source.{content_of};

use crate::numbers::{NoFields, is_flagged, number_at};
use mp4_frame::{FourCC, codes};
use mp4_walk::{BoxWalk, Source, TreeBox};
use std::alloc::Global;

/// The fragment in which a box is. Positions are in bytes from the front of the file.
#[derive(Clone, Copy, Debug, PartialEq, Eq)]
pub struct Fragment {
    /// The position of its `moof`, or `None` outside of fragments.
    pub moof: Option<u64>,
    /// The number of `traf`s up to the box.
    pub parts: u64,
    /// The position from which the offsets of its `traf` count, if it is known.
    pub base: Option<u64>,
}

/// Returns what is known of a fragment before it begins.
pub fn no_fragment() -> Fragment
    ensures { result ≡ no_fragment }
{
    Fragment {
        moof: None,
        parts: 0,
        base: None,
    }
}

/// Returns the fragment in which the boxes after `found`, a box of the top level, are.
fn top_after(found: &TreeBox) -> Fragment
    ensures { result ≡ top_after found.now }
{
    if found.has_code(FourCC::from(codes::MOOF)) {
        Fragment {
            moof: Some(found.position),
            parts: 0,
            base: None,
        }
    } else {
        no_fragment()
    }
}

/// Returns the fragment in which the boxes after `found` are, which is a child of a box of the top level. Returns
/// `None` after 2^64 - 1 parts.
fn part_after(fragment: Fragment, found: &TreeBox) -> Option<Fragment>
    ensures { IfSome result (λ f. f ≡ part_after fragment found.now) }
{
    if !found.has_code(FourCC::from(codes::TRAF)) {
        return Some(Fragment {
            moof: fragment.moof,
            parts: fragment.parts,
            base: None,
        });
    }
    match fragment.parts.checked_add(1) {
        Some(parts) => Some(Fragment {
            moof: fragment.moof,
            parts,
            base: None,
        }),
        None => None,
    }
}

/// Returns the base of the offsets of a `traf` of `fragment` with a `tfhd` without a base, whose second byte is
/// `second` (ISO/IEC 14496-12, 8.8.7).
fn implied_base(fragment: Fragment, second: u64) -> Option<u64>
    ensures { result ≡ implied_base fragment second }
{
    if second / 2 % 2 == 1 || fragment.parts == 1 {
        fragment.moof
    } else {
        None
    }
}

/// Returns the base of the offsets of a `traf` of `fragment` whose `tfhd` has the content `bytes`.
fn base_of(fragment: Fragment, bytes: &[u8]) -> Result<Option<u64>, NoFields>
    ensures { IfOk result (λ base. base ≡ base_of fragment bytes.now) }
{
    let Some(has_base) = is_flagged(bytes) else {
        return Err(NoFields::Unknown);
    };
    if has_base {
        return match number_at(bytes, 8, 8) {
            Some(base) => Ok(Some(base)),
            None => Err(NoFields::Unknown),
        };
    }
    match number_at(bytes, 1, 1) {
        Some(second) => Ok(implied_base(fragment, second)),
        None => Err(NoFields::Unknown),
    }
}

/// Returns `fragment` with the base of its `tfhd`, which is `found`.
fn based<S: Source>(
    alloc: Global,
    walk: &mut BoxWalk<S>,
    fragment: Fragment,
    found: &TreeBox,
) -> Result<Fragment, NoFields>
    ensures base { IfSome walk.old.bytes (λ B. IfOk result (λ f. f ≡ based fragment (content_of B found.now))) }
    ensures walk { walk.new ≡ walk.old }
{
    let bytes = match walk.read_content(alloc, found) {
        Ok(bytes) => bytes,
        Err(error) => return Err(NoFields::from(error)),
    };
    match base_of(fragment, bytes.as_slice()) {
        Ok(base) => Ok(Fragment {
            moof: fragment.moof,
            parts: fragment.parts,
            base,
        }),
        Err(fault) => Err(fault),
    }
}

/// Returns the fragment in which the boxes after `found` are. `found` is in `fragment`, or begins another one.
pub fn fragment_after<S: Source>(
    alloc: Global,
    walk: &mut BoxWalk<S>,
    fragment: Fragment,
    found: &TreeBox,
) -> Result<Fragment, NoFields>
    ensures after { IfSome walk.old.bytes
        (λ B. IfOk result (λ f. f ≡ fragment_after B fragment found.now)) }
    ensures walk { walk.new ≡ walk.old }
{
    if found.depth == 0 {
        return Ok(top_after(found));
    }
    if found.depth == 1 {
        return match part_after(fragment, found) {
            Some(part) => Ok(part),
            None => Err(NoFields::Unknown),
        };
    }
    if found.has_code(FourCC::from(codes::TFHD)) {
        return based(alloc, walk, fragment, found);
    }
    Ok(fragment)
}
