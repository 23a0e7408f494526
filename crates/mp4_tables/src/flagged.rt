//! Fields that are present only if a flag of the box is set.

ghost use Rattle.std.specs.Prelude.{◌≡◌, ◌≤◌, ◌+◌, ◌++◌, ◌↔◌, IsTrue, length, take};
ghost use Rattle.mp4_frame.specs.Bytes.{number};
ghost use Rattle.mp4_tables.specs.Flagged.{is_set, width_if, number_if, optional, IsPresent};

use mp4_frame::{put_u32, put_u64, u32_at, u64_at};

/// Returns whether `flag` is set in `flags`.
#[tactic(auto, unfolding(crate::specs::Flagged::is_set))]
pub(crate) fn is_set(flags: u32, flag: u32) -> bool
    ensures { result ≡ is_set flags flag }
{
    flags & flag > 0
}

/// Returns the number of bytes of a field: `width` if its flag is set, else 0.
#[tactic(auto, unfolding(crate::specs::Flagged::width_if))]
pub(crate) fn width_if(is_flagged: bool, width: usize) -> usize
    ensures width { result ≡ width_if is_flagged width }
    ensures bounded { result ≤ width }
{
    if is_flagged { width } else { 0 }
}

/// Returns the 4-byte number at offset `at` of `bytes` if `is_flagged`, and `None` otherwise.
#[tactic(auto, unfolding(crate::specs::Flagged::width_if, crate::specs::Flagged::number_if))]
pub(crate) fn u32_if(bytes: &[u8], at: usize, is_flagged: bool) -> Option<u32>
    requires { at + width_if is_flagged 4 ≤ length bytes.now }
    ensures { result ≡ number_if (number bytes.now) is_flagged at 4 }
{
    if is_flagged {
        Some(u32_at(bytes, at))
    } else {
        None
    }
}

/// Returns the 8-byte number at offset `at` of `bytes` if `is_flagged`, and `None` otherwise.
#[tactic(auto, unfolding(crate::specs::Flagged::width_if, crate::specs::Flagged::number_if))]
pub(crate) fn u64_if(bytes: &[u8], at: usize, is_flagged: bool) -> Option<u64>
    requires { at + width_if is_flagged 8 ≤ length bytes.now }
    ensures { result ≡ number_if (number bytes.now) is_flagged at 8 }
{
    if is_flagged {
        Some(u64_at(bytes, at))
    } else {
        None
    }
}

/// Returns whether `n`, a number of four bytes, agrees with its flag: it is present if and only if the flag is set.
pub(crate) fn is_present_u32(is_flagged: bool, n: Option<u32>) -> bool
    ensures { IsTrue result ↔ IsPresent is_flagged 4 n }
{
    match n {
        // For the prover: a value that was read has the range of its type.
        Some(_n) => is_flagged,
        None => !is_flagged,
    }
}

/// Returns whether `n`, a number of eight bytes, agrees with its flag: it is present if and only if the flag is set.
pub(crate) fn is_present_u64(is_flagged: bool, n: Option<u64>) -> bool
    ensures { IsTrue result ↔ IsPresent is_flagged 8 n }
{
    match n {
        // For the prover: a value that was read has the range of its type.
        Some(_n) => is_flagged,
        None => !is_flagged,
    }
}

/// Writes `n`, if it is present, to `out` at offset `at` in four bytes, and returns the offset after it.
#[tactic(auto, using(crate::specs::FlaggedLaws::length_some), unfolding(crate::specs::Flagged::optional))]
pub(crate) fn put_optional_u32(out: &mut [u8], at: usize, n: Option<u32>) -> usize
    requires { at + length (optional 4 n) ≤ length out.old }
    ensures next { result ≡ at + length (optional 4 n) }
    ensures put { take result out.new ≡ take at out.old ++ optional 4 n }
{
    match n {
        Some(n) => put_u32(out, at, n),
        None => at,
    }
}

/// Writes `n`, if it is present, to `out` at offset `at` in eight bytes, and returns the offset after it.
#[tactic(auto, using(crate::specs::FlaggedLaws::length_some), unfolding(crate::specs::Flagged::optional))]
pub(crate) fn put_optional_u64(out: &mut [u8], at: usize, n: Option<u64>) -> usize
    requires { at + length (optional 8 n) ≤ length out.old }
    ensures next { result ≡ at + length (optional 8 n) }
    ensures put { take result out.new ≡ take at out.old ++ optional 8 n }
{
    match n {
        Some(n) => put_u64(out, at, n),
        None => at,
    }
}
