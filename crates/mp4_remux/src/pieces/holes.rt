//! Bytes that are equal except in some places.

ghost use Rattle.std.specs.Prelude.{◌≡◌, ◌↔◌, IsTrue};
ghost use Rattle.mp4_remux.specs.Holes.{AreEqualExcept, in_holes};

/// A range of bytes that may differ.
#[derive(Clone, Copy, Debug, PartialEq, Eq)]
pub struct Hole {
    /// The index of the first byte.
    pub begin: usize,
    /// The index after the last byte.
    pub end: usize,
}

/// Returns whether the byte `at` is in one of `holes`.
fn is_in_hole(holes: &[Hole], at: usize) -> bool
    ensures { result ≡ in_holes holes.now at }
{
    for hole in holes {
        if hole.begin <= at && at < hole.end {
            return true;
        }
    }
    false
}

/// Returns whether the bytes `new` are the bytes `old`, except for those in `holes`. Goes over the holes for each byte
/// that differs.
pub fn are_equal_except(old: &[u8], new: &[u8], holes: &[Hole]) -> bool
    ensures { IsTrue result ↔ AreEqualExcept holes.now old.now new.now }
{
    if old.len() != new.len() {
        return false;
    }
    for index in 0..old.len() {
        if old[index] != new[index] && !is_in_hole(holes, index) {
            return false;
        }
    }
    true
}
