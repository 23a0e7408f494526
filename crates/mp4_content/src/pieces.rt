//! The bytes of a box, or of its content, that a source has.

ghost use Rattle.std.specs.Prelude.{◌≡◌, ◌+◌, ◌-◌, ◌<◌, ◌^◌, ℕ, List, length, min, if◌then◌else◌};
ghost use Rattle.mp4_walk.specs.Source.{piece};

use mp4_walk::TreeBox;

/// The number of bytes that are read and written at a time.
pub const PIECE: u64 = 1 << 20;

/// Returns the position of the bytes of `found`, or of its content if `content`.
pub fn start_of(found: &TreeBox, content: bool) -> u64
    ensures { result ≡ (if content then min (found.now.position + found.now.header_length) (2 ^ 64 - 1)
        else found.now.position) }
{
    if content {
        found.content_position()
    } else {
        found.position
    }
}

/// Returns the number of bytes of `found`, or of its content if `content`.
pub fn size_of(found: &TreeBox, content: bool) -> u64
    ensures { result ≡ (if content then found.now.length - found.now.header_length else found.now.length) }
{
    if content {
        found.content_length()
    } else {
        found.length
    }
}

/// Returns how many of `size` bytes that begin at `start` a source of `total` bytes has.
pub fn present(start: u64, size: u64, total: u64) -> u64
    ensures count { result ≡ min size (total - start) }
    ensures fits { start + result < 2 ^ 64 }
    ensures bytes { (file : List ℕ) → total ≡ length file → piece file start result ≡ piece file start size }
{
    size.min(total.saturating_sub(start))
}
