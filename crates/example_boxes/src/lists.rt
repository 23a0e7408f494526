//! Callers of `mp4_frame`, which read the entries of a list and change them in place.

ghost use Rattle.std.specs.Prelude.{◌≡◌, ◌+◌, ◌-◌, ◌^◌, ◌<◌, All, map, min, sum};

use mp4_tables::{Co64Box, StszBox};

/// Returns the total size of all samples in bytes, at most 2^64 - 1. The table `sizes` has a size for each sample.
pub fn size_of_samples(sizes: &StszBox) -> u64
    ensures { result ≡ min (sum sizes.now.sample_sizes) (2 ^ 64 - 1) }
{
    let mut total: u64 = 0;
    for size in &sizes.sample_sizes {
        total = total.saturating_add(u64::from(*size));
    }
    total
}

/// Adds `distance` to the offset of each chunk, for bytes that are inserted before the chunks.
pub fn move_chunks(chunks: &mut Co64Box, distance: u64)
    requires { All (λ offset. offset + distance < 2 ^ 64) chunks.old.entries }
    ensures { chunks.new ≡ record chunks.old { entries = map (λ offset. offset + distance) chunks.old.entries } }
{
    let offsets = chunks.entries.as_mut_slice();
    for offset in offsets.iter_mut() {
        *offset += distance;
    }
}
