//! The chunks of a track that share bytes with the chunk before them.

ghost use Rattle.std.specs.Prelude.{◌≡◌, None};
ghost use Rattle.mp4_check.specs.Overlap.{chunks_overlap, shares_bytes, with_pair};

use mp4_samples::ChunkExtent;

/// Chunks that share bytes with the chunk before them in the table.
#[derive(Clone, Copy, Debug, PartialEq, Eq)]
pub struct Overlap {
    /// The number of these chunks.
    pub count: u64,
    /// The number of the first of them, counted from 1.
    pub number: u64,
    /// The bytes of the first of them.
    pub chunk: ChunkExtent,
    /// The bytes of the chunk before it.
    pub before: ChunkExtent,
}

/// Returns whether two chunks share a byte.
fn shares_bytes(one: ChunkExtent, other: ChunkExtent) -> bool
    ensures { result ≡ shares_bytes one other }
{
    let end = u128::from(one.offset) + u128::from(one.size);
    let other_end = u128::from(other.offset) + u128::from(other.size);
    let begin = one.offset.max(other.offset);
    u128::from(begin) < end.min(other_end)
}

/// Returns what is found after one more pair of chunks: `chunk`, which has the number `number`, and the one `before`
/// it.
fn with_pair(
    found: Option<Overlap>,
    before: ChunkExtent,
    chunk: ChunkExtent,
    number: u64,
) -> Option<Overlap>
    ensures { result ≡ with_pair found before chunk number }
{
    if !shares_bytes(before, chunk) {
        return found;
    }
    match found {
        Some(first) => Some(Overlap {
            count: first.count.saturating_add(1),
            ..first
        }),
        None => Some(Overlap {
            count: 1,
            number,
            chunk,
            before,
        }),
    }
}

/// Returns the chunks that share bytes with the chunk before them, if any do.
pub fn chunks_overlap(chunks: &[ChunkExtent]) -> Option<Overlap>
    ensures { result ≡ chunks_overlap None 1 chunks.now }
{
    let mut found = None;
    for index in 1..chunks.len() {
        found = with_pair(found, chunks[index - 1], chunks[index], index as u64 + 1);
    }
    found
}
