//! A walk over the descriptors of a box.

ghost use Rattle.std.specs.Prelude.{◌≡◌, ◌+◌, ◌*◌, ◌<◌, ◌≤◌, ◌^◌, ℕ, List, Option, length, min, MatchResult};
ghost use Rattle.mp4_frame.specs.Reading.{Answers};
ghost use Rattle.mp4_sound.specs.Counted.{Counted, uncounted};
ghost use Rattle.mp4_sound.specs.Walk.{walk};
ghost use Rattle.mp4_sound.specs.declared.descriptor_header.DescriptorHeader.{DescriptorHeader as Header};

use crate::descriptor_header::DescriptorHeader;
use mp4_frame::Result;

/// A descriptor that a walk looks for.
pub trait WalkedFor: Drop {
    /// The reading of a descriptor's content in a walk up to a bound: a value if the descriptor is one the walk looks
    /// for, and the offset where its content ended.
    ghost content: { List ℕ → ℕ → Header → Counted (Option Self × ℕ) };

    /// Reads the content of the descriptor with this `header`, and adds the number of whole headers inside to
    /// `headers`. The only errors are the faults of `content`.
    fn read_content(
        bytes: &[u8],
        bound: u64,
        header: DescriptorHeader,
        headers: &mut u64,
    ) -> Result<(Option<Self>, u64)>
        requires room { header.content ≤ length bytes.now }
        requires long { header.length < 2 ^ 28 }
        requires few { headers.old ≤ header.content }
        ensures value { Answers result (uncounted (content bytes.now bound header)) }
        ensures headers { headers.new ≡ headers.old + (content bytes.now bound header).headers }
        ensures few { MatchResult result
            (λ r. (header.content ≤ r.1)
            × (2 * headers.new + header.content ≤ 2 * headers.old + min r.1 (length bytes.now)))
            (λ _. 2 * headers.new + header.content ≤ 2 * headers.old + length bytes.now) };
}

/// Walks over at most `most` descriptors, the first at offset `from`. Each begins before `bound`, and where the content
/// before it ended. Returns the last descriptor that the walk looks for, and the offset where the last content ended.
/// Adds the number of whole headers to `headers`. Each header has at least two bytes, so the bytes of the walk bound
/// their number.
pub(crate) fn walk<T: WalkedFor>(
    bytes: &[u8],
    bound: u64,
    most: u64,
    from: u64,
    headers: &mut u64,
) -> Result<(Option<T>, u64)>
    requires room { from ≤ length bytes.now }
    requires few { headers.old ≤ from }
    ensures value { Answers result (uncounted (walk T.content bytes.now bound most from)) }
    ensures headers { headers.new ≡ headers.old + (walk T.content bytes.now bound most from).headers }
    ensures few { MatchResult result
        (λ r. (from ≤ r.1) × (2 * headers.new + from ≤ 2 * headers.old + min r.1 (length bytes.now)))
        (λ _. 2 * headers.new + from ≤ 2 * headers.old + length bytes.now) }
{
    let mut found = None;
    let mut at = from;
    let mut left = most;
    while left > 0 && at < bound {
        let header = DescriptorHeader::at(bytes, at)?;
        *headers += 1;
        let (mine, end) = T::read_content(bytes, bound, header, headers)?;
        found = mine.or(found);
        at = end;
        left -= 1;
    }
    Ok((found, at))
}
