//! Tests of a stream that is cut at every length. The stream has all vectors, the first of each type before the second
//! ones.

use super::lists::list_from;
use super::streams::{kind_and_count, read_stream};
use mp4_stream::{ByteCursor, KeptBox, read_boxes_as};
use std::alloc::{AllocError, Global};
use std::test::Fail;
use test_shared::helpers::Kind;
use test_shared::vectors::{FIRST_VECTORS, SECOND_VECTORS, Vector};

/// A stream and a count for each length of a cut. The count is the number of boxes before the cut, or `None` if the cut
/// is inside a box.
#[derive(Drop)]
struct Cuts {
    stream: Vec<u8>,
    counts: Vec<Option<usize>>,
}

impl Cuts {
    /// Appends `vectors` to the stream, which has `front` boxes.
    fn append<V: Vector>(&mut self, front: usize, vectors: &[V]) -> Result<(), AllocError> {
        for (place, vector) in vectors.iter().enumerate() {
            self.counts.push(Some(front.saturating_add(place)))?;
            for _ in 1..vector.bytes().len() {
                self.counts.push(None)?;
            }
            self.stream.extend_from_slice(vector.bytes())?;
        }
        Ok(())
    }
}

/// Returns the stream of all vectors. For each cut, up to the whole stream, returns the number of boxes before it, or
/// `None` if it is inside a box.
fn all_cuts(alloc: Global) -> Result<(Vec<u8>, Vec<Option<usize>>), AllocError> {
    let mut cuts = Cuts {
        stream: Vec::new(alloc),
        counts: Vec::new(alloc),
    };
    cuts.append(0, &FIRST_VECTORS)?;
    cuts.append(FIRST_VECTORS.len(), &SECOND_VECTORS)?;
    cuts.counts
        .push(Some(FIRST_VECTORS.len() + SECOND_VECTORS.len()))?;
    Ok((cuts.stream, cuts.counts))
}

/// Returns the expected result for a stream of `cut` bytes, which ends after `count` boxes or inside a box. It is the
/// kind of the outcome, the number of boxes, and the position of the cursor after the call.
fn expected_of(cut: usize, count: Option<usize>) -> (Kind, usize, u64) {
    match count {
        Some(count) => (Kind::Ok, count, cut as u64),
        None => (Kind::End, 0, 0),
    }
}

/// A call that finds the boxes of a buffer.
#[derive(Clone, Copy, Debug, PartialEq, Eq)]
enum Way {
    Read,
    Kept,
    Listed,
}

/// Reads, keeps or lists the boxes in `bytes`. Returns a result of the form of `expected_of`.
fn found(alloc: Global, way: Way, bytes: &[u8]) -> (Kind, usize, u64) {
    match way {
        Way::Read => read_stream(alloc, bytes),
        Way::Kept => keep_stream(alloc, bytes),
        Way::Listed => list_from(alloc, bytes, 0),
    }
}

/// Reads all boxes in `bytes`, also those of other types. Returns a result of the form of `expected_of`.
fn keep_stream(alloc: Global, bytes: &[u8]) -> (Kind, usize, u64) {
    let mut reader = ByteCursor::new(bytes);
    let (kind, count) = kind_and_count(read_boxes_as::<KeptBox>(alloc, &mut reader));
    (kind, count, reader.position())
}

/// Returns the first cut at which the call `way` has another result than `expected_of`, if there is one.
fn first_wrong_cut(alloc: Global, way: Way) -> Result<Option<usize>, AllocError> {
    let (stream, counts) = all_cuts(alloc)?;
    for (cut, count) in counts.iter().enumerate() {
        let bytes = stream.get(..cut).unwrap_or(&[]);
        if found(alloc, way, bytes) != expected_of(cut, *count) {
            return Ok(Some(cut));
        }
    }
    Ok(None)
}

#[test]
fn boxes_before_a_cut_are_read_kept_and_listed(rt: HostRuntime) -> Result<(), Fail> {
    for way in [Way::Read, Way::Kept, Way::Listed] {
        assert_eq!(rt; first_wrong_cut(rt.alloc(), way)?, None, "{way:?}");
    }
    Ok(())
}
