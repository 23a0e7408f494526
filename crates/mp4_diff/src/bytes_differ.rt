//! The first byte in which the contents of two boxes differ.

ghost use Rattle.std.specs.Prelude.{◌≡◌, ◌+◌, ◌<◌, ◌^◌, IfOk, IfSome};
ghost use Rattle.mp4_diff.specs.BytesDiffer.{differs_after, differs_at, equal_bytes, place_of};
ghost use Rattle.mp4_walk.specs.Source.{piece};

use mp4_content::{PIECE, present, size_of, start_of};
use mp4_io::{Failure, or_read};
use mp4_walk::{BoxWalk, Source, TreeBox};
use std::alloc::Global;

/// Returns `count` bytes of a source that begin `at` bytes after the beginning of `place`.
fn piece_of<S: Source>(
    alloc: Global,
    walk: &mut BoxWalk<S>,
    place: &TreeBox,
    at: u64,
    count: u64,
) -> Result<Vec<u8>, Failure>
    requires { place.now.position + at < 2 ^ 64 }
    ensures bytes { IfSome walk.old.bytes
        (λ file. IfOk result (λ bytes. bytes.items ≡ piece file (place.now.position + at) count)) }
    ensures kept { walk.new ≡ walk.old }
{
    let part = TreeBox {
        position: place.position + at,
        length: count,
        ..*place
    };
    or_read(walk.read_box(alloc, &part))
}

/// Returns the number of equal bytes at the beginnings of `first` and `second`.
fn equal_bytes(first: &[u8], second: &[u8]) -> usize
    ensures { result ≡ equal_bytes first.now second.now }
{
    let most = first.len().min(second.len());
    'bytes: for index in 0..most {
        if first[index] != second[index] {
            return index;
        }
    }
    most
}

/// Returns the number of equal bytes at the beginnings of the places `first` and `second`, of which both files have
/// `size` bytes.
fn equal_content<S: Source, T: Source>(
    alloc: Global,
    one: &mut BoxWalk<S>,
    first: &TreeBox,
    other: &mut BoxWalk<T>,
    second: &TreeBox,
    size: u64,
) -> Result<u64, Failure>
    requires first { first.now.position + size < 2 ^ 64 }
    requires second { second.now.position + size < 2 ^ 64 }
    ensures equal { IfSome one.old.bytes (λ file. IfSome other.old.bytes (λ next_file. IfOk result (λ equal. equal
        ≡ equal_bytes (piece file first.now.position size) (piece next_file second.now.position size)))) }
    ensures kept_first { one.new ≡ one.old }
    ensures kept_second { other.new ≡ other.old }
{
    let mut at = 0;
    'pieces: while at < size {
        let count = (size - at).min(PIECE);
        let left = piece_of(alloc, one, first, at, count)?;
        let right = piece_of(alloc, other, second, at, count)?;
        let equal = equal_bytes(&left, &right) as u64;
        if equal < count {
            return Ok(at + equal);
        }
        at += count;
    }
    Ok(size)
}

/// Returns the place of the bytes of `found`, or of its content if `content`.
fn place_of(found: &TreeBox, content: bool) -> TreeBox
    ensures { result ≡ place_of content found.now }
{
    TreeBox {
        position: start_of(found, content),
        length: size_of(found, content),
        ..*found
    }
}

/// Returns the position of the first byte in which two contents differ, of which `here` and `there` bytes are present
/// and `equal` bytes are equal. Returns `None` if all are equal. `same` says that the headers state the same length.
fn differs_after(equal: u64, here: u64, there: u64, same: bool) -> Option<u64>
    ensures { result ≡ differs_after equal here there same }
{
    if equal == here && equal == there && same {
        None
    } else {
        Some(equal)
    }
}

/// Returns the position of the first byte in which two boxes differ, or their contents if `content`, as far as the
/// files have them. Bytes of which one box has only a beginning differ where that ends. Returns `None` if all are
/// equal.
pub fn differs_at<S: Source, T: Source>(
    alloc: Global,
    one: &mut BoxWalk<S>,
    first: &TreeBox,
    other: &mut BoxWalk<T>,
    second: &TreeBox,
    content: bool,
) -> Result<Option<u64>, Failure>
    ensures at { IfSome one.old.bytes (λ file. IfSome other.old.bytes (λ next_file.
        IfOk result (λ at. at ≡ differs_at content file first.now next_file second.now))) }
    ensures kept_first { one.new ≡ one.old }
    ensures kept_second { other.new ≡ other.old }
{
    let left = place_of(first, content);
    let right = place_of(second, content);
    let here = present(left.position, left.length, one.length());
    let there = present(right.position, right.length, other.length());
    let equal = equal_content(alloc, one, &left, other, &right, here.min(there))?;
    Ok(differs_after(equal, here, there, left.length == right.length))
}
