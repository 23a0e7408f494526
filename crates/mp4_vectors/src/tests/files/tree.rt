//! Tests of finding the box at a path and reading its content. `tests/programs/test_inspect.py` compares all boxes of
//! files.

ghost use Rattle.std.specs.Prelude.{◌≡◌};

use mp4_frame::FourCC;
use mp4_walk::{BoxPath, BoxWalk, PathError, TreeBox, find};
use std::alloc::Global;
use std::test::Fail;

/// An empty movie, and media data that extend to the end of the file.
const MOVIE: &[u8] = b"\0\0\0\x08moov\0\0\0\0mdatabc";

/// A movie with two tracks.
const TRACKS: &[u8] =
    b"\0\0\0\x30moov\0\0\0\x10trak\0\0\0\x08free\0\0\0\x18trak\0\0\0\x08udta\0\0\0\x08udta";

/// Returns the state of `found` as a number, its depth, position and length, and the offset of its children, or 0 if
/// the walk does not enter the box.
fn numbers(found: TreeBox) -> [u64; 5] {
    [
        found.state as u64,
        found.depth,
        found.position,
        found.length,
        found.children.unwrap_or(0),
    ]
}

/// Returns whether the box at `path` has the numbers `wanted`. The source is borrowed.
fn is_at(alloc: Global, path: &BoxPath, wanted: [u64; 5]) -> bool {
    let mut source = TRACKS;
    match find(alloc, &mut source, path) {
        Ok(Some(found)) => numbers(found) == wanted,
        _ => false,
    }
}

/// Returns whether `find` finds the second `udta` of the second track.
fn is_found(alloc: Global) -> bool {
    match BoxPath::parse(alloc, "moov/trak[1]/udta[1]") {
        Ok(path) => is_at(alloc, &path, [1, 2, 40, 8, 48]),
        Err(_) => false,
    }
}

/// Returns whether `find` finds no `udta` in the first track, which has none.
fn is_not_found(alloc: Global) -> bool {
    match BoxPath::parse(alloc, "moov/trak/udta") {
        Ok(path) => matches!(find(alloc, TRACKS, &path), Ok(None)),
        Err(_) => false,
    }
}

/// Returns whether a code of three letters, and an index that is not a number, are errors of a path.
fn are_faults(alloc: Global) -> bool {
    matches!(BoxPath::parse(alloc, "moov/tra"), Err(PathError::Code(1)))
        && matches!(BoxPath::parse(alloc, "moov[x]"), Err(PathError::Index(0)))
}

#[test]
fn box_is_found_at_its_path(rt: HostRuntime) {
    assert!(rt; is_found(rt.alloc()) && is_not_found(rt.alloc()) && are_faults(rt.alloc()));
}

/// The code of media data.
const MDAT: FourCC = FourCC { value: *b"mdat" };

/// Returns whether `found` is not media data, or its content is `wanted`. The walk stays where it is.
fn is_content(alloc: Global, tree: &mut BoxWalk<&[u8]>, found: &TreeBox, wanted: &[u8]) -> bool
    ensures kept { tree.new ≡ tree.old }
{
    if found.code != Some(MDAT) {
        return true;
    }
    match tree.read_content(alloc, found) {
        Ok(content) => content.as_slice() == wanted,
        Err(_) => false,
    }
}

#[test]
fn content_is_read(rt: HostRuntime) -> Result<(), Fail> {
    let bytes = MOVIE;
    let mut tree = BoxWalk::new(rt.alloc(), bytes)?;
    while let Some(found) = tree.next()? {
        assert!(rt; is_content(rt.alloc(), &mut tree, &found, b"abc"));
    }
    Ok(())
}
