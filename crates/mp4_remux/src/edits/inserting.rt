//! The splices that insert boxes.

ghost use Rattle.std.specs.Prelude.{◌≡◌, ◌≢◌, ◌+◌, ℕ, All, List, Some, IfOk, IfSome, IsTrue, OnOk};
ghost use Rattle.mp4_frame.specs.Bytes.{number};
ghost use Rattle.mp4_remux.specs.Edits.{Inserts, IsClosed, IsPlace, after_last, is_in_level, level_of};
ghost use Rattle.mp4_walk.specs.FileBoxes.{boxes_of};

use crate::edits::edit::Parent;
use crate::edits::finding::{end_of, whole_box};
use crate::edits::path_text::path_text;
use crate::edits::refusal::EditRefusal;
use crate::edits::splice::Splice;
use crate::refusal::{Stop, refused};
use mp4_frame::{codes, u32_at};
use mp4_walk::{BoxPath, BoxWalk, Source, TreeBox};
use std::alloc::Global;

/// Returns whether a box with this code counts the boxes in it.
pub(crate) fn counts(code: u32) -> bool {
    matches!(
        code,
        codes::STSD | codes::DREF | codes::IINF | codes::IPRO | codes::FIIN
    )
}

/// Returns why boxes can't be inserted into or removed from a box, at `path` or around it, that counts its boxes.
pub(crate) fn counted(alloc: Global, path: &BoxPath) -> Stop {
    match path_text(alloc, path) {
        Ok(text) => refused(EditRefusal::Counted(text)),
        Err(error) => Stop::from(error),
    }
}

/// Returns whether `found` is in the level of the boxes in `parent`, or else in the top level.
fn is_in(parent: &Option<TreeBox>, found: &TreeBox) -> bool
    ensures { result ≡ is_in_level parent.now found.now }
{
    match parent {
        None => found.depth == 0,
        Some(around) => {
            around.depth < found.depth
                && found.depth - around.depth == 1
                && around.position < found.position
                && found.position < end_of(around)
        }
    }
}

/// Returns the position of box `number` of the level of the boxes in `parent`, or else of the top level. Fails with the
/// number of boxes if there are too few.
fn nth_in(boxes: &[TreeBox], parent: &Option<TreeBox>, number: u64) -> Result<u64, u64>
    ensures { (end : ℕ) → IfOk result (IsPlace (level_of parent.now boxes.now) end (Some number)) }
{
    let mut count: u64 = 0;
    for found in boxes {
        if is_in(parent, found) {
            if count == number {
                return Ok(found.position);
            }
            count += 1;
        }
    }
    Err(count)
}

/// Returns the position after the last whole box of the level of the boxes in `parent`, or else of the top level. The
/// level ends at `end`.
fn after_last(boxes: &[TreeBox], parent: &Option<TreeBox>, end: u64) -> u64
    ensures { result ≡ after_last (level_of parent.now boxes.now) end }
{
    for found in boxes {
        if is_in(parent, found) && !found.is_whole() {
            return found.position;
        }
    }
    end
}

/// Returns the position before box `before` of the level of the boxes in `parent`, or else in the top level. Returns
/// the position after its last whole box if there is no `before`. The level ends at `end`. Fails with the number of
/// boxes if there are too few.
fn place_in(
    boxes: &[TreeBox],
    parent: &Option<TreeBox>,
    before: Option<u64>,
    end: u64,
) -> Result<u64, u64>
    ensures { IfOk result (IsPlace (level_of parent.now boxes.now) end before) }
{
    match before {
        Some(number) => nth_in(boxes, parent, number),
        None => Ok(after_last(boxes, parent, end)),
    }
}

/// Returns a splice that puts `bytes` in at position `at`.
fn inserting(depth: u64, at: u64, bytes: Vec<u8>) -> Splice
    ensures depth { result.depth ≡ depth }
    ensures begin { result.begin ≡ at }
    ensures end { result.end ≡ at }
    ensures bytes { result.bytes ≡ bytes }
{
    Splice {
        depth,
        begin: at,
        end: at,
        bytes,
    }
}

/// Returns the code of the box, or 0 if its header is cut.
fn code_of(found: &TreeBox) -> u32 {
    match found.code {
        Some(code) => u32::from(code),
        None => 0,
    }
}

/// Returns the depth of the boxes in `found`, or `None` if it is not known to hold boxes.
fn depth_in(found: &TreeBox) -> Option<u64>
    ensures { IfSome result (λ d. d ≡ found.now.depth + 1) }
{
    if found.children.is_none() {
        return None;
    }
    found.depth.checked_add(1)
}

/// Returns why boxes can't be inserted into `found`, the box at `path`, which is not known to hold boxes.
fn leaf(alloc: Global, path: &BoxPath, found: &TreeBox) -> Stop {
    match path_text(alloc, path) {
        Ok(text) => refused(EditRefusal::Leaf {
            path: text,
            position: found.position,
        }),
        Err(error) => Stop::from(error),
    }
}

/// Returns why no boxes can be inserted before box `before` of the box at `path`, which has `count` boxes.
fn few(alloc: Global, path: &BoxPath, count: u64, before: Option<u64>) -> Stop {
    match path_text(alloc, path) {
        Ok(text) => refused(EditRefusal::Few {
            path: text,
            count,
            number: before.unwrap_or(0),
        }),
        Err(error) => Stop::from(error),
    }
}

/// Returns the splice that puts `bytes` into the box at `path`.
pub fn inserted(
    alloc: Global,
    boxes: &[TreeBox],
    path: &BoxPath,
    before: Option<u64>,
    bytes: Vec<u8>,
) -> Result<Splice, Stop>
    ensures place { (B : List ℕ) → boxes.now ≡ boxes_of B → IfOk result (Inserts B (Parent.In path.now) before) }
    ensures bytes { IfOk result (λ s. s.bytes ≡ bytes) }
{
    let found = whole_box(alloc, boxes, path)?;
    let Some(depth) = depth_in(&found) else {
        return Err(leaf(alloc, path, &found));
    };
    if counts(code_of(&found)) {
        return Err(counted(alloc, path));
    }
    match place_in(boxes, &Some(found), before, end_of(&found)) {
        Ok(at) => Ok(inserting(depth, at, bytes)),
        Err(count) => Err(few(alloc, path, count, before)),
    }
}

/// Returns the first four bytes of the header of a box: its size, or 0 if it has none (ISO/IEC 14496-12, 4.2).
fn size_field<S: Source>(alloc: Global, walk: &mut BoxWalk<S>, found: &TreeBox) -> Result<u32, Stop>
    ensures value { IfSome walk.old.bytes (λ B. IfOk result (λ n. n ≢ 0 → number B found.now.position 4 ≢ 0)) }
    ensures kept { walk.new ≡ walk.old }
{
    let front = TreeBox {
        length: 4,
        ..*found
    };
    let bytes = walk.read_box(alloc, &front)?;
    if bytes.len() < 4 {
        return Ok(0);
    }
    Ok(u32_at(&bytes, 0))
}

/// Returns whether `found` has a size, unless it is in another box or ends before the end of the file.
fn is_closed<S: Source>(alloc: Global, walk: &mut BoxWalk<S>, found: &TreeBox) -> Result<bool, Stop>
    ensures closed { IfSome walk.old.bytes (λ B. IfOk result (λ is. IsTrue is → IsClosed B found.now)) }
    ensures kept { walk.new ≡ walk.old }
{
    if found.depth > 0 || end_of(found) != walk.length() {
        return Ok(true);
    }
    Ok(size_field(alloc, walk, found)? != 0)
}

/// Checks that no box of the top level that ends with the file has no size.
fn check_closed<S: Source>(
    alloc: Global,
    walk: &mut BoxWalk<S>,
    boxes: &[TreeBox],
) -> Result<(), Stop>
    ensures closed { OnOk result (IfSome walk.old.bytes (λ B. All (IsClosed B) boxes.now)) }
    ensures kept { walk.new ≡ walk.old }
{
    for found in boxes {
        if !is_closed(alloc, walk, found)? {
            return Err(refused(EditRefusal::Open(found.position)));
        }
    }
    Ok(())
}

/// Returns the splice that puts `bytes` into the top level.
pub fn inserted_on_top<S: Source>(
    alloc: Global,
    walk: &mut BoxWalk<S>,
    boxes: &[TreeBox],
    before: Option<u64>,
    bytes: Vec<u8>,
) -> Result<Splice, Stop>
    ensures place { IfSome walk.old.bytes
        (λ B. boxes.now ≡ boxes_of B → IfOk result (Inserts B Parent.File before)) }
    ensures bytes { IfOk result (λ s. s.bytes ≡ bytes) }
    ensures kept { walk.new ≡ walk.old }
{
    check_closed(alloc, walk, boxes)?;
    match place_in(boxes, &None, before, walk.length()) {
        Ok(at) => Ok(inserting(0, at, bytes)),
        Err(count) => {
            let text = String::from_str(alloc, "/")?;
            Err(refused(EditRefusal::Few {
                path: text,
                count,
                number: before.unwrap_or(0),
            }))
        }
    }
}
