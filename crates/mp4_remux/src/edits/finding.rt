//! The box at a path.

ghost use Rattle.std.specs.Prelude.{◌≡◌, List, Option, Some, IfOk, IsTrue};
ghost use Rattle.mp4_remux.specs.Splices.{box_end};
ghost use Rattle.mp4_remux.specs.Spots.{after_spot};
ghost use Rattle.mp4_walk.specs.Paths.{at_path, inside, is_meant, of_nth};
ghost use Rattle.mp4_walk.specs.Tops.{is_whole};
ghost use Rattle.mp4_walk.specs.declared.tree_box.TreeBox.{TreeBox};

use crate::edits::path_text::path_text;
use crate::edits::refusal::EditRefusal;
use crate::refusal::{Stop, refused};
use mp4_frame::FourCC;
use mp4_movie::BoxLocation;
use mp4_walk::{BoxPath, PathPart, TreeBox};
use std::alloc::Global;

/// Returns whether `found` has this depth and code.
fn is_meant(found: &TreeBox, depth: u64, code: FourCC) -> bool
    ensures { result ≡ is_meant depth code found.now }
{
    found.depth == depth && found.has_code(code)
}

/// Returns the box that `part` selects in the level of `depth` in which `boxes` begins, and the boxes after it.
fn spot_in<'a>(boxes: &'a [TreeBox], depth: u64, part: PathPart) -> Option<BoxLocation<'a>>
    ensures { (next : TreeBox → List TreeBox → Option TreeBox)
        → of_nth next depth part.code part.index (inside depth boxes.now) ≡ after_spot next depth result }
{
    let mut before: u64 = 0;
    for index in 0..boxes.len() {
        let found = boxes[index];
        if found.depth < depth {
            return None;
        }
        if is_meant(&found, depth, part.code) {
            if before == part.index {
                return Some(BoxLocation {
                    found,
                    after: &boxes[index + 1..],
                });
            }
            before += 1;
        }
    }
    None
}

/// Returns the box at the path with these parts among `boxes`, which are those of a file in order.
fn box_by(boxes: &[TreeBox], parts: &[PathPart]) -> Option<TreeBox>
    ensures { result ≡ at_path 0 parts.now boxes.now }
{
    let mut last = None;
    let mut rest = boxes;
    let mut depth: u64 = 0;
    for part in parts {
        match spot_in(rest, depth, *part) {
            None => return None,
            Some(spot) => {
                last = Some(spot.found);
                rest = spot.after;
            }
        }
        depth += 1;
    }
    last
}

/// Returns the box at `path` among `boxes`, which are those of a file in order.
pub fn box_at(boxes: &[TreeBox], path: &BoxPath) -> Option<TreeBox>
    ensures { result ≡ at_path 0 path.now.parts.items boxes.now }
{
    box_by(boxes, path.parts.as_slice())
}

/// Returns the position after the box.
pub fn end_of(found: &TreeBox) -> u64
    ensures { result ≡ box_end found.now }
{
    found.position.saturating_add(found.length)
}

/// Returns the box at `path`, if it is whole.
pub fn whole_box(alloc: Global, boxes: &[TreeBox], path: &BoxPath) -> Result<TreeBox, Stop>
    ensures place { IfOk result (λ x. at_path 0 path.now.parts.items boxes.now ≡ Some x) }
    ensures whole { IfOk result (λ x. IsTrue (is_whole x.state)) }
{
    match box_at(boxes, path) {
        None => {
            let text = path_text(alloc, path)?;
            Err(refused(EditRefusal::Missing(text)))
        }
        Some(found) => {
            if found.is_whole() {
                return Ok(found);
            }
            let text = path_text(alloc, path)?;
            Err(refused(EditRefusal::Cut {
                path: text,
                position: found.position,
            }))
        }
    }
}
