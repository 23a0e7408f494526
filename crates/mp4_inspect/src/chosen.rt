//! The boxes of a file at a pattern.

ghost use Rattle.std.specs.Prelude.{◌≡◌, ◌+◌, ◌++◌, ◌∷◌, [], List, IfOk, OnOk, map, if◌then◌else◌};
ghost use Rattle.mp4_content.specs.Paths.{AreOpen, Code, entered, parts_of};
ghost use Rattle.mp4_inspect.specs.Patterns.{boxes_at, fits, lifted, tree_of, trees_at};
ghost use Rattle.mp4_walk.specs.Paths.{inside};

use crate::pattern::{Pattern, fits};
use mp4_content::BoxPaths;
use mp4_show::Result;
use mp4_walk::TreeBox;
use std::alloc::Global;

/// Enters the box `found`. Returns whether `pattern` fits its path.
fn is_at(alloc: Global, paths: &mut BoxPaths, found: &TreeBox, pattern: &Pattern) -> Result<bool>
    ensures fits { (opened : List (List Code)) → AreOpen opened paths.old.levels.items
        → IfOk result (λ at. at ≡ fits pattern.now (parts_of (entered opened found.now))) }
    ensures opened { (opened : List (List Code)) → AreOpen opened paths.old.levels.items
        → OnOk result (AreOpen (entered opened found.now) paths.new.levels.items) }
{
    paths.enter(alloc, found)?;
    let path = paths.path(alloc)?;
    Ok(fits(pattern, &path))
}

/// Enters the box `found`, and appends it to `chosen` if `pattern` fits its path.
fn choose(
    alloc: Global,
    paths: &mut BoxPaths,
    found: &TreeBox,
    pattern: &Pattern,
    chosen: &mut Vec<TreeBox>,
) -> Result<()>
    ensures chosen { (opened : List (List Code)) → AreOpen opened paths.old.levels.items
        → OnOk result (chosen.new.items ≡ chosen.old.items
        ++ (if fits pattern.now (parts_of (entered opened found.now)) then found.now ∷ [] else [])) }
    ensures opened { (opened : List (List Code)) → AreOpen opened paths.old.levels.items
        → OnOk result (AreOpen (entered opened found.now) paths.new.levels.items) }
{
    if is_at(alloc, paths, found, pattern)? {
        chosen.push(*found)?;
    }
    Ok(())
}

/// Returns the boxes at `pattern`, in order. `boxes` has all boxes of a file.
pub fn boxes_at(alloc: Global, boxes: &[TreeBox], pattern: &Pattern) -> Result<Vec<TreeBox>>
    ensures boxes { IfOk result (λ chosen. chosen.items ≡ boxes_at pattern.now boxes.now) }
{
    let mut paths = BoxPaths::new(alloc);
    let mut chosen = Vec::new(alloc);
    'boxes: for found in boxes {
        choose(alloc, &mut paths, found, pattern, &mut chosen)?;
    }
    Ok(chosen)
}

/// Returns `found` as if the box around it of depth `depth` were at the top level of a file.
fn lifted(found: &TreeBox, depth: u64) -> TreeBox
    ensures { result ≡ lifted depth found.now }
{
    TreeBox {
        depth: found.depth.saturating_sub(depth),
        ..*found
    }
}

/// Appends those of `boxes` that are inside a box of depth `depth`, up to the first that is not, to `tree`.
fn push_inside(boxes: &[TreeBox], depth: u64, tree: &mut Vec<TreeBox>) -> Result<()>
    ensures { OnOk result (tree.new.items
        ≡ tree.old.items ++ map (lifted depth) (inside (depth + 1) boxes.now)) }
{
    'inside: for found in boxes {
        if found.depth <= depth {
            return Ok(());
        }
        tree.push(lifted(found, depth))?;
    }
    Ok(())
}

/// Appends the first of `boxes` and the boxes inside it to `tree`, as if it were at the top level of a file.
fn push_tree(boxes: &[TreeBox], tree: &mut Vec<TreeBox>) -> Result<()>
    ensures { OnOk result (tree.new.items ≡ tree.old.items ++ tree_of boxes.now) }
{
    let Some((root, rest)) = boxes.split_first() else {
        return Ok(());
    };
    tree.push(lifted(root, root.depth))?;
    push_inside(rest, root.depth, tree)
}

/// Enters the box `found`, and appends its tree to `shown` if `pattern` fits its path. `boxes` begins with `found`.
fn show_at(
    alloc: Global,
    paths: &mut BoxPaths,
    found: &TreeBox,
    boxes: &[TreeBox],
    pattern: &Pattern,
    shown: &mut Vec<TreeBox>,
) -> Result<()>
    ensures shown { (opened : List (List Code)) → AreOpen opened paths.old.levels.items
        → OnOk result (shown.new.items ≡ shown.old.items
        ++ (if fits pattern.now (parts_of (entered opened found.now)) then tree_of boxes.now else [])) }
    ensures opened { (opened : List (List Code)) → AreOpen opened paths.old.levels.items
        → OnOk result (AreOpen (entered opened found.now) paths.new.levels.items) }
{
    if is_at(alloc, paths, found, pattern)? {
        push_tree(boxes, shown)?;
    }
    Ok(())
}

/// Returns the boxes at `pattern`, each with the boxes inside it, as if it were at the top level of a file. `boxes` has
/// all boxes of a file.
pub fn trees_at(alloc: Global, boxes: &[TreeBox], pattern: &Pattern) -> Result<Vec<TreeBox>>
    ensures boxes { IfOk result (λ shown. shown.items ≡ trees_at pattern.now boxes.now) }
{
    let mut paths = BoxPaths::new(alloc);
    let mut shown = Vec::new(alloc);
    'boxes: for index in 0..boxes.len() {
        let found = &boxes[index];
        show_at(
            alloc,
            &mut paths,
            found,
            &boxes[index..],
            pattern,
            &mut shown,
        )?;
    }
    Ok(shown)
}
