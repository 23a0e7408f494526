//! The pairs of boxes of two files that have the same path.

ghost use Rattle.std.specs.Prelude.{◌≡◌, IfOk, List, OnOk};
ghost use Rattle.mp4_content.specs.Paths.{AreOpen, Code, code_key, entered, parts_of};
ghost use Rattle.mp4_diff.specs.Pairs.{AreNumbers, is_rising, is_top, key_of, least_after, partner_in};
ghost use Rattle.mp4_diff.specs.Pairs.{partners_of, paths};
ghost use Rattle.mp4_walk.specs.declared.tree_box.TreeBox.{TreeBox};

use mp4_content::{BoxPaths, Part};
use mp4_show::Result;
use mp4_walk::TreeBox;
use std::alloc::Global;
use std::collections::BTreeMap;

/// The numbers of the boxes of a file.
#[derive(Drop)]
pub struct Numbers {
    /// The number of the box at each path, by the key of the path.
    pub by_path: BTreeMap<Vec<u64>, usize>,
}

/// Returns the number of a part's code, or the number after all codes if it has none.
fn code_key(part: Part) -> u64
    ensures { result ≡ code_key part.code }
{
    match part.code {
        Some(code) => u64::from(u32::from(code)),
        None => 1 << 32,
    }
}

/// Returns the key of a path: two numbers for each part.
pub fn key_of(alloc: Global, path: &[Part]) -> Result<Vec<u64>>
    ensures { IfOk result (λ key. key.items ≡ key_of path.now) }
{
    let mut key = Vec::new(alloc);
    'parts: for index in 0..path.len() {
        key.push(code_key(path[index]))?;
        key.push(path[index].index)?;
    }
    Ok(key)
}

/// Enters the box `found`. Returns its path.
pub fn entered_path(alloc: Global, paths: &mut BoxPaths, found: &TreeBox) -> Result<Vec<Part>>
    ensures path { (opened : List (List Code)) → AreOpen opened paths.old.levels.items
        → IfOk result (λ path. path.items ≡ parts_of (entered opened found.now)) }
    ensures opened { (opened : List (List Code)) → AreOpen opened paths.old.levels.items
        → OnOk result (AreOpen (entered opened found.now) paths.new.levels.items) }
{
    paths.enter(alloc, found)?;
    paths.path(alloc)
}

/// Returns the numbers of `boxes`, which are all boxes of a file.
pub fn numbers_of(alloc: Global, boxes: &[TreeBox]) -> Result<Numbers>
    ensures { IfOk result (λ numbers. AreNumbers boxes.now numbers) }
{
    let mut paths = BoxPaths::new(alloc);
    let mut by_path = BTreeMap::new(alloc);
    'boxes: for index in 0..boxes.len() {
        let path = entered_path(alloc, &mut paths, &boxes[index])?;
        let key = key_of(alloc, &path)?;
        by_path.insert(key, index)?;
    }
    Ok(Numbers { by_path })
}

/// Returns the number of the box at `path`, or `None` if there is none.
pub fn number_at(alloc: Global, path: &[Part], numbers: &Numbers) -> Result<Option<usize>>
    ensures { (boxes : List TreeBox) → AreNumbers boxes numbers.now
        → IfOk result (λ number. number ≡ partner_in (paths boxes) path.now) }
{
    let key = key_of(alloc, path)?;
    Ok(numbers.by_path.get(key.as_slice()).copied())
}

/// Returns whether the box around that at `path` is in `numbers`. A box at the top level is in the file itself.
pub fn is_top(alloc: Global, path: &[Part], numbers: &Numbers) -> Result<bool>
    ensures { (boxes : List TreeBox) → AreNumbers boxes numbers.now
        → IfOk result (λ top. top ≡ is_top (paths boxes) path.now) }
{
    if path.len() <= 1 {
        return Ok(true);
    }
    let around = number_at(alloc, &path[..path.len() - 1], numbers)?;
    Ok(around.is_some())
}

/// Returns for each of `boxes`, which are all boxes of a file, the number of the box with the same path.
pub fn partners_of(
    alloc: Global,
    boxes: &[TreeBox],
    numbers: &Numbers,
) -> Result<Vec<Option<usize>>>
    ensures { (others : List TreeBox) → AreNumbers others numbers.now
        → IfOk result (λ partners. partners.items ≡ partners_of (paths boxes.now) (paths others)) }
{
    let mut paths = BoxPaths::new(alloc);
    let mut partners = Vec::new(alloc);
    'boxes: for found in boxes {
        let path = entered_path(alloc, &mut paths, found)?;
        partners.push(number_at(alloc, &path, numbers)?)?;
    }
    Ok(partners)
}

/// Returns the least partner that may follow the box `found` of a level of depth `depth`, if `least` was the least
/// one before. Returns `None` if `partner`, that of the box, is less.
fn least_after(found: &TreeBox, partner: Option<usize>, depth: u64, least: usize) -> Option<usize>
    ensures { result ≡ least_after depth least found.now partner }
{
    match partner {
        Some(partner) if found.depth == depth => {
            if partner < least { None } else { Some(partner) }
        }
        _ => Some(least),
    }
}

/// Returns whether the boxes of depth `depth` at the beginning of `boxes` have partners in rising order. Deeper boxes
/// are inside them, and the first box that is less deep ends them. `partners` has the partner of each of `boxes`.
pub fn is_rising(boxes: &[TreeBox], partners: &[Option<usize>], depth: u64) -> bool
    ensures { result ≡ is_rising depth 0 boxes.now partners.now }
{
    let most = boxes.len().min(partners.len());
    let mut least = 0;
    'boxes: for index in 0..most {
        if boxes[index].depth < depth {
            return true;
        }
        match least_after(&boxes[index], partners[index], depth, least) {
            Some(next) => least = next,
            None => return false,
        }
    }
    true
}
